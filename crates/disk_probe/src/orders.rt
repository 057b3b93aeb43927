// Where the orders go: to scripts of runs in memory, and to folders of the system.
use crate::attacks::attack;
use crate::folder_orders;
use crate::folders::Folders;
use probe_words::{Answers, no_order};
use std::alloc::Global;
use std::io;

/// The folders that orders are about.
#[derive(Drop)]
pub(crate) struct Disks<'r> {
    folders: Folders<'r>,
}

impl<'r> Disks<'r> {
    /// No folder is taken.
    pub(crate) fn new(rt: &'r HostRuntime) -> Self {
        Disks {
            folders: Folders::new(rt),
        }
    }
}

impl Answers for Disks<'_> {
    fn answer(&mut self, alloc: Global, order: &str) -> io::Result<String> {
        let words: Vec<&str> = order.split(';').collect(alloc)?;
        match words.as_slice() {
            ["folder", words @ ..] => Ok(folder_orders::answer(alloc, &mut self.folders, words)?),
            ["runs", script] => Ok(attack(alloc, script)?),
            _ => Ok(no_order(alloc)?),
        }
    }
}
