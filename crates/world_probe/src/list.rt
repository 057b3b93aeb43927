// A list of runs of the program, and what is there before the first.
use crate::runs::{Ran, run};
use crate::world::MemoryWorld;
use conf_system::Note;
use std::alloc::{AllocError, Global};
use test_system::MemorySystem;

/// What the path of a store's file ends with, after that of its folder.
const STORE_FILE: &str = "/store.yaml";

/// What counts as noted in a folder in which no run has noted anything: the worst.
const UNKNOWN: Note = Note {
    on_device: false,
    several: true,
};

/// The words of a run, of which the first is the program's name, and its standard input.
#[derive(Drop)]
pub(crate) struct Asked {
    pub(crate) words: Vec<String>,
    pub(crate) input: String,
}

/// What is there from the beginning.
#[derive(Drop)]
pub(crate) enum Given {
    /// A folder with nothing in it.
    Folder { path: String },
    /// A file. That of a store makes its folder.
    File { path: String, bytes: Vec<u8> },
}

/// A list of runs, one after the other, in a world that has what is given.
#[derive(Drop)]
pub(crate) struct List {
    pub(crate) given: Vec<Given>,
    pub(crate) before: Vec<Asked>,
    pub(crate) last: Option<Asked>,
}

impl List {
    /// A list with no runs, and nothing given.
    pub(crate) fn new(alloc: Global) -> List {
        List {
            given: Vec::new(alloc),
            before: Vec::new(alloc),
            last: None,
        }
    }

    /// Adds a run.
    pub(crate) fn push(&mut self, asked: Asked) -> Result<(), AllocError> {
        if let Some(last) = self.last.replace(asked) {
            self.before.push(last)?;
        }
        Ok(())
    }

    /// The world before the last run, whose systems let so many calls pass in all.
    pub(crate) fn world_before(
        &self,
        alloc: Global,
        most_calls: usize,
    ) -> Result<MemoryWorld, AllocError> {
        let mut world = MemoryWorld::new(alloc, most_calls);
        put_all(alloc, &mut world, &self.given)?;
        for asked in &self.before {
            let _ = run(&mut world, alloc, &asked.words, &asked.input);
        }
        Ok(world)
    }

    /// The world after the last run, whose systems let so many calls pass in all, and what that run left.
    pub(crate) fn world_after(
        &self,
        alloc: Global,
        last: &Asked,
        most_calls: usize,
    ) -> Result<(MemoryWorld, Ran), AllocError> {
        let mut world = self.world_before(alloc, most_calls)?;
        let ran = run(&mut world, alloc, &last.words, &last.input);
        Ok((world, ran))
    }
}

/// Adds what is given to a world.
fn put_all(alloc: Global, world: &mut MemoryWorld, all: &[Given]) -> Result<(), AllocError> {
    for given in all {
        put(alloc, world, given)?;
    }
    Ok(())
}

/// Adds a folder or a file to a world.
fn put(alloc: Global, world: &mut MemoryWorld, given: &Given) -> Result<(), AllocError> {
    match given {
        Given::Folder { path } => world.put_folder(path, MemorySystem::new(alloc)?),
        Given::File { path, bytes } => match path.strip_suffix(STORE_FILE) {
            Some(folder) => {
                let store = Some(bytes.clone()?);
                world.put_folder(
                    folder,
                    MemorySystem::with_files(alloc, store, None, None, UNKNOWN)?,
                )
            }
            None => world.put_file(path, bytes),
        },
    }
}
