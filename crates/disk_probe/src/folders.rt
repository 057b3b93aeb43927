// Folders of the system, and the disk of one of them.
use crate::calls::call;
use conf_folder::{FolderDisk, FolderError, NewFolder, make_folder};
use probe_words::{ended, remove_folder};
use std::alloc::{AllocError, Global};
use std::fs;

/// The files that a run may leave in a folder.
const FILES: [&str; 3] = ["store.yaml", "next.yaml", "store.lock"];

/// The folders of the system, and the disk of one of them, where one was taken.
#[derive(Drop)]
pub(crate) struct Folders<'r> {
    rt: &'r HostRuntime,
    made: Option<NewFolder>,
    taken: Option<FolderDisk<'r, HostRuntime>>,
}

impl<'r> Folders<'r> {
    /// The folders of the system; no disk is taken.
    pub(crate) fn new(rt: &'r HostRuntime) -> Self {
        Folders {
            rt,
            made: None,
            taken: None,
        }
    }

    /// Makes a folder, if there is none.
    pub(crate) fn make(&mut self, alloc: Global, name: &str) -> Result<String, AllocError> {
        match make_folder(self.rt, alloc, name) {
            Ok(Some(made)) => {
                self.made = Some(made);
                String::from_str(alloc, "made")
            }
            Ok(None) => String::from_str(alloc, "there"),
            Err(error) => shown_error(alloc, name, error),
        }
    }

    /// Removes the folder that was made last, if nothing is in it.
    pub(crate) fn unmake(&mut self, alloc: Global) -> Result<String, AllocError> {
        if let Some(made) = self.made.take() {
            made.remove_if_empty(self.rt);
        }
        String::from_str(alloc, "tried")
    }

    /// Which files are in a folder, each with a space before it.
    pub(crate) fn files(&self, alloc: Global, name: &str) -> Result<String, AllocError> {
        let mut found = String::from_str(alloc, "files")?;
        for file in FILES {
            let path = format!(in alloc; "{name}/{file}")?;
            if fs::symlink_metadata(self.rt, path.as_str()).is_ok() {
                found.push(' ')?;
                found.push_str(file)?;
            }
        }
        Ok(found)
    }

    /// Removes a folder.
    pub(crate) fn remove(&self, alloc: Global, name: &str) -> Result<String, AllocError> {
        remove_folder(self.rt, alloc, name)
    }

    /// Has others give a file these bytes in place of its own.
    pub(crate) fn write(
        &self,
        alloc: Global,
        path: &str,
        bytes: &str,
    ) -> Result<String, AllocError> {
        ended(alloc, fs::write(self.rt, path, bytes))
    }

    /// Has others put a new file of these bytes in the place of one.
    pub(crate) fn replace(
        &self,
        alloc: Global,
        path: &str,
        bytes: &str,
    ) -> Result<String, AllocError> {
        let new = format!(in alloc; "{path}.new")?;
        match fs::write(self.rt, new.as_str(), bytes) {
            Ok(()) => ended(alloc, fs::rename(self.rt, new.as_str(), path)),
            Err(error) => ended(alloc, Err(error)),
        }
    }

    /// Has others remove a file.
    pub(crate) fn unlink(&self, alloc: Global, path: &str) -> Result<String, AllocError> {
        ended(alloc, fs::remove_file(self.rt, path))
    }

    /// What a file reads as, as a quoted text.
    pub(crate) fn show(&self, alloc: Global, path: &str) -> Result<String, AllocError> {
        match fs::read_to_string(self.rt, path) {
            Ok(text) => format!(in alloc; "{text:?}"),
            Err(_) => String::from_str(alloc, "no text"),
        }
    }

    /// Takes the disk of a folder, in which a store may be made. Where it can't be taken, the one that was taken before
    /// stays, here as in what follows.
    pub(crate) fn take(&mut self, alloc: Global, name: &str) -> Result<String, AllocError> {
        self.hold(alloc, name, FolderDisk::new(self.rt, alloc, name))
    }

    /// Takes the disk of a folder that has a store.
    pub(crate) fn take_store(&mut self, alloc: Global, name: &str) -> Result<String, AllocError> {
        self.hold(alloc, name, FolderDisk::of_store(self.rt, alloc, name))
    }

    /// Takes the disk of a folder in which a new store is to be made.
    pub(crate) fn take_new(&mut self, alloc: Global, name: &str) -> Result<String, AllocError> {
        self.hold(
            alloc,
            name,
            FolderDisk::for_new_store(self.rt, alloc, name, None),
        )
    }

    /// Takes the disk of a folder for reading alone.
    pub(crate) fn take_for_reading(
        &mut self,
        alloc: Global,
        name: &str,
    ) -> Result<String, AllocError> {
        self.hold(alloc, name, FolderDisk::for_reading(self.rt, alloc, name))
    }

    fn hold(
        &mut self,
        alloc: Global,
        name: &str,
        taken: Result<FolderDisk<'r, HostRuntime>, FolderError>,
    ) -> Result<String, AllocError> {
        match taken {
            Ok(disk) => {
                self.taken = Some(disk);
                String::from_str(alloc, "taken")
            }
            Err(error) => shown_error(alloc, name, error),
        }
    }

    /// Why the call of the disk that failed last did.
    pub(crate) fn cause(&self, alloc: Global) -> Result<String, AllocError> {
        match self.taken.as_ref().and_then(|disk| disk.cause()) {
            Some(cause) => format!(in alloc; "{}", cause.shown("it")),
            None => String::from_str(alloc, "no cause"),
        }
    }

    /// Ends the run on the disk that was taken, and closes it.
    pub(crate) fn release(&mut self, alloc: Global) -> Result<String, AllocError> {
        if let Some(disk) = self.taken.take() {
            disk.release();
        }
        String::from_str(alloc, "released")
    }

    /// Closes the disk that was taken.
    pub(crate) fn close(&mut self, alloc: Global) -> Result<String, AllocError> {
        self.taken = None;
        String::from_str(alloc, "closed")
    }

    /// The answer of the disk that was taken to a call or a procedure.
    pub(crate) fn call(&mut self, alloc: Global, words: &[&str]) -> Result<String, AllocError> {
        match &mut self.taken {
            Some(disk) => call(alloc, disk, words),
            None => String::from_str(alloc, "no folder"),
        }
    }
}

/// A fault, and its cause if there is one.
fn shown_error(alloc: Global, name: &str, error: FolderError) -> Result<String, AllocError> {
    match error.cause {
        Some(cause) => format!(in alloc; "{error} {}", cause.shown(name)),
        None => format!(in alloc; "{error}"),
    }
}
