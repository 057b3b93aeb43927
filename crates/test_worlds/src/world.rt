// A world in memory: folders with disks, and files.
ghost use Rattle.std.specs.Prelude.{◌≡◌, []};
ghost use Rattle.test_worlds.specs.Worlds.{Stays, entries_in};

use crate::file::MemoryFile;
use crate::new_disk::NewDisk;
use crate::places::Places;
use conf_disk::Disk;
use conf_files::{Cause, NewFileFault, ReplaceFault};
use conf_folder::FolderFault;
use conf_store::Waiting;
use conf_tools::{Access, World};
use conf_words::Reporting;
use std::alloc::{AllocError, Global};
use std::collections::BTreeMap;

/// Folders and files in memory, by their paths, which are taken as they are written: two paths are two folders.
#[derive(Drop)]
pub struct MemoryWorld<D> {
    alloc: Global,
    pub(crate) places: Places<D>,
    files: BTreeMap<String, Vec<u8>>,
}

impl<D: NewDisk> MemoryWorld<D> {
    /// An empty world.
    pub fn new(alloc: Global) -> MemoryWorld<D>
        ensures { entries_in D.model result ≡ [] }
    {
        MemoryWorld {
            alloc,
            places: Places::new(alloc),
            files: BTreeMap::new(alloc),
        }
    }

    /// Adds a file, or puts other bytes into one that is there.
    ///
    /// # Errors
    /// If there is no memory for it.
    pub fn put_file(&mut self, path: &str, bytes: &[u8]) -> Result<(), AllocError>
        ensures { Stays D.model self.old self.new }
    {
        self.files.insert(
            String::from_str(self.alloc, path)?,
            bytes.to_vec(self.alloc)?,
        )?;
        Ok(())
    }
}

impl<D: NewDisk> World for MemoryWorld<D> {
    ghost use Rattle.test_worlds.specs.Worlds.{memory_world};

    type Disk = D;

    type File = MemoryFile;

    /// The path of the file.
    type Place = String;

    ghost model = { memory_world D.model };

    fn reporting(&self) -> Reporting {
        Reporting::Brief
    }

    fn cause(&self) -> Option<(Cause, &str)> {
        None
    }

    fn file_cause(&self) -> Option<Cause> {
        None
    }

    fn make_folder(&mut self, alloc: Global, folder: &str) -> Result<(), FolderFault> {
        if self.files.contains_key(folder) {
            return Err(FolderFault::Device);
        }
        match self.places.make(alloc, folder) {
            Ok(()) => Ok(()),
            Err(_) => Err(FolderFault::OutOfMemory),
        }
    }

    fn open(&mut self, alloc: Global, access: Access, folder: &str) -> Result<D, FolderFault> {
        self.places.hand_out(alloc, access, folder)
    }

    fn open_saved(
        &mut self,
        alloc: Global,
        _like: &MemoryFile,
        folder: &str,
    ) -> Result<D, FolderFault> {
        self.open(alloc, Access::New, folder)
    }

    fn give_back(&mut self, disk: D) {
        self.places.take_back(disk);
    }

    fn open_store(
        &mut self,
        alloc: Global,
        folder: &str,
    ) -> Result<Option<MemoryFile>, FolderFault> {
        self.places.read_store(alloc, folder)
    }

    fn open_again(&self, _alloc: Global, _folder: &str) -> Option<MemoryFile> {
        None
    }

    fn waiting(&self, file: &MemoryFile) -> Waiting {
        file.waiting()
    }

    fn open_file(&mut self, path: &str) -> Option<MemoryFile> {
        let bytes = self.files.get(path)?.to_vec(self.alloc).ok()?;
        Some(MemoryFile::new(bytes, Waiting::One))
    }

    fn open_to_replace(
        &mut self,
        alloc: Global,
        path: &str,
    ) -> Result<(MemoryFile, String), ReplaceFault> {
        let Ok(place) = String::from_str(alloc, path) else {
            return Err(ReplaceFault::OutOfMemory);
        };
        match self.open_file(path) {
            Some(file) => Ok((file, place)),
            None => Err(ReplaceFault::Device),
        }
    }

    fn create_file(
        &mut self,
        _alloc: Global,
        path: &str,
        bytes: &[u8],
    ) -> Result<(), NewFileFault> {
        if self.files.contains_key(path) {
            return Err(NewFileFault::FileExists);
        }
        match self.put_file(path, bytes) {
            Ok(()) => Ok(()),
            Err(_) => Err(NewFileFault::OutOfMemory),
        }
    }

    fn create_empty(&mut self, alloc: Global, path: &str) -> Result<(), NewFileFault> {
        self.create_file(alloc, path, b"")
    }

    fn replace(&mut self, _alloc: Global, place: String, bytes: &[u8]) -> Result<(), ReplaceFault> {
        match self.put_file(place.as_str(), bytes) {
            Ok(()) => Ok(()),
            Err(_) => Err(ReplaceFault::OutOfMemory),
        }
    }
}
