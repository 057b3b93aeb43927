// A world in memory: folders of systems that stop after so many calls, and files.
use crate::disk::ProbeDisk;
use crate::file::WorldFile;
use crate::guarded::GuardedSystem;
use conf_files::{Cause, NewFileFault, ReplaceFault};
use conf_folder::FolderFault;
use conf_store::Waiting;
use conf_system::{FileName, Note};
use conf_tools::{Access, World};
use conf_words::Reporting;
use std::alloc::{AllocError, Global};
use std::collections::BTreeMap;
use test_system::{Fault, MemorySystem};

/// Folders and files in memory, by their paths, which are taken as they are written. After a number of calls of its
/// systems all fail, and do nothing, as if the program had been killed.
#[derive(Drop)]
pub(crate) struct MemoryWorld {
    alloc: Global,
    /// The folders. One whose disk is handed out has none.
    folders: BTreeMap<String, Option<MemorySystem>>,
    files: BTreeMap<String, Vec<u8>>,
    /// The folder whose disk is handed out: one at most.
    held: Option<Held>,
    /// The folder that was made last, until its disk is given back, or none could be handed out.
    made: Option<String>,
    /// How many calls the systems let pass in all.
    most_calls: usize,
    /// How many calls passed, but for those of the disk that is handed out.
    calls: usize,
    /// Whether a call was to be made after those.
    is_stopped: bool,
    /// Whether a call was made that may not be made.
    is_misused: bool,
}

/// A folder whose disk is handed out.
#[derive(Drop)]
struct Held {
    path: String,
    /// How many calls of its system were made before.
    before: usize,
}

impl MemoryWorld {
    /// An empty world, whose systems let so many calls pass.
    pub(crate) fn new(alloc: Global, most_calls: usize) -> MemoryWorld {
        MemoryWorld {
            alloc,
            folders: BTreeMap::new(alloc),
            files: BTreeMap::new(alloc),
            held: None,
            made: None,
            most_calls,
            calls: 0,
            is_stopped: false,
            is_misused: false,
        }
    }

    /// Adds a folder, or puts another system into one that is there.
    pub(crate) fn put_folder(
        &mut self,
        path: &str,
        system: MemorySystem,
    ) -> Result<(), AllocError> {
        self.folders
            .insert(String::from_str(self.alloc, path)?, Some(system))?;
        Ok(())
    }

    /// Makes a folder that is not there.
    fn add_folder(&mut self, alloc: Global, path: &str) -> Result<(), AllocError> {
        let made = String::from_str(alloc, path)?;
        self.put_folder(path, MemorySystem::new(alloc)?)?;
        self.made = Some(made);
        Ok(())
    }

    /// Adds a file, or puts other bytes into one that is there.
    pub(crate) fn put_file(&mut self, path: &str, bytes: &[u8]) -> Result<(), AllocError> {
        self.files.insert(
            String::from_str(self.alloc, path)?,
            bytes.to_vec(self.alloc)?,
        )?;
        Ok(())
    }

    /// The folders, with their systems.
    pub(crate) fn folders(&self) -> &BTreeMap<String, Option<MemorySystem>> {
        &self.folders
    }

    /// The system of a folder, if it is there and its disk is not handed out.
    pub(crate) fn system(&self, path: &str) -> Option<&MemorySystem> {
        self.folders.get(path)?.as_ref()
    }

    /// How many calls of its systems passed.
    pub(crate) fn calls(&self) -> usize {
        self.calls
    }

    /// Whether a call was made that may not be made.
    pub(crate) fn is_misused(&self) -> bool {
        self.is_misused
    }

    /// Lets each call pass from now on, as in a next run of the program.
    pub(crate) fn go_on(&mut self) {
        self.most_calls = usize::MAX;
        self.is_stopped = false;
    }

    /// Hands out the disk of a folder, if it has what is wanted there.
    fn hand_out(&mut self, access: Access, path: &str) -> Result<ProbeDisk, FolderFault> {
        let Ok(held) = String::from_str(self.alloc, path) else {
            return Err(FolderFault::OutOfMemory);
        };
        let Some(place) = self.folders.get_mut(path) else {
            return Err(FolderFault::Device);
        };
        let system = take_system(place, access)?;
        self.lend(held, system)
    }

    /// Opens the disk of a folder over its system, which lets as many calls pass as are left.
    fn lend(&mut self, path: String, system: MemorySystem) -> Result<ProbeDisk, FolderFault> {
        let before = system.calls();
        let last = before.saturating_add(self.left());
        self.held = Some(Held { path, before });
        let system = system.with_fault(last, Fault::Kill { part: 0 });
        match ProbeDisk::open(GuardedSystem::over(system)) {
            Ok(disk) => Ok(disk),
            Err(system) => {
                self.take_back(system);
                Err(FolderFault::Device)
            }
        }
    }

    /// How many calls may still pass.
    fn left(&self) -> usize {
        self.most_calls.saturating_sub(self.calls)
    }

    /// Puts the system of the disk that was handed out back into its folder. Calls that did not pass are forgotten.
    fn take_back(&mut self, system: GuardedSystem) {
        let Some(Held { path, before }) = self.held.take() else {
            return;
        };
        self.is_misused = self.is_misused || system.is_misused();
        let system = system.into_inner();
        let passed = self.count(system.calls().saturating_sub(before));
        let Ok(system) = system.killed_at(before.saturating_add(passed)) else {
            return;
        };
        if let Some(place) = self.folders.get_mut(path.as_str()) {
            *place = Some(system);
        }
    }

    /// Counts calls that were made. Returns how many of them passed.
    fn count(&mut self, made: usize) -> usize {
        let left = self.left();
        let passed = made.min(left);
        self.calls = self.calls.saturating_add(passed);
        self.is_stopped = self.is_stopped || made > left;
        passed
    }

    /// Removes the folder that was made last, if there is no file in it. A program that is stopped removes none.
    fn leave_nothing(&mut self) {
        let Some(path) = self.made.take() else {
            return;
        };
        if !self.is_stopped && self.is_empty(path.as_str()) {
            let _ = self.folders.remove(path.as_str());
        }
    }

    /// Whether there is no file in a folder.
    fn is_empty(&self, path: &str) -> bool {
        match self.system(path) {
            Some(system) => !has(system, FileName::Store) && !has(system, FileName::Next),
            None => false,
        }
    }
}

/// Takes the system of a folder, if it has what is wanted there.
fn take_system(
    place: &mut Option<MemorySystem>,
    access: Access,
) -> Result<MemorySystem, FolderFault> {
    let Some(system) = place.take() else {
        return Err(FolderFault::Locked);
    };
    match refusal(&system, access) {
        Some(fault) => {
            *place = Some(system);
            Err(fault)
        }
        None => Ok(system),
    }
}

/// Why a folder can't be opened for what is wanted there, if it can't.
fn refusal(system: &MemorySystem, access: Access) -> Option<FolderFault> {
    match (access, has(system, FileName::Store)) {
        (Access::Changing, false) => Some(FolderFault::NotAStore),
        (Access::New, true) => Some(FolderFault::StoreExists),
        _ => None,
    }
}

/// Whether there is a file under a name.
fn has(system: &MemorySystem, name: FileName) -> bool {
    !matches!(system.file(name), Ok(None))
}

/// The file of the store in a folder, to be read. `None` if there is none.
fn store_file(system: &MemorySystem) -> Result<Option<WorldFile>, FolderFault> {
    match (system.file(FileName::Store), system.note()) {
        (Ok(None), _) => Ok(None),
        (Ok(Some(bytes)), Ok(note)) => Ok(Some(WorldFile::new(bytes, waiting_as(note)))),
        _ => Err(FolderFault::OutOfMemory),
    }
}

/// How many records may have waited for one sync, as it is noted.
fn waiting_as(note: Note) -> Waiting {
    if note.several {
        Waiting::Several
    } else {
        Waiting::One
    }
}

impl World for MemoryWorld {
    ghost use Rattle.conf_store.specs.Holes.{is_several};

    type Disk = ProbeDisk;

    type File = WorldFile;

    /// The path of the file.
    type Place = String;

    ghost model = { record {
      made_folder = λ folder old result new. Unit {0};
      opened = λ access folder old result new. Unit {0};
      given_back = λ disk old new. Unit {0};
      opened_store = λ folder old result new. Unit {0};
      several = λ file. is_several file.waiting;
      opened_file = λ path old result new. Unit {0};
      opened_to_replace = λ path old result new. Unit {0};
      created_file = λ path bytes old result new. Unit {0};
      replaced = λ place bytes old result new. Unit {0};
    } };

    fn reporting(&self) -> Reporting {
        Reporting::Brief
    }

    fn cause(&self) -> Option<(Cause, &str)> {
        None
    }

    fn file_cause(&self) -> Option<Cause> {
        None
    }

    fn make_folder(&mut self, alloc: Global, folder: &str) -> Result<(), FolderFault> {
        if self.files.contains_key(folder) {
            return Err(FolderFault::Device);
        }
        if self.folders.contains_key(folder) {
            return Ok(());
        }
        match self.add_folder(alloc, folder) {
            Ok(()) => Ok(()),
            Err(_) => Err(FolderFault::OutOfMemory),
        }
    }

    fn open(
        &mut self,
        _alloc: Global,
        access: Access,
        folder: &str,
    ) -> Result<ProbeDisk, FolderFault> {
        let opened = self.hand_out(access, folder);
        if opened.is_err() {
            self.leave_nothing();
        }
        opened
    }

    fn open_saved(
        &mut self,
        alloc: Global,
        _like: &WorldFile,
        folder: &str,
    ) -> Result<ProbeDisk, FolderFault> {
        self.open(alloc, Access::New, folder)
    }

    fn give_back(&mut self, disk: ProbeDisk) {
        self.take_back(disk.release());
        self.leave_nothing();
    }

    fn open_store(
        &mut self,
        _alloc: Global,
        folder: &str,
    ) -> Result<Option<WorldFile>, FolderFault> {
        let opened = match self.system(folder) {
            Some(system) => store_file(system),
            None => Err(FolderFault::Device),
        };
        if opened.is_err() {
            self.leave_nothing();
        }
        opened
    }

    fn open_again(&self, _alloc: Global, _folder: &str) -> Option<WorldFile> {
        None
    }

    fn waiting(&self, file: &WorldFile) -> Waiting {
        file.waiting()
    }

    fn open_file(&mut self, path: &str) -> Option<WorldFile> {
        let bytes = self.files.get(path)?.to_vec(self.alloc).ok()?;
        Some(WorldFile::new(bytes, Waiting::One))
    }

    fn open_to_replace(
        &mut self,
        alloc: Global,
        path: &str,
    ) -> Result<(WorldFile, String), ReplaceFault> {
        let Ok(place) = String::from_str(alloc, path) else {
            return Err(ReplaceFault::OutOfMemory);
        };
        match self.open_file(path) {
            Some(file) => Ok((file, place)),
            None => Err(ReplaceFault::Device),
        }
    }

    fn create_file(
        &mut self,
        _alloc: Global,
        path: &str,
        bytes: &[u8],
    ) -> Result<(), NewFileFault> {
        if self.files.contains_key(path) {
            return Err(NewFileFault::FileExists);
        }
        match self.put_file(path, bytes) {
            Ok(()) => Ok(()),
            Err(_) => Err(NewFileFault::OutOfMemory),
        }
    }

    fn create_empty(&mut self, alloc: Global, path: &str) -> Result<(), NewFileFault> {
        self.create_file(alloc, path, b"")
    }

    fn replace(&mut self, _alloc: Global, place: String, bytes: &[u8]) -> Result<(), ReplaceFault> {
        match self.put_file(place.as_str(), bytes) {
            Ok(()) => Ok(()),
            Err(_) => Err(ReplaceFault::OutOfMemory),
        }
    }
}
