// The files and folders of the system.
use crate::waiting::Waiting;
use crate::world::{Access, World};
use conf_files::{
    Cause, NewFileFault, Place, ReplaceFault, Subject, create_empty, create_file, open_input,
    open_to_replace, replace_file,
};
use conf_folder::{
    FolderDisk, FolderError, FolderFault, NewFolder, make_folder, may_several_wait, open_store_file,
};
use conf_journal::STORE_LIMIT;
use conf_store::Waiting as Records;
use conf_words::Reporting;
use std::alloc::Global;
use std::cell::Cell;
use std::fs::File;
use std::io;
use std::io::{ErrorKind, Read};
use std::rt::{Clock, Files};
use std::time::Duration;

/// Why the last read of a file failed, as the system says; `None` if it did not.
pub type ReadFailure = Cell<Option<io::Error>>;

/// A file that is open to be read. It notes why a read failed.
#[derive(Drop)]
pub struct InputFile<'r> {
    file: File,
    failure: &'r ReadFailure,
    /// How many records may have waited for one sync, if it is the file of a store.
    records: Records,
}

impl Read for InputFile<'_> {
    fn read(&mut self, buf: &mut [u8]) -> io::Result<usize> {
        let done = self.file.read(buf);
        match &done {
            Err(error) if error.kind() != ErrorKind::Interrupted => self.failure.set(Some(*error)),
            _ => {}
        }
        done
    }
}

/// The world that a runtime gives. It claims nothing of its folders and files, as a [`FolderDisk`] doesn't.
#[derive(Drop)]
pub struct Host<'r, F> {
    rt: &'r F,
    /// How much is said of a text that is refused, where the words ask for no more.
    reporting: Reporting,
    /// For how long a folder is tried again whose lock another run holds.
    wait: Duration,
    /// The folder that was made last, until a disk of it is given back, or could not be opened.
    made: Option<NewFolder>,
    /// The path that the last call on a folder, or on a new file, was given.
    folder: Option<String>,
    /// Why the call on a folder, or on a new file, that failed last did.
    cause: Option<Cause>,
    /// Why the last call on a file failed, if it did.
    file_cause: Option<Cause>,
    /// Why a read of the file that was opened last failed, if one did.
    read_failure: &'r ReadFailure,
}

impl<'r, F: Files<File = File> + Clock> Host<'r, F> {
    /// The files and folders that `rt` opens. Of a refused text so much is said, where the words ask for no more.
    /// A folder whose lock another run holds is tried again for so long. Why a read failed is noted in `read_failure`.
    pub fn new(
        rt: &'r F,
        reporting: Reporting,
        wait: Duration,
        read_failure: &'r ReadFailure,
    ) -> Host<'r, F> {
        Host {
            rt,
            reporting,
            wait,
            made: None,
            folder: None,
            cause: None,
            file_cause: None,
            read_failure,
        }
    }

    /// A file that was opened, of which no read has failed.
    fn input(&self, file: File, records: Records) -> InputFile<'r> {
        self.read_failure.set(None);
        InputFile {
            file,
            failure: self.read_failure,
            records,
        }
    }

    /// How many records of the store in a folder may have waited for one sync. It is asked for before its file is
    /// opened, since a run that puts a file in the place of one with a hole takes the note away.
    fn note_of(&self, alloc: Global, folder: &str) -> Records {
        if may_several_wait(self.rt, alloc, folder) {
            Records::Several
        } else {
            Records::One
        }
    }

    /// Begins a call on the folder, or on the new file, at a path.
    fn begin(&mut self, alloc: Global, folder: &str) {
        self.folder = String::from_str(alloc, folder).ok();
    }

    /// Keeps the cause of a call that failed.
    fn keep<T>(&mut self, done: Result<T, FolderError>) -> Result<T, FolderFault> {
        match done {
            Ok(value) => Ok(value),
            Err(error) => {
                self.cause = error.cause;
                Err(error.fault)
            }
        }
    }

    /// Keeps the cause of a call on a file, if it failed.
    fn keep_of_file<T>(&mut self, done: Result<T, Cause>) -> Result<T, ReplaceFault> {
        match done {
            Ok(value) => {
                self.file_cause = None;
                Ok(value)
            }
            Err(cause) => {
                self.file_cause = Some(cause);
                Err(ReplaceFault::from(cause))
            }
        }
    }

    /// Keeps the cause of a call on a new file, if it failed.
    fn keep_of_new_file(&mut self, made: Result<(), Cause>) -> Result<(), NewFileFault> {
        match made {
            Ok(()) => Ok(()),
            Err(cause) => {
                self.cause = Some(cause);
                Err(NewFileFault::from(cause))
            }
        }
    }

    /// Opens the disk of the folder at a path, once.
    fn try_open(
        &self,
        alloc: Global,
        access: Access,
        folder: &str,
    ) -> Result<FolderDisk<'r, F>, FolderError> {
        let opened = match access {
            Access::Changing => FolderDisk::of_store(self.rt, alloc, folder),
            Access::Making | Access::Reading => FolderDisk::new(self.rt, alloc, folder),
            Access::New => FolderDisk::for_new_store(self.rt, alloc, folder, None),
        };
        match (opened, access) {
            (Err(error), Access::Reading) if error.fault == FolderFault::Device => {
                FolderDisk::for_reading(self.rt, alloc, folder)
            }
            (opened, _) => opened,
        }
    }

    /// Opens the disk of the folder at a path. While another run holds a lock, it tries again, as long as it may.
    fn open_in_time(
        &self,
        alloc: Global,
        access: Access,
        folder: &str,
    ) -> Result<FolderDisk<'r, F>, FolderError> {
        let waiting = Waiting::new(self.rt, self.wait);
        let mut opened = self.try_open(alloc, access, folder);
        for number in 0..waiting.most_tries() {
            match &opened {
                Err(error) if error.fault == FolderFault::Locked => {}
                _ => break,
            }
            if !waiting.pause(self.rt, number) {
                break;
            }
            opened = self.try_open(alloc, access, folder);
        }
        opened
    }

    /// Hands out a disk that was opened. If none was, a folder that was made for it is removed.
    fn hand_out(
        &mut self,
        opened: Result<FolderDisk<'r, F>, FolderError>,
    ) -> Result<FolderDisk<'r, F>, FolderFault> {
        match opened {
            Ok(disk) => Ok(disk),
            Err(error) => Err(self.refuse(error)),
        }
    }

    /// The fault of a folder in which nothing could be opened. A folder that was made for it is removed.
    fn refuse(&mut self, error: FolderError) -> FolderFault {
        self.leave_nothing();
        self.cause = error.cause;
        error.fault
    }

    /// Removes the folder that was made last, if nothing is in it.
    fn leave_nothing(&mut self) {
        if let Some(made) = self.made.take() {
            made.remove_if_empty(self.rt);
        }
    }
}

impl<'r, F: Files<File = File> + Clock> World for Host<'r, F> {
    ghost use Rattle.conf_store.specs.Holes.{is_several};

    type Disk = FolderDisk<'r, F>;

    type File = InputFile<'r>;

    type Place = Place;

    ghost model = { record {
      made_folder = λ folder old result new. Unit {0};
      opened = λ access folder old result new. Unit {0};
      given_back = λ disk old new. Unit {0};
      opened_store = λ folder old result new. Unit {0};
      several = λ file. is_several file.records;
      opened_file = λ path old result new. Unit {0};
      opened_to_replace = λ path old result new. Unit {0};
      created_file = λ path bytes old result new. Unit {0};
      replaced = λ place bytes old result new. Unit {0};
    } };

    fn reporting(&self) -> Reporting {
        self.reporting
    }

    fn cause(&self) -> Option<(Cause, &str)> {
        match (self.cause, &self.folder) {
            (Some(cause), Some(folder)) => Some((cause, folder.as_str())),
            _ => None,
        }
    }

    fn file_cause(&self) -> Option<Cause> {
        match self.read_failure.get() {
            Some(error) => Some(Subject::Given.cause(error)),
            None => self.file_cause,
        }
    }

    fn make_folder(&mut self, alloc: Global, folder: &str) -> Result<(), FolderFault> {
        self.begin(alloc, folder);
        let made = make_folder(self.rt, alloc, folder);
        self.made = self.keep(made)?;
        Ok(())
    }

    fn open(
        &mut self,
        alloc: Global,
        access: Access,
        folder: &str,
    ) -> Result<FolderDisk<'r, F>, FolderFault> {
        self.begin(alloc, folder);
        let opened = self.open_in_time(alloc, access, folder);
        self.hand_out(opened)
    }

    fn open_saved(
        &mut self,
        alloc: Global,
        like: &InputFile<'r>,
        folder: &str,
    ) -> Result<FolderDisk<'r, F>, FolderFault> {
        self.begin(alloc, folder);
        let opened = FolderDisk::for_new_store(self.rt, alloc, folder, Some(&like.file));
        self.hand_out(opened)
    }

    fn give_back(&mut self, disk: FolderDisk<'r, F>) {
        self.cause = disk.cause();
        disk.release();
        self.leave_nothing();
    }

    fn open_store(
        &mut self,
        alloc: Global,
        folder: &str,
    ) -> Result<Option<InputFile<'r>>, FolderFault> {
        self.begin(alloc, folder);
        let records = self.note_of(alloc, folder);
        match open_store_file(self.rt, alloc, folder) {
            Ok(Some(file)) if is_too_long(&file) => {
                Err(self.refuse(FolderError::from(FolderFault::NotAStore)))
            }
            Ok(Some(file)) => Ok(Some(self.input(file, records))),
            Ok(None) => Ok(None),
            Err(error) => Err(self.refuse(error)),
        }
    }

    fn open_again(&self, alloc: Global, folder: &str) -> Option<InputFile<'r>> {
        let records = self.note_of(alloc, folder);
        match open_store_file(self.rt, alloc, folder) {
            Ok(Some(file)) if !is_too_long(&file) => Some(self.input(file, records)),
            _ => None,
        }
    }

    fn waiting(&self, file: &InputFile<'r>) -> Records {
        file.records
    }

    fn open_file(&mut self, path: &str) -> Option<InputFile<'r>> {
        self.read_failure.set(None);
        let opened = open_input(self.rt, path);
        let file = self.keep_of_file(opened).ok()?;
        Some(self.input(file, Records::One))
    }

    fn open_to_replace(
        &mut self,
        alloc: Global,
        path: &str,
    ) -> Result<(InputFile<'r>, Place), ReplaceFault> {
        self.read_failure.set(None);
        let opened = open_to_replace(self.rt, alloc, path);
        let (file, place) = self.keep_of_file(opened)?;
        Ok((self.input(file, Records::One), place))
    }

    fn create_file(&mut self, alloc: Global, path: &str, bytes: &[u8]) -> Result<(), NewFileFault> {
        self.begin(alloc, path);
        let made = create_file(self.rt, alloc, path, bytes);
        self.keep_of_new_file(made)
    }

    fn create_empty(&mut self, alloc: Global, path: &str) -> Result<(), NewFileFault> {
        self.begin(alloc, path);
        let made = create_empty(self.rt, path);
        self.keep_of_new_file(made)
    }

    fn replace(&mut self, alloc: Global, place: Place, bytes: &[u8]) -> Result<(), ReplaceFault> {
        let replaced = replace_file(self.rt, alloc, &place, bytes);
        self.keep_of_file(replaced)
    }
}

/// Whether a file is known to have more bytes than a store may have.
fn is_too_long(file: &File) -> bool {
    match file.metadata() {
        Ok(found) => found.len() > STORE_LIMIT,
        Err(_) => false,
    }
}
