// The locks by which one run at a time changes a store, on a real folder.
ghost use Rattle.std.specs.Prelude.{◌≡◌, ◌≢◌, Ok, Err, IsOk, IfErr};
ghost use Rattle.conf_folder.specs.Modes.{mode_of_lock};
ghost use Rattle.conf_folder.specs.Refusals.{IsLocked};

use crate::files::{LOCK, Paths, look_at_files};
use crate::{FolderError, FolderFault};
use conf_files::{
    Identity, OpenFolder, Subject, find_same, give_owner_and_group, is_of_same_owner_and_group,
    look, open_plain,
};
use conf_locks::{LockPlace, LockSystem, Locking, Making, NotTaken, Opening, Origin, take_locks};
use std::fs::{File, Metadata, OpenOptions, Permissions, TryLockError};
use std::io::ErrorKind;
use std::os::unix::fs::{MetadataExt, OpenOptionsExt, PermissionsExt};
use std::rt::Files;
use std::{fs, io};

/// The mode of a new `store.lock`, until it is marked.
const NEW_LOCK: u32 = 0o600;

/// The bit of a mode that marks a `store.lock` as a run's: the sticky bit, which says nothing else of a plain file.
const MARK: u32 = 0o1000;

/// The mode of a marked `store.lock`, which its owner may read and write.
const MARKED: u32 = MARK + NEW_LOCK;

/// The bits of a mode that say what kind of access is given to whom, the mark among them.
const ACCESS: u32 = 0o7777;

/// The bit of a mode that says that the group may write.
const GROUP_WRITES: u32 = 0o20;

/// The bits that say that the group may read and write.
const GROUP: u32 = 0o60;

/// The bit of a mode that says that all others may write.
const OTHERS_WRITE: u32 = 0o2;

/// The bits that say that all others may read and write.
const OTHERS: u32 = 0o6;

/// A `store.lock` that this run holds the lock of, until this is dropped.
#[derive(Drop)]
pub(crate) struct HeldLock {
    file: File,
    origin: Origin,
}

impl HeldLock {
    /// The open `store.lock`.
    pub(crate) fn file(&self) -> &File {
        &self.file
    }

    /// Whether this run made the file, where none was. It holds the lock on the folder alone then.
    pub(crate) fn is_made(&self) -> bool {
        self.origin == Origin::Made
    }
}

/// Finds that no run holds the lock on a folder, and that its files are plain.
///
/// # Errors
/// `Locked` if another run holds it, and `Device` if a file is no plain one, or a call of the system fails.
pub(crate) fn find_readable<R: Files<File = File>>(
    rt: &R,
    folder: &OpenFolder,
    paths: &Paths,
) -> Result<(), FolderError>
    ensures { IfErr result (λ error.
        (error.fault ≢ FolderFault.NotAStore) × (error.fault ≢ FolderFault.StoreExists)) }
{
    if let Locking::Held = Subject::Given.blame(asked(folder.file().try_lock()))? {
        return Err(FolderError::locked(Subject::Given));
    }
    Subject::Given.blame(folder.file().unlock())?;
    look_at_files(rt, paths)?;
    Ok(())
}

/// Takes the locks of a run that changes the store in a folder, without waiting. They are held until what this returns
/// is closed. A missing `store.lock` is made.
///
/// `like` is what is known of the file whose owner, group and mode count: `store.yaml`, or the one that a new store
/// takes after. If there is none, those of the folder count.
///
/// # Errors
/// `Locked` if another run holds a lock, and `Device` if a call of the system fails.
pub(crate) fn lock_store<R: Files<File = File>>(
    rt: &R,
    folder: OpenFolder,
    path: &str,
    like: Option<&Metadata>,
) -> Result<(OpenFolder, HeldLock), FolderError>
    ensures { IfErr result (λ error.
        (error.fault ≢ FolderFault.NotAStore) × (error.fault ≢ FolderFault.StoreExists)) }
{
    let mut locks = HostLocks {
        rt,
        folder: Some(folder),
        path,
        file: None,
        like,
    };
    let origin = match take_locks(&mut locks) {
        Ok(origin) => origin,
        Err(why) => return Err(error_of(why)),
    };
    let HostLocks { folder, file, .. } = locks;
    let (Some(folder), Some(file)) = (folder, file) else {
        return Err(FolderError::from(LOCK.cause(not_open())));
    };
    Ok((folder, HeldLock { file, origin }))
}

/// What a lock is on, where a call on it fails.
fn subject_of(place: LockPlace) -> Subject {
    match place {
        LockPlace::File => LOCK,
        LockPlace::Folder => Subject::Given,
    }
}

/// Why the locks are not held.
fn error_of(why: NotTaken) -> FolderError
    ensures locked { result.fault ≡ FolderFault.Locked → IsLocked why }
    ensures held { IsLocked why → result.fault ≡ FolderFault.Locked }
    ensures store { (result.fault ≢ FolderFault.NotAStore)
        × (result.fault ≢ FolderFault.StoreExists) }
{
    match why {
        NotTaken::Locked(place) => FolderError::locked(subject_of(place)),
        NotTaken::Failed(place, error) => FolderError::from(subject_of(place).cause(error)),
    }
}

/// What came of asking for a lock.
fn asked(done: Result<(), TryLockError>) -> io::Result<Locking>
    ensures taken { result ≡ Ok Locking.Taken → IsOk done }
    ensures held { done ≡ Err TryLockError.WouldBlock → result ≡ Ok Locking.Held }
{
    match done {
        Ok(()) => Ok(Locking::Taken),
        Err(TryLockError::WouldBlock) => Ok(Locking::Held),
        Err(TryLockError::Error(error)) => Err(error),
    }
}

/// Why a call on a file or folder that is not open fails.
fn not_open() -> io::Error {
    io::Error::new(ErrorKind::InvalidInput, "it is not open")
}

/// Whether a file is marked as a run's.
fn is_marked(found: &Metadata) -> bool {
    found.mode() & MARK != 0
}

/// The locks of a real folder, by single calls of the system. It claims nothing.
#[derive(Drop)]
struct HostLocks<'h, R: Files<File = File>> {
    rt: &'h R,
    /// The folder, until the locks are let go.
    folder: Option<OpenFolder>,
    /// The path of `store.lock`.
    path: &'h str,
    /// The open `store.lock`.
    file: Option<File>,
    /// The file whose owner, group and mode count.
    like: Option<&'h Metadata>,
}

impl<'h, R: Files<File = File>> LockSystem for HostLocks<'h, R> {
    ghost use Rattle.std.specs.Prelude.{None, false};

    ghost model = { record {
      honest = ⊥;
      run = λ system. 0;
      locks = λ system. record {
        path = None;
        marked = λ file. false;
        holder = λ file. None;
        alone = None;
        shared = λ run. false;
      };
      opened = λ system. None;
      changes = λ system. 0;
    } };

    fn open(&mut self) -> io::Result<Opening> {
        self.file = None;
        match open_plain(
            self.rt,
            OpenOptions::new().read(true).write(true),
            self.path,
        ) {
            Ok(file) => {
                self.file = Some(file);
                Ok(Opening::Opened)
            }
            Err(error) if error.kind() == ErrorKind::NotFound => Ok(Opening::Missing),
            Err(error) if error.kind() == ErrorKind::PermissionDenied => Ok(Opening::Refused),
            Err(error) => Err(error),
        }
    }

    fn is_marked(&mut self) -> io::Result<bool> {
        let Some(file) = &self.file else {
            return Err(not_open());
        };
        let found = file.metadata()?;
        Ok(is_marked(&found))
    }

    fn is_there_marked(&mut self) -> io::Result<bool> {
        match look(self.rt, self.path)? {
            Some(found) => Ok(is_marked(&found)),
            None => Ok(false),
        }
    }

    fn try_lock_file(&mut self) -> io::Result<Locking> {
        match &self.file {
            Some(file) => asked(file.try_lock()),
            None => Err(not_open()),
        }
    }

    fn try_lock_folder(&mut self) -> io::Result<Locking> {
        match &self.folder {
            Some(folder) => asked(folder.file().try_lock()),
            None => Err(not_open()),
        }
    }

    fn try_share_folder(&mut self) -> io::Result<Locking> {
        match &self.folder {
            Some(folder) => asked(folder.file().try_lock_shared()),
            None => Err(not_open()),
        }
    }

    fn find_in_place(&mut self) -> io::Result<()> {
        let Some(file) = &self.file else {
            return Err(not_open());
        };
        let found = file.metadata()?;
        find_same(self.rt, self.path, Identity::of(&found))
    }

    fn make(&mut self) -> io::Result<Making> {
        self.file = None;
        let mut how = OpenOptions::new();
        how.read(true).write(true).create_new(true).mode(NEW_LOCK);
        match how.open(self.rt, self.path) {
            Ok(file) => {
                self.file = Some(file);
                Ok(Making::Made)
            }
            Err(error) if error.kind() == ErrorKind::AlreadyExists => Ok(Making::Exists),
            Err(error) => Err(error),
        }
    }

    fn remove(&mut self) -> io::Result<()> {
        fs::remove_file(self.rt, self.path)
    }

    fn mark(&mut self) -> io::Result<()> {
        match (&self.folder, &self.file) {
            (Some(folder), Some(file)) => admit(folder, file, self.like),
            _ => Err(not_open()),
        }
    }

    fn let_go(&mut self) {
        self.file = None;
        self.folder = None;
    }
}

/// Gives a `store.lock` the owner and the group of `like`, or of the folder if there is none, and lets open it whoever
/// may write either. Where the system refuses, it stays as it is.
fn admit(folder: &OpenFolder, file: &File, like: Option<&Metadata>) -> io::Result<()> {
    let of_folder = folder.file().metadata()?;
    let owner = like.unwrap_or(&of_folder);
    let made = file.metadata()?;
    if !is_of_same_owner_and_group(&made, owner) {
        give_owner_and_group(file, owner);
    }
    let mode = lock_mode(owner.mode() | of_folder.mode() | made.mode());
    if made.mode() & ACCESS != mode {
        let _ = file.set_permissions(Permissions::from_mode(mode));
    }
    Ok(())
}

/// The mode of a `store.lock` which those may open who are writers by a mode. Who may not write may not read either,
/// since whoever opens the file can hold its lock.
fn lock_mode(mode: u32) -> u32
    ensures { result ≡ mode_of_lock mode }
{
    let of_group = if mode & GROUP_WRITES == 0 { 0 } else { GROUP };
    let of_others = if mode & OTHERS_WRITE == 0 { 0 } else { OTHERS };
    MARKED + of_group + of_others
}
