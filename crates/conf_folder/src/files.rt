// The files of a folder: their names and paths, and what a disk does with one of them.
ghost use Rattle.std.specs.Prelude.{◌≡◌, ◌⊎◌, IfErr};

use crate::{FolderError, FolderFault};
use conf_files::{OWNER_ALONE, OpenFolder, Subject, look, take_after};
use conf_protocol::Place;
use conf_system::FileName;
use std::alloc::{AllocError, Global};
use std::fs::{File, Metadata, OpenOptions};
use std::io;
use std::io::ErrorKind;
use std::os::unix::fs::OpenOptionsExt;
use std::rt::Files;

/// The name of the file that a store is read from.
const STORE_FILE: &str = "store.yaml";

/// The file that a store is read from, where a call on it fails.
pub(crate) const STORE: Subject = Subject::Named(STORE_FILE);

/// The name of the file that is to take its place.
const NEXT_FILE: &str = "next.yaml";

/// The name of the file that runs lock.
const LOCK_FILE: &str = "store.lock";

/// The file that runs lock, where a call on it fails.
pub(crate) const LOCK: Subject = Subject::Named(LOCK_FILE);

/// `next.yaml`, where a call on it fails.
const NEXT: Subject = Subject::Named(NEXT_FILE);

/// The name of the copy of `store.yaml` that takes its place after a failed sync.
const COPY_FILE: &str = "copy.yaml";

/// What a call of a disk failed on.
pub(crate) fn subject_of(place: Place) -> Subject {
    match place {
        Place::File(FileName::Store) => STORE,
        Place::File(FileName::Next) => NEXT,
        Place::File(FileName::Copy) => Subject::Named(COPY_FILE),
        Place::Lock => LOCK,
        Place::Folder => Subject::Given,
    }
}

/// The paths of the files of a folder.
#[derive(Drop)]
pub(crate) struct Paths {
    pub(crate) lock: String,
    store: String,
    next: String,
    copy: String,
}

impl Paths {
    fn new(alloc: Global, folder: &OpenFolder) -> Result<Paths, AllocError> {
        let lock = folder.path_of(alloc, LOCK_FILE)?;
        let store = store_path(alloc, folder)?;
        let next = folder.path_of(alloc, NEXT_FILE)?;
        let copy = folder.path_of(alloc, COPY_FILE)?;
        Ok(Paths {
            lock,
            store,
            next,
            copy,
        })
    }

    /// The path of a file.
    pub(crate) fn of(&self, name: FileName) -> &str {
        match name {
            FileName::Store => self.store.as_str(),
            FileName::Next => self.next.as_str(),
            FileName::Copy => self.copy.as_str(),
        }
    }
}

/// The path of the file that a store is read from.
pub(crate) fn store_path(alloc: Global, folder: &OpenFolder) -> Result<String, AllocError> {
    folder.path_of(alloc, STORE_FILE)
}

/// The path of the file that runs lock.
pub(crate) fn lock_path(alloc: Global, folder: &OpenFolder) -> Result<String, AllocError> {
    folder.path_of(alloc, LOCK_FILE)
}

/// Opens the folder at a path, and returns it with the paths of its files.
///
/// # Errors
/// `Device` if there is no folder at the path, or a call of the system fails; and `OutOfMemory`.
pub(crate) fn open_folder<R: Files<File = File>>(
    rt: &R,
    alloc: Global,
    path: &str,
) -> Result<(OpenFolder, Paths), FolderError>
    ensures { IfErr result (λ error.
        (error.fault ≡ FolderFault.Device) ⊎ (error.fault ≡ FolderFault.OutOfMemory)) }
{
    let folder = Subject::Given.blame(OpenFolder::new(rt, alloc, path))?;
    let paths = Paths::new(alloc, &folder)?;
    Ok((folder, paths))
}

/// Opens the folder at a path as [`open_folder`] does, and looks at its files as [`look_at_files`] does. Returns the
/// folder, the paths of its files, and what is known of `store.yaml`, if it is there.
///
/// # Errors
/// Those of the two.
pub(crate) fn open_and_look<R: Files<File = File>>(
    rt: &R,
    alloc: Global,
    path: &str,
) -> Result<(OpenFolder, Paths, Option<Metadata>), FolderError>
    ensures { IfErr result (λ error.
        (error.fault ≡ FolderFault.Device) ⊎ (error.fault ≡ FolderFault.OutOfMemory)) }
{
    let (folder, paths) = open_folder(rt, alloc, path)?;
    let store = look_at_files(rt, &paths)?;
    Ok((folder, paths, store))
}

/// Looks at `store.yaml` and `next.yaml`. Returns what is known of the first, if it is there.
///
/// # Errors
/// `Device` if either is no plain file, or a call of the system fails.
pub(crate) fn look_at_files<R: Files<File = File>>(
    rt: &R,
    paths: &Paths,
) -> Result<Option<Metadata>, FolderError>
    ensures { IfErr result (λ error.
        (error.fault ≡ FolderFault.Device) ⊎ (error.fault ≡ FolderFault.OutOfMemory)) }
{
    let store = STORE.blame(look(rt, paths.store.as_str()))?;
    NEXT.blame(look(rt, paths.next.as_str()))?;
    Ok(store)
}

/// Makes an empty file under a path, for appending. If it is to take after a file, nobody but its owner has access
/// before it does. Otherwise its mode is that of any new file.
pub(crate) fn create_staged<R: Files<File = File>>(
    rt: &R,
    path: &str,
    like: Option<&Metadata>,
) -> io::Result<File> {
    let mut how = OpenOptions::new();
    how.append(true).create_new(true);
    let Some(like) = like else {
        return how.open(rt, path);
    };
    let file = how.mode(OWNER_ALONE).open(rt, path)?;
    take_after(&file, like)?;
    Ok(file)
}

/// Whether an error says that the file system has no hard links.
pub(crate) fn has_no_links(error: &io::Error) -> bool {
    error.kind() == ErrorKind::PermissionDenied || error.kind() == ErrorKind::Unsupported
}
