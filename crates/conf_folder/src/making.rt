// Making a folder that is to hold a store.
ghost use Rattle.std.specs.Prelude.{◌≡◌, ◌⊎◌, IfErr};
ghost use Rattle.conf_folder.specs.NewFolders.{Makes};

use crate::calls::{FolderCalls, FolderMaking};
use crate::{FolderError, FolderFault};
use conf_files::{Cause, Subject, parent_of};
use std::alloc::Global;
use std::fs::File;
use std::io::ErrorKind;
use std::rt::Files;
use std::{fs, io};

/// A folder that this run made.
#[derive(Drop)]
pub struct NewFolder {
    path: String,
}

impl NewFolder {
    /// Removes the folder if nothing is in it. Where the system refuses, it stays.
    pub fn remove_if_empty<R: Files<File = File>>(&self, rt: &R) {
        let _ = fs::remove_dir(rt, self.path.as_str());
    }
}

/// Makes a folder, and syncs the folder that it is in, as [`make_with`] does. Whatever is at the path stays as it is:
/// then this returns `None`.
///
/// # Errors
/// `Device` if a call of the system fails, and `OutOfMemory`.
pub fn make_folder<R: Files<File = File>>(
    rt: &R,
    alloc: Global,
    path: &str,
) -> Result<Option<NewFolder>, FolderError>
    ensures { IfErr result (λ error.
        (error.fault ≡ FolderFault.Device) ⊎ (error.fault ≡ FolderFault.OutOfMemory)) }
{
    let new = NewFolder {
        path: String::from_str(alloc, path)?,
    };
    match make_with(&mut HostFolder { rt, path }) {
        Ok(true) => Ok(Some(new)),
        Ok(false) => Ok(None),
        Err(cause) => Err(FolderError::from(cause)),
    }
}

/// Makes a folder, by calls of the system, and syncs the folder that it is in, so that a crash leaves it. Returns
/// whether it is new: whatever is at the path stays as it is. A new folder that can't be synced is removed again.
///
/// The folder that it is in is synced also if the folder was there, since a run that made it may have been killed
/// before it did so. One that this run may not read, and so can't sync, is left out then.
///
/// # Errors
/// The cause, if a call of the system fails. The new folder is gone then, unless the call failed that made it or was to
/// remove it. A crash may leave it, empty.
pub fn make_with<C: FolderCalls>(calls: &mut C) -> Result<bool, Cause>
    ensures { Makes C.model calls.old result calls.new }
{
    match calls.make() {
        Ok(FolderMaking::Made) => match calls.sync_parent() {
            Ok(()) => Ok(true),
            Err(error) => {
                let _ = calls.remove();
                Err(Subject::Parent.cause(error))
            }
        },
        Ok(FolderMaking::Exists) => match calls.sync_parent() {
            Err(error) if error.kind() != ErrorKind::PermissionDenied => {
                Err(Subject::Parent.cause(error))
            }
            Ok(()) | Err(_) => Ok(false),
        },
        Err(error) => Err(Subject::Given.cause(error)),
    }
}

/// A folder at a path, by single calls of the system. It claims nothing.
#[derive(Drop)]
struct HostFolder<'h, R> {
    rt: &'h R,
    path: &'h str,
}

impl<R: Files<File = File>> FolderCalls for HostFolder<'_, R> {
    ghost use Rattle.conf_folder.specs.NewFolders.{no_folder};

    ghost model = { record {
      honest = ⊥;
      machine = λ folder. no_folder;
      moment = λ folder. 0;
      held = λ folder t m. ⊥;
    } };

    ghost holds_now = { λ folder t honest le. absurd honest };

    ghost only_now = { λ folder m honest held. absurd honest };

    fn make(&mut self) -> io::Result<FolderMaking> {
        match fs::create_dir(self.rt, self.path) {
            Ok(()) => Ok(FolderMaking::Made),
            Err(error) if error.kind() == ErrorKind::AlreadyExists => Ok(FolderMaking::Exists),
            Err(error) => Err(error),
        }
    }

    fn remove(&mut self) -> io::Result<()> {
        fs::remove_dir(self.rt, self.path)
    }

    fn sync_parent(&mut self) -> io::Result<()> {
        let parent = File::open(self.rt, parent_of(self.path))?;
        parent.sync_all()
    }
}
