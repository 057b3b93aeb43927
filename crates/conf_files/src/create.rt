// A new file, where nothing is yet.
ghost use Rattle.std.specs.Prelude.{OnOk};
ghost use Rattle.file_calls.specs.Machine.{Machine};
ghost use Rattle.conf_files.specs.Creating.{IsUnmade, Creates};
ghost use Rattle.conf_files.specs.Standing.{HasAll};
ghost use Rattle.conf_files.specs.Steps.{IsEmpty, Fills};

use crate::cause::{Cause, Subject};
use crate::writing::write_all;
use file_calls::FileCalls;
use std::io;
use std::io::ErrorKind;
use thiserror::Error;

/// What it comes to if a file was not made.
#[derive(Clone, Copy, Debug, PartialEq, Eq, Error)]
pub enum NewFileFault {
    /// Something is at the path. It stays as it is.
    #[error("FileExists")]
    FileExists,
    /// The folder of the file can't be used, or a call of the system failed. There is no new file, unless its folder
    /// could not be synced, or the file not be removed.
    #[error("Device")]
    Device,
    /// Out of memory. There is no new file.
    #[error("OutOfMemory")]
    OutOfMemory,
}

impl From<Cause> for NewFileFault {
    fn from(cause: Cause) -> NewFileFault {
        match cause.error.kind() {
            ErrorKind::AlreadyExists => NewFileFault::FileExists,
            ErrorKind::OutOfMemory => NewFileFault::OutOfMemory,
            _ => NewFileFault::Device,
        }
    }
}

/// Makes a file of these bytes under a name, by calls of the system, and syncs it and its folder. Nobody but its owner
/// has access. What has the name already, also a link, is neither followed nor changed. A crash may leave a part of the
/// file.
///
/// # Errors
/// The cause, which comes to
/// - [`NewFileFault::FileExists`] if something has the name;
/// - [`NewFileFault::Device`] if a call of the system fails;
/// - [`NewFileFault::OutOfMemory`] if there is no memory for a path.
///
/// No file is left then, if the new one can be removed; it is the whole file if its folder could not be synced.
pub fn create_with<C: FileCalls>(calls: &mut C, bytes: &[u8]) -> Result<(), Cause>
    requires { C.model.honest → IsUnmade (C.model.machine calls.old) }
    ensures { Creates C.model bytes.now calls.old result calls.new }
{
    Subject::Given.blame(calls.create_given())?;
    if let Err(error) = write_new(calls, bytes) {
        let _ = calls.unlink_given();
        return Err(Subject::Given.cause(error));
    }
    Subject::Parent.blame(calls.sync_folder())
}

/// Writes a new file whole, and syncs it.
fn write_new<C: FileCalls>(calls: &mut C, bytes: &[u8]) -> io::Result<()>
    requires { C.model.honest → IsEmpty (C.model.machine calls.old).new }
    ensures done { C.model.honest → OnOk result (HasAll bytes.now (C.model.machine calls.new).new) }
    ensures fills { C.model.honest → Fills C.model bytes.now calls.old calls.new }
{
    write_all(calls, bytes)?;
    calls.sync_new()
}
