// A file of other bytes in the place of one that is there.
ghost use Rattle.std.specs.Prelude.{◌≡◌, None, OnOk};
ghost use Rattle.file_calls.specs.Machine.{Machine};
ghost use Rattle.conf_files.specs.Replacing.{IsFresh, Replaces};
ghost use Rattle.conf_files.specs.Standing.{KeepsHolding, KeepsStanding, OnlyNew};
ghost use Rattle.conf_files.specs.Steps.{CreatesStaged, IsStaged, IsFilled, IsSwapped};

use crate::cause::{Cause, Subject};
use crate::rights::take_after;
use crate::writing::write_all;
use file_calls::{Creation, FileCalls, Rights};
use std::io;
use std::io::ErrorKind;
use thiserror::Error;

/// How many names are tried for a new file, of which others may be left over.
const MOST_NAMES: u32 = 10_000;

/// What it comes to if a file was not opened to be replaced, or not replaced.
#[derive(Clone, Copy, Debug, PartialEq, Eq, Error)]
pub enum ReplaceFault {
    /// There is no plain file at the path, it may not be read or written, another file has its name by now, or a call
    /// of the system failed. The file is the old one, whole. It may be the new one, whole, if its folder could not be
    /// synced.
    #[error("Device")]
    Device,
    /// Out of memory. The file is the old one.
    #[error("OutOfMemory")]
    OutOfMemory,
}

impl From<Cause> for ReplaceFault {
    fn from(cause: Cause) -> ReplaceFault {
        if cause.is_out_of_memory() {
            ReplaceFault::OutOfMemory
        } else {
            ReplaceFault::Device
        }
    }
}

/// Puts a file that has these bytes in the place of the file that a name leads to, by calls of the system.
///
/// The new file is written beside the old one, under a name as `.confstore-0.tmp`, synced, and renamed. Then the folder
/// is synced. So a crash at any moment leaves the old file or the new one, whole. The new file has the mode of the old
/// one, and its owner and its group as far as the system allows it. Other hard links keep the old file.
///
/// A process that is killed may leave the new file under its first name. A later call takes another name.
///
/// # Errors
/// The cause, which comes to
/// - [`ReplaceFault::Device`] if another file has the name by now, the file may not be written, or a call of the system
///   fails: the file is the old one, or the new one if it can't be told whether it took the name, or its folder can't
///   be synced;
/// - [`ReplaceFault::OutOfMemory`] if there is no memory for a path: the file is the old one.
///
/// Nothing else is left in the folder then, if the new file can be removed.
pub fn replace_with<C: FileCalls>(calls: &mut C, bytes: &[u8]) -> Result<(), Cause>
    requires { C.model.honest → IsFresh (C.model.machine calls.old) }
    ensures { Replaces C.model bytes.now calls.old result calls.new }
{
    let replaced = Subject::Given.blame(calls.old_rights())?;
    Subject::Staged.blame(create_staged(calls))?;
    if let Err(cause) = swap_in(calls, replaced, bytes) {
        let _ = calls.unlink_beside();
        return Err(cause);
    }
    Subject::Parent.blame(calls.sync_folder())
}

/// Makes an empty new file beside the other one, under a name that is free.
fn create_staged<C: FileCalls>(calls: &mut C) -> io::Result<()>
    requires { C.model.honest → (C.model.machine calls.old).new ≡ None }
    ensures { CreatesStaged C.model calls.old result calls.new }
{
    for number in 0..MOST_NAMES {
        match calls.create_beside(number) {
            Ok(Creation::Made) => return Ok(()),
            Ok(Creation::Taken) => {}
            Err(error) => return Err(error),
        }
    }
    Err(io::Error::new(ErrorKind::AlreadyExists, "too many are left over"))
}

/// Writes the new file, syncs it, and gives it the name of the one that it replaces.
fn swap_in<C: FileCalls>(calls: &mut C, replaced: Rights, bytes: &[u8]) -> Result<(), Cause>
    requires { C.model.honest → IsStaged (C.model.machine calls.old) }
    ensures done { C.model.honest → OnOk result
        (IsSwapped replaced bytes.now (C.model.machine calls.new)) }
    ensures keeps { C.model.honest → KeepsHolding C.model replaced bytes.now calls.old calls.new }
{
    Subject::Staged.blame(write_staged(calls, replaced, bytes))?;
    Subject::Given.blame(calls.rename())
}

/// Writes the new file, gives it the owner, the group and the mode of the one that it will replace, and syncs it.
fn write_staged<C: FileCalls>(calls: &mut C, replaced: Rights, bytes: &[u8]) -> io::Result<()>
    requires { C.model.honest → IsStaged (C.model.machine calls.old) }
    ensures done { C.model.honest → OnOk result
        (IsFilled replaced bytes.now (C.model.machine calls.new)) }
    ensures frame { C.model.honest
        → OnlyNew (C.model.machine calls.old) (C.model.machine calls.new) }
    ensures keeps { C.model.honest → KeepsStanding C.model replaced calls.old calls.new }
{
    write_all(calls, bytes)?;
    take_after(calls, replaced)?;
    calls.sync_new()
}
