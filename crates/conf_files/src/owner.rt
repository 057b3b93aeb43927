// The owner, the group and the mode of a file that is to replace another.
ghost use Rattle.std.specs.Prelude.{◌≡◌, bit_and};
ghost use Rattle.conf_files.specs.Modes.{by_group, by_owner, kept_mode};

use std::fs::{File, Metadata, Permissions};
use std::io;
use std::os::unix::fs::{MetadataExt, PermissionsExt, fchown};

/// The mode of a new file until it has that of the file that it will replace.
pub const OWNER_ALONE: u32 = 0o600;

/// The bits of a mode that say who may read, write and run a file.
pub(crate) const ACCESS: u32 = 0o777;

/// The bits of a mode that say who but the owner may read, write and run a file.
const GROUP_AND_OTHERS: u32 = 0o77;

/// What multiplies the three bits of a class to those of the group and of all others.
const BOTH: u32 = 0o11;

/// Gives a new file the owner, the group and the mode of the file that it will replace. Where the owner or the group
/// may not be given, it stays as it is, and the mode is narrower: nobody but a new owner gets access that they did not
/// have.
///
/// # Errors
/// If the system refuses to look at the file, or to give it the mode. It may have the new owner then.
pub fn take_after(file: &File, replaced: &Metadata) -> io::Result<()> {
    if !is_of_same_owner_and_group(&file.metadata()?, replaced) {
        give_owner_and_group(file, replaced);
    }
    let made = file.metadata()?;
    let same_owner = made.uid() == replaced.uid();
    let same_group = made.gid() == replaced.gid();
    let mode = kept_mode(replaced.mode(), same_owner, same_group);
    if made.mode() & ACCESS == mode {
        return Ok(());
    }
    file.set_permissions(Permissions::from_mode(mode))
}

/// Whether both files have the same owner and the same group.
pub fn is_of_same_owner_and_group(one: &Metadata, other: &Metadata) -> bool {
    one.uid() == other.uid() && one.gid() == other.gid()
}

/// Gives a file the owner and the group of another, or the group alone, as far as the system allows it.
pub fn give_owner_and_group(file: &File, replaced: &Metadata) {
    let group = Some(replaced.gid());
    if fchown(file, Some(replaced.uid()), group).is_err() {
        let _ = fchown(file, None, group);
    }
}

/// The access of a mode that is kept in a file whose owner or group may be another.
///
/// Who was in the group may be one of the others now, and who was one of the others may be in the group: then both
/// classes keep what both had. Who was the owner may be in either: then both keep only what the owner had.
pub(crate) fn kept_mode(mode: u32, same_owner: bool, same_group: bool) -> u32
    ensures kept { result ≡ kept_mode mode same_owner same_group }
    ensures within { bit_and result mode ≡ result }
{
    mode & (0o700 | (by_group(mode, same_group) & by_owner(mode, same_owner)))
}

/// What the group and all others may keep, by whether the group is the same.
fn by_group(mode: u32, same_group: bool) -> u32
    ensures { result ≡ by_group mode same_group }
{
    if same_group {
        GROUP_AND_OTHERS
    } else {
        ((mode >> 3) & mode & 0o7) * BOTH
    }
}

/// What the group and all others may keep, by whether the owner is the same.
fn by_owner(mode: u32, same_owner: bool) -> u32
    ensures { result ≡ by_owner mode same_owner }
{
    if same_owner {
        GROUP_AND_OTHERS
    } else {
        ((mode >> 6) & 0o7) * BOTH
    }
}
