// The owner, the group and the mode of a new file that is to replace another.
ghost use Rattle.std.specs.Prelude.{◌≡◌, IsSome, OnOk, false};
ghost use Rattle.file_calls.specs.Machine.{Machine};
ghost use Rattle.conf_files.specs.Modes.{NewIsPrivate, TakesAfter};
ghost use Rattle.conf_files.specs.Standing.{KeepsStanding, OnlyNew, SameVersion};
ghost use Rattle.conf_files.specs.Steps.{IsGiven};

use crate::owner::kept_mode;
use file_calls::{FileCalls, Rights};
use std::io;

/// Gives the new file the owner, the group and the mode of the file that it will replace. Where the owner or the group
/// may not be given, it stays as it is, and the mode is narrower: nobody but a new owner gets access that they did not
/// have.
///
/// # Errors
/// If the system refuses to look at the file, or to give it the mode. It may have the new owner then.
pub(crate) fn take_after<C: FileCalls>(calls: &mut C, replaced: Rights) -> io::Result<()>
    requires made { C.model.honest → IsSome (C.model.machine calls.old).new }
    requires narrow { C.model.honest → NewIsPrivate (C.model.machine calls.old).new }
    requires granted { C.model.honest → (C.model.machine calls.old).is_refused ≡ false }
    ensures done { C.model.honest → OnOk result
        (TakesAfter replaced (C.model.machine calls.new)) }
    ensures bytes { C.model.honest
        → SameVersion (C.model.machine calls.old) (C.model.machine calls.new) }
    ensures frame { C.model.honest
        → OnlyNew (C.model.machine calls.old) (C.model.machine calls.new) }
    ensures keeps { C.model.honest → KeepsStanding C.model replaced calls.old calls.new }
{
    let made = match calls.new_rights() {
        Ok(made) => made,
        Err(error) => return Err(error),
    };
    if made.owner != replaced.owner || made.group != replaced.group {
        give_owner_and_group(calls, replaced);
    }
    give_mode(calls, replaced)
}

/// Gives the new file the owner and the group of the file that it will replace, or the group alone, as far as the
/// system allows it.
fn give_owner_and_group<C: FileCalls>(calls: &mut C, replaced: Rights)
    requires made { C.model.honest → IsSome (C.model.machine calls.old).new }
    requires narrow { C.model.honest → NewIsPrivate (C.model.machine calls.old).new }
    ensures given { C.model.honest → IsGiven replaced (C.model.machine calls.new) }
    ensures mode { C.model.honest → NewIsPrivate (C.model.machine calls.new).new }
    ensures bytes { C.model.honest
        → SameVersion (C.model.machine calls.old) (C.model.machine calls.new) }
    ensures frame { C.model.honest
        → OnlyNew (C.model.machine calls.old) (C.model.machine calls.new) }
    ensures keeps { C.model.honest → KeepsStanding C.model replaced calls.old calls.new }
{
    match calls.give_owner(replaced.owner, replaced.group) {
        Ok(()) => {}
        Err(_) => {
            let _ = calls.give_group(replaced.group);
        }
    }
}

/// Gives the new file the mode that it may have in the place of the file that it will replace.
fn give_mode<C: FileCalls>(calls: &mut C, replaced: Rights) -> io::Result<()>
    requires made { C.model.honest → IsSome (C.model.machine calls.old).new }
    requires given { C.model.honest → IsGiven replaced (C.model.machine calls.old) }
    ensures done { C.model.honest → OnOk result
        (TakesAfter replaced (C.model.machine calls.new)) }
    ensures bytes { C.model.honest
        → SameVersion (C.model.machine calls.old) (C.model.machine calls.new) }
    ensures frame { C.model.honest
        → OnlyNew (C.model.machine calls.old) (C.model.machine calls.new) }
    ensures keeps { C.model.honest → KeepsStanding C.model replaced calls.old calls.new }
{
    let made = match calls.new_rights() {
        Ok(made) => made,
        Err(error) => return Err(error),
    };
    let mode = kept_mode(
        replaced.mode,
        made.owner == replaced.owner,
        made.group == replaced.group,
    );
    if made.mode == mode {
        return Ok(());
    }
    calls.set_mode(mode)
}
