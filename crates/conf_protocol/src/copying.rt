// Making a copy of `store.yaml`, and putting it in the file's place.
ghost use Rattle.std.specs.Prelude.{◌≡◌, None, Some, IsSome, OnOk, OnErr, false, ℕ, List, [], length};
ghost use Rattle.conf_system.specs.declared.system.FileName.TheVariants.{Store};
ghost use Rattle.conf_system.specs.Machine.{under, bytes_under, are_linked, empty_version};
ghost use Rattle.conf_system.specs.Folders.{folder_of};
ghost use Rattle.conf_protocol.specs.Keeps.{IsPlain};
ghost use Rattle.conf_protocol.specs.Moments.{Copies, Changes};
ghost use Rattle.conf_protocol.specs.Copying.{HasCopy, IsKept, IsPlaced};

use crate::reading::{PART, ends_too_soon};
use crate::refusal::{COPY, Place, Refusal, STORE};
use crate::writing::write_all;
use conf_system::{FileName, System};

/// Puts a copy in the place of `store.yaml`, of which bytes may be in memory alone. The device has all of the copy.
pub(crate) fn put_copy<S: System>(system: &mut S) -> Result<(), Refusal>
    requires there { S.model.honest → IsSome (under (S.model.machine system.old) Store) }
    requires plain { S.model.honest → IsPlain (S.model.machine system.old) }
    requires settled { S.model.honest → length (S.model.machine system.old).earlier ≡ 0 }
    requires apart { S.model.honest → (let m = S.model.machine system.old in
        are_linked m.now.store m.now.next ≡ false) }
    requires off { S.model.honest → (S.model.machine system.old).note.on_device ≡ false }
    ensures placed { S.model.honest → OnOk result
        (IsPlaced (S.model.machine system.old) (S.model.machine system.new)) }
    ensures failed { S.model.honest → OnErr result
        (folder_of (S.model.machine system.new) ≡ folder_of (S.model.machine system.old)) }
    ensures kept { S.model.honest
        → IsKept (S.model.machine system.old) (S.model.machine system.new) }
    ensures moments { S.model.honest → Changes S.model system.old system.new }
{
    if let Err(refusal) = make_copy(system) {
        let _ = remove_copy(system);
        return Err(refusal);
    }
    STORE.blame(system.place_copy())?;
    Place::Folder.blame(system.sync_folder())
}

/// Makes a copy of `store.yaml` that the device has whole, in place of one that an earlier run left.
fn make_copy<S: System>(system: &mut S) -> Result<(), Refusal>
    requires { S.model.honest → IsSome (under (S.model.machine system.old) Store) }
    ensures copied { S.model.honest → OnOk result (HasCopy (S.model.machine system.new)) }
    ensures copies { S.model.honest → Copies S.model system.old system.new }
{
    remove_copy(system)?;
    COPY.blame(system.create_copy())?;
    fill_copy(system)?;
    COPY.blame(system.sync(FileName::Copy))
}

/// Removes a copy, if there is one.
fn remove_copy<S: System>(system: &mut S) -> Result<(), Refusal>
    ensures none { S.model.honest → OnOk result ((S.model.machine system.new).copy ≡ None) }
    ensures copies { S.model.honest → Copies S.model system.old system.new }
{
    if COPY.blame(system.look(FileName::Copy))?.is_some() {
        COPY.blame(system.unlink_copy())?;
    }
    Ok(())
}

/// Adds all that `store.yaml` reads as to an empty copy.
fn fill_copy<S: System>(system: &mut S) -> Result<(), Refusal>
    requires there { S.model.honest → IsSome (under (S.model.machine system.old) Store) }
    requires empty { S.model.honest → (S.model.machine system.old).copy ≡ Some empty_version }
    ensures filled { S.model.honest → OnOk result ((bytes : List ℕ)
        → bytes_under (S.model.machine system.new) Store ≡ Some bytes
        → (S.model.machine system.new).copy
        ≡ Some (record { device = []; pending = bytes; failed = false })) }
    ensures copies { S.model.honest → Copies S.model system.old system.new }
{
    let Some(total) = STORE.blame(system.open(FileName::Store))? else {
        return Err(STORE.refusal(ends_too_soon()));
    };
    let mut part = [0_u8; PART];
    let mut done: u64 = 0;
    while done < total {
        let count = match system.read_at(FileName::Store, &mut part, done) {
            Ok(count) => count,
            Err(error) => return Err(STORE.refusal(error)),
        };
        if count == 0 || count > PART {
            return Err(STORE.refusal(ends_too_soon()));
        }
        if let Err(error) = write_all(system, FileName::Copy, &part[..count]) {
            return Err(COPY.refusal(error));
        }
        done = done.saturating_add(count as u64);
    }
    Ok(())
}
