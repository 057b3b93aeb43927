// Opening a folder that an earlier run left.
ghost use Rattle.std.specs.Prelude.{◌≡◌, true, false, OnOk, IfOk};
ghost use Rattle.conf_system.specs.Folders.{folder_of};
ghost use Rattle.conf_system.specs.Machine.{notes_of, all_several, are_linked};
ghost use Rattle.conf_protocol.specs.declared.run.Bytes.TheVariants.{OnDevice, Unsure};
ghost use Rattle.conf_protocol.specs.declared.run.Names.TheVariants.{Settled, Changed};
ghost use Rattle.conf_protocol.specs.Keeps.{IsSafe, Knows, HasSameNotes};
ghost use Rattle.conf_protocol.specs.Opened.{Opens, GoesBy, CrashesAreSafe};

use crate::refusal::{NEXT, Place, Refusal};
use conf_system::{Note, System};

/// A folder that was not opened: why, and its system.
#[derive(Drop)]
pub struct Unopened<S> {
    pub refusal: Refusal,
    pub system: S,
}

/// A law: whatever a crash left, a run may build on it.
pub fn crashes_are_safe()
    ensures { CrashesAreSafe }
{}

/// Reads what an earlier run noted. Where it doesn't say that the device has all bytes, the names are put on the
/// device, each file under one.
pub(crate) fn begin<S: System>(system: &mut S) -> Result<Note, Refusal>
    requires { S.model.honest → IsSafe (S.model.machine system.old) }
    ensures opens { S.model.honest → Opens S.model system.old system.new }
    ensures noted { S.model.honest → IfOk result (λ note.
        GoesBy note (S.model.machine system.new)) }
    ensures sure { S.model.honest → IfOk result (λ note. note.on_device ≡ true
        → Knows OnDevice Unsure Changed note.several (S.model.machine system.new)) }
    ensures settled { S.model.honest → IfOk result (λ note. note.on_device ≡ false
        → Knows Unsure Unsure Settled note.several (S.model.machine system.new)) }
{
    let note = Place::Lock.blame(system.read_note())?;
    if note.on_device {
        return Ok(note);
    }
    settle(system, note)?;
    Ok(note)
}

/// Puts a note and the names on the device, each file under one name.
fn settle<S: System>(system: &mut S, note: Note) -> Result<(), Refusal>
    requires safe { S.model.honest → IsSafe (S.model.machine system.old) }
    requires noted { S.model.honest → GoesBy note (S.model.machine system.old) }
    ensures opens { S.model.honest → Opens S.model system.old system.new }
    ensures noted { S.model.honest → OnOk result (GoesBy note (S.model.machine system.new)) }
    ensures settled { S.model.honest → OnOk result
        (Knows Unsure Unsure Settled note.several (S.model.machine system.new)) }
{
    sync_told(system, note)?;
    unlink_linked(system)?;
    Place::Folder.blame(system.sync_folder())
}

/// Puts a note on the device that says that several appends may have waited.
fn sync_told<S: System>(system: &mut S, note: Note) -> Result<(), Refusal>
    requires safe { S.model.honest → IsSafe (S.model.machine system.old) }
    requires noted { S.model.honest → GoesBy note (S.model.machine system.old) }
    ensures opens { S.model.honest → Opens S.model system.old system.new }
    ensures noted { S.model.honest → OnOk result (GoesBy note (S.model.machine system.new)) }
    ensures told { S.model.honest → OnOk result (note.several ≡ true
        → all_several (notes_of (S.model.machine system.new)) ≡ true) }
{
    if !note.several {
        return Ok(());
    }
    Place::Lock.blame(system.sync_note())
}

/// Removes a `next.yaml` that is another name of `store.yaml`.
fn unlink_linked<S: System>(system: &mut S) -> Result<(), Refusal>
    requires { S.model.honest → IsSafe (S.model.machine system.old) }
    ensures opens { S.model.honest → Opens S.model system.old system.new }
    ensures apart { S.model.honest → OnOk result (let m = S.model.machine system.new in
        are_linked m.now.store m.now.next ≡ false) }
    ensures same { S.model.honest
        → HasSameNotes (S.model.machine system.old) (S.model.machine system.new) }
{
    if NEXT.blame(system.are_linked())? {
        NEXT.blame(system.unlink_next())?;
    }
    Ok(())
}
