// The calls that leave given files.
ghost use Rattle.std.specs.Prelude.{◌≡◌, None, OnOk, IfOk};
ghost use Rattle.conf_system.specs.Machine.{after, SyncFolder};
ghost use Rattle.conf_system.specs.Crash.{machine_of};
ghost use Rattle.test_system.specs.Replay.{items_of, new_machine};
ghost use Rattle.test_system.specs.Log.{machine_now};
ghost use Rattle.test_system.specs.Crashes.{copy_of};
ghost use Rattle.test_system.specs.Start.{with_next, with_store, with_both, with_copy};

use crate::change::Change;
use crate::log::CallLog;
use conf_system::{FileName, Note};
use std::alloc::{AllocError, Global};

/// The calls that leave these files, this copy and this note, all on the device, with one stage.
pub(crate) fn log_with(
    alloc: Global,
    store: Option<Vec<u8>>,
    next: Option<Vec<u8>>,
    copy: Option<&[u8]>,
    note: Note,
) -> Result<CallLog, AllocError>
    ensures { IfOk result (λ log. machine_now log ≡ machine_of
        (record { store = items_of store; next = items_of next; several = note.several })
        (copy_of copy.entry) note.on_device) }
{
    let mut log = CallLog::new(alloc)?;
    put_files(&mut log, store, next)?;
    put_copy(&mut log, alloc, copy)?;
    log.make(Change::WriteNote(note))?;
    log.make(Change::SyncNote)?;
    log.read_note()?;
    Ok(log)
}

fn put_files(
    log: &mut CallLog,
    store: Option<Vec<u8>>,
    next: Option<Vec<u8>>,
) -> Result<(), AllocError>
    requires { machine_now log.old ≡ new_machine }
    ensures { OnOk result
        (machine_now log.new ≡ after SyncFolder (with_both (items_of store) (items_of next))) }
{
    put_store(log, store)?;
    if let Some(bytes) = next {
        put_next(log, bytes)?;
    }
    log.make(Change::SyncFolder)
}

fn put_store(log: &mut CallLog, store: Option<Vec<u8>>) -> Result<(), AllocError>
    requires { machine_now log.old ≡ new_machine }
    ensures { OnOk result (machine_now log.new ≡ with_store (items_of store)) }
{
    let Some(bytes) = store else {
        return Ok(());
    };
    put_next(log, bytes)?;
    log.make(Change::RenameNext)
}

fn put_next(log: &mut CallLog, bytes: Vec<u8>) -> Result<(), AllocError>
    requires { (machine_now log.old).now.next ≡ None }
    ensures { OnOk result (machine_now log.new ≡ with_next bytes.items (machine_now log.old)) }
{
    log.make(Change::CreateNext)?;
    log.make(Change::Write(FileName::Next, bytes))?;
    log.make(Change::Sync(FileName::Next))
}

fn put_copy(log: &mut CallLog, alloc: Global, copy: Option<&[u8]>) -> Result<(), AllocError>
    requires { (machine_now log.old).copy ≡ None }
    ensures { OnOk result (machine_now log.new ≡ with_copy copy.entry (machine_now log.old)) }
{
    let Some(bytes) = copy else {
        return Ok(());
    };
    log.make(Change::CreateCopy)?;
    log.make(Change::Write(FileName::Copy, bytes.to_vec(alloc)?))?;
    log.make(Change::Sync(FileName::Copy))
}
