// A new store of what stands in a damaged file.
ghost use Rattle.std.specs.Prelude.{◌≡◌, ◌≤◌, IfOk, IfErr, IfSome};
ghost use Rattle.conf_history.specs.Prelude.{HasFailed, is_several};
ghost use Rattle.conf_history.specs.declared.fault.HistoryFault.{HistoryFault};
ghost use Rattle.conf_history.specs.Histories.{RefusesSurvey};
ghost use Rattle.conf_history.specs.Salvages.{LeavesOldOrSaved, RefusesSalvage, Saves, disk_of};

use crate::fault::SalvageFault;
use crate::survey::{Findings, survey_store};
use conf_disk::Disk;
use conf_store::{CreateFault, Waiting, create_store};
use std::alloc::Global;
use std::io::Read;

/// Makes a store of the state that stands before the first bad piece of a store's file, or of its whole state. Returns
/// the disk, and what stood in the file.
///
/// The file is read as by [`survey_store`], and can't be changed by this. The new store is made on `disk`, which may
/// have no `store.yaml`. It keeps the count of commands, and is synced when this returns `Ok`. A crash at any moment of
/// the call leaves what it could leave before, or the whole new file. That is a base and no records. It is of the
/// second format (`confstore-2`), whatever the base of the file that was read says: no record behind it has an about
/// yet.
///
/// # Errors
/// The disk is returned with the fault. `History`: the file can't be read, or is no store; nothing is written.
/// `StoreExists`: there is a `store.yaml` on the disk. `Device`: the device failed; there is no `store.yaml`, or the
/// whole new one. `OutOfMemory`: nothing is written.
pub fn salvage<R: Read, D: Disk + Drop>(
    alloc: Global,
    reader: &mut R,
    waiting: Waiting,
    disk: D,
) -> Result<(D, Findings), (D, SalvageFault)>
    ensures saved { D.model.honest → IfOk result (λ r. Saves (is_several waiting) (R.remaining reader.old)
        (R.remaining reader.new) (D.model.folder disk) (D.model.folder r.0) r.1) }
    ensures refused { D.model.honest → IfErr result (λ r. RefusesSalvage (is_several waiting) (R.remaining reader.old)
        (R.remaining reader.new) (D.model.folder disk) (D.model.folder r.0) r.1) }
    // This holds also if the disk isn't honest.
    ensures unread { IfErr result (λ r. (fault : HistoryFault) → r.1 ≡ SalvageFault.History fault
        → IfSome (R.remaining reader.old) (λ bytes. RefusesSurvey bytes fault)) }
    // A crash at any moment of the call leaves an old store, or the whole new one, whatever it returns.
    ensures leaves { D.model.honest → LeavesOldOrSaved (is_several waiting) D.model (R.remaining reader.old)
        (R.remaining reader.new) disk (disk_of result) }
    ensures cause { IfErr result (λ r. r.1 ≡ SalvageFault.Device →
        HasFailed (D.model.failure_count disk) (D.model.failure_count r.0)) }
    // The number of failures never falls.
    ensures risen { D.model.failure_count disk ≤ D.model.failure_count (disk_of result) }
{
    let found = match survey_store(alloc, reader, waiting) {
        Ok(found) => found,
        Err(fault) => return Err((disk, SalvageFault::History(fault))),
    };
    match create_store(alloc, disk, &found.state) {
        Ok(disk) => Ok((disk, found.findings)),
        Err((disk, CreateFault::StoreExists)) => Err((disk, SalvageFault::StoreExists)),
        Err((disk, CreateFault::Device)) => Err((disk, SalvageFault::Device)),
        Err((disk, CreateFault::OutOfMemory)) => Err((disk, SalvageFault::OutOfMemory)),
    }
}
