// A new store with the base and the records of another one.
ghost use Rattle.std.specs.Prelude.{◌≡◌, ◌≢◌, ◌≤◌, IfOk, IfErr, IfSome, IsErrOf, None, OnOk, Some, Err};
ghost use Rattle.conf_history.specs.Prelude.{bytes_under, IsImage, image_now, LeavesOnly, LeavesStoreOr, HasFailed, is_several};
ghost use Rattle.conf_journal.specs.Held.{HoldsStore};
ghost use Rattle.conf_history.specs.Copies.{BacksUp, CreatesFile, LeavesOldOrCopy, ReadsCopy, RefusesBackup, RefusesFile, disk_handed_back};
ghost use Rattle.conf_history.specs.Histories.{RefusesReading};
ghost use Rattle.conf_history.specs.declared.fault.HistoryFault.{HistoryFault};

use crate::fault::{HistoryFault, SalvageFault};
use crate::replayed::BasePart;
use crate::walk::Walk;
use conf_disk::{Disk, Name, reading_is_an_image};
use conf_journal::{held_store_is_left, held_store_is_the_only_one};
use conf_store::{CreateFault, OnRefusal, Waiting, find_no_store, replace_store};
use std::alloc::Global;
use std::io::Read;
use yaml_recognizers::closings::one_list_of_pieces;

/// Makes a store with the base and the records of a store's file, so with its state, its count and its history. Returns
/// the disk.
///
/// The file is read as by [`state_at`](crate::state_at), and can't be changed by this. Its base and its records are
/// copied as they stand, so the new store's base has the format of this one. The bytes after its last closing line are
/// left out. The new store is made on `disk`, which may have no `store.yaml`, and is synced when this returns `Ok`. A
/// crash at any moment of the call leaves what it could leave before, or the whole new file. It takes memory for the
/// file, for the text of its base, and for the configurations that its records put or edit.
///
/// # Errors
/// The disk is returned with the fault. `History`: the file can't be read, is no store or is damaged; nothing is
/// written.
/// `StoreExists`: there is a `store.yaml` on the disk. `Device`: the device failed; there is no `store.yaml`, or the
/// whole new one. `OutOfMemory`: nothing is written.
pub fn back_up<R: Read, D: Disk + Drop>(
    alloc: Global,
    reader: &mut R,
    waiting: Waiting,
    disk: D,
) -> Result<D, (D, SalvageFault)>
    ensures made { D.model.honest → IfOk result (λ made. BacksUp (is_several waiting) (R.remaining reader.old)
        (R.remaining reader.new) (D.model.folder disk) (D.model.folder made)) }
    ensures refused { D.model.honest → IfErr result (λ r. RefusesBackup (is_several waiting) (R.remaining reader.old)
        (R.remaining reader.new) (D.model.folder disk) (D.model.folder r.0) r.1) }
    // This holds also if the disk isn't honest.
    ensures unread { IfErr result (λ r. (fault : HistoryFault) → r.1 ≡ SalvageFault.History fault
        → IfSome (R.remaining reader.old) (λ bytes. RefusesReading (is_several waiting) bytes None fault)) }
    // A crash at any moment of the call leaves an old store, or the whole copy, whatever it returns.
    ensures leaves { D.model.honest → LeavesOldOrCopy (is_several waiting) D.model (R.remaining reader.old)
        (R.remaining reader.new) disk (disk_handed_back result) }
    ensures cause { IfErr result (λ r. r.1 ≡ SalvageFault.Device →
        HasFailed (D.model.failure_count disk) (D.model.failure_count r.0)) }
    // The number of failures never falls.
    ensures risen { D.model.failure_count disk ≤ D.model.failure_count (disk_handed_back result) }
{
    let copy = match read_copy(alloc, reader, waiting) {
        Ok(copy) => copy,
        Err(fault) => return Err((disk, SalvageFault::History(fault))),
    };
    let mut disk = disk;
    match create_file(alloc, &mut disk, &copy) {
        Ok(()) => Ok(disk),
        Err(fault) => Err((disk, fault)),
    }
}

/// Reads a store's file, and returns its base and its records as they stand in it.
///
/// # Errors
/// Those of [`state_at`](crate::state_at) without a number.
fn read_copy<R: Read>(
    alloc: Global,
    reader: &mut R,
    waiting: Waiting,
) -> Result<Vec<u8>, HistoryFault>
    ensures ok { IfOk result (λ copy.
        ReadsCopy (is_several waiting) (R.remaining reader.old) (R.remaining reader.new) copy.items) }
    ensures refused { IfErr result (λ fault.
        IfSome (R.remaining reader.old) (λ bytes. RefusesReading (is_several waiting) bytes None fault)) }
{
    one_list_of_pieces();
    let mut walk = Walk::begin(alloc, reader)?;
    let mut copy = Vec::from_slice(alloc, walk.pieces.piece())?;
    let mut part: BasePart = walk.take_base(alloc, None)?;
    'records: while walk.next(
        alloc,
        reader,
        waiting,
        None,
        &mut part,
        OnRefusal::DropState,
    )? {
        copy.extend_from_slice(walk.pieces.piece())?;
    }
    Ok(copy)
}

/// Makes a `store.yaml` of these bytes, which may not be there, and syncs it.
///
/// # Errors
/// `StoreExists` if there is one, whatever it holds: nothing has changed. `OutOfMemory`: both files are as they were.
/// `Device`: `store.yaml` is as it was; if there was none, it may be the whole new one.
fn create_file<D: Disk>(alloc: Global, disk: &mut D, bytes: &[u8]) -> Result<(), SalvageFault>
    ensures made { D.model.honest → OnOk result
        (CreatesFile (D.model.folder disk.old) bytes.now (D.model.folder disk.new)) }
    ensures refused { D.model.honest → IfErr result (λ fault.
        RefusesFile (D.model.folder disk.old) bytes.now fault (D.model.folder disk.new)) }
    // A crash at any moment leaves an old store, or the whole new file, whatever it returns.
    ensures leaves { D.model.honest → LeavesStoreOr D.model (Some bytes.now) disk.old disk.new }
    ensures fault { IfErr result (λ fault. (read : HistoryFault) → fault ≢ SalvageFault.History read) }
    ensures cause { IsErrOf result SalvageFault.Device →
        HasFailed (D.model.failure_count disk.old) (D.model.failure_count disk.new) }
    ensures risen { D.model.failure_count disk.old ≤ D.model.failure_count disk.new }
{
    reading_is_an_image();
    held_store_is_left();
    held_store_is_the_only_one();
    match find_none(alloc, disk) {
        Ok(()) => {}
        Err(fault) => return Err(fault),
    }
    match replace_store(disk, bytes) {
        Ok(()) => Ok(()),
        Err(_) => Err(SalvageFault::Device),
    }
}

/// Finds that there is no `store.yaml`, and syncs the folder: after `Ok`, a crash leaves none.
///
/// # Errors
/// `StoreExists` if there is one: nothing has changed. `Device` and `OutOfMemory`: both files read as before.
fn find_none<D: Disk>(alloc: Global, disk: &mut D) -> Result<(), SalvageFault>
    ensures missing { D.model.honest → OnOk result (bytes_under (D.model.folder disk.old) Name.Store ≡ None) }
    ensures holds { D.model.honest → OnOk result (HoldsStore (D.model.folder disk.new) None) }
    ensures exists { D.model.honest → result ≡ Err SalvageFault.StoreExists →
        (bytes_under (D.model.folder disk.old) Name.Store ≢ None)
        × (D.model.folder disk.new ≡ D.model.folder disk.old) }
    // Whatever it returns, both files read as before.
    ensures reads { D.model.honest → image_now (D.model.folder disk.new) ≡ image_now (D.model.folder disk.old) }
    ensures any_moment { D.model.honest → LeavesOnly D.model disk.old disk.new
        (IsImage (D.model.folder disk.old)) }
    ensures fault { IfErr result (λ fault. (read : HistoryFault) → fault ≢ SalvageFault.History read) }
    ensures cause { IsErrOf result SalvageFault.Device →
        HasFailed (D.model.failure_count disk.old) (D.model.failure_count disk.new) }
    ensures risen { D.model.failure_count disk.old ≤ D.model.failure_count disk.new }
{
    match find_no_store(alloc, disk) {
        Ok(()) => Ok(()),
        Err(CreateFault::StoreExists) => Err(SalvageFault::StoreExists),
        Err(CreateFault::Device) => Err(SalvageFault::Device),
        Err(CreateFault::OutOfMemory) => Err(SalvageFault::OutOfMemory),
    }
}
