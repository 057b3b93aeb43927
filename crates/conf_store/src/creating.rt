// Making a store of a state.
ghost use Rattle.std.specs.Prelude.{◌≡◌, ◌≢◌, ◌≤◌, None, Some, OnOk, IfOk, IfErr, IsErrOf, Err};
ghost use Rattle.conf_store.specs.Prelude.{bytes_under, Image, IsImage, image_now, LeavesOnly, HoldsStore};
ghost use Rattle.conf_store.specs.Prelude.{LeavesStoreOr, base_bytes, IsState};
ghost use Rattle.conf_store.specs.Calls.{HasFailed};
ghost use Rattle.conf_store.specs.Creates.{RefusesCreation, disk_behind};
ghost use Rattle.conf_store.specs.Durable.{AllImagesMean};
ghost use Rattle.conf_store.specs.Meaning.{FolderMeans};

use crate::base_file::write_base;
use conf_disk::{Content, Disk, DiskFault, Name, reading_is_an_image};
use conf_journal::{held_store_is_left, held_store_is_the_only_one, load};
use conf_record::{Format, documents_are_read, documents_close};
use conf_state::State;
use std::alloc::Global;
use thiserror::Error;

/// Why no store was made of a state.
#[derive(Clone, Copy, Debug, PartialEq, Eq, Error)]
pub enum CreateFault {
    /// There is a `store.yaml`, whatever it holds. Nothing has changed.
    #[error("StoreExists")]
    StoreExists,
    /// The device failed. `store.yaml` is as it was; if there was none, it may be the whole new one.
    #[error("Device")]
    Device,
    /// Out of memory, for the text of the base. Both files are as they were.
    #[error("OutOfMemory")]
    OutOfMemory,
}

/// Makes a store of a state on `disk`, which may have no `store.yaml`. Returns the disk. `store.yaml` is a base of the
/// state then, all synced, and `next.yaml` is gone. Only opening it makes a [`Store`](crate::Store) of it.
///
/// A crash at any moment of the call leaves what it could leave before, or the whole new file. Once this has returned
/// `Ok`, it leaves the new file.
///
/// # Errors
/// The disk is returned with the fault. `StoreExists` if there is a `store.yaml`, whatever it holds: nothing has
/// changed. `OutOfMemory`: both files are as they were. `Device`: `store.yaml` is as it was; if there was none, it may
/// be the whole new one.
pub fn create_store<D: Disk + Drop>(
    alloc: Global,
    disk: D,
    state: &State,
) -> Result<D, (D, CreateFault)>
    requires { IsState state.now }
    ensures missing { D.model.honest → OnOk result (bytes_under (D.model.folder disk) Name.Store ≡ None) }
    ensures reads { D.model.honest → IfOk result (λ made.
        bytes_under (D.model.folder made) Name.Store ≡ Some (base_bytes state.now)) }
    ensures gone { D.model.honest → IfOk result (λ made.
        bytes_under (D.model.folder made) Name.Next ≡ None) }
    ensures means { D.model.honest → IfOk result (λ made.
        FolderMeans (D.model.folder made) state.now) }
    // After Ok, a crash leaves the new file, and so what means the state.
    ensures synced { D.model.honest → IfOk result (λ made. (image : Image) →
        IsImage (D.model.folder made) image → image.store ≡ Some (base_bytes state.now)) }
    ensures now { D.model.honest → IfOk result (λ made. AllImagesMean (D.model.folder made) state.now) }
    ensures refused { D.model.honest → IfErr result (λ r.
        RefusesCreation (D.model.folder disk) state.now r.1 (D.model.folder r.0)) }
    // A crash at any moment of the call leaves an old store, or the whole new one, whatever it returns.
    ensures leaves { D.model.honest →
        LeavesStoreOr D.model (Some (base_bytes state.now))
        disk (disk_behind result) }
    ensures cause { IfErr result (λ r. r.1 ≡ CreateFault.Device →
        HasFailed (D.model.failure_count disk) (D.model.failure_count r.0)) }
    // The number of failures never falls.
    ensures risen { D.model.failure_count disk ≤ D.model.failure_count (disk_behind result) }
{
    documents_are_read();
    documents_close();
    reading_is_an_image();
    held_store_is_left();
    held_store_is_the_only_one();
    let mut disk = disk;
    match find_no_store(alloc, &mut disk) {
        Ok(()) => {}
        Err(fault) => return Err((disk, fault)),
    }
    match write_base(alloc, &mut disk, state, Format::Second) {
        Ok(_) => Ok(disk),
        Err(DiskFault::Device) => Err((disk, CreateFault::Device)),
        Err(DiskFault::OutOfMemory) => Err((disk, CreateFault::OutOfMemory)),
    }
}

/// Finds that there is no `store.yaml`, and syncs the folder: after `Ok`, a crash leaves none.
///
/// # Errors
/// `StoreExists` if there is one: nothing has changed. `Device` and `OutOfMemory`: both files read as before.
pub fn find_no_store<D: Disk>(alloc: Global, disk: &mut D) -> Result<(), CreateFault>
    ensures missing { D.model.honest → OnOk result (bytes_under (D.model.folder disk.old) Name.Store ≡ None) }
    ensures holds { D.model.honest → OnOk result (HoldsStore (D.model.folder disk.new) None) }
    ensures exists { D.model.honest → result ≡ Err CreateFault.StoreExists →
        (bytes_under (D.model.folder disk.old) Name.Store ≢ None)
        × (D.model.folder disk.new ≡ D.model.folder disk.old) }
    // Whatever it returns, both files read as before.
    ensures reads { D.model.honest → image_now (D.model.folder disk.new) ≡ image_now (D.model.folder disk.old) }
    ensures any_moment { D.model.honest → LeavesOnly D.model disk.old disk.new
        (IsImage (D.model.folder disk.old)) }
    ensures cause { IsErrOf result CreateFault.Device →
        HasFailed (D.model.failure_count disk.old) (D.model.failure_count disk.new) }
    ensures risen { D.model.failure_count disk.old ≤ D.model.failure_count disk.new }
{
    held_store_is_the_only_one();
    match disk.read(alloc, Name::Store, 0) {
        Ok(Content::Missing) => {}
        Ok(_) => return Err(CreateFault::StoreExists),
        Err(DiskFault::Device) => return Err(CreateFault::Device),
        Err(DiskFault::OutOfMemory) => return Err(CreateFault::OutOfMemory),
    }
    match load(alloc, disk) {
        Ok(_) => Ok(()),
        Err(DiskFault::Device) => Err(CreateFault::Device),
        Err(DiskFault::OutOfMemory) => Err(CreateFault::OutOfMemory),
    }
}
