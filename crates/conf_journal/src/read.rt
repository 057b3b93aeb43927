// The procedure that reads `store.yaml`.
ghost use Rattle.std.specs.Prelude.{◌≡◌, [], ◌∷◌, OnOk, IfOk, Err, option_map};
ghost use Rattle.conf_journal.specs.Prelude.{Sync, SyncFolder, bytes_under, Reads, IsImage, image_now, synced_file};
ghost use Rattle.conf_journal.specs.Prelude.{folder_after, CountsFailures, LeavesOnly};
ghost use Rattle.conf_journal.specs.Held.{HoldsStore};
ghost use Rattle.conf_journal.specs.Store.{store_limit};

use conf_disk::{Content, Disk, DiskFault, Name};
use std::alloc::Global;

/// The greatest length of `store.yaml`, in bytes.
pub const STORE_LIMIT: u64 = 1_073_741_824;

/// Syncs the folder and `store.yaml`, and reads that file: after `Ok`, a crash leaves exactly what was read.
///
/// Returns `Missing` if there is no file, and `TooLong` if it has more than [`STORE_LIMIT`] bytes. What the two names
/// read as is unchanged, whatever this returns, and so is the note of several appends.
///
/// # Errors
/// `Device`: the folder and the file may be synced or not. `OutOfMemory`: both are synced.
pub fn load<D: Disk>(alloc: Global, disk: &mut D) -> Result<Content, DiskFault>
    ensures content { D.model.honest → IfOk result (λ content.
        Reads (D.model.folder disk.old) Name.Store store_limit content) }
    ensures folder { D.model.honest →
        OnOk result
        (D.model.folder disk.new ≡ folder_after (SyncFolder ∷ Sync Name.Store ∷ [])
        (D.model.folder disk.old)) }
    ensures unread { D.model.honest → result ≡ Err DiskFault.OutOfMemory →
        D.model.folder disk.new ≡ folder_after (SyncFolder ∷ Sync Name.Store ∷ []) (D.model.folder disk.old) }
    ensures any_moment { D.model.honest → LeavesOnly D.model disk.old disk.new
        (IsImage (D.model.folder disk.old)) }
    ensures spent { D.model.honest → D.model.failure_count disk.old ≡ u64.MAX
        → D.model.folder disk.new ≡ D.model.folder disk.old }
    ensures failures { CountsFailures (D.model.failure_count disk.old) (D.model.failure_count disk.new) result }

    ensures reads { D.model.honest → image_now (D.model.folder disk.new) ≡ image_now (D.model.folder disk.old) }
    ensures holds { D.model.honest →
        OnOk result
        (HoldsStore (D.model.folder disk.new)
        (option_map synced_file (bytes_under (D.model.folder disk.old) Name.Store))) }
{
    disk.sync_folder()?;
    disk.sync(Name::Store)?;
    disk.read(alloc, Name::Store, STORE_LIMIT)
}
