// Writing the next slice of a checkpoint.
ghost use Rattle.std.specs.Prelude.{◌≡◌, ◌≢◌, ◌<◌, Option, IsSome, Err, IfOk, OnOk};
ghost use Rattle.conf_store.specs.Prelude.{File, image_now, CountsFailures, greatest, HoldsStore, LeavesOldStore};
ghost use Rattle.conf_store.specs.Prelude.{LeavesStoreOr, Contents};
ghost use Rattle.conf_store.specs.Durable.{staged_text};
ghost use Rattle.conf_store.specs.Slices.{SyncedWhenDue, WritesSlice};
ghost use Rattle.conf_store.specs.Staged.{staged_length};
ghost use Rattle.conf_store.specs.Stagings.{CanSlice, staged_of};

use crate::staging::Staging;
use conf_disk::{Disk, DiskFault};
use conf_journal::{append_next, finish_next, runs_of_calls_are_joined, sync_next};
use conf_state::State;

/// What a slice of a checkpoint did.
#[derive(Clone, Copy, Debug, PartialEq, Eq)]
pub enum Progress {
    /// A part of the new file was written. So many bytes are left to write, at least one.
    Left { bytes: u64 },
    /// The whole new file was written, and is `store.yaml` now.
    Done,
}

/// Appends the next slice to `next.yaml`. If nothing is left, syncs the file and puts it in the place of `store.yaml`.
/// Otherwise syncs it if that is due.
///
/// # Errors
/// `Device`: `store.yaml` is the old file or the whole new one.
pub fn write_slice<D: Disk>(
    disk: &mut D,
    staging: &mut Staging,
    state: &State,
) -> Result<Progress, DiskFault>
    requires running { IsSome (staged_of state.now staging.old) }
    requires ready { CanSlice state.now.configs staging.old }
    requires there { D.model.honest → IsSome (D.model.folder disk.old).now.next }
    ensures ok { IfOk result (λ progress. WritesSlice D.model disk.old
        (staged_of state.now staging.old) progress disk.new (staged_of state.now staging.new)) }
    ensures running { IsSome (staged_of state.now staging.new) }
    ensures ready { CanSlice state.now.configs staging.new }
    ensures long { staged_length (staged_of state.now staging.new)
        ≡ staged_length (staged_of state.now staging.old) }
    // A crash leaves an old store, or the whole new file.
    ensures any_moment { D.model.honest → LeavesStoreOr D.model
        (staged_text (D.model.folder disk.old) (staged_of state.now staging.old)) disk.old disk.new }
    ensures failures { CountsFailures (D.model.failure_count disk.old) (D.model.failure_count disk.new) result }
    ensures fault { result ≢ Err DiskFault.OutOfMemory }
{
    runs_of_calls_are_joined::<D>();
    staging.make_slice(state);
    append_next(disk, staging.slice())?;
    let left = staging.pass_slice();
    if left > 0 {
        sync_if_due(disk, staging)?;
        return Ok(Progress::Left { bytes: left });
    }
    finish_next(disk)?;
    Ok(Progress::Done)
}

/// Syncs `next.yaml` if another [`SYNC_AFTER`](crate::staging::SYNC_AFTER) bytes are in it, so that the last slice has
/// few to sync.
///
/// # Errors
/// `Device`. Whatever it returns, both files are read as before, and `store.yaml` is unchanged.
fn sync_if_due<D: Disk>(disk: &mut D, staging: &Staging) -> Result<(), DiskFault>
    ensures reads { D.model.honest → image_now (D.model.folder disk.new) ≡ image_now (D.model.folder disk.old) }
    ensures holds { D.model.honest → (file : Option File) → HoldsStore (D.model.folder disk.old) file →
        OnOk result (HoldsStore (D.model.folder disk.new) file) }
    // A crash leaves an old store.
    ensures any_moment { D.model.honest → LeavesOldStore D.model disk.old disk.new }
    ensures synced { D.model.honest → IsSome (D.model.folder disk.old).now.next →
        OnOk result ((s : Contents) → SyncedWhenDue (D.model.folder disk.new) (staged_of s staging.now)) }
    ensures failures { D.model.failure_count disk.old < greatest →
        CountsFailures (D.model.failure_count disk.old) (D.model.failure_count disk.new) result }
    ensures fault { result ≢ Err DiskFault.OutOfMemory }
{
    if staging.is_sync_due() {
        return sync_next(disk);
    }
    Ok(())
}
