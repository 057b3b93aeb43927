// Reading the state of a folder without a change to it.
ghost use Rattle.std.specs.Prelude.{◌≡◌, ◌≤◌, IfOk, IfErr, IsErrOf};
ghost use Rattle.conf_store.specs.Prelude.{IsState};
ghost use Rattle.conf_store.specs.Calls.{HasFailed};
ghost use Rattle.conf_store.specs.Changing.{store_file, store_note};
ghost use Rattle.conf_store.specs.Files.{FilesStay};
ghost use Rattle.conf_store.specs.Meaning.{FolderMeans};
ghost use Rattle.conf_store.specs.Opens.{FileRecoversTo, RefusesOpening, RefusalMeans};

use crate::opening::{Found, find_state};
use crate::recovery::Opened;
use crate::waiting::Waiting;
use crate::{OpenFault, bytes_mean_one_state};
use conf_disk::{Disk, DiskFault, Name};
use conf_journal::STORE_LIMIT;
use conf_state::State;
use std::alloc::Global;

/// Reads the state that `store.yaml` means, and returns it with what was found. A missing file is the empty state. The
/// only call of the disk is one read, so nothing is written or synced.
///
/// This is for a folder that can't be written, and for a look at a store that stays as it is. The state is the one that
/// [`Store::open`](crate::Store::open) would return. But what was read may not be synced: a crash may take back its
/// last commands, until the store is opened or flushed.
///
/// The time is linear in the length of the file, as that of an opening.
///
/// # Errors
/// `NotAStore` and `Damaged` if `store.yaml` means nothing, as an opening returns them. `Device` if the read failed,
/// and `OutOfMemory`. Both files are as they were, whatever this returns.
pub fn read_state<D: Disk>(alloc: Global, disk: &mut D) -> Result<(State, Opened), OpenFault>
    ensures found { D.model.honest → IfOk result (λ r.
        FileRecoversTo (store_note D.model disk.old) (store_file D.model disk.old)
        r.0 r.1.commands r.1.dropped) }
    // The state is what `store.yaml` means.
    ensures means { D.model.honest → IfOk result (λ r. FolderMeans (D.model.folder disk.old) r.0) }
    ensures limits { IfOk result (λ r. IsState r.0) }
    ensures refused { D.model.honest → IfErr result (λ fault.
        RefusesOpening fault (store_note D.model disk.old) (store_file D.model disk.old)) }
    // A file that is refused means nothing.
    ensures no_meaning { D.model.honest → IfErr result (λ fault.
        RefusalMeans fault (store_note D.model disk.old) (store_file D.model disk.old)) }
    ensures cause { IsErrOf result OpenFault.Device →
        HasFailed (D.model.failure_count disk.old) (D.model.failure_count disk.new) }
    // The number of failures never falls.
    ensures risen { D.model.failure_count disk.old ≤ D.model.failure_count disk.new }
    // Whatever it returns, nothing has changed, and what was to be synced still is.
    ensures same { D.model.honest → D.model.folder disk.new ≡ D.model.folder disk.old }
    // What a crash leaves, now and at any moment of the call, it could leave before.
    ensures stays { D.model.honest → FilesStay D.model disk.old disk.new }
{
    bytes_mean_one_state();
    let waiting = Waiting::noted_on(disk);
    let content = match disk.read(alloc, Name::Store, STORE_LIMIT) {
        Ok(content) => content,
        Err(DiskFault::Device) => return Err(OpenFault::Device),
        Err(DiskFault::OutOfMemory) => return Err(OpenFault::OutOfMemory),
    };
    match find_state(alloc, content, waiting) {
        Ok(Found { state, opened, .. }) => Ok((state, opened)),
        Err(fault) => Err(fault),
    }
}
