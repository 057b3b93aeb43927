// The trait: what a call returns, what it changes in the folder, and what a crash during it may leave.
ghost use Rattle.std.specs.Prelude.{◌≡◌, ◌≢◌, ◌≤◌, ℕ, None, IsSome, IfOk, Result, Err};
ghost use Rattle.conf_disk.specs.Folder.{Folder, Step, CreateNext, Append, Sync, RenameNext, RemoveNext, SyncFolder, under, several_waited, Performs, Reads};
ghost use Rattle.conf_disk.specs.Image.{Image, IsImage, IsWhole};
ghost use Rattle.conf_disk.specs.Models.{DiskModel};
ghost use Rattle.conf_disk.specs.Moments.{TimeGoesOn, CountsFailures, IsChange, SaysOfChange, SaysOfRead};
ghost use Rattle.conf_disk.specs.declared.disk.DiskFault.{DiskFault};
ghost use Rattle.conf_disk.specs.declared.disk.Content.{Content};
ghost use Rattle.conf_disk.specs.declared.disk.Name.{Name};

use std::alloc::Global;
use thiserror::Error;

/// The two names of a folder.
#[derive(Clone, Copy, Debug, PartialEq, Eq)]
pub enum Name {
    /// `store.yaml`, the live file.
    Store,
    /// `next.yaml`, the file that is to take its place.
    Next,
}

/// What is under a name.
#[derive(Debug, Drop)]
pub enum Content {
    /// There is no file.
    Missing,
    /// All bytes of the file, synced and pending.
    Bytes(Vec<u8>),
    /// The file has more bytes than the limit of the read.
    TooLong,
}

/// Why a call failed.
#[derive(Clone, Copy, Debug, PartialEq, Eq, Error)]
pub enum DiskFault {
    /// The device failed. A call that changes something may have had its whole effect, a part of it, or none. A read
    /// changes nothing.
    #[error("Device")]
    Device,
    /// Out of memory for the bytes that were read. Only a read returns this, and it changes nothing.
    #[error("OutOfMemory")]
    OutOfMemory,
}

/// A folder of two names.
///
/// A file has synced bytes, which a crash leaves, and pending bytes after them, of which it leaves as many as there are
/// or fewer, each as it was or zero. The folder has stages, one for each change of its names since its last sync, and a
/// crash leaves one of them.
///
/// The disk keeps a note for each file under `Store`: that several appends to it may have waited for one sync. An
/// append sets it if bytes of the file are pending. A file that is renamed to `Store` has no note, but where the rename
/// failed it may have that of the file before. A crash leaves the note that there was, and may leave one where there
/// was none.
///
/// The clauses on what the disk holds, reads and leaves have the premise that the disk is `honest`, and so have the
/// conditions on callers. A disk over a real folder does not claim it; where such a condition does not hold, it returns
/// [`DiskFault::Device`]. The clauses on faults have no premise.
///
/// # Errors
/// Any call but `failures` and `several_waited` may return [`DiskFault::Device`]; then what it was to change may have
/// changed in whole, in part or not at all. Of an append a part is a prefix of the bytes, and of a sync a part of what
/// it was to sync.
pub trait Disk {
    /// What contracts see of the disk: whether it is honest, its folder, the moment, what a crash leaves, and how often
    /// the device has failed.
    ghost model: { DiskModel Self };

    /// What a disk promises of a changing call beside the clauses below: the disk before, the call, its result, the
    /// disk after.
    ghost also_changes: { SaysOfChange Self } = { λ _ _ _ _. Unit {0} };

    /// What a disk promises of a read beside the clauses below: the disk before, the name, the limit, the result, the
    /// disk after.
    ghost also_reads: { SaysOfRead Self } = { λ _ _ _ _ _. Unit {0} };

    /// How often the device has failed, up to 18,446,744,073,709,551,615. From then on every call but this one and
    /// `several_waited` returns `Device` and changes nothing.
    fn failures(&self) -> u64
        ensures { result ≡ model.failure_count self.now };

    /// Whether several appends to the file under `Store` may have waited for one sync, in this run or in one before it.
    fn several_waited(&self) -> bool
        ensures { model.honest → result ≡ several_waited (model.folder self.now) };

    /// The bytes under a name, if they are at most `max`. A read changes nothing, whatever it returns.
    ///
    /// # Errors
    /// `Device`, and `OutOfMemory` if there is no memory for the bytes.
    fn read(&mut self, alloc: Global, name: Name, max: u64) -> Result<Content, DiskFault>
        ensures content { model.honest → IfOk result (λ content.
            Reads (model.folder self.old) name max content) }
        ensures same { model.honest → model.folder self.new ≡ model.folder self.old }
        ensures time { model.honest → TimeGoesOn model self.old self.new }
        ensures failures { CountsFailures (model.failure_count self.old) (model.failure_count self.new) result }
        ensures also { also_reads self.old name max result self.new };

    /// Makes an empty file under the name `Next`. There may be none before.
    fn create_next(&mut self) -> Result<(), DiskFault>
        requires { model.honest → (model.folder self.old).now.next ≡ None }
        ensures goes { IsChange model CreateNext self.old result self.new }
        ensures also { also_changes self.old CreateNext result self.new };

    /// Appends bytes to the file under a name, which has to be there. They are pending until the file is synced.
    fn append(&mut self, name: Name, bytes: &[u8]) -> Result<(), DiskFault>
        requires { model.honest → IsSome (under (model.folder self.old).now name) }
        ensures goes { IsChange model (Append name bytes.now) self.old result self.new }
        ensures also { also_changes self.old (Append name bytes.now) result self.new };

    /// Syncs the file under a name: after `Ok`, a crash leaves all of its bytes. Where there is no file it does
    /// nothing.
    fn sync(&mut self, name: Name) -> Result<(), DiskFault>
        ensures goes { IsChange model (Sync name) self.old result self.new }
        ensures also { also_changes self.old (Sync name) result self.new };

    /// Renames the file under `Next`, which has to be there, to `Store`. It replaces the file there, if there is one.
    fn rename_next(&mut self) -> Result<(), DiskFault>
        requires { model.honest → IsSome (model.folder self.old).now.next }
        ensures goes { IsChange model RenameNext self.old result self.new }
        ensures also { also_changes self.old RenameNext result self.new };

    /// Removes the file under `Next`. Where there is none it does nothing.
    fn remove_next(&mut self) -> Result<(), DiskFault>
        ensures goes { IsChange model RemoveNext self.old result self.new }
        ensures also { also_changes self.old RemoveNext result self.new };

    /// Syncs the folder: after `Ok`, a crash leaves each name with the file that it has now.
    fn sync_folder(&mut self) -> Result<(), DiskFault>
        ensures goes { IsChange model SyncFolder self.old result self.new }
        ensures also { also_changes self.old SyncFolder result self.new };

    /// This moment is one of those since an earlier one.
    ghost counts_now: { (disk : Self) (t : ℕ) (image : Image) → model.honest → t ≤ model.moment disk
        → IsImage (model.folder disk) image → model.left disk t image };

    /// Since this moment there is no other.
    ghost only_now: { (disk : Self) (image : Image) → model.honest → model.left disk (model.moment disk) image
        → IsImage (model.folder disk) image };

    /// Each file under a name is one of the folder's, and the staged one was never the live one.
    ghost whole: { (disk : Self) → model.honest → IsWhole (model.folder disk) };
}
