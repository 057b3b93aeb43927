// Checkpoints of an open store.
ghost use Rattle.std.specs.Prelude.{◌≡◌, ◌⊎◌, ◌↔◌, true, false, List, length, IfOk, IfErr, IsErrOf, OnOk, Some, None};
ghost use Rattle.std.specs.Prelude.{IsSome, is_some};
ghost use Rattle.conf_record.specs.Formats.{base_in};
ghost use Rattle.conf_store.specs.Prelude.{bytes_under, Command, Contents};
ghost use Rattle.conf_store.specs.Changing.{CrashesLeaveState, DeviceHasCause, FailuresNeverFall, LeavesPrefix, NoneWaits, RefusalsChangeNothing, SameWait, new_file, store_file};
ghost use Rattle.conf_store.specs.Durable.{HasFlushed};
ghost use Rattle.conf_store.specs.Slices.{Begins, SliceFlushes, SliceReads, Slices, SyncedWhenDue};

use crate::base_file::write_base;
use crate::holes_mean;
use crate::slicing::{Progress, write_slice};
use crate::staging::Staging;
use crate::store::Store;
use conf_disk::{Disk, DiskFault, Name};
use conf_journal::{begin_next, held_store_is_left};
use conf_record::{documents_are_read, documents_close};
use conf_state::StoreFault;

impl<D: Disk> Store<D> {
    /// Writes a base of the state, in the format of the one before, as the new `store.yaml`, in place of the base and
    /// the records that are there. The state and its count are unchanged. Commands that waited are acknowledged. A
    /// checkpoint that runs is given up. No `next.yaml` is left.
    ///
    /// # Errors
    /// `Reopen` if the store has to be opened again. `OutOfMemory` leaves the store and the disk as they were, also a
    /// checkpoint that runs. `Device`: `store.yaml` is the old file or the whole new base, a crash may still take back
    /// commands that waited, and the store has to be opened again.
    pub fn checkpoint(&mut self) -> Result<(), StoreFault>
        ensures reopen { IsErrOf result StoreFault.Reopen ↔ (self.old.reopen ≡ true) }
        ensures ok { OnOk result ((self.new.reopen ≡ false) × (self.new.staged ≡ None)
            × (self.new.size ≡ length (base_in self.old.format self.old.state))
            × (self.new.format ≡ self.old.format)) }
        ensures refused { IfErr result (λ fault. (fault ≡ StoreFault.Reopen)
            ⊎ (fault ≡ StoreFault.Device) ⊎ (fault ≡ StoreFault.OutOfMemory)) }
        ensures running { IfErr result (λ _. self.new.staged ≡ self.old.staged) }
        ensures unchanged { RefusalsChangeNothing self.old self.new result }
        ensures state { self.new.state ≡ self.old.state }
        ensures device { IsErrOf result StoreFault.Device → self.new.reopen ≡ true }
        ensures cause { DeviceHasCause D.model self.old self.new result }
        ensures risen { FailuresNeverFall D.model self.old self.new }
        ensures reads { D.model.honest →
            OnOk result (store_file D.model self.new.disk
            ≡ Some (base_in self.old.format self.old.state)) }
        // After Ok there is no `next.yaml`.
        ensures gone { D.model.honest →
            OnOk result (bytes_under (D.model.folder self.new.disk) Name.Next ≡ None) }
        ensures any_moment { LeavesPrefix D.model self.old self.new }
        // After Ok none waits, and whatever a crash leaves means the state.
        ensures flushed { D.model.honest → OnOk result (NoneWaits D.model self.new) }
        ensures now { D.model.honest → OnOk result (CrashesLeaveState D.model self.new) }
    {
        held_store_is_left();
        holes_mean();
        if self.reopen {
            return Err(StoreFault::Reopen);
        }
        match write_base(self.alloc, &mut self.disk, &self.state, self.format) {
            Ok(size) => {
                self.size = size;
                self.base = size;
                self.waits = false;
                self.staging = Staging::none(self.alloc);
                self.staged_base = 0;
                Ok(())
            }
            Err(DiskFault::OutOfMemory) => Err(StoreFault::OutOfMemory),
            Err(DiskFault::Device) => {
                self.reopen = true;
                Err(StoreFault::Device)
            }
        }
    }

    /// Begins a checkpoint that is written in slices: makes an empty `next.yaml`, in place of one that is there, and
    /// takes memory for the names of the configurations and the text of the longest. None may run. `store.yaml` stays,
    /// and what waits still waits. Commands go on, and their records go to the end of both files. Before a command
    /// changes a configuration for the first time, its text as it is now is made and kept.
    ///
    /// # Errors
    /// `Reopen` if the store has to be opened again. `OutOfMemory` leaves the store and the disk as they were.
    /// `Device`: no checkpoint runs, `store.yaml` reads as before, and the store has to be opened again.
    pub fn begin_checkpoint(&mut self) -> Result<(), StoreFault>
        requires { self.old.staged ≡ None }
        ensures reopen { IsErrOf result StoreFault.Reopen ↔ (self.old.reopen ≡ true) }
        ensures ok { OnOk result (Begins self.old self.new) }
        ensures refused { IfErr result (λ fault. (fault ≡ StoreFault.Reopen)
            ⊎ (fault ≡ StoreFault.Device) ⊎ (fault ≡ StoreFault.OutOfMemory)) }
        ensures not_running { IfErr result (λ _. self.new.staged ≡ None) }
        ensures state { self.new.state ≡ self.old.state }
        ensures unchanged { RefusalsChangeNothing self.old self.new result }
        ensures device { IsErrOf result StoreFault.Device → self.new.reopen ≡ true }
        ensures cause { DeviceHasCause D.model self.old self.new result }
        ensures risen { FailuresNeverFall D.model self.old self.new }
        ensures reads { D.model.honest →
            store_file D.model self.new.disk ≡ store_file D.model self.old.disk }
        ensures stages { D.model.honest →
            OnOk result (new_file D.model self.new
            ≡ Some (base_in self.old.format self.old.state)) }
        ensures any_moment { LeavesPrefix D.model self.old self.new }
        // The same commands wait.
        ensures waits { SameWait D.model self.old self.new result }
    {
        documents_are_read();
        documents_close();
        held_store_is_left();
        holes_mean();
        if self.reopen {
            return Err(StoreFault::Reopen);
        }
        let Ok(staging) = Staging::begun(self.alloc, &self.state, self.format) else {
            return Err(StoreFault::OutOfMemory);
        };
        match begin_next(&mut self.disk) {
            Ok(()) => {
                self.staged_base = staging.len();
                self.staging = staging;
                Ok(())
            }
            Err(_) => {
                self.reopen = true;
                Err(StoreFault::Device)
            }
        }
    }

    /// Writes the next slice of the running checkpoint, at most 4,096 bytes, to `next.yaml`. One has to run. Returns
    /// how many bytes are left. `store.yaml` isn't synced: what waits still waits. After each 1,048,576 bytes
    /// `next.yaml` is synced, so that the last slice has few to sync. Once nothing is left the new file is synced and
    /// takes the place of `store.yaml`; all commands that wait are acknowledged, the checkpoint is over, and this
    /// returns `Done`. It takes no memory, but maybe for the mark of a configuration that is written, where commands
    /// added many names meanwhile. Without that memory the slice is written all the same.
    ///
    /// # Errors
    /// `Reopen` if the store has to be opened again. `Device`: `store.yaml` is the old file or the whole new one, a
    /// crash may still take back commands that waited, and the store has to be opened again.
    pub fn slice(&mut self) -> Result<Progress, StoreFault>
        requires { IsSome self.old.staged }
        ensures reopen { IsErrOf result StoreFault.Reopen ↔ (self.old.reopen ≡ true) }
        ensures ok { IfOk result (Slices self.old self.new) }
        ensures refused { IfErr result (λ fault.
            (fault ≡ StoreFault.Reopen) ⊎ (fault ≡ StoreFault.Device)) }
        ensures running { IfErr result (λ _. IsSome self.new.staged) }
        ensures state { self.new.state ≡ self.old.state }
        ensures unchanged { RefusalsChangeNothing self.old self.new result }
        ensures device { IsErrOf result StoreFault.Device → self.new.reopen ≡ true }
        ensures cause { DeviceHasCause D.model self.old self.new result }
        ensures risen { FailuresNeverFall D.model self.old self.new }
        ensures reads { D.model.honest → self.old.reopen ≡ false → IfOk result
            (SliceReads D.model.folder self.old self.new) }
        // After each 1,048,576 bytes of `next.yaml` none of them is pending.
        ensures synced { D.model.honest → self.old.reopen ≡ false → OnOk result
            (SyncedWhenDue (D.model.folder self.new.disk) self.new.staged) }
        ensures any_moment { LeavesPrefix D.model self.old self.new }
        // If something is left, the same commands wait. Once it is done none waits, and whatever a crash leaves means
        // the state.
        ensures waits { D.model.honest → self.old.reopen ≡ false →
            (flushed : Contents) (since : List Command)
            → HasFlushed (D.model.folder self.old.disk) flushed since self.old.state →
            IfOk result (SliceFlushes D.model.folder flushed since self.new) }
    {
        held_store_is_left();
        holes_mean();
        if self.reopen {
            return Err(StoreFault::Reopen);
        }
        match write_slice(&mut self.disk, &mut self.staging, &self.state) {
            Ok(Progress::Left { bytes }) => Ok(Progress::Left { bytes }),
            Ok(Progress::Done) => {
                self.size = self.staging.len();
                self.base = self.staged_base;
                self.waits = false;
                self.staging = Staging::none(self.alloc);
                self.staged_base = 0;
                Ok(Progress::Done)
            }
            Err(_) => {
                self.reopen = true;
                Err(StoreFault::Device)
            }
        }
    }

    /// Whether a checkpoint runs: [`begin_checkpoint`](Store::begin_checkpoint) returned `Ok`, and since then no
    /// [`slice`](Store::slice) returned `Done` and no [`checkpoint`](Store::checkpoint) returned `Ok`.
    pub fn running(&self) -> bool
        ensures { result ≡ is_some self.now.staged }
    {
        self.staging.is_running()
    }
}
