// Commands on an open store.
ghost use Rattle.std.specs.Prelude.{◌≡◌, ◌⊎◌, ◌↔◌, true, false, IfOk, IfErr, IsErrOf, OnOk, Err, is_some};
ghost use Rattle.conf_store.specs.Prelude.{chars, command_of, good_name, has_about};
ghost use Rattle.conf_store.specs.Calls.{Accepts, AcceptsBy, RefusesCommand, next_record, renews};
ghost use Rattle.conf_store.specs.Changing.{AppendsRecord, CommandWaits, CrashesLeaveState, DeviceHasCause, FailuresNeverFall, LeavesPrefix, LeavesPrefixOrNew, NoneWaits, RefusalsChangeNothing, StagesRecord, WaitsBy, file_with, new_file, new_file_with, store_file};
ghost use Rattle.conf_store.specs.Imports.{AppendsImport, Imports, RefusesImport};
ghost use Rattle.conf_store.specs.Slices.{StaysTheSame};

use crate::accepting::{Renewed, accept, renew};
use crate::base_file::replace_store;
use crate::holes_mean;
use crate::importing::import_command;
use crate::staging::Staging;
use crate::store::Store;
use conf_disk::Disk;
use conf_journal::{append_store, held_store_is_left, sync_store};
use conf_record::{Format, documents_are_read, documents_close};
use conf_state::{Command, StoreFault};

impl<D: Disk> Store<D> {
    /// Performs a command and appends its record to `store.yaml`, without a sync: the command waits. Returns the new
    /// count, which is one more than before. The command is acknowledged when a [`flush`](Store::flush) after it
    /// returns `Ok`. Until then a crash may take it back, and with it all that were submitted later.
    ///
    /// The first argument is the caller's number for the client that sent the command. It changes nothing.
    ///
    /// While a checkpoint runs, the record goes to the end of its new file too. Its memory is taken first.
    ///
    /// A command with an about **renews** the file, where its base is not of the third format yet: a base of the state
    /// before the command, in that format, and the record take the place of `store.yaml`, as one new file that is
    /// synced. The command and all that waited are acknowledged then, and a running checkpoint is given up.
    ///
    /// # Errors
    /// As [`apply`](Store::apply). At `Device` a crash may also take back commands that waited.
    pub fn submit(&mut self, _client: u64, command: Command) -> Result<u64, StoreFault>
        ensures reopen { IsErrOf result StoreFault.Reopen ↔ (self.old.reopen ≡ true) }
        ensures ok { IfOk result (λ count.
            Accepts self.old (command_of command) self.new × (count ≡ self.new.state.count)) }
        ensures refused { IfErr result (RefusesCommand self.old (command_of command) self.new) }
        // Whatever it returns, a running checkpoint goes on, unless the file is renewed.
        ensures running { renews self.old.format (command_of command) ≡ false →
            is_some self.new.staged ≡ is_some self.old.staged }
        ensures unchanged { RefusalsChangeNothing self.old self.new result }
        ensures device { IsErrOf result StoreFault.Device → self.new.reopen ≡ true }
        ensures cause { DeviceHasCause D.model self.old self.new result }
        ensures risen { FailuresNeverFall D.model self.old self.new }
        ensures reads { D.model.honest → self.old.reopen ≡ false →
            OnOk result (AppendsRecord self.old (command_of command)
            (store_file D.model self.old.disk) (store_file D.model self.new.disk)) }
        // So does the new file of a running checkpoint.
        ensures stages { D.model.honest → self.old.reopen ≡ false →
            OnOk result (StagesRecord self.old (command_of command)
            (new_file D.model self.old) (new_file D.model self.new)) }
        ensures any_moment { LeavesPrefixOrNew D.model self.old self.new }
        ensures waits { CommandWaits D.model self.old (command_of command) self.new result }
    {
        if self.renews(&command) {
            self.renew_with(command)
        } else {
            self.append(command)
        }
    }

    /// Whether a command renews the file.
    fn renews(&self, command: &Command) -> bool
        ensures { result ≡ renews self.now.format (command_of command.now) }
    {
        match self.format {
            Format::Second => command.has_about(),
            Format::Third => false,
        }
    }

    /// Performs a command and appends its record, for [`submit`](Store::submit).
    fn append(&mut self, command: Command) -> Result<u64, StoreFault>
        ensures reopen { IsErrOf result StoreFault.Reopen ↔ (self.old.reopen ≡ true) }
        ensures ok { IfOk result (λ count.
            AcceptsBy false self.old (command_of command) self.new
            × (count ≡ self.new.state.count)) }
        ensures refused { IfErr result (RefusesCommand self.old (command_of command) self.new) }
        // Whatever it returns, a running checkpoint goes on.
        ensures running { is_some self.new.staged ≡ is_some self.old.staged }
        ensures unchanged { RefusalsChangeNothing self.old self.new result }
        ensures device { IsErrOf result StoreFault.Device → self.new.reopen ≡ true }
        ensures cause { DeviceHasCause D.model self.old self.new result }
        ensures risen { FailuresNeverFall D.model self.old self.new }
        ensures reads { D.model.honest → self.old.reopen ≡ false →
            OnOk result (store_file D.model self.new.disk
            ≡ file_with false (store_file D.model self.old.disk) self.old.state (command_of command)) }
        // So does the new file of a running checkpoint.
        ensures stages { D.model.honest → self.old.reopen ≡ false →
            OnOk result (new_file D.model self.new
            ≡ new_file_with false (new_file D.model self.old) (next_record self.old.state (command_of command))) }
        ensures any_moment { LeavesPrefixOrNew D.model self.old self.new }
        ensures waits { WaitsBy false D.model self.old (command_of command) self.new result }
    {
        documents_close();
        held_store_is_left();
        holes_mean();
        if self.reopen {
            return Err(StoreFault::Reopen);
        }
        let (record, count) = match accept(
            self.alloc,
            &mut self.state,
            &mut self.staging,
            command,
            self.size,
        ) {
            Ok(accepted) => accepted,
            Err(fault) => return Err(fault),
        };
        match append_store(&mut self.disk, record.as_bytes()) {
            Ok(()) => {
                self.size += record.len() as u64;
                self.waits = true;
                Ok(count)
            }
            Err(_) => {
                self.reopen = true;
                Err(StoreFault::Device)
            }
        }
    }

    /// Performs a command with an about, and puts a base of the third format with its record in the place of
    /// `store.yaml`, for [`submit`](Store::submit).
    fn renew_with(&mut self, command: Command) -> Result<u64, StoreFault>
        requires about { has_about (command_of command) ≡ true }
        ensures reopen { IsErrOf result StoreFault.Reopen ↔ (self.old.reopen ≡ true) }
        ensures ok { IfOk result (λ count.
            AcceptsBy true self.old (command_of command) self.new
            × (count ≡ self.new.state.count)) }
        ensures refused { IfErr result (RefusesCommand self.old (command_of command) self.new) }
        ensures unchanged { RefusalsChangeNothing self.old self.new result }
        ensures device { IsErrOf result StoreFault.Device → self.new.reopen ≡ true }
        ensures cause { DeviceHasCause D.model self.old self.new result }
        ensures risen { FailuresNeverFall D.model self.old self.new }
        ensures reads { D.model.honest → self.old.reopen ≡ false →
            OnOk result (store_file D.model self.new.disk
            ≡ file_with true (store_file D.model self.old.disk) self.old.state (command_of command)) }
        ensures stages { D.model.honest → self.old.reopen ≡ false →
            OnOk result (new_file D.model self.new
            ≡ new_file_with true (new_file D.model self.old) (next_record self.old.state (command_of command))) }
        ensures any_moment { LeavesPrefixOrNew D.model self.old self.new }
        ensures waits { WaitsBy true D.model self.old (command_of command) self.new result }
    {
        documents_are_read();
        documents_close();
        held_store_is_left();
        holes_mean();
        if self.reopen {
            return Err(StoreFault::Reopen);
        }
        let longest = self.size.max(self.staging.len());
        let Renewed { text, base, count } = match renew(
            self.alloc,
            &mut self.state,
            command,
            longest,
        ) {
            Ok(renewed) => renewed,
            Err(fault) => return Err(fault),
        };
        self.staging = Staging::none(self.alloc);
        self.staged_base = 0;
        match replace_store(&mut self.disk, text.as_bytes()) {
            Ok(()) => {
                self.size = text.len() as u64;
                self.base = base;
                self.waits = false;
                self.format = Format::Third;
                Ok(count)
            }
            Err(_) => {
                self.reopen = true;
                Err(StoreFault::Device)
            }
        }
    }

    /// Syncs `store.yaml`: all commands that wait are acknowledged. If none waits, the disk is not called. A running
    /// checkpoint goes on. Takes no memory.
    ///
    /// # Errors
    /// `Reopen` if the store has to be opened again. `Device`: a crash may still take back commands that waited, and
    /// the store has to be opened again.
    pub fn flush(&mut self) -> Result<(), StoreFault>
        ensures reopen { IsErrOf result StoreFault.Reopen ↔ (self.old.reopen ≡ true) }
        ensures ok { OnOk result (self.new.reopen ≡ false) }
        ensures refused { IfErr result (λ fault.
            (fault ≡ StoreFault.Reopen) ⊎ (fault ≡ StoreFault.Device)) }
        ensures same { StaysTheSame self.old self.new }
        ensures unchanged { RefusalsChangeNothing self.old self.new result }
        ensures device { IsErrOf result StoreFault.Device → self.new.reopen ≡ true }
        ensures cause { DeviceHasCause D.model self.old self.new result }
        ensures risen { FailuresNeverFall D.model self.old self.new }
        ensures reads { D.model.honest →
            store_file D.model self.new.disk ≡ store_file D.model self.old.disk }
        ensures stages { D.model.honest → new_file D.model self.new ≡ new_file D.model self.old }
        ensures any_moment { LeavesPrefix D.model self.old self.new }
        // After Ok none waits, and whatever a crash leaves means the state.
        ensures flushed { D.model.honest → OnOk result (NoneWaits D.model self.new) }
        ensures now { D.model.honest → OnOk result (CrashesLeaveState D.model self.new) }
    {
        documents_close();
        held_store_is_left();
        holes_mean();
        if self.reopen {
            return Err(StoreFault::Reopen);
        }
        if !self.waits {
            return Ok(());
        }
        match sync_store(&mut self.disk) {
            Ok(()) => {
                self.waits = false;
                Ok(())
            }
            Err(_) => {
                self.reopen = true;
                Err(StoreFault::Device)
            }
        }
    }

    /// Performs a command, appends its record to `store.yaml` and syncs it: a [`submit`](Store::submit) and a
    /// [`flush`](Store::flush). Returns the new count, which is one more than before. Commands that waited are
    /// acknowledged with it.
    ///
    /// A batch is one command, with one record: a crash leaves all of its edits or none. The cost depends on the edits
    /// and the record, and not on the size of the store.
    ///
    /// # Errors
    /// `Reopen` if the store has to be opened again. Otherwise the first refusal of the command by the state, in the
    /// order of [`StoreFault`]. It is `RecordLong` if the record of a batch would be longer than 67,108,864 bytes, and
    /// `JournalLong` if `store.yaml`, or the new file of a running checkpoint, would be longer than 1,073,741,824
    /// bytes. These, and `OutOfMemory`, leave the store and the disk as they were, so what waited still waits.
    /// `Device`: the state is the one after the command, its record may be on the disk or not, and the store has to be
    /// opened again.
    pub fn apply(&mut self, command: Command) -> Result<u64, StoreFault>
        ensures reopen { IsErrOf result StoreFault.Reopen ↔ (self.old.reopen ≡ true) }
        ensures ok { IfOk result (λ count.
            Accepts self.old (command_of command) self.new × (count ≡ self.new.state.count)) }
        ensures refused { IfErr result (RefusesCommand self.old (command_of command) self.new) }
        ensures running { renews self.old.format (command_of command) ≡ false →
            is_some self.new.staged ≡ is_some self.old.staged }
        ensures unchanged { RefusalsChangeNothing self.old self.new result }
        ensures device { IsErrOf result StoreFault.Device → self.new.reopen ≡ true }
        ensures cause { DeviceHasCause D.model self.old self.new result }
        ensures risen { FailuresNeverFall D.model self.old self.new }
        ensures reads { D.model.honest → self.old.reopen ≡ false →
            OnOk result (AppendsRecord self.old (command_of command)
            (store_file D.model self.old.disk) (store_file D.model self.new.disk)) }
        // So does the new file of a running checkpoint.
        ensures stages { D.model.honest → self.old.reopen ≡ false →
            OnOk result (StagesRecord self.old (command_of command)
            (new_file D.model self.old) (new_file D.model self.new)) }
        ensures any_moment { LeavesPrefixOrNew D.model self.old self.new }
        // After Ok none waits, and whatever a crash leaves means the state.
        ensures flushed { D.model.honest → OnOk result (NoneWaits D.model self.new) }
        ensures now { D.model.honest → OnOk result (CrashesLeaveState D.model self.new) }
    {
        match self.submit(0, command) {
            Ok(count) => match self.flush() {
                Ok(()) => Ok(count),
                Err(fault) => Err(fault),
            },
            Err(fault) => Err(fault),
        }
    }

    /// Reads a text within the limits of a configuration (4,194,304 bytes, also in the one style, and 128 deep), and
    /// puts its tree under a name, in place of a tree that is there. Its record is synced, as by
    /// [`apply`](Store::apply). Returns the new count, which is one more than before.
    ///
    /// # Errors
    /// `Reopen` if the store has to be opened again. Otherwise `BadName` if the name may not be used, whatever the text
    /// is; then `Read` with the reason why the text gives no tree; then the faults of [`apply`](Store::apply). Each
    /// fault but `Device` leaves the store and the disk as they were.
    pub fn import(&mut self, name: &str, text: &[u8]) -> Result<u64, StoreFault>
        ensures reopen { IsErrOf result StoreFault.Reopen ↔ (self.old.reopen ≡ true) }
        ensures ok { IfOk result (λ count.
            Imports self.old (chars name.now) text.now self.new × (count ≡ self.new.state.count)) }
        ensures bad_name { self.old.reopen ≡ false → good_name (chars name.now) ≡ false
            → result ≡ Err StoreFault.BadName }
        ensures refused { IfErr result (RefusesImport self.old (chars name.now) text.now self.new) }
        ensures running { is_some self.new.staged ≡ is_some self.old.staged }
        ensures unchanged { RefusalsChangeNothing self.old self.new result }
        ensures device { IsErrOf result StoreFault.Device → self.new.reopen ≡ true }
        ensures cause { DeviceHasCause D.model self.old self.new result }
        ensures risen { FailuresNeverFall D.model self.old self.new }
        ensures reads { D.model.honest → self.old.reopen ≡ false →
            OnOk result (AppendsImport self.old (chars name.now) text.now
            (store_file D.model self.old.disk) (store_file D.model self.new.disk)) }
        // So does the new file of a running checkpoint.
        ensures stages { D.model.honest → self.old.reopen ≡ false →
            OnOk result (AppendsImport self.old (chars name.now) text.now
            (new_file D.model self.old) (new_file D.model self.new)) }
        ensures any_moment { LeavesPrefixOrNew D.model self.old self.new }
        // After Ok none waits, and whatever a crash leaves means the state.
        ensures flushed { D.model.honest → OnOk result (NoneWaits D.model self.new) }
        ensures now { D.model.honest → OnOk result (CrashesLeaveState D.model self.new) }
    {
        if self.needs_reopen() {
            return Err(StoreFault::Reopen);
        }
        match import_command(self.alloc, name, text) {
            Ok(command) => self.apply(command),
            Err(fault) => Err(fault),
        }
    }
}
