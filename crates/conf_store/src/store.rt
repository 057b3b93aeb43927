// An open store: how it is opened and closed, and what it says of its state.
ghost use Rattle.std.specs.Prelude.{◌≡◌, ◌≢◌, ◌≤◌, ◌⊎◌, true, false, List, OnOk, IfOk, IfErr, Ok, Err, None, IsSome};
ghost use Rattle.std.specs.Prelude.{[], string_bytes};
ghost use Rattle.conf_store.specs.Prelude.{chars, bytes_under, LeavesOnly, IsState, Contents, names_of};
ghost use Rattle.yaml_data.specs.Seen.{tree_of};
ghost use Rattle.conf_state.specs.Commands.{Command as GivenCommand};
ghost use Rattle.conf_store.specs.Calls.{Exports, HasFailed, tree_at, tree_named};
ghost use Rattle.conf_store.specs.Changing.{new_file, store_file, store_note};
ghost use Rattle.conf_store.specs.Durable.{AllImagesMean, AllImagesAfterPrefix, HasFlushed};
ghost use Rattle.conf_store.specs.Files.{FilesStay, HasLength, IsOldOrBase, LeavesOldOrBase};
ghost use Rattle.conf_store.specs.Grown.{HasGrown};
ghost use Rattle.conf_store.specs.Meaning.{FolderMeans};
ghost use Rattle.conf_store.specs.Opens.{FileRecoversTo, ReadsAfterOpening, RefusesOpening, RefusalMeans, MeantAtEntry, disk_after, file_format};
ghost use Rattle.conf_store.specs.Staged.{staged_length};

use crate::base_file::write_base;
use crate::opening::{Found, find_store};
use crate::recovery::Opened;
use crate::staging::Staging;
use crate::{OpenFault, bytes_mean_one_state, holes_mean};
use conf_disk::{Disk, Name, reading_is_an_image};
use conf_journal::{held_store_is_left, held_store_is_the_only_one};
use conf_record::{Format, formats_are_told};
use conf_state::{Names, State, StoreFault, good_name};
use std::alloc::Global;
use std::marker::Model;
use tree_path::Path;
use yaml_emit::style_text;
use yaml_tree::{Config, Tree};

/// Named configurations, kept in a folder.
///
/// A command that was submitted waits until a call flushes it. [`flush`](Store::flush) does so, and so do
/// [`apply`](Store::apply), [`import`](Store::import), [`checkpoint`](Store::checkpoint) and the last
/// [`slice`](Store::slice) of a checkpoint. While the store needn't be opened again, whatever a crash leaves means the
/// state after a prefix of the commands that wait; if none waits, it means the state.
///
/// A command with an about needs a base of the third format before its record. In a store whose base is of another one,
/// the first such command renews `store.yaml`: it becomes a base of the state before the command, in the third format,
/// and the record. What earlier commands were is gone then.
///
/// Contracts see the disk, the state after all accepted commands, the length of `store.yaml` in bytes, the running
/// checkpoint, the format of the base, and whether the store has to be opened again. Of a checkpoint they see how many
/// bytes of its new file were written, and those that are left. What is flushed, and which commands wait, they read
/// from the disk ([`one_state_is_flushed`](crate::one_state_is_flushed)). Claims about what the disk holds have the
/// premise that it is honest.
#[derive(Drop)]
pub struct Store<D: Disk> {
    pub(crate) alloc: Global,
    pub(crate) disk: D,
    pub(crate) state: State,
    pub(crate) size: u64,
    /// The length of the base of `store.yaml`.
    pub(crate) base: u64,
    /// Whether a record was appended since the last sync of `store.yaml`.
    pub(crate) waits: bool,
    /// The running checkpoint, if one runs.
    pub(crate) staging: Staging,
    /// The length of the base of the running checkpoint's new file; 0 if none runs.
    pub(crate) staged_base: u64,
    /// The format of the base of `store.yaml`, and of that of the new file.
    pub(crate) format: Format,
    pub(crate) reopen: bool,
}

impl<D: Disk> Model for Store<D> {
    ghost use Rattle.std.specs.Prelude.{◌≡◌, ◌≤◌, false};
    ghost use Rattle.conf_disk.specs.Folder.{bytes_under};
    ghost use Rattle.conf_disk.specs.declared.disk.Name.TheVariants.{Store};
    ghost use Rattle.conf_journal.specs.Store.{store_limit};
    ghost use Rattle.conf_state.specs.Limits.{IsState};
    ghost use Rattle.conf_store.specs.Durable.{IsHeld, IsStaging};
    ghost use Rattle.conf_store.specs.Grown.{FileStartsWithBase, StagedStartsWithBase};
    ghost use Rattle.conf_store.specs.Staged.{staged_length};
    ghost use Rattle.conf_store.specs.Stagings.{IsReady, staged_of};
    ghost use Rattle.conf_store.specs.View.{StoreView, store_view_code};

    ghost Value = { StoreView D };

    ghost coded = { store_view_code D.code };

    ghost view = { λ s. record {
      disk = s.disk;
      state = s.state;
      size = s.size;
      staged = staged_of s.state s.staging;
      format = s.format;
      reopen = s.reopen;
    } };

    ghost invariant = { λ s. (s.size ≤ store_limit) × IsState s.state
        × (staged_length (staged_of s.state s.staging) ≤ store_limit)
        × (D.model.honest → s.reopen ≡ false → IsHeld (D.model.folder s.disk) s.state s.size s.waits
        × IsStaging (D.model.folder s.disk) s.state (staged_of s.state s.staging))
        × (s.base ≤ s.size) × (s.staged_base ≤ staged_length (staged_of s.state s.staging))
        × (D.model.honest → s.reopen ≡ false →
        FileStartsWithBase (bytes_under (D.model.folder s.disk) Store) s.base
        × StagedStartsWithBase (D.model.folder s.disk) (staged_of s.state s.staging) s.staged_base)
        × IsReady s.state.configs s.staging };
}

impl<D: Disk> Store<D> {
    /// Opens the folder on `disk`, and returns the store with what was found.
    ///
    /// The state is what `store.yaml` means; a missing file is the empty state. If the file is missing, or bytes
    /// follow its last closing line, a base of the state is written as the new `store.yaml`, by way of `next.yaml`,
    /// which is gone then. Otherwise neither file changes. What `next.yaml` holds is ignored. The folder and
    /// `store.yaml` are synced before it is read, so no later crash takes back what was read. Nothing waits, and no
    /// checkpoint runs.
    ///
    /// The time is linear in the length of the file, and each command costs what it costs in [`apply`](Store::apply).
    ///
    /// # Errors
    /// The disk is returned with the fault, and what the folder means is unchanged. `NotAStore` and `Damaged` if
    /// `store.yaml` means nothing; both files stay as they were. `OutOfMemory`: so do they, since all memory is taken
    /// before the first change. `Device`: `store.yaml` is the old file or the whole new base.
    pub fn open(alloc: Global, disk: D) -> Result<(Store<D>, Opened), (D, OpenFault)>
        ensures found { D.model.honest → IfOk result (λ r. FileRecoversTo (store_note D.model disk)
            (store_file D.model disk) r.0.state r.1.commands r.1.dropped) }
        // The state is what `store.yaml` means.
        ensures means { D.model.honest → IfOk result (λ r.
            FolderMeans (D.model.folder disk) r.0.state) }
        ensures no_reopen { IfOk result (λ r. r.0.reopen ≡ false) }
        ensures no_checkpoint { IfOk result (λ r. r.0.staged ≡ None) }
        ensures reads { D.model.honest → IfOk result (λ r. ReadsAfterOpening
            (store_file D.model disk) r.0.state r.1.dropped (store_file D.model r.0.disk)) }
        ensures refused { D.model.honest → IfErr result (λ r.
            RefusesOpening r.1 (store_note D.model disk) (store_file D.model disk)) }
        // A file that is refused means nothing.
        ensures no_meaning { D.model.honest → IfErr result (λ r.
            RefusalMeans r.1 (store_note D.model disk) (store_file D.model disk)) }
        ensures cause { IfErr result (λ r.
            r.1 ≡ OpenFault.Device → HasFailed (D.model.failure_count disk) (D.model.failure_count r.0)) }
        // The number of failures never falls.
        ensures risen { D.model.failure_count disk ≤ D.model.failure_count (disk_after result) }
        // A crash at any moment of the call leaves what some image at its start meant, whatever it returns.
        ensures any_moment { D.model.honest → LeavesOnly D.model disk (disk_after result)
            (MeantAtEntry (D.model.folder disk)) }
        // After Ok, whatever a crash leaves means the state.
        ensures now { D.model.honest → IfOk result (λ r. AllImagesMean (D.model.folder r.0.disk) r.0.state) }
        // The state is flushed, and nothing waits.
        ensures flushed { D.model.honest → IfOk result (λ r.
            HasFlushed (D.model.folder r.0.disk) r.0.state [] r.0.state) }
        // A refusal other than Device changes no file.
        ensures refused_stays { D.model.honest → IfErr result (λ r.
            r.1 ≢ OpenFault.Device → FilesStay D.model disk r.0) }
        // Nor does Ok, if `store.yaml` was there and no bytes were dropped.
        ensures whole_stays { D.model.honest → IfOk result (λ r. r.1.dropped ≡ 0 →
            IsSome (store_file D.model disk) → FilesStay D.model disk r.0.disk) }
        // If a base was written, `next.yaml` is gone.
        ensures gone { D.model.honest → IfOk result (λ r.
            ((store_file D.model disk ≡ None) ⊎ (r.1.dropped ≢ 0)) →
            bytes_under (D.model.folder r.0.disk) Name.Next ≡ None) }
        // Whatever it returns, `store.yaml` reads as before, or as the whole new base.
        ensures old_or_base { D.model.honest → IsOldOrBase (store_note D.model disk)
            (store_file D.model disk) (store_file D.model (disk_after result)) }
        // A crash at any moment of the call leaves an old `store.yaml`, or the whole new base.
        ensures leaves { D.model.honest → LeavesOldOrBase D.model disk (disk_after result) }
        // The kept length is that of `store.yaml`.
        ensures size { D.model.honest → IfOk result (λ r.
            HasLength (store_file D.model r.0.disk) r.0.size) }
        // The kept format is that of the file that was found, and of the one that is there now.
        ensures format { D.model.honest → IfOk result (λ r.
            r.0.format ≡ file_format (store_file D.model disk)) }
        ensures format_now { D.model.honest → IfOk result (λ r.
            r.0.format ≡ file_format (store_file D.model r.0.disk)) }
    {
        bytes_mean_one_state();
        formats_are_told();
        held_store_is_left();
        held_store_is_the_only_one();
        holes_mean();
        reading_is_an_image();
        let mut disk = disk;
        let Found {
            state,
            opened,
            size,
            base,
            format,
        } = match find_store(alloc, &mut disk) {
            Ok(found) => found,
            Err(fault) => return Err((disk, fault)),
        };
        let (size, base) = match size {
            Some(size) => (size, base),
            None => match write_base(alloc, &mut disk, &state, format) {
                Ok(size) => (size, size),
                Err(fault) => return Err((disk, OpenFault::from(fault))),
            },
        };
        let store = Store {
            alloc,
            disk,
            state,
            size,
            base,
            waits: false,
            staging: Staging::none(alloc),
            staged_base: 0,
            format,
            reopen: false,
        };
        Ok((store, opened))
    }

    /// The text of a configuration in the one style.
    ///
    /// # Errors
    /// `BadName` if the name may not be used, `NoConfig` if no configuration has it, and `OutOfMemory`.
    pub fn export(&self, name: &str) -> Result<String, StoreFault>
        ensures limits { OnOk result (IsState self.now.state) }
        ensures ok { IfOk result (λ text.
            Exports self.now.state (chars name.now) (chars (string_bytes text))) }
        ensures refused { IfErr result (λ fault.
            (fault ≡ StoreFault.OutOfMemory) ⊎ (tree_named self.now.state (chars name.now)
            ≡ Err fault)) }
    {
        let config = self.config(name)?;
        Ok(style_text(self.alloc, config)?)
    }

    /// The tree at a path of a configuration. Takes no memory.
    ///
    /// [`config`](Store::config) says whether the configuration is there, before a path is parsed.
    ///
    /// # Errors
    /// `BadName` if the name may not be used, `NoConfig` if no configuration has it, and `Path` with the reason why the
    /// path leads to no place (RFC 6901, section 4).
    pub fn get(&self, name: &str, path: &Path) -> Result<&Tree, StoreFault>
        ensures ok { IfOk result (λ tree. tree_at self.now.state (chars name.now) path.now
            ≡ Ok (tree_of tree.now)) }
        ensures refused { IfErr result (λ fault. tree_at self.now.state (chars name.now) path.now
            ≡ Err fault) }
    {
        let config = self.config(name)?;
        match config.value_at(path) {
            Ok(tree) => Ok(tree),
            Err(fault) => Err(StoreFault::Path(fault)),
        }
    }

    /// Gets ready for reads at a path in the configuration under a name: the keys of the last wide mapping on its way
    /// are indexed, so that [`get`](Store::get) need not walk along it. The store stays as it is. Nothing is indexed
    /// where the path leads nowhere, or memory runs out.
    pub fn index_for(&mut self, name: &str, path: &Path)
        ensures { self.new ≡ self.old }
    {
        self.state.index_for(self.alloc, name, path);
    }

    /// The configuration under a name. Takes no memory.
    ///
    /// # Errors
    /// `BadName` if the name may not be used, and `NoConfig` if no configuration has it.
    pub fn config(&self, name: &str) -> Result<&Config, StoreFault>
        ensures limits { OnOk result (IsState self.now.state) }
        ensures ok { IfOk result (λ config. tree_named self.now.state (chars name.now)
            ≡ Ok (tree_of config.now)) }
        ensures refused { IfErr result (λ fault. tree_named self.now.state (chars name.now)
            ≡ Err fault) }
    {
        if !good_name(name) {
            return Err(StoreFault::BadName);
        }
        match self.state.get(name) {
            Some(config) => Ok(config),
            None => Err(StoreFault::NoConfig),
        }
    }

    /// The names of the configurations, in the order of the state.
    pub fn names(&self) -> Names<'_>
        ensures names { result ≡ names_of self.now.state.configs }
        ensures limits { IsState self.now.state }
    {
        self.state.names()
    }

    /// The number of commands that the state has accepted since the store was made, at most
    /// 18,446,744,073,709,551,615.
    pub fn count(&self) -> u64
        ensures count { result ≡ self.now.state.count }
        // The state of a store keeps its limits.
        ensures limits { IsState self.now.state }
    {
        self.state.count()
    }

    /// By how many bytes `store.yaml` has grown since its base was written: the length of all its records, also of
    /// those that wait. A [`checkpoint`](Store::checkpoint) makes this 0. After the last [`slice`](Store::slice) of a
    /// checkpoint it is the length of the records that were accepted while that ran. Once the store has to be opened
    /// again, nothing is known of the file.
    pub fn grown(&self) -> u64
        // Unless the store has to be opened again, so many bytes follow the base.
        ensures grown { D.model.honest → self.now.reopen ≡ false →
            HasGrown (store_file D.model self.now.disk) result }
        ensures within { result ≤ self.now.size }
    {
        self.size - self.base
    }

    /// The format of the base of `store.yaml`, and of the bases that checkpoints write. It is the third once a command
    /// with an about was accepted, or if the file that was opened was of it; else the second.
    pub fn format(&self) -> Format
        ensures { result ≡ self.now.format }
    {
        self.format
    }

    /// Whether a call returned `Device`, so that the store has to be opened again.
    pub fn needs_reopen(&self) -> bool
        ensures reopen { result ≡ self.now.reopen }
        // Unless it has to be, a state is flushed and some commands wait, and they lead to the state.
        ensures waits { D.model.honest → self.now.reopen ≡ false →
            (flushed : Contents) × ((since : List GivenCommand)
            × HasFlushed (D.model.folder self.now.disk) flushed since self.now.state) }
        // Whatever a crash leaves means the state after a prefix of these commands.
        ensures now { D.model.honest → self.now.reopen ≡ false →
            (flushed : Contents) (since : List GivenCommand)
            → HasFlushed (D.model.folder self.now.disk) flushed since self.now.state →
            AllImagesAfterPrefix (D.model.folder self.now.disk) flushed since }
        // Unless it has to be, the kept length is that of `store.yaml`.
        ensures size { D.model.honest → self.now.reopen ≡ false →
            HasLength (store_file D.model self.now.disk) self.now.size }
        // So is that of a running checkpoint's new file.
        ensures staged_size { D.model.honest → self.now.reopen ≡ false → IsSome self.now.staged →
            HasLength (new_file D.model self.now) (staged_length self.now.staged) }
    {
        held_store_is_left();
        holes_mean();
        self.reopen
    }

    /// Closes the store, and returns its disk. Nothing is written or synced: all that was acknowledged is on the disk.
    /// A crash before the next opening may take back commands that wait. A running checkpoint is given up, and its
    /// `next.yaml` stays.
    pub fn close(self) -> D
        ensures { result ≡ self.disk }
    {
        let Store {
            alloc: _,
            disk,
            state: _,
            size: _,
            base: _,
            waits: _,
            staging: _,
            staged_base: _,
            format: _,
            reopen: _,
        } = self;
        disk
    }
}
