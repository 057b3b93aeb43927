// A run on a folder: what it knows of the files, what it notes, and by which calls it changes them.
ghost use Rattle.std.specs.Prelude.{◌≡◌, ◌≢◌, ℕ, true, false, not, None, Some, IsSome, OnOk, IfOk, MatchResult, IsTrue, ◌↔◌};
ghost use Rattle.conf_disk.specs.Folder.{CreateNext, Append, Sync, RenameNext, RemoveNext, SyncFolder, Reads};
ghost use Rattle.conf_system.specs.Folders.{folder_of, IsTold};
ghost use Rattle.conf_system.specs.Models.{Stays};
ghost use Rattle.conf_protocol.specs.Keeps.{IsSafe, Knows, NoteIs, IsExact, HasOtherNotes};
ghost use Rattle.conf_protocol.specs.Keeps.{may_change, is_kept, bytes_after, several_after};
ghost use Rattle.conf_system.specs.Machine.{is_any, notes_of, all_several};
ghost use Rattle.conf_protocol.specs.Moments.{Goes, Quiet, ReadsAsBefore};
ghost use Rattle.conf_protocol.specs.States.{IsStateOf};
ghost use Rattle.conf_protocol.specs.Opened.{Opens};

use crate::copying::put_copy;
use crate::opening::{Unopened, begin};
use crate::reading::read_all;
use crate::refusal::{
    NEXT, Place, Refusal, STORE, file_of, in_memory_alone, names_not_synced, nothing_given,
};
use crate::writing::write_all;
use conf_disk::{Content, Name};
use conf_system::{FileName, Linking, Note, System};
use std::alloc::Global;
use std::io;
use std::io::ErrorKind;

/// Where the bytes of a file are.
#[derive(Clone, Copy, PartialEq, Eq)]
pub(crate) enum Bytes {
    /// The file is there, and the device has all of them.
    OnDevice,
    /// The file is there, and the next sync puts them on the device, which lacks some.
    Pending,
    /// The file may be missing, and some may be in memory alone, whatever a sync returns.
    Unsure,
}

/// What a run knows of the names, and may do with them.
#[derive(Clone, Copy, PartialEq, Eq)]
pub(crate) enum Names {
    /// The device has them.
    Settled,
    /// The device may lack some, but has that of `store.yaml`, or never had another.
    Changed,
    /// The device may lack that of `store.yaml`.
    Renamed,
    /// A copy or a link failed: nothing more is changed.
    Broken,
    /// The run only reads.
    LeftAlone,
}

impl Bytes {
    /// After an append of these bytes to the file.
    fn longer(self, bytes: &[u8]) -> Bytes
        ensures { result ≡ bytes_after (is_any bytes.now) self }
    {
        match self {
            Bytes::OnDevice if !bytes.is_empty() => Bytes::Pending,
            known => known,
        }
    }

    /// Whether several appends to the file may have waited, once another one is made.
    fn several_after(self, several: bool) -> bool
        ensures { result ≡ several_after self several }
    {
        match self {
            Bytes::Pending => true,
            _ => several,
        }
    }
}

impl Names {
    /// After a change of a name, which the device may lack.
    fn changed(self) -> Names
        ensures unsettled { result ≢ Names.Settled }
        ensures may { may_change result ≡ may_change self }
        ensures kept { is_kept result ≡ is_kept self }
    {
        match self {
            Names::Settled => Names::Changed,
            names => names,
        }
    }
}

/// A run on a folder.
#[derive(Drop)]
pub(crate) struct Run<S: System> {
    pub(crate) system: S,
    store: Bytes,
    next: Bytes,
    names: Names,
    /// What `store.lock` says, if that is known.
    note: Option<Note>,
    /// Whether it is noted that several appends to `store.yaml` may have waited for one sync.
    pub(crate) several: bool,
    ghost known: { S.model.honest → Knows store next names several (S.model.machine system) },
    ghost safe: { S.model.honest → IsSafe (S.model.machine system) },
    ghost noted: { S.model.honest → NoteIs note (S.model.machine system) },
}

/// What a run knows, without its system.
#[derive(Clone, Copy)]
pub(crate) struct RunState {
    store: Bytes,
    next: Bytes,
    names: Names,
    note: Option<Note>,
    pub(crate) several: bool,
}

impl<S: System + Drop> Run<S> {
    /// A run on the folder of a system, however the run before ended.
    pub(crate) fn open(system: S) -> Result<Self, Unopened<S>>
        requires { S.model.honest → IsSafe (S.model.machine system) }
        ensures exact { S.model.honest → IfOk result (λ run.
            IsExact run.several (S.model.machine run.system)) }
        ensures reads { S.model.honest → IfOk result (λ run.
            ReadsAsBefore (S.model.machine system) (S.model.machine run.system)) }
        ensures told { S.model.honest → IfOk result (λ run. IsTold (S.model.machine run.system)) }
        ensures opens { S.model.honest → MatchResult result
            (λ run. Opens S.model system run.system)
            (λ unopened. Opens S.model system unopened.system) }
    {
        let mut system = system;
        let note = match begin(&mut system) {
            Ok(note) => note,
            Err(refusal) => return Err(Unopened { refusal, system }),
        };
        if note.on_device {
            return Ok(Run {
                system,
                store: Bytes::OnDevice,
                next: Bytes::Unsure,
                names: Names::Changed,
                note: Some(note),
                several: note.several,
            });
        }
        Ok(Run {
            system,
            store: Bytes::Unsure,
            next: Bytes::Unsure,
            names: Names::Settled,
            note: Some(note),
            several: note.several,
        })
    }

    /// A run that only reads. It has read no note, so it goes as if several appends may have waited.
    pub(crate) fn for_reading(system: S) -> Self
        requires safe { S.model.honest → IsSafe (S.model.machine system) }
        requires unread { S.model.honest → IsExact true (S.model.machine system) }
        ensures exact { S.model.honest
            → IsExact result.several (S.model.machine result.system) }
        ensures system { result.system ≡ system }
    {
        Run {
            system,
            store: Bytes::Unsure,
            next: Bytes::Unsure,
            names: Names::LeftAlone,
            note: None,
            several: true,
        }
    }

    /// Ends the run. If the device has all bytes of `store.yaml`, and its name, that is noted, unless the system
    /// refuses.
    pub(crate) fn release(self) -> S
        ensures safe { S.model.honest → IsSafe (S.model.machine result) }
        ensures quiet { S.model.honest → Quiet S.model self.system result }
    {
        let Run {
            system,
            store,
            names,
            note,
            several,
            ..
        } = self;
        let mut system = system;
        let are_kept = names == Names::Settled || names == Names::Changed;
        let wanted = Note {
            on_device: true,
            several,
        };
        if store == Bytes::OnDevice && are_kept && note != Some(wanted) {
            let _ = system.write_note(wanted);
        }
        system
    }

    /// Puts the run away: its system, and what it knows.
    pub(crate) fn put_away(self) -> (S, RunState)
        ensures state { S.model.honest → IsStateOf result.1 (S.model.machine result.0) }
        ensures system { result.0 ≡ self.system }
        ensures several { result.1.several ≡ self.several }
    {
        let Run {
            system,
            store,
            next,
            names,
            note,
            several,
            ..
        } = self;
        let state = RunState {
            store,
            next,
            names,
            note,
            several,
        };
        (system, state)
    }

    /// A run that was put away.
    pub(crate) fn take_up(system: S, state: RunState) -> Self
        requires { S.model.honest → IsStateOf state (S.model.machine system) }
        ensures system { result.system ≡ system }
        ensures several { result.several ≡ state.several }
    {
        let RunState {
            store,
            next,
            names,
            note,
            several,
        } = state;
        Run {
            system,
            store,
            next,
            names,
            note,
            several,
        }
    }

    /// Whether several appends to `store.yaml` may have waited for one sync.
    pub(crate) fn several_waited(&self) -> bool
        ensures { result ≡ self.now.several }
    {
        self.several
    }

    /// Returns if the run may change the names.
    fn may_change(&self) -> Result<(), Refusal>
        ensures { OnOk result (may_change self.now.names ≡ true) }
    {
        let error = match self.names {
            Names::Settled | Names::Changed | Names::Renamed => return Ok(()),
            Names::Broken => io::Error::new(ErrorKind::Other, "a change of its names failed"),
            Names::LeftAlone => {
                io::Error::new(ErrorKind::PermissionDenied, "it is open for reading alone")
            }
        };
        Err(Place::Folder.refusal(error))
    }

    /// Has `store.lock` say that bytes may be in memory alone, and whether several appends may have waited.
    fn have_noted(&mut self, several: bool) -> Result<(), Refusal>
        requires more { self.old.several ≡ true → several ≡ true }
        requires kept { is_kept self.old.names ≡ true }
        ensures noted { S.model.honest → OnOk result ((S.model.machine self.new.system).note
            ≡ record { on_device = false; several = several }) }
        ensures same { (self.new.store ≡ self.old.store) × (self.new.next ≡ self.old.next)
            × (self.new.names ≡ self.old.names) × (self.new.several ≡ self.old.several) }
        ensures only { S.model.honest
            → HasOtherNotes (S.model.machine self.old.system) (S.model.machine self.new.system) }
        ensures quiet { S.model.honest → Quiet S.model self.old.system self.new.system }
    {
        let note = Note {
            on_device: false,
            several,
        };
        if self.note != Some(note) {
            self.note = None;
            Place::Lock.blame(self.system.write_note(note))?;
            self.note = Some(note);
        }
        Ok(())
    }

    /// Notes that bytes may be in memory alone, after a failure. While the device may lack the name of `store.yaml`
    /// that is noted already.
    fn note_doubt(&mut self)
        requires { may_change self.old.names ≡ true }
        ensures same { self.new.several ≡ self.old.several }
        ensures quiet { S.model.honest → Quiet S.model self.old.system self.new.system }
    {
        if self.names != Names::Renamed {
            let _ = self.have_noted(self.several);
        }
    }

    /// Notes before an append to `store.yaml`. If another one waits, the device gets the note.
    fn note_append(&mut self) -> Result<(), Refusal>
        requires may { may_change self.old.names ≡ true }
        requires kept { is_kept self.old.names ≡ true }
        ensures off { S.model.honest
            → OnOk result ((S.model.machine self.new.system).note.on_device ≡ false) }
        ensures told { S.model.honest → OnOk result (self.old.store ≡ Bytes.Pending
            → all_several (notes_of (S.model.machine self.new.system)) ≡ true) }
        ensures same { (self.new.store ≡ self.old.store) × (self.new.next ≡ self.old.next)
            × (self.new.names ≡ self.old.names) × (self.new.several ≡ self.old.several) }
        ensures only { S.model.honest
            → HasOtherNotes (S.model.machine self.old.system) (S.model.machine self.new.system) }
        ensures quiet { S.model.honest → Quiet S.model self.old.system self.new.system }
    {
        if self.store != Bytes::Pending || self.several {
            return self.have_noted(self.several);
        }
        self.have_noted(true)?;
        Place::Lock.blame(self.system.sync_note())
    }

    /// Adds bytes to `store.yaml`.
    pub(crate) fn append_store(&mut self, bytes: &[u8]) -> Result<(), Refusal>
        ensures { S.model.honest → Goes S.model (Append Name.Store bytes.now)
            self.old.several self.old.system result self.new.several self.new.system }
    {
        self.may_change()?;
        if self.names == Names::Renamed {
            return Err(names_not_synced());
        }
        if self.store == Bytes::Unsure {
            return Err(in_memory_alone(FileName::Store));
        }
        if bytes.is_empty() {
            return Err(nothing_given());
        }
        self.note_append()?;
        self.write_store(bytes)
    }

    /// Adds bytes to `store.yaml`, once that is noted.
    fn write_store(&mut self, bytes: &[u8]) -> Result<(), Refusal>
        requires may { may_change self.old.names ≡ true }
        requires sure { self.old.store ≢ Bytes.Unsure }
        requires some { is_any bytes.now ≡ true }
        requires off { S.model.honest → (S.model.machine self.old.system).note.on_device ≡ false }
        requires told { S.model.honest → self.old.store ≡ Bytes.Pending →
            all_several (notes_of (S.model.machine self.old.system)) ≡ true }
        ensures { S.model.honest → Goes S.model (Append Name.Store bytes.now)
            self.old.several self.old.system result self.new.several self.new.system }
    {
        self.several = self.store.several_after(self.several);
        self.store = Bytes::Unsure;
        if let Err(error) = write_all(&mut self.system, FileName::Store, bytes) {
            return Err(STORE.refusal(error));
        }
        self.store = Bytes::Pending;
        Ok(())
    }

    /// Adds bytes to `next.yaml`.
    pub(crate) fn append_next(&mut self, bytes: &[u8]) -> Result<(), Refusal>
        requires { S.model.honest → IsSome (folder_of (S.model.machine self.old.system)).now.next }
        ensures { S.model.honest → Goes S.model (Append Name.Next bytes.now)
            self.old.several self.old.system result self.new.several self.new.system }
    {
        self.may_change()?;
        let after = self.next.longer(bytes);
        self.next = Bytes::Unsure;
        if let Err(error) = write_all(&mut self.system, FileName::Next, bytes) {
            return Err(NEXT.refusal(error));
        }
        self.next = after;
        Ok(())
    }

    /// Syncs `store.yaml`.
    pub(crate) fn sync_store(&mut self) -> Result<(), Refusal>
        ensures { S.model.honest → Goes S.model (Sync Name.Store)
            self.old.several self.old.system result self.new.several self.new.system }
    {
        self.may_change()?;
        if self.store == Bytes::Unsure {
            return self.sync_by_copy();
        }
        match self.system.sync(FileName::Store) {
            Ok(()) => {
                self.store = Bytes::OnDevice;
                Ok(())
            }
            Err(error) => {
                self.store = Bytes::Unsure;
                self.note_doubt();
                Err(STORE.refusal(error))
            }
        }
    }

    /// Puts a synced copy in the place of `store.yaml`, if there is one. Where a sync failed, a file system may never
    /// write what is written again to the same file.
    fn sync_by_copy(&mut self) -> Result<(), Refusal>
        requires may { may_change self.old.names ≡ true }
        requires unsure { self.old.store ≡ Bytes.Unsure }
        ensures { S.model.honest → Goes S.model (Sync Name.Store)
            self.old.several self.old.system result self.new.several self.new.system }
    {
        if STORE.blame(self.system.look(FileName::Store))?.is_none() {
            return Ok(());
        }
        if self.names != Names::Settled {
            return Err(in_memory_alone(FileName::Store));
        }
        self.have_noted(self.several)?;
        self.names = Names::Broken;
        put_copy(&mut self.system)?;
        self.names = Names::Settled;
        self.store = Bytes::OnDevice;
        Ok(())
    }

    /// Syncs `next.yaml`.
    pub(crate) fn sync_next(&mut self) -> Result<(), Refusal>
        ensures { S.model.honest → Goes S.model (Sync Name.Next)
            self.old.several self.old.system result self.new.several self.new.system }
    {
        self.may_change()?;
        if self.next == Bytes::Unsure {
            return match NEXT.blame(self.system.look(FileName::Next))? {
                Some(_) => Err(in_memory_alone(FileName::Next)),
                None => Ok(()),
            };
        }
        match self.system.sync(FileName::Next) {
            Ok(()) => {
                self.next = Bytes::OnDevice;
                Ok(())
            }
            Err(error) => {
                self.next = Bytes::Unsure;
                Err(NEXT.refusal(error))
            }
        }
    }

    /// Makes an empty `next.yaml`.
    pub(crate) fn create_next(&mut self) -> Result<(), Refusal>
        requires { S.model.honest → (folder_of (S.model.machine self.old.system)).now.next ≡ None }
        ensures { S.model.honest → Goes S.model CreateNext
            self.old.several self.old.system result self.new.several self.new.system }
    {
        self.may_change()?;
        self.next = Bytes::Unsure;
        self.names = self.names.changed();
        NEXT.blame(self.system.create_next())?;
        self.next = Bytes::OnDevice;
        Ok(())
    }

    /// Removes `next.yaml`, if there is one.
    pub(crate) fn remove_next(&mut self) -> Result<(), Refusal>
        ensures { S.model.honest → Goes S.model RemoveNext
            self.old.several self.old.system result self.new.several self.new.system }
    {
        self.may_change()?;
        self.next = Bytes::Unsure;
        if NEXT.blame(self.system.look(FileName::Next))?.is_some() {
            self.names = self.names.changed();
            NEXT.blame(self.system.unlink_next())?;
        }
        Ok(())
    }

    /// Renames `next.yaml` to `store.yaml`.
    pub(crate) fn rename_next(&mut self) -> Result<(), Refusal>
        requires { S.model.honest → IsSome (folder_of (S.model.machine self.old.system)).now.next }
        ensures { S.model.honest → Goes S.model RenameNext
            self.old.several self.old.system result self.new.several self.new.system }
    {
        self.may_change()?;
        if self.names == Names::Renamed {
            return Err(names_not_synced());
        }
        self.have_noted(self.several)?;
        match STORE.blame(self.system.look(FileName::Store))? {
            Some(_) => self.replace_store(),
            None => self.take_free_name(),
        }
    }

    /// Gives `next.yaml` the name `store.yaml`.
    fn replace_store(&mut self) -> Result<(), Refusal>
        requires may { may_change self.old.names ≡ true }
        requires there { S.model.honest
            → IsSome (folder_of (S.model.machine self.old.system)).now.next }
        requires off { S.model.honest → (S.model.machine self.old.system).note.on_device ≡ false }
        ensures { S.model.honest → Goes S.model RenameNext
            self.old.several self.old.system result self.new.several self.new.system }
    {
        let renamed = self.next;
        self.store = Bytes::Unsure;
        self.next = Bytes::Unsure;
        self.names = Names::Renamed;
        STORE.blame(self.system.rename_next())?;
        self.store = renamed;
        self.several = false;
        Ok(())
    }

    /// Gives `next.yaml` the name `store.yaml`, which is free. A file system that has no links is only asked whether it
    /// is.
    fn take_free_name(&mut self) -> Result<(), Refusal>
        requires may { may_change self.old.names ≡ true }
        requires there { S.model.honest
            → IsSome (folder_of (S.model.machine self.old.system)).now.next }
        requires free { S.model.honest → (S.model.machine self.old.system).now.store ≡ None }
        requires off { S.model.honest → (S.model.machine self.old.system).note.on_device ≡ false }
        ensures { S.model.honest → Goes S.model RenameNext
            self.old.several self.old.system result self.new.several self.new.system }
    {
        let renamed = self.next;
        let names = self.names;
        self.store = Bytes::Unsure;
        self.next = Bytes::Unsure;
        self.names = Names::Broken;
        match STORE.blame(self.system.link_next())? {
            Linking::Linked => {
                self.several = false;
                NEXT.blame(self.system.unlink_next())?;
                self.names = Names::Renamed;
                self.store = renamed;
                Ok(())
            }
            Linking::Unsupported => {
                self.names = names;
                self.next = renamed;
                if STORE.blame(self.system.look(FileName::Store))?.is_some() {
                    let error = io::Error::new(ErrorKind::AlreadyExists, "it is there after all");
                    return Err(STORE.refusal(error));
                }
                self.replace_store()
            }
        }
    }

    /// Syncs the folder. One that failed says as much of the bytes as a failed sync of the file: none is surely under
    /// its name.
    pub(crate) fn sync_folder(&mut self) -> Result<(), Refusal>
        ensures { S.model.honest → Goes S.model SyncFolder
            self.old.several self.old.system result self.new.several self.new.system }
    {
        self.may_change()?;
        match self.system.sync_folder() {
            Ok(()) => {
                self.names = Names::Settled;
                Ok(())
            }
            Err(error) => {
                self.store = Bytes::Unsure;
                self.note_doubt();
                Err(Place::Folder.refusal(error))
            }
        }
    }

    /// Reads the file under a name, if it has at most so many bytes. A `next.yaml` that is another name of `store.yaml`
    /// counts as missing.
    pub(crate) fn read(&mut self, alloc: Global, name: Name, max: u64) -> Result<Content, Refusal>
        ensures content { S.model.honest → IfOk result (λ content.
            Reads (folder_of (S.model.machine self.old.system)) name max content) }
        ensures same { self.new.several ≡ self.old.several }
        ensures quiet { S.model.honest → Quiet S.model self.old.system self.new.system }
    {
        if name == Name::Next && NEXT.blame(self.system.are_linked())? {
            return Ok(Content::Missing);
        }
        let name = file_of(name);
        let place = Place::File(name);
        let Some(total) = place.blame(self.system.open(name))? else {
            return Ok(Content::Missing);
        };
        if total > max {
            return Ok(Content::TooLong);
        }
        let bytes = place.blame(read_all(&self.system, alloc, name, total))?;
        Ok(Content::Bytes(bytes))
    }
}
