// A folder as the kernel and the device hold it, as data.
ghost use Rattle.std.specs.Prelude.{◌≡◌, true, length, map, take, Some, OnOk, IfOk, option_map, slice_get};
ghost use Rattle.conf_system.specs.Machine.{after, failing, with_stage, with_version, with_now, replaced, settled, stages, notes_of};
ghost use Rattle.conf_system.specs.Machine.{version_bytes, version_at, bytes_under, are_linked, apart, CreateNext};
ghost use Rattle.conf_system.specs.Machine.{PlaceCopy, WriteNote};
ghost use Rattle.test_system.specs.Replay.{files_of, stage_of, version_of, machine_of, new_machine, entry_of, call_of};
ghost use Rattle.test_system.specs.Replay.{machine_made, changed_by, file_changed, items_of, bare};
ghost use Rattle.test_system.specs.Crashes.{id_under, pending_at, fits_at, torn_at};

use crate::change::{Change, Made};
use crate::crash::Torn;
use crate::version::{HeldData, VersionChange, VersionData};
use conf_system::{FileName, Note};
use std::alloc::{AllocError, Global};

/// What a `store.lock` says that is missing.
const NO_NOTE: Note = Note {
    on_device: false,
    several: false,
};

/// Which file each name has, by its place among the files, from 0.
#[derive(Clone, Copy)]
pub(crate) struct StageData {
    pub(crate) store: Option<usize>,
    pub(crate) next: Option<usize>,
}

impl StageData {
    /// The file under a name. The copy is none of the files.
    pub(crate) fn under(self, name: FileName) -> Option<usize>
        ensures { result ≡ id_under (stage_of self) name }
    {
        match name {
            FileName::Store => self.store,
            FileName::Next => self.next,
            FileName::Copy => None,
        }
    }

    /// Whether both names lead to one file.
    pub(crate) fn are_linked(self) -> bool
        ensures { result ≡ are_linked self.store self.next }
    {
        match (self.store, self.next) {
            (Some(store), Some(next)) => store == next,
            _ => false,
        }
    }

    /// The file that is staged. One that is under both names is not.
    pub(crate) fn staged(self) -> Option<usize>
        ensures { result ≡ apart self.store self.next }
    {
        if self.are_linked() { None } else { self.next }
    }
}

/// All files that were ever made; the stages before the one now since the last sync of the folder, oldest first, and
/// the one now; the copy; what `store.lock` says, and what it said since its last sync, oldest first.
#[derive(Drop)]
pub(crate) struct MachineData {
    pub(crate) files: Vec<HeldData>,
    pub(crate) earlier: Vec<StageData>,
    pub(crate) current: StageData,
    pub(crate) copy: Option<VersionData>,
    pub(crate) note: Note,
    pub(crate) notes: Vec<Note>,
}

impl MachineData {
    pub(crate) fn new(alloc: Global) -> Self
        ensures { machine_of result ≡ new_machine }
    {
        MachineData {
            files: Vec::new(alloc),
            earlier: Vec::new(alloc),
            current: StageData {
                store: None,
                next: None,
            },
            copy: None,
            note: NO_NOTE,
            notes: Vec::new(alloc),
        }
    }

    /// Makes a call that changes something, or a part of one that failed.
    pub(crate) fn apply(&mut self, alloc: Global, made: &Made) -> Result<(), AllocError>
        ensures { OnOk result (machine_of self.new
            ≡ bare (machine_made (entry_of made.now) (machine_of self.old))) }
    {
        match made {
            Made::Called {
                change,
                failed: None,
            } => self.make(alloc, change),
            Made::Called {
                change,
                failed: Some(part),
            } => self.fail(alloc, change, *part),
            Made::NoteRead | Made::NoteUnread => Ok(()),
        }
    }

    fn fail(&mut self, alloc: Global, change: &Change, part: usize) -> Result<(), AllocError>
        ensures { OnOk result (machine_of self.new
            ≡ bare (failing part (call_of change.now) (machine_of self.old))) }
    {
        match change {
            Change::Write(name, bytes) | Change::WriteRest(name, bytes) => {
                self.change(*name, VersionChange::Write(front_of(bytes, part)))
            }
            Change::Sync(name) => self.change(*name, VersionChange::FailSync),
            Change::SyncFolder => Ok(()),
            _ if part == 0 => Ok(()),
            _ => self.make(alloc, change),
        }
    }

    fn make(&mut self, alloc: Global, change: &Change) -> Result<(), AllocError>
        ensures { OnOk result (machine_of self.new
            ≡ bare (after (call_of change.now) (machine_of self.old))) }
    {
        match change {
            Change::CreateNext => self.create_next(alloc),
            Change::CreateCopy => {
                self.copy = Some(VersionData::new(alloc));
                Ok(())
            }
            Change::Write(name, bytes) | Change::WriteRest(name, bytes) => {
                self.change(*name, VersionChange::Write(bytes))
            }
            Change::Sync(name) => self.change(*name, VersionChange::Sync),
            Change::RenameNext => self.restage(self.current.next, None),
            Change::LinkNext => self.restage(self.current.next, self.current.next),
            Change::UnlinkNext => self.restage(self.current.store, None),
            Change::PlaceCopy => self.place_copy(),
            Change::UnlinkCopy => {
                self.copy = None;
                Ok(())
            }
            Change::SyncFolder => {
                settle(&mut self.files);
                self.earlier.clear();
                Ok(())
            }
            Change::WriteNote(note) => self.write_note(*note),
            Change::SyncNote => {
                self.notes.clear();
                Ok(())
            }
        }
    }

    fn create_next(&mut self, alloc: Global) -> Result<(), AllocError>
        ensures { OnOk result (machine_of self.new ≡ after CreateNext (machine_of self.old)) }
    {
        let id = self.files.len();
        self.files.push(HeldData::new(alloc))?;
        self.restage(self.current.store, Some(id))
    }

    fn restage(&mut self, store: Option<usize>, next: Option<usize>) -> Result<(), AllocError>
        ensures { OnOk result (machine_of self.new ≡ with_stage (machine_of self.old)
            (machine_of self.old).files (record { store = store; next = next })) }
    {
        self.earlier.push(self.current)?;
        self.current = StageData { store, next };
        Ok(())
    }

    fn place_copy(&mut self) -> Result<(), AllocError>
        ensures { OnOk result (machine_of self.new ≡ after PlaceCopy (machine_of self.old)) }
    {
        let Some(copy) = self.copy.take() else {
            return Ok(());
        };
        match self.current.store {
            None => Ok(()),
            Some(id) => replace_file(&mut self.files, id, copy),
        }
    }

    fn write_note(&mut self, note: Note) -> Result<(), AllocError>
        ensures { OnOk result (machine_of self.new ≡ after (WriteNote note) (machine_of self.old)) }
    {
        self.notes.push(self.note)?;
        self.note = note;
        Ok(())
    }

    fn change(&mut self, name: FileName, change: VersionChange<'_>) -> Result<(), AllocError>
        ensures { OnOk result (machine_of self.new
            ≡ bare (with_version (machine_of self.old) name (changed_by change.entry))) }
    {
        match name {
            FileName::Store => change_file(&mut self.files, self.current.store, change),
            FileName::Next => change_file(&mut self.files, self.current.next, change),
            FileName::Copy => change_copy(&mut self.copy, change),
        }
    }

    /// What a name reads as.
    pub(crate) fn bytes(&self, alloc: Global, name: FileName) -> Result<Option<Vec<u8>>, AllocError>
        ensures { IfOk result (λ bytes. items_of bytes ≡ bytes_under (machine_of self.now) name) }
    {
        match name {
            FileName::Store => self.file_bytes(alloc, self.current.store),
            FileName::Next => self.file_bytes(alloc, self.current.next),
            FileName::Copy => match &self.copy {
                None => Ok(None),
                Some(copy) => Ok(Some(copy.bytes(alloc)?)),
            },
        }
    }

    fn file_bytes(&self, alloc: Global, id: Option<usize>) -> Result<Option<Vec<u8>>, AllocError>
        ensures { IfOk result (λ bytes. items_of bytes
            ≡ option_map version_bytes (version_at (files_of self.now.files) id)) }
    {
        match id {
            None => Ok(None),
            Some(id) if id < self.files.len() => Ok(Some(self.files[id].current.bytes(alloc)?)),
            Some(_) => Ok(Some(Vec::new(alloc))),
        }
    }

    pub(crate) fn stage_count(&self) -> usize
        ensures { result ≡ length (stages (machine_of self.now)) }
    {
        self.earlier.len() + 1
    }

    /// The stage at a place, counted from 0, oldest first.
    pub(crate) fn stage_at(&self, place: usize) -> Option<StageData>
        ensures { option_map stage_of result ≡ slice_get (stages (machine_of self.now)) place }
    {
        if place < self.earlier.len() {
            return Some(self.earlier[place]);
        }
        if place == self.earlier.len() {
            Some(self.current)
        } else {
            None
        }
    }

    pub(crate) fn note_count(&self) -> usize
        ensures { result ≡ length (notes_of (machine_of self.now)) }
    {
        self.notes.len() + 1
    }

    /// What `store.lock` may say after a crash, by its place among what it said since its last sync, oldest first.
    pub(crate) fn note_at(&self, place: usize) -> Option<Note>
        ensures { result ≡ slice_get (notes_of (machine_of self.now)) place }
    {
        if place < self.notes.len() {
            return Some(self.notes[place]);
        }
        if place == self.notes.len() {
            Some(self.note)
        } else {
            None
        }
    }

    /// Whether both names lead to one file.
    pub(crate) fn are_linked(&self) -> bool
        ensures { result ≡ are_linked (machine_of self.now).now.store (machine_of self.now).now.next }
    {
        self.current.are_linked()
    }

    /// How many bytes are pending in a version of a file, if there is one.
    pub(crate) fn pending(&self, id: Option<usize>, version: usize) -> Option<usize>
        ensures { result ≡ pending_at (files_of self.now.files) id version }
    {
        let id = id?;
        if id < self.files.len() {
            self.files[id].pending(version)
        } else {
            None
        }
    }

    /// Whether a crash may leave that of a file.
    pub(crate) fn fits(&self, id: Option<usize>, torn: Torn<'_>) -> bool
        ensures { result ≡ fits_at (files_of self.now.files) id torn.entry }
    {
        match self.pending(id, torn.version) {
            None => id.is_none(),
            Some(pending) => torn.kept.len() <= pending,
        }
    }

    /// What a crash leaves of a file, if there is one.
    pub(crate) fn torn(
        &self,
        alloc: Global,
        id: Option<usize>,
        torn: Torn<'_>,
    ) -> Result<Option<Vec<u8>>, AllocError>
        requires { fits_at (files_of self.now.files) id torn ≡ true }
        ensures { IfOk result
            (λ bytes. items_of bytes ≡ torn_at (files_of self.now.files) id torn.entry) }
    {
        let Some(id) = id else {
            return Ok(None);
        };
        match self.files[id].version(torn.version) {
            None => Ok(None),
            Some(version) => Ok(Some(version.torn(alloc, torn.kept)?)),
        }
    }
}

/// The first bytes, at most so many.
fn front_of(bytes: &[u8], count: usize) -> &[u8]
    ensures { result.now ≡ take count bytes.now }
{
    if count < bytes.len() {
        &bytes[..count]
    } else {
        bytes
    }
}

fn change_file(
    files: &mut Vec<HeldData>,
    id: Option<usize>,
    change: VersionChange<'_>,
) -> Result<(), AllocError>
    ensures { OnOk result (files_of files.new
        ≡ file_changed (files_of files.old) id (with_now (changed_by change.entry))) }
{
    let Some(id) = id else {
        return Ok(());
    };
    if id >= files.len() {
        return Ok(());
    }
    files[id].change(change)?;
    Ok(())
}

fn change_copy(copy: &mut Option<VersionData>, change: VersionChange<'_>) -> Result<(), AllocError>
    ensures { OnOk result (option_map version_of copy.new
        ≡ option_map (changed_by change.entry) (option_map version_of copy.old)) }
{
    match copy {
        None => Ok(()),
        Some(version) => version.apply(change),
    }
}

/// A version takes the name of a file.
fn replace_file(
    files: &mut Vec<HeldData>,
    id: usize,
    version: VersionData,
) -> Result<(), AllocError>
    ensures { OnOk result (files_of files.new
        ≡ file_changed (files_of files.old) (Some id) (replaced (Some (version_of version)))) }
{
    if id >= files.len() {
        return Ok(());
    }
    files[id].replace(version)?;
    Ok(())
}

/// The names have reached the device.
fn settle(files: &mut Vec<HeldData>)
    ensures { files_of files.new ≡ map settled (files_of files.old) }
{
    for id in 0..files.len() {
        files[id].settle();
    }
}
