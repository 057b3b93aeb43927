// A folder as data: its files, and its stages since its last sync.
ghost use Rattle.std.specs.Prelude.{◌≡◌, ◌<◌, ◌≤◌, ◌+◌, length, true, [], ◌∷◌, ◌++◌, map, set, get_or, Some, None, OnOk, IfOk, option_map, slice_get};
ghost use Rattle.conf_disk.specs.Folder.{CreateNext, Append, RenameNext, under, after, after_append, after_rename, with_pending, synced_whole};
ghost use Rattle.conf_disk.specs.Folder.{empty_file, file_bytes, stages};
ghost use Rattle.conf_disk.specs.Image.{IsWhole, fits_at, holed_bytes, torn_at, with_zeros, folder_of_image};
ghost use Rattle.test_disks.specs.Replay.{file_of, files_of, notes_in, stage_of, folder_of, step_of, items_of, image_of, pending_in};
ghost use Rattle.test_disks.specs.Replay.{with_synced, with_note, place_behind, noted_then};

use conf_disk::Name;
use std::alloc::{AllocError, Global};

/// Which file each name has, by its place among the folder's files, from 0.
#[derive(Clone, Copy, Debug, PartialEq, Eq)]
pub(crate) struct StageData {
    pub(crate) store: Option<usize>,
    pub(crate) next: Option<usize>,
}

impl StageData {
    pub(crate) fn under(self, name: Name) -> Option<usize>
        ensures { result ≡ under (stage_of self) name }
    {
        match name {
            Name::Store => self.store,
            Name::Next => self.next,
        }
    }
}

/// A change of the folder: a call that returned `Ok`.
#[derive(Drop)]
pub(crate) enum Change {
    CreateNext,
    Append(Name, Vec<u8>),
    Sync(Name),
    RenameNext,
    RemoveNext,
    SyncFolder,
}

/// What a crash left: the bytes of the two files, and whether it is noted that several appends may have waited.
#[derive(Drop)]
pub(crate) struct Left {
    pub(crate) store: Option<Vec<u8>>,
    pub(crate) next: Option<Vec<u8>>,
    pub(crate) several: bool,
}

/// A file: its synced bytes, those that were appended since its last sync, and whether it is noted that several of
/// these appends may have waited.
#[derive(Drop)]
pub(crate) struct FileData {
    pub(crate) synced: Vec<u8>,
    pub(crate) pending: Vec<u8>,
    pub(crate) noted: bool,
}

impl FileData {
    /// Its note after an append to it under a name: one to the store behind pending bytes sets the note.
    fn noted_after_append(&self, name: Name) -> bool
        ensures { result ≡ noted_then name self.now.noted self.now.pending.items }
    {
        match name {
            Name::Store => self.noted || !self.pending.is_empty(),
            Name::Next => self.noted,
        }
    }

    /// What a crash leaves of it under a cut and with zeros at these places of what is kept.
    fn torn_bytes(
        &self,
        alloc: Global,
        cut: (usize, usize),
        places: &[usize],
    ) -> Result<Vec<u8>, AllocError>
        requires { cut.0 + cut.1 ≤ length self.now.pending.items }
        ensures { IfOk result
            (λ bytes. bytes.items ≡ holed_bytes (file_of self.now) cut.0 cut.1 places.now) }
    {
        let (keep, zeros) = cut;
        let kept = worn_bytes(alloc, &self.pending[..keep], places)?;
        let mut bytes = Vec::new(alloc);
        bytes.extend_from_slice(&self.synced)?;
        bytes.extend_from_slice(&kept)?;
        bytes.resize(bytes.len() + zeros, 0)?;
        Ok(bytes)
    }
}

/// A folder: all files that were ever made, the stages before the current one since the last sync, oldest first, the
/// current one, and whether a place that none of the files has is noted.
#[derive(Drop)]
pub(crate) struct FolderData {
    pub(crate) files: Vec<FileData>,
    pub(crate) earlier: Vec<StageData>,
    pub(crate) current: StageData,
    pub(crate) others_noted: bool,
}

impl FolderData {
    /// The folder that a crash left.
    pub(crate) fn of(alloc: Global, left: &Left) -> Result<Self, AllocError>
        ensures { IfOk result (λ folder. folder_of folder ≡ folder_of_image (image_of left.now)) }
    {
        let mut files = Vec::new(alloc);
        let store = put(&mut files, alloc, &left.store, left.several)?;
        let next = put(&mut files, alloc, &left.next, left.several)?;
        Ok(FolderData {
            files,
            earlier: Vec::new(alloc),
            current: StageData { store, next },
            others_noted: left.several,
        })
    }

    pub(crate) fn apply(&mut self, alloc: Global, change: &Change) -> Result<(), AllocError>
        requires { IsWhole (folder_of self.old) }
        ensures { OnOk result (folder_of self.new ≡ after (step_of change.now)
            (folder_of self.old)) }
    {
        match change {
            Change::CreateNext => self.create_next(alloc),
            Change::Append(name, bytes) => self.append(*name, bytes),
            Change::Sync(name) => match self.current.under(*name) {
                None => Ok(()),
                Some(id) => sync_whole(&mut self.files, id),
            },
            Change::RenameNext => self.rename_next(),
            Change::RemoveNext => match self.current.next {
                None => Ok(()),
                Some(_) => self.restage(self.current.store, None),
            },
            Change::SyncFolder => {
                self.earlier.clear();
                Ok(())
            }
        }
    }

    fn create_next(&mut self, alloc: Global) -> Result<(), AllocError>
        ensures { OnOk result (folder_of self.new ≡ after CreateNext (folder_of self.old)) }
    {
        let id = self.files.len();
        self.files.push(FileData {
            synced: Vec::new(alloc),
            pending: Vec::new(alloc),
            noted: self.others_noted,
        })?;
        self.restage(self.current.store, Some(id))
    }

    /// Appends bytes to the file under a name, if there is one.
    fn append(&mut self, name: Name, bytes: &[u8]) -> Result<(), AllocError>
        requires { IsWhole (folder_of self.old) }
        ensures { OnOk result (folder_of self.new ≡ after (Append name bytes.now) (folder_of self.old)) }
    {
        let Some(id) = self.current.under(name) else {
            return Ok(());
        };
        let noted = self.files[id].noted_after_append(name);
        set_note(&mut self.files, id, noted);
        append_to(&mut self.files, id, bytes)?;
        Ok(())
    }

    /// Puts the file under `Next`, if there is one, under `Store`, without a note.
    fn rename_next(&mut self) -> Result<(), AllocError>
        requires { IsWhole (folder_of self.old) }
        ensures { OnOk result (folder_of self.new ≡ after RenameNext (folder_of self.old)) }
    {
        let Some(id) = self.current.next else {
            return Ok(());
        };
        set_note(&mut self.files, id, false);
        self.restage(Some(id), None)?;
        Ok(())
    }

    fn restage(&mut self, store: Option<usize>, next: Option<usize>) -> Result<(), AllocError>
        ensures stages { OnOk result (self.new.earlier.items
            ≡ self.old.earlier.items ++ self.old.current ∷ []) }
        ensures now { OnOk result (stage_of self.new.current
            ≡ record { store = store; next = next }) }
        ensures files { OnOk result (self.new.files ≡ self.old.files) }
        ensures others { OnOk result (self.new.others_noted ≡ self.old.others_noted) }
    {
        self.earlier.push(self.current)?;
        self.current = StageData { store, next };
        Ok(())
    }

    /// The stage at a place, counted from 0, oldest first.
    pub(crate) fn stage_at(&self, place: usize) -> Option<StageData>
        ensures { option_map stage_of result ≡ slice_get (stages (folder_of self.now)) place }
    {
        if place < self.earlier.len() {
            return Some(self.earlier[place]);
        }
        if place == self.earlier.len() {
            Some(self.current)
        } else {
            None
        }
    }

    /// All bytes of the file with a number, synced and pending.
    pub(crate) fn bytes(&self, alloc: Global, id: usize) -> Result<Vec<u8>, AllocError>
        ensures { IfOk result
            (λ bytes. bytes.items ≡ file_bytes (get_or (files_of self.now.files) id empty_file)) }
    {
        let mut bytes = Vec::new(alloc);
        if id < self.files.len() {
            bytes.extend_from_slice(&self.files[id].synced)?;
            bytes.extend_from_slice(&self.files[id].pending)?;
        }
        Ok(bytes)
    }

    /// Whether a file has room for a cut, which is a number of pending bytes that are kept and one of zeros after them.
    /// Without a file both have to be 0.
    pub(crate) fn fits(&self, id: Option<usize>, cut: (usize, usize)) -> bool
        ensures { result ≡ fits_at (files_of self.now.files) id cut.0 cut.1 }
    {
        let (keep, zeros) = cut;
        let room = self.pending(id);
        keep <= room && zeros <= room - keep
    }

    /// How many bytes are pending in a file; 0 without one.
    pub(crate) fn pending(&self, id: Option<usize>) -> usize
        ensures { result ≡ pending_in (files_of self.now.files) id }
    {
        match id {
            Some(id) if id < self.files.len() => self.files[id].pending.len(),
            _ => 0,
        }
    }

    /// What a crash leaves of a file under a cut and with zeros at these places of what is kept, if there is a file.
    pub(crate) fn torn_bytes(
        &self,
        alloc: Global,
        id: Option<usize>,
        cut: (usize, usize),
        places: &[usize],
    ) -> Result<Option<Vec<u8>>, AllocError>
        requires { fits_at (files_of self.now.files) id cut.0 cut.1 ≡ true }
        ensures { IfOk result
            (λ bytes. items_of bytes ≡ torn_at (files_of self.now.files) id cut.0 cut.1 places.now) }
    {
        let Some(id) = id else {
            return Ok(None);
        };
        if id < self.files.len() {
            let bytes = self.files[id].torn_bytes(alloc, cut, places)?;
            return Ok(Some(bytes));
        }
        Ok(Some(Vec::new(alloc)))
    }

    /// Whether it is noted of the store file at a place that several appends to it may have waited.
    pub(crate) fn is_noted(&self, id: Option<usize>) -> bool
        ensures { result ≡ (folder_of self.now).noted id }
    {
        match id {
            Some(id) if id < self.files.len() => self.files[id].noted,
            _ => self.others_noted,
        }
    }
}

/// Some bytes with zeros at these places.
fn worn_bytes(alloc: Global, bytes: &[u8], places: &[usize]) -> Result<Vec<u8>, AllocError>
    ensures { IfOk result (λ worn. worn.items ≡ with_zeros places.now bytes.now) }
{
    let mut worn = bytes.to_vec(alloc)?;
    for place in places {
        zero_at(&mut worn, *place);
    }
    Ok(worn)
}

/// Sets the byte at a place, if there is one, to zero.
fn zero_at(bytes: &mut Vec<u8>, place: usize)
    ensures { bytes.new.items ≡ set bytes.old.items place 0 }
{
    if place < bytes.len() {
        bytes[place] = 0;
    }
}

/// Puts a file of these bytes, all synced, behind the others, and returns its place.
fn put(
    files: &mut Vec<FileData>,
    alloc: Global,
    bytes: &Option<Vec<u8>>,
    noted: bool,
) -> Result<Option<usize>, AllocError>
    ensures files { OnOk result (files_of files.new ≡ with_synced (files_of files.old) (items_of bytes.now)) }
    ensures notes { OnOk result (notes_in files.new ≡ with_note (notes_in files.old) (items_of bytes.now) noted) }
    ensures place { IfOk result (λ place. place ≡ place_behind (files_of files.old) (items_of bytes.now)) }
{
    let Some(bytes) = bytes else {
        return Ok(None);
    };
    let id = files.len();
    files.push(FileData {
        synced: bytes.to_vec(alloc)?,
        pending: Vec::new(alloc),
        noted,
    })?;
    Ok(Some(id))
}

/// Sets the note of a file, or takes it away.
fn set_note(files: &mut Vec<FileData>, id: usize, noted: bool)
    requires { id < length files.old.items }
    ensures files { files_of files.new ≡ files_of files.old }
    ensures notes { notes_in files.new ≡ set (notes_in files.old) id noted }
{
    files[id].noted = noted;
}

fn append_to(files: &mut Vec<FileData>, id: usize, bytes: &[u8]) -> Result<(), AllocError>
    requires { id < length files.old.items }
    ensures files { OnOk result
        (files_of files.new ≡ set (files_of files.old) id
        (with_pending bytes.now (get_or (files_of files.old) id empty_file))) }
    ensures notes { OnOk result (notes_in files.new ≡ notes_in files.old) }
{
    files[id].pending.extend_from_slice(bytes)?;
    Ok(())
}

fn sync_whole(files: &mut Vec<FileData>, id: usize) -> Result<(), AllocError>
    requires { id < length files.old.items }
    ensures files { OnOk result
        (files_of files.new ≡ set (files_of files.old) id
        (synced_whole (get_or (files_of files.old) id empty_file))) }
    ensures notes { OnOk result (notes_in files.new ≡ notes_in files.old) }
{
    let file = &mut files[id];
    file.synced.extend_from_slice(&file.pending)?;
    file.pending.clear();
    Ok(())
}
