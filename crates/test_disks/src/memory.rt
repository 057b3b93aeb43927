// A folder in memory. It keeps each change, so that what a crash at an earlier moment left is known.
ghost use Rattle.std.specs.Prelude.{◌≡◌, ◌≢◌, ◌≤◌, ◌+◌, ℕ, min, length, false, None, option_map, OnOk, OnErr, IfOk, IsOk, IfSome, Err};
ghost use Rattle.conf_disk.specs.Folder.{Folder, empty_folder, Performs, Reads};
ghost use Rattle.conf_disk.specs.Image.{IsImage, folder_of_image, image_at, holed_image_at, places_of};
ghost use Rattle.conf_disk.specs.Moments.{Elapses, CountsFailures};
ghost use Rattle.conf_disk.specs.Log.{IsLeftSince};
ghost use Rattle.test_disks.specs.Replay.{step_of, folder_of, items_of, image_of};
ghost use Rattle.test_disks.specs.Marks.{marks_of};

use crate::folder::{Change, FolderData, Left};
use crate::marks::Marks;
use conf_disk::{Content, Cuts, Disk, DiskFault, Holes, Name};
use std::alloc::{AllocError, Global};

/// A disk in memory, for tests. It keeps what a crash left, and a list of the changes that were made since. If there is
/// no memory for a change, it counts a failure, returns [`DiskFault::Device`] and changes nothing. A read plays all
/// changes again, so its time is linear in their number and their bytes.
#[derive(Drop)]
pub struct MemoryDisk {
    alloc: Global,
    start: Left,
    changes: Vec<Change>,
    failures: u64,
}

impl MemoryDisk {
    ghost use Rattle.test_disks.specs.Memory.{steps_of, start_of, memory_folder, memory_failures, pending_of_stage, Notes};

    /// An empty folder.
    pub fn new(alloc: Global) -> Self
        ensures folder { memory_folder result ≡ empty_folder }
        ensures failures { memory_failures result ≡ 0 }
    {
        MemoryDisk::left_by_crash(alloc, None, None, false)
    }

    /// What a crash left: a folder of these files, with one stage and nothing pending. `several` says whether it is
    /// noted that several appends to the file under `Store` may have waited for one sync.
    pub fn left_by_crash(
        alloc: Global,
        store: Option<Vec<u8>>,
        next: Option<Vec<u8>>,
        several: bool,
    ) -> Self
        ensures folder { memory_folder result ≡ folder_of_image
            (record { store = items_of store; next = items_of next; several = several }) }
        ensures failures { memory_failures result ≡ 0 }
    {
        MemoryDisk {
            alloc,
            start: Left {
                store,
                next,
                several,
            },
            changes: Vec::new(alloc),
            failures: 0,
        }
    }

    /// A folder of these files, with one stage and no note. None of their bytes are pending: a crash leaves them. It
    /// returns `Ok`.
    pub fn with_files(
        alloc: Global,
        store: Option<Vec<u8>>,
        next: Option<Vec<u8>>,
    ) -> Result<Self, AllocError>
        ensures done { IsOk result }
        ensures folder { IfOk result
            (λ disk. memory_folder disk ≡ folder_of_image
            (record { store = items_of store; next = items_of next; several = false })) }
        ensures failures { IfOk result (λ disk. memory_failures disk ≡ 0) }
    {
        Ok(MemoryDisk::left_by_crash(alloc, store, next, false))
    }

    /// Returns the disk that a crash would leave at stage `stage`, with the files torn as `cuts` says, or `None` if no
    /// crash can leave that. Stage 0 is the first since the last sync of the folder. The returned disk has no pending
    /// bytes, one stage and no failures. It has the note of several appends if the stage has it.
    ///
    /// # Errors
    /// If there is no memory for it.
    pub fn image(&self, stage: usize, cuts: Cuts) -> Result<Option<MemoryDisk>, AllocError>
        ensures folder { IfOk result
            (λ image. option_map memory_folder image ≡ option_map folder_of_image
            (image_at (memory_folder self.now) stage cuts)) }
        ensures failures { IfOk result (λ image. IfSome image (λ disk. memory_failures disk ≡ 0)) }
    {
        let none = Holes {
            store: Vec::new(self.alloc),
            next: Vec::new(self.alloc),
        };
        self.image_with_holes(stage, cuts, &none)
    }

    /// Returns what [`MemoryDisk::image`] does, with zeros in the files where `holes` says.
    ///
    /// # Errors
    /// If there is no memory for it.
    pub fn image_with_holes(
        &self,
        stage: usize,
        cuts: Cuts,
        holes: &Holes,
    ) -> Result<Option<MemoryDisk>, AllocError>
        ensures folder { IfOk result
            (λ image. option_map memory_folder image ≡ option_map folder_of_image
            (holed_image_at (memory_folder self.now) stage cuts (places_of holes.now) false)) }
        ensures failures { IfOk result (λ image. IfSome image (λ disk. memory_failures disk ≡ 0)) }
    {
        let folder = self.replay(self.alloc)?;
        let Some(names) = folder.stage_at(stage) else {
            return Ok(None);
        };
        if !folder.fits(names.store, cuts.store) || !folder.fits(names.next, cuts.next) {
            return Ok(None);
        }
        let store = folder.torn_bytes(self.alloc, names.store, cuts.store, &holes.store)?;
        let next = folder.torn_bytes(self.alloc, names.next, cuts.next, &holes.next)?;
        let several = folder.is_noted(names.store);
        Ok(Some(MemoryDisk::left_by_crash(self.alloc, store, next, several)))
    }

    /// Returns how many bytes are pending at stage `stage` in the file under a name, or `None` if there is no such
    /// stage. They are 0 where there is no file.
    ///
    /// # Errors
    /// If there is no memory for looking.
    pub fn pending(&self, stage: usize, name: Name) -> Result<Option<usize>, AllocError>
        ensures { IfOk result
            (λ pending. pending ≡ pending_of_stage (memory_folder self.now) stage name) }
    {
        let folder = self.replay(self.alloc)?;
        match folder.stage_at(stage) {
            Some(names) => Ok(Some(folder.pending(names.under(name)))),
            None => Ok(None),
        }
    }

    fn content(&self, alloc: Global, name: Name, max: u64) -> Result<Content, AllocError>
        ensures { IfOk result (λ content. Reads (memory_folder self.now) name max content) }
    {
        let folder = self.replay(alloc)?;
        let Some(id) = folder.current.under(name) else {
            return Ok(Content::Missing);
        };
        let bytes = folder.bytes(alloc, id)?;
        if bytes.len() as u64 > max {
            return Ok(Content::TooLong);
        }
        Ok(Content::Bytes(bytes))
    }

    /// The folder after all changes.
    fn replay(&self, alloc: Global) -> Result<FolderData, AllocError>
        ensures { IfOk result (λ folder. folder_of folder ≡ memory_folder self.now) }
    {
        let mut folder = FolderData::of(alloc, &self.start)?;
        for change in &self.changes {
            folder.apply(alloc, change)?;
        }
        Ok(folder)
    }

    /// What decides whether several appends wait, after all changes.
    fn marks(&self) -> Marks
        ensures { result ≡ marks_of (memory_folder self.now) }
    {
        let mut marks = Marks::of(&self.start);
        for change in &self.changes {
            marks = marks.after(change);
        }
        marks
    }

    /// Adds a change to the list, or counts a failure if there is no memory for it.
    fn note(&mut self, change: Change) -> Result<(), DiskFault>
        ensures change { Performs (step_of change) (memory_folder self.old)
            (memory_folder self.new) result }
        ensures spent { memory_failures self.old ≡ u64.MAX
            → memory_folder self.new ≡ memory_folder self.old }
        ensures time { Elapses (length (steps_of self.old)) (length (steps_of self.new))
            (IsLeftSince (start_of self.old) (steps_of self.old))
            (IsLeftSince (start_of self.new) (steps_of self.new))
            (IsImage (memory_folder self.new)) }
        ensures failures { CountsFailures (memory_failures self.old)
            (memory_failures self.new) result }
        ensures fault { result ≢ Err DiskFault.OutOfMemory }
        ensures notes { Notes self.old (step_of change) result self.new }
    {
        if self.failures == u64::MAX || self.changes.push(change).is_err() {
            return self.fail();
        }
        Ok(())
    }

    /// Counts a failure, and returns it.
    fn fail(&mut self) -> Result<(), DiskFault>
        ensures fails { result ≡ Err DiskFault.Device }
        ensures steps { self.new.changes ≡ self.old.changes }
        ensures start { self.new.start ≡ self.old.start }
        ensures count { memory_failures self.new ≡ min (memory_failures self.old + 1) u64.MAX }
        ensures failures { CountsFailures (memory_failures self.old)
            (memory_failures self.new) result }
    {
        self.failures = self.failures.saturating_add(1);
        Err(DiskFault::Device)
    }
}

impl Disk for MemoryDisk {
    ghost use Rattle.std.specs.Prelude.{ℕ, length, ⊤, ◌≡◌};
    ghost use Rattle.conf_disk.specs.Folder.{Folder, Step};
    ghost use Rattle.conf_disk.specs.Image.{Image};
    ghost use Rattle.conf_disk.specs.Log.{IsLeftSince};
    ghost use Rattle.conf_disk.specs.LogLaws.{left_now, left_only_now, folder_after-whole, image-whole};
    ghost use Rattle.test_disks.specs.Memory.{steps_of, start_of, memory_folder, memory_failures, Notes};
    ghost use Rattle.test_disks.specs.Replay.{image_of};

    ghost model = { record {
      honest = ⊤;
      folder = memory_folder;
      moment = λ disk. length (steps_of disk);
      left = λ disk. IsLeftSince (start_of disk) (steps_of disk);
      failure_count = memory_failures;
    } };

    ghost also_changes = { λ old step result new. Notes old step result new };

    ghost also_reads = { λ old name max result new. new ≡ old };

    ghost counts_now = { λ disk t image honest le is. left_now (start_of disk) (steps_of disk) t image le is };

    ghost only_now = { λ disk image honest is. left_only_now (start_of disk) (steps_of disk) image is };

    ghost whole = { λ disk honest.
        folder_after-whole (steps_of disk) (start_of disk) (image-whole (image_of disk.start)) };

    fn failures(&self) -> u64 {
        self.failures
    }

    fn several_waited(&self) -> bool {
        self.marks().noted
    }

    fn read(&mut self, alloc: Global, name: Name, max: u64) -> Result<Content, DiskFault> {
        if self.failures == u64::MAX {
            return Err(DiskFault::Device);
        }
        match self.content(alloc, name, max) {
            Ok(content) => Ok(content),
            Err(_) => Err(DiskFault::OutOfMemory),
        }
    }

    fn create_next(&mut self) -> Result<(), DiskFault> {
        self.note(Change::CreateNext)
    }

    fn append(&mut self, name: Name, bytes: &[u8]) -> Result<(), DiskFault> {
        match bytes.to_vec(self.alloc) {
            Ok(kept) => self.note(Change::Append(name, kept)),
            Err(_) => self.fail(),
        }
    }

    fn sync(&mut self, name: Name) -> Result<(), DiskFault> {
        self.note(Change::Sync(name))
    }

    fn rename_next(&mut self) -> Result<(), DiskFault> {
        self.note(Change::RenameNext)
    }

    fn remove_next(&mut self) -> Result<(), DiskFault> {
        self.note(Change::RemoveNext)
    }

    fn sync_folder(&mut self) -> Result<(), DiskFault> {
        self.note(Change::SyncFolder)
    }
}
