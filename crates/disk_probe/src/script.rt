// A script: runs of a disk, one after the other, on one folder.
use crate::guarded::GuardedSystem;
use crate::promises::Promises;
use conf_disk::{Content, Disk, DiskFault, Name};
use conf_journal::{append_closed, finish_next, load, stage_next, swap_next};
use conf_protocol::SystemDisk;
use conf_system::FileName;
use std::alloc::{AllocError, Global};
use test_system::MemorySystem;

/// More bytes than any file of a script has.
const LIMIT: u64 = 1_000;

/// What is left when a script has ended.
#[derive(Drop)]
pub(crate) struct Ended {
    pub(crate) system: MemorySystem,
    pub(crate) promises: Promises,
    /// How many calls of the disk returned `Ok`.
    pub(crate) done: usize,
    pub(crate) is_misused: bool,
}

/// Performs the words of a script on the folder of a system, in which `store.yaml` has these bytes, or is missing.
pub(crate) fn perform(
    alloc: Global,
    system: MemorySystem,
    bytes: Option<&[u8]>,
    script: &str,
) -> Result<Ended, AllocError> {
    let mut ended = Ended {
        system,
        promises: Promises::new(alloc, bytes)?,
        done: 0,
        is_misused: false,
    };
    for run in script.split(" again ") {
        ended = perform_run(alloc, ended, run)?;
    }
    Ok(ended)
}

/// Performs one run. If the disk can't be opened, it does nothing more.
fn perform_run(alloc: Global, before: Ended, words: &str) -> Result<Ended, AllocError> {
    let Ended {
        system,
        promises,
        done,
        is_misused,
    } = before;
    let disk = match SystemDisk::open(GuardedSystem::over(system)) {
        Ok(disk) => disk,
        Err(unopened) => {
            let is_misused = is_misused || unopened.system.is_misused();
            return Ok(Ended {
                system: unopened.system.into_inner(),
                promises,
                done,
                is_misused,
            });
        }
    };
    let mut run = Run {
        alloc,
        disk: Some(disk),
        promises,
        staged: Vec::new(alloc),
        synced: 0,
        done,
    };
    for word in words.split(' ') {
        run.perform(word)?;
    }
    let Run {
        disk,
        promises,
        done,
        ..
    } = run;
    let Some(disk) = disk else {
        return Err(AllocError);
    };
    let system = disk.release();
    let is_misused = is_misused || system.is_misused();
    Ok(Ended {
        system: system.into_inner(),
        promises,
        done,
        is_misused,
    })
}

/// A run, and what it knows.
#[derive(Drop)]
struct Run {
    alloc: Global,
    /// There is none only while calls are counted.
    disk: Option<SystemDisk<GuardedSystem>>,
    promises: Promises,
    /// The bytes of `next.yaml`.
    staged: Vec<u8>,
    /// How many of them are synced.
    synced: usize,
    done: usize,
}

impl Run {
    /// How many calls of the system were made that change something.
    fn calls(&mut self) -> usize {
        let Some(disk) = self.disk.take() else {
            return 0;
        };
        let (system, state) = disk.put_away();
        let calls = system.calls();
        self.disk = Some(SystemDisk::take_up(system, state));
        calls
    }

    /// What the file under a name has, also where no call may read.
    fn file(&mut self, name: FileName) -> Result<Option<Vec<u8>>, AllocError> {
        let Some(disk) = self.disk.take() else {
            return Ok(None);
        };
        let (system, state) = disk.put_away();
        let found = system.file(name);
        self.disk = Some(SystemDisk::take_up(system, state));
        found
    }

    /// What a name reads as.
    fn read(&mut self, name: Name) -> Option<Content> {
        let disk = self.disk.as_mut()?;
        disk.read(self.alloc, name, LIMIT).ok()
    }

    /// Makes a call of the disk. Returns whether it was done.
    fn call(&mut self, call: Call<'_>) -> bool {
        match &mut self.disk {
            Some(disk) => call.make(disk).is_ok(),
            None => false,
        }
    }

    fn perform(&mut self, word: &str) -> Result<(), AllocError> {
        let (word, bytes) = word.split_once(':').unwrap_or((word, ""));
        let bytes = bytes.as_bytes();
        let is_done = match word {
            "append" => self.append(Call::Append(Name::Store, bytes), bytes)?,
            "sync" => self.sync()?,
            "create" => self.create()?,
            "stage" => self.stage(bytes)?,
            "sync_next" => self.sync_next(),
            "rename" => self.rename(Call::RenameNext)?,
            "remove" => self.remove()?,
            "folder" => self.sync_folder()?,
            "load" => self.load()?,
            "append_closed" => self.append_closed(bytes)?,
            "stage_next" => self.stage_next(bytes)?,
            "swap_next" => self.swap_next(Call::SwapNext)?,
            "finish_next" => self.finish_next()?,
            _ => false,
        };
        if is_done {
            self.done = self.done.saturating_add(1);
        }
        Ok(())
    }

    /// Appends these bytes by a call.
    fn append(&mut self, call: Call<'_>, bytes: &[u8]) -> Result<bool, AllocError> {
        self.promises.may_grow(bytes)?;
        if self.call(call) {
            return Ok(true);
        }
        if let Some(bytes) = self.file(FileName::Store)? {
            self.promises.reads_as(&bytes)?;
        }
        Ok(false)
    }

    fn sync(&mut self) -> Result<bool, AllocError> {
        let is_done = self.call(Call::Sync(Name::Store));
        if is_done {
            self.promise_bytes()?;
        }
        Ok(is_done)
    }

    /// The device has all bytes of the file.
    fn promise_bytes(&mut self) -> Result<(), AllocError> {
        let calls = self.calls();
        self.promises.is_synced(calls)
    }

    /// The device has the file's name.
    fn promise_name(&mut self) -> Result<(), AllocError> {
        let calls = self.calls();
        self.promises.is_settled(calls)
    }

    fn load(&mut self) -> Result<bool, AllocError> {
        let is_done = match &mut self.disk {
            Some(disk) => load(self.alloc, disk).is_ok(),
            None => false,
        };
        if is_done {
            self.promise_name()?;
            self.promise_bytes()?;
        }
        Ok(is_done)
    }

    fn append_closed(&mut self, bytes: &[u8]) -> Result<bool, AllocError> {
        let is_done = self.append(Call::AppendClosed(bytes), bytes)?;
        if is_done {
            self.promise_bytes()?;
        }
        Ok(is_done)
    }

    /// What `next.yaml` has after a call of it.
    fn look_at_next(&mut self, is_done: bool) -> Result<bool, AllocError> {
        if !is_done {
            self.synced = 0;
            if let Some(bytes) = self.file(FileName::Next)? {
                self.staged = bytes;
            }
        }
        Ok(is_done)
    }

    fn create(&mut self) -> Result<bool, AllocError> {
        match self.read(Name::Next) {
            Some(Content::Missing) => {
                self.staged.clear();
                self.synced = 0;
                Ok(self.call(Call::CreateNext))
            }
            _ => Ok(false),
        }
    }

    fn stage(&mut self, bytes: &[u8]) -> Result<bool, AllocError> {
        match self.read(Name::Next) {
            Some(Content::Bytes(_)) => {}
            _ => return Ok(false),
        }
        self.staged.extend_from_slice(bytes)?;
        let is_done = self.call(Call::Append(Name::Next, bytes));
        self.look_at_next(is_done)
    }

    fn stage_next(&mut self, bytes: &[u8]) -> Result<bool, AllocError> {
        self.staged.clear();
        self.staged.extend_from_slice(bytes)?;
        let is_done = self.call(Call::StageNext(bytes));
        self.synced = bytes.len();
        self.look_at_next(is_done)
    }

    fn sync_next(&mut self) -> bool {
        let is_done = self.call(Call::Sync(Name::Next));
        if is_done {
            self.synced = self.staged.len();
        }
        is_done
    }

    /// Renames `next.yaml` by a call, and puts the name on the device.
    fn swap_next(&mut self, call: Call<'_>) -> Result<bool, AllocError> {
        let is_done = self.rename(call)?;
        if is_done {
            self.promise_name()?;
        }
        Ok(is_done)
    }

    fn finish_next(&mut self) -> Result<bool, AllocError> {
        let is_done = self.swap_next(Call::FinishNext)?;
        if is_done {
            self.promise_bytes()?;
        }
        Ok(is_done)
    }

    /// Renames `next.yaml` by a call.
    fn rename(&mut self, call: Call<'_>) -> Result<bool, AllocError> {
        match self.read(Name::Next) {
            Some(Content::Bytes(bytes)) => self.staged = bytes,
            _ => return Ok(false),
        }
        let surely = self.synced.min(self.staged.len());
        let calls = self.calls();
        self.promises.may_be_renamed(calls, &self.staged, surely)?;
        if self.call(call) {
            return Ok(true);
        }
        let is_renamed = match self.file(FileName::Store)? {
            Some(bytes) => bytes.as_slice() == self.staged.as_slice(),
            None => false,
        };
        if !is_renamed {
            self.promises.is_not_renamed();
        }
        Ok(false)
    }

    fn remove(&mut self) -> Result<bool, AllocError> {
        let is_done = self.call(Call::RemoveNext);
        self.look_at_next(is_done)
    }

    fn sync_folder(&mut self) -> Result<bool, AllocError> {
        let is_done = self.call(Call::SyncFolder);
        if is_done {
            self.promise_name()?;
        }
        Ok(is_done)
    }
}

/// A call of the disk that changes something, or a procedure of the journal.
#[derive(Clone, Copy)]
enum Call<'a> {
    CreateNext,
    Append(Name, &'a [u8]),
    Sync(Name),
    RenameNext,
    RemoveNext,
    SyncFolder,
    AppendClosed(&'a [u8]),
    StageNext(&'a [u8]),
    SwapNext,
    FinishNext,
}

impl Call<'_> {
    fn make(self, disk: &mut SystemDisk<GuardedSystem>) -> Result<(), DiskFault> {
        match self {
            Call::CreateNext => disk.create_next(),
            Call::Append(name, bytes) => disk.append(name, bytes),
            Call::Sync(name) => disk.sync(name),
            Call::RenameNext => disk.rename_next(),
            Call::RemoveNext => disk.remove_next(),
            Call::SyncFolder => disk.sync_folder(),
            Call::AppendClosed(bytes) => append_closed(disk, bytes),
            Call::StageNext(bytes) => stage_next(disk, bytes),
            Call::SwapNext => swap_next(disk),
            Call::FinishNext => finish_next(disk),
        }
    }
}
