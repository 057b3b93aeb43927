// The disk of a real folder: how it is opened, and what its failures are.
ghost use Rattle.std.specs.Prelude.{◌≡◌, ◌≢◌, Err, IfErr, IfSome};
ghost use Rattle.conf_disk.specs.Moments.{CountsFailures};

use crate::files::{Paths, STORE, open_and_look, open_folder, subject_of};
use crate::host::{HostSystem, Presence};
use crate::lock::{find_readable, lock_store};
use crate::{FolderError, FolderFault};
use conf_disk::{Content, Disk, DiskFault, Name};
use conf_files::{Cause, OpenFolder, Subject};
use conf_protocol::{DiskState, Refusal, SystemDisk, Unopened};
use std::alloc::Global;
use std::fs::{File, Metadata};
use std::rt::Files;

/// The disk of a real folder: `store.yaml` and `next.yaml` in it. It holds a lock on `store.lock`, one on the folder,
/// and a handle for appending to each file that it appended to, until it is dropped. Where a name has no plain file but
/// a link, a FIFO or a folder, a call on it fails.
///
/// A run that appended and was killed, or whose sync failed, may have left bytes of `store.yaml` in memory that the
/// device doesn't have, and that no later sync writes. A note in `store.lock` tells the next run, whose first sync of
/// `store.yaml` puts a copy in its place. [`release`](FolderDisk::release) notes that there are none.
///
/// Before it says that `store.yaml` is synced, and before it replaces the file, it finds the file as it read or left
/// it. If others have written to it, cut, replaced or removed it, as two runs may where the system's locks don't
/// exclude each other, the call fails.
///
/// One that was opened [`for_reading`](FolderDisk::for_reading) holds no lock, and reads what the system gives. On it
/// each call but `read` and `failures` fails, and changes nothing.
#[derive(Drop)]
pub struct FolderDisk<'r, R: Files<File = File>> {
    /// The system. There is none only while a call is on its way.
    system: Option<HostSystem<'r, R>>,
    /// What the disk over it knows and has counted.
    state: DiskState,
}

/// A call that changes the folder, as data.
#[derive(Clone, Copy)]
enum Change<'b> {
    CreateNext,
    Append(Name, &'b [u8]),
    Sync(Name),
    RenameNext,
    RemoveNext,
    SyncFolder,
}

impl Change<'_> {
    /// Makes the call on a disk.
    fn make_on<R: Files<File = File>>(
        self,
        disk: &mut SystemDisk<HostSystem<'_, R>>,
    ) -> Result<(), DiskFault>
        ensures failures { CountsFailures disk.old.failures disk.new.failures result }
        ensures fault { result ≢ Err DiskFault.OutOfMemory }
    {
        match self {
            Change::CreateNext => disk.create_next(),
            Change::Append(name, bytes) => disk.append(name, bytes),
            Change::Sync(name) => disk.sync(name),
            Change::RenameNext => disk.rename_next(),
            Change::RemoveNext => disk.remove_next(),
            Change::SyncFolder => disk.sync_folder(),
        }
    }
}

/// Why a call failed, by the file or folder that it was.
fn cause_of(refusal: Refusal) -> Cause {
    subject_of(refusal.place).cause(refusal.error)
}

impl<'r, R: Files<File = File>> FolderDisk<'r, R> {
    /// The disk of the folder at a path, in which a store is made if there is none. It opens the folder, takes the lock
    /// on its `store.lock`, and one on the folder, without waiting. It makes `store.lock` if it is missing.
    ///
    /// Whoever can only read the folder can't hold these locks, once a run has made `store.lock`.
    ///
    /// # Errors
    /// `Device` if there is no folder at the path, one of the names has no plain file but something else, or a call of
    /// the system fails; `Locked` if another run holds a lock; and `OutOfMemory`.
    pub fn new(rt: &'r R, alloc: Global, folder: &str) -> Result<Self, FolderError>
        ensures { IfErr result (λ error.
            (error.fault ≢ FolderFault.NotAStore) × (error.fault ≢ FolderFault.StoreExists)) }
    {
        let (folder, paths, store) = open_and_look(rt, alloc, folder)?;
        let presence = match store {
            Some(_) => Presence::There,
            None => Presence::Unknown,
        };
        FolderDisk::locked(rt, folder, paths, presence, store)
    }

    /// The disk of the folder at a path, which has a store. It is opened as by [`new`](FolderDisk::new), but no store
    /// is made: where `store.yaml` is missing, no file is made.
    ///
    /// `store.yaml` is looked for before the locks are taken. So beside a run that makes the store at this moment this
    /// returns `NotAStore`, as before that run, or `Locked`, or the disk of the new store, as after it. If `store.yaml`
    /// is there at first and a read doesn't find it, the read fails.
    ///
    /// # Errors
    /// `NotAStore` if there is no `store.yaml`: the folder is as it was. Otherwise those of [`new`](FolderDisk::new).
    pub fn of_store(rt: &'r R, alloc: Global, folder: &str) -> Result<Self, FolderError>
        ensures { IfErr result (λ error. error.fault ≢ FolderFault.StoreExists) }
    {
        let (folder, paths, store) = open_and_look(rt, alloc, folder)?;
        match store {
            Some(_) => FolderDisk::locked(rt, folder, paths, Presence::There, store),
            None => Err(FolderError::from(FolderFault::NotAStore)),
        }
    }

    /// The disk of the folder at a path, in which a new store is to be made. It is opened as by
    /// [`new`](FolderDisk::new). The new `store.yaml` has the mode of `like`, the file of another store, and its owner
    /// and its group as far as the system allows it. Without one it is as any new file.
    ///
    /// Another run may make a store before this one has the locks. Then the next read finds it.
    ///
    /// # Errors
    /// `StoreExists` if there is a `store.yaml`: the folder is as it was. Otherwise those of [`new`](FolderDisk::new),
    /// and `Device` if the system refuses to look at `like`.
    pub fn for_new_store(
        rt: &'r R,
        alloc: Global,
        folder: &str,
        like: Option<&File>,
    ) -> Result<Self, FolderError>
        ensures { IfErr result (λ error. error.fault ≢ FolderFault.NotAStore) }
    {
        let (folder, paths, store) = open_and_look(rt, alloc, folder)?;
        if store.is_some() {
            return Err(FolderError::from(FolderFault::StoreExists));
        }
        let like = match like {
            Some(file) => Some(STORE.blame(file.metadata())?),
            None => None,
        };
        FolderDisk::locked(rt, folder, paths, Presence::Unknown, like)
    }

    /// The disk of the folder at a path, for reading alone: for a folder or files that can't be written, or are not to
    /// be. It opens the folder, and finds that no run holds the lock on it. It holds none itself, and makes no file.
    ///
    /// # Errors
    /// `Device` if there is no folder at the path, `store.yaml` or `next.yaml` is no plain file but something else, or
    /// a call of the system fails; `Locked` if another run holds the lock on the folder; and `OutOfMemory`. The folder
    /// is unchanged.
    pub fn for_reading(rt: &'r R, alloc: Global, folder: &str) -> Result<Self, FolderError>
        ensures { IfErr result (λ error.
            (error.fault ≢ FolderFault.NotAStore) × (error.fault ≢ FolderFault.StoreExists)) }
    {
        let (folder, paths) = open_folder(rt, alloc, folder)?;
        find_readable(rt, &folder, &paths)?;
        let system = HostSystem::new(rt, folder, paths, None, Presence::Unknown, None);
        Ok(FolderDisk::put_away(SystemDisk::for_reading(system)))
    }

    /// The disk of an open folder, once it has the locks.
    fn locked(
        rt: &'r R,
        folder: OpenFolder,
        paths: Paths,
        presence: Presence,
        like: Option<Metadata>,
    ) -> Result<Self, FolderError>
        ensures { IfErr result (λ error.
            (error.fault ≢ FolderFault.NotAStore) × (error.fault ≢ FolderFault.StoreExists)) }
    {
        let (folder, lock) = lock_store(rt, folder, paths.lock.as_str(), like.as_ref())?;
        let system = HostSystem::new(rt, folder, paths, Some(lock), presence, like);
        match SystemDisk::open(system) {
            Ok(disk) => Ok(FolderDisk::put_away(disk)),
            Err(Unopened { refusal, system }) => {
                drop(system);
                Err(FolderError::from(cause_of(refusal)))
            }
        }
    }

    /// The disk of a folder, which was put away.
    fn put_away(disk: SystemDisk<HostSystem<'r, R>>) -> Self
        ensures { result.state.failures ≡ disk.entry.failures }
    {
        let (system, state) = disk.put_away();
        FolderDisk {
            system: Some(system),
            state,
        }
    }

    /// Takes the disk up for a call. [`keep`](FolderDisk::keep) puts it away again.
    fn take_up(&mut self) -> Option<SystemDisk<HostSystem<'r, R>>>
        ensures taken { IfSome result (λ disk. disk.failures ≡ self.old.state.failures) }
        ensures same { self.new.state ≡ self.old.state }
    {
        let system = self.system.take()?;
        Some(SystemDisk::take_up(system, self.state))
    }

    /// Puts the disk away, after a call.
    fn keep(&mut self, disk: SystemDisk<HostSystem<'r, R>>)
        ensures { self.new.state.failures ≡ disk.entry.failures }
    {
        let (system, state) = disk.put_away();
        // None is there, so this has nothing to drop, as an assignment would.
        self.system.insert(system);
        self.state = state;
    }

    /// Makes a call that changes the folder.
    fn make(&mut self, change: Change<'_>) -> Result<(), DiskFault>
        ensures failures { CountsFailures self.old.state.failures self.new.state.failures result }
        ensures fault { result ≢ Err DiskFault.OutOfMemory }
    {
        let Some(mut disk) = self.take_up() else {
            return Err(self.state.fail());
        };
        let done = change.make_on(&mut disk);
        self.keep(disk);
        done
    }

    /// Why the call that failed last did, if any did.
    pub fn cause(&self) -> Option<Cause> {
        let refusal = self.state.cause()?;
        match &self.system {
            Some(system) => match system.find_in_place() {
                Ok(()) => Some(cause_of(refusal)),
                Err(error) => Some(Subject::Given.cause(error)),
            },
            None => Some(cause_of(refusal)),
        }
    }

    /// Ends the run, and lets go of the locks. If the device has all bytes of `store.yaml`, and its name, it is noted
    /// in `store.lock`; where the system refuses that, the next run puts a copy in its place once more. If there is no
    /// `store.yaml`, a `store.lock` and a `next.yaml` that this run made are removed.
    pub fn release(self) {
        let FolderDisk { system, state } = self;
        if let Some(system) = system {
            let system = SystemDisk::take_up(system, state).release();
            system.finish();
            drop(system);
        }
    }
}

impl<'r, R: Files<File = File>> Disk for FolderDisk<'r, R> {
    ghost use Rattle.std.specs.Prelude.{ℕ};
    ghost use Rattle.conf_disk.specs.Folder.{empty_folder};

    ghost model = { record {
      honest = ⊥;
      folder = λ disk. empty_folder;
      moment = λ disk. 0;
      left = λ disk t image. ⊥;
      failure_count = λ disk. disk.state.failures;
    } };

    ghost counts_now = { λ disk t image honest le is. honest };

    ghost only_now = { λ disk image honest is. absurd honest };

    ghost whole = { λ disk honest. absurd honest };

    fn failures(&self) -> u64 {
        self.state.failures()
    }

    fn several_waited(&self) -> bool {
        self.state.several_waited()
    }

    fn read(&mut self, alloc: Global, name: Name, max: u64) -> Result<Content, DiskFault> {
        let Some(mut disk) = self.take_up() else {
            return Err(self.state.fail());
        };
        let done = disk.read(alloc, name, max);
        self.keep(disk);
        done
    }

    fn create_next(&mut self) -> Result<(), DiskFault> {
        self.make(Change::CreateNext)
    }

    fn append(&mut self, name: Name, bytes: &[u8]) -> Result<(), DiskFault> {
        self.make(Change::Append(name, bytes))
    }

    fn sync(&mut self, name: Name) -> Result<(), DiskFault> {
        self.make(Change::Sync(name))
    }

    fn rename_next(&mut self) -> Result<(), DiskFault> {
        self.make(Change::RenameNext)
    }

    fn remove_next(&mut self) -> Result<(), DiskFault> {
        self.make(Change::RemoveNext)
    }

    fn sync_folder(&mut self) -> Result<(), DiskFault> {
        self.make(Change::SyncFolder)
    }
}
