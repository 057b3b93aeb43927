// The trait: what each call on the locks of a folder is trusted to do.
ghost use Rattle.std.specs.Prelude.{◌≡◌, ◌≢◌, ◌⊎◌, ◌+◌, ℕ, Some, IsSome, OnOk, IfOk, MatchResult};
ghost use Rattle.conf_locks.specs.Locks.{after, IsFree, HoldsNone};
ghost use Rattle.conf_locks.specs.Locks.{LockFile, LockFolder, ShareFolder, Make, Remove, Mark};
ghost use Rattle.conf_locks.specs.Models.{LockModel, Goes, MayAlways, Asks, MayDo, IsOpened, IsMade, made_count};

use std::io;

/// What came of asking for a lock, without waiting.
#[derive(Clone, Copy, Debug, PartialEq, Eq)]
pub enum Locking {
    /// This run has it.
    Taken,
    /// Another one has a lock that keeps it out.
    Held,
}

/// What came of opening `store.lock`.
#[derive(Clone, Copy, Debug, PartialEq, Eq)]
pub enum Opening {
    /// It is open.
    Opened,
    /// There is none.
    Missing,
    /// This run may not open it.
    Refused,
}

/// What came of making `store.lock`.
#[derive(Clone, Copy, Debug, PartialEq, Eq)]
pub enum Making {
    /// It is new, and open.
    Made,
    /// There is one already.
    Exists,
}

/// Single calls of the system on the `store.lock` of a folder, and on the folder, by one of several runs.
///
/// The clauses have the premise that the system is `honest`: that it does what the manual says, and that all who make
/// such calls in the folder keep to what the calls require. Before each call other runs may have made any of theirs.
///
/// # Errors
/// Any call may fail, for any reason. One that asks for a lock gives none then.
pub trait LockSystem {
    /// What contracts see of the system: whether it is honest, the number of this run, the locks, the file that is
    /// open, and how many files were changed.
    ghost model: { LockModel Self };

    /// Opens `store.lock`, to be locked: `open(2)`. The file that was open before is closed.
    fn open(&mut self) -> io::Result<Opening>
        requires { model.honest → (file : ℕ)
            → (model.locks self.old).holder file ≢ Some (model.run self.old) }
        ensures goes { model.honest → Goes model self.old self.new (λ mid new. (new ≡ mid)
            × IfOk result (λ opening. IsOpened opening mid (model.opened self.new))) }
        ensures changes { model.honest → model.changes self.new ≡ model.changes self.old };

    /// Whether the open file is marked as a run's: `fstat(2)`.
    fn is_marked(&mut self) -> io::Result<bool>
        ensures goes { model.honest → Goes model self.old self.new (λ mid new. (new ≡ mid)
            × IfOk result (λ marked. (file : ℕ) → model.opened self.old ≡ Some file
            → marked ≡ mid.marked file)) }
        ensures opened { model.honest → model.opened self.new ≡ model.opened self.old }
        ensures changes { model.honest → model.changes self.new ≡ model.changes self.old };

    /// Whether the file that is `store.lock` is marked as a run's: `lstat(2)`.
    fn is_there_marked(&mut self) -> io::Result<bool>
        ensures goes { model.honest → Goes model self.old self.new (λ mid new. (new ≡ mid)
            × IfOk result (λ marked. (file : ℕ) → mid.path ≡ Some file → marked ≡ mid.marked file)) }
        ensures changes { model.honest → model.changes self.new ≡ model.changes self.old };

    /// Asks for the lock of the open file, for this run alone: `flock(2)` with `LOCK_EX | LOCK_NB`.
    fn try_lock_file(&mut self) -> io::Result<Locking>
        requires opened { model.honest → IsSome (model.opened self.old) }
        requires none { model.honest → (file : ℕ)
            → (model.locks self.old).holder file ≢ Some (model.run self.old) }
        requires may { model.honest → (file : ℕ) → model.opened self.old ≡ Some file
            → MayAlways model (LockFile file) self.old }
        ensures goes { model.honest → Goes model self.old self.new (λ mid new. (file : ℕ)
            → model.opened self.old ≡ Some file
            → Asks (model.run self.old) (LockFile file) result mid new) }
        ensures opened { model.honest → model.opened self.new ≡ model.opened self.old }
        ensures changes { model.honest → model.changes self.new ≡ model.changes self.old };

    /// Asks for the lock of the folder, for this run alone: `flock(2)` with `LOCK_EX | LOCK_NB`.
    fn try_lock_folder(&mut self) -> io::Result<Locking>
        requires { model.honest → HoldsNone (model.run self.old) (model.locks self.old) }
        ensures goes { model.honest → Goes model self.old self.new
            (Asks (model.run self.old) LockFolder result) }
        ensures opened { model.honest → model.opened self.new ≡ model.opened self.old }
        ensures changes { model.honest → model.changes self.new ≡ model.changes self.old };

    /// Asks for the lock of the folder, to share it: `flock(2)` with `LOCK_SH | LOCK_NB`.
    fn try_share_folder(&mut self) -> io::Result<Locking>
        requires { model.honest
            → (model.locks self.old).alone ≢ Some (model.run self.old) }
        ensures goes { model.honest → Goes model self.old self.new
            (Asks (model.run self.old) ShareFolder result) }
        ensures opened { model.honest → model.opened self.new ≡ model.opened self.old }
        ensures changes { model.honest → model.changes self.new ≡ model.changes self.old };

    /// Finds that the open file is `store.lock`: `lstat(2)`.
    fn find_in_place(&mut self) -> io::Result<()>
        ensures goes { model.honest → Goes model self.old self.new (λ mid new. (new ≡ mid)
            × OnOk result (mid.path ≡ model.opened self.old)) }
        ensures opened { model.honest → model.opened self.new ≡ model.opened self.old }
        ensures changes { model.honest → model.changes self.new ≡ model.changes self.old };

    /// Makes `store.lock`, where there is none, and opens it: `open(2)` with `O_CREAT | O_EXCL`. It is not marked.
    fn make(&mut self) -> io::Result<Making>
        requires none { model.honest → (file : ℕ)
            → (model.locks self.old).holder file ≢ Some (model.run self.old) }
        requires may { model.honest → (file : ℕ) → MayAlways model (Make file) self.old }
        ensures goes { model.honest → Goes model self.old self.new (λ mid new. MatchResult result
            (λ making. IsMade making (model.run self.old) mid new (model.opened self.new))
            (λ _. (file : ℕ) × MayDo (model.run self.old) (Make file) mid new)) }
        ensures changes { model.honest → IfOk result (λ making.
            model.changes self.new ≡ model.changes self.old + made_count making) };

    /// Removes `store.lock`: `unlink(2)`.
    fn remove(&mut self) -> io::Result<()>
        requires { model.honest → MayAlways model Remove self.old }
        ensures goes { model.honest → Goes model self.old self.new (MayDo (model.run self.old) Remove) };

    /// Marks the open file as a run's, and lets open it whoever may change the store: `fchown(2)`, `fchmod(2)`. Where
    /// the system refuses, it stays as it is.
    fn mark(&mut self) -> io::Result<()>
        requires { model.honest → (file : ℕ) → model.opened self.old ≡ Some file
            → MayAlways model (Mark file) self.old }
        ensures goes { model.honest → Goes model self.old self.new (λ mid new. (new ≡ mid)
            ⊎ ((file : ℕ) × (model.opened self.old ≡ Some file)
            × (new ≡ after (model.run self.old) (Mark file) mid))) }
        ensures opened { model.honest → model.opened self.new ≡ model.opened self.old };

    /// Lets all locks go, and closes the file and the folder: `close(2)`. No call may follow.
    fn let_go(&mut self)
        ensures goes { model.honest → Goes model self.old self.new (λ mid new.
            HoldsNone (model.run self.old) new) }
        ensures changes { model.honest → model.changes self.new ≡ model.changes self.old };
}
