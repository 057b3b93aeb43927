// Taking the locks of a run, in such an order that no two runs have them.
ghost use Rattle.std.specs.Prelude.{◌≡◌, IsSome, Ok, Err, OnOk, OnErr, IfErr, MatchResult};
ghost use Rattle.conf_locks.specs.Locks.{HoldsNone, Remove};
ghost use Rattle.conf_locks.specs.Models.{MayAlways};
ghost use Rattle.conf_locks.specs.Taking.{HasTaken, IsToldBy, Follows, Takes, HasMarked, HoldsFolder, OpensOrMakes, taken_of};

use crate::system::{LockSystem, Locking, Making, Opening};
use std::io;
use std::io::ErrorKind;

/// What a lock is on.
#[derive(Clone, Copy, Debug, PartialEq, Eq)]
pub enum LockPlace {
    /// `store.lock`.
    File,
    /// The folder.
    Folder,
}

/// Why a run doesn't hold the locks.
#[derive(Clone, Copy, Debug)]
pub enum NotTaken {
    /// Another run holds one that was asked for.
    Locked(LockPlace),
    /// A call of the system failed.
    Failed(LockPlace, io::Error),
}

/// Where a `store.lock` comes from.
#[derive(Clone, Copy, Debug, PartialEq, Eq)]
pub enum Origin {
    /// It was there.
    Found,
    /// This run made it, where none was. It holds the lock of the folder alone then.
    Made,
}

impl LockPlace {
    /// The value of a result, or its error as that of a call on this.
    fn blame<T>(self, done: io::Result<T>) -> Result<T, NotTaken>
        ensures { MatchResult done (λ value. result ≡ Ok value)
            (λ error. result ≡ Err (NotTaken.Failed self error)) }
    {
        match done {
            Ok(value) => Ok(value),
            Err(error) => Err(NotTaken::Failed(self, error)),
        }
    }

    /// Returns if a lock was taken that was asked for.
    ///
    /// # Errors
    /// If another run holds it, or the system refused.
    fn taken(self, asked: io::Result<Locking>) -> Result<(), NotTaken>
        ensures { MatchResult asked (λ locking. result ≡ taken_of self locking)
            (λ error. result ≡ Err (NotTaken.Failed self error)) }
    {
        match asked {
            Ok(Locking::Taken) => Ok(()),
            Ok(Locking::Held) => Err(NotTaken::Locked(self)),
            Err(error) => Err(NotTaken::Failed(self, error)),
        }
    }
}

/// Takes the locks of a run that changes a store, without waiting: that of `store.lock`, which is made if it is
/// missing, and that of the folder. A run that finds a marked `store.lock` shares the folder's, or does without if
/// another program holds it. Any other run holds it alone.
///
/// # Errors
/// If another run holds a lock that was asked for, or a call of the system fails. No lock is held then, and nothing can
/// be done with the system any more.
pub fn take_locks<S: LockSystem>(system: &mut S) -> Result<Origin, NotTaken>
    requires { S.model.honest → HoldsNone (S.model.run system.old) (S.model.locks system.old) }
    ensures held { S.model.honest → OnOk result (HasTaken S.model system.new) }
    ensures made { S.model.honest → result ≡ Ok Origin.Made
        → MayAlways S.model Remove system.new }
    ensures told { S.model.honest → IfErr result (λ why.
        IsToldBy S.model why system.old system.new) }
    ensures none { S.model.honest → OnErr result
        (HoldsNone (S.model.run system.new) (S.model.locks system.new)) }
    ensures follows { S.model.honest → Follows S.model system.old system.new }
{
    match try_taking(system) {
        Ok(origin) => Ok(origin),
        Err(why) => {
            system.let_go();
            Err(why)
        }
    }
}

/// Takes the locks, or some of them.
fn try_taking<S: LockSystem>(system: &mut S) -> Result<Origin, NotTaken>
    requires { S.model.honest → HoldsNone (S.model.run system.old) (S.model.locks system.old) }
    ensures { S.model.honest → Takes S.model system.old result system.new }
{
    match LockPlace::File.blame(system.open())? {
        Opening::Opened => lock_opened(system),
        _ => lock_anew(system),
    }
}

/// Takes the locks of a run that has `store.lock` open, or some of them.
fn lock_opened<S: LockSystem>(system: &mut S) -> Result<Origin, NotTaken>
    requires none { S.model.honest
        → HoldsNone (S.model.run system.old) (S.model.locks system.old) }
    requires opened { S.model.honest → IsSome (S.model.opened system.old) }
    ensures { S.model.honest → Takes S.model system.old result system.new }
{
    if LockPlace::File.blame(system.is_marked())? {
        lock_marked(system)
    } else {
        lock_anew(system)
    }
}

/// Locks the open `store.lock`, which is marked, and shares the folder's lock with whoever only looks at it. If another
/// program holds that alone, the run does without: nobody removes a marked file.
fn lock_marked<S: LockSystem>(system: &mut S) -> Result<Origin, NotTaken>
    requires none { S.model.honest
        → HoldsNone (S.model.run system.old) (S.model.locks system.old) }
    requires marked { S.model.honest → HasMarked S.model system.old }
    ensures { S.model.honest → Takes S.model system.old result system.new }
{
    LockPlace::File.taken(system.try_lock_file())?;
    LockPlace::Folder.blame(system.try_share_folder())?;
    LockPlace::File.blame(system.find_in_place())?;
    Ok(Origin::Found)
}

/// Locks the folder for this run alone, and then `store.lock`, which is made, or marked if it isn't.
fn lock_anew<S: LockSystem>(system: &mut S) -> Result<Origin, NotTaken>
    requires { S.model.honest → HoldsNone (S.model.run system.old) (S.model.locks system.old) }
    ensures { S.model.honest → Takes S.model system.old result system.new }
{
    LockPlace::Folder.taken(system.try_lock_folder())?;
    let origin = LockPlace::File.blame(open_or_make(system))?;
    LockPlace::File.taken(system.try_lock_file())?;
    LockPlace::File.blame(system.mark())?;
    Ok(origin)
}

/// Opens `store.lock`, in a folder that this run has locked alone. A missing one is made, and one that may not be
/// opened is replaced, if no run has marked it.
fn open_or_make<S: LockSystem>(system: &mut S) -> io::Result<Origin>
    requires { S.model.honest → HoldsFolder S.model system.old }
    ensures { S.model.honest → OpensOrMakes S.model system.old result system.new }
{
    match system.make()? {
        Making::Made => Ok(Origin::Made),
        Making::Exists => open_found(system),
    }
}

/// Opens a `store.lock` that is there, in a folder that this run has locked alone, or replaces it.
fn open_found<S: LockSystem>(system: &mut S) -> io::Result<Origin>
    requires { S.model.honest → HoldsFolder S.model system.old }
    ensures { S.model.honest → OpensOrMakes S.model system.old result system.new }
{
    match system.open()? {
        Opening::Opened => Ok(Origin::Found),
        Opening::Missing => Err(io::Error::from(ErrorKind::NotFound)),
        Opening::Refused => replace(system),
    }
}

/// Replaces a `store.lock` that may not be opened, if no run has marked it: nobody holds its lock, since its holder
/// would hold the folder's too.
fn replace<S: LockSystem>(system: &mut S) -> io::Result<Origin>
    requires { S.model.honest → HoldsFolder S.model system.old }
    ensures { S.model.honest → OpensOrMakes S.model system.old result system.new }
{
    if system.is_there_marked()? {
        return Err(io::Error::new(ErrorKind::PermissionDenied, "another user's run made it"));
    }
    system.remove()?;
    match system.make()? {
        Making::Made => Ok(Origin::Found),
        Making::Exists => Err(io::Error::from(ErrorKind::AlreadyExists)),
    }
}
