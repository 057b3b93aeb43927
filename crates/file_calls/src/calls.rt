// The trait: what each call of the system is trusted to do.
ghost use Rattle.std.specs.Prelude.{◌≡◌, ◌≤◌, ℕ, IfOk, IsSome};
ghost use Rattle.file_calls.specs.Machine.{Machine, Write, GiveOwner, GiveGroup, SetMode, SyncNew, Rename, UnlinkGiven};
ghost use Rattle.file_calls.specs.Machine.{UnlinkBeside, SyncFolder, MayBeCalled, IsNamed, rights_at};
ghost use Rattle.file_calls.specs.Machine.Leads.{Old, New};
ghost use Rattle.file_calls.specs.Models.{FileModel, Goes, CreatesBeside, CreatesGiven, Writes, TellsRights};

use std::io;

/// Who may use a file.
#[derive(Clone, Copy, Debug, PartialEq, Eq)]
pub struct Rights {
    /// The number of the user who owns it.
    pub owner: u32,
    /// The number of its group.
    pub group: u32,
    /// The bits that say who may read, write and run it.
    pub mode: u32,
}

/// What came of a new file.
#[derive(Clone, Copy, Debug, PartialEq, Eq)]
pub enum Creation {
    /// It was made.
    Made,
    /// Its name is taken: nothing was done.
    Taken,
}

/// Single calls of the system on a file that a person names, and on a new one in its folder, in which nobody else
/// writes.
///
/// The clauses have the premise that the system is `honest`: that it does what the manual says. A call that fails may
/// have been done or not, but for what its clause says; a write may be short.
///
/// # Errors
/// Any call may fail, for any reason.
pub trait FileCalls {
    /// What contracts see of it: whether the system is honest, the machine, the moment, and what was held since.
    ghost model: { FileModel Self };

    /// Who may use the file that the name leads to, which is there and may be written: `lstat(2)`, `fstat(2)`.
    fn old_rights(&mut self) -> io::Result<Rights>
        requires { model.honest → IsNamed Old (model.machine self.old) }
        ensures { TellsRights model Old self.old result self.new };

    /// Makes an empty new file beside it, under the name of this number, which is taken if it is there: `open(2)` with
    /// `O_CREAT | O_EXCL`. Nobody but its owner may use it.
    fn create_beside(&mut self, number: u32) -> io::Result<Creation>
        requires { model.honest → (model.machine self.old).new ≡ None }
        ensures { CreatesBeside model self.old result self.new };

    /// Makes an empty new file under the name itself: `open(2)` with `O_CREAT | O_EXCL`. It fails if something is
    /// there. Nobody but its owner may use it.
    fn create_given(&mut self) -> io::Result<()>
        requires { model.honest → (model.machine self.old).new ≡ None }
        ensures { CreatesGiven model self.old result self.new };

    /// Adds some of the bytes at the end of the new file, from the first on, and returns how many: `write(2)`. They are
    /// pending until the file is synced. A call that fails may have added some.
    fn write(&mut self, bytes: &[u8]) -> io::Result<usize>
        requires { model.honest → IsSome (model.machine self.old).new }
        ensures { Writes model bytes.now self.old result self.new };

    /// Who may use the new file: `fstat(2)`.
    fn new_rights(&mut self) -> io::Result<Rights>
        requires { model.honest → IsSome (model.machine self.old).new }
        ensures { TellsRights model New self.old result self.new };

    /// Gives the new file an owner and a group: `fchown(2)`.
    fn give_owner(&mut self, owner: u32, group: u32) -> io::Result<()>
        requires { model.honest → MayBeCalled (GiveOwner owner group) (model.machine self.old) }
        ensures { Goes model (GiveOwner owner group) self.old result self.new };

    /// Gives the new file a group: `fchown(2)`.
    fn give_group(&mut self, group: u32) -> io::Result<()>
        requires { model.honest → MayBeCalled (GiveGroup group) (model.machine self.old) }
        ensures { Goes model (GiveGroup group) self.old result self.new };

    /// Gives the new file a mode: `fchmod(2)`.
    fn set_mode(&mut self, mode: u32) -> io::Result<()>
        requires { model.honest → MayBeCalled (SetMode mode) (model.machine self.old) }
        ensures { Goes model (SetMode mode) self.old result self.new };

    /// Puts the bytes of the new file on the device: `fsync(2)`. After one that failed the device may lack any that
    /// were pending, whatever a later one returns.
    fn sync_new(&mut self) -> io::Result<()>
        requires { model.honest → MayBeCalled SyncNew (model.machine self.old) }
        ensures { Goes model SyncNew self.old result self.new };

    /// Gives the new file the name, from the old one that has it: `rename(2)`.
    fn rename(&mut self) -> io::Result<()>
        requires { model.honest → MayBeCalled Rename (model.machine self.old) }
        ensures { Goes model Rename self.old result self.new };

    /// Removes the name of the new file beside the other: `unlink(2)`.
    fn unlink_beside(&mut self) -> io::Result<()>
        ensures { Goes model UnlinkBeside self.old result self.new };

    /// Removes the name, which leads to the new file: `unlink(2)`.
    fn unlink_given(&mut self) -> io::Result<()>
        requires { model.honest → MayBeCalled UnlinkGiven (model.machine self.old) }
        ensures { Goes model UnlinkGiven self.old result self.new };

    /// Puts the names on the device: `fsync(2)` of the folder. They reach it in the order of the calls, also without
    /// it. After one that failed nothing more is sure than before.
    fn sync_folder(&mut self) -> io::Result<()>
        ensures { Goes model SyncFolder self.old result self.new };

    /// This moment is one of those since an earlier one.
    ghost holds_now: { (calls : Self) (t : ℕ) → model.honest → t ≤ model.moment calls
        → model.held calls t (model.machine calls) };

    /// Since this moment there is no other.
    ghost only_now: { (calls : Self) (m : Machine) → model.honest → model.held calls (model.moment calls) m
        → m ≡ model.machine calls };
}
