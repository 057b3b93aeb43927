// The trait: what each call that makes a folder is trusted to do.
ghost use Rattle.std.specs.Prelude.{◌≡◌, ◌≤◌, ℕ};
ghost use Rattle.conf_folder.specs.NewFolders.{FolderModel, Machine, New, Remove, SyncParent, Goes, GoesMaking};

use std::io;

/// What came of making a folder.
#[derive(Clone, Copy, Debug, PartialEq, Eq)]
pub enum FolderMaking {
    /// It was made, and is empty.
    Made,
    /// Something is at the path: nothing was done.
    Exists,
}

/// Single calls of the system on a folder at a path, in which, and beside which, nobody else makes or removes one.
///
/// The clauses have the premise that the system is `honest`: that it does what the manual says. A call that fails may
/// have been done or not.
///
/// # Errors
/// Any call may fail, for any reason.
pub trait FolderCalls {
    /// What contracts see of it: whether the system is honest, the machine, the moment, and what was held since.
    ghost model: { FolderModel Self };

    /// Makes an empty folder at the path, if nothing is there: `mkdir(2)`.
    fn make(&mut self) -> io::Result<FolderMaking>
        ensures { GoesMaking model self.old result self.new };

    /// Removes the new folder, in which nothing is: `rmdir(2)`.
    fn remove(&mut self) -> io::Result<()>
        requires { model.honest → (model.machine self.old).now ≡ New }
        ensures { Goes model Remove self.old result self.new };

    /// Puts what the path leads to on the device: `fsync(2)` of the folder that has the name. This reaches it in the
    /// order of the calls, also without it. After one that failed nothing more is sure than before.
    fn sync_parent(&mut self) -> io::Result<()>
        ensures { Goes model SyncParent self.old result self.new };

    /// This moment is one of those since an earlier one.
    ghost holds_now: { (calls : Self) (t : ℕ) → model.honest → t ≤ model.moment calls
        → model.held calls t (model.machine calls) };

    /// Since this moment there is no other.
    ghost only_now: { (calls : Self) (m : Machine) → model.honest → model.held calls (model.moment calls) m
        → m ≡ model.machine calls };
}
