// The locks of a folder, as data.
ghost use Rattle.std.specs.Prelude.{◌≡◌, ◌≢◌, ◌⊎◌, ◌↔◌, ℕ, true, false, Some, None, IsSome, get_or, vec_len, IfOk};
ghost use Rattle.conf_locks.specs.Locks.{Call, after, with_entry, IsFree, IsKeptOut, MayBeCalled, HoldsNone, Reaches};
ghost use Rattle.test_locks.specs.Tables.{call_of, locks_of, no_file, no_locks, Does, DoesOther, Becomes};
ghost use Rattle.test_locks.specs.Tables.{LetsFileGo, LetsFolderGo};

use crate::call::{LockCall, OtherCall};
use std::alloc::{AllocError, Global};

/// A file that is `store.lock`, or was.
#[derive(Clone, Copy)]
pub(crate) struct LockFile {
    pub(crate) is_marked: bool,
    pub(crate) holder: Option<usize>,
}

/// A file that nobody holds, and that is not marked.
const NEW_FILE: LockFile = LockFile {
    is_marked: false,
    holder: None,
};

/// Which file `store.lock` is, all files that ever were, which run holds the folder alone, and which runs share it.
#[derive(Drop)]
pub struct LockTable {
    pub(crate) path: Option<usize>,
    pub(crate) files: Vec<LockFile>,
    pub(crate) alone: Option<usize>,
    pub(crate) sharers: Vec<bool>,
}

impl LockTable {
    /// A folder without a `store.lock`, of which nobody holds a lock. Runs have numbers below this one.
    ///
    /// # Errors
    /// If there is no memory for it.
    pub fn new(alloc: Global, runs: usize) -> Result<Self, AllocError>
        ensures { IfOk result (λ table. locks_of table ≡ no_locks) }
    {
        Ok(LockTable {
            path: None,
            files: Vec::new(alloc),
            alone: None,
            sharers: vec![in alloc; false; runs]?,
        })
    }

    /// Which file `store.lock` is.
    pub fn path(&self) -> Option<usize>
        ensures { result ≡ (locks_of self.now).path }
    {
        self.path
    }

    /// Which run holds the lock of a file.
    pub fn holder(&self, file: usize) -> Option<usize>
        ensures { result ≡ (locks_of self.now).holder file }
    {
        self.file(file).holder
    }

    /// Whether a file is marked as a run's.
    pub fn is_marked(&self, file: usize) -> bool
        ensures { result ≡ (locks_of self.now).marked file }
    {
        self.file(file).is_marked
    }

    /// Whether a run holds no lock.
    pub fn holds_none(&self, run: usize) -> bool
        ensures { (result ≡ true) ↔ HoldsNone run (locks_of self.now) }
    {
        !is_run(self.alone, run) && !self.is_sharer(run) && !self.holds_file(run)
    }

    /// Whether a run holds the lock of a file.
    fn holds_file(&self, run: usize) -> bool
        ensures yes { result ≡ true → (file : ℕ) × ((locks_of self.now).holder file ≡ Some run) }
        ensures no { result ≡ false → (file : ℕ) → (locks_of self.now).holder file ≢ Some run }
    {
        for file in 0..self.files.len() {
            if is_run(self.files[file].holder, run) {
                return true;
            }
        }
        false
    }

    /// Whether a run shares the folder.
    fn is_sharer(&self, run: usize) -> bool
        ensures { result ≡ (locks_of self.now).shared run }
    {
        run < self.sharers.len() && self.sharers[run]
    }

    fn file(&self, file: usize) -> LockFile
        ensures { result ≡ get_or self.now.files.items file no_file }
    {
        if file < self.files.len() {
            self.files[file]
        } else {
            NEW_FILE
        }
    }

    /// Whether any run shares the folder.
    fn is_shared(&self) -> bool
        ensures { result ≡ false → (run : ℕ) → (locks_of self.now).shared run ≡ false }
    {
        for run in 0..self.sharers.len() {
            if self.sharers[run] {
                return true;
            }
        }
        false
    }

    /// Whether a run shares the folder that is not this one.
    fn is_shared_besides(&self, run: usize) -> bool
        ensures { result ≡ true → (other : ℕ) × (other ≢ run) × ((locks_of self.now).shared other ≡ true) }
    {
        for other in 0..self.sharers.len() {
            if other != run && self.sharers[other] {
                return true;
            }
        }
        false
    }

    /// Whether a run may remove `store.lock`, which is there, while it holds the folder alone.
    fn may_remove(&self, run: usize) -> bool
        ensures there { result ≡ true → IsSome (locks_of self.now).path }
        ensures may { result ≡ true → (file : ℕ) → (locks_of self.now).path ≡ Some file
            → ((locks_of self.now).marked file ≡ false) ⊎ ((locks_of self.now).holder file ≡ Some run) }
    {
        match self.path {
            Some(file) => !self.is_marked(file) || self.holder(file) == Some(run),
            None => false,
        }
    }

    /// Whether a run keeps to the rules by a call, and the system does it.
    fn allows(&self, run: usize, call: LockCall) -> bool
        ensures { result ≡ true → MayBeCalled run (call_of call) (locks_of self.now)
            × IsFree run (call_of call) (locks_of self.now) }
    {
        match call {
            LockCall::LockFile(file) => {
                self.holder(file).is_none() && (self.is_marked(file) || self.alone == Some(run))
            }
            LockCall::LockFolder => self.alone.is_none() && !self.is_shared(),
            LockCall::ShareFolder => self.alone.is_none(),
            LockCall::Make(file) => {
                self.alone == Some(run)
                    && self.path.is_none()
                    && self.holder(file).is_none()
                    && !self.is_marked(file)
            }
            LockCall::Remove => self.alone == Some(run) && self.may_remove(run),
            LockCall::Mark(_) => self.alone == Some(run),
            LockCall::LetGoFile(file) => self.holder(file) == Some(run),
            LockCall::LetGoFolder => self.alone == Some(run),
            LockCall::LetGoShare => true,
        }
    }

    /// Whether another run holds a lock that keeps a call out.
    pub(crate) fn keeps_out(&self, run: usize, call: LockCall) -> bool
        ensures { result ≡ true → IsKeptOut run (call_of call) (locks_of self.now) }
    {
        match call {
            LockCall::LockFile(file) => is_another(self.holder(file), run),
            LockCall::LockFolder => is_another(self.alone, run) || self.is_shared_besides(run),
            LockCall::ShareFolder => is_another(self.alone, run),
            _ => false,
        }
    }

    /// Makes a call of a run, if it keeps to the rules, the system does it, and there is memory. Returns whether it was
    /// made.
    pub fn make(&mut self, run: usize, call: LockCall) -> bool
        ensures { Does run (call_of call) result (locks_of self.old) (locks_of self.new) }
    {
        self.allows(run, call) && self.apply(run, call)
    }

    /// Makes a call of another run than this one, if it comes before the call with this number.
    pub(crate) fn make_due(&mut self, run: usize, number: usize, other: OtherCall) -> bool
        ensures { DoesOther run other.run (call_of other.call) result (locks_of self.old) (locks_of self.new) }
    {
        other.before == number && other.run != run && self.make(other.run, other.call)
    }

    fn apply(&mut self, run: usize, call: LockCall) -> bool
        ensures { Becomes result (locks_of self.old)
            (after run (call_of call) (locks_of self.old)) (locks_of self.new) }
    {
        match call {
            LockCall::LockFile(file) => self.set_holder(file, Some(run)),
            LockCall::LockFolder => {
                self.alone = Some(run);
                true
            }
            LockCall::ShareFolder => self.set_sharer(run, true),
            LockCall::Make(file) => self.add_file(file),
            LockCall::Remove => {
                self.path = None;
                true
            }
            LockCall::Mark(file) => self.mark_file(file),
            LockCall::LetGoFile(file) => self.set_holder(file, None),
            LockCall::LetGoFolder => {
                self.alone = None;
                true
            }
            LockCall::LetGoShare => self.set_sharer(run, false),
        }
    }

    /// Lets all locks of a run go.
    pub(crate) fn let_go(&mut self, run: usize)
        ensures reaches { Reaches (locks_of self.old) (locks_of self.new) }
        ensures none { HoldsNone run (locks_of self.new) }
    {
        self.let_files_go(run);
        self.let_folder_go(run);
        self.let_share_go(run);
    }

    fn let_files_go(&mut self, run: usize)
        ensures reaches { Reaches (locks_of self.old) (locks_of self.new) }
        ensures none { (file : ℕ) → (locks_of self.new).holder file ≢ Some run }
    {
        for file in 0..self.files.len() {
            self.let_file_go(run, file);
        }
    }

    fn let_file_go(&mut self, run: usize, file: usize)
        ensures goes { LetsFileGo run file (locks_of self.old) (locks_of self.new) }
        ensures count { vec_len self.new.files ≡ vec_len self.old.files }
    {
        if is_run(self.holder(file), run) {
            self.clear_holder(file);
        }
    }

    fn let_folder_go(&mut self, run: usize)
        ensures { LetsFolderGo run (locks_of self.old) (locks_of self.new) }
    {
        if is_run(self.alone, run) {
            self.alone = None;
        }
    }

    fn let_share_go(&mut self, run: usize)
        ensures { locks_of self.new ≡ after run Call.LetGoShare (locks_of self.old) }
    {
        if run < self.sharers.len() {
            self.sharers[run] = false;
        }
    }

    fn clear_holder(&mut self, file: usize)
        ensures cleared { locks_of self.new ≡ record (locks_of self.old) {
          holder = with_entry file None (locks_of self.old).holder;
        } }
        ensures count { vec_len self.new.files ≡ vec_len self.old.files }
    {
        if file < self.files.len() {
            self.files[file].holder = None;
        }
    }

    fn set_holder(&mut self, file: usize, holder: Option<usize>) -> bool
        ensures { Becomes result (locks_of self.old)
            (record (locks_of self.old) { holder = with_entry file holder (locks_of self.old).holder })
            (locks_of self.new) }
    {
        if file >= self.files.len() {
            return false;
        }
        self.files[file].holder = holder;
        true
    }

    fn mark_file(&mut self, file: usize) -> bool
        ensures { Becomes result (locks_of self.old)
            (record (locks_of self.old) { marked = with_entry file true (locks_of self.old).marked })
            (locks_of self.new) }
    {
        if file >= self.files.len() {
            return false;
        }
        self.files[file].is_marked = true;
        true
    }

    fn set_sharer(&mut self, run: usize, shares: bool) -> bool
        ensures { Becomes result (locks_of self.old)
            (record (locks_of self.old) { shared = with_entry run shares (locks_of self.old).shared })
            (locks_of self.new) }
    {
        if run >= self.sharers.len() {
            return false;
        }
        self.sharers[run] = shares;
        true
    }

    fn add_file(&mut self, file: usize) -> bool
        ensures { Becomes result (locks_of self.old)
            (record (locks_of self.old) { path = Some file }) (locks_of self.new) }
    {
        if file != self.files.len() {
            return false;
        }
        match self.files.push(NEW_FILE) {
            Ok(()) => {
                self.path = Some(file);
                true
            }
            Err(_) => false,
        }
    }
}

/// Whether it is a run, and another one.
fn is_another(holder: Option<usize>, run: usize) -> bool
    ensures { result ≡ true → (other : ℕ) × (other ≢ run) × (holder ≡ Some other) }
{
    match holder {
        Some(other) => other != run,
        None => false,
    }
}

/// Whether it is this run.
fn is_run(holder: Option<usize>, run: usize) -> bool
    ensures yes { result ≡ true → holder ≡ Some run }
    ensures no { result ≡ false → holder ≢ Some run }
{
    match holder {
        Some(other) => other == run,
        None => false,
    }
}
