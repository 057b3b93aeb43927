// The locks of a folder as one run has them.
ghost use Rattle.std.specs.Prelude.{◌≡◌};

use crate::call::{LockCall, OtherCall};
use crate::table::LockTable;
use conf_locks::Locking;
use std::io;
use std::io::ErrorKind;

/// Which calls of a run fail, counted from 0.
#[derive(Clone, Copy, Debug, PartialEq, Eq)]
pub enum LockFault {
    /// None.
    None,
    /// The one with this number.
    At(usize),
    /// The one with this number, and each after it.
    From(usize),
}

/// The locks of a folder in memory, as one run has them. Before each of its calls others make those that were chosen to
/// come then, if they keep to the rules and the system does them.
#[derive(Drop)]
pub struct MemoryLocks {
    pub(crate) run: usize,
    pub(crate) table: LockTable,
    pub(crate) opened: Option<usize>,
    pub(crate) changes: usize,
    pub(crate) calls: usize,
    pub(crate) others: Vec<OtherCall>,
    pub(crate) fault: LockFault,
    /// Whether the run may not open `store.lock`.
    pub(crate) is_refused: bool,
}

impl MemoryLocks {
    ghost use Rattle.std.specs.Prelude.{Some, None, true, IfOk, Result};
    ghost use Rattle.conf_locks.specs.Locks.{Reaches};
    ghost use Rattle.conf_locks.specs.Models.{Asks};
    ghost use Rattle.test_locks.specs.Tables.{call_of, locks_of, Does};
    ghost use Rattle.test_locks.specs.Memory.{locks_in, Passed, OnlyTable};

    /// A run with this number, on the locks of a folder. It holds none, and has no file open.
    pub fn new(table: LockTable, run: usize, others: Vec<OtherCall>, fault: LockFault) -> Self
        ensures locks { locks_in result ≡ locks_of table }
        ensures run { result.run ≡ run }
        ensures opened { result.opened ≡ None }
    {
        MemoryLocks {
            run,
            table,
            opened: None,
            changes: 0,
            calls: 0,
            others,
            fault,
            is_refused: false,
        }
    }

    /// The same run, which may not open `store.lock`.
    pub fn without_access(self) -> Self
        ensures locks { locks_in result ≡ locks_in self }
        ensures run { result.run ≡ self.run }
        ensures opened { result.opened ≡ self.opened }
    {
        MemoryLocks {
            is_refused: true,
            ..self
        }
    }

    /// The locks as they are.
    pub fn into_table(self) -> LockTable
        ensures { locks_of result ≡ locks_in self }
    {
        self.table
    }

    /// Lets others make their calls that come before the next one of this run, and counts that one. Returns whether it
    /// fails.
    pub(crate) fn pass_others(&mut self) -> bool
        ensures { Passed self.old self.new }
    {
        for index in 0..self.others.len() {
            self.table
                .make_due(self.run, self.calls, self.others[index]);
        }
        let number = self.calls;
        self.calls = self.calls.saturating_add(1);
        match self.fault {
            LockFault::None => false,
            LockFault::At(call) => number == call,
            LockFault::From(call) => number >= call,
        }
    }

    /// Makes a call of this run, if it keeps to the rules and the system does it.
    pub(crate) fn make_own(&mut self, call: LockCall) -> bool
        ensures does { Does self.old.run (call_of call) result (locks_in self.old) (locks_in self.new) }
        ensures same { OnlyTable self.old self.new }
    {
        self.table.make(self.run, call)
    }

    /// Asks for a lock.
    pub(crate) fn ask(&mut self, call: LockCall) -> io::Result<Locking>
        ensures asks { Asks self.old.run (call_of call) result (locks_in self.old) (locks_in self.new) }
        ensures reaches { Reaches (locks_in self.old) (locks_in self.new) }
        ensures same { OnlyTable self.old self.new }
    {
        if self.make_own(call) {
            return Ok(Locking::Taken);
        }
        if self.table.keeps_out(self.run, call) {
            Ok(Locking::Held)
        } else {
            Err(io::Error::new(ErrorKind::Other, "it may not be asked for"))
        }
    }
}

/// The error of a call that the fault chooses.
pub(crate) fn failed() -> io::Error {
    io::Error::new(ErrorKind::Other, "the call was chosen to fail")
}
