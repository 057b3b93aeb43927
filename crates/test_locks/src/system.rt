// The locks in memory as the trait has them.
use crate::call::LockCall;
use crate::locks::{MemoryLocks, failed};
use conf_locks::{LockSystem, Locking, Making, Opening};
use std::io;
use std::io::ErrorKind;

impl LockSystem for MemoryLocks {
    ghost use Rattle.test_locks.specs.Memory.{memory_model};

    ghost model = { memory_model };

    fn open(&mut self) -> io::Result<Opening> {
        let fails = self.pass_others();
        self.opened = None;
        if fails {
            return Err(failed());
        }
        match self.table.path {
            None => Ok(Opening::Missing),
            Some(_) if self.is_refused => Ok(Opening::Refused),
            Some(file) => {
                self.opened = Some(file);
                Ok(Opening::Opened)
            }
        }
    }

    fn is_marked(&mut self) -> io::Result<bool> {
        let fails = self.pass_others();
        match self.opened {
            Some(file) if !fails => Ok(self.table.is_marked(file)),
            _ => Err(failed()),
        }
    }

    fn is_there_marked(&mut self) -> io::Result<bool> {
        let fails = self.pass_others();
        match self.table.path {
            Some(file) if !fails => Ok(self.table.is_marked(file)),
            _ => Err(failed()),
        }
    }

    fn try_lock_file(&mut self) -> io::Result<Locking> {
        let fails = self.pass_others();
        match self.opened {
            Some(file) if !fails => self.ask(LockCall::LockFile(file)),
            _ => Err(failed()),
        }
    }

    fn try_lock_folder(&mut self) -> io::Result<Locking> {
        if self.pass_others() {
            return Err(failed());
        }
        self.ask(LockCall::LockFolder)
    }

    fn try_share_folder(&mut self) -> io::Result<Locking> {
        if self.pass_others() {
            return Err(failed());
        }
        self.ask(LockCall::ShareFolder)
    }

    fn find_in_place(&mut self) -> io::Result<()> {
        let fails = self.pass_others();
        if !fails && self.opened == self.table.path {
            Ok(())
        } else {
            Err(failed())
        }
    }

    fn make(&mut self) -> io::Result<Making> {
        let fails = self.pass_others();
        if fails || self.changes == usize::MAX {
            return Err(failed());
        }
        if self.table.path.is_some() {
            return Ok(Making::Exists);
        }
        let file = self.table.files.len();
        if self.make_own(LockCall::Make(file)) {
            self.opened = Some(file);
            self.changes += 1;
            return Ok(Making::Made);
        }
        Err(failed())
    }

    fn remove(&mut self) -> io::Result<()> {
        let fails = self.pass_others();
        if !fails && self.make_own(LockCall::Remove) {
            Ok(())
        } else {
            Err(failed())
        }
    }

    fn mark(&mut self) -> io::Result<()> {
        let fails = self.pass_others();
        let Some(file) = self.opened else {
            return Err(failed());
        };
        if !fails && self.make_own(LockCall::Mark(file)) {
            Ok(())
        } else {
            Err(failed())
        }
    }

    fn let_go(&mut self) {
        self.pass_others();
        self.table.let_go(self.run);
        self.opened = None;
    }
}
