// The system in memory.
ghost use Rattle.std.specs.Prelude.{◌≡◌};

use crate::change::{Change, Made};
use crate::fault::{Fault, Plan};
use crate::log::CallLog;
use crate::machine::MachineData;
use crate::spares::Spare;
use crate::start::{LeadsTo, Start};
use file_calls::Rights;
use std::alloc::{AllocError, Global};
use std::io;
use std::io::ErrorKind;

/// Nobody may use a file.
const NOBODY: Rights = Rights {
    owner: 0,
    group: 0,
    mode: 0,
};

/// A system in memory, for tests: a file that a person names, and a new one beside it. It keeps a list of the calls
/// that changed something, so what it was at each moment is known. If there is no memory for keeping a call, that call
/// fails, and does nothing; but a sync then counts as one that failed. A call that looks plays all the others again, so
/// its time is linear in their number and their bytes.
#[derive(Drop)]
pub struct MemoryFileCalls {
    pub(crate) alloc: Global,
    pub(crate) log: CallLog,
    pub(crate) plan: Plan,
    /// Who makes new files.
    pub(crate) owner: u32,
    pub(crate) group: u32,
    /// How many names of new files are taken.
    pub(crate) taken: u32,
}

impl MemoryFileCalls {
    ghost use Rattle.std.specs.Prelude.{◌≤◌, [], length, take, Some, option_map, get_or, IfOk, OnErr, MatchResult};
    ghost use Rattle.file_calls.specs.Machine.{Machine, stages, failing, file_at, given_bytes, rights_at};
    ghost use Rattle.file_calls.specs.Models.{Goes, Writes, IsPrivate};
    ghost use Rattle.test_files.specs.Replay.{call_of, then, machine_of, machine_with_file, machine_without_file, items_of};
    ghost use Rattle.test_files.specs.Spares.{spared};
    ghost use Rattle.test_files.specs.Faults.{outcome_at, failed_of, offered_count};
    ghost use Rattle.test_files.specs.Crashes.{given_at, pending_of, left_of, MayBeLeft};
    ghost use Rattle.test_files.specs.Memory.{kept_calls, plan_of, no_fault, memory_machine, memory_model};

    /// A folder that has a file of these bytes, all on the device, under the name. No call fails.
    ///
    /// # Errors
    /// If there is no memory for it.
    pub fn with_file(alloc: Global, bytes: Vec<u8>, rights: Rights) -> Result<Self, AllocError>
        ensures calls { IfOk result (λ calls. kept_calls calls
            ≡ record { first = machine_with_file bytes.items rights; entries = [] }) }
        ensures fault { IfOk result (λ calls. plan_of calls ≡ no_fault) }
    {
        let start = Start {
            bytes,
            rights,
            given: LeadsTo::Old,
        };
        let log = CallLog::new(alloc, start)?;
        Ok(MemoryFileCalls::of_log(alloc, log))
    }

    /// A folder that has nothing under the name. No call fails.
    ///
    /// # Errors
    /// If there is no memory for it.
    pub fn without_file(alloc: Global) -> Result<Self, AllocError>
        ensures calls { IfOk result (λ calls. kept_calls calls
            ≡ record { first = machine_without_file; entries = [] }) }
        ensures fault { IfOk result (λ calls. plan_of calls ≡ no_fault) }
    {
        let start = Start {
            bytes: Vec::new(alloc),
            rights: NOBODY,
            given: LeadsTo::Nothing,
        };
        let log = CallLog::new(alloc, start)?;
        Ok(MemoryFileCalls::of_log(alloc, log))
    }

    /// The same system, with a fault that chooses a call by its number.
    pub fn with_fault(self, call: usize, fault: Fault) -> Self
        ensures calls { kept_calls result ≡ kept_calls self }
        ensures fault { plan_of result ≡ record { call = call; fault = fault } }
    {
        MemoryFileCalls {
            plan: Plan { call, fault },
            ..self
        }
    }

    /// The same system, in which new files belong to this user and this group, and so many names of new files are
    /// taken.
    pub fn made_by(self, owner: u32, group: u32, taken: u32) -> Self
        ensures calls { kept_calls result ≡ kept_calls self }
        ensures fault { plan_of result ≡ plan_of self }
    {
        MemoryFileCalls {
            owner,
            group,
            taken,
            ..self
        }
    }

    /// How many calls were made that change something, those that failed among them.
    pub fn calls(&self) -> usize
        ensures { result ≡ length (kept_calls self.now).entries }
    {
        self.log.len()
    }

    /// What is found if the process was killed when so many calls had been made, of which none fails then. If so many
    /// were not made, it is what is there now.
    ///
    /// # Errors
    /// If there is no memory for it.
    pub fn killed_at(self, calls: usize) -> Result<Self, AllocError>
        ensures calls { IfOk result (λ killed. kept_calls killed
            ≡ record (kept_calls self) { entries = take calls (kept_calls self).entries }) }
        ensures fault { IfOk result (λ killed. plan_of killed ≡ no_fault) }
    {
        let MemoryFileCalls { alloc, log, .. } = self;
        let log = log.first(calls)?;
        Ok(MemoryFileCalls::of_log(alloc, log))
    }

    /// What the name reads as, whatever the fault.
    ///
    /// # Errors
    /// If there is no memory for looking.
    pub fn given(&self) -> Result<Option<Vec<u8>>, AllocError>
        ensures { IfOk result (λ bytes. items_of bytes ≡ given_bytes (memory_machine self.now)) }
    {
        let machine = self.log.replay(self.alloc)?;
        machine.bytes_at(self.alloc, machine.current.given)
    }

    /// Who may use the file under the name beside it, whatever the fault.
    ///
    /// # Errors
    /// If there is no memory for looking.
    pub fn rights_beside(&self) -> Result<Option<Rights>, AllocError>
        ensures { IfOk result (λ rights. rights
            ≡ rights_at (memory_machine self.now) (memory_machine self.now).now.beside) }
    {
        let machine = self.log.replay(self.alloc)?;
        Ok(machine.rights_at(machine.current.beside))
    }

    /// Whether a call failed that made the new file, or was to remove it.
    ///
    /// # Errors
    /// If there is no memory for looking.
    pub fn may_be_left(&self) -> Result<bool, AllocError>
        ensures { IfOk result (λ may. may ≡ (memory_machine self.now).is_left) }
    {
        let machine = self.log.replay(self.alloc)?;
        Ok(machine.is_left)
    }

    /// How many stages the names may be at after a crash. The last one is that of now.
    ///
    /// # Errors
    /// If there is no memory for looking.
    pub fn stages(&self) -> Result<usize, AllocError>
        ensures { IfOk result (λ count. count ≡ length (stages (memory_machine self.now))) }
    {
        let machine = self.log.replay(self.alloc)?;
        Ok(machine.stage_count())
    }

    /// How many bytes the device may lack of the file under the name at a stage, counted from 0, oldest first. Behind
    /// the last stage it is that of now.
    ///
    /// # Errors
    /// If there is no memory for looking.
    pub fn pending(&self, stage: usize) -> Result<usize, AllocError>
        ensures { IfOk result (λ count. count ≡ pending_of
            (file_at (memory_machine self.now) (given_at (memory_machine self.now) stage))) }
    {
        let machine = self.log.replay(self.alloc)?;
        Ok(machine.pending(stage))
    }

    /// What a crash leaves under the name: the file of a stage, as for [`pending`](MemoryFileCalls::pending), with as
    /// many pending bytes as `kept` has places, or all. A byte is as it was where its place is `true`, and else zero.
    ///
    /// # Errors
    /// If there is no memory for it.
    pub fn left(&self, stage: usize, kept: &[bool]) -> Result<Option<Vec<u8>>, AllocError>
        ensures is { IfOk result (λ bytes. items_of bytes
            ≡ left_of (memory_machine self.now) stage kept.now) }
        ensures left { IfOk result (λ bytes. MayBeLeft (memory_machine self.now) (items_of bytes)) }
    {
        let machine = self.log.replay(self.alloc)?;
        machine.left(self.alloc, stage, kept)
    }

    /// A system that has these calls behind it, and of which no call fails.
    fn of_log(alloc: Global, log: CallLog) -> Self
        ensures calls { result.log ≡ log }
        ensures fault { plan_of result ≡ no_fault }
    {
        MemoryFileCalls {
            alloc,
            log,
            plan: Plan {
                call: 0,
                fault: Fault::None,
            },
            owner: 0,
            group: 0,
            taken: 0,
        }
    }

    /// Makes a call that changes something as the fault has it, and keeps it.
    ///
    /// # Errors
    /// If there is no memory for keeping it. Then it is not made.
    fn keep(&mut self, change: Change) -> Result<io::Result<()>, AllocError>
        ensures kept { IfOk result (λ done. kept_calls self.new ≡ then (kept_calls self.old) (call_of change)
            (failed_of (outcome_at (plan_of self.old) (length (kept_calls self.old).entries)))) }
        ensures goes { IfOk result (λ done. Goes memory_model (call_of change) self.old done self.new) }
        ensures not_kept { OnErr result (kept_calls self.new ≡ kept_calls self.old) }
    {
        let failed = self.plan.outcome(self.log.len()).failed();
        self.log.keep(Made { change, failed })?;
        match failed {
            None => Ok(Ok(())),
            Some(_) => Ok(Err(device_error())),
        }
    }

    /// Makes a call that changes nothing if it is not made.
    pub(crate) fn make(&mut self, change: Change) -> io::Result<()>
        requires { (m : Machine) → failing 0 (call_of change) m ≡ m }
        ensures { Goes memory_model (call_of change) self.old result self.new }
    {
        match self.keep(change) {
            Ok(done) => done,
            Err(error) => Err(io::Error::from(error)),
        }
    }

    /// Makes a call that changes something also if it is not made, and is kept then.
    pub(crate) fn make_or(&mut self, change: Change, spare: Spare) -> io::Result<()>
        requires { (m : Machine) → failing 0 (call_of change) m ≡ spared spare m }
        ensures { Goes memory_model (call_of change) self.old result self.new }
    {
        match self.keep(change) {
            Ok(done) => done,
            Err(error) => {
                self.log.keep_spare(spare);
                Err(io::Error::from(error))
            }
        }
    }

    /// Makes a write of some of the bytes, as the fault has it, and says of how many.
    pub(crate) fn make_write(&mut self, bytes: &[u8]) -> io::Result<usize>
        ensures { Writes memory_model bytes.now self.old result self.new }
    {
        let count = self.plan.outcome(self.log.len()).offered(bytes.len());
        let kept = match bytes[..count].to_vec(self.alloc) {
            Ok(kept) => kept,
            Err(error) => return Err(io::Error::from(error)),
        };
        match self.make(Change::Write(kept)) {
            Ok(()) => Ok(count),
            Err(error) => Err(error),
        }
    }

    /// Who may use a new file.
    pub(crate) fn made(&self) -> Rights
        ensures { IsPrivate result }
    {
        Rights {
            owner: self.owner,
            group: self.group,
            mode: 0o600,
        }
    }

    /// What is there, if the fault lets calls look.
    pub(crate) fn replay(&self) -> io::Result<MachineData>
        ensures { IfOk result (λ m. machine_of m ≡ memory_machine self.now) }
    {
        if self.plan.fails_to_read(self.log.len()) {
            return Err(device_error());
        }
        match self.log.replay(self.alloc) {
            Ok(machine) => Ok(machine),
            Err(error) => Err(io::Error::from(error)),
        }
    }
}

/// The error of a call that the fault chooses.
pub(crate) fn device_error() -> io::Error {
    io::Error::new(ErrorKind::Other, "the call was chosen to fail")
}
