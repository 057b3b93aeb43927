// The system in memory.
ghost use Rattle.std.specs.Prelude.{◌≡◌};
ghost use Rattle.std.specs.IoError.{error_kind};

use crate::change::{Change, Made};
use crate::crash::Crash;
use crate::fault::{Fault, Plan};
use crate::log::CallLog;
use crate::machine::MachineData;
use crate::spares::Spare;
use crate::start::log_with;
use conf_system::{FileName, Note};
use std::alloc::{AllocError, Global};
use std::io;
use std::io::ErrorKind;

/// A system in memory, for tests. It keeps a list of the calls that changed something, and of the readings of the note,
/// so what it was at each moment is known. If there is no memory for keeping a call, that call fails, and does nothing;
/// but a sync then counts as one that failed, and a write as one of no bytes. A call that looks or reads plays all the
/// others again, so its time is linear in their number and their bytes.
#[derive(Drop)]
pub struct MemorySystem {
    pub(crate) alloc: Global,
    pub(crate) log: CallLog,
    pub(crate) plan: Plan,
}

impl MemorySystem {
    ghost use Rattle.std.specs.Prelude.{◌≡◌, ◌≤◌, [], length, take, option_map, slice_get, IfOk, IfSome, OnErr};
    ghost use Rattle.conf_system.specs.Machine.{MayBeCalled, failing, stages, notes_of, bytes_under, are_linked, Sync, Write};
    ghost use Rattle.conf_system.specs.Crash as start;
    ghost use Rattle.conf_system.specs.Models.{Goes, ReadsNote, Wrote, Writes};
    ghost use Rattle.test_system.specs.Replay.{call_of, machine_of, items_of, bare};
    ghost use Rattle.test_system.specs.Faults.{offered_count};
    ghost use Rattle.test_system.specs.Crashes.{copy_of, found_after, pending_at_stage, Restarts};
    ghost use Rattle.test_system.specs.Log.{entries};
    ghost use Rattle.test_system.specs.Memory.{kept_calls, plan_of, no_fault, memory_machine, memory_model, next_outcome};
    ghost use Rattle.test_system.specs.Memory.{Follows, FollowsWrite, FollowsNote, FollowsRead};

    /// An empty folder, of which no call fails.
    ///
    /// # Errors
    /// If there is no memory for it.
    pub fn new(alloc: Global) -> Result<Self, AllocError>
        ensures calls { IfOk result (λ system. kept_calls system ≡ []) }
        ensures fault { IfOk result (λ system. plan_of system ≡ no_fault) }
    {
        let log = CallLog::new(alloc)?;
        Ok(MemorySystem::of_log(alloc, log))
    }

    /// A folder of these files, this copy and this note, all on the device, with one stage. No call of it fails.
    ///
    /// # Errors
    /// If there is no memory for it.
    pub fn with_files(
        alloc: Global,
        store: Option<Vec<u8>>,
        next: Option<Vec<u8>>,
        copy: Option<&[u8]>,
        note: Note,
    ) -> Result<Self, AllocError>
        ensures machine { IfOk result (λ system. memory_machine system ≡ start.machine_of
            (record { store = items_of store; next = items_of next; several = note.several })
            (copy_of copy.entry) note.on_device) }
        ensures fault { IfOk result (λ system. plan_of system ≡ no_fault) }
    {
        let log = log_with(alloc, store, next, copy, note)?;
        Ok(MemorySystem::of_log(alloc, log))
    }

    /// The same system, with a fault that chooses a call by its number. A number below [`calls`](MemorySystem::calls)
    /// is that of a call that was made already.
    pub fn with_fault(self, call: usize, fault: Fault) -> Self
        ensures calls { kept_calls result ≡ kept_calls self }
        ensures fault { plan_of result ≡ record { call = call; fault = fault } }
    {
        let MemorySystem { alloc, log, .. } = self;
        MemorySystem {
            alloc,
            log,
            plan: Plan { call, fault },
        }
    }

    /// How many calls were made that change something, and how many readings of the note, those that failed among them.
    pub fn calls(&self) -> usize
        ensures { result ≡ length (kept_calls self.now) }
    {
        self.log.len()
    }

    /// What a next run finds if the process was killed when so many calls had been made, of which none fails then. If
    /// so many were not made, it is what the folder is now.
    ///
    /// # Errors
    /// If there is no memory for it.
    pub fn killed_at(self, calls: usize) -> Result<Self, AllocError>
        ensures calls { IfOk result (λ system. kept_calls system ≡ take calls (kept_calls self)) }
        ensures fault { IfOk result (λ system. plan_of system ≡ no_fault) }
    {
        let MemorySystem { alloc, log, .. } = self;
        let log = log.first(calls)?;
        Ok(MemorySystem::of_log(alloc, log))
    }

    /// How many stages the names may be at after a crash. The last one is that of now.
    ///
    /// # Errors
    /// If there is no memory for looking.
    pub fn stages(&self) -> Result<usize, AllocError>
        ensures { IfOk result (λ count. count ≡ length (stages (memory_machine self.now))) }
    {
        let machine = self.log.replay(self.alloc)?;
        Ok(machine.stage_count())
    }

    /// How many things `store.lock` may say after a crash. The last one is what it says now.
    ///
    /// # Errors
    /// If there is no memory for looking.
    pub fn notes(&self) -> Result<usize, AllocError>
        ensures { IfOk result (λ count. count ≡ length (notes_of (memory_machine self.now))) }
    {
        let machine = self.log.replay(self.alloc)?;
        Ok(machine.note_count())
    }

    /// How many bytes are pending in a version of the file under a name at a stage, or `None` if there is no such
    /// stage, file or version. Stages and versions are counted as in a [`Crash`]. The copy has none.
    ///
    /// # Errors
    /// If there is no memory for looking.
    pub fn pending(
        &self,
        stage: usize,
        name: FileName,
        version: usize,
    ) -> Result<Option<usize>, AllocError>
        ensures { IfOk result (λ pending. pending ≡ pending_at_stage (memory_machine self.now) name version
            (slice_get (stages (memory_machine self.now)) stage)) }
    {
        let machine = self.log.replay(self.alloc)?;
        match machine.stage_at(stage) {
            None => Ok(None),
            Some(names) => Ok(machine.pending(names.under(name), version)),
        }
    }

    /// What a name reads as, whatever the fault.
    ///
    /// # Errors
    /// If there is no memory for looking.
    pub fn file(&self, name: FileName) -> Result<Option<Vec<u8>>, AllocError>
        ensures { IfOk result (λ bytes. items_of bytes
            ≡ bytes_under (memory_machine self.now) name) }
    {
        let machine = self.log.replay(self.alloc)?;
        machine.bytes(self.alloc, name)
    }

    /// What `store.lock` says, whatever the fault. This is no reading by which the run goes.
    ///
    /// # Errors
    /// If there is no memory for looking.
    pub fn note(&self) -> Result<Note, AllocError>
        ensures { IfOk result (λ note. note ≡ (memory_machine self.now).note) }
    {
        let machine = self.log.replay(self.alloc)?;
        Ok(machine.note)
    }

    /// Whether both names lead to one file, whatever the fault.
    ///
    /// # Errors
    /// If there is no memory for looking.
    pub fn has_links(&self) -> Result<bool, AllocError>
        ensures { IfOk result (λ linked. linked
            ≡ are_linked (memory_machine self.now).now.store (memory_machine self.now).now.next) }
    {
        let machine = self.log.replay(self.alloc)?;
        Ok(machine.are_linked())
    }

    /// What a next run finds if the machine crashed, or `None` if no crash leaves that. No call of it fails.
    ///
    /// # Errors
    /// If there is no memory for it.
    pub fn crashed(&self, crash: &Crash<'_>) -> Result<Option<Self>, AllocError>
        ensures machine { IfOk result (λ found. option_map memory_machine found
            ≡ found_after (memory_machine self.now) crash.now) }
        ensures left { IfOk result (λ found. IfSome found (λ system.
            Restarts (memory_machine self.now) (memory_machine system))) }
        ensures fault { IfOk result (λ found. IfSome found (λ system.
            plan_of system ≡ no_fault)) }
    {
        let machine = self.log.replay(self.alloc)?;
        let Some(names) = machine.stage_at(crash.stage) else {
            return Ok(None);
        };
        let Some(note) = machine.note_at(crash.note) else {
            return Ok(None);
        };
        if !machine.fits(names.store, crash.store) || !machine.fits(names.staged(), crash.next) {
            return Ok(None);
        }
        let store = machine.torn(self.alloc, names.store, crash.store)?;
        let next = machine.torn(self.alloc, names.staged(), crash.next)?;
        let system = MemorySystem::with_files(self.alloc, store, next, crash.copy, note)?;
        Ok(Some(system))
    }

    /// A system that has these calls behind it, and of which no call fails.
    fn of_log(alloc: Global, log: CallLog) -> Self
        ensures calls { kept_calls result ≡ entries log }
        ensures fault { plan_of result ≡ no_fault }
    {
        MemorySystem {
            alloc,
            log,
            plan: Plan {
                call: 0,
                fault: Fault::None,
            },
        }
    }

    /// Makes a call that changes something as the fault has it, and keeps it.
    ///
    /// # Errors
    /// If there is no memory for keeping it. Then it is not made.
    fn keep(&mut self, change: Change) -> Result<io::Result<()>, AllocError>
        requires { MayBeCalled (call_of change) (memory_machine self.old) }
        ensures goes { IfOk result (λ done.
            Goes memory_model (call_of change) self.old done self.new) }
        ensures follows { IfOk result (λ done. Follows self.old (call_of change) done self.new) }
        ensures plan { plan_of self.new ≡ plan_of self.old }
        ensures not_kept { OnErr result (kept_calls self.new ≡ kept_calls self.old) }
    {
        let failed = self.plan.outcome(self.log.len()).failed();
        self.log.keep(Made::Called { change, failed })?;
        match failed {
            None => Ok(Ok(())),
            Some(_) => Ok(Err(device_error())),
        }
    }

    /// Makes a call that changes something, and is neither a sync nor a write.
    pub(crate) fn make(&mut self, change: Change) -> io::Result<()>
        requires may { MayBeCalled (call_of change) (memory_machine self.old) }
        requires whole { failing 0 (call_of change) (memory_machine self.old) ≡ memory_machine self.old }
        ensures goes { Goes memory_model (call_of change) self.old result self.new }
        ensures follows { Follows self.old (call_of change) result self.new }
    {
        match self.keep(change) {
            Ok(done) => done,
            Err(error) => Err(io::Error::from(error)),
        }
    }

    /// Makes a sync, which is kept also if there is no memory for it: then it fails.
    pub(crate) fn make_sync(&mut self, name: FileName) -> io::Result<()>
        requires { MayBeCalled (Sync name) (memory_machine self.old) }
        ensures goes { Goes memory_model (Sync name) self.old result self.new }
        ensures follows { Follows self.old (Sync name) result self.new }
    {
        match self.keep(Change::Sync(name)) {
            Ok(done) => done,
            Err(error) => {
                self.log.keep_spare(self.alloc, Spare::FailedSync(name));
                Err(io::Error::from(error))
            }
        }
    }

    /// Makes a write of which so many bytes are offered. It is kept also if there is no memory for it: then it fails.
    pub(crate) fn make_write(&mut self, name: FileName, bytes: &[u8]) -> io::Result<usize>
        requires { MayBeCalled (Write name bytes.now) (memory_machine self.old) }
        ensures writes { Writes memory_model (Write name) bytes.now self.old result self.new }
        ensures follows { FollowsWrite self.old (Write name) bytes.now result self.new }
    {
        let count = self.offered(bytes.len());
        let kept = match bytes[..count].to_vec(self.alloc) {
            Ok(kept) => kept,
            Err(error) => {
                self.write_nothing(name);
                return Err(io::Error::from(error));
            }
        };
        match self.keep(Change::Write(name, kept)) {
            Ok(done) => match done {
                Ok(()) => Ok(count),
                Err(error) => Err(error),
            },
            Err(error) => {
                self.write_nothing(name);
                Err(io::Error::from(error))
            }
        }
    }

    /// How many of so many bytes the next call is made with, if it is a write.
    pub(crate) fn offered(&self, count: usize) -> usize
        ensures offered { result ≡ offered_count (next_outcome self.now) count }
        ensures within { result ≤ count }
    {
        self.plan.outcome(self.log.len()).offered(count)
    }

    /// Makes a write that adds nothing, where there is no memory for it.
    fn write_nothing(&mut self, name: FileName)
        requires { MayBeCalled (Write name []) (memory_machine self.old) }
        ensures wrote { Wrote memory_model (Write name) [] 0 self.old self.new }
        ensures plan { plan_of self.new ≡ plan_of self.old }
    {
        match name {
            FileName::Store => self.log.keep_spare(self.alloc, Spare::EmptyWrite),
            FileName::Next => {}
            FileName::Copy => {}
        }
    }

    /// What `store.lock` says. From then on the run goes by it.
    pub(crate) fn look_at_note(&mut self) -> io::Result<Note>
        ensures reads { ReadsNote memory_model self.old result self.new }
        ensures follows { FollowsNote self.old result self.new }
    {
        let failed = self.plan.outcome(self.log.len()).failed();
        let note = match self.log.replay(self.alloc) {
            Ok(machine) => machine.note,
            Err(error) => return Err(io::Error::from(error)),
        };
        match failed {
            None => match self.log.keep(Made::NoteRead) {
                Ok(()) => Ok(note),
                Err(error) => Err(io::Error::from(error)),
            },
            Some(_) => match self.log.keep(Made::NoteUnread) {
                Ok(()) => Err(device_error()),
                Err(error) => Err(io::Error::from(error)),
            },
        }
    }

    /// What a name reads as, if the fault lets calls read.
    pub(crate) fn bytes(&self, name: FileName) -> io::Result<Option<Vec<u8>>>
        ensures bytes { IfOk result (λ bytes. items_of bytes
            ≡ bytes_under (memory_machine self.now) name) }
        ensures follows { FollowsRead self.now result }
    {
        let machine = match self.replay() {
            Ok(machine) => machine,
            Err(error) => return Err(error),
        };
        match machine.bytes(self.alloc, name) {
            Ok(bytes) => Ok(bytes),
            Err(error) => Err(io::Error::from(error)),
        }
    }

    /// The folder as it is, if the fault lets calls read.
    pub(crate) fn replay(&self) -> io::Result<MachineData>
        ensures machine { IfOk result (λ m. machine_of m ≡ bare (memory_machine self.now)) }
        ensures follows { FollowsRead self.now result }
    {
        if self.plan.fails_to_read(self.log.len()) {
            return Err(device_error());
        }
        match self.log.replay(self.alloc) {
            Ok(machine) => Ok(machine),
            Err(error) => Err(io::Error::from(error)),
        }
    }
}

/// The error of a call that the fault chooses.
pub(crate) fn device_error() -> io::Error
    ensures { error_kind result ≡ ErrorKind.Other }
{
    io::Error::new(ErrorKind::Other, "the call was chosen to fail")
}
