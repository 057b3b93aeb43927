// What is done to the runs of a script, and what a next run finds then.
use crate::guarded::GuardedSystem;
use crate::promises::{Found, Promises};
use crate::script::{Ended, perform};
use conf_disk::{Content, Disk, Name};
use conf_protocol::SystemDisk;
use conf_system::{FileName, Note};
use std::alloc::{AllocError, Global};
use test_system::{Crash, Fault, MemorySystem, Torn};

/// What `store.yaml` has before a script, but for one that makes a new store.
const BEFORE: &[u8] = b"0";

/// How a script begins that makes a new store.
const NEW: &str = "new ";

/// What is noted before a script.
const NOTE: Note = Note {
    on_device: false,
    several: false,
};

/// How many calls of a script there are at most.
const MOST: usize = 200;

/// What was tried.
#[derive(Clone, Copy)]
struct Tried {
    runs: usize,
    kills: usize,
    crashes: usize,
}

/// Attacks the runs of a script, and says what was tried, and what was lost.
pub(crate) fn attack(alloc: Global, script: &str) -> Result<String, AllocError> {
    let mut attacks = Attacks {
        alloc,
        script,
        first: 0,
        call: 0,
        fault: Fault::None,
        tried: Tried {
            runs: 0,
            kills: 0,
            crashes: 0,
        },
        lost: None,
    };
    let plain = attacks.run()?;
    let calls = plain.system.calls().saturating_sub(attacks.first);
    let done = plain.done;
    attacks.crash_all(plain)?;
    attacks.fail_each(calls)?;
    let tried = attacks.tried;
    let several = tried.runs > calls && tried.kills > calls && tried.crashes > calls;
    match attacks.lost {
        Some(lost) => Ok(lost),
        None if several => format!(in alloc; "{done} done, nothing lost"),
        None => format!(in alloc; "{done} done, too little tried"),
    }
}

/// The attacks on a script.
#[derive(Drop)]
struct Attacks<'a> {
    alloc: Global,
    script: &'a str,
    /// How many calls were made before the script.
    first: usize,
    /// The call of the script that the fault chooses.
    call: usize,
    fault: Fault,
    tried: Tried,
    /// The first that was lost.
    lost: Option<String>,
}

impl Attacks<'_> {
    /// Runs the script.
    fn run(&mut self) -> Result<Ended, AllocError> {
        self.tried.runs = self.tried.runs.saturating_add(1);
        let before = if self.script.starts_with(NEW) {
            None
        } else {
            Some(BEFORE)
        };
        let store = match before {
            Some(bytes) => Some(bytes.to_vec(self.alloc)?),
            None => None,
        };
        let system = MemorySystem::with_files(self.alloc, store, None, None, NOTE)?;
        self.first = system.calls();
        let system = system.with_fault(self.chosen(), self.fault);
        perform(self.alloc, system, before, self.script)
    }

    /// The number of the call that the fault chooses, from the first of the system on.
    fn chosen(&self) -> usize {
        self.first.saturating_add(self.call)
    }

    /// Lets each call fail, in each way.
    fn fail_each(&mut self, calls: usize) -> Result<(), AllocError> {
        for call in 0..calls.min(MOST) {
            for part in 0..3 {
                self.fail(call, Fault::FailOnce { part })?;
                self.fail(call, Fault::Kill { part })?;
            }
            self.fail(call, Fault::ShortWrite { count: 1 })?;
            self.fail(call, Fault::FailReads)?;
        }
        self.fail(0, Fault::NoLinks)
    }

    /// Runs the script with a fault, and crashes the machine at each moment after it.
    fn fail(&mut self, call: usize, fault: Fault) -> Result<(), AllocError> {
        self.call = call;
        self.fault = fault;
        let ended = self.run()?;
        self.crash_all(ended)
    }

    /// Crashes the machine at each moment from the call on that the fault chooses, the last one first, and kills the
    /// process behind that call.
    fn crash_all(&mut self, ended: Ended) -> Result<(), AllocError> {
        if ended.is_misused {
            self.lose("a call that may not be made", 0)?;
        }
        let mut system = ended.system;
        let calls = system.calls();
        for back in 0..calls.saturating_sub(self.chosen()).min(MOST) {
            let moment = calls.saturating_sub(back);
            system = system.killed_at(moment)?;
            self.crash_at(&system, &ended.promises)?;
        }
        self.kill(system)
    }

    /// Kills the process where a system is. The next run finds what was read, and the device has it then.
    fn kill(&mut self, system: MemorySystem) -> Result<(), AllocError> {
        self.tried.kills = self.tried.kills.saturating_add(1);
        let moment = system.calls();
        let read = system.file(FileName::Store)?;
        let Some(left) = find(self.alloc, system)? else {
            return self.lose("the run after a kill finds nothing", moment);
        };
        if !is_same(left.bytes.as_deref(), read.as_deref()) {
            return self.lose("the run after a kill finds other bytes", moment);
        }
        self.crash_again(&left, moment)
    }

    /// Crashes the machine as it is, in each way that is tried.
    fn crash_at(&mut self, system: &MemorySystem, promises: &Promises) -> Result<(), AllocError> {
        let stages = system.stages()?.min(MOST);
        for stage in 0..stages {
            self.crash_stage(system, promises, stage)?;
        }
        Ok(())
    }

    /// Crashes the machine at a stage, in each version of `store.yaml`, or once where there is none.
    fn crash_stage(
        &mut self,
        system: &MemorySystem,
        promises: &Promises,
        stage: usize,
    ) -> Result<(), AllocError> {
        for version in 0..MOST {
            let pending = system.pending(stage, FileName::Store, version)?;
            if pending.is_none() && version > 0 {
                break;
            }
            let place = Place {
                stage,
                version,
                pending: pending.unwrap_or(0),
            };
            self.tear(system, promises, place)?;
        }
        Ok(())
    }

    /// Crashes the machine at a stage with each tear of `store.yaml` that is tried.
    fn tear(
        &mut self,
        system: &MemorySystem,
        promises: &Promises,
        place: Place,
    ) -> Result<(), AllocError> {
        let last = system.notes()?.saturating_sub(1);
        for hole in 0..place.pending.saturating_add(3).min(MOST) {
            let kept = kept_bytes(self.alloc, place.pending, hole)?;
            let crash = Crash {
                stage: place.stage,
                store: Torn {
                    version: place.version,
                    kept: &kept,
                },
                next: Torn {
                    version: 0,
                    kept: &[],
                },
                copy: if hole == 0 { None } else { Some(b"x") },
                note: if hole % 2 == 0 { 0 } else { last },
            };
            self.crash(system, promises, &crash)?;
        }
        Ok(())
    }

    /// Crashes the machine in one way, and looks at what the next run finds.
    fn crash(
        &mut self,
        system: &MemorySystem,
        promises: &Promises,
        crash: &Crash<'_>,
    ) -> Result<(), AllocError> {
        self.tried.crashes = self.tried.crashes.saturating_add(1);
        let moment = system.calls();
        let Some(found) = system.crashed(crash)? else {
            return self.lose("no such crash", moment);
        };
        let Some(left) = find(self.alloc, found)? else {
            return self.lose("the next run finds nothing", moment);
        };
        let is_allowed = promises.allow(
            moment,
            Found {
                bytes: left.bytes.as_deref(),
                several: left.several,
            },
        );
        if !is_allowed {
            return self.lose("the next run finds what was not promised", moment);
        }
        self.crash_again(&left, moment)
    }

    /// Crashes the machine once more after a run that synced what it found: all of that is left.
    fn crash_again(&mut self, left: &Left, moment: usize) -> Result<(), AllocError> {
        let again = Crash {
            stage: 0,
            store: WORST,
            next: WORST,
            copy: None,
            note: 0,
        };
        let Some(found) = left.system.crashed(&again)? else {
            return self.lose("no second crash", moment);
        };
        if leaves(self.alloc, found, left.bytes.as_deref())? {
            Ok(())
        } else {
            self.lose("a second crash takes bytes", moment)
        }
    }

    /// Notes what was lost, if nothing was before.
    fn lose(&mut self, what: &str, moment: usize) -> Result<(), AllocError> {
        if self.lost.is_none() {
            let (call, fault) = (self.call, self.fault);
            let lost = format!(in self.alloc;
                "lost: {what}, after {moment} calls, with {fault:?} at {call}"
            )?;
            self.lost = Some(lost);
        }
        Ok(())
    }
}

/// A file at a stage, and how many bytes are pending in it.
#[derive(Clone, Copy)]
struct Place {
    stage: usize,
    version: usize,
    pending: usize,
}

/// The least that may be left of a file.
const WORST: Torn<'static> = Torn {
    version: 0,
    kept: &[],
};

/// Which of so many pending bytes are left: none, all, or all with one that is zero.
fn kept_bytes(alloc: Global, pending: usize, hole: usize) -> Result<Vec<bool>, AllocError> {
    let mut kept = Vec::new(alloc);
    if hole == 0 {
        return Ok(kept);
    }
    for place in 0..pending {
        kept.push(place.saturating_add(2) != hole)?;
    }
    Ok(kept)
}

/// Whether a run finds a file of these bytes, or none.
fn leaves(alloc: Global, system: MemorySystem, bytes: Option<&[u8]>) -> Result<bool, AllocError> {
    match find(alloc, system)? {
        Some(left) => Ok(is_same(left.bytes.as_deref(), bytes)),
        None => Ok(false),
    }
}

/// Whether both files are missing, or have the same bytes.
fn is_same(one: Option<&[u8]>, other: Option<&[u8]>) -> bool {
    match (one, other) {
        (Some(one), Some(other)) => one == other,
        (None, None) => true,
        _ => false,
    }
}

/// What a run leaves that began as that of a store, and what it found.
#[derive(Drop)]
struct Left {
    system: MemorySystem,
    /// The bytes of `store.yaml`, if it is there.
    bytes: Option<Vec<u8>>,
    /// Whether several appends may have waited for one sync.
    several: bool,
}

/// Begins a run on a folder as a store does, and ends it. `None` if a call fails.
fn find(alloc: Global, system: MemorySystem) -> Result<Option<Left>, AllocError> {
    let Ok(disk) = SystemDisk::open(GuardedSystem::over(system)) else {
        return Ok(None);
    };
    let mut disk = disk;
    if disk.sync_folder().is_err() || disk.sync(Name::Store).is_err() {
        return Ok(None);
    }
    let bytes = match disk.read(alloc, Name::Store, 1_000) {
        Ok(Content::Bytes(bytes)) => Some(bytes),
        Ok(Content::Missing) => None,
        _ => return Ok(None),
    };
    let several = disk.several_waited();
    let system = disk.release().into_inner();
    Ok(Some(Left {
        system,
        bytes,
        several,
    }))
}
