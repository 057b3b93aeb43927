// The disk of a run, which counts failures.
ghost use Rattle.std.specs.Prelude.{◌≡◌, ◌≢◌, ◌<◌, Ok, Err, OnOk, IfOk, IfErr, MatchResult, ◌+◌, true};
ghost use Rattle.conf_disk.specs.Moments.{CountsFailures};
ghost use Rattle.conf_disk.specs.declared.disk.Content.{Content};
ghost use Rattle.conf_system.specs.Folders.{IsTold};
ghost use Rattle.conf_protocol.specs.Keeps.{IsSafe, IsExact};
ghost use Rattle.conf_protocol.specs.Moments.{Quiet, ReadsAsBefore};
ghost use Rattle.conf_protocol.specs.States.{IsDiskStateOf};
ghost use Rattle.conf_protocol.specs.Opened.{Opens};

use crate::opening::Unopened;
use crate::refusal::Refusal;
use crate::run::{Run, RunState};
use conf_disk::{Content, Disk, DiskFault, Name};
use conf_system::System;
use std::alloc::Global;
use std::io::ErrorKind;

/// The disk of the folder of a system, for one run.
#[derive(Drop)]
pub struct SystemDisk<S: System> {
    run: Run<S>,
    failures: u64,
    /// Why the call that failed last did.
    cause: Option<Refusal>,
    ghost exact: { S.model.honest → IsExact run.several (S.model.machine run.system) },
}

/// What a disk knows and has counted, without its system.
#[derive(Clone, Copy)]
pub struct DiskState {
    run: RunState,
    failures: u64,
    cause: Option<Refusal>,
}

impl DiskState {
    /// How often the device has failed.
    pub fn failures(&self) -> u64
        ensures { result ≡ self.now.failures }
    {
        self.failures
    }

    /// Whether several appends to `store.yaml` may have waited for one sync.
    pub fn several_waited(&self) -> bool {
        self.run.several
    }

    /// Counts a failure of a disk that can't be taken up.
    pub fn fail(&mut self) -> DiskFault
        ensures fault { result ≡ DiskFault.Device }
        ensures change { CountsFailures {T = Unit {0}}
            self.old.failures self.new.failures (Err result) }
        ensures read { CountsFailures {T = Content}
            self.old.failures self.new.failures (Err result) }
    {
        self.failures = self.failures.saturating_add(1);
        DiskFault::Device
    }

    /// Why the call that failed last did, if any did.
    pub fn cause(&self) -> Option<Refusal> {
        self.cause
    }
}

impl<S: System + Drop> SystemDisk<S> {
    /// The disk of a folder in which an earlier run may have ended in any way.
    ///
    /// # Errors
    /// If the system refuses. Whatever was done then, the next run may build on it.
    pub fn open(system: S) -> Result<Self, Unopened<S>>
        requires { S.model.honest → IsSafe (S.model.machine system) }
        ensures reads { S.model.honest → IfOk result (λ disk.
            ReadsAsBefore (S.model.machine system) (S.model.machine disk.run.system)) }
        ensures told { S.model.honest → IfOk result (λ disk.
            IsTold (S.model.machine disk.run.system)) }
        ensures opens { S.model.honest → MatchResult result
            (λ disk. Opens S.model system disk.run.system)
            (λ unopened. Opens S.model system unopened.system) }
    {
        match Run::open(system) {
            Ok(run) => Ok(SystemDisk {
                run,
                failures: 0,
                cause: None,
            }),
            Err(unopened) => Err(unopened),
        }
    }

    /// The disk of a folder of which nothing is changed: each call but `read` and `failures` fails.
    pub fn for_reading(system: S) -> Self
        requires safe { S.model.honest → IsSafe (S.model.machine system) }
        requires unread { S.model.honest → IsExact true (S.model.machine system) }
        ensures { result.run.system ≡ system }
    {
        SystemDisk {
            run: Run::for_reading(system),
            failures: 0,
            cause: None,
        }
    }

    /// Ends the run. If the device has all bytes of `store.yaml`, and its name, that is noted, unless the system
    /// refuses.
    pub fn release(self) -> S
        ensures safe { S.model.honest → IsSafe (S.model.machine result) }
        ensures quiet { S.model.honest → Quiet S.model self.run.system result }
    {
        let SystemDisk { run, .. } = self;
        run.release()
    }

    /// Puts the disk away: its system, and what it knows and has counted.
    pub fn put_away(self) -> (S, DiskState)
        ensures state { S.model.honest → IsDiskStateOf result.1 (S.model.machine result.0) }
        ensures system { result.0 ≡ self.run.system }
        ensures failures { result.1.failures ≡ self.failures }
    {
        let SystemDisk {
            run,
            failures,
            cause,
            ..
        } = self;
        let (system, run) = run.put_away();
        let state = DiskState {
            run,
            failures,
            cause,
        };
        (system, state)
    }

    /// A disk that was put away, on its system, on which nothing was done meanwhile.
    pub fn take_up(system: S, state: DiskState) -> Self
        requires { S.model.honest → IsDiskStateOf state (S.model.machine system) }
        ensures system { result.run.system ≡ system }
        ensures failures { result.failures ≡ state.failures }
    {
        let DiskState {
            run,
            failures,
            cause,
        } = state;
        SystemDisk {
            run: Run::take_up(system, run),
            failures,
            cause,
        }
    }

    /// Returns if a failure can still be counted.
    ///
    /// # Errors
    /// `Device` if as many were counted as can be.
    fn may_fail(&self) -> Result<(), DiskFault>
        ensures counted { OnOk result (self.now.failures < u64.MAX) }
        ensures spent { IfErr result (λ fault.
            (fault ≡ DiskFault.Device) × (self.now.failures ≡ u64.MAX)) }
    {
        if self.failures == u64::MAX {
            return Err(DiskFault::Device);
        }
        Ok(())
    }

    /// Counts a failure if a call failed, keeps its cause, and returns it as `Device`.
    fn count(&mut self, done: Result<(), Refusal>) -> Result<(), DiskFault>
        requires { self.old.failures < u64.MAX }
        ensures failures { CountsFailures self.old.failures self.new.failures result }
        ensures same { self.new.run ≡ self.old.run }
        ensures told { MatchResult done
            (λ done. result ≡ Ok done) (λ _. result ≡ Err DiskFault.Device) }
        ensures fault { result ≢ Err DiskFault.OutOfMemory }
    {
        match done {
            Ok(()) => Ok(()),
            Err(refusal) => Err(self.fail(refusal)),
        }
    }

    /// Counts a failure, and keeps its cause.
    fn fail(&mut self, refusal: Refusal) -> DiskFault
        requires { self.old.failures < u64.MAX }
        ensures failures { self.new.failures ≡ self.old.failures + 1 }
        ensures same { self.new.run ≡ self.old.run }
        ensures fault { result ≡ DiskFault.Device }
    {
        self.failures += 1;
        self.cause = Some(refusal);
        DiskFault::Device
    }
}

impl<S: System + Drop> Disk for SystemDisk<S> {
    ghost use Rattle.std.specs.Prelude.{ℕ, ◌≡◌};
    ghost use Rattle.conf_system.specs.Machine.{Machine};
    ghost use Rattle.conf_system.specs.Folders.{folder_of};
    ghost use Rattle.conf_system.specs.Models.{Passes};
    ghost use Rattle.conf_protocol.specs.Moments.{LeftSince, MayEnd};
    ghost use Rattle.conf_protocol.specs.MomentsLaws.{left_now, left_only_now, folder_whole};

    ghost model = { record {
      honest = S.model.honest;
      folder = λ disk. folder_of (S.model.machine disk.run.system);
      moment = λ disk. S.model.moment disk.run.system;
      left = λ disk. LeftSince S.model disk.run.system;
      failure_count = λ disk. disk.failures;
    } };

    // Whenever the process is killed, the next run finds what it may build on, and a crash leaves the note.
    ghost also_changes = { λ old step result new.
        S.model.honest → Passes S.model old.run.system new.run.system
        (MayEnd (S.model.machine old.run.system)) };

    ghost counts_now = { λ disk t image honest le is.
        left_now S.model disk.run.system t image (S.holds_now disk.run.system t honest le) is };

    ghost only_now = { λ disk image honest left.
        left_only_now S.model disk.run.system image
        (λ m. S.only_now disk.run.system m honest) left };

    ghost whole = { λ disk honest.
        folder_whole (S.model.machine disk.run.system) (S.sound disk.run.system honest) };

    fn failures(&self) -> u64 {
        self.failures
    }

    fn several_waited(&self) -> bool {
        self.run.several_waited()
    }

    fn read(&mut self, alloc: Global, name: Name, max: u64) -> Result<Content, DiskFault> {
        self.may_fail()?;
        match self.run.read(alloc, name, max) {
            Ok(content) => Ok(content),
            Err(refusal) if refusal.error.kind() == ErrorKind::OutOfMemory => {
                Err(DiskFault::OutOfMemory)
            }
            Err(refusal) => Err(self.fail(refusal)),
        }
    }

    fn create_next(&mut self) -> Result<(), DiskFault> {
        self.may_fail()?;
        let done = self.run.create_next();
        self.count(done)
    }

    fn append(&mut self, name: Name, bytes: &[u8]) -> Result<(), DiskFault> {
        self.may_fail()?;
        let done = match name {
            Name::Store => self.run.append_store(bytes),
            Name::Next => self.run.append_next(bytes),
        };
        self.count(done)
    }

    fn sync(&mut self, name: Name) -> Result<(), DiskFault> {
        self.may_fail()?;
        let done = match name {
            Name::Store => self.run.sync_store(),
            Name::Next => self.run.sync_next(),
        };
        self.count(done)
    }

    fn rename_next(&mut self) -> Result<(), DiskFault> {
        self.may_fail()?;
        let done = self.run.rename_next();
        self.count(done)
    }

    fn remove_next(&mut self) -> Result<(), DiskFault> {
        self.may_fail()?;
        let done = self.run.remove_next();
        self.count(done)
    }

    fn sync_folder(&mut self) -> Result<(), DiskFault> {
        self.may_fail()?;
        let done = self.run.sync_folder();
        self.count(done)
    }
}
