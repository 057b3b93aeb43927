// A disk that fails from a call on, or once.
ghost use Rattle.std.specs.Prelude.{◌≡◌, ◌≢◌, ◌≤◌, ℕ, min};
ghost use Rattle.conf_disk.specs.Folder.{MayBeMade};
ghost use Rattle.test_disks.specs.Fused.{call_step, counter_state, failed_after, failed_below, failed_calls, fused_model, outcome_of, outcome_of_number, passed_calls, state_after};
ghost use Rattle.conf_disk.specs.Moments.{IsChange, greatest};

use conf_disk::{Content, Disk, DiskFault, Name};
use std::alloc::Global;

/// How a [`FusedDisk`] fails after the calls that it lets pass.
#[derive(Clone, Copy, Debug, PartialEq, Eq)]
pub enum Fuse {
    /// Every call from then on fails, with no effect.
    Stop,
    /// One call fails, and the rest pass.
    FailOnce {
        /// Whether the call has its effect. A read has none.
        done: bool,
    },
}

/// A disk over another one, for tests: the first calls pass to that disk, and then a [`Fuse`] lets calls fail with
/// [`DiskFault::Device`]. All calls are counted but [`Disk::failures`] and [`Disk::several_waited`]. Its failures are
/// those of the disk below and those of the fuse.
#[derive(Drop)]
pub struct FusedDisk<D> {
    inner: D,
    counter: FuseCounter,
}

/// The number of calls that pass before the fuse decides, the fuse, and the number of the next call, from 0. The latter
/// has 128 bits: after `calls` calls have passed, `Stop` may fail as many as 64 bits count.
#[derive(Clone, Copy, Debug, PartialEq, Eq)]
pub(crate) struct FuseCounter {
    pub(crate) calls: u64,
    pub(crate) fuse: Fuse,
    pub(crate) number: u128,
}

/// What becomes of a call.
#[derive(Clone, Copy, Debug, PartialEq, Eq)]
pub(crate) enum Outcome {
    /// It is made on the disk below.
    Passes,
    /// It fails without an effect.
    Fails,
    /// It is made on the disk below, and fails all the same.
    FailsDone,
}

/// A call that changes something.
#[derive(Clone, Copy)]
pub(crate) enum Call<'a> {
    CreateNext,
    Append(Name, &'a [u8]),
    Sync(Name),
    RenameNext,
    RemoveNext,
    SyncFolder,
}

impl Call<'_> {
    fn make<D: Disk>(self, disk: &mut D) -> Result<(), DiskFault>
        requires { D.model.honest → MayBeMade (call_step self) (D.model.folder disk.old) }
        ensures goes { IsChange D.model
            (call_step self.entry) disk.old result disk.new }
        ensures also { D.also_changes disk.old (call_step self.entry) result disk.new }
    {
        match self {
            Call::CreateNext => disk.create_next(),
            Call::Append(name, bytes) => disk.append(name, bytes),
            Call::Sync(name) => disk.sync(name),
            Call::RenameNext => disk.rename_next(),
            Call::RemoveNext => disk.remove_next(),
            Call::SyncFolder => disk.sync_folder(),
        }
    }
}

impl Fuse {
    /// What becomes of the call with a number: those below `calls` pass, and the fuse decides on the others.
    fn outcome(self, calls: u64, number: u128) -> Outcome
        ensures { result ≡ outcome_of_number self calls number }
    {
        let calls = u128::from(calls);
        if number < calls {
            return Outcome::Passes;
        }
        match self {
            Fuse::Stop => Outcome::Fails,
            Fuse::FailOnce { .. } if number > calls => Outcome::Passes,
            Fuse::FailOnce { done: true } => Outcome::FailsDone,
            Fuse::FailOnce { done: false } => Outcome::Fails,
        }
    }

    /// How many of the calls before the one with this number fail.
    fn failed(self, calls: u64, number: u128) -> u128
        ensures { result ≡ failed_below self calls number }
    {
        let calls = u128::from(calls);
        match self {
            Fuse::Stop => number.saturating_sub(calls),
            Fuse::FailOnce { .. } => u128::from(number > calls),
        }
    }
}

impl FuseCounter {
    /// What becomes of the next call of a disk with this number of failures. At the greatest number every call fails,
    /// and none is counted.
    fn next_outcome(&mut self, failures: u64) -> Outcome
        ensures outcome { result ≡ outcome_of failures (counter_state self.old) }
        ensures state { counter_state self.new ≡ state_after failures (counter_state self.old) }
        ensures failed { failures ≢ greatest → failed_calls (counter_state self.old) ≤ failures →
            failed_calls (counter_state self.new)
            ≡ failed_after result (failed_calls (counter_state self.old)) }
    {
        if failures == u64::MAX {
            return Outcome::Fails;
        }
        let outcome = self.fuse.outcome(self.calls, self.number);
        self.number = self.number.saturating_add(1);
        outcome
    }

    /// How many calls the fuse failed.
    fn failed(&self) -> u128
        ensures { result ≡ failed_calls (counter_state self.now) }
    {
        self.fuse.failed(self.calls, self.number)
    }

    /// How many calls passed, up to the greatest number.
    fn passed(&self) -> u64
        ensures { result ≡ passed_calls (counter_state self.now) }
    {
        at_most_greatest(self.number.saturating_sub(self.failed()))
    }
}

/// A count, or the greatest number of 64 bits if that is smaller.
fn at_most_greatest(count: u128) -> u64
    ensures { result ≡ min count greatest }
{
    u64::try_from(count).unwrap_or(u64::MAX)
}

impl<D: Disk> FusedDisk<D> {
    ghost use Rattle.test_disks.specs.Fused.{fused_inner, fuse_of, passed_count, fused_failures, FusesChange};

    /// A disk whose first `calls` calls pass to `inner`. From then on `fuse` says which calls fail.
    pub fn new(inner: D, calls: u64, fuse: Fuse) -> Self
        ensures inner { fused_inner result ≡ inner }
        ensures fuse { fuse_of result ≡ record
            { calls = calls; fuse = fuse; number = 0 } }
    {
        FusedDisk {
            inner,
            counter: FuseCounter {
                calls,
                fuse,
                number: 0,
            },
        }
    }

    /// How many calls the fuse let pass to the disk below, whatever that returned. A call that the fuse failed is not
    /// among them, even where it had its effect. The number stays at 18,446,744,073,709,551,615 once it is reached.
    pub fn passed(&self) -> u64
        ensures { result ≡ passed_count self.now }
    {
        self.counter.passed()
    }

    /// Returns the disk below.
    pub fn into_inner(self) -> D
        ensures { result ≡ fused_inner self }
    {
        let FusedDisk { inner, counter: _ } = self;
        inner
    }

    fn next_outcome(&mut self) -> Outcome
        ensures outcome { result ≡ outcome_of (fused_failures D.model.failure_count self.old)
            (fuse_of self.old) }
        ensures state { fuse_of self.new ≡ state_after (fused_failures D.model.failure_count self.old)
            (fuse_of self.old) }
        ensures failed { fused_failures D.model.failure_count self.old ≢ greatest →
            failed_calls (fuse_of self.new)
            ≡ failed_after result (failed_calls (fuse_of self.old)) }
        ensures inner { fused_inner self.new ≡ fused_inner self.old }
    {
        let failures = self.failures();
        self.counter.next_outcome(failures)
    }

    /// Makes a call on the disk below, or lets it fail, as the fuse says.
    fn fuse(&mut self, call: Call<'_>) -> Result<(), DiskFault>
        requires { D.model.honest → MayBeMade (call_step call) (D.model.folder (fused_inner self.old)) }
        ensures goes { IsChange (fused_model D.model) (call_step call.entry) self.old result self.new }
        ensures fuses { FusesChange D.model D.also_changes self.old
            (call_step call.entry) result self.new }
    {
        match self.next_outcome() {
            Outcome::Passes => call.make(&mut self.inner),
            Outcome::Fails => Err(DiskFault::Device),
            Outcome::FailsDone => {
                let _ = call.make(&mut self.inner);
                Err(DiskFault::Device)
            }
        }
    }
}

impl<D: Disk> Disk for FusedDisk<D> {
    ghost use Rattle.test_disks.specs.Fused.{fused_model, FusesChange, FusesRead};

    ghost model = { fused_model D.model };

    ghost also_changes = { λ old step result new.
        FusesChange D.model D.also_changes old step result new };

    ghost also_reads = { λ old name max result new.
        FusesRead D.model.failure_count D.also_reads old name max result new };

    ghost counts_now = { λ disk t image honest le is.
        D.counts_now disk.inner t image honest le is };

    ghost only_now = { λ disk image honest is. D.only_now disk.inner image honest is };

    ghost whole = { λ disk honest. D.whole disk.inner honest };

    fn failures(&self) -> u64 {
        let below = u128::from(self.inner.failures());
        at_most_greatest(self.counter.failed().saturating_add(below))
    }

    fn several_waited(&self) -> bool {
        self.inner.several_waited()
    }

    fn read(&mut self, alloc: Global, name: Name, max: u64) -> Result<Content, DiskFault> {
        match self.next_outcome() {
            Outcome::Passes => self.inner.read(alloc, name, max),
            Outcome::Fails | Outcome::FailsDone => Err(DiskFault::Device),
        }
    }

    fn create_next(&mut self) -> Result<(), DiskFault> {
        self.fuse(Call::CreateNext)
    }

    fn append(&mut self, name: Name, bytes: &[u8]) -> Result<(), DiskFault> {
        self.fuse(Call::Append(name, bytes))
    }

    fn sync(&mut self, name: Name) -> Result<(), DiskFault> {
        self.fuse(Call::Sync(name))
    }

    fn rename_next(&mut self) -> Result<(), DiskFault> {
        self.fuse(Call::RenameNext)
    }

    fn remove_next(&mut self) -> Result<(), DiskFault> {
        self.fuse(Call::RemoveNext)
    }

    fn sync_folder(&mut self) -> Result<(), DiskFault> {
        self.fuse(Call::SyncFolder)
    }
}
