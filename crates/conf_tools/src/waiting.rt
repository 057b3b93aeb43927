// How a run waits for a lock that another one holds.
use std::rt::Clock;
use std::thread;
use std::time::{Duration, Instant};

/// The longest that the first pause between two tries may be, in milliseconds.
const FIRST_PAUSE: u64 = 2;

/// The longest that any may be, in milliseconds.
const LONGEST_PAUSE: u64 = 50;

/// Half a millisecond, in nanoseconds.
const HALF: u64 = 500_000;

/// A time in which something is tried again and again.
#[derive(Clone, Copy)]
pub(crate) struct Waiting {
    /// When it began. `None` if the clock can't be read: then nothing is tried again.
    begun: Option<Instant>,
    time: Duration,
}

impl Waiting {
    /// So much time from now on.
    pub(crate) fn new<C: Clock>(clock: &C, time: Duration) -> Waiting {
        Waiting {
            begun: Instant::now(clock).ok(),
            time,
        }
    }

    /// More tries than the time has pauses, of which each but the last is a millisecond at least.
    pub(crate) fn most_tries(&self) -> u64 {
        let millis = u64::try_from(self.time.as_millis()).unwrap_or(u64::MAX);
        millis.saturating_add(2)
    }

    /// Pauses before the next try, of which so many have been, and not past the end of the time. Returns whether there
    /// was time left.
    pub(crate) fn pause<C: Clock>(&self, clock: &C, tries: u64) -> bool {
        let Some(gone) = self.begun.and_then(|begun| begun.elapsed(clock).ok()) else {
            return false;
        };
        let left = self.time.saturating_sub(gone);
        if left.is_zero() {
            return false;
        }
        thread::sleep(clock, pause_after(tries, gone).min(left));
        true
    }
}

/// The pause after so many tries: the first is 1 to 2 ms, and each later one is longer, up to 25 to 50 ms. How long it
/// is hangs on the nanoseconds that have gone by, so that runs which wait side by side don't all try at once.
fn pause_after(tries: u64, gone: Duration) -> Duration {
    let most = tries.saturating_add(FIRST_PAUSE).min(LONGEST_PAUSE);
    let spread = u64::from(gone.subsec_nanos()) % HALF;
    Duration::from_nanos(most.saturating_mul(HALF + spread))
}
