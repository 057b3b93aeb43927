// Which calls fail.
ghost use Rattle.std.specs.Prelude.{◌≡◌, ◌≤◌};
ghost use Rattle.test_files.specs.Faults.{outcome_at, failed_of, offered_count, fails_to_read};

/// What becomes of the calls of a [`MemoryFileCalls`](crate::MemoryFileCalls) from a chosen one on. Those that change
/// something are counted from 0.
#[derive(Clone, Copy, Debug, PartialEq, Eq)]
pub enum Fault {
    /// Each call is done.
    None,
    /// The chosen call fails, and the rest are done.
    FailOnce {
        /// How much of its effect it has. Of a write, so many bytes are there. Another call is not done at 0, and else
        /// done; but a sync that fails makes nothing sure.
        part: usize,
    },
    /// The process is killed in the chosen call: it fails, and so does each call after it, which does nothing.
    Kill {
        /// How much of its effect the chosen call has, as for [`Fault::FailOnce`].
        part: usize,
    },
    /// The chosen call writes so many bytes, if it is a write of more.
    ShortWrite {
        /// How many bytes it writes.
        count: usize,
    },
    /// Between the chosen call and the one before it each call fails that only looks.
    FailReads,
}

/// What becomes of a call that changes something.
#[derive(Clone, Copy)]
pub(crate) enum Outcome {
    /// It is done, but a write of more bytes than these is short.
    Done { most: usize },
    /// It fails, with so much of its effect.
    Fails { part: usize },
}

impl Outcome {
    /// How far the call comes, if it fails.
    pub(crate) fn failed(self) -> Option<usize>
        ensures { result ≡ failed_of self }
    {
        match self {
            Outcome::Done { .. } => None,
            Outcome::Fails { part } => Some(part),
        }
    }

    /// How many of so many bytes a write is made with.
    pub(crate) fn offered(self, count: usize) -> usize
        ensures offered { result ≡ offered_count self count }
        ensures within { result ≤ count }
    {
        match self {
            Outcome::Done { most } => most.min(count),
            Outcome::Fails { .. } => count,
        }
    }
}

/// A fault, and the number of the call that it chooses.
#[derive(Clone, Copy)]
pub(crate) struct Plan {
    pub(crate) call: usize,
    pub(crate) fault: Fault,
}

impl Plan {
    /// What becomes of the call with this number.
    pub(crate) fn outcome(self, number: usize) -> Outcome
        ensures { result ≡ outcome_at self number }
    {
        match self.fault {
            Fault::FailOnce { part } | Fault::Kill { part } if number == self.call => {
                Outcome::Fails { part }
            }
            Fault::Kill { .. } if number > self.call => Outcome::Fails { part: 0 },
            Fault::ShortWrite { count } if number == self.call => Outcome::Done { most: count },
            _ => Outcome::Done { most: usize::MAX },
        }
    }

    /// Whether a call fails that only looks, once so many others were made.
    pub(crate) fn fails_to_read(self, calls: usize) -> bool
        ensures { result ≡ fails_to_read self calls }
    {
        match self.fault {
            Fault::FailReads => calls == self.call,
            Fault::Kill { .. } => calls > self.call,
            _ => false,
        }
    }
}
