// Why a pointer is not a path, or leads to no place.
use std::alloc::{AllocError, AllocFailed};
use thiserror::Error;

/// Why a text is no path, or a path leads to no place in a tree. Steps count from 1.
#[derive(Clone, Copy, Debug, PartialEq, Eq, Error)]
pub enum PathFault {
    /// The text is no pointer (RFC 6901, 3). `at` counts bytes from 0: it is 0 if the text begins with something else
    /// than `/`, and otherwise the place of the first `~` that isn't before `0` or `1`.
    #[error("BadPath")]
    BadPath { at: usize },
    /// The step leads to nothing: into a text, to a key that isn't there, to an index that has no element, or to the
    /// place after the last element (`-`) where a value has to be there.
    #[error("NoSuchPlace")]
    NoSuchPlace { step: usize },
    /// The step leads into a sequence and is neither an index nor `-` (RFC 6901, 4).
    #[error("NotIndex")]
    NotIndex { step: usize },
    /// Out of memory.
    #[error("OutOfMemory")]
    OutOfMemory,
}

impl From<AllocError> for PathFault {
    ghost use Rattle.std.specs.Prelude.{◌≡◌};
    ghost use Rattle.json_pointer.specs.declared.fault.PathFault.TheVariants.{OutOfMemory};

    ghost from_gives = { λ _ fault. fault ≡ OutOfMemory };

    fn from(_error: AllocError) -> PathFault {
        PathFault::OutOfMemory
    }
}

impl<T: Drop> From<AllocFailed<T>> for PathFault {
    ghost use Rattle.std.specs.Prelude.{◌≡◌};
    ghost use Rattle.json_pointer.specs.declared.fault.PathFault.TheVariants.{OutOfMemory};

    ghost from_gives = { λ _ fault. fault ≡ OutOfMemory };

    fn from(_failed: AllocFailed<T>) -> PathFault {
        PathFault::OutOfMemory
    }
}
