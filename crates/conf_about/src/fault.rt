// Why a tree or words are no about.
use std::alloc::{AllocError, AllocFailed};
use thiserror::Error;

/// Why a tree or words are no [`About`](crate::About).
#[derive(Clone, Copy, Debug, PartialEq, Eq, Error)]
pub enum AboutFault {
    /// The tree is no mapping.
    #[error("NoMapping")]
    NoMapping,
    /// A value is no text.
    #[error("NoText")]
    NoText,
    /// A key is empty, a word has no `=`, or there is no pair at all.
    #[error("NoKey")]
    NoKey,
    /// A key has more than 64 characters.
    #[error("LongKey")]
    LongKey,
    /// There are more than 16 pairs.
    #[error("TooMany")]
    TooMany,
    /// A key comes twice.
    #[error("Twice")]
    Twice,
    /// The mapping has more than 4,096 bytes in the one style.
    #[error("TooLarge")]
    TooLarge,
    /// Out of memory.
    #[error("OutOfMemory")]
    OutOfMemory,
}

impl From<AllocError> for AboutFault {
    ghost use Rattle.std.specs.Prelude.{◌≡◌};
    ghost use Rattle.conf_about.specs.declared.fault.AboutFault.TheVariants.{OutOfMemory};

    ghost from_gives = { λ _ fault. fault ≡ OutOfMemory };

    fn from(_error: AllocError) -> AboutFault {
        AboutFault::OutOfMemory
    }
}

impl<T: Drop> From<AllocFailed<T>> for AboutFault {
    ghost use Rattle.std.specs.Prelude.{◌≡◌};
    ghost use Rattle.conf_about.specs.declared.fault.AboutFault.TheVariants.{OutOfMemory};

    ghost from_gives = { λ _ fault. fault ≡ OutOfMemory };

    fn from(_failed: AllocFailed<T>) -> AboutFault {
        AboutFault::OutOfMemory
    }
}
