// Why the keys of a value are not shown.
use std::alloc::AllocError;
use thiserror::Error;

/// Why the keys of a value are not shown.
#[derive(Clone, Copy, Debug, PartialEq, Eq, Error)]
pub enum KeysFault {
    /// The value is a text, and no mapping or sequence.
    #[error("NotCollection")]
    NotCollection,
    /// Out of memory.
    #[error("OutOfMemory")]
    OutOfMemory,
}

impl From<AllocError> for KeysFault {
    ghost use Rattle.std.specs.Prelude.{◌≡◌};
    ghost use Rattle.yaml_forms.specs.declared.keys_fault.KeysFault.TheVariants.{OutOfMemory};

    ghost from_gives = { λ _ fault. fault ≡ OutOfMemory };

    fn from(_error: AllocError) -> KeysFault {
        KeysFault::OutOfMemory
    }
}
