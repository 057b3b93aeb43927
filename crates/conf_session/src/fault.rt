// Why a session stops before the end of its input.
ghost use Rattle.std.specs.Prelude.{◌≡◌};

use std::alloc::AllocError;
use thiserror::Error;

/// Why a session stops before the end of its input. The commands that it answered before stay performed.
#[derive(Clone, Copy, Debug, PartialEq, Eq, Error)]
pub enum SessionFault {
    /// A read failed.
    #[error("Input")]
    Read,
    /// A write failed, or took nothing. Exactly the first `written` bytes of the answers were written, at most
    /// 67,108,864 for each piece.
    #[error("Output")]
    Write { written: u64 },
    /// A piece, or what comes after the last closing line, has more than 16,777,216 bytes.
    #[error("TooLong")]
    TooLong,
    /// The input has more than 1,073,741,824 bytes.
    #[error("SessionLong")]
    SessionLong,
    /// Out of memory. The current command changed nothing.
    #[error("OutOfMemory")]
    OutOfMemory,
    /// The device failed. The current command is performed or not.
    #[error("Device")]
    Device,
    /// The store has to be opened again. Nothing was read or written.
    #[error("Reopen")]
    Reopen,
}

impl From<AllocError> for SessionFault {
    ghost use Rattle.conf_session.specs.declared.fault.SessionFault.TheVariants.{OutOfMemory};

    ghost from_gives = { λ _ fault. fault ≡ OutOfMemory };

    fn from(_: AllocError) -> SessionFault {
        SessionFault::OutOfMemory
    }
}
