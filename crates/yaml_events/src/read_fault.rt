// Why a text or a tree is refused.
ghost use Rattle.std.specs.Prelude.{◌≡◌};

use crate::fault::Why;
use std::alloc::{AllocError, AllocFailed};
use std::fmt;
use thiserror::Error;

/// Why a text or a tree is refused. A fault is returned only if none above it in this list holds; `OutOfMemory` may
/// come at any point. `Display` shows it as a sentence, and [`brief`](ReadFault::brief) by its name.
#[derive(Clone, Copy, Debug, PartialEq, Eq, Error)]
pub enum ReadFault {
    /// The text has more bytes than the limit.
    #[error("the text is longer than the limit")]
    TooLong,
    /// The bytes are not UTF-8; `at` is the length of their longest prefix that is.
    #[error("the text is not UTF-8 after its first {at} bytes")]
    NotUtf8 { at: usize },
    /// The text is not a stream of the profile. Lines and columns count from 1, a column in code points.
    #[error("line {line}, column {column}: {why}")]
    Syntax { line: u64, column: u64, why: Why },
    /// The text has this number of documents, which is not 1.
    #[error("the text has {count} documents, and not one")]
    Documents { count: u64 },
    /// Some key is a collection.
    #[error("a key is a collection")]
    KeyNotText,
    /// Some mapping holds a key twice.
    #[error("a mapping holds a key twice")]
    KeyTwice,
    /// The tree is deeper than the limit.
    #[error("the tree is deeper than the limit")]
    TooDeep,
    /// The tree has more bytes in the one style than the limit.
    #[error("the tree is longer in the one style than the limit")]
    LargeInStyle,
    /// Out of memory.
    #[error("out of memory")]
    OutOfMemory,
}

impl ReadFault {
    /// Returns the fault by its name.
    pub fn brief(&self) -> Brief
        ensures { result.0 ≡ self.now }
    {
        Brief(*self)
    }
}

/// A fault by its name, with the place of a syntax fault: `KeyTwice`, `Syntax 3:7 Flow`.
#[derive(Clone, Copy, Debug, PartialEq, Eq)]
pub struct Brief(pub ReadFault);

impl fmt::Display for Brief {
    fn fmt<W: fmt::Write>(&self, f: &mut fmt::Formatter<W>) -> fmt::Result {
        match self.0 {
            ReadFault::NotUtf8 { .. } => f.write_str("NotUtf8"),
            ReadFault::Syntax { line, column, why } => write!(f, "Syntax {line}:{column} {why:?}"),
            ReadFault::Documents { .. } => f.write_str("Documents"),
            fault => fmt::Debug::fmt(&fault, f),
        }
    }
}

impl From<AllocError> for ReadFault {
    ghost use Rattle.yaml_events.specs.declared.read_fault.ReadFault.TheVariants.{OutOfMemory};

    ghost from_gives = { λ _ fault. fault ≡ OutOfMemory };

    fn from(_: AllocError) -> Self {
        ReadFault::OutOfMemory
    }
}

impl<T: Drop> From<AllocFailed<T>> for ReadFault {
    ghost use Rattle.yaml_events.specs.declared.read_fault.ReadFault.TheVariants.{OutOfMemory};

    ghost from_gives = { λ _ fault. fault ≡ OutOfMemory };

    fn from(_: AllocFailed<T>) -> Self {
        ReadFault::OutOfMemory
    }
}
