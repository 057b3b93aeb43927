// Why conditions do not hold.
use thiserror::Error;
use tree_path::PathFault;

/// Why a condition does not hold, or can't be judged.
#[derive(Clone, Copy, Debug, PartialEq, Eq, Error)]
pub enum ConditionFault {
    /// The state is another one than the condition says.
    #[error("Unmet")]
    Unmet,
    /// The name isn't 1 to 64 lowercase letters, digits, `_` and `-`, starting with a letter.
    #[error("BadName")]
    BadName,
    /// The text is no pointer (RFC 6901, 3). It is always [`PathFault::BadPath`].
    #[error(transparent)]
    Path(PathFault),
    /// Out of memory. It is never inside `Path`.
    #[error("OutOfMemory")]
    OutOfMemory,
}
