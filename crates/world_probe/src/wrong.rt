// Why a list that was cut off has no answer of the usual form.
use std::alloc::AllocError;

/// What is wrong with what a crash leaves.
#[derive(Debug, Drop)]
pub(crate) enum Wrong {
    /// An image has a state that it may not have.
    State(String),
    /// Out of memory.
    OutOfMemory,
}

impl From<AllocError> for Wrong {
    fn from(_: AllocError) -> Self {
        Wrong::OutOfMemory
    }
}
