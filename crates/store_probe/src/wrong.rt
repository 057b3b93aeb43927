// What is not as it has to be.
use conf_state::StoreFault;
use conf_store::OpenFault;
use std::alloc::{AllocError, Global};

/// What is not as it has to be, where an order looks at many stores.
#[derive(Clone, Copy, Debug)]
pub(crate) enum Wrong {
    /// A folder does not open.
    Open(OpenFault),
    /// A call of a store is refused.
    Call(StoreFault),
    /// A store has this count.
    Count(u64),
    /// A store has this count, and not the state after so many commands.
    State(u64),
    /// A checkpoint is not done after its last slice.
    NotDone,
    /// A store is not open.
    NotOpen,
    /// A crash leaves no image.
    NoImage,
    /// The output has so many bytes, and not the first ones of the answers.
    Output(usize),
    /// Out of memory.
    OutOfMemory,
}

impl Wrong {
    /// The line of what is wrong.
    pub(crate) fn line(self, alloc: Global) -> Result<String, AllocError> {
        format!(in alloc; "wrong: {self:?}")
    }
}

impl From<AllocError> for Wrong {
    fn from(_: AllocError) -> Wrong {
        Wrong::OutOfMemory
    }
}

impl From<StoreFault> for Wrong {
    fn from(fault: StoreFault) -> Wrong {
        Wrong::Call(fault)
    }
}
