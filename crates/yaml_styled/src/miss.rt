// Why nothing is read.

use std::alloc::{AllocError, AllocFailed};

/// Why lines that are read without the general reader give nothing.
#[derive(Debug, Drop)]
pub enum Miss {
    /// They have a form that is not read so. The general reader may still read them.
    OtherForm,
    /// Memory ran out.
    OutOfMemory,
}

impl From<AllocError> for Miss {
    fn from(_: AllocError) -> Miss {
        Miss::OutOfMemory
    }
}

impl<T: Drop> From<AllocFailed<T>> for Miss {
    fn from(_: AllocFailed<T>) -> Miss {
        Miss::OutOfMemory
    }
}
