// Why a run of the program ends early.
use conf_state::StoreFault;
use std::alloc::AllocError;
use std::io;
use tree_path::PathFault;
use yaml_tree::ReadFault;

/// Why a run of the program ends early.
#[derive(Clone, Copy)]
pub(crate) enum Failed {
    /// An order has wrong words.
    Words,
    /// Something failed or was refused.
    Run,
}

impl From<StoreFault> for Failed {
    fn from(_: StoreFault) -> Failed {
        Failed::Run
    }
}

impl From<ReadFault> for Failed {
    fn from(_: ReadFault) -> Failed {
        Failed::Run
    }
}

impl From<PathFault> for Failed {
    fn from(_: PathFault) -> Failed {
        Failed::Run
    }
}

impl From<AllocError> for Failed {
    fn from(_: AllocError) -> Failed {
        Failed::Run
    }
}

impl From<io::Error> for Failed {
    fn from(_: io::Error) -> Failed {
        Failed::Run
    }
}
