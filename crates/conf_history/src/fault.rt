// Why the file of a store is not read to its end, and why no new store is made of it.
ghost use Rattle.std.specs.Prelude.{◌≡◌};
ghost use Rattle.conf_history.specs.Faults.{fault_of_pieces};

use crate::place::BadPiece;
use std::alloc::AllocError;
use thiserror::Error;
use yaml_docs::PiecesFault;

/// Why the file of a store does not answer. The message is the fault's own name.
#[derive(Clone, Copy, Debug, PartialEq, Eq, Error)]
pub enum HistoryFault {
    /// A read failed.
    #[error("Input")]
    Input,
    /// A write failed, or took nothing.
    #[error("Output")]
    Output,
    /// The file has more than 1,073,741,824 bytes or no closing line, or its first piece is no base.
    #[error("NotAStore")]
    NotAStore,
    /// A piece is not the next record.
    #[error("Damaged")]
    Damaged(BadPiece),
    /// The file holds no command with the number: it is not in the file yet, or a checkpoint dropped it.
    #[error("NoSuchCommand")]
    NoSuchCommand,
    /// Out of memory, for the state or for a piece.
    #[error("OutOfMemory")]
    OutOfMemory,
}

impl From<AllocError> for HistoryFault {
    ghost use Rattle.conf_history.specs.declared.fault.HistoryFault.TheVariants.{OutOfMemory};

    ghost from_gives = { λ _ fault. fault ≡ OutOfMemory };

    fn from(_error: AllocError) -> HistoryFault {
        HistoryFault::OutOfMemory
    }
}

/// What the fault of the pieces is for a file: one that is too long is no store.
pub(crate) fn fault_of_pieces(fault: PiecesFault) -> HistoryFault
    ensures { result ≡ fault_of_pieces fault }
{
    match fault {
        PiecesFault::Read => HistoryFault::Input,
        PiecesFault::TooLong | PiecesFault::InputLong => HistoryFault::NotAStore,
        PiecesFault::OutOfMemory => HistoryFault::OutOfMemory,
    }
}

/// Why no new store was made of a file. The message is the fault's own name.
#[derive(Clone, Copy, Debug, PartialEq, Eq, Error)]
pub enum SalvageFault {
    /// The file can't be read, or is no store; or it is damaged, and not salvaged. The disk is as it was.
    #[error(transparent)]
    History(HistoryFault),
    /// There is a `store.yaml` on the disk. It is as it was.
    #[error("StoreExists")]
    StoreExists,
    /// The device of the new store failed. There is no `store.yaml`, or the whole new one.
    #[error("Device")]
    Device,
    /// Out of memory for the new store. The disk is as it was.
    #[error("OutOfMemory")]
    OutOfMemory,
}
