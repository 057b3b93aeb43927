// The state that a store's file held after a command.
ghost use Rattle.std.specs.Prelude.{IfOk, IfErr, IfSome};
ghost use Rattle.conf_history.specs.Histories.{ReadsState, RefusesReading};
ghost use Rattle.conf_history.specs.Prelude.{is_several};

use crate::fault::HistoryFault;
use crate::replayed::OfBase;
use crate::walk::Walk;
use conf_state::State;
use conf_store::{OnRefusal, Waiting};
use std::alloc::Global;
use std::io::Read;
use yaml_recognizers::closings::one_list_of_pieces;

/// Reads the state that a store's file held: after all its commands, or after the one with the number `at`. Commands
/// are numbered from 1, over all checkpoints. The number of the file's base, the count of commands before its first
/// record, is that of the base's own state.
///
/// `waiting` says how many records may have waited for one sync, as the disk of the file has noted it: so it is known
/// whether a crash left a piece with a zero, and all that follows, which are dropped then.
///
/// The file is read once. With a number nothing is read that this does not need, so that damage after that record is
/// not found. It takes memory for the state, one piece and 65,536 bytes at most, and time linear in what is read.
///
/// What was read may not be synced: a crash may take back its last commands, until the store is opened or flushed.
///
/// # Errors
/// - `Input`: a read failed.
/// - `NotAStore`: the file has more than 1,073,741,824 bytes or no closing line, or its first piece is no base.
/// - `Damaged`: a piece is not the next record. It is the first such piece; with a number, one up to its record.
/// - `NoSuchCommand`: the number is beyond the last record, or before the base.
/// - `OutOfMemory`.
pub fn state_at<R: Read>(
    alloc: Global,
    reader: &mut R,
    waiting: Waiting,
    at: Option<u64>,
) -> Result<State, HistoryFault>
    ensures ok { IfOk result
        (ReadsState (is_several waiting) (R.remaining reader.old) (R.remaining reader.new) at) }
    ensures refused { IfErr result (λ fault.
        IfSome (R.remaining reader.old) (λ bytes. RefusesReading (is_several waiting) bytes at fault)) }
{
    read_up_to(alloc, reader, waiting, at)
}

/// Reads what a store's file held, as [`state_at`] does.
///
/// # Errors
/// Those of [`state_at`].
pub(crate) fn read_up_to<R: Read, T: OfBase>(
    alloc: Global,
    reader: &mut R,
    waiting: Waiting,
    at: Option<u64>,
) -> Result<T, HistoryFault>
    ensures ok { IfOk result (λ held.
        ReadsState (is_several waiting) (R.remaining reader.old) (R.remaining reader.new) at (T.contents held)) }
    ensures refused { IfErr result (λ fault.
        IfSome (R.remaining reader.old) (λ bytes. RefusesReading (is_several waiting) bytes at fault)) }
{
    one_list_of_pieces();
    let mut walk = Walk::begin(alloc, reader)?;
    let mut held: T = walk.take_base(alloc, at)?;
    'records: while walk.next(alloc, reader, waiting, at, &mut held, OnRefusal::DropState)? {}
    Ok(held)
}
