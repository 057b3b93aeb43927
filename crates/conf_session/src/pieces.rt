// One piece: its command is performed, and its answer is kept.
ghost use Rattle.std.specs.Prelude.{◌≡◌, ◌+◌, ◌^◌, ◌<◌, ◌++◌, true, false, None, OnOk, IfErr, length};
ghost use Rattle.conf_session.specs.Gathering.{GathersPiece, HasRoomFor, IsAtPiece, LeavesPiece, unwritten_bytes};
ghost use Rattle.conf_session.specs.Input.{ahead, bytes_read, piece_or_rest};
ghost use Rattle.conf_session.specs.Replies.{accepts, refuses, reply_bytes, CountsFailures};

use crate::fault::SessionFault;
use crate::input::Input;
use crate::reply::{Reply, answer_piece};
use crate::unwritten::Unwritten;
use conf_disk::Disk;
use conf_store::Store;
use std::alloc::Global;

/// How many commands a reply accepts: 1 or 0.
pub fn count_accepted(reply: &Reply) -> u64
    ensures { result ≡ accepts reply.now }
{
    match reply {
        Reply::Accepted(_) => 1,
        _ => 0,
    }
}

/// How many commands a reply refuses: 1 or 0.
pub fn count_refused(reply: &Reply) -> u64
    ensures { result ≡ refuses reply.now }
{
    match reply {
        Reply::Accepted(_) => 0,
        Reply::Done(_) => 0,
        Reply::Refused(_) => 1,
    }
}

/// The bytes of a reply.
pub fn bytes_of(reply: &Reply) -> &[u8]
    ensures { result.now ≡ reply_bytes reply.now }
{
    match reply {
        Reply::Accepted(text) => text.as_bytes(),
        Reply::Done(text) => text.as_bytes(),
        Reply::Refused(reason) => reason.answer(),
    }
}

/// Performs the piece in hand, and keeps its answer. Nothing is flushed, unless it asks for a checkpoint or renews the
/// file.
///
/// # Errors
/// `Reopen` if the store has to be opened again. `OutOfMemory`: the piece changed nothing. `Device`: its command is
/// performed or not, and the store has to be opened again.
pub(crate) fn submit_piece<D: Disk>(
    alloc: Global,
    store: &mut Store<D>,
    input: &Input,
    answers: &mut Unwritten,
) -> Result<(), SessionFault>
    requires sound { store.old.reopen ≡ false }
    requires piece { IsAtPiece input.now }
    requires no_last { answers.old.last ≡ None }
    requires room { HasRoomFor answers.old
        (length (piece_or_rest input.now ++ ahead input.now)) (bytes_read input.now) }
    ensures ok { OnOk result (GathersPiece D.model store.old store.new
        (piece_or_rest input.now) answers.old answers.new) }
    ensures fails { IfErr result (LeavesPiece D.model store.old store.new
        (piece_or_rest input.now)) }
    ensures kept { IfErr result (λ _. answers.new ≡ answers.old) }
    ensures room { OnOk result
        (HasRoomFor answers.new (length (ahead input.now)) (bytes_read input.now)) }
    ensures small { answers.new.written + length (unwritten_bytes answers.new) < 2 ^ 64 }
    ensures failures { CountsFailures D.model store.old store.new result }
{
    if store.needs_reopen() {
        return Err(SessionFault::Reopen);
    }
    let reply = answer_piece(alloc, store, input.piece())?;
    answers.keep(reply);
    Ok(())
}
