// A round: the commands of many clients, with one sync.
ghost use Rattle.std.specs.Prelude.{◌≡◌, ◌<◌, ◌≤◌, ◌⊎◌, ◌↔◌, ◌++◌, ◌∷◌, [], true, false, length, IfOk, IfErr, OnOk};
ghost use Rattle.std.specs.Prelude.{IsErrOf};
ghost use Rattle.conf_session.specs.Prelude.{ClosesOnce, HasFailed};
ghost use Rattle.conf_session.specs.Replies.{Handles, MeansPrefixes, reply_bytes};
ghost use Rattle.conf_session.specs.Rounds.{AnswersPiece, FailsPiece, RoundAsks, Rounds, answer_bytes, piece_bytes, round_fault};

use crate::fault::SessionFault;
use crate::groups::flush_all;
use crate::pieces::bytes_of;
use crate::reply::{Reply, answer_piece};
use crate::words::Refusal;
use conf_disk::Disk;
use conf_store::Store;
use std::alloc::{AllocError, Global};
use thiserror::Error;
use yaml_docs::next_close;

/// What one client asks for.
#[derive(Drop)]
pub struct Piece {
    /// The client's number. It changes nothing.
    pub client: u64,
    /// One command document with its closing line.
    pub bytes: Vec<u8>,
}

/// Why a round has no answers.
#[derive(Clone, Copy, Debug, PartialEq, Eq, Error)]
pub enum RoundFault {
    /// Out of memory. That many pieces, from the first, are performed. Those up to the last `checkpoint` among them, or
    /// the last command that renewed the file, are flushed; those after it wait.
    #[error("OutOfMemory")]
    OutOfMemory { performed: u64 },
    /// The device failed. The pieces before the one in hand are performed, and that one is or isn't; the store has to
    /// be opened again.
    #[error("Device")]
    Device,
    /// The store has to be opened again. Nothing was done.
    #[error("Reopen")]
    Reopen,
}

/// Whether the bytes are closed once, at their end.
fn closes_once(bytes: &[u8]) -> bool
    ensures { (result ≡ true) ↔ ClosesOnce bytes.now }
{
    match next_close(bytes, 0) {
        Some(place) => place == bytes.len(),
        None => false,
    }
}

/// Performs what a client's piece asks for, without a flush, unless it renews the file, and makes the answer.
fn submit_piece<D: Disk>(
    alloc: Global,
    store: &mut Store<D>,
    piece: &Piece,
) -> Result<Reply, SessionFault>
    requires means { MeansPrefixes D.model store.old }
    ensures { Handles D.model store.old store.new
        (RoundAsks piece.now.bytes.items) result }
{
    if !closes_once(&piece.bytes) {
        return Ok(Reply::Refused(Refusal::BadCommand));
    }
    answer_piece(alloc, store, &piece.bytes)
}

/// Appends the bytes of a reply to the answers.
fn push_answer(alloc: Global, reply: &Reply, answers: &mut Vec<Vec<u8>>) -> Result<(), AllocError>
    ensures { OnOk result (answer_bytes answers.new.items
        ≡ answer_bytes answers.old.items ++ reply_bytes reply.now ∷ []) }
{
    let mut answer = Vec::new(alloc);
    answer.extend_from_slice(bytes_of(reply))?;
    answers.push(answer)?;
    Ok(())
}

/// Why a round ends at a piece. So many pieces are performed, from the first.
fn round_fault(fault: SessionFault, performed: u64) -> RoundFault
    ensures { result ≡ round_fault fault performed }
{
    match fault {
        SessionFault::OutOfMemory => RoundFault::OutOfMemory { performed },
        SessionFault::Device => RoundFault::Device,
        _ => RoundFault::Reopen,
    }
}

/// Performs one piece and appends its answer. Nothing is flushed, unless the piece asks for a checkpoint or renews the
/// file.
///
/// # Errors
/// As [`round`].
fn take_piece<D: Disk>(
    alloc: Global,
    store: &mut Store<D>,
    piece: &Piece,
    answers: &mut Vec<Vec<u8>>,
) -> Result<(), RoundFault>
    ensures ok { store.old.reopen ≡ false → OnOk result
        (AnswersPiece D.model store.old store.new
        piece.now.bytes.items (answer_bytes answers.old.items) (answer_bytes answers.new.items)) }
    ensures fails { store.old.reopen ≡ false → IfErr result
        (FailsPiece D.model store.old store.new
        piece.now.bytes.items (length answers.old.items)) }
    ensures cause { IsErrOf result RoundFault.Device →
        HasFailed (D.model.failure_count store.old.disk) (D.model.failure_count store.new.disk) }
    ensures risen { D.model.failure_count store.old.disk ≤ D.model.failure_count store.new.disk }
{
    if store.needs_reopen() {
        return Err(RoundFault::Reopen);
    }
    let performed = answers.len() as u64;
    let reply = match submit_piece(alloc, store, piece) {
        Ok(reply) => reply,
        Err(fault) => return Err(round_fault(fault, performed)),
    };
    match push_answer(alloc, &reply, answers) {
        Ok(()) => Ok(()),
        Err(_) => {
            let performed = performed + 1;
            Err(RoundFault::OutOfMemory { performed })
        }
    }
}

/// Performs the commands of many clients, in the order of the pieces, and syncs once. Returns the answer to each piece,
/// in the same order.
///
/// Each piece is one command document with its closing line, and is answered as in a session ([`run`](crate::run)).
/// Bytes that are not closed once, at their end, are answered by `refused: BadCommand`. Commands that were submitted
/// before, and wait for a flush, are flushed too.
///
/// A crash at any moment leaves the state after a prefix of what waited and of the accepted commands. Once this returns
/// `Ok`, it leaves the state after all of them.
///
/// # Errors
/// - `OutOfMemory`: that many pieces, from the first, are performed. Those up to the last `checkpoint` among them, or
///   the last command that renewed the file, are flushed; those after it wait for a flush.
/// - `Device`: the pieces before the current one are performed, and that one is or isn't. No crash takes back those up
///   to the last `checkpoint` among the pieces before it, or to the last command that renewed the file. The store has
///   to be opened again.
/// - `Reopen` comes only at the start, if the store has to be opened again. Nothing is done.
pub fn round<D: Disk>(
    alloc: Global,
    store: &mut Store<D>,
    pieces: &[Piece],
) -> Result<Vec<Vec<u8>>, RoundFault>
    ensures rounds { Rounds D.model store.old store.new
        (piece_bytes pieces.now) result }
    ensures reopen { IsErrOf result RoundFault.Reopen ↔ (store.old.reopen ≡ true) }
    ensures unchanged { IsErrOf result RoundFault.Reopen → store.new ≡ store.old }
    ensures device { (store.new.reopen ≡ true)
        ↔ ((store.old.reopen ≡ true) ⊎ IsErrOf result RoundFault.Device) }
    ensures cause { IsErrOf result RoundFault.Device →
        HasFailed (D.model.failure_count store.old.disk) (D.model.failure_count store.new.disk) }
    ensures risen { D.model.failure_count store.old.disk ≤ D.model.failure_count store.new.disk }
{
    if store.needs_reopen() {
        return Err(RoundFault::Reopen);
    }
    let mut answers = Vec::new(alloc);
    'turns: for piece in pieces {
        take_piece(alloc, store, piece, &mut answers)?;
    }
    match flush_all(store) {
        Ok(()) => Ok(answers),
        Err(_) => Err(RoundFault::Device),
    }
}
