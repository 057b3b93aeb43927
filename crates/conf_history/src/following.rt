// What follows the first bad piece of a store's file.
ghost use Rattle.std.specs.Prelude.{◌≡◌, ◌⊎◌, ◌++◌, true, false, ℕ, List, Option, Ok, IfOk, length};
ghost use Rattle.conf_history.specs.Following.{AfterLook, following_of};
ghost use Rattle.conf_history.specs.Prelude.{Consumes, IsAnyRecord, IsNoRecord, ahead, bytes_read, is_several, piece_or_rest};
ghost use Rattle.conf_history.specs.Walks.{HasLimits};

use crate::fault::{HistoryFault, fault_of_pieces};
use conf_store::{Waiting, has_zero, is_record};
use std::alloc::{AllocError, Global};
use std::io::Read;
use yaml_docs::Pieces;

/// Whether a crash may have left a bad piece.
#[derive(Clone, Copy, Debug, PartialEq, Eq)]
pub enum BadKind {
    /// A crash may have left it, of commands that were not synced: it has a zero, and several may have waited, or no
    /// record follows. An opening drops it, and all that follows.
    Torn,
    /// No crash left it: it has no zero, or one command waited at most and a record follows. An opening is refused.
    Unexpected,
}

/// What follows a bad piece.
#[derive(Clone, Copy, Debug, PartialEq, Eq)]
pub(crate) struct Following {
    /// The number of closed pieces.
    pub pieces: u64,
    pub kind: BadKind,
}

/// Goes past all pieces that follow a bad one, at which the reader is, and returns how many there are, and whether a
/// crash may have left the bad one. `waiting` says how many records may have waited for one sync.
///
/// # Errors
/// Those of [`Walk::advance`](crate::walk::Walk::advance).
pub(crate) fn look_behind<R: Read>(
    alloc: Global,
    pieces: &mut Pieces,
    reader: &mut R,
    waiting: Waiting,
) -> Result<Following, HistoryFault>
    requires { HasLimits pieces.old }
    ensures { (given : Option (List ℕ)) (read : List ℕ)
        → Consumes given (R.remaining reader.old) (read ++ ahead pieces.old)
        → bytes_read pieces.old ≡ length (read ++ ahead pieces.old)
        → AfterLook (is_several waiting) given (R.remaining reader.new) read
        (piece_or_rest pieces.old) pieces.new result }
{
    let mut is_kept = !has_zero(pieces.piece());
    let mut count = 0;
    'pieces: loop {
        match pieces.advance(reader) {
            Ok(true) => {
                count += 1;
                is_kept = is_known_kept(alloc, is_kept, pieces.piece(), waiting)?;
            }
            Ok(false) => return Ok(what_follows(count, is_kept)),
            Err(fault) => return Err(fault_of_pieces(fault)),
        }
    }
}

/// Whether it is known that no crash left a bad piece, once this piece, which follows it, was looked at. It fails only
/// if memory runs out.
fn is_known_kept(
    alloc: Global,
    is_kept: bool,
    piece: &[u8],
    waiting: Waiting,
) -> Result<bool, AllocError>
    ensures still { is_kept ≡ true → IfOk result (λ known. known ≡ true) }
    ensures some { is_kept ≡ false → result ≡ Ok true
        → (is_several waiting ≡ false) × IsAnyRecord piece.now }
    ensures none { is_kept ≡ false → result ≡ Ok false
        → (is_several waiting ≡ true) ⊎ IsNoRecord piece.now }
{
    if is_kept {
        return Ok(true);
    }
    match waiting {
        Waiting::One => is_record(alloc, piece),
        Waiting::Several => Ok(false),
    }
}

/// So many pieces, behind a piece of which it is known whether no crash left it.
fn what_follows(pieces: u64, is_kept: bool) -> Following
    ensures { result ≡ following_of pieces is_kept }
{
    let kind = if is_kept {
        BadKind::Unexpected
    } else {
        BadKind::Torn
    };
    Following { pieces, kind }
}
