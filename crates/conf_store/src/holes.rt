// What a crash leaves of records that were not synced: bytes, and zeros in the place of others.
ghost use Rattle.std.specs.Prelude.{◌≡◌, not, true, false, Ok};
ghost use Rattle.conf_store.specs.Prelude.{IsNoRecord, no_zero};
ghost use Rattle.conf_store.specs.Holes.{IsAnyRecord, KeepsRecord, LacksRecord, MayBeLeft, WasKept, is_several};

use crate::waiting::Waiting;
use conf_record::read_record;
use std::alloc::{AllocError, Global};
use yaml_docs::next_close;
use yaml_recognizers::closings::{one_list_of_pieces, piece_between_closings};

/// Whether a crash may have left a piece and what stands behind it, of commands that were not synced: the piece has a
/// zero, and several commands may have waited, or no record stands behind it. It fails only if memory runs out.
pub(crate) fn may_be_left(
    alloc: Global,
    piece: &[u8],
    behind: &[u8],
    waiting: Waiting,
) -> Result<bool, AllocError>
    ensures left { result ≡ Ok true → MayBeLeft (is_several waiting) piece.now behind.now }
    ensures kept { result ≡ Ok false → WasKept (is_several waiting) piece.now behind.now }
{
    if !has_zero(piece) {
        return Ok(false);
    }
    match waiting {
        Waiting::One => Ok(!holds_record(alloc, behind)?),
        Waiting::Several => Ok(true),
    }
}

/// Whether one of the bytes is 0.
pub fn has_zero(bytes: &[u8]) -> bool
    ensures { no_zero bytes.now ≡ not result }
{
    bytes.contains(&0)
}

/// Whether one of the pieces of the bytes is a record, whatever its number. It fails only if memory runs out.
fn holds_record(alloc: Global, bytes: &[u8]) -> Result<bool, AllocError>
    ensures holds { result ≡ Ok true → KeepsRecord bytes.now }
    ensures lacks { result ≡ Ok false → LacksRecord bytes.now }
{
    piece_between_closings();
    one_list_of_pieces();
    let mut at = 0;
    'pieces: while let Some(end) = next_close(bytes, at) {
        if is_record(alloc, &bytes[at..end])? {
            return Ok(true);
        }
        at = end;
    }
    Ok(false)
}

/// Whether the bytes are a record of some command, whatever its number. It fails only if memory runs out.
pub fn is_record(alloc: Global, bytes: &[u8]) -> Result<bool, AllocError>
    ensures some { result ≡ Ok true → IsAnyRecord bytes.now }
    ensures none { result ≡ Ok false → IsNoRecord bytes.now }
{
    let Some(_record) = read_record(alloc, bytes)? else {
        return Ok(false);
    };
    Ok(true)
}
