// The first line of a block scalar.
ghost use Rattle.std.specs.Prelude.{◌≡◌, ◌≢◌, ◌≤◌, None, IsTrue, IfOk, IfErr, IfSome, IfNone};
ghost use Rattle.yaml_block_scalars.specs.Prelude.{IsCharBoundary, rest, Refuses, digit_fits, read_digit, read_mark};
ghost use Rattle.yaml_block_scalars.specs.Prelude.{read_header_end, NoHeader, IsLineStart};
ghost use Rattle.yaml_block_scalars.specs.Found.{IsHeaderAt};
ghost use Rattle.yaml_block_scalars.specs.Meant.{chomping_of};
ghost use Rattle.yaml_block_scalars.specs.HeaderPlaces.{IsDigit, IsMark, AreSigns, IsHeaderEnd};

use crate::parts::{Chomping, Header};
use yaml_events::{ScanFault, Why};
use yaml_scan::{nb_end, rest_of_line_end, stands_at, white_end};

/// Returns the digit at `at`, from 1 to 9, if there is one, and the place after it.
fn digit_at(text: &str, at: usize) -> (Option<u8>, usize)
    requires { IsCharBoundary text.now at }
    ensures { IsDigit text.now at result.0 result.1 }
{
    let bytes = text.as_bytes();
    if at == bytes.len() {
        return (None, at);
    }
    let byte = bytes[at];
    if byte < b'1' || byte > b'9' {
        return (None, at);
    }
    (Some(byte - b'0'), at + 1)
}

/// Returns the chomping that the mark at `at` says, and the place after it. Without a mark it is `Clip`, and that place
/// is `at`.
fn chomping_at(text: &str, at: usize) -> (Chomping, usize)
    requires { IsCharBoundary text.now at }
    ensures { IsMark text.now at (chomping_of result.0) result.1 }
{
    let bytes = text.as_bytes();
    if at == bytes.len() {
        return (Chomping::Clip, at);
    }
    if bytes[at] == b'-' {
        return (Chomping::Strip, at + 1);
    }
    if bytes[at] == b'+' {
        return (Chomping::Keep, at + 1);
    }
    (Chomping::Clip, at)
}

/// Returns the digit and the chomping mark at `at`, in either order, and the place after them.
fn signs_at(text: &str, at: usize) -> (Option<u8>, Chomping, usize)
    requires { IsCharBoundary text.now at }
    ensures { AreSigns text.now at result.0 (chomping_of result.1) result.2 }
{
    let (first_digit, place) = digit_at(text, at);
    let (chomping, after) = chomping_at(text, place);
    if first_digit.is_some() {
        return (first_digit, chomping, after);
    }
    match chomping {
        Chomping::Clip => (None, chomping, after),
        Chomping::Strip | Chomping::Keep => {
            let (digit, end) = digit_at(text, after);
            (digit, chomping, end)
        }
    }
}

/// Returns the place after the rest of the line of a header at `at`: whitespace, a comment after whitespace, and a
/// break or the end of the text. Returns None if anything else is there.
fn header_end(text: &str, at: usize) -> Option<usize>
    requires { IsCharBoundary text.now at }
    ensures found { IfSome result (IsHeaderEnd text.now at) }
    ensures none { IfNone result (read_header_end (rest text.now at) ≡ None) }
{
    if at == text.len() {
        return Some(at);
    }
    rest_of_line_end(text, at)
}

/// Returns the place of the character that ends no header's line, where the rest of the line is at `at`. No contract
/// says this: it only helps the person who writes the text.
fn odd_place(text: &str, at: usize) -> usize
    requires { IsCharBoundary text.now at }
{
    let white = white_end(text, at);
    if white > at && stands_at(text, white, b'#') {
        nb_end(text, white)
    } else {
        white
    }
}

/// Returns the header of the block scalar at `at`, and the place after its line and its break (YAML 1.2.2, 8.1.1).
///
/// The header is `|` or `>`, then at most one digit from 1 to 9 and at most one of `-` and `+`, in either order. Then
/// the line ends, perhaps after whitespace and a comment.
///
/// # Errors
///
/// [`ScanFault::At`] with [`Why::BlockHeader`] if no header is at `at`. The place is that of the first character that
/// no header has there: `at` if there is no sign, else the first one that is neither of the sign, the digit and the
/// mark nor of the whitespace and the comment after them. It is never [`ScanFault::OutOfMemory`].
pub fn header(text: &str, at: usize) -> Result<(Header, usize), ScanFault>
    requires { IsCharBoundary text.now at }
    ensures found { IfOk result (λ found. IsHeaderAt text.now at found.0 found.1) }
    ensures digit { IfOk result (λ found. IsTrue (digit_fits found.0.digit)) }
    ensures line { IfOk result (λ found. IsLineStart text.now found.1) }
    ensures none { IfErr result (λ fault. Refuses fault (NoHeader (rest text.now at))) }
    ensures memory { IfErr result (λ fault. fault ≢ ScanFault.OutOfMemory) }
{
    let bytes = text.as_bytes();
    let none = ScanFault::At {
        at,
        why: Why::BlockHeader,
    };
    if at == bytes.len() {
        return Err(none);
    }
    let sign = bytes[at];
    if sign != b'|' && sign != b'>' {
        return Err(none);
    }
    let (digit, chomping, place) = signs_at(text, at + 1);
    let Some(end) = header_end(text, place) else {
        return Err(ScanFault::At {
            at: odd_place(text, place),
            why: Why::BlockHeader,
        });
    };
    let header = Header {
        folded: sign == b'>',
        digit,
        chomping,
    };
    Ok((header, end))
}
