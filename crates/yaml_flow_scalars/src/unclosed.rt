// Quotes that are not closed. No contract says which fault a text gets: it only helps the person who writes the text.
ghost use Rattle.std.specs.Prelude.{◌≡◌, ◌≤◌, ◌<◌, IfSome, length};

use yaml_events::{ScanFault, Why};
use yaml_scan::is_white;

/// The quotes around a scalar.
#[derive(Clone, Copy)]
pub(crate) enum Quotes {
    Single,
    Double,
}

impl Quotes {
    /// Returns how many of these bytes are the next character or escape inside the quotes, or the next part of a
    /// character. Returns None if they begin with the closing quote.
    fn next_len(self, bytes: &[u8]) -> Option<usize>
        requires { 0 < length bytes.now }
        ensures { IfSome result (λ len. (0 < len) × (len ≤ length bytes.now)) }
    {
        match (self, bytes) {
            (Quotes::Single, [b'\'', b'\'', ..]) => Some(2),
            (Quotes::Single, [b'\'', ..]) => None,
            (Quotes::Double, [b'\\', _, ..]) => Some(2),
            (Quotes::Double, [b'"', ..]) => None,
            _ => Some(1),
        }
    }
}

/// Returns why no scalar begins with the quote at `opening`, where `fault` is why the scalar does not go on. It is the
/// opening quote if the text ends inside the scalar. It is also that quote if a line has too few spaces or is no part
/// of a key, and no quote from there on closes the scalar. Else it is `fault`.
#[inline(never)]
pub(crate) fn quote_fault(text: &str, opening: usize, quotes: Quotes, fault: ScanFault) -> ScanFault
    ensures { fault ≡ ScanFault.OutOfMemory → result ≡ ScanFault.OutOfMemory }
{
    match fault {
        ScanFault::OutOfMemory => fault,
        ScanFault::At { at, why } => {
            if is_unclosed(text.as_bytes(), quotes, at, why) {
                ScanFault::At {
                    at: opening,
                    why: Why::Quote,
                }
            } else {
                fault
            }
        }
    }
}

/// Returns whether a scalar that does not go on at `at`, for this reason, has no closing quote.
fn is_unclosed(bytes: &[u8], quotes: Quotes, at: usize, why: Why) -> bool {
    if at >= bytes.len() {
        return true;
    }
    match why {
        Why::Quote => true,
        Why::Indent | Why::Key => match closing_end(bytes, at, quotes) {
            Some(end) => !may_follow(&bytes[end..]),
            None => true,
        },
        _ => false,
    }
}

/// Returns the place after the first closing quote from `from` on.
fn closing_end(bytes: &[u8], from: usize, quotes: Quotes) -> Option<usize>
    requires { from ≤ length bytes.now }
    ensures { IfSome result (λ end. end ≤ length bytes.now) }
{
    let mut at = from;
    'inside: while at < bytes.len() {
        match quotes.next_len(&bytes[at..]) {
            Some(len) => at += len,
            None => return Some(at + 1),
        }
    }
    None
}

/// Returns whether a scalar may end before these bytes: after whitespace, they begin with a break, a comment or a sign
/// of a collection, or there are no more. What follows a quote that opens a scalar is mostly something else.
fn may_follow(bytes: &[u8]) -> bool {
    match bytes.iter().find(|byte| !is_white(**byte)) {
        Some(byte) => matches!(*byte, b'\n' | b'\r' | b'#' | b',' | b':' | b']' | b'}'),
        None => true,
    }
}
