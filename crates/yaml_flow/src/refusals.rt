// Why no flow collection is at a place. No contract names the reason or the place: they are shown to users, and tested.
ghost use Rattle.std.specs.Prelude.{◌≡◌};
ghost use Rattle.yaml_flow.specs.Prelude.{IsCharBoundary};

use crate::collection::{Open, Part, fault};
use crate::pair::entry_ends;
use yaml_events::{FlowContext, ScanFault, Why};
use yaml_scan::{is_marker, is_on_one_line, line_starts, stands_at};

/// Returns why neither a comma nor a closing bracket is after an entry, at `at`.
#[inline(never)]
pub(crate) fn why_not_ended(text: &str, at: usize) -> Why
    requires { IsCharBoundary text.now at }
{
    if line_starts(text, at) && is_marker(text, at) {
        Why::Marker
    } else {
        Why::Flow
    }
}

/// Returns the fault where the node that a bracket waits for is neither a collection nor a scalar: if its key is
/// omitted, that. Else it is `none`.
#[inline(never)]
pub(crate) fn no_scalar(text: &str, top: Open, none: ScanFault) -> ScanFault
    requires { IsCharBoundary text.now top.start }
    ensures { none ≡ ScanFault.OutOfMemory → result ≡ ScanFault.OutOfMemory }
{
    match none {
        ScanFault::OutOfMemory => none,
        ScanFault::At { .. } => {
            if is_key_omitted(text, top) {
                fault(top.start, Why::OmittedKey)
            } else {
                none
            }
        }
    }
}

/// Returns whether a key is omitted where no scalar is: a `:` is there, or the entry ends after its `?`.
fn is_key_omitted(text: &str, top: Open) -> bool
    requires { IsCharBoundary text.now top.start }
{
    if stands_at(text, top.start, b':') {
        return true;
    }
    match top.part {
        Part::Asked => entry_ends(text, top.start),
        Part::First | Part::Value => false,
    }
}

/// Returns the fault of a collection whose innermost open bracket is at `opening`, where `inner` is why it does not go
/// on. It is that bracket if the text ends. It is also the bracket if a line has too few spaces or is no part of a key,
/// and no bracket from there on closes it. Else it is `inner`.
#[inline(never)]
pub(crate) fn bracket_fault(
    text: &str,
    opening: usize,
    context: FlowContext,
    inner: ScanFault,
) -> ScanFault
    ensures { inner ≡ ScanFault.OutOfMemory → result ≡ ScanFault.OutOfMemory }
{
    match inner {
        ScanFault::OutOfMemory => inner,
        ScanFault::At { at, why } => match why_line(text.as_bytes(), context, at, why) {
            Some(line) if is_closed(text.as_bytes(), opening, at) => fault(at, line),
            Some(_) => fault(opening, Why::Flow),
            None => inner,
        },
    }
}

/// Returns why a line does not go on at `at`, if that is for its start or its end and not for what it holds.
fn why_line(bytes: &[u8], context: FlowContext, at: usize, why: Why) -> Option<Why> {
    if at >= bytes.len() {
        return Some(Why::Flow);
    }
    if is_on_one_line(context) && matches!(bytes[at], b'\n' | b'\r') {
        return Some(Why::Key);
    }
    match why {
        Why::Indent => Some(why),
        _ => None,
    }
}

/// Returns whether a bracket from `from` on closes the one at `opening`. Brackets in quotes and comments count too.
fn is_closed(bytes: &[u8], opening: usize, from: usize) -> bool {
    let mut depth: usize = 0;
    for byte in bytes.iter().skip(from) {
        match *byte {
            b'[' | b'{' => depth = depth.saturating_add(1),
            b']' | b'}' if depth > 0 => depth -= 1,
            b']' => return bytes.get(opening) == Some(&b'['),
            b'}' => return bytes.get(opening) == Some(&b'{'),
            _ => {}
        }
    }
    false
}
