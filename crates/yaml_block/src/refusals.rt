// Why no block node is at a place. No contract names the reason: it is shown to users, and tested.
ghost use Rattle.std.specs.Prelude.{◌≡◌};
ghost use Rattle.yaml_block.specs.Prelude.{IsCharBoundary};

use yaml_chars::{next_char, ns};
use yaml_events::{ScanFault, Why};
use yaml_scan::{Line, is_marker, sign_at};

/// Returns the refusal of a text at `at`, for this reason.
pub(crate) fn refusal(at: usize, why: Why) -> ScanFault {
    ScanFault::At { at, why }
}

/// Returns the refusal of a text in which whitespace is missing at `at`.
pub(crate) fn no_white(text: &str, at: usize) -> ScanFault
    requires { IsCharBoundary text.now at }
{
    match next_char(text, at) {
        Some(('\u{feff}', _)) => refusal(at, Why::ByteOrderMark),
        _ => refusal(at, Why::Character),
    }
}

/// Returns the refusal of a line that goes on at `at` after a node with something other than a comment.
pub(crate) fn line_goes_on(text: &str, at: usize) -> ScanFault
    requires { IsCharBoundary text.now at }
{
    let why = match next_char(text, at) {
        Some((':', _)) => Why::Key,
        Some(('\u{feff}', _)) => Why::ByteOrderMark,
        Some(('#', _)) => Why::Other,
        Some((c, _)) => { if ns(c) { Why::Other } else { Why::Character } }
        None => Why::Other,
    };
    refusal(at, why)
}

/// Returns the refusal of a line that is indented too little.
pub(crate) fn too_shallow(text: &str, line: Line) -> ScanFault
    requires { IsCharBoundary text.now line.start }
{
    if is_marker(text, line.start) {
        refusal(line.first, Why::Marker)
    } else {
        refusal(line.first, Why::Indent)
    }
}

/// Returns the refusal where no flow node was found at `at`: if a `:` is there, its key is omitted. Else it is `fault`.
pub(crate) fn no_node(text: &str, at: usize, fault: ScanFault) -> ScanFault
    requires { IsCharBoundary text.now at }
    ensures { fault ≡ ScanFault.OutOfMemory → result ≡ ScanFault.OutOfMemory }
{
    match fault {
        ScanFault::OutOfMemory => fault,
        ScanFault::At { .. } => {
            if sign_at(text, at, b':') {
                refusal(at, Why::OmittedKey)
            } else {
                fault
            }
        }
    }
}
