// Gaps between the parts of a flow node.
ghost use Rattle.std.specs.Prelude.{◌≡◌, ◌≢◌, true, IfOk, IfErr, IfSome};
ghost use Rattle.yaml_scan.specs.Prelude.{IsCharBoundary, white, rest, context_of, Refuses, one_line, first, solid};
ghost use Rattle.yaml_scan.specs.ScanPlaces.{AreTaken};
ghost use Rattle.yaml_scan.specs.Gaps.{IsGap, NoGap, IsLinesGap, NoLinesGap};

use crate::lines::{rest_of_line_end, solid_line};
use crate::runs::white_end;
use crate::signs::{is_marker, solid_at, stands_at};
use yaml_events::{FlowContext, ScanFault, Why};

/// A gap between two parts of a flow node, which may be empty.
#[derive(Clone, Copy, Debug, PartialEq, Eq)]
pub struct Gap {
    /// Where it ends.
    pub end: usize,
    /// Whether it goes over lines.
    pub is_over_lines: bool,
}

/// Returns whether a node in this context has to be on one line, as a key has.
pub fn is_on_one_line(context: FlowContext) -> bool
    ensures { result ≡ one_line (context_of context) }
{
    match context {
        FlowContext::Outer | FlowContext::Inner => false,
        FlowContext::BlockKey | FlowContext::FlowKey => true,
    }
}

/// Returns the gap at `at` between two parts of a flow node whose further lines have at least `n` spaces (6.7,
/// `s-separate`). It is whitespace, and outside of keys also comments and breaks. It may be empty.
///
/// # Errors
///
/// [`ScanFault::At`] if nothing of the node can follow: with [`Why::Flow`] if the text ends after the lines of the gap,
/// and if its last line has fewer than `n` spaces, with [`Why::Marker`] at a document marker and else with
/// [`Why::Indent`]. It is never [`ScanFault::OutOfMemory`].
#[inline(always)]
pub fn gap_end(text: &str, at: usize, n: u64, context: FlowContext) -> Result<Gap, ScanFault>
    requires { IsCharBoundary text.now at }
    ensures found { IfOk result (IsGap n (context_of context) text.now at) }
    ensures none { IfErr result (λ fault.
        Refuses fault (NoGap n (context_of context) (rest text.now at))) }
    ensures memory { IfErr result (λ fault. fault ≢ ScanFault.OutOfMemory) }
{
    if let Some(end) = short_gap_end(text, at) {
        return Ok(Gap {
            end,
            is_over_lines: false,
        });
    }
    long_gap(text, at, n, context)
}

/// Returns the end of a gap of nothing or of one space, if something solid follows it.
#[inline(always)]
pub(crate) fn short_gap_end(text: &str, at: usize) -> Option<usize>
    requires { IsCharBoundary text.now at }
    ensures taken { IfSome result (AreTaken white text.now at) }
    ensures solid { IfSome result (λ end. first solid (rest text.now end) ≡ true) }
{
    if solid_at(text, at) {
        return Some(at);
    }
    if stands_at(text, at, b' ') && solid_at(text, at + 1) {
        return Some(at + 1);
    }
    None
}

/// Returns the gap at `at`, of any length, as [`gap_end`] does.
#[inline(never)]
fn long_gap(text: &str, at: usize, n: u64, context: FlowContext) -> Result<Gap, ScanFault>
    requires { IsCharBoundary text.now at }
    ensures found { IfOk result (IsGap n (context_of context) text.now at) }
    ensures none { IfErr result (λ fault.
        Refuses fault (NoGap n (context_of context) (rest text.now at))) }
    ensures memory { IfErr result (λ fault. fault ≢ ScanFault.OutOfMemory) }
{
    let white = white_end(text, at);
    let inline = Gap {
        end: white,
        is_over_lines: false,
    };
    if is_on_one_line(context) || solid_at(text, white) {
        return Ok(inline);
    }
    match rest_of_line_end(text, at) {
        Some(next) => gap_over_lines(text, next, n),
        None => Ok(inline),
    }
}

/// Returns the gap that goes over lines, whose first line ends at `next`.
fn gap_over_lines(text: &str, next: usize, n: u64) -> Result<Gap, ScanFault>
    requires { IsCharBoundary text.now next }
    ensures found { IfOk result (IsLinesGap n text.now next) }
    ensures none { IfErr result (λ fault. Refuses fault (NoLinesGap n text.now next)) }
    ensures memory { IfErr result (λ fault. fault ≢ ScanFault.OutOfMemory) }
{
    let line = solid_line(text, next);
    let at = line.first;
    if at == text.len() {
        return Err(ScanFault::At { at, why: Why::Flow });
    }
    if ((at - line.start) as u64) < n {
        return Err(ScanFault::At {
            at,
            why: why_too_few_spaces(text, line.start),
        });
    }
    Ok(Gap {
        end: white_end(text, at),
        is_over_lines: true,
    })
}

/// Returns why a line with too few spaces, which starts at `start`, ends a gap. No contract says this: it only helps
/// the person who writes the text.
#[inline(never)]
fn why_too_few_spaces(text: &str, start: usize) -> Why
    requires { IsCharBoundary text.now start }
{
    if is_marker(text, start) {
        Why::Marker
    } else {
        Why::Indent
    }
}
