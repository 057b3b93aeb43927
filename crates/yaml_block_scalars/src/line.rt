// The lines of a block scalar at an indentation.
ghost use Rattle.std.specs.Prelude.{◌≡◌, false, [], None, Some, IfSome, IfNone, IfOk, IfErr};
ghost use Rattle.yaml_block_scalars.specs.Prelude.{IsCharBoundary, rest, Refuses, goes_on, lines_at};
ghost use Rattle.yaml_block_scalars.specs.Lines.{IsPastEmpties, AreEmpties, IsTextStart, IsLine};

use yaml_events::{ScanFault, Why};
use yaml_scan::{break_end, is_marker, nb_at, nb_end, spaces_end, stop_at, white_at};

/// A text line, and the empty lines after it.
#[derive(Clone, Copy)]
pub(crate) struct Line {
    /// Where its text starts, after the indentation, and where it ends.
    pub(crate) start: usize,
    pub(crate) end: usize,
    /// Whether its text begins with whitespace.
    pub(crate) white: bool,
    /// Whether it has a break.
    pub(crate) has_break: bool,
    /// The number of empty lines after it.
    pub(crate) empties: usize,
    /// Where the line after these starts.
    pub(crate) next: usize,
}

/// Returns the number of empty lines at `at`, and the place after them. An empty line has at most `indent` spaces and a
/// break.
pub(crate) fn empty_lines(text: &str, at: usize, indent: usize) -> (usize, usize)
    requires { IsCharBoundary text.now at }
    ensures { AreEmpties indent text.now at result.0 result.1 }
{
    let mut count = 0;
    let mut place = at;
    'lines: loop {
        let end = spaces_end(text, place);
        if end - place > indent {
            return (count, place);
        }
        let Some(next) = break_end(text, end) else {
            return (count, place);
        };
        count += 1;
        place = next;
    }
}

/// Returns where the text of the text line at `at` starts. Returns None if no text line is there. No empty line is at
/// `at`.
#[inline(always)]
pub(crate) fn text_start(text: &str, at: usize, indent: usize) -> Option<usize>
    requires boundary { IsCharBoundary text.now at }
    requires past { IsPastEmpties indent (rest text.now at) }
    ensures found { IfSome result (IsTextStart indent text.now at) }
    ensures none { IfNone result (goes_on indent (rest text.now at) ≡ false) }
{
    let end = spaces_end(text, at);
    let width = end - at;
    if width < indent {
        return None;
    }
    if width == indent {
        let Some(_) = nb_at(text, end) else {
            return None;
        };
        if is_marker(text, at) {
            return None;
        }
    }
    Some(at + indent)
}

/// Returns the text line at `at`. Returns None if no text line is there. No empty line is at `at`.
///
/// # Errors
///
/// [`ScanFault::At`] if the text of the line ends neither with a break nor with the end of the text.
#[inline(always)]
pub(crate) fn text_line(text: &str, at: usize, indent: usize) -> Result<Option<Line>, ScanFault>
    requires boundary { IsCharBoundary text.now at }
    requires past { IsPastEmpties indent (rest text.now at) }
    ensures found { IfOk result (λ found. IfSome found (IsLine indent text.now at)) }
    ensures none { IfOk result (λ found.
        IfNone found (lines_at indent (rest text.now at) ≡ Some ([], rest text.now at))) }
    ensures fails { IfErr result (λ fault.
        Refuses fault (lines_at indent (rest text.now at) ≡ None)) }
{
    let Some(start) = text_start(text, at, indent) else {
        return Ok(None);
    };
    let end = nb_end(text, start);
    let Some(stop) = stop_at(text, end) else {
        return Err(ScanFault::At {
            at: end,
            why: Why::Character,
        });
    };
    let (empties, next) = empty_lines(text, stop.next, indent);
    Ok(Some(Line {
        start,
        end,
        white: white_at(text, start),
        has_break: stop.has_break,
        empties,
        next,
    }))
}
