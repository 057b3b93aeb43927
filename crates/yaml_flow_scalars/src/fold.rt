// Folds: what joins two lines of a flow scalar (YAML 1.2.2, 6.5 and 7.3.1).
ghost use Rattle.std.specs.Prelude.{◌≡◌, ◌≤◌, ◌++◌, IfSome, IfNone, OnOk};
ghost use Rattle.yaml_flow_scalars.specs.Prelude.{IsCharBoundary, string_bytes, folded_break};
ghost use Rattle.yaml_flow_scalars.specs.Folds.{IsFold, NoFold, IsPrefix, IsWhiteStart};

use std::alloc::AllocError;
use yaml_events::{ScanFault, Why};
use yaml_scan::{break_end, is_marker, is_white, push_line_feeds, spaces_end, white_end};

/// A break inside a scalar, with the empty lines after it and the whitespace at the start of the next line.
#[derive(Clone, Copy)]
pub(crate) struct Fold {
    /// The number of empty lines.
    pub(crate) empties: usize,
    /// Where the content of the next line starts.
    pub(crate) next: usize,
}

/// Returns the fold whose break is at `at`: empty lines follow the break, and then a line that is indented by `indent`
/// spaces or more and is not a document marker. Returns None if no break is at `at`, or if no such line follows.
#[inline(always)]
pub(crate) fn fold_at(text: &str, at: usize, indent: u64) -> Option<Fold>
    requires { IsCharBoundary text.now at }
    ensures found { IfSome result (λ fold. IsFold indent text.now at fold.empties fold.next) }
    ensures none { IfNone result (NoFold indent text.now at) }
{
    let Some(after) = break_end(text, at) else {
        return None;
    };
    let mut line = after;
    let mut empties = 0;
    'lines: loop {
        let prefix = line_prefix(text, line, indent);
        if let Some(next) = break_end(text, prefix.end) {
            empties += 1;
            line = next;
            continue;
        }
        if !prefix.indented || is_marker(text, line) {
            return None;
        }
        return Some(Fold {
            empties,
            next: prefix.end,
        });
    }
}

/// The whitespace at the start of a line.
#[derive(Clone, Copy)]
struct Prefix {
    /// Where it ends. In a line that is indented too little, where its spaces end.
    end: usize,
    /// Whether the line has all the spaces of the indentation.
    indented: bool,
}

/// Returns the whitespace at the start of the line that starts at `at`.
fn line_prefix(text: &str, at: usize, indent: u64) -> Prefix
    requires { IsCharBoundary text.now at }
    ensures { IsPrefix indent text.now at result.end result.indented }
{
    if let Some(_) = break_end(text, at) {
        return Prefix {
            end: at,
            indented: indent == 0,
        };
    }
    let margin = spaces_end(text, at);
    if ((margin - at) as u64) < indent {
        return Prefix {
            end: margin,
            indented: false,
        };
    }
    Prefix {
        end: white_end(text, margin),
        indented: true,
    }
}

/// Returns why no fold begins with the break at `at`, and the start of the line at fault: the first line after it that
/// is not empty. No contract says this: it only helps the person who writes the text.
pub(crate) fn fold_fault(text: &str, at: usize) -> ScanFault
    requires { IsCharBoundary text.now at }
{
    let mut line = at;
    'lines: loop {
        let prefix = white_end(text, line);
        if let Some(next) = break_end(text, prefix) {
            line = next;
            continue;
        }
        let why = if prefix == text.len() {
            Why::Quote
        } else if is_marker(text, line) {
            Why::Marker
        } else {
            Why::Indent
        };
        return ScanFault::At { at: line, why };
    }
}

/// The most bytes that a value over lines gets room for at first, beyond its first line.
const FURTHER_ROOM: usize = 512;

/// Returns how many bytes a value gets room for at first: for eight lines as long as the first, which has this length.
pub(crate) fn first_room(line: usize) -> usize {
    line.saturating_add(line.saturating_mul(7).min(FURTHER_ROOM))
}

/// Appends the text of a line to a value. One that has no room at all gets room for further lines too.
pub(crate) fn push_line(value: &mut String, line: &str) -> Result<(), AllocError>
    ensures { OnOk result (string_bytes value.new ≡ string_bytes value.old ++ line.now) }
{
    if value.capacity() == 0 {
        value.reserve(first_room(line.len()))?;
    }
    value.push_str(line)
}

/// Appends what a fold means: a space, or a line feed for each empty line.
pub(crate) fn push_fold(value: &mut String, empties: usize) -> Result<(), AllocError>
    ensures { OnOk result (string_bytes value.new ≡ string_bytes value.old
        ++ folded_break empties) }
{
    if empties == 0 {
        return value.push(' ');
    }
    push_line_feeds(value, empties)
}

/// Returns where the whitespace that ends at `end` starts, but no place before `from`.
pub(crate) fn white_start(text: &str, from: usize, end: usize) -> usize
    requires order { from ≤ end }
    requires from { IsCharBoundary text.now from }
    requires end { IsCharBoundary text.now end }
    ensures { IsWhiteStart text.now from result end }
{
    let bytes = text.as_bytes();
    let mut start = end;
    // Before most ends no whitespace is: a byte above the space says so at once.
    while start > from && bytes[start - 1] <= b' ' && is_white(bytes[start - 1]) {
        start -= 1;
    }
    start
}
