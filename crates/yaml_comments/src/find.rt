// The comments of a text, found between its scalars.
ghost use Rattle.std.specs.Prelude.{◌≡◌, ◌≤◌, IfOk, length};
ghost use Rattle.yaml_events.specs.Meant.{events_of, style_of};
ghost use Rattle.yaml_recognizers.specs.Ranges.{RangesInOrder};
ghost use Rattle.yaml_comments.specs.Outside.{IsLineEnd, IsTextStart};
ghost use Rattle.yaml_comments.specs.Comments.{AreComments, IsGapAdded};
ghost use Rattle.yaml_comments.specs.Found.{places_of};

use std::alloc::{AllocError, Global};
use yaml_events::{EventRef, Events, Span, Style};

/// The range of a comment: from its `#` up to the end of its line, in bytes from 0.
#[derive(Clone, Copy, Debug, PartialEq, Eq)]
pub struct Comment {
    pub start: usize,
    pub end: usize,
}

/// Returns the comments of a text whose events these are, in order. It fails only if there is no memory.
pub fn comments_of(
    alloc: Global,
    bytes: &[u8],
    events: &Events<'_>,
) -> Result<Vec<Comment>, AllocError>
    requires { RangesInOrder 0 (events_of events.now) (length bytes.now) }
    ensures { IfOk result (λ found.
        AreComments bytes.now (events_of events.now) 0 (places_of found.items)) }
{
    let mut found = Vec::new(alloc);
    let mut from = 0;
    for event in events.iter() {
        let EventRef::Scalar { style, span, .. } = event else {
            continue;
        };
        let start = text_start(bytes, style, span);
        let next = push_gap(&mut found, bytes, from, start)?;
        from = next.max(span.end);
    }
    let _next = push_gap(&mut found, bytes, from, bytes.len())?;
    Ok(found)
}

/// Adds the comments from one byte of a text up to another, and returns where the search goes on: behind the last of
/// them, and not before the latter.
fn push_gap(
    found: &mut Vec<Comment>,
    bytes: &[u8],
    from: usize,
    to: usize,
) -> Result<usize, AllocError>
    requires { to ≤ length bytes.now }
    ensures { IfOk result (λ next.
        IsGapAdded bytes.now from to (places_of found.old.items) (places_of found.new.items) next) }
{
    let mut at = from;
    while at < to {
        if bytes[at] == b'#' {
            let end = line_end(bytes, at, bytes.len());
            found.push(Comment { start: at, end })?;
            at = end;
        } else {
            at += 1;
        }
    }
    Ok(at)
}

/// The byte of a text, from 0, at which a scalar's own text begins: that of a block scalar begins behind the line of
/// its `|` or `>`.
fn text_start(bytes: &[u8], style: Style, span: Span) -> usize
    requires ordered { span.start ≤ span.end }
    requires within { span.end ≤ length bytes.now }
    ensures { IsTextStart bytes.now (style_of style) span.start span.end result }
{
    match style {
        Style::Literal | Style::Folded => line_end(bytes, span.start, span.end),
        Style::Plain | Style::Single | Style::Double | Style::Omitted => span.start,
    }
}

/// The first LF or CR from one byte of a text up to another, both from 0; the latter if there is none.
fn line_end(bytes: &[u8], from: usize, to: usize) -> usize
    requires ordered { from ≤ to }
    requires within { to ≤ length bytes.now }
    ensures { IsLineEnd bytes.now from to result }
{
    for at in from..to {
        if matches!(bytes[at], b'\n' | b'\r') {
            return at;
        }
    }
    to
}
