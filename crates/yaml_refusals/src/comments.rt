// The comments of a text (YAML 1.2.2, 6.6).
ghost use Rattle.std.specs.Prelude.{◌≤◌, IfOk, IfErr, MatchOption, length};
ghost use Rattle.yaml_events.specs.Meant.{events_of, style_of};
ghost use Rattle.yaml_recognizers.specs.Ranges.{RangesInOrder};
ghost use Rattle.yaml_config.specs.Limits.{config_limits};
ghost use Rattle.yaml_docs.specs.Reading.{RefusesBytes};
ghost use Rattle.yaml_refusals.specs.Comments.{HasComment, HasNoComment, IsFirstComment, IsFirstMark, IsLineEnd, IsTextStart};

use std::alloc::Global;
use yaml_docs::{Place, events, place_at};
use yaml_events::{EventRef, Events, Span, Style};
use yaml_tree::{Limits, ReadFault};

/// Returns the place of the first comment of a text, and `None` if it has none. The one style has no comments, so this
/// is what the text loses where it is replaced by that of its tree.
///
/// A comment begins with a `#` outside of every scalar, or on the line of a `|` or `>` (YAML 1.2.2, 6.6 and 8.1.1). No
/// contract says which line and column a place has.
///
/// # Errors
///
/// Those of [`events`] for a text of a configuration ([`Limits::CONFIGURATION`]): it is too long, no UTF-8, or
/// malformed, or memory ran out.
pub fn first_comment(alloc: Global, bytes: &[u8]) -> Result<Option<Place>, ReadFault>
    ensures found { IfOk result (λ place.
        MatchOption place (HasNoComment bytes.now) (λ _. HasComment bytes.now)) }
    ensures refused { IfErr result (RefusesBytes bytes.now config_limits.bytes) }
{
    let events = match events(alloc, bytes, Limits::CONFIGURATION.bytes) {
        Ok(events) => events,
        Err(fault) => return Err(fault),
    };
    match comment_start(bytes, &events) {
        Some(at) => Ok(Some(place_in(bytes, at))),
        None => Ok(None),
    }
}

/// The byte of a text, from 0, at which its first comment begins. `events` are those of the text.
fn comment_start(bytes: &[u8], events: &Events<'_>) -> Option<usize>
    requires { RangesInOrder 0 (events_of events.now) (length bytes.now) }
    ensures { IsFirstComment bytes.now (events_of events.now) result }
{
    let mut from = 0;
    for event in events.iter() {
        let EventRef::Scalar { style, span, .. } = event else {
            continue;
        };
        let start = text_start(bytes, style, span);
        if let Some(at) = first_mark(bytes, from, start) {
            return Some(at);
        }
        from = span.end;
    }
    first_mark(bytes, from, bytes.len())
}

/// The byte of a text, from 0, at which a scalar's own text begins: that of a block scalar begins behind the line of
/// its
/// `|` or `>`.
fn text_start(bytes: &[u8], style: Style, span: Span) -> usize
    requires ordered { span.start ≤ span.end }
    requires within { span.end ≤ length bytes.now }
    ensures { IsTextStart bytes.now (style_of style) span.start span.end result }
{
    match style {
        Style::Literal | Style::Folded => line_end(bytes, span.start, span.end),
        Style::Plain | Style::Single | Style::Double | Style::Omitted => span.start,
    }
}

/// The first LF or CR from one byte of a text up to another, both from 0; the latter if there is none.
fn line_end(bytes: &[u8], from: usize, to: usize) -> usize
    requires ordered { from ≤ to }
    requires within { to ≤ length bytes.now }
    ensures { IsLineEnd bytes.now from to result }
{
    for at in from..to {
        if matches!(bytes[at], b'\n' | b'\r') {
            return at;
        }
    }
    to
}

/// The first `#` from one byte of a text up to another, both from 0.
fn first_mark(bytes: &[u8], from: usize, to: usize) -> Option<usize>
    requires { to ≤ length bytes.now }
    ensures { IsFirstMark bytes.now from to result }
{
    for at in from..to {
        if bytes[at] == b'#' {
            return Some(at);
        }
    }
    None
}

/// The place of a byte of a text that was read.
fn place_in(bytes: &[u8], at: usize) -> Place {
    place_at(str::from_utf8(bytes).unwrap_or_default(), at)
}
