// What an event adds to the text of a document in the one style.
ghost use Rattle.std.specs.Prelude.{◌≡◌, ◌+◌, ◌^◌, ◌<◌, List, ◌∷◌, OnOk};
ghost use Rattle.yaml_tree.specs.Prelude.{chars, event_of, IsText, shape};
ghost use Rattle.yaml_tree.specs.Kept.{no_tree};
ghost use Rattle.yaml_tree.specs.OpenParts.{open_frame, open_frames, map_frame};
ghost use Rattle.yaml_tree.specs.Frames.{Frame, awaits_value};
ghost use Rattle.yaml_tree.specs.OpenText.{indent_in, line_start, empty_line, dash, scalar_in, seq_end, map_end, added, BringsText};

use crate::kept::Emptiness;
use crate::parts::{OpenMap, Part};
use yaml_events::Event;
use yaml_writer::{Sink, write_key, write_scalar, write_text};

/// Writes what an event adds to the text of a document whose open parts are these. `indent` is the indentation of a
/// collection that is opened inside them. An event that has no place there may add anything.
pub(crate) fn write_event<S: Sink>(
    parts: &[Part<(), Emptiness>],
    indent: u64,
    event: &Event<'_>,
    sink: &mut S,
) -> Result<(), S::Fault>
    requires indent { indent ≡ indent_in (open_frames parts.now) }
    requires room { indent + 2 < 2 ^ 64 }
    ensures lines { OnOk result (S.Takes sink.old
        (added (open_frames parts.now) (shape (event_of event.now))) sink.new) }
    ensures text { BringsText (open_frames parts.now) (shape (event_of event.now)) }
{
    let Some((innermost, outer)) = parts.split_last() else {
        return Ok(());
    };
    let indent = own_indent(innermost, indent);
    match event {
        Event::DocStart | Event::SeqStart | Event::MapStart => {
            write_dash(innermost, outer, indent, sink)
        }
        Event::DocEnd => Ok(()),
        Event::SeqEnd => write_seq_end(innermost, outer, sink),
        Event::MapEnd => write_map_end(innermost, outer, sink),
        Event::Scalar { value, .. } => {
            write_scalar_in(value.as_str(), innermost, outer, indent, sink)
        }
    }
}

/// The indentation of a part's lines, by that of a collection inside it.
fn own_indent(part: &Part<(), Emptiness>, indent: u64) -> u64
    ensures { (fs : List Frame) → indent ≡ indent_in (open_frame part.now ∷ fs)
        → result ≡ indent_in fs }
{
    match part {
        Part::Document | Part::Root(_) | Part::Whole(_) => indent,
        Part::Seq(_) | Part::Map(_) => indent.saturating_sub(2),
    }
}

/// Whether the value of a key is next in the last one of these parts.
fn awaits_value(parts: &[Part<(), Emptiness>]) -> bool
    ensures { result ≡ awaits_value (open_frames parts.now) }
{
    match parts.split_last() {
        Some((innermost, _)) => awaits_value_in(innermost),
        None => false,
    }
}

/// Whether a part is a mapping in which the value of a key is next.
fn awaits_value_in(part: &Part<(), Emptiness>) -> bool
    ensures { (fs : List Frame) → result ≡ awaits_value (open_frame part.now ∷ fs) }
{
    match part {
        Part::Map(map) => map.awaits_value,
        Part::Document | Part::Root(_) | Part::Whole(_) | Part::Seq(_) => false,
    }
}

/// Writes what comes before a line of a collection at `indent`. The first line continues the line on which the
/// collection starts, except after a key, where it is a line of its own.
fn write_line_start<S: Sink>(
    is_first: bool,
    outer: &[Part<(), Emptiness>],
    indent: u64,
    sink: &mut S,
) -> Result<(), S::Fault>
    requires { indent ≡ indent_in (open_frames outer.now) }
    ensures { OnOk result
        (S.Takes sink.old (line_start is_first (open_frames outer.now)) sink.new) }
{
    if !is_first {
        return sink.put_spaces(indent);
    }
    if !awaits_value(outer) {
        return Ok(());
    }
    sink.put_char('\n')?;
    sink.put_spaces(indent)
}

/// Writes what comes before an element, with its `- `, if the innermost part is a sequence; else nothing.
fn write_dash<S: Sink>(
    innermost: &Part<(), Emptiness>,
    outer: &[Part<(), Emptiness>],
    indent: u64,
    sink: &mut S,
) -> Result<(), S::Fault>
    requires { indent ≡ indent_in (open_frames outer.now) }
    ensures { OnOk result (S.Takes sink.old
        (dash (open_frame innermost.now) (open_frames outer.now)) sink.new) }
{
    match innermost {
        Part::Seq(items) => {
            write_line_start(items.is_empty, outer, indent, sink)?;
            sink.put_text("- ")
        }
        Part::Document | Part::Root(_) | Part::Whole(_) | Part::Map(_) => Ok(()),
    }
}

/// Writes a scalar that comes into the innermost part: a value, or a key.
fn write_scalar_in<S: Sink>(
    text: &str,
    innermost: &Part<(), Emptiness>,
    outer: &[Part<(), Emptiness>],
    indent: u64,
    sink: &mut S,
) -> Result<(), S::Fault>
    requires indent { indent ≡ indent_in (open_frames outer.now) }
    requires room { indent + 2 < 2 ^ 64 }
    ensures lines { OnOk result (S.Takes sink.old
        (scalar_in (open_frame innermost.now) (open_frames outer.now) (chars text.now)) sink.new) }
    ensures text { IsText (chars text.now) }
{
    match innermost {
        Part::Document => write_scalar(text, indent + 2, sink),
        Part::Root(_) | Part::Whole(_) => Ok(()),
        Part::Seq(_) => {
            write_dash(innermost, outer, indent, sink)?;
            write_scalar(text, indent + 2, sink)
        }
        Part::Map(map) => write_in_map(text, map, outer, indent, sink),
    }
}

/// Writes a scalar that comes into a mapping: a key with its `:`, or its value.
fn write_in_map<S: Sink>(
    text: &str,
    map: &OpenMap<()>,
    outer: &[Part<(), Emptiness>],
    indent: u64,
    sink: &mut S,
) -> Result<(), S::Fault>
    requires indent { indent ≡ indent_in (open_frames outer.now) }
    requires room { indent + 2 < 2 ^ 64 }
    ensures { OnOk result (S.Takes sink.old
        (scalar_in (map_frame no_tree map.now) (open_frames outer.now) (chars text.now)) sink.new) }
{
    if map.awaits_value {
        return write_text(text, indent, sink);
    }
    write_line_start(map.pairs.is_empty(), outer, indent, sink)?;
    write_key(text, indent, sink)
}

/// Writes what the end of a sequence adds: `[]` if it is empty, else nothing.
fn write_seq_end<S: Sink>(
    innermost: &Part<(), Emptiness>,
    outer: &[Part<(), Emptiness>],
    sink: &mut S,
) -> Result<(), S::Fault>
    ensures { OnOk result (S.Takes sink.old
        (seq_end (open_frame innermost.now) (open_frames outer.now)) sink.new) }
{
    let Part::Seq(items) = innermost else {
        return Ok(());
    };
    if !items.is_empty {
        return Ok(());
    }
    write_empty("[]\n", outer, sink)
}

/// Writes what the end of a mapping adds: `{}` if it is empty, else nothing.
fn write_map_end<S: Sink>(
    innermost: &Part<(), Emptiness>,
    outer: &[Part<(), Emptiness>],
    sink: &mut S,
) -> Result<(), S::Fault>
    ensures { OnOk result (S.Takes sink.old
        (map_end (open_frame innermost.now) (open_frames outer.now)) sink.new) }
{
    let Part::Map(map) = innermost else {
        return Ok(());
    };
    if map.awaits_value {
        return Ok(());
    }
    if !map.pairs.is_empty() {
        return Ok(());
    }
    write_empty("{}\n", outer, sink)
}

/// Writes an empty collection, with a space before it after a key.
fn write_empty<S: Sink>(
    brackets: &str,
    outer: &[Part<(), Emptiness>],
    sink: &mut S,
) -> Result<(), S::Fault>
    ensures { OnOk result (S.Takes sink.old
        (empty_line (chars brackets.now) (open_frames outer.now)) sink.new) }
{
    if !awaits_value(outer) {
        return sink.put_text(brackets);
    }
    sink.put_char(' ')?;
    sink.put_text(brackets)
}
