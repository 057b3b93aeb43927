// Keys and scalars, written in the one style with comments.
ghost use Rattle.std.specs.Prelude.{◌≡◌, ◌+◌, ◌<◌, ◌^◌, true, OnOk};
ghost use Rattle.std.specs.Str.{chars};
ghost use Rattle.yaml_grammar.specs.Style.{long_key, literal_mark, feeds_at_end};
ghost use Rattle.comments_kept.specs.Laid as laid;
ghost use Rattle.comments_kept.specs.Laid.{ends_blank};
ghost use Rattle.comments_kept.specs.Weaving.{WovenKey, WovenScalar, WroteBelow, WroteLiteral};

use crate::literal::write_literal_lines;
use crate::long_key::{is_long_key, write_key_text};
use crate::weaver::Weaver;
use std::alloc::AllocError;
use yaml_writer::{ScalarStyle, Sink, value_style, write_quoted};

/// Writes a text as a value in a collection at `indent`, with the end of its last line and the comments there.
pub(crate) fn weave_scalar(
    text: &str,
    indent: u64,
    weaver: &mut Weaver<'_>,
) -> Result<(), AllocError>
    requires { indent + 2 < 2 ^ 64 }
    ensures { OnOk result (WovenScalar (chars text.now) indent weaver.old weaver.new) }
{
    match value_style(text) {
        ScalarStyle::Plain => {
            weaver.put_text(text)?;
            weaver.end_line()
        }
        ScalarStyle::Double => {
            write_quoted(text, weaver)?;
            weaver.end_line()
        }
        ScalarStyle::LiteralStrip => {
            weave_literal("|-", text, indent, weaver)?;
            put_below(text, indent, weaver)
        }
        ScalarStyle::LiteralClip => {
            weave_literal("|", text, indent, weaver)?;
            put_below(text, indent, weaver)
        }
        ScalarStyle::LiteralKeep => {
            weave_literal("|+", text, indent, weaver)?;
            weaver.put_filled_lines(indent)
        }
    }
}

/// Writes what is below a literal that keeps at most one line feed at its end. Behind a blank line of its body an empty
/// line would not be told from that, so that there is none.
fn put_below(text: &str, indent: u64, weaver: &mut Weaver<'_>) -> Result<(), AllocError>
    ensures { OnOk result (WroteBelow (ends_blank text.now) indent weaver.old weaver.new) }
{
    if is_blank_at_end(text.as_bytes()) {
        return weaver.put_filled_lines(indent);
    }
    weaver.put_lines(indent)
}

/// A line of a text.
#[derive(Clone, Copy)]
pub(crate) struct Line {
    /// Whether the line before it has only spaces.
    last: bool,
    /// Whether it has only spaces so far.
    blank: bool,
    /// Whether nothing of it came so far.
    fed: bool,
}

/// Whether the last line of a literal's body has only spaces.
fn is_blank_at_end(text: &[u8]) -> bool
    ensures { result ≡ ends_blank text.now }
{
    let mut line = Line {
        last: true,
        blank: true,
        fed: true,
    };
    for byte in text {
        line = line_after(line, *byte);
    }
    if line.fed { line.last } else { line.blank }
}

/// The line behind one more byte.
fn line_after(line: Line, byte: u8) -> Line
    ensures { result ≡ laid.line_after line byte }
{
    if byte == b'\n' {
        return Line {
            last: line.blank,
            blank: true,
            fed: true,
        };
    }
    Line {
        last: line.last,
        blank: line.blank && byte == b' ',
        fed: false,
    }
}

/// Writes a literal: its header with the comment that is behind it, and its lines after two spaces more than `indent`.
fn weave_literal(
    header: &str,
    text: &str,
    indent: u64,
    weaver: &mut Weaver<'_>,
) -> Result<(), AllocError>
    requires room { indent + 2 < 2 ^ 64 }
    requires header { chars header.now ≡ literal_mark (feeds_at_end (chars text.now)) }
    ensures { OnOk result (WroteLiteral (chars text.now) indent weaver.old weaver.new) }
{
    weaver.put_text(header)?;
    weaver.end_header()?;
    write_literal_lines(text, indent + 2, weaver)
}

/// Writes a key in a mapping at `indent` through its `:`, with the comments behind a long key and below.
pub(crate) fn weave_key(key: &str, indent: u64, weaver: &mut Weaver<'_>) -> Result<(), AllocError>
    ensures { OnOk result (WovenKey (chars key.now) indent weaver.old weaver.new) }
{
    if is_long_key(key) {
        return weave_long_key(key, indent, weaver);
    }
    write_key_text(key, weaver)?;
    weaver.put_char(':')
}

/// Writes a long key after `? `, and its `:` on the next line of the tree.
fn weave_long_key(key: &str, indent: u64, weaver: &mut Weaver<'_>) -> Result<(), AllocError>
    requires { long_key (chars key.now) ≡ true }
    ensures { OnOk result (WovenKey (chars key.now) indent weaver.old weaver.new) }
{
    weaver.put_text("? ")?;
    write_key_text(key, weaver)?;
    weaver.end_line()?;
    weaver.put_spaces(indent)?;
    weaver.put_char(':')
}
