//! Lines of one key each, as the one style writes them, read without the general reader.
//!
//! A line is a key with its `: `, and a value. [`cut_line`] takes the first line of a text off. Each function is exact
//! where it answers. Where it doesn't, the general reader may still read the value.
ghost use Rattle.std.specs.Prelude.{◌≡◌, ◌++◌, ◌∷◌, ℕ, List, IfOk, IfSome};
ghost use Rattle.conf_record.specs.Prelude.{chars, line_feed, double_quote, text, tree_of};
ghost use Rattle.conf_record.specs.LineValues.{IsValueLine};
ghost use Rattle.conf_record.specs.Written.{IsLineOf, IsNameLine, IsPathLine};

use conf_state::good_name;
use json_pointer::is_pointer;
use memchr::memchr;
use std::alloc::{AllocError, Global};
use yaml_tree::{Config, Limits, ScalarStyle, Size, Text, Tree, value_style};
use yaml_writer::stand_alone;

/// What is after a key that the lines begin with, up to the end of that line, and the lines after it. `None` if the
/// lines begin otherwise, or have no line feed after the key.
pub fn cut_line<'t>(lines: &'t str, key: &str) -> Option<(&'t str, &'t str)>
    ensures { IfSome result (λ cut. lines.now
        ≡ key.now ++ (cut.0.now ++ line_feed ∷ cut.1.now)) }
{
    let value = lines.strip_prefix(key)?;
    split_line(value)
}

/// The first line, and what comes after its line feed. `None` if there is no line feed.
fn split_line(text: &str) -> Option<(&str, &str)>
    ensures { IfSome result (λ cut. text.now ≡ cut.0.now ++ line_feed ∷ cut.1.now) }
{
    let at = memchr(b'\n', text.as_bytes())?;
    Some((&text[..at], &text[at + 1..]))
}

/// The text that the one style writes as this line after a key, after whatever indentation. The line is without its
/// line feed. The text is not read if it is written with an escape, on several lines, or in quotes with a character
/// that is not ASCII.
fn line_text(line: &str) -> Option<&str>
    ensures { IfSome result (λ text. IsLineOf line.now (chars text.now)) }
{
    match line.strip_prefix('"') {
        Some(quoted) => quoted_text(quoted),
        None => plain_text(line),
    }
}

/// The text that is written as this line, as it is.
fn plain_text(line: &str) -> Option<&str>
    ensures { IfSome result (λ text. IsLineOf line.now (chars text.now)) }
{
    match value_style(line) {
        ScalarStyle::Plain => Some(line),
        _ => None,
    }
}

/// The text that is written in double quotes, as this after the first of them.
fn quoted_text(quoted: &str) -> Option<&str>
    ensures { IfSome result (λ text. IsLineOf (double_quote ∷ quoted.now) (chars text.now)) }
{
    let text = quoted.strip_suffix('"')?;
    if !stand_alone(text.as_bytes()) {
        return None;
    }
    match value_style(text) {
        ScalarStyle::Double => Some(text),
        _ => None,
    }
}

/// A text that is a value on one line.
#[derive(Clone, Copy)]
pub(crate) struct LineValue<'t> {
    /// The text.
    pub(crate) text: &'t str,
    /// How many bytes the line has with its line feed.
    pub(crate) bytes: usize,
}

/// The value that is written as this line after a key, as for [`line_text`]. The line has to have fewer than 4,194,304
/// bytes.
pub(crate) fn value_on(line: &str) -> Option<LineValue<'_>>
    ensures { IfSome result (IsValueLine line.now) }
{
    if line.len() as u64 >= Limits::CONFIGURATION.style {
        return None;
    }
    let text = line_text(line)?;
    let bytes = line.len() + 1;
    Some(LineValue { text, bytes })
}

/// The name that is written as this line after a key, if it is good.
pub(crate) fn name_on(line: &str) -> Option<&str>
    ensures { IfSome result (λ name. IsNameLine line.now (chars name.now)) }
{
    let name = line_text(line)?;
    if !good_name(name) {
        return None;
    }
    Some(name)
}

/// The path (RFC 6901) that is written as this line after a key. It has at most 8,388,608 bytes, twice those of a
/// configuration.
pub(crate) fn path_on(line: &str) -> Option<&str>
    ensures { IfSome result (λ path. IsPathLine line.now (chars path.now)) }
{
    let path = line_text(line)?;
    if path.len() as u64 > 2 * Limits::CONFIGURATION.style || !is_pointer(path) {
        return None;
    }
    Some(path)
}

/// The configuration that is such a value. Its length is not counted. It fails only if memory runs out.
pub(crate) fn made_value(alloc: Global, value: LineValue<'_>) -> Result<Config, AllocError>
    requires { (line : List ℕ) × IsValueLine line value }
    ensures { IfOk result (λ config. tree_of config ≡ text (chars value.entry.text.now)) }
{
    let size = Size {
        bytes: value.bytes as u128,
        lines: 0,
    };
    let copy = Text::new(alloc, value.text)?;
    Ok(Config::with_size(Tree::Text(copy), size))
}
