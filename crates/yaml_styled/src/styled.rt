// What callers read: a value, a text, a key.
ghost use Rattle.std.specs.Prelude.{◌≡◌, ◌+◌, ◌-◌, ◌*◌, ◌^◌, ◌<◌, length, IfOk};
ghost use Rattle.yaml_styled.specs.Prelude.{chars, key_lines, style_text, value_at};
ghost use Rattle.yaml_data.specs.TextBytes.{text_bytes};
ghost use Rattle.yaml_styled.specs.Comparing.{GoesOn};
ghost use Rattle.yaml_styled.specs.Parts.{IsTree, IsAny};
ghost use Rattle.yaml_styled.specs.Styles.{IsStyled};

use crate::build::{Build, Skipped};
use crate::flat::read_flat;
use crate::guess::begins_collection;
use crate::keys::take_key;
use crate::lines::Lines;
use crate::miss::Miss;
use crate::open_keys::OpenKeys;
use crate::read::{read_below, read_beside, read_rows};
use std::alloc::Global;
use yaml_data::{Text, Tree};
use yaml_writer::Size;

/// The greatest depth of what is read.
pub const MOST_DEPTH: u64 = 128;

/// By how many levels a collection may be deeper than a text.
const MOST_LEVELS: u64 = MOST_DEPTH - 1;

/// What was read of lines.
#[derive(Debug, Drop)]
pub struct Styled<'t, V> {
    /// What was made of it: the tree, or nothing.
    pub value: V,
    /// Its size as an element of a sequence, after the `- `.
    pub size: Size,
    /// What comes after it.
    pub rest: &'t str,
}

/// Reads the value after the `:` of its key, whose line is indented by `indent` spaces, from lines that begin with it.
/// The lines are those of the value in the one style, to the byte. In each of its mappings the keys differ, and it is
/// at most [`MOST_DEPTH`] deep.
///
/// # Errors
///
/// [`Miss::OtherForm`] if the lines begin otherwise, or in a form that is not read, as an escape that is seldom used;
/// [`Miss::OutOfMemory`] if memory runs out.
pub fn read_value(alloc: Global, lines: &str, indent: u64) -> Result<Styled<'_, Tree>, Miss>
    requires room { indent + 2 * MOST_DEPTH + 6 < 2 ^ 64 }
    ensures { IfOk result (λ read. IsStyled (λ t. IsTree read.value t) (λ t. value_at t indent)
        read.size lines.now read.rest.now) }
{
    styled_value(alloc, lines, indent)
}

/// Reads as [`read_value`] does, and makes nothing of it. It takes memory for the keys of the mappings that are open.
///
/// # Errors
///
/// As for [`read_value`].
pub fn skip_value(alloc: Global, lines: &str, indent: u64) -> Result<Styled<'_, Skipped>, Miss>
    requires room { indent + 2 * MOST_DEPTH + 6 < 2 ^ 64 }
    ensures { IfOk result (λ read. IsStyled (λ t. IsAny read.value t) (λ t. value_at t indent)
        read.size lines.now read.rest.now) }
{
    styled_value(alloc, lines, indent)
}

/// Reads a whole text in the one style, or as much of the text as is one. The rest is empty unless the text goes on.
///
/// # Errors
///
/// As for [`read_value`].
pub fn read_styled(alloc: Global, text: &str) -> Result<Styled<'_, Tree>, Miss>
    ensures { IfOk result (λ read. IsStyled (λ t. IsTree read.value t) style_text
        read.size text.now read.rest.now) }
{
    styled_text(alloc, text)
}

/// Reads as [`read_styled`] does, and makes nothing of it.
///
/// # Errors
///
/// As for [`read_value`].
pub fn skip_styled(alloc: Global, text: &str) -> Result<Styled<'_, Skipped>, Miss>
    ensures { IfOk result (λ read. IsStyled (λ t. IsAny read.value t) style_text
        read.size text.now read.rest.now) }
{
    styled_text(alloc, text)
}

/// Reads a key through its `:`, and gives what comes after it. The spaces before its line are not among the lines.
///
/// # Errors
///
/// As for [`read_value`].
pub fn read_key(alloc: Global, lines: &str, indent: u64) -> Result<(Text, &str), Miss>
    ensures { IfOk result (λ read. GoesOn lines.now
        (key_lines indent (chars (text_bytes read.0))) read.1.now) }
{
    let mut left = Lines::new(lines);
    let key = take_key(&mut left, indent)?;
    let text = Text::new(alloc, key)?;
    Ok((text, left.rest()))
}

/// Reads a value after the `:` of its key.
fn styled_value<V: Build>(alloc: Global, text: &str, indent: u64) -> Result<Styled<'_, V>, Miss>
    requires room { indent + 2 * MOST_DEPTH + 6 < 2 ^ 64 }
    ensures { IfOk result (λ read. IsStyled (V.Means read.value) (λ t. value_at t indent)
        read.size text.now read.rest.now) }
{
    if text.starts_with(' ') {
        styled_beside(alloc, text, indent)
    } else {
        styled_below(alloc, text, indent)
    }
}

/// Reads a value on the line of its key.
fn styled_beside<V: Build>(alloc: Global, text: &str, indent: u64) -> Result<Styled<'_, V>, Miss>
    requires room { indent + 2 < 2 ^ 64 }
    ensures { IfOk result (λ read. IsStyled (V.Means read.value) (λ t. value_at t indent)
        read.size text.now read.rest.now) }
{
    let mut lines = Lines::new(text);
    let value = read_beside(alloc, &mut lines, indent)?;
    let size = size_beside(at_margin(text, &lines, indent), lines.counted());
    Ok(Styled {
        value,
        size,
        rest: lines.rest(),
    })
}

/// Reads a value below its key.
fn styled_below<V: Build>(alloc: Global, text: &str, indent: u64) -> Result<Styled<'_, V>, Miss>
    requires room { indent + 2 * MOST_DEPTH + 6 < 2 ^ 64 }
    ensures { IfOk result (λ read. IsStyled (V.Means read.value) (λ t. value_at t indent)
        read.size text.now read.rest.now) }
{
    let mut lines = Lines::new(text);
    let mut keys = OpenKeys::new(alloc);
    let mut pending = V::nothing_pending(alloc);
    let value = read_below(
        alloc,
        &mut lines,
        &mut keys,
        &mut pending,
        indent,
        MOST_LEVELS,
    )?;
    let size = size_below(at_margin(text, &lines, indent), lines.counted());
    Ok(Styled {
        value,
        size,
        rest: lines.rest(),
    })
}

/// How many bytes were taken off a text, without the indentation of the lines that were counted.
fn at_margin(text: &str, lines: &Lines<'_>, indent: u64) -> u128
    ensures bytes { result
        ≡ length text.now - length lines.now.rest.now - indent * lines.now.counted }
    ensures small { result < 2 ^ 64 }
{
    let taken = text.len().saturating_sub(lines.rest().len());
    let spaces = u128::from(indent) * u128::from(lines.counted());
    (taken as u128).saturating_sub(spaces)
}

/// The size as an element of a value that was beside its key, from its bytes there without indentation.
fn size_beside(bytes: u128, lines: u64) -> Size
    ensures bytes { result.bytes ≡ bytes - 1 }
    ensures lines { result.lines ≡ lines }
{
    Size {
        bytes: bytes.saturating_sub(1),
        lines: u128::from(lines),
    }
}

/// The size as an element of a value that was below its key, from its bytes there without indentation.
fn size_below(bytes: u128, lines: u64) -> Size
    ensures bytes { result.bytes ≡ bytes - 3 }
    ensures lines { result.lines ≡ lines - 1 }
{
    Size {
        bytes: bytes.saturating_sub(3),
        lines: u128::from(lines.saturating_sub(1)),
    }
}

/// Reads a whole text.
fn styled_text<V: Build>(alloc: Global, text: &str) -> Result<Styled<'_, V>, Miss>
    ensures { IfOk result (λ read. IsStyled (V.Means read.value) style_text
        read.size text.now read.rest.now) }
{
    if begins_collection(text) {
        styled_rows(alloc, text)
    } else {
        styled_flat(alloc, text)
    }
}

/// Reads a text that is a collection with rows.
fn styled_rows<V: Build>(alloc: Global, text: &str) -> Result<Styled<'_, V>, Miss>
    ensures { IfOk result (λ read. IsStyled (V.Means read.value) style_text
        read.size text.now read.rest.now) }
{
    let mut lines = Lines::new(text);
    let mut keys = OpenKeys::new(alloc);
    let mut pending = V::nothing_pending(alloc);
    let value = read_rows(alloc, &mut lines, &mut keys, &mut pending, 0, MOST_LEVELS)?;
    let size = size_of_rows(at_margin(text, &lines, 0), lines.counted());
    Ok(Styled {
        value,
        size,
        rest: lines.rest(),
    })
}

/// Reads a text that is no collection with rows.
fn styled_flat<V: Build>(alloc: Global, text: &str) -> Result<Styled<'_, V>, Miss>
    ensures { IfOk result (λ read. IsStyled (V.Means read.value) style_text
        read.size text.now read.rest.now) }
{
    let mut lines = Lines::new(text);
    let value = read_flat(alloc, &mut lines, 2)?;
    let size = Size {
        bytes: at_margin(text, &lines, 0),
        lines: u128::from(lines.counted()),
    };
    Ok(Styled {
        value,
        size,
        rest: lines.rest(),
    })
}

/// The size as an element of a collection with rows, from its bytes at the margin.
fn size_of_rows(bytes: u128, lines: u64) -> Size
    requires { bytes < 2 ^ 100 }
    ensures bytes { result.bytes ≡ bytes + 2 * lines }
    ensures lines { result.lines ≡ lines }
{
    let lines = u128::from(lines);
    Size {
        bytes: bytes + 2 * lines,
        lines,
    }
}
