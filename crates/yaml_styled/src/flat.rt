// Values that begin and end without lines of rows: texts, and collections that hold nothing.
ghost use Rattle.std.specs.Prelude.{◌≡◌, ◌≤◌, ℕ, IfOk, OnOk, false};
ghost use Rattle.yaml_styled.specs.Prelude.{chars, scalar_lines, indented, indented_scalar_lines, is_filled};
ghost use Rattle.yaml_styled.specs.Taking.{Took};
ghost use Rattle.yaml_styled.specs.Parts.{lines_of, IsRead};

use crate::build::Build;
use crate::guess::{guessed_line, guessed_literal, unescaped};
use crate::lines::Lines;
use crate::miss::Miss;
use crate::words::{split_plain, split_quoted};
use memchr::memchr;
use std::alloc::Global;
use yaml_data::{Text, Tree};
use yaml_writer::{ScalarStyle, Sink, Size, value_style, write_quoted, write_scalar};

/// The most bytes of a text with its lines.
const MOST_BYTES: usize = 67_108_864;

/// Reads a value that is no collection with rows. The lines of a literal come after `indent` spaces.
pub(crate) fn read_flat<V: Build>(
    alloc: Global,
    lines: &mut Lines<'_>,
    indent: u64,
) -> Result<V, Miss>
    requires { 2 ≤ indent }
    ensures { IfOk result (λ made. IsRead (λ t. V.Means made t × (is_filled t ≡ false))
        (λ t. lines_of t indent) indented 1
        lines.old.rest.now lines.old.counted lines.new.rest.now lines.new.counted) }
{
    match lines.first() {
        Some(b'"') => read_quoted(alloc, lines, indent),
        Some(b'|') => {
            let text = guessed_literal(alloc, lines.rest(), indent)?;
            read_own_text(lines, text, indent)
        }
        Some(b'[') => read_empty_sequence(alloc, lines, indent),
        Some(b'{') => read_empty_mapping(alloc, lines, indent),
        _ => read_plain(alloc, lines, indent),
    }
}

/// Reads a plain text.
#[inline(always)]
fn read_plain<V: Build>(alloc: Global, lines: &mut Lines<'_>, indent: u64) -> Result<V, Miss>
    ensures { IfOk result (λ made. IsRead (λ t. V.Means made t × (is_filled t ≡ false))
        (λ t. lines_of t indent) indented 1
        lines.old.rest.now lines.old.counted lines.new.rest.now lines.new.counted) }
{
    let Some((text, rest)) = split_plain(lines.rest(), b'\n') else {
        return Err(Miss::OtherForm);
    };
    lines.go_on(rest);
    let made = V::from_text(alloc, text)?;
    Ok(made)
}

/// Reads a text in double quotes.
#[inline(always)]
fn read_quoted<V: Build>(alloc: Global, lines: &mut Lines<'_>, indent: u64) -> Result<V, Miss>
    requires { 2 ≤ indent }
    ensures { IfOk result (λ made. IsRead (λ t. V.Means made t × (is_filled t ≡ false))
        (λ t. lines_of t indent) indented 1
        lines.old.rest.now lines.old.counted lines.new.rest.now lines.new.counted) }
{
    match split_quoted(lines.rest(), b'\n') {
        Some((text, rest)) => {
            lines.go_on(rest);
            let made = V::from_text(alloc, text)?;
            Ok(made)
        }
        None => read_other_quoted(alloc, lines, indent),
    }
}

/// Reads a text in double quotes that is not ASCII, or has an escape.
#[inline(never)]
fn read_other_quoted<V: Build>(alloc: Global, lines: &mut Lines<'_>, indent: u64) -> Result<V, Miss>
    requires { 2 ≤ indent }
    ensures { IfOk result (λ made. IsRead (λ t. V.Means made t × (is_filled t ≡ false))
        (λ t. lines_of t indent) indented 1
        lines.old.rest.now lines.old.counted lines.new.rest.now lines.new.counted) }
{
    let Some(quoted) = guessed_quoted(lines.rest()) else {
        return Err(Miss::OtherForm);
    };
    if memchr(b'\\', quoted.as_bytes()).is_some() {
        let text = unescaped(alloc, quoted)?;
        return read_own_text(lines, text, indent);
    }
    read_text(alloc, lines, quoted, indent)
}

/// What is between the double quotes at both ends of the first line.
fn guessed_quoted(lines: &str) -> Option<&str> {
    let (line, _) = guessed_line(lines)?;
    let quoted = line.strip_prefix('"')?;
    let text = quoted.strip_suffix('"')?;
    Some(text)
}

/// Reads this text, which is written on one line.
fn read_text<V: Build>(
    alloc: Global,
    lines: &mut Lines<'_>,
    text: &str,
    indent: u64,
) -> Result<V, Miss>
    ensures { IfOk result (λ made. IsRead (λ t. V.Means made t × (is_filled t ≡ false))
        (λ t. lines_of t indent) indented 1
        lines.old.rest.now lines.old.counted lines.new.rest.now lines.new.counted) }
{
    take_line(lines, text)?;
    let made = V::from_text(alloc, text)?;
    Ok(made)
}

/// Takes the line of a text that is written on one line.
fn take_line(lines: &mut Lines<'_>, text: &str) -> Result<(), Miss>
    ensures { OnOk result ((i : ℕ) → Took lines.old.rest.now lines.old.counted
        (scalar_lines i (chars text.now)) (indented_scalar_lines (chars text.now))
        lines.new.rest.now lines.new.counted) }
{
    match value_style(text) {
        ScalarStyle::Plain => {
            lines.put_text(text)?;
            lines.put_char('\n')
        }
        ScalarStyle::Double => {
            write_quoted(text, lines)?;
            lines.put_char('\n')
        }
        _ => Err(Miss::OtherForm),
    }
}

/// Reads this text in whatever style it has.
fn read_own_text<V: Build>(lines: &mut Lines<'_>, text: Text, indent: u64) -> Result<V, Miss>
    requires { 2 ≤ indent }
    ensures { IfOk result (λ made. IsRead (λ t. V.Means made t × (is_filled t ≡ false))
        (λ t. lines_of t indent) indented 1
        lines.old.rest.now lines.old.counted lines.new.rest.now lines.new.counted) }
{
    let before = lines.rest().len();
    write_scalar(text.as_str(), indent, lines)?;
    if before.saturating_sub(lines.rest().len()) > MOST_BYTES {
        return Err(Miss::OtherForm);
    }
    let tree = Tree::Text(text);
    let size = Size::of_element(&tree);
    lines.count(size.lines as u64)?;
    Ok(V::from_tree(tree))
}

/// Reads a sequence that holds nothing.
fn read_empty_sequence<V: Build>(
    alloc: Global,
    lines: &mut Lines<'_>,
    indent: u64,
) -> Result<V, Miss>
    ensures { IfOk result (λ made. IsRead (λ t. V.Means made t × (is_filled t ≡ false))
        (λ t. lines_of t indent) indented 1
        lines.old.rest.now lines.old.counted lines.new.rest.now lines.new.counted) }
{
    lines.take("[]\n")?;
    Ok(V::empty_sequence(alloc))
}

/// Reads a mapping that holds nothing.
fn read_empty_mapping<V: Build>(
    alloc: Global,
    lines: &mut Lines<'_>,
    indent: u64,
) -> Result<V, Miss>
    ensures { IfOk result (λ made. IsRead (λ t. V.Means made t × (is_filled t ≡ false))
        (λ t. lines_of t indent) indented 1
        lines.old.rest.now lines.old.counted lines.new.rest.now lines.new.counted) }
{
    lines.take("{}\n")?;
    Ok(V::empty_mapping(alloc))
}
