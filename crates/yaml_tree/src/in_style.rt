// A text that stands in the one style.
ghost use Rattle.std.specs.Prelude.{◌≡◌, ◌<◌, ◌≤◌, Ok, None, IfOk, IfSome, length};
ghost use Rattle.yaml_tree.specs.Prelude.{limits_of, own_limits, tree_of};
ghost use Rattle.yaml_tree.specs.Formatting.{IsFormatted};
ghost use Rattle.yaml_tree.specs.InStyle.{AreLinesIn, AreLinesOf, StandIn};
ghost use Rattle.yaml_tree.specs.Reading.{IsRead};

use crate::{Config, Limits};
use memchr::memchr2;
use std::alloc::{AllocError, Global};
use yaml_chars::checked;
use yaml_data::Tree;
use yaml_recognizers::one_style::style_reads;
use yaml_styled::{MOST_DEPTH, Miss, read_styled, skip_styled};
use yaml_writer::Size;

/// How many bytes of a text are looked at for the sign of a block scalar.
const HEAD: usize = 4096;

/// Reads a text that stands in the one style, to the byte, in one pass over its lines. A line of `---` before it and a
/// closing line after it may be there, both or none. Returns `None` of a text that stands otherwise, which is mostly
/// known after its first lines; of one that is beyond a limit; and of one that is left to the general reader. It fails
/// only if memory runs out.
pub(crate) fn read_in_style(
    alloc: Global,
    bytes: &[u8],
    limits: &Limits,
) -> Result<Option<Config>, AllocError>
    requires { limits.now.style ≤ own_limits.style }
    ensures given { IfOk result (λ read. IfSome read (λ config.
        IsRead bytes.now (limits_of limits.now) (tree_of config))) }
    // A text that is too long is not looked at.
    ensures too_long { limits.now.bytes < length bytes.now → result ≡ Ok None }
{
    style_reads();
    let Some(lines) = tree_lines(bytes, limits) else {
        return Ok(None);
    };
    match whole_tree(alloc, lines)? {
        Some((tree, size)) => Ok(Some(Config::with_size(tree, size))),
        None => Ok(None),
    }
}

/// Returns the lines of the tree of a text that stands in the one style, as [`read_in_style`] reads it: they are the
/// tree's text. It returns `None`, and fails, where that does.
pub(crate) fn lines_in_style<'b>(
    alloc: Global,
    bytes: &'b [u8],
    limits: &Limits,
) -> Result<Option<&'b str>, AllocError>
    ensures given { IfOk result (λ found. IfSome found (λ lines.
        IsFormatted bytes.now (limits_of limits.now) lines.now)) }
    ensures too_long { limits.now.bytes < length bytes.now → result ≡ Ok None }
{
    style_reads();
    let Some(lines) = tree_lines(bytes, limits) else {
        return Ok(None);
    };
    match skip_styled(alloc, lines) {
        Ok(styled) if styled.rest.is_empty() => Ok(Some(lines)),
        Ok(_) => Ok(None),
        Err(Miss::OtherForm) => Ok(None),
        Err(Miss::OutOfMemory) => Err(AllocError),
    }
}

/// The lines of a tree, if a text within the limits is one in the one style: what stands between a line of `---` and a
/// closing line, or the whole text if it has neither. Returns `None` also of a text that has a sign of a block scalar
/// in its first bytes (YAML 1.2.2, 8.1), since the general reader is faster with these.
fn tree_lines<'b>(bytes: &'b [u8], limits: &Limits) -> Option<&'b str>
    ensures some { IfSome result (λ lines. AreLinesIn bytes.now lines.now (limits_of limits.now)) }
    ensures none { limits.now.bytes < length bytes.now → result ≡ None }
{
    let length = bytes.len() as u64;
    if length > limits.bytes || length > limits.style || limits.depth < MOST_DEPTH {
        return None;
    }
    let head = bytes.get(..HEAD).unwrap_or(bytes);
    if memchr2(b'|', b'>', head).is_some() {
        return None;
    }
    let Ok(text) = checked(bytes) else {
        return None;
    };
    unframed(text)
}

/// What stands in a text between a line of `---` and a closing line, or all of it if it has neither.
fn unframed(text: &str) -> Option<&str>
    ensures { IfSome result (λ lines. StandIn text.now lines.now) }
{
    match text.strip_prefix("---\n") {
        Some(framed) => framed.strip_suffix("...\n"),
        None if text.ends_with("\n...\n") => None,
        None => Some(text),
    }
}

/// The tree of which these are all lines, and its size as an element.
fn whole_tree(alloc: Global, lines: &str) -> Result<Option<(Tree, Size)>, AllocError>
    ensures { IfOk result (λ read. IfSome read (λ found.
        AreLinesOf lines.now (tree_of found.0) found.1)) }
{
    match read_styled(alloc, lines) {
        Ok(styled) if styled.rest.is_empty() => Ok(Some((styled.value, styled.size))),
        Ok(_) => Ok(None),
        Err(Miss::OtherForm) => Ok(None),
        Err(Miss::OutOfMemory) => Err(AllocError),
    }
}
