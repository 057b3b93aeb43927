// The value of a block scalar (YAML 1.2.2, 8.1.1.2, 8.1.2 and 8.1.3).
ghost use Rattle.std.specs.Prelude.{◌≡◌, ◌<◌, ◌++◌, true, IfOk, OnOk, string_bytes};
ghost use Rattle.yaml_block_scalars.specs.Prelude.{cow_str_bytes, IsBorrowedStr, TextLine, between_lines};
ghost use Rattle.yaml_block_scalars.specs.Prelude.{trailing_line_feeds, value_without_lines, line_feeds, is_empty};
ghost use Rattle.yaml_block_scalars.specs.Lines.{Describes};
ghost use Rattle.yaml_block_scalars.specs.Meant.{chomping_of};

use crate::line::Line;
use crate::parts::Chomping;
use std::alloc::{AllocError, Global};
use std::borrow::CowStr;
use yaml_scan::push_line_feeds;

/// Returns how many line feeds follow the last text line in the value.
pub(crate) fn feeds_after(chomping: Chomping, line: Line) -> usize
    requires { line.empties < usize.MAX }
    ensures { (l : TextLine) → Describes line l → line_feeds result
        ≡ trailing_line_feeds (chomping_of chomping) l }
{
    let of_break = if line.has_break { 1 } else { 0 };
    match chomping {
        Chomping::Strip => 0,
        Chomping::Clip => of_break,
        Chomping::Keep => of_break + line.empties,
    }
}

/// Returns how many line feeds the value has if there is no text line.
fn kept_feeds(chomping: Chomping, empties: usize) -> usize
    ensures { line_feeds result ≡ value_without_lines (chomping_of chomping) empties }
{
    match chomping {
        Chomping::Strip | Chomping::Clip => 0,
        Chomping::Keep => empties,
    }
}

/// Appends what is between two text lines in the value.
pub(crate) fn push_between(
    value: &mut String,
    folded: bool,
    line: Line,
    next: Line,
) -> Result<(), AllocError>
    requires { line.empties < usize.MAX }
    ensures { OnOk result ((l m : TextLine) → Describes line l → Describes next m
        → string_bytes value.new ≡ string_bytes value.old ++ between_lines folded l m) }
{
    if !folded || line.white || next.white {
        return push_line_feeds(value, line.empties + 1);
    }
    if line.empties == 0 {
        return value.push(' ');
    }
    push_line_feeds(value, line.empties)
}

/// Returns the value of `empties` empty lines without a text line.
pub(crate) fn no_lines<'a>(
    alloc: Global,
    chomping: Chomping,
    empties: usize,
) -> Result<CowStr<'a>, AllocError>
    ensures value { IfOk result (λ value. cow_str_bytes value
        ≡ value_without_lines (chomping_of chomping) empties) }
    ensures borrowed { is_empty (value_without_lines (chomping_of chomping) empties) ≡ true
        → IfOk result IsBorrowedStr }
{
    let feeds = kept_feeds(chomping, empties);
    if feeds == 0 {
        return Ok(CowStr::Borrowed(""));
    }
    let mut value = String::new(alloc);
    push_line_feeds(&mut value, feeds)?;
    Ok(CowStr::Owned(value))
}
