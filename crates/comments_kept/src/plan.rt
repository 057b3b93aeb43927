// Where the comments and empty lines of a text are written.
ghost use Rattle.std.specs.Prelude.{◌≡◌, ◌≤◌, ◌+◌, ◌*◌, ◌++◌, ◌∷◌, [], IfOk, OnOk, None, length, slice_range, slice_get};
ghost use Rattle.std.specs.Str.{IsUtf8};
ghost use Rattle.yaml_events.specs.Meant.{events_of};
ghost use Rattle.comments_kept.specs.Keeping.{AreTexts, HasNoBlankLine, texts_at};
ghost use Rattle.comments_kept.specs.Places as place;
ghost use Rattle.comments_kept.specs.Places.{marks_of};
ghost use Rattle.comments_kept.specs.Lines as line;
ghost use Rattle.comments_kept.specs.Weaving.{texts_of};

use crate::blanks::{is_below_blank_line, is_first, text_of};
use crate::rows::{Collection, Layout, Row, layout_of};
use crate::signs::line_start;
use crate::weaver::{Kept, Placed};
use std::alloc::{AllocError, Global};
use yaml_comments::Comment;
use yaml_events::Events;

/// What is kept of a text, in order, each at its place.
pub(crate) fn plan<'a>(
    alloc: Global,
    bytes: &'a [u8],
    events: &Events<'_>,
    found: &[Comment],
) -> Result<Vec<Placed<'a>>, AllocError>
    requires { AreTexts bytes.now found.now }
    ensures places { IfOk result (λ kept.
        marks_of kept.items ≡ place.marks bytes.now (events_of events.now) found.now) }
    ensures texts { IfOk result (λ kept. texts_of kept.items ≡ texts_at bytes.now found.now) }
    ensures bare { IfOk result (λ kept.
        HasNoBlankLine bytes.now → found.now ≡ [] → kept.items ≡ []) }
{
    let layout = layout_of(alloc, bytes, events)?;
    let mut kept = Vec::with_capacity(alloc, found.len())?;
    let mut row = 0;
    for comment in found {
        let next = push_comment(&mut kept, bytes, &layout, row, *comment)?;
        row = next;
    }
    push_empty_lines(&mut kept, bytes, &layout.rows, row, layout.rows.len())?;
    Ok(kept)
}

/// Adds a comment, and before it the empty lines above the lines of the tree that come before it, from one on. Returns
/// the line of the tree that comes next.
fn push_comment<'a>(
    kept: &mut Vec<Placed<'a>>,
    bytes: &'a [u8],
    layout: &Layout,
    from: usize,
    comment: Comment,
) -> Result<usize, AllocError>
    requires start { comment.start + 1 ≤ comment.end }
    requires end { comment.end ≤ length bytes.now }
    requires utf8 { IsUtf8 (slice_range bytes.now (comment.start + 1) comment.end) }
    ensures next { IfOk result (λ next.
        next ≡ (place.step_of bytes.now layout.now.rows.items layout.now.collections.items from comment).next) }
    ensures places { OnOk result (marks_of kept.new.items ≡ marks_of kept.old.items
        ++ (place.step_of bytes.now layout.now.rows.items layout.now.collections.items from comment).marks) }
    ensures texts { OnOk result (texts_of kept.new.items
        ≡ texts_of kept.old.items ++ place.text_of bytes.now comment ∷ []) }
{
    let rows = &layout.rows;
    let at = comment.start;
    let row = row_of(rows, from, line_start(bytes, at));
    let text = text_of(bytes, comment);
    if is_before(rows, row, at) {
        let next = next_row(row)?;
        push_empty_lines(kept, bytes, rows, from, next)?;
        kept.push(placed_behind(row, Kept::Comment(text))?)?;
        return Ok(next);
    }
    push_empty_lines(kept, bytes, rows, from, row)?;
    push_empty_line(kept, bytes, row, at)?;
    let indent = indent_at(bytes, layout, row, at);
    kept.push(placed_above(row, Kept::Comment(text), indent)?)?;
    Ok(row)
}

/// The number behind that of a line. There is always one; the contracts do not say so.
fn next_row(row: usize) -> Result<usize, AllocError>
    ensures { IfOk result (λ next. next ≡ row + 1) }
{
    match row.checked_add(1) {
        Some(next) => Ok(next),
        None => Err(AllocError),
    }
}

/// Adds the empty lines that are kept above the lines of the tree from one up to another.
fn push_empty_lines(
    kept: &mut Vec<Placed<'_>>,
    bytes: &[u8],
    rows: &[Row],
    from: usize,
    to: usize,
) -> Result<(), AllocError>
    ensures places { OnOk result (marks_of kept.new.items
        ≡ marks_of kept.old.items ++ place.empties_between bytes.now rows.now from to) }
    ensures texts { OnOk result (texts_of kept.new.items ≡ texts_of kept.old.items) }
    ensures none { OnOk result (HasNoBlankLine bytes.now → kept.new.items ≡ kept.old.items) }
{
    for row in from..to.min(rows.len()) {
        push_empty_line(kept, bytes, row, rows[row].start)?;
    }
    Ok(())
}

/// Adds the empty line that is kept above what begins at a byte, above a line of the tree.
fn push_empty_line(
    kept: &mut Vec<Placed<'_>>,
    bytes: &[u8],
    row: usize,
    at: usize,
) -> Result<(), AllocError>
    ensures places { OnOk result (marks_of kept.new.items
        ≡ marks_of kept.old.items ++ place.empty_above bytes.now row at) }
    ensures texts { OnOk result (texts_of kept.new.items ≡ texts_of kept.old.items) }
    ensures none { OnOk result (HasNoBlankLine bytes.now → kept.new.items ≡ kept.old.items) }
{
    if !is_below_blank_line(bytes, at) {
        return Ok(());
    }
    kept.push(placed_above(row, Kept::EmptyLine, 0)?)?;
    Ok(())
}

/// The indentation of a comment above a line of the tree.
fn indent_at(bytes: &[u8], layout: &Layout, row: usize, at: usize) -> u64
    requires { at ≤ length bytes.now }
    ensures { result ≡ place.indent_at bytes.now layout.now.rows.items layout.now.collections.items row at }
{
    let least = row_indent(&layout.rows, row);
    if !is_first(bytes, at) {
        return least;
    }
    let column = at - line_start(bytes, at);
    let level = level_above(&layout.rows, row);
    indent_below(&layout.collections, level, column).max(least)
}

/// Whether a line of the tree ends before a comment.
fn is_before(rows: &[Row], row: usize, comment: usize) -> bool
    ensures { result ≡ place.is_before comment (slice_get rows.now row) }
{
    match rows.get(row) {
        Some(row) => row.end <= comment,
        None => false,
    }
}

/// The indentation of a line of the tree; behind the last one it is 0.
fn row_indent(rows: &[Row], row: usize) -> u64
    ensures { result ≡ place.indent_of_row (slice_get rows.now row) }
{
    match rows.get(row) {
        Some(row) => row.indent,
        None => 0,
    }
}

/// The innermost block collection that holds the line of the tree above another one.
fn level_above(rows: &[Row], row: usize) -> Option<usize>
    ensures { result ≡ place.level_above rows.now row }
{
    if row == 0 {
        return None;
    }
    match rows.get(row - 1) {
        Some(row) => row.level,
        None => None,
    }
}

/// The indentation of a comment in a column of the text, by the block collections that hold the line above it: in the
/// innermost one if its column is greater, and else with the outermost one of the greatest column that isn't.
fn indent_below(collections: &[Collection], level: Option<usize>, column: usize) -> u64
    ensures { result ≡ place.indent_below collections.now level column }
{
    let Some(first) = held(collections, level) else {
        return 0;
    };
    if first.column < column {
        return first.inside;
    }
    match nearest(collections, level, column) {
        Some(best) => best.indent,
        None => 0,
    }
}

/// Of a collection and those that hold it, the outermost one of the greatest column that is not above a column.
fn nearest(collections: &[Collection], level: Option<usize>, column: usize) -> Option<Collection>
    ensures { result
        ≡ place.nearest column None (place.holders (length collections.now) collections.now level) }
{
    let mut best = None;
    let mut next = level;
    for _walked in 0..collections.len() {
        let Some(here) = held(collections, next) else {
            return best;
        };
        best = better(best, here, column);
        next = here.outer;
    }
    best
}

/// The better of two collections, of which the second one is further out: see [`nearest`].
fn better(best: Option<Collection>, here: Collection, column: usize) -> Option<Collection>
    ensures { result ≡ place.better column here best }
{
    let is_as_good = match best {
        Some(best) => best.column <= here.column,
        None => true,
    };
    if here.column <= column && is_as_good {
        return Some(here);
    }
    best
}

/// A collection of the list, if there is one.
fn held(collections: &[Collection], at: Option<usize>) -> Option<Collection>
    ensures { result ≡ line.held collections.now at }
{
    collections.get(at?).copied()
}

/// Behind a line of the tree. A line has always such a place; the contracts do not say so.
fn placed_behind(row: usize, kept: Kept<'_>) -> Result<Placed<'_>, AllocError>
    ensures kept { IfOk result (λ placed. placed.kept ≡ kept.entry) }
    ensures place { IfOk result (λ placed. (placed.place ≡ row * 2 + 1) × (placed.indent ≡ 0)) }
{
    let place = place_of(row)?;
    let Some(place) = place.checked_add(1) else {
        return Err(AllocError);
    };
    Ok(Placed {
        kept,
        place,
        indent: 0,
    })
}

/// On a line of its own above a line of the tree, or behind the last one.
fn placed_above(row: usize, kept: Kept<'_>, indent: u64) -> Result<Placed<'_>, AllocError>
    ensures kept { IfOk result (λ placed. placed.kept ≡ kept.entry) }
    ensures place { IfOk result (λ placed. (placed.place ≡ row * 2) × (placed.indent ≡ indent)) }
{
    let place = place_of(row)?;
    Ok(Placed {
        kept,
        place,
        indent,
    })
}

/// The place above a line of the tree.
fn place_of(row: usize) -> Result<u64, AllocError>
    ensures { IfOk result (λ place. place ≡ row * 2) }
{
    match (row as u64).checked_mul(2) {
        Some(place) => Ok(place),
        None => Err(AllocError),
    }
}

/// The first line of the tree, from one on, that ends behind the start of a line of the text.
fn row_of(rows: &[Row], from: usize, line: usize) -> usize
    ensures { result ≡ place.row_of rows.now from line }
{
    for row in from..rows.len() {
        if line < rows[row].end {
            return row;
        }
    }
    from.max(rows.len())
}
