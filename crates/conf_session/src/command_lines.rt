// Commands that are spelled one key a line, read without the general reader.
ghost use Rattle.std.specs.Prelude.{◌≡◌, ◌++◌, codes, IfOk, IfSome, Some};
ghost use Rattle.conf_session.specs.Prelude.{command_of, conditions_of, edit_of, tree_of};
ghost use Rattle.conf_session.specs.CommandLines.{EndsChange, IsChangeLines, IsCommandLines, IsPartLines};
ghost use Rattle.conf_session.specs.CommandLines.{SayChangeAfter, SaysBefore, SaysBatch};
ghost use Rattle.conf_session.specs.PartLines.{part_cut};
ghost use Rattle.conf_session.specs.Requests.{Asks, EndsAsking, changing};
ghost use Rattle.conf_session.specs.Said.{Says, change_seen, conditional, parts_seen, plain, said_of, single_part};

use crate::about_lines::about_in;
use crate::condition_lines::{cut_condition, made_condition};
use crate::field_lines::{cut_field, is_end};
use crate::part_lines::{TEXT_KEY, made_part, part_on_lines, texts_on_lines};
use crate::parts::Part;
use crate::said::{Change, PIECE_LIMIT, Said};
use conf_conditions::Condition;
use conf_record::{EditMembers, Place, cut_edit, cut_element};
use conf_state::{Command, Edit, Edits};
use std::alloc::{AllocError, Global};
use std::str;
use yaml_recognizers::texts::unambiguous;
use yaml_tree::Text;

/// What a piece says that is an `import`, a `set`, a `delete`, a `get` or a `batch`, with each key and its text on a
/// line of their own, and the closing line after them. A line of `---` may come first, and then, but for a `get`, the
/// conditions. These and the elements of a batch are after `  - `, and their further keys after four spaces, as the one
/// style has them. Last, but for a `get`, may come an about, whose pairs are after two spaces. Each text is as
/// [`cut_field`] takes it. `None` says nothing of the piece: the general reader may still read it. It fails only if
/// memory runs out.
pub(crate) fn said_in_lines(alloc: Global, piece: &[u8]) -> Result<Option<Said>, AllocError>
    ensures { IfOk result (λ found. IfSome found (λ said. Says piece.now (said_of said))) }
{
    unambiguous();
    if piece.len() as u64 > PIECE_LIMIT {
        return Ok(None);
    }
    let Ok(text) = str::from_utf8(piece) else {
        return Ok(None);
    };
    match text.strip_prefix("---\n") {
        Some(lines) => command_in(alloc, lines),
        None => command_in(alloc, text),
    }
}

/// The command of a piece that is a `set` or a `delete`, with or without an about, spelled as for [`said_in_lines`].
/// `None` says nothing of the piece. It fails only if memory runs out.
pub(crate) fn edit_in_lines(alloc: Global, piece: &[u8]) -> Result<Option<Command>, AllocError>
    ensures { IfOk result (λ found. IfSome found
        (λ command. Asks piece.now (changing (command_of command)))) }
{
    let Some((texts, rest)) = texts_in(piece) else {
        return Ok(None);
    };
    match made_part(alloc, texts)? {
        Some(Part::Plain(edit)) => edit_before(alloc, edit, rest),
        _ => Ok(None),
    }
}

/// The texts of such a piece, and what is behind their lines.
fn texts_in(piece: &[u8]) -> Option<(EditMembers<&str, &str>, &str)>
    ensures { IfSome result (λ cut.
        SaysBefore piece.now (single_part (part_cut cut.0)) cut.1.now) }
{
    unambiguous();
    if !begins_with_edit(piece) || piece.len() as u64 > PIECE_LIMIT {
        return None;
    }
    let Ok(text) = str::from_utf8(piece) else {
        return None;
    };
    match text.strip_prefix("---\n") {
        Some(lines) => part_texts(lines),
        None => part_texts(text),
    }
}

/// Whether a piece seems to be such a one, by its first key. Other pieces needn't be tried.
fn begins_with_edit(piece: &[u8]) -> bool {
    let lines = piece.strip_prefix(b"---\n").unwrap_or(piece);
    lines.starts_with(b"set: ") || lines.starts_with(b"delete: ")
}

/// The texts of the part that the lines begin with, and the lines behind it.
fn part_texts(lines: &str) -> Option<(EditMembers<&str, &str>, &str)>
    ensures { IfSome result (λ cut. IsPartLines lines.now (part_cut cut.0) cut.1.now) }
{
    let (members, rest) = cut_edit(lines, Place::Alone, TEXT_KEY)?;
    let texts = texts_on_lines(members)?;
    Some((texts, rest))
}

/// The command that is this edit, by what is behind its lines.
fn edit_before(alloc: Global, edit: Edit, rest: &str) -> Result<Option<Command>, AllocError>
    ensures { IfOk result (λ found. IfSome found (λ command.
        EndsAsking rest.now (single_part (plain (edit_of edit))) (changing (command_of command)))) }
{
    if is_end(rest) {
        return Ok(Some(Command::from(edit)));
    }
    let Some(about) = about_in(alloc, rest)? else {
        return Ok(None);
    };
    let edits = Edits::Single(edit);
    Ok(Some(Command::Noted { edits, about }))
}

/// The command on these lines.
fn command_in(alloc: Global, lines: &str) -> Result<Option<Said>, AllocError>
    ensures { IfOk result (λ found. IfSome found (λ said. IsCommandLines lines.now (said_of said))) }
{
    if lines.starts_with("get: ") {
        return get_in(alloc, lines);
    }
    match lines.strip_prefix("if:\n") {
        Some(conditions) => conditional_in(alloc, conditions),
        None => change_in(alloc, lines),
    }
}

/// The command on the lines after `if:`, with its conditions.
fn conditional_in(alloc: Global, lines: &str) -> Result<Option<Said>, AllocError>
    ensures { IfOk result (λ found. IfSome found
        (λ said. IsCommandLines (codes "if:\n" ++ lines.now) (said_of said))) }
{
    let mut conditions = Vec::new(alloc);
    let mut left = lines;
    while left.starts_with("  - ") {
        let Some((texts, after)) = cut_condition(left) else {
            return Ok(None);
        };
        let Some(condition) = made_condition(alloc, texts)? else {
            return Ok(None);
        };
        conditions.push(condition)?;
        left = after;
    }
    change_after(alloc, conditions, left)
}

/// The command on these lines, which come after its conditions. `None` if there are no conditions, too.
fn change_after(
    alloc: Global,
    conditions: Vec<Condition>,
    lines: &str,
) -> Result<Option<Said>, AllocError>
    ensures { IfOk result (λ found. IfSome found
        (λ said. SayChangeAfter (conditions_of conditions.items) lines.now (said_of said))) }
{
    if conditions.is_empty() {
        return Ok(None);
    }
    match change_in(alloc, lines)? {
        Some(said) => Ok(after_conditions(conditions, said)),
        None => Ok(None),
    }
}

/// A command that changes configurations, after its conditions. `None` of any other.
fn after_conditions(conditions: Vec<Condition>, said: Said) -> Option<Said>
    ensures { IfSome result (λ after.
        said_of after ≡ conditional (conditions_of conditions.items) (said_of said)) }
{
    match said {
        Said::Single(part) => Some(Said::Conditional {
            conditions,
            change: Change::Single(part),
        }),
        Said::Batch(parts) => Some(Said::Conditional {
            conditions,
            change: Change::Batch(parts),
        }),
        Said::Noted { change, about } => Some(Said::ConditionalNoted {
            conditions,
            change,
            about,
        }),
        _ => None,
    }
}

/// The command on these lines that changes configurations.
fn change_in(alloc: Global, lines: &str) -> Result<Option<Said>, AllocError>
    ensures { IfOk result (λ found. IfSome found (λ said. IsChangeLines lines.now (said_of said))) }
{
    match lines.strip_prefix("batch:\n") {
        Some(elements) => batch_in(alloc, elements),
        None => single_in(alloc, lines),
    }
}

/// The `get` on these lines.
fn get_in(alloc: Global, lines: &str) -> Result<Option<Said>, AllocError>
    ensures { IfOk result (λ found. IfSome found (λ said. IsCommandLines lines.now (said_of said))) }
{
    let Some((name, after_name)) = cut_field(lines, "get: ") else {
        return Ok(None);
    };
    let Some((path, end)) = cut_field(after_name, "path: ") else {
        return Ok(None);
    };
    if !is_end(end) {
        return Ok(None);
    }
    let name = Text::new(alloc, name)?;
    let path = Text::new(alloc, path)?;
    Ok(Some(Said::Get { name, path }))
}

/// The one part on these lines.
fn single_in(alloc: Global, lines: &str) -> Result<Option<Said>, AllocError>
    ensures { IfOk result (λ found. IfSome found (λ said. IsChangeLines lines.now (said_of said))) }
{
    let Some((texts, rest)) = part_texts(lines) else {
        return Ok(None);
    };
    let Some(part) = made_part(alloc, texts)? else {
        return Ok(None);
    };
    change_before(alloc, Change::Single(part), rest)
}

/// The batch whose elements are on these lines.
fn batch_in(alloc: Global, elements: &str) -> Result<Option<Said>, AllocError>
    ensures { IfOk result (λ found. IfSome found
        (λ said. IsChangeLines (codes "batch:\n" ++ elements.now) (said_of said))) }
{
    let mut parts = Vec::new(alloc);
    let mut left = elements;
    while left.starts_with("  - ") {
        let Some((members, after)) = cut_element(left, TEXT_KEY) else {
            return Ok(None);
        };
        let Some(part) = part_on_lines(alloc, members)? else {
            return Ok(None);
        };
        parts.push(part)?;
        left = after;
    }
    batch_before(alloc, parts, left)
}

/// The batch of these parts, by what is behind their lines. `None` if there are no parts, too.
fn batch_before(alloc: Global, parts: Vec<Part>, rest: &str) -> Result<Option<Said>, AllocError>
    ensures { IfOk result (λ found. IfSome found
        (λ said. SaysBatch (parts_seen parts.items) rest.now (said_of said))) }
{
    if parts.is_empty() {
        return Ok(None);
    }
    change_before(alloc, Change::Batch(parts), rest)
}

/// A change by what is behind its lines: the closing line, or an about before it.
fn change_before(alloc: Global, change: Change, rest: &str) -> Result<Option<Said>, AllocError>
    ensures { IfOk result (λ found. IfSome found
        (λ said. EndsChange rest.now (change_seen change) (said_of said))) }
{
    if is_end(rest) {
        return Ok(Some(plain_said(change)));
    }
    let Some(about) = about_in(alloc, rest)? else {
        return Ok(None);
    };
    Ok(Some(Said::Noted { change, about }))
}

/// A change without an about.
fn plain_said(change: Change) -> Said
    ensures { said_of result ≡ change_seen change }
{
    match change {
        Change::Single(part) => Said::Single(part),
        Change::Batch(parts) => Said::Batch(parts),
    }
}
