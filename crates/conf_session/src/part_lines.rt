// The parts of commands on their lines: the single edits, and the elements of a batch.
ghost use Rattle.std.specs.Prelude.{◌≡◌, codes, IfOk, IfSome};
ghost use Rattle.conf_session.specs.Prelude.{chars, text, tree_of, set_at, delete_at};
ghost use Rattle.conf_record.specs.EditLines.{lines_of};
ghost use Rattle.conf_session.specs.CommandLines.{SpellsPart};
ghost use Rattle.conf_session.specs.PartLines.{part_cut};
ghost use Rattle.conf_session.specs.Said.{import_text, plain, part_seen};

use crate::field_lines::line_value;
use crate::parts::Part;
use conf_record::{EditMembers, part};
use conf_state::Edit;
use std::alloc::{AllocError, Global};
use yaml_tree::{Config, Limits, Text, Tree};

/// The key of the text of an import.
pub(crate) const TEXT_KEY: &str = "text: ";

/// The part whose members are these, each as it is written after its key. `None` if a text is not as [`line_value`]
/// takes it, or the value of a `set` is longer than a configuration may be. It fails only if memory runs out.
pub(crate) fn part_on_lines(
    alloc: Global,
    lines: EditMembers<&str, &str>,
) -> Result<Option<Part>, AllocError>
    ensures { IfOk result (λ found. IfSome found (λ part.
        SpellsPart (lines_of lines.entry (codes "text: ")) (part_seen part))) }
{
    match texts_on_lines(lines) {
        Some(texts) => made_part(alloc, texts),
        None => Ok(None),
    }
}

/// The members with their texts, each of which [`line_value`] takes.
pub(crate) fn texts_on_lines<'t>(
    lines: EditMembers<&'t str, &'t str>,
) -> Option<EditMembers<&'t str, &'t str>>
    ensures { IfSome result (λ texts.
        SpellsPart (lines_of lines.entry (codes "text: ")) (part_cut texts)) }
{
    match lines {
        EditMembers::Import { name, value } => {
            let name = line_value(name)?;
            let value = line_value(value)?;
            Some(EditMembers::Import { name, value })
        }
        EditMembers::Set { name, path, value } => {
            let name = line_value(name)?;
            let path = line_value(path)?;
            let value = line_value(value)?;
            Some(EditMembers::Set { name, path, value })
        }
        EditMembers::Delete { name, path } => {
            let name = line_value(name)?;
            let path = line_value(path)?;
            Some(EditMembers::Delete { name, path })
        }
    }
}

/// The part with these texts. `None` if it is a `set` of a value longer than a configuration may be. It fails only if
/// memory runs out.
pub(crate) fn made_part(
    alloc: Global,
    texts: EditMembers<&str, &str>,
) -> Result<Option<Part>, AllocError>
    ensures { IfOk result (λ made. IfSome made (λ part. part_seen part ≡ part_cut texts.entry)) }
{
    match texts {
        EditMembers::Import { name, value } => made_import(alloc, name, value),
        EditMembers::Set { name, path, value } => made_set(alloc, name, path, value),
        EditMembers::Delete { name, path } => made_delete(alloc, name, path),
    }
}

/// The import of this text under this name.
fn made_import(alloc: Global, name: &str, text: &str) -> Result<Option<Part>, AllocError>
    ensures { IfOk result (λ made. IfSome made
        (λ part. part_seen part ≡ import_text (chars name.now) (chars text.now))) }
{
    let name = Text::new(alloc, name)?;
    let text = Text::new(alloc, text)?;
    Ok(Some(Part::Import { name, text }))
}

/// The set of this value, which is a text, at this path under this name.
fn made_set(alloc: Global, name: &str, path: &str, value: &str) -> Result<Option<Part>, AllocError>
    ensures { IfOk result (λ made. IfSome made (λ part. part_seen part
        ≡ plain (set_at (chars name.now) (chars path.now) (text (chars value.now))))) }
{
    let Some(value) = made_value(alloc, value)? else {
        return Ok(None);
    };
    let name = String::from_str(alloc, name)?;
    let path = String::from_str(alloc, path)?;
    Ok(Some(Part::Plain(Edit::Set { name, path, value })))
}

/// A text as a configuration. `None` if it is longer than a configuration may be. It fails only if memory runs out.
pub(crate) fn made_value(alloc: Global, value: &str) -> Result<Option<Config>, AllocError>
    ensures { IfOk result (λ made. IfSome made (λ config. tree_of config ≡ text (chars value.now))) }
{
    if value.len() as u64 > Limits::CONFIGURATION.style {
        return Ok(None);
    }
    let value = Text::new(alloc, value)?;
    Ok(Some(part(Tree::Text(value))))
}

/// The delete at this path under this name.
fn made_delete(alloc: Global, name: &str, path: &str) -> Result<Option<Part>, AllocError>
    ensures { IfOk result (λ made. IfSome made
        (λ part. part_seen part ≡ plain (delete_at (chars name.now) (chars path.now)))) }
{
    let name = String::from_str(alloc, name)?;
    let path = String::from_str(alloc, path)?;
    Ok(Some(Part::Plain(Edit::Delete { name, path })))
}
