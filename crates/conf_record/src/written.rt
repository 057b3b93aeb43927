// Records as a store writes them, taken apart line by line.
ghost use Rattle.std.specs.Prelude.{◌≡◌, ◌++◌, codes, map, IfOk, IfSome, IsTrue};
ghost use Rattle.conf_record.specs.Prelude.{edit_of, command_of, single};
ghost use Rattle.conf_record.specs.EditLines.{lines_of};
ghost use Rattle.conf_record.specs.LineValues.{HasValueLine, edit_cut};
ghost use Rattle.conf_record.specs.Written.{IsWritten, IsWrittenAs, ElementsWritten};

use crate::edit_lines::{Place, cut_edit, cut_element};
use crate::edit_members::EditMembers;
use crate::lines::{LineValue, made_value, name_on, path_on, value_on};
use conf_state::{Command, Edit};
use std::alloc::{AllocError, Global};
use yaml_styled::Miss;

/// The key of the tree of an import.
const TREE_KEY: &str = "tree: ";

/// The texts of the one edit on the lines after the number, each on one line without an escape.
pub(crate) fn cut_single(lines: &str) -> Option<EditMembers<&str, LineValue<'_>>>
    ensures written { IfSome result (λ texts. IsWritten lines.now (single (edit_cut texts))) }
    ensures values { IfSome result (λ texts. HasValueLine texts) }
{
    let (members, end) = cut_edit(lines, Place::Alone, TREE_KEY)?;
    if !is_end(end) {
        return None;
    }
    texts_on(members)
}

/// The texts of these members, each as it is written after its key, if the name and the path are good.
fn texts_on<'t>(
    members: EditMembers<&'t str, &'t str>,
) -> Option<EditMembers<&'t str, LineValue<'t>>>
    ensures written { IfSome result (λ texts.
        IsWrittenAs (lines_of members.entry (codes "tree: ")) (edit_cut texts)) }
    ensures values { IfSome result (λ texts. HasValueLine texts) }
{
    match members {
        EditMembers::Import { name, value } => {
            let name = name_on(name)?;
            let value = value_on(value)?;
            Some(EditMembers::Import { name, value })
        }
        EditMembers::Set { name, path, value } => {
            let name = name_on(name)?;
            let path = path_on(path)?;
            let value = value_on(value)?;
            Some(EditMembers::Set { name, path, value })
        }
        EditMembers::Delete { name, path } => {
            let name = name_on(name)?;
            let path = path_on(path)?;
            Some(EditMembers::Delete { name, path })
        }
    }
}

/// The command that is the edit with these texts. It fails only if memory runs out.
#[inline(always)]
pub(crate) fn made_command(
    alloc: Global,
    texts: EditMembers<&str, LineValue<'_>>,
) -> Result<Command, AllocError>
    requires { HasValueLine texts }
    ensures { IfOk result (λ command. command_of command ≡ single (edit_cut texts.entry)) }
{
    let edit = edit_with(alloc, texts)?;
    Ok(Command::from(edit))
}

/// The edit with these texts. It fails only if memory runs out.
#[inline(always)]
fn edit_with(alloc: Global, texts: EditMembers<&str, LineValue<'_>>) -> Result<Edit, AllocError>
    requires { HasValueLine texts }
    ensures { IfOk result (λ edit. edit_of edit ≡ edit_cut texts.entry) }
{
    match texts {
        EditMembers::Import { name, value } => {
            let name = String::from_str(alloc, name)?;
            let tree = made_value(alloc, value)?;
            Ok(Edit::Import { name, tree })
        }
        EditMembers::Set { name, path, value } => {
            let name = String::from_str(alloc, name)?;
            let path = String::from_str(alloc, path)?;
            let value = made_value(alloc, value)?;
            Ok(Edit::Set { name, path, value })
        }
        EditMembers::Delete { name, path } => {
            let name = String::from_str(alloc, name)?;
            let path = String::from_str(alloc, path)?;
            Ok(Edit::Delete { name, path })
        }
    }
}

/// The batch on the lines after the number.
pub(crate) fn cut_many(alloc: Global, lines: &str) -> Result<Command, Miss>
    ensures { IfOk result (λ command. IsWritten lines.now (command_of command)) }
{
    let Some(elements) = lines.strip_prefix("batch:\n") else {
        return Err(Miss::OtherForm);
    };
    let edits = cut_elements(alloc, elements)?;
    if edits.is_empty() {
        return Err(Miss::OtherForm);
    }
    Ok(Command::Batch { edits })
}

/// The edits of the elements on these lines, up to the end of the document.
fn cut_elements(alloc: Global, elements: &str) -> Result<Vec<Edit>, Miss>
    ensures { IfOk result (λ edits.
        ElementsWritten elements.now (map edit_of edits.items) (codes "...\n")) }
{
    let mut edits = Vec::new(alloc);
    let mut left = elements;
    while !is_end(left) {
        let Some((members, after)) = cut_element(left, TREE_KEY) else {
            return Err(Miss::OtherForm);
        };
        let edit = made_edit(alloc, members)?;
        edits.push(edit)?;
        left = after;
    }
    Ok(edits)
}

/// The edit with these members, each as it is written after its key, if its name and its path are good.
fn made_edit(alloc: Global, members: EditMembers<&str, &str>) -> Result<Edit, Miss>
    ensures { IfOk result (λ edit.
        IsWrittenAs (lines_of members.entry (codes "tree: ")) (edit_of edit)) }
{
    let Some(texts) = texts_on(members) else {
        return Err(Miss::OtherForm);
    };
    let edit = edit_with(alloc, texts)?;
    Ok(edit)
}

/// Whether this is the last line of a document.
pub(crate) fn is_end(lines: &str) -> bool
    ensures { IsTrue result → lines.now ≡ codes "...\n" }
{
    lines == "...\n"
}
