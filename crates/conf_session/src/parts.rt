// The parts of commands that change configurations: single edits, and the elements of a batch.
ghost use Rattle.std.specs.Prelude.{◌≡◌, ◌≢◌, IfOk, IfErr, map, option_map};
ghost use Rattle.conf_session.specs.Prelude.{chars, IsKept, tree_of, members_of, elements_of, text_bytes, import_as};
ghost use Rattle.conf_session.specs.Prelude.{edit_of, values, AreKept, AreKeptElements, KeepsTree, edit_seen};
ghost use Rattle.conf_session.specs.Said.{as_part, part_from, part_of, parts_of, import_text, part_seen, parts_seen};
ghost use Rattle.conf_session.specs.Requests.{IsReadAs, AreReadAs, RefusesPart, IsFirstRefused};

use conf_record::{EditMembers, members_from, part};
use conf_state::Edit;
use std::alloc::{AllocError, Global};
use yaml_tree::{Limits, ReadFault, Text, Tree, read_one};

/// A part of a command that changes configurations. Names and paths may be any texts: they are judged when the command
/// is performed.
#[derive(Drop)]
pub(crate) enum Part {
    /// `import`, with the text that is not read yet.
    Import { name: Text, text: Text },
    /// `set` or `delete`.
    Plain(Edit),
}

/// The part that a mapping with these pairs is, if it has exactly the keys of one, in their order, and values of the
/// kinds that it takes. It fails only if memory runs out.
pub(crate) fn part_from(alloc: Global, pairs: Vec<(Text, Tree)>) -> Result<Option<Part>, AllocError>
    requires { AreKept (values (members_of pairs.items)) }
    ensures { IfOk result (λ part. option_map part_seen part ≡ part_from (members_of pairs.items)) }
{
    match members_from(pairs, "text") {
        Some(members) => part_with(alloc, members),
        None => Ok(None),
    }
}

/// The part with these members; `None` if it is an import whose value is no text. It fails only if memory runs out.
fn part_with(alloc: Global, members: EditMembers<Text, Tree>) -> Result<Option<Part>, AllocError>
    requires { KeepsTree (edit_seen members) }
    ensures { IfOk result (λ made. option_map part_seen made ≡ as_part (edit_seen members)) }
{
    match members {
        EditMembers::Import { name, value } => Ok(import_with(name, value)),
        EditMembers::Set { name, path, value } => {
            let name = name.into_string(alloc)?;
            let path = path.into_string(alloc)?;
            let value = part(value);
            Ok(Some(Part::Plain(Edit::Set { name, path, value })))
        }
        EditMembers::Delete { name, path } => {
            let name = name.into_string(alloc)?;
            let path = path.into_string(alloc)?;
            Ok(Some(Part::Plain(Edit::Delete { name, path })))
        }
    }
}

/// The import of a text under a name; `None` if the value is no text.
fn import_with(name: Text, value: Tree) -> Option<Part>
    ensures { option_map part_seen result
        ≡ as_part (import_as (chars (text_bytes name)) (tree_of value)) }
{
    match value {
        Tree::Text(text) => Some(Part::Import { name, text }),
        Tree::Seq(_) => None,
        Tree::Map(_) => None,
    }
}

/// The parts that the elements of a sequence are, if each of them is one. It fails only if memory runs out.
pub(crate) fn parts_of(alloc: Global, elements: Vec<Tree>) -> Result<Option<Vec<Part>>, AllocError>
    requires { AreKeptElements (elements_of elements.items) }
    ensures { IfOk result (λ parts. option_map (λ v. parts_seen v.items) parts
        ≡ parts_of (elements_of elements.items)) }
{
    let mut parts = Vec::new(alloc);
    for element in elements {
        let Some(part) = part_of(alloc, element)? else {
            return Ok(None);
        };
        parts.push(part)?;
    }
    Ok(Some(parts))
}

/// The part that a tree is, if it is one.
fn part_of(alloc: Global, tree: Tree) -> Result<Option<Part>, AllocError>
    requires { IsKept (tree_of tree) }
    ensures { IfOk result (λ part. option_map part_seen part ≡ part_of (tree_of tree)) }
{
    match tree {
        Tree::Text(_) => Ok(None),
        Tree::Seq(_) => Ok(None),
        Tree::Map(pairs) => part_from(alloc, pairs),
    }
}

/// Reads the texts of the imports among the parts of a batch, in order.
///
/// # Errors
/// The fault of the first text that gives no tree within the limits of a configuration, or `OutOfMemory`.
pub(crate) fn read_parts(alloc: Global, parts: Vec<Part>) -> Result<Vec<Edit>, ReadFault>
    ensures ok { IfOk result (λ edits. AreReadAs (parts_seen parts.items)
        (map edit_of edits.items)) }
    ensures refused { IfErr result (λ fault. fault ≢ ReadFault.OutOfMemory →
        IsFirstRefused (parts_seen parts.items) fault) }
{
    let mut edits = Vec::with_capacity(alloc, parts.len())?;
    for part in parts {
        match read_part(alloc, part) {
            Ok(edit) => edits.push(edit)?,
            Err(fault) => return Err(fault),
        }
    }
    Ok(edits)
}

/// The edit that a part is, with the text of an import read.
fn read_part(alloc: Global, part: Part) -> Result<Edit, ReadFault>
    ensures ok { IfOk result (λ edit. IsReadAs (part_seen part) (edit_of edit)) }
    ensures refused { IfErr result (λ fault. fault ≢ ReadFault.OutOfMemory →
        RefusesPart (part_seen part) fault) }
{
    match part {
        Part::Import { name, text } => read_import(alloc, name, &text),
        Part::Plain(edit) => Ok(edit),
    }
}

/// The import of a text under a name, whatever the name is.
fn read_import(alloc: Global, name: Text, source: &str) -> Result<Edit, ReadFault>
    ensures ok { IfOk result (λ edit.
        IsReadAs (import_text (chars (text_bytes name)) (chars source.now)) (edit_of edit)) }
    ensures refused { IfErr result (λ fault. fault ≢ ReadFault.OutOfMemory →
        RefusesPart (import_text (chars (text_bytes name)) (chars source.now)) fault) }
{
    match read_one(alloc, source.as_bytes(), &Limits::CONFIGURATION) {
        Ok(tree) => {
            let name = name.into_string(alloc)?;
            Ok(Edit::Import { name, tree })
        }
        Err(fault) => Err(fault),
    }
}
