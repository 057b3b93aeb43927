// The edits that a text lists.
ghost use Rattle.std.specs.Prelude.{◌≡◌, IfOk, IfErr, codes, map, option_and_then, option_map};
ghost use Rattle.conf_session.specs.Edits.{GivesEdits, RefusesEdits, all_listed, as_import, listed_from, listed_in, parts_in};
ghost use Rattle.conf_session.specs.Prelude.{IsKept, tree_of, elements_of, members_of, values, AreKept, AreKeptElements};
ghost use Rattle.conf_session.specs.Prelude.{KeepsTree, edit_of, edit_seen, edit_under};
ghost use Rattle.conf_session.specs.Said.{part_seen, parts_seen};

use crate::parts::{Part, part_from, read_parts};
use conf_record::{EditMembers, keys_are, members_from, part};
use conf_state::Edit;
use std::alloc::{AllocError, Global};
use std::error::Error;
use std::fmt;
use yaml_tree::{Limits, ReadFault, Text, Tree, read_one};

/// Why a text lists no edits.
#[derive(Clone, Copy, Debug, PartialEq, Eq)]
pub enum EditsFault {
    /// The text gives no tree, or memory ran out.
    Text(ReadFault),
    /// The tree is no list of edits.
    NoEdits,
    /// The text of an import in the list gives no tree, or memory ran out.
    Import(ReadFault),
}

impl fmt::Display for EditsFault {
    fn fmt<W: fmt::Write>(&self, f: &mut fmt::Formatter<W>) -> fmt::Result {
        match *self {
            EditsFault::Text(fault) | EditsFault::Import(fault) => {
                let brief = fault.brief();
                write!(f, "{brief}")
            }
            EditsFault::NoEdits => f.write_str("BadCommand"),
        }
    }
}

impl Error for EditsFault {}

/// Reads the edits that a YAML text lists. Each is a mapping with the keys `import` and `text`, `import` and `tree`,
/// `set`, `path` and `value`, or `delete` and `path`, in this order. Names and paths may be any texts: a store judges
/// them when it performs the edits.
///
/// # Errors
/// - [`EditsFault::Text`] with the fault of a text that gives no tree within [`Limits::CONFIGURATION`].
/// - [`EditsFault::NoEdits`] if the tree is no sequence, or an element of it is no edit.
/// - [`EditsFault::Import`] with the fault of the first import whose text gives no tree within these limits.
///
/// The first and the last hold `OutOfMemory` if memory runs out.
pub fn read_edits(alloc: Global, bytes: &[u8]) -> Result<Vec<Edit>, EditsFault>
    ensures ok { IfOk result (λ edits. GivesEdits bytes.now (map edit_of edits.items)) }
    ensures refused { IfErr result (RefusesEdits bytes.now) }
{
    let tree = match read_one(alloc, bytes, &Limits::CONFIGURATION) {
        Ok(config) => config.into_tree(),
        Err(fault) => return Err(EditsFault::Text(fault)),
    };
    let parts = match parts_in(alloc, tree) {
        Ok(Some(parts)) => parts,
        Ok(None) => return Err(EditsFault::NoEdits),
        Err(AllocError) => return Err(EditsFault::Text(ReadFault::OutOfMemory)),
    };
    match read_parts(alloc, parts) {
        Ok(edits) => Ok(edits),
        Err(fault) => Err(EditsFault::Import(fault)),
    }
}

/// The parts that a tree lists, if it is a sequence and each of its elements is one. It fails only if memory runs out.
fn parts_in(alloc: Global, tree: Tree) -> Result<Option<Vec<Part>>, AllocError>
    requires { IsKept (tree_of tree) }
    ensures { IfOk result (λ parts. option_map (λ v. parts_seen v.items) parts
        ≡ parts_in (tree_of tree)) }
{
    match tree {
        Tree::Text(_) => Ok(None),
        Tree::Seq(elements) => all_listed(alloc, elements),
        Tree::Map(_) => Ok(None),
    }
}

/// The parts that the elements of a list are, if each of them is one.
fn all_listed(alloc: Global, elements: Vec<Tree>) -> Result<Option<Vec<Part>>, AllocError>
    requires { AreKeptElements (elements_of elements.items) }
    ensures { IfOk result (λ parts. option_map (λ v. parts_seen v.items) parts
        ≡ all_listed (elements_of elements.items)) }
{
    let mut parts = Vec::new(alloc);
    for element in elements {
        let Some(part) = listed_in(alloc, element)? else {
            return Ok(None);
        };
        parts.push(part)?;
    }
    Ok(Some(parts))
}

/// The part that an element of a list is, if it is one.
fn listed_in(alloc: Global, tree: Tree) -> Result<Option<Part>, AllocError>
    requires { IsKept (tree_of tree) }
    ensures { IfOk result (λ part. option_map part_seen part ≡ listed_in (tree_of tree)) }
{
    match tree {
        Tree::Text(_) => Ok(None),
        Tree::Seq(_) => Ok(None),
        Tree::Map(pairs) => listed_from(alloc, pairs),
    }
}

/// The part that a mapping with these pairs is in a list: an import with its tree, or a part of a batch.
fn listed_from(alloc: Global, pairs: Vec<(Text, Tree)>) -> Result<Option<Part>, AllocError>
    requires { AreKept (values (members_of pairs.items)) }
    ensures { IfOk result (λ part. option_map part_seen part ≡ listed_from (members_of pairs.items)) }
{
    if keys_are(&["import", "tree"], &pairs) {
        tree_import(alloc, pairs)
    } else {
        part_from(alloc, pairs)
    }
}

/// The import with its tree that a mapping with these pairs is, if it is one.
fn tree_import(alloc: Global, pairs: Vec<(Text, Tree)>) -> Result<Option<Part>, AllocError>
    requires { AreKept (values (members_of pairs.items)) }
    ensures { IfOk result (λ part. option_map part_seen part
        ≡ option_and_then as_import (edit_under (codes "tree") (members_of pairs.items))) }
{
    match members_from(pairs, "tree") {
        Some(members) => import_with(alloc, members),
        None => Ok(None),
    }
}

/// The import with these members, if they are those of one.
fn import_with(alloc: Global, members: EditMembers<Text, Tree>) -> Result<Option<Part>, AllocError>
    requires { KeepsTree (edit_seen members) }
    ensures { IfOk result (λ made. option_map part_seen made ≡ as_import (edit_seen members)) }
{
    match members {
        EditMembers::Import { name, value } => {
            let name = name.into_string(alloc)?;
            let tree = part(value);
            Ok(Some(Part::Plain(Edit::Import { name, tree })))
        }
        EditMembers::Set { .. } => Ok(None),
        EditMembers::Delete { .. } => Ok(None),
    }
}
