// The command and the number of a record's tree.
ghost use Rattle.std.specs.Prelude.{◌≡◌, ◌&&◌, [], ◌∷◌, Some, None, map, option_map, is_ok, true, false, IfOk, IfErr, IfSome, MatchOption};
ghost use Rattle.conf_record.specs.Prelude.{chars, sequence, mapping, IsKept, Pair, tree_of, elements_of, members_of};
ghost use Rattle.conf_record.specs.Prelude.{path_of, edit_of, command_of, command_with, good_name};
ghost use Rattle.conf_record.specs.RecordsRead.{values, if_good, edit_from, edit_in, edits_of, batch_of, command_from, record_of};
ghost use Rattle.conf_record.specs.RecordsRead.{about_in, is_about, plain_from, without_about};
ghost use Rattle.conf_record.specs.Reading.{AreKept, AreKeptElements, KeepsTree, edit_seen, command_and_number};

use crate::edit_members::{EditMembers, members_from};
use crate::fields::{is_same, keys_are, last_value, number_from, split_first, text_in};
use crate::parts::part;
use conf_about::About;
use conf_state::{Command, Edit, Edits, good_name};
use json_pointer::is_pointer;
use std::alloc::{AllocError, Global};
use yaml_tree::{Text, Tree};

/// The command and the number of a record's tree; `None` if it is no record's. It fails only if memory runs out.
pub(crate) fn record_from(alloc: Global, tree: Tree) -> Result<Option<(Command, u64)>, AllocError>
    requires kept { IsKept (tree_of tree) }
    ensures { IfOk result (λ read. command_and_number read ≡ record_of (tree_of tree)) }
{
    let pairs = match tree {
        Tree::Text(_) => return Ok(None),
        Tree::Seq(_) => return Ok(None),
        Tree::Map(pairs) => pairs,
    };
    let Some((number, pairs)) = split_number(pairs) else {
        return Ok(None);
    };
    let Some(command) = command_from(alloc, pairs)? else {
        return Ok(None);
    };
    Ok(Some((command, number)))
}

/// The number of a record, and the pairs after it; `None` if the first pair has no good number.
fn split_number(pairs: Vec<(Text, Tree)>) -> Option<(u64, Vec<(Text, Tree)>)>
    ensures read { MatchOption result (record_of (mapping (members_of pairs.items)) ≡ None)
        (λ v. record_of (mapping (members_of pairs.items))
        ≡ option_map (λ command. (command, v.0)) (command_from (members_of v.1.items))) }
    ensures rest { IfSome result (λ v. (pair : Pair) × (pairs.items ≡ pair ∷ v.1.items)) }
{
    let ((key, value), rest) = split_first(pairs)?;
    if !is_same(&key, "at") {
        return None;
    }
    let digits = text_in(value)?;
    let number = number_from(&digits)?;
    Some((number, rest))
}

/// The command of the pairs after the number; `None` if they are no command's.
fn command_from(alloc: Global, pairs: Vec<(Text, Tree)>) -> Result<Option<Command>, AllocError>
    requires kept { AreKept (values (members_of pairs.items)) }
    ensures { IfOk result (λ read. option_map command_of read
        ≡ command_from (members_of pairs.items)) }
{
    let (pairs, about) = split_about(pairs)?;
    let Some(edits) = plain_from(alloc, pairs)? else {
        return Ok(None);
    };
    match about {
        Some(about) => Ok(Some(Command::Noted { edits, about })),
        None => Ok(Some(Command::from(edits))),
    }
}

/// The about that is the last of some pairs, if one is, and the pairs without it.
fn split_about(
    mut pairs: Vec<(Text, Tree)>,
) -> Result<(Vec<(Text, Tree)>, Option<About>), AllocError>
    ensures rest { IfOk result (λ split.
        members_of split.0.items ≡ without_about (members_of pairs.items)) }
    ensures about { IfOk result (λ split.
        option_map tree_of split.1 ≡ about_in (members_of pairs.items)) }
{
    let Some((key, tree)) = pairs.pop() else {
        return Ok((pairs, None));
    };
    match about_under(&key, tree) {
        Ok(about) => Ok((pairs, Some(about))),
        Err(tree) => {
            pairs.push((key, tree))?;
            Ok((pairs, None))
        }
    }
}

/// The about that a tree under a key is, or the tree.
fn about_under(key: &str, tree: Tree) -> Result<About, Tree>
    ensures about { IfOk result (λ about.
        (about ≡ tree) × (is_about (chars key.now) (tree_of tree) ≡ true)) }
    ensures other { IfErr result (λ other.
        (other ≡ tree) × (is_about (chars key.now) (tree_of tree) ≡ false)) }
{
    if !is_same(key, "about") {
        return Err(tree);
    }
    match About::of(tree) {
        Ok(about) => Ok(about),
        Err((tree, _)) => Err(tree),
    }
}

/// The edits of the pairs after the number, without an about; `None` if they are no command's.
fn plain_from(alloc: Global, pairs: Vec<(Text, Tree)>) -> Result<Option<Edits>, AllocError>
    requires kept { AreKept (values (members_of pairs.items)) }
    ensures { IfOk result (λ read. option_map command_with read
        ≡ plain_from (members_of pairs.items)) }
{
    if keys_are(&["batch"], &pairs) {
        return batch_from(alloc, pairs);
    }
    let read = edit_from(alloc, pairs)?;
    match read {
        Some(edit) => Ok(Some(Edits::Single(edit))),
        None => Ok(None),
    }
}

/// The batch with this value; `None` if it is no sequence, or an element of it is no edit.
fn batch_from(alloc: Global, pairs: Vec<(Text, Tree)>) -> Result<Option<Edits>, AllocError>
    requires kept { AreKept (values (members_of pairs.items)) }
    ensures { IfOk result (λ read. option_map command_with read
        ≡ batch_of (values (members_of pairs.items))) }
{
    let Some(items) = batch_items(pairs) else {
        return Ok(None);
    };
    let Some(edits) = edits_from(alloc, items)? else {
        return Ok(None);
    };
    Ok(Some(Edits::Batch(edits)))
}

/// The one value, if it is a sequence: its elements.
fn batch_items(pairs: Vec<(Text, Tree)>) -> Option<Vec<Tree>>
    ensures { MatchOption result (batch_of (values (members_of pairs.items)) ≡ None)
        (λ v. values (members_of pairs.items) ≡ sequence (elements_of v.items) ∷ []) }
{
    match last_value(pairs.into_iter())? {
        Tree::Text(_) => None,
        Tree::Seq(items) => Some(items),
        Tree::Map(_) => None,
    }
}

/// The edits of a batch, in their order; `None` if one of them is none.
fn edits_from(alloc: Global, items: Vec<Tree>) -> Result<Option<Vec<Edit>>, AllocError>
    requires { AreKeptElements (elements_of items.items) }
    ensures { IfOk result (λ read. option_map (λ edits. map edit_of edits.items) read
        ≡ edits_of (elements_of items.items)) }
{
    let mut edits = Vec::with_capacity(alloc, items.len())?;
    for item in items {
        let Some(edit) = edit_in(alloc, item)? else {
            return Ok(None);
        };
        edits.push(edit)?;
    }
    Ok(Some(edits))
}

/// The edit of an element of a batch; `None` if it is none.
fn edit_in(alloc: Global, tree: Tree) -> Result<Option<Edit>, AllocError>
    requires kept { IsKept (tree_of tree) }
    ensures { IfOk result (λ read. option_map edit_of read ≡ edit_in (tree_of tree)) }
{
    match tree {
        Tree::Text(_) => Ok(None),
        Tree::Seq(_) => Ok(None),
        Tree::Map(pairs) => edit_from(alloc, pairs),
    }
}

/// The edit of a mapping's pairs; `None` if they are no edit's, or its name or its path is not good.
fn edit_from(alloc: Global, pairs: Vec<(Text, Tree)>) -> Result<Option<Edit>, AllocError>
    requires kept { AreKept (values (members_of pairs.items)) }
    ensures { IfOk result (λ read. option_map edit_of read ≡ edit_from (members_of pairs.items)) }
{
    match members_from(pairs, "tree") {
        Some(members) => good_edit(alloc, members),
        None => Ok(None),
    }
}

/// The edit with these members; `None` if its name or its path is not good.
fn good_edit(alloc: Global, members: EditMembers<Text, Tree>) -> Result<Option<Edit>, AllocError>
    requires kept { KeepsTree (edit_seen members) }
    ensures { IfOk result (λ edit. option_map edit_of edit ≡ if_good (Some (edit_seen members))) }
{
    match members {
        EditMembers::Import { name, value } => {
            if !good_name(&name) {
                return Ok(None);
            }
            let name = name.into_string(alloc)?;
            let tree = part(value);
            Ok(Some(Edit::Import { name, tree }))
        }
        EditMembers::Set { name, path, value } => {
            if !are_good(&name, &path) {
                return Ok(None);
            }
            let name = name.into_string(alloc)?;
            let path = path.into_string(alloc)?;
            let value = part(value);
            Ok(Some(Edit::Set { name, path, value }))
        }
        EditMembers::Delete { name, path } => {
            if !are_good(&name, &path) {
                return Ok(None);
            }
            let name = name.into_string(alloc)?;
            let path = path.into_string(alloc)?;
            Ok(Some(Edit::Delete { name, path }))
        }
    }
}

/// Whether a name and a path (RFC 6901) are good.
fn are_good(name: &str, path: &str) -> bool
    ensures { result ≡ (good_name (chars name.now) && is_ok (path_of (chars path.now))) }
{
    good_name(name) && is_pointer(path)
}
