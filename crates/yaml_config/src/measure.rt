// Lengths after edits, found without making the edits.
ghost use Rattle.std.specs.Prelude.{◌≡◌, ◌⊎◌, ◌<◌, ◌≤◌, Ok, Err, IfOk, IfErr, length};
ghost use Rattle.yaml_config.specs.Prelude.{chars, byte_len, depth, style_text, own_limits, tree_of, element_size, at};
ghost use Rattle.yaml_config.specs.Prelude.{set, delete, child, put, cut, key_in, ArePlaces, Knows, KnowsWay};
ghost use Rattle.yaml_grammar.specs.Trees.{Tree as Meant};
ghost use Rattle.yaml_config.specs.Kept.{IsKept};
ghost use Rattle.yaml_config.specs.Changes.{Changes, ChangesSmall, Located};
ghost use Rattle.json_pointer.specs.Tokens.{texts};

use crate::change::{Change, Slot, element_row, growth, member_row};
use crate::config::Config;
use std::alloc::Global;
use std::borrow::CowStr;
use tree_path::{Known, Miss, Path, PathFault, StepPlaces, child_at, child_in};
use yaml_data::Tree;
use yaml_writer::{Size, style_len};

/// The node that an edit changes, and its context.
#[derive(Clone, Copy)]
struct Parent<'t> {
    node: &'t Tree,
    slot: Slot,
}

/// What an edit changes in a tree's length, and the places of its path's steps.
#[derive(Drop)]
pub struct Plan {
    /// What the edit changes.
    pub change: Change,
    /// Where the steps of the path lead.
    pub places: StepPlaces,
}

/// What [`set`](tree_path::set) changes in the length of a configuration, without setting anything, and where the
/// path's steps lead, for [`set_planned`](tree_path::set_planned). The path is not empty, and the value is the tree of
/// a configuration. The faults are those of `set`.
///
/// Memory is taken for the places alone. Its time grows with the path, the value and what the value replaces, and not
/// with the configuration, except that a key is compared with the keys of its mapping one by one where the
/// configuration has no index of the mapping.
pub fn plan_set(
    alloc: Global,
    config: &Config,
    path: &Path,
    value: &Tree,
) -> Result<Plan, PathFault>
    requires steps { 0 < length path.now }
    requires kept { IsKept (tree_of value.now) }
    ensures ok { IfOk result (λ plan. (new : Meant)
        × (set (tree_of config.now) path.now (tree_of value.now) ≡ Ok new)
        × Changes plan.change (tree_of config.now) new) }
    ensures places { IfOk result (λ plan.
        ArePlaces plan.places (tree_of config.now) path.now) }
    ensures refused { IfErr result (λ fault. (fault ≡ PathFault.OutOfMemory)
        ⊎ (set (tree_of config.now) path.now (tree_of value.now) ≡ Err fault)) }
{
    plan_set_sized(alloc, config, path, value, Size::of_element(value))
}

/// The plan of [`plan_set`] for a value whose size as an element is known, so that it isn't measured.
pub(crate) fn plan_set_sized(
    alloc: Global,
    config: &Config,
    path: &Path,
    value: &Tree,
    element: Size,
) -> Result<Plan, PathFault>
    requires steps { 0 < length path.now }
    requires kept { IsKept (tree_of value.now) }
    requires size { element ≡ element_size (tree_of value.now) }
    ensures ok { IfOk result (λ plan. (new : Meant)
        × (set (tree_of config.now) path.now (tree_of value.now) ≡ Ok new)
        × Changes plan.change (tree_of config.now) new) }
    ensures places { IfOk result (λ plan.
        ArePlaces plan.places (tree_of config.now) path.now) }
    ensures refused { IfErr result (λ fault. (fault ≡ PathFault.OutOfMemory)
        ⊎ (set (tree_of config.now) path.now (tree_of value.now) ≡ Err fault)) }
{
    let tree = config.tree();
    let places = StepPlaces::find(alloc, tree, path, config.index())?;
    let change = set_change(tree, path.tokens(), Known::Found(&places), value, element)?;
    Ok(Plan { change, places })
}

/// What [`delete`](tree_path::delete) changes in the length of a configuration, without deleting anything, and where
/// the path's steps lead, for [`delete_planned`](tree_path::delete_planned). The path is not empty. The faults are
/// those of `delete`, and [`PathFault::OutOfMemory`].
///
/// Memory is taken for the places alone. Its time grows with the path and with what is deleted, and not with the
/// configuration, except that a key is compared with the keys of its mapping one by one where the configuration has no
/// index of the mapping.
pub fn plan_delete(alloc: Global, config: &Config, path: &Path) -> Result<Plan, PathFault>
    requires { 0 < length path.now }
    ensures ok { IfOk result (λ plan. (new : Meant)
        × (delete (tree_of config.now) path.now ≡ Ok new)
        × Changes plan.change (tree_of config.now) new) }
    ensures places { IfOk result (λ plan.
        ArePlaces plan.places (tree_of config.now) path.now) }
    ensures refused { IfErr result (λ fault. (fault ≡ PathFault.OutOfMemory)
        ⊎ (delete (tree_of config.now) path.now ≡ Err fault)) }
{
    let tree = config.tree();
    let places = StepPlaces::find(alloc, tree, path, config.index())?;
    let change = delete_change(tree, path.tokens(), Known::Found(&places))?;
    Ok(Plan { change, places })
}

/// How many bytes a configuration has in the one style after [`set`](tree_path::set), without setting anything. The
/// value is the tree of a configuration, and the path may be empty. It takes no memory, and the time of [`plan_set`].
/// The faults are those of `set`, but for running out of memory.
pub fn set_len(config: &Config, path: &Path, value: &Tree) -> Result<u128, PathFault>
    requires { IsKept (tree_of value.now) }
    ensures ok { IfOk result (λ bytes. (new : Meant)
        × (set (tree_of config.now) path.now (tree_of value.now) ≡ Ok new)
        × (bytes ≡ byte_len (style_text new))) }
    ensures refused { IfErr result (λ fault. set (tree_of config.now) path.now (tree_of value.now)
        ≡ Err fault) }
{
    if path.steps() == 0 {
        return Ok(u128::from(style_len(value, u64::MAX).unwrap()));
    }
    let element = Size::of_element(value);
    let change = set_change(config.tree(), path.tokens(), Known::Nothing, value, element)?;
    Ok(change.length_after(config.style_length(), 0))
}

/// How many bytes a configuration has in the one style after [`delete`](tree_path::delete), without deleting anything.
/// The path is not empty. It takes no memory, and the time of [`plan_delete`]. The faults are those of `delete`.
pub fn delete_len(config: &Config, path: &Path) -> Result<u128, PathFault>
    requires { 0 < length path.now }
    ensures ok { IfOk result (λ bytes. (new : Meant)
        × (delete (tree_of config.now) path.now ≡ Ok new) × (bytes ≡ byte_len (style_text new))) }
    ensures refused { IfErr result (λ fault. delete (tree_of config.now) path.now ≡ Err fault) }
{
    let change = delete_change(config.tree(), path.tokens(), Known::Nothing)?;
    Ok(change.length_after(config.style_length(), 0))
}

/// What setting a value at the end of the tokens changes. `element` is the value's size as an element.
fn set_change(
    tree: &Tree,
    tokens: &[CowStr<'_>],
    known: Known<'_>,
    value: &Tree,
    element: Size,
) -> Result<Change, PathFault>
    requires steps { 0 < length tokens.now }
    requires known { Knows known (tree_of tree.now) (texts tokens.now) }
    requires tree { IsKept (tree_of tree.now) }
    requires value { IsKept (tree_of value.now) }
    requires size { element ≡ element_size (tree_of value.now) }
    ensures ok { IfOk result (λ change. (new : Meant)
        × (set (tree_of tree.now) (texts tokens.now) (tree_of value.now) ≡ Ok new)
        × Changes change (tree_of tree.now) new) }
    ensures refused { IfErr result (λ fault.
        set (tree_of tree.now) (texts tokens.now) (tree_of value.now) ≡ Err fault) }
{
    let (last, parents) = tokens.split_last().unwrap();
    let parent = parent_at(tree, parents, known)?;
    let token = last.as_str();
    let place = known.key_place(parent.node, token);
    match put_change(&parent, token, place, value, element) {
        Ok(change) => Ok(change.shifted(2 * parents.len() as u128)),
        Err(miss) => Err(miss.at_step(tokens.len())),
    }
}

/// What deleting the value at the end of the tokens changes.
fn delete_change(tree: &Tree, tokens: &[CowStr<'_>], known: Known<'_>) -> Result<Change, PathFault>
    requires steps { 0 < length tokens.now }
    requires known { Knows known (tree_of tree.now) (texts tokens.now) }
    requires tree { IsKept (tree_of tree.now) }
    ensures ok { IfOk result (λ change. (new : Meant)
        × (delete (tree_of tree.now) (texts tokens.now) ≡ Ok new)
        × Changes change (tree_of tree.now) new) }
    ensures refused { IfErr result (λ fault. delete (tree_of tree.now) (texts tokens.now)
        ≡ Err fault) }
{
    let (last, parents) = tokens.split_last().unwrap();
    let parent = parent_at(tree, parents, known)?;
    let token = last.as_str();
    let place = known.key_place(parent.node, token);
    match cut_change(&parent, token, place) {
        Ok(change) => Ok(change.shifted(2 * parents.len() as u128)),
        Err(miss) => Err(miss.at_step(tokens.len())),
    }
}

/// The node to which the tokens lead, and its context.
fn parent_at<'t>(
    tree: &'t Tree,
    tokens: &[CowStr<'_>],
    known: Known<'_>,
) -> Result<Parent<'t>, PathFault>
    requires { KnowsWay known (texts tokens.now) (tree_of tree.now) }
    ensures ok { IfOk result (λ parent.
        Located (texts tokens.now) Slot.Value (tree_of tree.now) parent.slot
        (tree_of parent.node.now)) }
    ensures refused { IfErr result (λ fault. at (tree_of tree.now) (texts tokens.now) ≡ Err fault) }
{
    let mut node = tree;
    let mut slot = Slot::Value;
    for (passed, token) in tokens.iter().enumerate() {
        let place = match known.step_place(passed, node, token.as_str()) {
            Ok(place) => place,
            Err(miss) => return Err(miss.at_step(passed + 1)),
        };
        slot = Slot::in_collection(node);
        node = child_in(node, place);
    }
    Ok(Parent { node, slot })
}

/// What putting a value into a node changes in its length, where the place of its key is known. `element` is the
/// value's size as an element.
fn put_change(
    parent: &Parent<'_>,
    token: &str,
    place: Option<usize>,
    value: &Tree,
    element: Size,
) -> Result<Change, Miss>
    requires place { place ≡ key_in (tree_of parent.now.node.now) (chars token.now) }
    requires deep { depth (tree_of parent.now.node.now) ≤ own_limits.depth }
    requires long { byte_len (style_text (tree_of parent.now.node.now)) ≤ own_limits.style }
    requires value_deep { depth (tree_of value.now) ≤ own_limits.depth }
    requires value_long { byte_len (style_text (tree_of value.now)) ≤ own_limits.style }
    requires size { element ≡ element_size (tree_of value.now) }
    ensures ok { IfOk result (λ change. (new : Meant)
        × (put (tree_of parent.now.node.now) (chars token.now) (tree_of value.now) ≡ Ok new)
        × ChangesSmall parent.now.slot change (tree_of parent.now.node.now) new) }
    ensures missed { IfErr result
        (λ miss. put (tree_of parent.now.node.now) (chars token.now) (tree_of value.now)
        ≡ Err miss) }
{
    let miss = match child_at(parent.node, token, place) {
        Ok(old) => {
            let slot = Slot::in_collection(parent.node);
            return Ok(Change {
                removed: slot.size_of(old),
                added: slot.size_from(element, value),
            });
        }
        Err(miss) => miss,
    };
    match parent.node {
        Tree::Text(_) => Err(miss),
        Tree::Seq(items) => {
            if token == "-" {
                return Ok(growth(items.len(), element_row(element), parent.slot));
            }
            Err(miss)
        }
        Tree::Map(pairs) => {
            let row = member_row(token, element.after_key(value));
            Ok(growth(pairs.len(), row, parent.slot))
        }
    }
}

/// What taking a value out of a node changes in its length, where the place of its key is known.
fn cut_change(parent: &Parent<'_>, token: &str, place: Option<usize>) -> Result<Change, Miss>
    requires place { place ≡ key_in (tree_of parent.now.node.now) (chars token.now) }
    requires deep { depth (tree_of parent.now.node.now) ≤ own_limits.depth }
    requires long { byte_len (style_text (tree_of parent.now.node.now)) ≤ own_limits.style }
    ensures ok { IfOk result (λ change. (new : Meant)
        × (cut (tree_of parent.now.node.now) (chars token.now) ≡ Ok new)
        × ChangesSmall parent.now.slot change (tree_of parent.now.node.now) new) }
    ensures missed { IfErr result (λ miss. cut (tree_of parent.now.node.now) (chars token.now)
        ≡ Err miss) }
{
    let old = child_at(parent.node, token, place)?;
    match parent.node {
        Tree::Text(_) => Err(Miss::Absent),
        Tree::Seq(items) => {
            let row = element_row(Size::of_element(old));
            Ok(growth(items.len() - 1, row, parent.slot).reversed())
        }
        Tree::Map(pairs) => {
            let row = member_row(token, Size::of_value(old));
            Ok(growth(pairs.len() - 1, row, parent.slot).reversed())
        }
    }
}
