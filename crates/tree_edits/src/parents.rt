// A set together with the mappings that its pointer needs.
ghost use Rattle.std.specs.Prelude.{◌≡◌, ℕ, List, [], ◌∷◌, IfOk, IfErr, OnOk, length};
ghost use Rattle.tree_edits.specs.Prelude.{chars, pointer_text, texts, tree_of};
ghost use Rattle.tree_edits.specs.Changes.{IsRefused, IsSpelled, set_of, text_of};
ghost use Rattle.tree_edits.specs.Parents.{keys_behind, lacks, steps_behind, under_keys, with_parents, without_last};

use crate::changes::PlainSet;
use crate::fault::EditFault;
use crate::pointer::cut_steps;
use crate::value::value_of;
use std::alloc::{AllocError, Global};
use std::borrow::CowStr;
use tree_path::{Path, PathFault, child, key_in};
use yaml_config::{Config, Limits};
use yaml_data::{Text, Tree};

/// A `set` of a value at a pointer, with the mappings that are missing on its way: if a mapping lacks the key of a step
/// that is not the last, the set is made there, and each step behind it becomes the only key of a new mapping, as it
/// is, also `0` or `-`. Otherwise it is the plain set of the value at the pointer, even if that is refused: a text in
/// place of a collection is not replaced, and a list gets no elements.
///
/// # Errors
///
/// - [`EditFault::TooDeep`] if the value would be more than 131 deep in the new mappings.
/// - [`EditFault::TooLarge`] if it would have more than 67,108,864 bytes in the one style.
///
/// [`EditFault::OutOfMemory`] may come at any point.
pub fn with_parents(
    alloc: Global,
    tree: &Config,
    path: String,
    value: Config,
) -> Result<PlainSet, EditFault>
    ensures ok { IfOk result (λ plain. set_of plain
        ≡ with_parents (tree_of tree.now) (text_of path) (tree_of value)) }
    ensures refused { IfErr result (λ fault. IsRefused
        (with_parents (tree_of tree.now) (text_of path) (tree_of value)).value fault) }
{
    match value_below(alloc, tree.tree(), &path, value) {
        Ok((value, steps)) => Ok(set_before(path, steps, value)),
        Err(fault) => Err(fault),
    }
}

/// The set of a value, at the pointer without its last steps, of which there are so many.
fn set_before(path: String, steps: usize, value: Config) -> PlainSet
    ensures value { tree_of result.value ≡ tree_of value }
    ensures path { (path_steps : List (List ℕ)) → text_of path ≡ pointer_text path_steps
        → text_of result.path ≡ pointer_text (without_last steps path_steps) }
    ensures none { steps ≡ 0 → text_of result.path ≡ text_of path }
{
    let mut path = path;
    cut_steps(&mut path, steps);
    PlainSet { path, value }
}

/// The value to set where a key is missing, and how many steps are behind that key: none, if no key is missing or the
/// text is no pointer. The faults are those of [`with_parents`].
fn value_below(
    alloc: Global,
    tree: &Tree,
    path: &str,
    value: Config,
) -> Result<(Config, usize), EditFault>
    ensures ok { IfOk result (λ below. (below.1 ≡ length (keys_behind (tree_of tree.now) (chars path.now)))
        × (tree_of below.0 ≡ under_keys (keys_behind (tree_of tree.now) (chars path.now)) (tree_of value))) }
    ensures spelled { OnOk result (IsSpelled (chars path.now)) }
    ensures refused { IfErr result (λ fault. IsRefused
        (under_keys (keys_behind (tree_of tree.now) (chars path.now)) (tree_of value)) fault) }
{
    let path = match Path::parse(alloc, path) {
        Ok(path) => path,
        Err(PathFault::OutOfMemory) => return Err(EditFault::OutOfMemory),
        Err(_) => return Ok((value, 0)),
    };
    let keys = steps_behind(tree, path.tokens());
    match value_under(alloc, keys, value) {
        Ok(value) => Ok((value, keys.len())),
        Err(fault) => Err(fault),
    }
}

/// The steps behind the first one whose key a mapping lacks; none if no mapping on the way lacks one.
fn steps_behind<'k, 't: 'k>(tree: &Tree, steps: &'k [CowStr<'t>]) -> &'k [CowStr<'t>]
    ensures { texts result.now ≡ steps_behind (tree_of tree.now) (texts steps.now) }
{
    let mut value = tree;
    for (passed, step) in steps.iter().enumerate() {
        if lacks(value, step.as_str()) {
            return &steps[passed + 1..];
        }
        value = match child(value, step.as_str()) {
            Ok(child) => child,
            Err(_) => break,
        };
    }
    &steps[steps.len()..]
}

/// Whether a tree is a mapping that lacks the key.
fn lacks(tree: &Tree, key: &str) -> bool
    ensures { result ≡ lacks (tree_of tree.now) (chars key.now) }
{
    match tree {
        Tree::Map(_) => key_in(tree, key).is_none(),
        Tree::Text(_) | Tree::Seq(_) => false,
    }
}

/// A value under keys, each the only one of a mapping. The faults are those of [`with_parents`].
fn value_under(alloc: Global, keys: &[CowStr<'_>], value: Config) -> Result<Config, EditFault>
    ensures ok { IfOk result (λ under. tree_of under ≡ under_keys (texts keys.now) (tree_of value)) }
    ensures refused { IfErr result (λ fault. IsRefused
        (under_keys (texts keys.now) (tree_of value)) fault) }
{
    if keys.is_empty() {
        return Ok(value);
    }
    if (keys.len() as u64).saturating_add(value.depth()) > Limits::KEPT.depth {
        return Err(EditFault::TooDeep);
    }
    match under_keys(alloc, keys, value.into_tree()) {
        Ok(tree) => value_of(tree),
        Err(_) => Err(EditFault::OutOfMemory),
    }
}

/// A tree under keys, each the only one of a mapping. It fails only if memory runs out.
fn under_keys(alloc: Global, keys: &[CowStr<'_>], value: Tree) -> Result<Tree, AllocError>
    ensures { IfOk result (λ under. tree_of under ≡ under_keys (texts keys.now) (tree_of value)) }
{
    let mut tree = value;
    let mut left = keys.len();
    while left > 0 {
        left -= 1;
        tree = under_key(alloc, keys[left].as_str(), tree)?;
    }
    Ok(tree)
}

/// A mapping whose only key has this value. It fails only if memory runs out.
fn under_key(alloc: Global, key: &str, value: Tree) -> Result<Tree, AllocError>
    ensures { IfOk result (λ under. tree_of under ≡ under_keys (chars key.now ∷ []) (tree_of value)) }
{
    let mut pairs = Vec::with_capacity(alloc, 1)?;
    pairs.push((Text::new(alloc, key)?, value))?;
    Ok(Tree::Map(pairs))
}
