// A value inserted into a list.
ghost use Rattle.std.specs.Prelude.{◌≡◌, ◌≤◌, ℕ, List, IfOk, IfErr, IfSome, MatchOption, Some, None, length};
ghost use Rattle.tree_edits.specs.Prelude.{IsKept, at, chars, depth, elements_of, own_limits, parents_of, pointer_text};
ghost use Rattle.tree_edits.specs.Prelude.{sequence, texts, tree_of};
ghost use Rattle.tree_edits.specs.Changes.{IsRefused, found, set_of, text_of};
ghost use Rattle.tree_edits.specs.Insertions.{IsPoint, inserted, list_with, list_with_point};
ghost use Rattle.yaml_grammar.specs.Trees.{Tree as Meant};

use crate::changes::PlainSet;
use crate::fault::EditFault;
use crate::index::place_in;
use crate::pointer::cut_step;
use crate::value::value_of;
use std::alloc::{AllocError, Global};
use std::borrow::CowStr;
use tree_path::{Path, PathFault, child};
use yaml_config::{Config, Limits};
use yaml_data::Tree;

/// Where a value is inserted into a list.
#[derive(Clone, Copy)]
struct Point<'t> {
    elements: &'t [Tree],
    /// The place of the value among them, from 0.
    place: usize,
}

/// A `set` that inserts a value into a list, as the operation `add` of RFC 6902 does (4.1): if the steps before the
/// last lead to a list, and the last one is an index of at most its length or `-`, the set is of the whole list, with
/// the value before the element at the index, or last for the length and `-`. Otherwise it is the plain set of the
/// value at the pointer.
///
/// # Errors
///
/// - [`EditFault::TooDeep`] if the list with the value would be more than 131 deep.
/// - [`EditFault::TooLarge`] if it would have more than 67,108,864 bytes in the one style.
///
/// [`EditFault::OutOfMemory`] may come at any point.
pub fn inserted(
    alloc: Global,
    tree: &Config,
    path: String,
    value: Config,
) -> Result<PlainSet, EditFault>
    ensures ok { IfOk result (λ plain. set_of plain
        ≡ inserted (tree_of tree.now) (text_of path) (tree_of value)) }
    ensures refused { IfErr result (λ fault. IsRefused
        (inserted (tree_of tree.now) (text_of path) (tree_of value)).value fault) }
{
    match find_point(alloc, tree.tree(), &path) {
        Ok(Some(point)) => match list_with(alloc, point, value) {
            Ok(list) => Ok(set_of_list(path, list)),
            Err(fault) => Err(fault),
        },
        Ok(None) => Ok(PlainSet { path, value }),
        Err(_) => Err(EditFault::OutOfMemory),
    }
}

/// The set of a list, at the pointer without its last step.
fn set_of_list(path: String, list: Config) -> PlainSet
    ensures list { tree_of result.value ≡ tree_of list }
    ensures path { (steps : List (List ℕ)) → text_of path ≡ pointer_text steps
        → text_of result.path ≡ pointer_text (parents_of steps) }
{
    let mut path = path;
    cut_step(&mut path);
    PlainSet { path, value: list }
}

/// The point to which a pointer leads; `None` if it leads to none. It fails only if memory runs out.
fn find_point<'t>(
    alloc: Global,
    tree: &'t Tree,
    path: &str,
) -> Result<Option<Point<'t>>, AllocError>
    requires { IsKept (tree_of tree.now) }
    ensures { IfOk result (λ point. IsPoint (tree_of tree.now) (chars path.now) point) }
{
    let path = match Path::parse(alloc, path) {
        Ok(path) => path,
        Err(PathFault::OutOfMemory) => return Err(AllocError),
        Err(_) => return Ok(None),
    };
    let Some((last, parents)) = path.tokens().split_last() else {
        return Ok(None);
    };
    match value_at(tree, parents) {
        Some(list) => Ok(point_in(list, last.as_str())),
        None => Ok(None),
    }
}

/// The value to which steps lead, if there is one.
fn value_at<'t>(tree: &'t Tree, steps: &[CowStr<'_>]) -> Option<&'t Tree>
    ensures { MatchOption result (found (at (tree_of tree.now) (texts steps.now)) ≡ None)
        (λ value. found (at (tree_of tree.now) (texts steps.now)) ≡ Some (tree_of value.now)) }
{
    let mut value = tree;
    for step in steps {
        value = match child(value, step.as_str()) {
            Ok(child) => child,
            Err(_) => return None,
        };
    }
    Some(value)
}

/// The point to which a token leads in a list; `None` if it leads to none, or the tree is no list.
fn point_in<'t>(tree: &'t Tree, token: &str) -> Option<Point<'t>>
    ensures leads { (v : Meant) → list_with_point result v
        ≡ list_with (tree_of tree.now) (chars token.now) v }
    ensures inside { IfSome result (λ point. point.place ≤ length point.elements.now) }
    ensures same { IfSome result (λ point.
        tree_of tree.now ≡ sequence (elements_of point.elements.now)) }
{
    let Tree::Seq(elements) = tree else {
        return None;
    };
    let place = place_in(token, elements.len())?;
    Some(Point { elements, place })
}

/// A copy of the list at a point, with a value there. The faults are those of [`inserted`].
fn list_with(alloc: Global, point: Point<'_>, value: Config) -> Result<Config, EditFault>
    requires inside { point.place ≤ length point.elements.now }
    requires kept { IsKept (sequence (elements_of point.elements.now)) }
    ensures ok { IfOk result (λ list. list_with_point (Some point.entry) (tree_of value)
        ≡ Some (tree_of list)) }
    ensures refused { IfErr result (λ fault. (list : Meant)
        → list_with_point (Some point.entry) (tree_of value) ≡ Some list → IsRefused list fault) }
{
    if value.depth() >= Limits::KEPT.depth {
        return Err(EditFault::TooDeep);
    }
    let mut elements = copies(alloc, point.elements)?;
    elements.insert(point.place, value.into_tree())?;
    value_of(Tree::Seq(elements))
}

/// Copies of trees, in order. It fails only if memory runs out.
fn copies(alloc: Global, trees: &[Tree]) -> Result<Vec<Tree>, AllocError>
    requires { depth (sequence (elements_of trees.now)) ≤ own_limits.depth }
    ensures { IfOk result (λ copies. elements_of copies.items ≡ elements_of trees.now) }
{
    let mut copies = Vec::with_capacity(alloc, trees.len())?;
    for tree in trees {
        copies.push(tree.try_copy(alloc)?)?;
    }
    Ok(copies)
}
