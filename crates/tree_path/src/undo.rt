// A set that can be taken back. What it displaced is kept, with its place, so that nothing is searched for then, and no
// memory is needed.
ghost use Rattle.std.specs.Prelude.{◌≡◌, ◌⊎◌, ◌<◌, ◌-◌, ℕ, List, IfOk, IfErr, OnOk, OnErr, Ok, Err, length, take};
ghost use Rattle.tree_path.specs.Prelude.{tree_of};
ghost use Rattle.yaml_grammar.specs.Trees.{Tree as Meant};
ghost use Rattle.tree_path.specs.Paths.{set};
ghost use Rattle.tree_path.specs.Steps.{ArePlaces, Leads, Lowered, Rebuilt};
ghost use Rattle.tree_path.specs.Undoing.{IsUndo, PutsBack};
ghost use Rattle.tree_path.specs.declared.undo.Displaced.{Displaced};

use crate::edit::set_last;
use crate::place;
use crate::step_places::{Known, StepPlaces};
use json_pointer::{Path, PathFault};
use std::alloc::Global;
use std::mem;
use yaml_data::{Text, Tree};

/// What a value displaced in the collection that it was put into.
#[derive(Drop)]
pub(crate) enum Displaced {
    /// The value that was at this place, from 0.
    Value { place: usize, value: Tree },
    /// Nothing: the value was added last.
    Nothing,
}

/// What takes a set back.
#[derive(Drop)]
pub struct Undo {
    /// For each step but the last, the place of the element or the pair, from 0.
    parents: Vec<usize>,
    displaced: Displaced,
}

/// The edit of [`set_planned`](crate::set_planned), at a path that is not empty. Returns what takes it back. The faults
/// are those of [`set`](crate::set).
pub fn set_undoable(
    alloc: Global,
    tree: &mut Tree,
    path: &Path,
    places: StepPlaces,
    value: Tree,
) -> Result<Undo, (Tree, PathFault)>
    requires steps { 0 < length path.now }
    requires places { ArePlaces places (tree_of tree.old) path.now }
    ensures ok { OnOk result (set (tree_of tree.old) path.now (tree_of value)
        ≡ Ok (tree_of tree.new)) }
    ensures undo { IfOk result (λ undo. IsUndo undo (tree_of tree.new) (tree_of tree.old)) }
    ensures refused { IfErr result
        (λ refused. (refused.1 ≡ PathFault.OutOfMemory)
        ⊎ (set (tree_of tree.old) path.now (tree_of value) ≡ Err refused.1)) }
    ensures value_back { IfErr result (λ refused. tree_of refused.0 ≡ tree_of value) }
    ensures unchanged { OnErr result (tree_of tree.new ≡ tree_of tree.old) }
{
    let tokens = path.tokens();
    let displaced = match set_last(alloc, tree, tokens, Known::Found(&places), value) {
        Ok(displaced) => displaced,
        Err(refused) => return Err(refused),
    };
    let StepPlaces { mut parents, .. } = places;
    parents.truncate(tokens.len() - 1);
    Ok(Undo { parents, displaced })
}

/// Takes back the set that made this tree. It takes no memory.
pub fn undo_set(tree: &mut Tree, undo: Undo)
    requires { (before : Meant) × IsUndo undo (tree_of tree.old) before }
    ensures { (before : Meant) → IsUndo undo (tree_of tree.old) before → tree_of tree.new ≡ before }
{
    let Undo { parents, displaced } = undo;
    let mut above = Tree::Text(Text::empty());
    let places = parents.as_slice();
    lower(tree, &mut above, places);
    put_back(tree, displaced);
    raise(tree, &mut above, places);
}

/// Goes down a tree by the places of steps. The tree becomes the value that they lead to, and what is above it goes
/// into `above`, together with what was there.
fn lower(tree: &mut Tree, above: &mut Tree, places: &[usize])
    requires { (steps : List (List ℕ)) × (length steps ≡ length places.now)
        × Leads steps (tree_of tree.old) places.now }
    ensures { (steps : List (List ℕ)) → length steps ≡ length places.now
        → Leads steps (tree_of tree.old) places.now
        → Lowered steps (tree_of tree.old) (tree_of above.old) (tree_of tree.new)
        (tree_of above.new) }
{
    for (passed, place) in places.iter().enumerate() {
        place::exchange(tree, *place, above);
        mem::swap(tree, above);
    }
}

/// Goes back up by the places of [`lower`]: the tree becomes the one that it was taken out of, with what it was in its
/// place.
fn raise(tree: &mut Tree, above: &mut Tree, places: &[usize])
    requires { (steps : List (List ℕ)) × (t a u : Meant) × (length steps ≡ length places.now)
        × Leads steps t places.now × Lowered steps t a u (tree_of above.old) }
    ensures { (steps : List (List ℕ)) (t a u : Meant) → length steps ≡ length places.now
        → Leads steps t places.now → Lowered steps t a u (tree_of above.old)
        → Rebuilt steps t (tree_of tree.old) (tree_of tree.new) }
{
    let mut left = places.len();
    while left > 0 {
        left -= 1;
        mem::swap(tree, above);
        place::exchange(tree, places[left], above);
    }
}

/// Puts back what was displaced in this collection, or takes out what was added to it last.
fn put_back(tree: &mut Tree, displaced: Displaced)
    requires { (before : Meant) × PutsBack displaced (tree_of tree.old) before }
    ensures { (before : Meant) → PutsBack displaced (tree_of tree.old) before
        → tree_of tree.new ≡ before }
{
    match displaced {
        Displaced::Value { place, mut value } => place::exchange(tree, place, &mut value),
        Displaced::Nothing => take_last(tree),
    }
}

/// Takes out the last value of a collection.
fn take_last(tree: &mut Tree)
    ensures { (before : Meant) → PutsBack Displaced.Nothing (tree_of tree.old) before
        → tree_of tree.new ≡ before }
{
    match tree {
        Tree::Text(_) => {}
        Tree::Seq(items) => drop_last(items),
        Tree::Map(pairs) => drop_last(pairs),
    }
}

/// Drops the last item of a list.
fn drop_last<T: Drop>(list: &mut Vec<T>)
    ensures { list.new.items ≡ take (length list.old.items - 1) list.old.items }
{
    let count = list.len();
    list.truncate(count.saturating_sub(1));
}
