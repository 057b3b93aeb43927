// The value at a path, and the edits of a tree there. An edit goes down to the parent of its place and back up in
// loops, so the call stack doesn't grow with the path. On the way down each value is taken out of its parent, and what
// is above it is kept in the place that this leaves free.
ghost use Rattle.std.specs.Prelude.{◌≡◌, ◌⊎◌, ◌<◌, true, IfOk, IfErr, IfSome, OnOk, OnErr, Ok, Err, length};
ghost use Rattle.tree_path.specs.Prelude.{chars, distinct, sequence, mapping, tree_of, elements_of, members_of, texts};
ghost use Rattle.std.specs.Vec.{vec_len, vec_capacity};
ghost use Rattle.yaml_grammar.specs.Trees.{Tree as Meant};
ghost use Rattle.tree_path.specs.Paths.{at_step, at, put, cut, set, delete, child, key_in};
ghost use Rattle.tree_path.specs.Steps.{ArePlaces, Knows, KnowsWay, Lowered, Rebuilt, key_place, parents_of};
ghost use Rattle.tree_path.specs.Tables.{Indexes};
ghost use Rattle.tree_path.specs.Undoing.{IsBack, PutsBack};

use crate::key_index::{KeyIndex, table_at};
use crate::place::{self, Miss};
use crate::step_places::{Known, StepPlaces};
use crate::undo::Displaced;
use json_pointer::{Path, PathFault};
use std::alloc::{AllocError, Global};
use std::borrow::CowStr;
use std::mem;
use yaml_data::{Text, Tree};

/// The value at a path (RFC 6901, 4). In a mapping a token is a key; in a sequence it is an index, from 0.
///
/// # Errors
///
/// The fault is that of the first step that leads nowhere, with its number, from 1:
///
/// - [`PathFault::NoSuchPlace`] if the step leads to nothing.
/// - [`PathFault::NotIndex`] if it leads into a sequence, and is neither an index nor `-`.
pub fn at<'t>(tree: &'t Tree, path: &Path) -> Result<&'t Tree, PathFault>
    ensures ok { IfOk result (λ value. at (tree_of tree.now) path.now ≡ Ok (tree_of value.now)) }
    ensures refused { IfErr result (λ fault. at (tree_of tree.now) path.now ≡ Err fault) }
{
    value_at(tree, path.tokens())
}

/// The same as [`at`] in a tree in whose mappings no key comes twice. A key is looked up where the index knows the keys
/// of its mapping. It takes no memory.
pub fn at_by<'t>(
    tree: &'t Tree,
    path: &Path,
    index: Option<&KeyIndex>,
) -> Result<&'t Tree, PathFault>
    requires distinct { distinct (tree_of tree.now) ≡ true }
    requires index { IfSome index (λ index. Indexes index.now (tree_of tree.now)) }
    ensures ok { IfOk result (λ value. at (tree_of tree.now) path.now ≡ Ok (tree_of value.now)) }
    ensures refused { IfErr result (λ fault. at (tree_of tree.now) path.now ≡ Err fault) }
{
    value_by(tree, path.tokens(), index)
}

/// Puts a value at a path, in place. Every step but the last leads to a value that is there, as in [`at`]. At the last
/// one a key that is there keeps its place in the mapping, and a new key goes last. An index replaces its element, and
/// `-` means a new element after the last one. The empty path replaces the whole tree.
///
/// # Errors
///
/// The value is returned with the fault, and the tree is as it was. The faults are those of [`at`], where the last step
/// may lead to a new key or be `-`; [`PathFault::OutOfMemory`] may come at any point.
pub fn set(
    alloc: Global,
    tree: &mut Tree,
    path: &Path,
    value: Tree,
) -> Result<(), (Tree, PathFault)>
    ensures ok { OnOk result (set (tree_of tree.old) path.now (tree_of value)
        ≡ Ok (tree_of tree.new)) }
    ensures refused { IfErr result
        (λ refused. (refused.1 ≡ PathFault.OutOfMemory)
        ⊎ (set (tree_of tree.old) path.now (tree_of value) ≡ Err refused.1)) }
    ensures value_back { IfErr result (λ refused. tree_of refused.0 ≡ tree_of value) }
    ensures unchanged { OnErr result (tree_of tree.new ≡ tree_of tree.old) }
{
    set_at(alloc, tree, path.tokens(), Known::Nothing, value)
}

/// The edit of [`set`], where the places of the path's steps are known. [`StepPlaces::find`] finds them, so that each
/// key is searched for once. The faults are those of [`set`].
pub fn set_planned(
    alloc: Global,
    tree: &mut Tree,
    path: &Path,
    places: &StepPlaces,
    value: Tree,
) -> Result<(), (Tree, PathFault)>
    requires { ArePlaces places.now (tree_of tree.old) path.now }
    ensures ok { OnOk result (set (tree_of tree.old) path.now (tree_of value)
        ≡ Ok (tree_of tree.new)) }
    ensures refused { IfErr result
        (λ refused. (refused.1 ≡ PathFault.OutOfMemory)
        ⊎ (set (tree_of tree.old) path.now (tree_of value) ≡ Err refused.1)) }
    ensures value_back { IfErr result (λ refused. tree_of refused.0 ≡ tree_of value) }
    ensures unchanged { OnErr result (tree_of tree.new ≡ tree_of tree.old) }
{
    set_at(alloc, tree, path.tokens(), Known::Found(places), value)
}

/// Removes the value at a path, with its key, and returns it. In a sequence the elements after it move up. The path is
/// not empty.
///
/// # Errors
///
/// Those of [`at`]. The tree is then as it was.
pub fn delete(tree: &mut Tree, path: &Path) -> Result<Tree, PathFault>
    requires { 0 < length path.now }
    ensures ok { OnOk result (delete (tree_of tree.old) path.now ≡ Ok (tree_of tree.new)) }
    ensures removed { IfOk result (λ removed.
        at (tree_of tree.old) path.now ≡ Ok (tree_of removed)) }
    ensures refused { IfErr result (λ fault. delete (tree_of tree.old) path.now ≡ Err fault) }
    ensures unchanged { OnErr result (tree_of tree.new ≡ tree_of tree.old) }
{
    delete_at(path.allocator(), tree, path.tokens(), Known::Nothing)
}

/// The edit of [`delete`], where the places of the path's steps are known. [`StepPlaces::find`] finds them, so that
/// each key is searched for once. The faults are those of [`delete`].
pub fn delete_planned(tree: &mut Tree, path: &Path, places: &StepPlaces) -> Result<Tree, PathFault>
    requires steps { 0 < length path.now }
    requires places { ArePlaces places.now (tree_of tree.old) path.now }
    ensures ok { OnOk result (delete (tree_of tree.old) path.now ≡ Ok (tree_of tree.new)) }
    ensures removed { IfOk result (λ removed.
        at (tree_of tree.old) path.now ≡ Ok (tree_of removed)) }
    ensures refused { IfErr result (λ fault. delete (tree_of tree.old) path.now ≡ Err fault) }
    ensures unchanged { OnErr result (tree_of tree.new ≡ tree_of tree.old) }
{
    let alloc = path.allocator();
    delete_at(alloc, tree, path.tokens(), Known::Found(places))
}

pub(crate) fn value_at<'t>(tree: &'t Tree, tokens: &[CowStr<'_>]) -> Result<&'t Tree, PathFault>
    ensures ok { IfOk result (λ value. at (tree_of tree.now) (texts tokens.now)
        ≡ Ok (tree_of value.now)) }
    ensures refused { IfErr result (λ fault. at (tree_of tree.now) (texts tokens.now) ≡ Err fault) }
{
    let mut value = tree;
    for (passed, token) in tokens.iter().enumerate() {
        value = match place::child(value, token.as_str()) {
            Ok(child) => child,
            Err(miss) => return Err(miss.at_step(passed + 1)),
        };
    }
    Ok(value)
}

fn value_by<'t>(
    tree: &'t Tree,
    tokens: &[CowStr<'_>],
    index: Option<&KeyIndex>,
) -> Result<&'t Tree, PathFault>
    requires distinct { distinct (tree_of tree.now) ≡ true }
    requires index { IfSome index (λ index. Indexes index.now (tree_of tree.now)) }
    ensures ok { IfOk result (λ value. at (tree_of tree.now) (texts tokens.now)
        ≡ Ok (tree_of value.now)) }
    ensures refused { IfErr result (λ fault. at (tree_of tree.now) (texts tokens.now) ≡ Err fault) }
{
    let mut value = tree;
    for (passed, token) in tokens.iter().enumerate() {
        let table = table_at(index, &tokens[..passed]);
        value = match place::child_by(table, value, token.as_str()) {
            Ok(child) => child,
            Err(miss) => return Err(miss.at_step(passed + 1)),
        };
    }
    Ok(value)
}

fn set_at(
    alloc: Global,
    tree: &mut Tree,
    tokens: &[CowStr<'_>],
    known: Known<'_>,
    value: Tree,
) -> Result<(), (Tree, PathFault)>
    requires { Knows known (tree_of tree.old) (texts tokens.now) }
    ensures ok { OnOk result (set (tree_of tree.old) (texts tokens.now) (tree_of value)
        ≡ Ok (tree_of tree.new)) }
    ensures refused { IfErr result
        (λ refused. (refused.1 ≡ PathFault.OutOfMemory)
        ⊎ (set (tree_of tree.old) (texts tokens.now) (tree_of value) ≡ Err refused.1)) }
    ensures value_back { IfErr result (λ refused. refused.0 ≡ value) }
    ensures unchanged { OnErr result (tree_of tree.new ≡ tree_of tree.old) }
{
    if tokens.is_empty() {
        *tree = value;
        return Ok(());
    }
    match set_last(alloc, tree, tokens, known, value) {
        Ok(_) => Ok(()),
        Err(refused) => Err(refused),
    }
}

/// Puts a value where tokens lead, of which there is one at least, and returns what it displaced. On a fault the value
/// is returned, and nothing is changed.
pub(crate) fn set_last(
    alloc: Global,
    tree: &mut Tree,
    tokens: &[CowStr<'_>],
    known: Known<'_>,
    value: Tree,
) -> Result<Displaced, (Tree, PathFault)>
    requires steps { 0 < length tokens.now }
    requires known { Knows known (tree_of tree.old) (texts tokens.now) }
    ensures ok { OnOk result (set (tree_of tree.old) (texts tokens.now) (tree_of value)
        ≡ Ok (tree_of tree.new)) }
    ensures back { IfOk result (λ displaced. IsBack displaced (parents_of (texts tokens.now))
        (tree_of tree.new) (tree_of tree.old)) }
    ensures refused { IfErr result
        (λ refused. (refused.1 ≡ PathFault.OutOfMemory)
        ⊎ (set (tree_of tree.old) (texts tokens.now) (tree_of value) ≡ Err refused.1)) }
    ensures value_back { IfErr result (λ refused. refused.0 ≡ value) }
    ensures unchanged { OnErr result (tree_of tree.new ≡ tree_of tree.old) }
{
    let (last, parents) = tokens.split_last().unwrap();
    let mut above = Tree::Seq(Vec::new(alloc));
    if let Err(fault) = descend(tree, &mut above, parents, known) {
        return Err((value, fault));
    }
    let token = last.as_str();
    let place = known.key_place(tree, token);
    let outcome = put(alloc, tree, token, place, tokens.len(), value);
    ascend(tree, &mut above, parents, known);
    outcome
}

fn delete_at(
    alloc: Global,
    tree: &mut Tree,
    tokens: &[CowStr<'_>],
    known: Known<'_>,
) -> Result<Tree, PathFault>
    requires steps { 0 < length tokens.now }
    requires known { Knows known (tree_of tree.old) (texts tokens.now) }
    ensures ok { OnOk result (delete (tree_of tree.old) (texts tokens.now)
        ≡ Ok (tree_of tree.new)) }
    ensures removed { IfOk result (λ removed. at (tree_of tree.old) (texts tokens.now)
        ≡ Ok (tree_of removed)) }
    ensures refused { IfErr result (λ fault. delete (tree_of tree.old) (texts tokens.now)
        ≡ Err fault) }
    ensures unchanged { OnErr result (tree_of tree.new ≡ tree_of tree.old) }
{
    let (last, parents) = tokens.split_last().unwrap();
    let mut above = Tree::Seq(Vec::new(alloc));
    descend(tree, &mut above, parents, known)?;
    let token = last.as_str();
    let place = known.key_place(tree, token);
    let outcome = cut(tree, token, place);
    ascend(tree, &mut above, parents, known);
    match outcome {
        Ok(removed) => Ok(removed),
        Err(miss) => Err(miss.at_step(tokens.len())),
    }
}

/// Goes down a tree by each token. The tree becomes the value that they lead to, and what is above it goes into
/// `above`, together with what was there. A refusal leaves the tree as it was.
fn descend(
    tree: &mut Tree,
    above: &mut Tree,
    tokens: &[CowStr<'_>],
    known: Known<'_>,
) -> Result<(), PathFault>
    requires { KnowsWay known (texts tokens.now) (tree_of tree.old) }
    ensures ok { OnOk result
        (Lowered (texts tokens.now) (tree_of tree.old) (tree_of above.old) (tree_of tree.new)
        (tree_of above.new)) }
    ensures refused { IfErr result (λ fault. at (tree_of tree.old) (texts tokens.now) ≡ Err fault) }
    ensures unchanged { OnErr result (tree_of tree.new ≡ tree_of tree.old) }
{
    for (passed, token) in tokens.iter().enumerate() {
        match known.step_place(passed, tree, token.as_str()) {
            Ok(place) => {
                place::exchange(tree, place, above);
                mem::swap(tree, above);
            }
            Err(miss) => {
                ascend(tree, above, &tokens[..passed], known);
                return Err(miss.at_step(passed + 1));
            }
        }
    }
    Ok(())
}

/// Goes back up by the tokens of [`descend`]: the tree becomes the one that it was taken out of, with what it was in
/// its place. `above` becomes what it was before `descend`.
fn ascend(tree: &mut Tree, above: &mut Tree, tokens: &[CowStr<'_>], known: Known<'_>)
    requires { (t a u : Meant) × Lowered (texts tokens.now) t a u (tree_of above.old)
        × KnowsWay known (texts tokens.now) t }
    ensures { (t a u : Meant) → Lowered (texts tokens.now) t a u (tree_of above.old)
        → Rebuilt (texts tokens.now) t (tree_of tree.old) (tree_of tree.new)
        × (tree_of above.new ≡ a) }
{
    let mut left = tokens.len();
    while left > 0 {
        left -= 1;
        mem::swap(tree, above);
        let place = known.step_place(left, tree, tokens[left].as_str()).unwrap();
        place::exchange(tree, place, above);
    }
}

/// Puts a value where a path's last step leads, where the place of its key is known, and returns what it displaced.
/// `step` is that step's number, from 1. On a fault the value is returned, and nothing is changed.
fn put(
    alloc: Global,
    tree: &mut Tree,
    token: &str,
    place: Option<usize>,
    step: usize,
    value: Tree,
) -> Result<Displaced, (Tree, PathFault)>
    requires { place ≡ key_in (tree_of tree.old) (chars token.now) }
    ensures ok { OnOk result (put (tree_of tree.old) (chars token.now) (tree_of value)
        ≡ Ok (tree_of tree.new)) }
    ensures back { IfOk result (λ displaced.
        PutsBack displaced (tree_of tree.new) (tree_of tree.old)) }
    ensures refused { IfErr result
        (λ refused. (refused.1 ≡ PathFault.OutOfMemory)
        ⊎ (at_step step (put (tree_of tree.old) (chars token.now) (tree_of value)) Ok
        ≡ Err refused.1)) }
    ensures value_back { IfErr result (λ refused. refused.0 ≡ value) }
    ensures unchanged { OnErr result (tree_of tree.new ≡ tree_of tree.old) }
{
    match tree {
        Tree::Text(_) => Err((value, PathFault::NoSuchPlace { step })),
        Tree::Seq(items) => put_element(items, token, step, value),
        Tree::Map(pairs) => put_pair(alloc, pairs, token, place, value),
    }
}

/// Puts an element at an index, or after the last one.
fn put_element(
    items: &mut Vec<Tree>,
    token: &str,
    step: usize,
    value: Tree,
) -> Result<Displaced, (Tree, PathFault)>
    ensures ok { OnOk result
        (put (sequence (elements_of items.old.items)) (chars token.now) (tree_of value)
        ≡ Ok (sequence (elements_of items.new.items))) }
    ensures back { IfOk result (λ displaced. PutsBack displaced
        (sequence (elements_of items.new.items)) (sequence (elements_of items.old.items))) }
    ensures refused { IfErr result
        (λ refused. (refused.1 ≡ PathFault.OutOfMemory)
        ⊎ (at_step step (put (sequence (elements_of items.old.items)) (chars token.now)
        (tree_of value)) Ok
        ≡ Err refused.1)) }
    ensures value_back { IfErr result (λ refused. refused.0 ≡ value) }
    ensures unchanged { OnErr result (items.new.items ≡ items.old.items) }
{
    if token == "-" {
        let Ok(()) = make_room(items) else {
            return Err((value, PathFault::OutOfMemory));
        };
        items.push_reserved(value);
        return Ok(Displaced::Nothing);
    }
    match place::element_index(token, items.len()) {
        Ok(index) => {
            let old = mem::replace(&mut items[index], value);
            Ok(Displaced::Value {
                place: index,
                value: old,
            })
        }
        Err(miss) => Err((value, miss.at_step(step))),
    }
}

/// Puts a value in the place of the first pair with the key, or after the last pair.
fn put_pair(
    alloc: Global,
    pairs: &mut Vec<(Text, Tree)>,
    key: &str,
    place: Option<usize>,
    value: Tree,
) -> Result<Displaced, (Tree, PathFault)>
    requires { place ≡ key_place (chars key.now) pairs.old.items }
    ensures ok { OnOk result
        (put (mapping (members_of pairs.old.items)) (chars key.now) (tree_of value)
        ≡ Ok (mapping (members_of pairs.new.items))) }
    ensures back { IfOk result (λ displaced. PutsBack displaced
        (mapping (members_of pairs.new.items)) (mapping (members_of pairs.old.items))) }
    ensures refused { IfErr result (λ refused. refused.1 ≡ PathFault.OutOfMemory) }
    ensures value_back { IfErr result (λ refused. refused.0 ≡ value) }
    ensures unchanged { OnErr result (pairs.new.items ≡ pairs.old.items) }
{
    if let Some(place) = place {
        let old = mem::replace(&mut pairs[place].1, value);
        return Ok(Displaced::Value { place, value: old });
    }
    let Ok(key) = Text::new(alloc, key) else {
        return Err((value, PathFault::OutOfMemory));
    };
    let Ok(()) = make_room(pairs) else {
        return Err((value, PathFault::OutOfMemory));
    };
    pairs.push_reserved((key, value));
    Ok(Displaced::Nothing)
}

/// Makes room for one more in a list. A full one grows by an eighth, so that a state has little more memory than it
/// needs.
fn make_room<T>(list: &mut Vec<T>) -> Result<(), AllocError>
    ensures items { list.new.items ≡ list.old.items }
    ensures room { OnOk result (vec_len list.new < vec_capacity list.new) }
{
    if list.len() < list.capacity() {
        return Ok(());
    }
    list.reserve_exact(list.len() / 8 + 1)
}

/// Removes the value to which a step leads, where the place of its key is known. A miss changes nothing.
fn cut(tree: &mut Tree, token: &str, place: Option<usize>) -> Result<Tree, Miss>
    requires { place ≡ key_in (tree_of tree.old) (chars token.now) }
    ensures ok { OnOk result (cut (tree_of tree.old) (chars token.now) ≡ Ok (tree_of tree.new)) }
    ensures removed { IfOk result (λ removed. child (tree_of tree.old) (chars token.now)
        ≡ Ok (tree_of removed)) }
    ensures missed { IfErr result (λ miss. cut (tree_of tree.old) (chars token.now) ≡ Err miss) }
    ensures unchanged { OnErr result (tree.new ≡ tree.old) }
{
    match tree {
        Tree::Text(_) => Err(Miss::Absent),
        Tree::Seq(items) => cut_element(items, token),
        Tree::Map(pairs) => cut_pair(pairs, token, place),
    }
}

/// Removes the element at an index.
fn cut_element(items: &mut Vec<Tree>, token: &str) -> Result<Tree, Miss>
    ensures ok { OnOk result
        (cut (sequence (elements_of items.old.items)) (chars token.now)
        ≡ Ok (sequence (elements_of items.new.items))) }
    ensures removed { IfOk result
        (λ removed. child (sequence (elements_of items.old.items)) (chars token.now)
        ≡ Ok (tree_of removed)) }
    ensures missed { IfErr result
        (λ miss. cut (sequence (elements_of items.old.items)) (chars token.now) ≡ Err miss) }
    ensures unchanged { OnErr result (items.new ≡ items.old) }
{
    let index = place::element_index(token, items.len())?;
    Ok(items.remove(index))
}

/// Removes the first pair with the key, whose place is known.
fn cut_pair(pairs: &mut Vec<(Text, Tree)>, key: &str, place: Option<usize>) -> Result<Tree, Miss>
    requires { place ≡ key_place (chars key.now) pairs.old.items }
    ensures ok { OnOk result
        (cut (mapping (members_of pairs.old.items)) (chars key.now)
        ≡ Ok (mapping (members_of pairs.new.items))) }
    ensures removed { IfOk result
        (λ removed. child (mapping (members_of pairs.old.items)) (chars key.now)
        ≡ Ok (tree_of removed)) }
    ensures missed { IfErr result (λ miss.
        cut (mapping (members_of pairs.old.items)) (chars key.now) ≡ Err miss) }
    ensures unchanged { OnErr result (pairs.new ≡ pairs.old) }
{
    let place = place.ok_or(Miss::Absent)?;
    Ok(pairs.remove(place).1)
}
