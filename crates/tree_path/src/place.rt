// One step of a path: the value that it leads to.
ghost use Rattle.std.specs.Prelude.{◌≡◌, true, ℕ, List, IfOk, IfErr, IfSome, Ok, Err, option_map};
ghost use Rattle.tree_path.specs.Prelude.{chars, sequence, mapping, distinct, members_distinct, tree_of, elements_of};
ghost use Rattle.tree_path.specs.Prelude.{members_of};
ghost use Rattle.tree_path.specs.Paths.{child, put, refusal, key_in};
ghost use Rattle.tree_path.specs.Steps.{number_of, as_usize, index_below, step_place, key_place as place_of};
ghost use Rattle.tree_path.specs.Tables.{Lists, ListsIn, keys_of};

use crate::key_table::KeyTable;
use json_pointer::PathFault;
use std::mem;
use yaml_data::{Text, Tree};

/// The fewest pairs of a wide mapping, whose keys an index may know. In a smaller one they are compared one by one.
pub(crate) const WIDE: usize = 64;

/// Why a step leads to nothing.
#[derive(Clone, Copy, Debug, PartialEq, Eq)]
pub enum Miss {
    /// No value is there.
    Absent,
    /// The step leads into a sequence, and is neither an index nor `-`.
    NoIndex,
}

impl Miss {
    /// The fault of a path whose step of this number, from 1, leads to nothing.
    pub fn at_step(self, step: usize) -> PathFault
        ensures { result ≡ refusal self step }
    {
        match self {
            Miss::Absent => PathFault::NoSuchPlace { step },
            Miss::NoIndex => PathFault::NotIndex { step },
        }
    }
}

/// The number of an index: `0`, or digits without a leading zero (RFC 6901, 4); `None` for any other token. A number
/// that a `usize` can't hold is the greatest `usize`, which is past the end of every sequence.
fn number(token: &str) -> Option<usize>
    ensures { result ≡ option_map as_usize (number_of (chars token.now)) }
{
    let mut number = None;
    for c in token.chars() {
        let digit = c.to_digit(10)? as usize;
        number = match number {
            None => Some(digit),
            Some(0) => return None,
            Some(n) => Some(n.saturating_mul(10).saturating_add(digit)),
        };
    }
    number
}

/// The index, from 0, of the element to which a token leads in a sequence of `count` elements.
pub fn element_index(token: &str, count: usize) -> Result<usize, Miss>
    ensures { result ≡ index_below (chars token.now) count }
{
    if token == "-" {
        return Err(Miss::Absent);
    }
    match number(token) {
        None => Err(Miss::NoIndex),
        Some(index) if index < count => Ok(index),
        Some(_) => Err(Miss::Absent),
    }
}

/// The place, from 0, of the first pair with the key; `None` if no pair has it.
pub fn key_place(pairs: &[(Text, Tree)], key: &str) -> Option<usize>
    ensures { result ≡ place_of (chars key.now) pairs.now }
{
    for (place, (other, _)) in pairs.iter().enumerate() {
        if other.as_str() == key {
            return Some(place);
        }
    }
    None
}

/// The same as [`key_place`], by the table of the keys where there is one. A walk along a wide mapping is noted in
/// `walked`, with the number of steps that lead to it.
fn key_place_by(
    table: Option<&KeyTable>,
    pairs: &[(Text, Tree)],
    key: &str,
    passed: usize,
    walked: &mut Option<usize>,
) -> Option<usize>
    requires distinct { members_distinct (members_of pairs.now) ≡ true }
    requires table { IfSome table (λ table. Lists table.now (keys_of (members_of pairs.now))) }
    ensures { result ≡ place_of (chars key.now) pairs.now }
{
    if let Some(table) = table {
        return table.find(pairs, key);
    }
    if pairs.len() >= WIDE {
        *walked = Some(passed);
    }
    key_place(pairs, key)
}

/// The place, from 0, of a key in a mapping; `None` if it is missing, or the tree is no mapping.
pub fn key_in(tree: &Tree, key: &str) -> Option<usize>
    ensures { result ≡ key_in (tree_of tree.now) (chars key.now) }
{
    match tree {
        Tree::Map(pairs) => key_place(pairs, key),
        _ => None,
    }
}

/// The place, from 0, of the element or the pair to which a step leads. The misses are those of [`child`].
pub fn step_place(tree: &Tree, token: &str) -> Result<usize, Miss>
    ensures { result ≡ step_place (tree_of tree.now) (chars token.now) }
{
    match tree {
        Tree::Text(_) => Err(Miss::Absent),
        Tree::Seq(items) => element_index(token, items.len()),
        Tree::Map(pairs) => key_place(pairs, token).ok_or(Miss::Absent),
    }
}

/// The same as [`key_in`], by the table of the tree's keys where there is one. A walk along a wide mapping is noted in
/// `walked`, with the number of steps that lead to it.
pub(crate) fn key_in_by(
    table: Option<&KeyTable>,
    tree: &Tree,
    key: &str,
    passed: usize,
    walked: &mut Option<usize>,
) -> Option<usize>
    requires distinct { distinct (tree_of tree.now) ≡ true }
    requires table { IfSome table (λ table. ListsIn table.now (tree_of tree.now)) }
    ensures { result ≡ key_in (tree_of tree.now) (chars key.now) }
{
    match tree {
        Tree::Map(pairs) => key_place_by(table, pairs, key, passed, walked),
        _ => None,
    }
}

/// The same as [`step_place`], by the table of the tree's keys where there is one. A walk along a wide mapping is noted
/// in `walked`, with the number of steps that lead to it.
pub(crate) fn step_place_by(
    table: Option<&KeyTable>,
    tree: &Tree,
    token: &str,
    passed: usize,
    walked: &mut Option<usize>,
) -> Result<usize, Miss>
    requires distinct { distinct (tree_of tree.now) ≡ true }
    requires table { IfSome table (λ table. ListsIn table.now (tree_of tree.now)) }
    ensures { result ≡ step_place (tree_of tree.now) (chars token.now) }
{
    match tree {
        Tree::Text(_) => Err(Miss::Absent),
        Tree::Seq(items) => element_index(token, items.len()),
        Tree::Map(pairs) => key_place_by(table, pairs, token, passed, walked).ok_or(Miss::Absent),
    }
}

/// The value at the place of a step, as [`step_place`] returns it.
pub fn child_in(tree: &Tree, place: usize) -> &Tree
    requires { (token : List ℕ) × (step_place (tree_of tree.now) token ≡ Ok place) }
    ensures { (token : List ℕ) → step_place (tree_of tree.now) token ≡ Ok place
        → child (tree_of tree.now) token ≡ Ok (tree_of result.now) }
{
    match tree {
        Tree::Text(_) => unreachable!(),
        Tree::Seq(items) => &items[place],
        Tree::Map(pairs) => &pairs[place].1,
    }
}

/// The value to which a step leads. It returns [`Miss::Absent`] if there is none, as in a text, and [`Miss::NoIndex`]
/// if a token in a sequence is neither an index nor `-`.
pub fn child<'t>(tree: &'t Tree, token: &str) -> Result<&'t Tree, Miss>
    ensures ok { IfOk result (λ value. child (tree_of tree.now) (chars token.now)
        ≡ Ok (tree_of value.now)) }
    ensures missed { IfErr result (λ miss. child (tree_of tree.now) (chars token.now) ≡ Err miss) }
{
    child_at(tree, token, key_in(tree, token))
}

/// The same as [`child`], by the table of the tree's keys where there is one.
pub(crate) fn child_by<'t>(
    table: Option<&KeyTable>,
    tree: &'t Tree,
    token: &str,
) -> Result<&'t Tree, Miss>
    requires distinct { distinct (tree_of tree.now) ≡ true }
    requires table { IfSome table (λ table. ListsIn table.now (tree_of tree.now)) }
    ensures ok { IfOk result (λ value. child (tree_of tree.now) (chars token.now)
        ≡ Ok (tree_of value.now)) }
    ensures missed { IfErr result (λ miss. child (tree_of tree.now) (chars token.now) ≡ Err miss) }
{
    let mut walked = None;
    child_at(tree, token, key_in_by(table, tree, token, 0, &mut walked))
}

/// The value to which a step leads, where the place of its token as a key is known, as [`key_in`] returns it. The
/// misses are those of [`child`].
pub fn child_at<'t>(tree: &'t Tree, token: &str, place: Option<usize>) -> Result<&'t Tree, Miss>
    requires { place ≡ key_in (tree_of tree.now) (chars token.now) }
    ensures ok { IfOk result (λ value. child (tree_of tree.now) (chars token.now)
        ≡ Ok (tree_of value.now)) }
    ensures missed { IfErr result (λ miss. child (tree_of tree.now) (chars token.now) ≡ Err miss) }
{
    match tree {
        Tree::Text(_) => Err(Miss::Absent),
        Tree::Seq(items) => {
            let index = element_index(token, items.len())?;
            Ok(&items[index])
        }
        Tree::Map(pairs) => {
            let place = place.ok_or(Miss::Absent)?;
            Ok(&pairs[place].1)
        }
    }
}

/// Swaps the value at the place of a step, as [`step_place`] returns it, with another one.
pub fn exchange(tree: &mut Tree, place: usize, other: &mut Tree)
    requires { (token : List ℕ) × (step_place (tree_of tree.old) token ≡ Ok place) }
    ensures taken { (token : List ℕ) → step_place (tree_of tree.old) token ≡ Ok place
        → child (tree_of tree.old) token ≡ Ok (tree_of other.new) }
    ensures put_there { (token : List ℕ) → step_place (tree_of tree.old) token ≡ Ok place
        → put (tree_of tree.old) token (tree_of other.old) ≡ Ok (tree_of tree.new) }
{
    match tree {
        Tree::Text(_) => unreachable!(),
        Tree::Seq(items) => exchange_element(items, place, other),
        Tree::Map(pairs) => exchange_value(pairs, place, other),
    }
}

fn exchange_element(items: &mut Vec<Tree>, place: usize, other: &mut Tree)
    requires { (token : List ℕ)
        × (step_place (sequence (elements_of items.old.items)) token ≡ Ok place) }
    ensures taken { (token : List ℕ)
        → step_place (sequence (elements_of items.old.items)) token ≡ Ok place
        → child (sequence (elements_of items.old.items)) token ≡ Ok (tree_of other.new) }
    ensures put_there { (token : List ℕ)
        → step_place (sequence (elements_of items.old.items)) token ≡ Ok place
        → put (sequence (elements_of items.old.items)) token (tree_of other.old)
        ≡ Ok (sequence (elements_of items.new.items)) }
{
    mem::swap(&mut items[place], other);
}

fn exchange_value(pairs: &mut Vec<(Text, Tree)>, place: usize, other: &mut Tree)
    requires { (token : List ℕ)
        × (step_place (mapping (members_of pairs.old.items)) token ≡ Ok place) }
    ensures taken { (token : List ℕ)
        → step_place (mapping (members_of pairs.old.items)) token ≡ Ok place
        → child (mapping (members_of pairs.old.items)) token ≡ Ok (tree_of other.new) }
    ensures put_there { (token : List ℕ)
        → step_place (mapping (members_of pairs.old.items)) token ≡ Ok place
        → put (mapping (members_of pairs.old.items)) token (tree_of other.old)
        ≡ Ok (mapping (members_of pairs.new.items)) }
{
    mem::swap(&mut pairs[place].1, other);
}
