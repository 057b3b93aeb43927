// A tree of texts: its depth and its copy.
ghost use Rattle.std.specs.Prelude.{◌≡◌, ◌≤◌, min, nat_lt, IfOk};
ghost use Rattle.yaml_grammar.specs.Trees.{depth, elements_depth, members_depth};
ghost use Rattle.yaml_data.specs.OwnLimits.{own_limits};
ghost use Rattle.yaml_data.specs.Seen.{tree_of, elements_of, members_of};

use crate::Text;
use std::alloc::{AllocError, Global};

/// A tree of texts (YAML 1.2.2, 3.2.1).
///
/// Dropping a tree grows the call stack with its depth. The owner of a tree that may be tens of thousands of levels
/// deep should take it apart from the outside, level by level.
#[derive(Debug, Drop)]
pub enum Tree {
    /// A text.
    Text(Text),
    /// A sequence of elements, in order.
    Seq(Vec<Tree>),
    /// A mapping of keys to values, in order.
    Map(Vec<(Text, Tree)>),
}

const _: () = prove!(size_of::<Tree>() == 40);

impl Tree {
    /// Whether the tree is more than `limit` deep, as [`depth`](Tree::depth) counts. It looks no deeper than that, so
    /// the call stack stays small for every tree.
    #[cycle(deeper)]
    pub fn is_deeper_than(&self, limit: u8) -> bool
        ensures { result ≡ nat_lt limit (depth (tree_of self.now)) }
    {
        if limit == 0 {
            return true;
        }
        match self {
            Tree::Text(_) => false,
            Tree::Seq(items) => has_deeper_element(items, limit - 1),
            Tree::Map(pairs) => has_deeper_value(pairs, limit - 1),
        }
    }

    /// How deep the tree is: a text has 1, a collection 1 more than its deepest value, or 1 if it is empty. Keys
    /// don't count. The call stack grows with the depth, which therefore is at most 131;
    /// [`is_deeper_than`](Tree::is_deeper_than) tests that.
    pub fn depth(&self) -> u64
        requires { depth (tree_of self.now) ≤ own_limits.depth }
        ensures { result ≡ depth (tree_of self.now) }
    {
        depth_of(self)
    }

    /// A copy: a tree of the same texts in the same order. It fails only if memory runs out. The call stack grows with
    /// the depth, which therefore is at most 131; [`is_deeper_than`](Tree::is_deeper_than) tests that.
    pub fn try_copy(&self, alloc: Global) -> Result<Tree, AllocError>
        requires { depth (tree_of self.now) ≤ own_limits.depth }
        ensures { IfOk result (λ copy. tree_of copy ≡ tree_of self.now) }
    {
        copied(alloc, self)
    }
}

#[cycle(deeper)]
fn has_deeper_element(items: &[Tree], limit: u8) -> bool
    ensures { result ≡ nat_lt limit (elements_depth (elements_of items.now)) }
{
    for item in items {
        if item.is_deeper_than(limit) {
            return true;
        }
    }
    false
}

#[cycle(deeper)]
fn has_deeper_value(pairs: &[(Text, Tree)], limit: u8) -> bool
    ensures { result ≡ nat_lt limit (members_depth (members_of pairs.now)) }
{
    for (_, value) in pairs {
        if value.is_deeper_than(limit) {
            return true;
        }
    }
    false
}

#[cycle(depth)]
fn depth_of(tree: &Tree) -> u64
    ensures { result ≡ min (depth (tree_of tree.now)) u64.MAX }
{
    match tree {
        Tree::Text(_) => 1,
        Tree::Seq(items) => deepest_item(items).saturating_add(1),
        Tree::Map(pairs) => deepest_value(pairs).saturating_add(1),
    }
}

#[cycle(copy)]
fn copied(alloc: Global, tree: &Tree) -> Result<Tree, AllocError>
    ensures { IfOk result (λ copy. tree_of copy ≡ tree_of tree.now) }
{
    match tree {
        Tree::Text(text) => Ok(Tree::Text(text.try_copy(alloc)?)),
        Tree::Seq(items) => Ok(Tree::Seq(copied_items(alloc, items)?)),
        Tree::Map(pairs) => Ok(Tree::Map(copied_pairs(alloc, pairs)?)),
    }
}

#[cycle(depth)]
fn deepest_item(items: &[Tree]) -> u64
    ensures { result ≡ min (elements_depth (elements_of items.now)) u64.MAX }
{
    let mut deepest = 0u64;
    for item in items {
        deepest = deepest.max(depth_of(item));
    }
    deepest
}

#[cycle(depth)]
fn deepest_value(pairs: &[(Text, Tree)]) -> u64
    ensures { result ≡ min (members_depth (members_of pairs.now)) u64.MAX }
{
    let mut deepest = 0u64;
    for (_, value) in pairs {
        deepest = deepest.max(depth_of(value));
    }
    deepest
}

#[cycle(copy)]
fn copied_items(alloc: Global, items: &[Tree]) -> Result<Vec<Tree>, AllocError>
    ensures { IfOk result (λ copies. elements_of copies.items ≡ elements_of items.now) }
{
    let mut copies = Vec::with_capacity(alloc, items.len())?;
    for item in items {
        copies.push(copied(alloc, item)?)?;
    }
    Ok(copies)
}

#[cycle(copy)]
fn copied_pairs(alloc: Global, pairs: &[(Text, Tree)]) -> Result<Vec<(Text, Tree)>, AllocError>
    ensures { IfOk result (λ copies. members_of copies.items ≡ members_of pairs.now) }
{
    let mut copies = Vec::with_capacity(alloc, pairs.len())?;
    for (key, value) in pairs {
        copies.push((key.try_copy(alloc)?, copied(alloc, value)?))?;
    }
    Ok(copies)
}
