// Whether keys differ (YAML 1.2.2, 3.2.1.3).
ghost use Rattle.std.specs.Prelude.{◌≡◌, ◌+◌, ◌<◌, ◌&&◌, true, IfOk, MatchOption};
ghost use Rattle.std.specs.Str.{chars};
ghost use Rattle.yaml_grammar.specs.Trees.{distinct, has_key};
ghost use Rattle.yaml_data.specs.Keys.{key_members, keys_differ, own_keys_differ, level_distinct, levels_distinct, level_nodes, nodes, steps_left};
ghost use Rattle.yaml_data.specs.Seen.{tree_of};

use crate::prints::have_distinct_prints;
use crate::{Text, Tree};
use std::alloc::{AllocError, Global};
use std::collections::BTreeSet;

/// The most pairs of a mapping whose keys are compared one by one.
const FEW: usize = 8;

/// Whether in each mapping of a tree the keys differ from one another (YAML 1.2.2, 3.2.1.3). The walk has a stack in
/// memory and does not use the call stack, so the tree may have any depth. It fails only if memory runs out.
pub fn has_distinct_keys(alloc: Global, tree: &Tree) -> Result<bool, AllocError>
    ensures { IfOk result (λ answer. answer ≡ distinct (tree_of tree.now)) }
{
    if !have_own_keys_distinct(alloc, tree)? {
        return Ok(false);
    }
    let mut levels = Vec::new(alloc);
    levels.push(Level::inside(tree))?;
    while let Some(level) = levels.pop() {
        if !level.first_differs(alloc, &mut levels)? {
            return Ok(false);
        }
    }
    Ok(true)
}

/// Values that are still to be looked at.
#[derive(Clone, Copy)]
enum Level<'t> {
    /// Elements of a sequence.
    Elements(&'t [Tree]),
    /// Values of a mapping.
    Values(&'t [(Text, Tree)]),
}

impl<'t> Level<'t> {
    /// The values directly inside a tree; a text has none.
    fn inside(tree: &'t Tree) -> Level<'t>
        ensures keys { distinct (tree_of tree.now)
            ≡ (own_keys_differ (tree_of tree.now) && level_distinct result) }
        ensures size { nodes (tree_of tree.now) ≡ 1 + level_nodes result }
    {
        match tree {
            Tree::Text(_) => Level::Elements(&[]),
            Tree::Seq(items) => Level::Elements(items),
            Tree::Map(pairs) => Level::Values(pairs),
        }
    }

    /// The first value and those after it; `None` if there is no value.
    fn split_first(self) -> Option<(&'t Tree, Level<'t>)>
        ensures { MatchOption result
            ((level_distinct self.entry ≡ true))
            (λ parts. (level_distinct self.entry ≡ (distinct (tree_of parts.0.now)
            && level_distinct parts.1))
            × (level_nodes self.entry ≡ nodes (tree_of parts.0.now) + level_nodes parts.1)) }
    {
        match self {
            Level::Elements(items) => {
                let (first, rest) = items.split_first()?;
                Some((first, Level::Elements(rest)))
            }
            Level::Values(pairs) => {
                let (first, rest) = pairs.split_first()?;
                Some((&first.1, Level::Values(rest)))
            }
        }
    }

    /// Whether the own keys of its first value differ. If they do, the values after it and the values inside it are
    /// pushed onto the levels that are left.
    #[inline(always)]
    fn first_differs(self, alloc: Global, left: &mut Vec<Level<'t>>) -> Result<bool, AllocError>
        ensures keys { IfOk result (λ answer.
            (levels_distinct left.old.items && level_distinct self.entry)
            ≡ (answer && levels_distinct left.new.items)) }
        ensures size { IfOk result (λ _. steps_left left.new.items
            < steps_left left.old.items + 1 + level_nodes self.entry + level_nodes self.entry) }
    {
        let Some((first, rest)) = self.split_first() else {
            return Ok(true);
        };
        if !have_own_keys_distinct(alloc, first)? {
            return Ok(false);
        }
        left.push(rest)?;
        left.push(Level::inside(first))?;
        Ok(true)
    }
}

/// Whether a tree's own keys differ: true unless it is a mapping. Keys deeper inside don't count.
fn have_own_keys_distinct(alloc: Global, tree: &Tree) -> Result<bool, AllocError>
    ensures { IfOk result (λ answer. answer ≡ own_keys_differ (tree_of tree.now)) }
{
    match tree {
        Tree::Text(_) | Tree::Seq(_) => Ok(true),
        Tree::Map(pairs) => keys_differ(alloc, pairs),
    }
}

/// Whether the keys of one mapping differ. Its values are not looked at, so they may have any type. Up to 8 pairs take
/// no memory. It fails only if memory runs out.
pub fn keys_differ<T>(alloc: Global, pairs: &[(Text, T)]) -> Result<bool, AllocError>
    ensures { IfOk result (λ answer. answer ≡ keys_differ (key_members pairs.now)) }
{
    if pairs.len() <= FEW {
        return Ok(few_keys_differ(pairs));
    }
    if have_distinct_prints(alloc, pairs)? {
        return Ok(true);
    }
    many_keys_differ(alloc, pairs)
}

/// Whether the keys of a small mapping differ. Each is compared with those after it, which takes no memory.
fn few_keys_differ<T>(pairs: &[(Text, T)]) -> bool
    ensures { result ≡ keys_differ (key_members pairs.now) }
{
    let mut rest = pairs;
    while let Some(((key, _), after)) = rest.split_first() {
        if has_key(after, key) {
            return false;
        }
        rest = after;
    }
    true
}

/// Whether one of the pairs has this key.
fn has_key<T>(pairs: &[(Text, T)], key: &str) -> bool
    ensures { result ≡ has_key (chars key.now) (key_members pairs.now) }
{
    for (other, _) in pairs {
        if other.as_str() == key {
            return true;
        }
    }
    false
}

/// Whether the keys of one mapping differ. Each is looked up in a sorted set of those before it.
fn many_keys_differ<T>(alloc: Global, pairs: &[(Text, T)]) -> Result<bool, AllocError>
    ensures { IfOk result (λ answer. answer ≡ keys_differ (key_members pairs.now)) }
{
    let mut seen = BTreeSet::new(alloc);
    for (key, _) in pairs {
        if !seen.insert(key.as_str())? {
            return Ok(false);
        }
    }
    Ok(true)
}
