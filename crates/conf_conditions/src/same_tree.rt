// Whether two trees are equal.
ghost use Rattle.std.specs.Prelude.{◌≡◌};
ghost use Rattle.std.specs.Str.{chars};
ghost use Rattle.yaml_data.specs.Seen.{tree_of, elements_of, members_of};
ghost use Rattle.yaml_data.specs.TextBytes.{text_bytes};
ghost use Rattle.yaml_grammar.specs.Trees.{text, sequence, mapping};
ghost use Rattle.conf_conditions.specs.SameTrees.{same_tree, same_elements, same_members};

use conf_record::is_same;
use yaml_data::{Text, Tree};

/// Whether two trees are equal: the same texts, and the same keys, in the same order. It looks at each value once, and
/// stops at the first difference. It takes no memory. The call stack grows with the smaller depth of the two.
#[cycle(same)]
pub(crate) fn is_same_tree(one: &Tree, other: &Tree) -> bool
    ensures { result ≡ same_tree (tree_of one.now) (tree_of other.now) }
{
    match one {
        Tree::Text(one) => is_text(one, other),
        Tree::Seq(items) => is_sequence(items, other),
        Tree::Map(pairs) => is_mapping(pairs, other),
    }
}

/// Whether a tree is this text.
fn is_text(one: &Text, other: &Tree) -> bool
    ensures { result ≡ same_tree (text (chars (text_bytes one.now))) (tree_of other.now) }
{
    match other {
        Tree::Text(other) => is_same(one, other),
        Tree::Seq(_) => false,
        Tree::Map(_) => false,
    }
}

/// Whether a tree is a sequence of these elements.
#[cycle(same)]
fn is_sequence(items: &[Tree], other: &Tree) -> bool
    ensures { result ≡ same_tree (sequence (elements_of items.now)) (tree_of other.now) }
{
    match other {
        Tree::Text(_) => false,
        Tree::Seq(others) => are_same_items(items, others),
        Tree::Map(_) => false,
    }
}

/// Whether a tree is a mapping of these pairs.
#[cycle(same)]
fn is_mapping(pairs: &[(Text, Tree)], other: &Tree) -> bool
    ensures { result ≡ same_tree (mapping (members_of pairs.now)) (tree_of other.now) }
{
    match other {
        Tree::Text(_) => false,
        Tree::Seq(_) => false,
        Tree::Map(others) => are_same_pairs(pairs, others),
    }
}

/// Whether the elements of two sequences are equal, one by one.
#[cycle(same)]
fn are_same_items(items: &[Tree], others: &[Tree]) -> bool
    ensures { result ≡ same_elements (elements_of items.now) (elements_of others.now) }
{
    if items.len() != others.len() {
        return false;
    }
    for (place, item) in items.iter().enumerate() {
        if !is_same_tree(item, &others[place]) {
            return false;
        }
    }
    true
}

/// Whether the pairs of two mappings are equal, one by one.
#[cycle(same)]
fn are_same_pairs(pairs: &[(Text, Tree)], others: &[(Text, Tree)]) -> bool
    ensures { result ≡ same_members (members_of pairs.now) (members_of others.now) }
{
    if pairs.len() != others.len() {
        return false;
    }
    for (place, (key, value)) in pairs.iter().enumerate() {
        let (other_key, other_value) = &others[place];
        if !is_same(key, other_key) {
            return false;
        }
        if !is_same_tree(value, other_value) {
            return false;
        }
    }
    true
}
