// How many elements at the ends of two sequences are the same.
ghost use Rattle.std.specs.Prelude.{◌≡◌};
ghost use Rattle.tree_diff.specs.Prelude.{chars, same_text, tree_of, elements_of, members_of, text_bytes};
ghost use Rattle.tree_diff.specs.Choices.{before_end, same_at_end, same_within, same_elements, same_members};

use yaml_data::{Text, Tree};

/// How many levels of two elements are compared. It bounds the call stack.
const LEVELS: u8 = 8;

/// How many elements of the second sequence come before those that the first has at its end too; 0 if the first one
/// isn't longer. Elements that are deeper than 8 levels don't count as the same.
pub(crate) fn before_end(first: &[Tree], second: &[Tree]) -> usize
    ensures { result ≡ before_end (elements_of first.now) (elements_of second.now) }
{
    if first.len() <= second.len() {
        return 0;
    }
    let rest = &first[first.len() - second.len()..];
    second.len().saturating_sub(same_at_end(rest, second))
}

/// How many elements at the end of two sequences of one length are the same.
fn same_at_end(first: &[Tree], second: &[Tree]) -> usize
    ensures { result ≡ same_at_end 0 (elements_of first.now) (elements_of second.now) }
{
    let mut run = 0;
    for (place, item) in first.iter().enumerate() {
        let Some(other) = second.get(place) else {
            return run;
        };
        run = if is_same_within(LEVELS, item, other) {
            run + 1
        } else {
            0
        };
    }
    run
}

/// Whether two trees are equal and no deeper than a limit.
#[cycle(same)]
fn is_same_within(limit: u8, one: &Tree, other: &Tree) -> bool
    ensures { result ≡ same_within limit (tree_of one.now) (tree_of other.now) }
{
    match one {
        Tree::Text(text) => match other {
            Tree::Text(other) => is_same_text(text, other),
            _ => false,
        },
        Tree::Seq(items) => match other {
            Tree::Seq(others) if limit > 0 => are_same_elements(limit - 1, items, others),
            _ => false,
        },
        Tree::Map(pairs) => match other {
            Tree::Map(others) if limit > 0 => are_same_members(limit - 1, pairs, others),
            _ => false,
        },
    }
}

/// The same of elements, one by one.
#[cycle(same)]
fn are_same_elements(limit: u8, items: &[Tree], others: &[Tree]) -> bool
    ensures { result ≡ same_elements limit (elements_of items.now) (elements_of others.now) }
{
    if items.len() != others.len() {
        return false;
    }
    for (place, item) in items.iter().enumerate() {
        if !is_same_within(limit, item, &others[place]) {
            return false;
        }
    }
    true
}

/// The same of members, one by one.
#[cycle(same)]
fn are_same_members(limit: u8, pairs: &[(Text, Tree)], others: &[(Text, Tree)]) -> bool
    ensures { result ≡ same_members limit (members_of pairs.now) (members_of others.now) }
{
    if pairs.len() != others.len() {
        return false;
    }
    for (place, (key, value)) in pairs.iter().enumerate() {
        let (other_key, other_value) = &others[place];
        if !is_same_text(key, other_key) {
            return false;
        }
        if !is_same_within(limit, value, other_value) {
            return false;
        }
    }
    true
}

/// Whether two texts are the same.
pub(crate) fn is_same_text(one: &Text, other: &Text) -> bool
    ensures { result ≡ same_text (chars (text_bytes one.now)) (chars (text_bytes other.now)) }
{
    other.as_str() == one.as_str()
}
