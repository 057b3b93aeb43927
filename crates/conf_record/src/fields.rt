// The fields of a document's mapping: its keys, its values in order, and what each value is.
ghost use Rattle.std.specs.Prelude.{◌≡◌, false, List, [], ◌∷◌, MatchOption, IfSome, map, None, decimal};
ghost use Rattle.std.specs.Prelude.{encode_utf8_all};
ghost use Rattle.conf_record.specs.Prelude.{chars, same_text, text, mapping, tree_of, members_of, text_bytes};
ghost use Rattle.std.specs.Vec.Iter.{into_iter_items};
ghost use Rattle.conf_record.specs.RecordsRead.{number_from_digits, keys_are, values};
ghost use Rattle.conf_record.specs.Reading.{texts, text_first, mapping_first, is_text, is_one, is_one_text};

use itoa::Buffer;
use std::vec::IntoIter;
use yaml_tree::{Text, Tree};

/// Whether the keys of a mapping's pairs are these, in this order, and no others.
pub fn keys_are(keys: &[&str], pairs: &[(Text, Tree)]) -> bool
    ensures { result ≡ keys_are (texts (map (λ k. k.now) keys.now)) (members_of pairs.now) }
{
    if keys.len() != pairs.len() {
        return false;
    }
    for i in 0..keys.len() {
        if !is_same(&pairs[i].0, keys[i]) {
            return false;
        }
    }
    true
}

/// Whether two texts have the same characters.
pub fn is_same(one: &str, other: &str) -> bool
    ensures { result ≡ same_text (chars one.now) (chars other.now) }
{
    one == other
}

/// Takes the next pair, and returns its value; `None` if no pair is left.
pub(crate) fn next_value(pairs: &mut IntoIter<(Text, Tree)>) -> Option<Tree>
    ensures { MatchOption result
        (values (members_of (into_iter_items pairs.old)) ≡ [])
        (λ t. values (members_of (into_iter_items pairs.old))
        ≡ tree_of t ∷ values (members_of (into_iter_items pairs.new))) }
{
    let (_, value) = pairs.next()?;
    Some(value)
}

/// Takes the next pair, and returns its value if that is a text; `None` if it is none, or no pair is left. A value that
/// is no text is dropped.
pub fn next_text(pairs: &mut IntoIter<(Text, Tree)>) -> Option<Text>
    ensures { MatchOption result
        (text_first (values (members_of (into_iter_items pairs.old))) ≡ None)
        (λ t. values (members_of (into_iter_items pairs.old))
        ≡ text (chars (text_bytes t)) ∷ values (members_of (into_iter_items pairs.new))) }
{
    text_in(next_value(pairs)?)
}

/// The text that a tree is; `None` if it is none.
pub(crate) fn text_in(tree: Tree) -> Option<Text>
    ensures { MatchOption result (is_text (tree_of tree) ≡ false)
        (λ t. tree_of tree ≡ text (chars (text_bytes t))) }
{
    match tree {
        Tree::Text(text) => Some(text),
        Tree::Seq(_) => None,
        Tree::Map(_) => None,
    }
}

/// The one value that is left, if there is exactly one and it is a text.
pub fn last_text(pairs: IntoIter<(Text, Tree)>) -> Option<Text>
    ensures { MatchOption result
        (is_one_text (values (members_of (into_iter_items pairs))) ≡ false)
        (λ t. values (members_of (into_iter_items pairs)) ≡ text (chars (text_bytes t)) ∷ []) }
{
    text_in(last_value(pairs)?)
}

/// The one value that is left, if there is exactly one.
pub fn last_value(mut pairs: IntoIter<(Text, Tree)>) -> Option<Tree>
    ensures { MatchOption result
        (is_one (values (members_of (into_iter_items pairs))) ≡ false)
        (λ t. values (members_of (into_iter_items pairs)) ≡ tree_of t ∷ []) }
{
    let value = next_value(&mut pairs)?;
    match next_value(&mut pairs) {
        Some(_) => None,
        None => Some(value),
    }
}

/// Takes the next pair, and returns the pairs of its value if that is a mapping; `None` if it is none, or no pair is
/// left.
pub(crate) fn next_pairs(pairs: &mut IntoIter<(Text, Tree)>) -> Option<Vec<(Text, Tree)>>
    ensures { MatchOption result
        (mapping_first (values (members_of (into_iter_items pairs.old))) ≡ None)
        (λ v. values (members_of (into_iter_items pairs.old))
        ≡ mapping (members_of v.items) ∷ values (members_of (into_iter_items pairs.new))) }
{
    match next_value(pairs)? {
        Tree::Map(pairs) => Some(pairs),
        Tree::Text(_) => None,
        Tree::Seq(_) => None,
    }
}

/// The first pair, and those after it; `None` if there is none. It takes no memory.
pub fn split_first(mut pairs: Vec<(Text, Tree)>) -> Option<((Text, Tree), Vec<(Text, Tree)>)>
    ensures { MatchOption result (pairs.items ≡ []) (λ v. pairs.items ≡ v.0 ∷ v.1.items) }
{
    if pairs.is_empty() {
        return None;
    }
    let first = pairs.remove(0);
    Some((first, pairs))
}

/// The number whose decimal text this is: `0`, or digits without a leading zero, at most 18,446,744,073,709,551,615.
/// Returns `None` for any other text. It takes no memory.
pub fn number_from(digits: &str) -> Option<u64>
    ensures read { result ≡ number_from_digits (chars digits.now) }
    ensures spelled { IfSome result (λ number. digits.now ≡ encode_utf8_all (decimal number)) }
{
    let number = digits.parse::<u64>().ok()?;
    let mut buffer = Buffer::new();
    if !is_same(buffer.format(number), digits) {
        return None;
    }
    Some(number)
}
