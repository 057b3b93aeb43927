// The configurations and the count of a base's tree.
ghost use Rattle.std.specs.Prelude.{◌≡◌, [], ◌∷◌, None, IfSome, MatchOption};
ghost use Rattle.conf_record.specs.Prelude.{chars, IsKept, text_bytes, tree_of, members_of, text, mapping};
ghost use Rattle.conf_record.specs.RecordsRead.{values, is_format, is_written_format, contents_of, base_of};
ghost use Rattle.conf_record.specs.Reading.{AreKept, state_of_parts};

use crate::fields::{is_same, keys_are, next_pairs, next_text, next_value, number_from};
use yaml_tree::{Text, Tree};

/// The configurations and the count of a base's tree, whose limits are not checked; `None` if it is no base's.
pub(crate) fn base_from(tree: Tree) -> Option<(Vec<(Text, Tree)>, u64)>
    requires kept { IsKept (tree_of tree) }
    ensures read { state_of_parts result ≡ base_of (tree_of tree) }
    ensures kept { IfSome result (λ p. IsKept (mapping (members_of p.0.items))) }
{
    let pairs = match tree {
        Tree::Text(_) => return None,
        Tree::Seq(_) => return None,
        Tree::Map(pairs) => pairs,
    };
    if !keys_are(&["store", "at", "configs"], &pairs) {
        return None;
    }
    contents_from(pairs)
}

/// The configurations and the count, from the values of a base: the format, the count and the configurations.
fn contents_from(pairs: Vec<(Text, Tree)>) -> Option<(Vec<(Text, Tree)>, u64)>
    requires kept { AreKept (values (members_of pairs.items)) }
    ensures read { state_of_parts result ≡ contents_of (values (members_of pairs.items)) }
    ensures kept { IfSome result (λ p. IsKept (mapping (members_of p.0.items))) }
{
    let (format, digits, configs) = base_values(pairs)?;
    if !is_format(&format) {
        return None;
    }
    let count = number_from(&digits)?;
    Some((configs, count))
}

/// The values of a base: two texts and a mapping; `None` if they are others.
fn base_values(pairs: Vec<(Text, Tree)>) -> Option<(Text, Text, Vec<(Text, Tree)>)>
    ensures { MatchOption result (contents_of (values (members_of pairs.items)) ≡ None)
        (λ v. values (members_of pairs.items)
        ≡ text (chars (text_bytes v.0)) ∷ text (chars (text_bytes v.1))
        ∷ mapping (members_of v.2.items) ∷ []) }
{
    let mut values = pairs.into_iter();
    let format = next_text(&mut values)?;
    let digits = next_text(&mut values)?;
    let configs = next_pairs(&mut values)?;
    if next_value(&mut values).is_some() {
        return None;
    }
    Some((format, digits, configs))
}

/// Whether a text is the name of a format that a base may have.
fn is_format(text: &str) -> bool
    ensures { result ≡ is_format (chars text.now) }
{
    is_same(text, "confstore-1") || is_written_format(text)
}

/// Whether a text is the name of a format in which bases are written.
fn is_written_format(text: &str) -> bool
    ensures { result ≡ is_written_format (chars text.now) }
{
    is_same(text, "confstore-2") || is_same(text, "confstore-3")
}
