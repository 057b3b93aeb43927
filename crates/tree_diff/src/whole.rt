// Whether a mapping is set whole.
ghost use Rattle.std.specs.Prelude.{◌≡◌, ◌+◌, if◌then◌else◌, drop};
ghost use Rattle.tree_diff.specs.Prelude.{chars, members_of, text_bytes};
ghost use Rattle.tree_diff.specs.Choices.{begins_with, is_set_whole, kept};

use crate::same::is_same_text;
use yaml_data::{Text, Tree};

/// Whether the second of two mappings is set in place of the first: fewer members of the first stay than are deleted,
/// and some of the second are new.
pub(crate) fn is_set_whole(first: &[(Text, Tree)], second: &[(Text, Tree)]) -> bool
    ensures { result ≡ is_set_whole (members_of first.now) (members_of second.now) }
{
    let kept = kept(first, second);
    kept < first.len().saturating_sub(kept) && kept < second.len()
}

/// How many members of the first mapping stay: each key is the next one of the second mapping.
fn kept(first: &[(Text, Tree)], second: &[(Text, Tree)]) -> usize
    ensures { result ≡ kept (members_of first.now) (members_of second.now) }
{
    let mut kept = 0;
    for (key, _) in first {
        kept = after_key(second, kept, key);
    }
    kept
}

/// The place after this one, if the member there has the key; else this one.
fn after_key(pairs: &[(Text, Tree)], place: usize, key: &Text) -> usize
    ensures { result ≡ (if begins_with (chars (text_bytes key.now)) (members_of (drop place pairs.now))
        then place + 1 else place) }
{
    let Some((other, _)) = pairs.get(place) else {
        return place;
    };
    if is_same_text(key, other) {
        place + 1
    } else {
        place
    }
}
