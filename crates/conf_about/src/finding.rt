// The first fault of a tree that is to be an about.
ghost use Rattle.std.specs.Prelude.{◌≡◌, ◌≤◌, nat_lt, None, length};
ghost use Rattle.conf_about.specs.Prelude.{byte_len, chars, depth, has_key, keys_differ, mapping, members_of, own_limits};
ghost use Rattle.conf_about.specs.Prelude.{style_text, tree_of};
ghost use Rattle.conf_about.specs.Abouts.{fault_of, is_text, key_limit, pair_fault, pairs_fault, style_limit, whole_fault};

use crate::fault::AboutFault;
use yaml_data::{Text, Tree};
use yaml_writer::style_len;

/// The most characters of a key.
const KEY_LIMIT: usize = 64;

/// The most pairs.
const PAIR_LIMIT: usize = 16;

/// The most bytes in the one style.
const STYLE_LIMIT: u64 = 4_096;

/// The first fault of a tree; `None` if it is an about. It takes no memory, and the tree may have any depth.
pub(crate) fn first_fault(tree: &Tree) -> Option<AboutFault>
    ensures { result ≡ fault_of (tree_of tree.now) }
{
    let pairs = match tree {
        Tree::Text(_) => return Some(AboutFault::NoMapping),
        Tree::Seq(_) => return Some(AboutFault::NoMapping),
        Tree::Map(pairs) => pairs,
    };
    match pairs_fault(pairs) {
        Some(fault) => Some(fault),
        None => whole_fault(tree, pairs),
    }
}

/// The fault of the first pair that has one by itself.
fn pairs_fault(pairs: &[(Text, Tree)]) -> Option<AboutFault>
    ensures { result ≡ pairs_fault (members_of pairs.now) }
{
    for (key, value) in pairs {
        if let Some(fault) = pair_fault(key, value) {
            return Some(fault);
        }
    }
    None
}

/// The first fault of a pair: of its key, and then of its value.
fn pair_fault(key: &str, value: &Tree) -> Option<AboutFault>
    ensures { result ≡ pair_fault (chars key.now) (tree_of value.now) }
{
    if key.is_empty() {
        Some(AboutFault::NoKey)
    } else if is_long(key) {
        Some(AboutFault::LongKey)
    } else if is_text(value) {
        None
    } else {
        Some(AboutFault::NoText)
    }
}

/// Whether a key has too many characters.
fn is_long(key: &str) -> bool
    ensures { result ≡ nat_lt key_limit (length (chars key.now)) }
{
    key.chars().count() > KEY_LIMIT
}

/// Whether a tree is a text.
fn is_text(tree: &Tree) -> bool
    ensures { result ≡ is_text (tree_of tree.now) }
{
    match tree {
        Tree::Text(_) => true,
        Tree::Seq(_) => false,
        Tree::Map(_) => false,
    }
}

/// The first fault of a mapping, whose pairs these are, and are good by themselves.
fn whole_fault(tree: &Tree, pairs: &[(Text, Tree)]) -> Option<AboutFault>
    requires mapping { tree_of tree.now ≡ mapping (members_of pairs.now) }
    requires pairs { pairs_fault (members_of pairs.now) ≡ None }
    ensures { result ≡ whole_fault (members_of pairs.now) }
{
    if pairs.is_empty() {
        Some(AboutFault::NoKey)
    } else if pairs.len() > PAIR_LIMIT {
        Some(AboutFault::TooMany)
    } else if !keys_differ(pairs) {
        Some(AboutFault::Twice)
    } else if is_large(tree) {
        Some(AboutFault::TooLarge)
    } else {
        None
    }
}

/// Whether a tree has too many bytes in the one style.
fn is_large(tree: &Tree) -> bool
    requires { depth (tree_of tree.now) ≤ own_limits.depth }
    ensures { result ≡ nat_lt style_limit (byte_len (style_text (tree_of tree.now))) }
{
    match style_len(tree, STYLE_LIMIT) {
        Some(_) => false,
        None => true,
    }
}

/// Whether the keys differ. Each is compared with those after it, which takes no memory.
fn keys_differ(pairs: &[(Text, Tree)]) -> bool
    ensures { result ≡ keys_differ (members_of pairs.now) }
{
    let mut rest = pairs;
    while let Some(((key, _), after)) = rest.split_first() {
        if has_key(after, key) {
            return false;
        }
        rest = after;
    }
    true
}

/// Whether one of the pairs has this key.
fn has_key(pairs: &[(Text, Tree)], key: &str) -> bool
    ensures { result ≡ has_key (chars key.now) (members_of pairs.now) }
{
    for (other, _) in pairs {
        if other.as_str() == key {
            return true;
        }
    }
    false
}
