// A pair more at the end of a mapping, and one less.
ghost use Rattle.std.specs.Prelude.{◌≡◌, ℕ, List, OnErr, OnOk};
ghost use Rattle.conf_about.specs.Prelude.{Members, chars, members_of, text_bytes, tree_of};
ghost use Rattle.conf_about.specs.AboutWords.{members_with, with_pair};
ghost use Rattle.yaml_grammar.specs.Trees as grammar;

use std::alloc::AllocError;
use yaml_data::{Text, Tree};

/// Adds a pair at the end of a mapping, and leaves any other tree as it is. It fails only if memory runs out, and the
/// tree is then as before.
pub(crate) fn push_pair(tree: &mut Tree, key: Text, text: Text) -> Result<(), AllocError>
    ensures ok { OnOk result (tree_of tree.new ≡ with_pair (tree_of tree.old)
        (chars (text_bytes key)) (chars (text_bytes text))) }
    ensures same { OnErr result (tree_of tree.new ≡ tree_of tree.old) }
{
    match tree {
        Tree::Text(_) => Ok(()),
        Tree::Seq(_) => Ok(()),
        Tree::Map(pairs) => push_last(pairs, key, text),
    }
}

/// Adds a pair at the end. It fails only if memory runs out, and the pairs are then as before.
fn push_last(pairs: &mut Vec<(Text, Tree)>, key: Text, text: Text) -> Result<(), AllocError>
    ensures ok { OnOk result (members_of pairs.new.items
        ≡ members_with (members_of pairs.old.items)
        (chars (text_bytes key)) (chars (text_bytes text))) }
    ensures same { OnErr result (members_of pairs.new.items ≡ members_of pairs.old.items) }
{
    pairs.push((key, Tree::Text(text)))?;
    Ok(())
}

/// Takes the pair off a mapping that was added last.
pub(crate) fn pop_pair(tree: &mut Tree)
    ensures { (before : grammar.Tree) (key text : List ℕ)
        → tree_of tree.old ≡ with_pair before key text → tree_of tree.new ≡ before }
{
    match tree {
        Tree::Text(_) => {}
        Tree::Seq(_) => {}
        Tree::Map(pairs) => pop_last(pairs),
    }
}

/// Takes the last pair off.
fn pop_last(pairs: &mut Vec<(Text, Tree)>)
    ensures { (before : Members) (key text : List ℕ)
        → members_of pairs.old.items ≡ members_with before key text
        → members_of pairs.new.items ≡ before }
{
    let _ = pairs.pop();
}
