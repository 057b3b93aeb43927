// Who, when and why of a command.
ghost use Rattle.std.specs.Prelude.{◌≡◌, ◌≢◌, Some, IfOk, IfErr, OnErr, OnOk, option_map, map};
ghost use Rattle.conf_about.specs.Prelude.{chars, tree_of};
ghost use Rattle.conf_about.specs.Abouts.{IsAbout, fault_of, pairs_of, text_in, text_under};
ghost use Rattle.conf_about.specs.AboutWords.{fault_in, said_by, with_pair};

use crate::adding::{pop_pair, push_pair};
use crate::fault::AboutFault;
use crate::finding::first_fault;
use crate::pairs::Pairs;
use crate::words::pairs_of;
use std::alloc::Global;
use std::marker::Model;
use tree_path::child;
use yaml_data::{Text, Tree};

/// Who, when and why of a command: a mapping of texts. Its keys differ, and are in the order in which they were given;
/// usual ones are `by`, `when` and `why`. It has 1 to 16 pairs, a key has 1 to 64 characters, and the whole has at most
/// 4,096 bytes in the one style. Contracts see the tree.
#[derive(Debug, Drop)]
pub struct About {
    tree: Tree,
}

impl Model for About {
    ghost use Rattle.yaml_data.specs.declared.tree.Tree.{Tree};
    ghost use Rattle.yaml_data.specs.contracts.tree.Tree as trees;

    ghost Value = { Tree };

    ghost coded = { trees.the_row.coded };

    ghost use Rattle.yaml_data.specs.Seen.{tree_of};
    ghost use Rattle.conf_about.specs.Abouts.{IsAbout};

    ghost view = { λ about. about.tree };

    ghost invariant = { λ about. IsAbout (tree_of about.tree) };
}

impl About {
    /// The about that a tree is. The tree may have any depth. It takes no memory.
    ///
    /// # Errors
    ///
    /// The tree is returned with the first of these faults that holds:
    ///
    /// - `NoMapping` if it is no mapping.
    /// - that of the first pair that has one: `NoKey` if its key is empty, `LongKey` if the key has more than 64
    ///   characters, and then `NoText` if its value is no text.
    /// - `NoKey` if there is no pair.
    /// - `TooMany` if there are more than 16 pairs.
    /// - `Twice` if a key comes twice.
    /// - `TooLarge` if it has more than 4,096 bytes in the one style.
    pub fn of(tree: Tree) -> Result<About, (Tree, AboutFault)>
        ensures ok { IfOk result (λ about. (about ≡ tree) × IsAbout (tree_of tree)) }
        ensures refused { IfErr result (λ refused. (refused.0 ≡ tree)
            × (fault_of (tree_of tree) ≡ Some refused.1)) }
    {
        match first_fault(&tree) {
            Some(fault) => Err((tree, fault)),
            None => Ok(About { tree }),
        }
    }

    /// The about of words `KEY=TEXT`, in order. The first `=` ends the key, and the text may be empty.
    ///
    /// # Errors
    ///
    /// `NoKey` if a word has no `=`, and then those of [`About::of`] for the mapping that the words say. `OutOfMemory`
    /// may come at any point.
    pub fn of_words(alloc: Global, words: &[&str]) -> Result<About, AboutFault>
        ensures ok { IfOk result (λ about. (said_by (map (λ word. chars word.now) words.now)
            ≡ Some (tree_of about)) × IsAbout (tree_of about)) }
        ensures refused { IfErr result (λ fault. fault ≢ AboutFault.OutOfMemory
            → fault_in (said_by (map (λ word. chars word.now) words.now)) ≡ Some fault) }
    {
        let pairs = match pairs_of(alloc, words) {
            Ok(pairs) => pairs,
            Err(fault) => return Err(fault),
        };
        match About::of(Tree::Map(pairs)) {
            Ok(about) => Ok(about),
            Err((_, fault)) => Err(fault),
        }
    }

    /// Adds a key with its text at the end.
    ///
    /// # Errors
    ///
    /// Those of [`About::of`] for the mapping with this pair. `OutOfMemory` may come at any point. The about is then as
    /// before.
    pub fn add(&mut self, alloc: Global, key: &str, text: &str) -> Result<(), AboutFault>
        ensures ok { OnOk result (tree_of self.new
            ≡ with_pair (tree_of self.old) (chars key.now) (chars text.now)) }
        ensures refused { IfErr result (λ fault. fault ≢ AboutFault.OutOfMemory
            → fault_of (with_pair (tree_of self.old) (chars key.now) (chars text.now))
            ≡ Some fault) }
        ensures same { OnErr result (tree_of self.new ≡ tree_of self.old) }
    {
        let key = Text::new(alloc, key)?;
        let text = Text::new(alloc, text)?;
        push_pair(&mut self.tree, key, text)?;
        match first_fault(&self.tree) {
            Some(fault) => {
                pop_pair(&mut self.tree);
                Err(fault)
            }
            None => Ok(()),
        }
    }

    /// The tree.
    pub fn tree(&self) -> &Tree
        ensures same { result.now ≡ self.now }
        ensures about { IsAbout (tree_of self.now) }
    {
        &self.tree
    }

    /// The keys and their texts, in order.
    pub fn pairs(&self) -> Pairs<'_>
        ensures { result ≡ pairs_of (tree_of self.now) }
    {
        match &self.tree {
            Tree::Map(pairs) => Pairs::of(pairs),
            Tree::Text(_) => Pairs::none(),
            Tree::Seq(_) => Pairs::none(),
        }
    }

    /// The text under a key, if there is one.
    pub fn get(&self, key: &str) -> Option<&str>
        ensures { option_map (λ text. chars text.now) result
            ≡ text_under (tree_of self.now) (chars key.now) }
    {
        match child(&self.tree, key) {
            Ok(value) => text_in(value),
            Err(_) => None,
        }
    }
}

/// The text of a tree, if it is one.
fn text_in(tree: &Tree) -> Option<&str>
    ensures { option_map (λ text. chars text.now) result ≡ text_in (tree_of tree.now) }
{
    match tree {
        Tree::Text(text) => Some(text.as_str()),
        Tree::Seq(_) => None,
        Tree::Map(_) => None,
    }
}
