// What is made of a tree whose lines are read.
ghost use Rattle.std.specs.Prelude.{◌≡◌, ◌≤◌, List, length, IfOk, OnOk};
ghost use Rattle.yaml_styled.specs.Prelude.{chars, tree_of, Pair};
ghost use Rattle.yaml_styled.specs.Parts.{elements_and, members_and};
ghost use Rattle.yaml_grammar.specs.Trees as grammar;
ghost use Rattle.yaml_data.specs.declared.tree.Tree as code;

use crate::pending::{Pending, split_from};
use std::alloc::{AllocError, Global};
use yaml_data::{Text, Tree};

/// What is made of a tree whose lines are read: the tree, or nothing.
pub(crate) trait Build: Drop {
    /// What was made so far of the collections that are open, those of an inner collection after those of the one that
    /// holds it.
    type Pending: Drop;

    /// The value is made of this tree.
    ghost Means: { Self → grammar.Tree → Type 0 };

    /// The elements that are pending.
    ghost elements: { Self.Pending → List code.Tree };

    /// The members that are pending.
    ghost members: { Self.Pending → List Pair };

    /// After the first elements these were added, which gives the second.
    ghost MeansElements: { List code.Tree → List code.Tree → grammar.Elements → Type 0 };

    /// After the first members these were added, which gives the second.
    ghost MeansMembers: { List Pair → List Pair → grammar.Members → Type 0 };

    /// Nothing is pending.
    fn nothing_pending(alloc: Global) -> Self::Pending;

    /// Made of a text.
    fn from_text(alloc: Global, text: &str) -> Result<Self, AllocError>
        ensures { IfOk result (λ made. Means made (grammar.text (chars text.now))) };

    /// Made of a tree.
    fn from_tree(tree: Tree) -> Self
        ensures { Means result (tree_of tree) };

    /// Made of a sequence that holds nothing.
    fn empty_sequence(alloc: Global) -> Self
        ensures { Means result (grammar.sequence grammar.no_element) };

    /// Made of a mapping that holds nothing.
    fn empty_mapping(alloc: Global) -> Self
        ensures { Means result (grammar.mapping grammar.no_member) };

    /// The place from which on the elements of a sequence stand that begins now.
    fn elements_start(pending: &Self::Pending) -> usize
        ensures place { result ≡ length (elements pending.now) }
        ensures none { MeansElements (elements pending.now) (elements pending.now) grammar.no_element };

    /// Adds an element to the innermost sequence.
    fn add_element(pending: &mut Self::Pending, element: Self) -> Result<(), AllocError>
        ensures added { OnOk result ((before : List code.Tree) (ts : grammar.Elements) (t : grammar.Tree)
            → MeansElements before (elements pending.old) ts → Means element t
            → MeansElements before (elements pending.new) (elements_and ts t)) }
        ensures longer { OnOk result (length (elements pending.old) ≤ length (elements pending.new)) }
        ensures members { OnOk result (members pending.new ≡ members pending.old) };

    /// Ends the innermost sequence, whose elements stand from this place on.
    fn end_sequence(pending: &mut Self::Pending, start: usize) -> Result<Self, AllocError>
        requires { start ≤ length (elements pending.old) }
        ensures made { IfOk result (λ made. (before : List code.Tree) (ts : grammar.Elements)
            → start ≡ length before → MeansElements before (elements pending.old) ts
            → Means made (grammar.sequence ts)) }
        ensures left { OnOk result ((before : List code.Tree) (ts : grammar.Elements)
            → start ≡ length before → MeansElements before (elements pending.old) ts
            → elements pending.new ≡ before) }
        ensures members { OnOk result (members pending.new ≡ members pending.old) };

    /// The place from which on the members of a mapping stand that begins now.
    fn members_start(pending: &Self::Pending) -> usize
        ensures place { result ≡ length (members pending.now) }
        ensures none { MeansMembers (members pending.now) (members pending.now) grammar.no_member };

    /// Adds a key with its value to the innermost mapping.
    fn add_member(
        alloc: Global,
        pending: &mut Self::Pending,
        key: &str,
        value: Self,
    ) -> Result<(), AllocError>
        ensures added { OnOk result ((before : List Pair) (ms : grammar.Members) (t : grammar.Tree)
            → MeansMembers before (members pending.old) ms → Means value t
            → MeansMembers before (members pending.new) (members_and ms (chars key.now) t)) }
        ensures longer { OnOk result (length (members pending.old) ≤ length (members pending.new)) }
        ensures elements { OnOk result (elements pending.new ≡ elements pending.old) };

    /// Ends the innermost mapping, whose members stand from this place on.
    fn end_mapping(pending: &mut Self::Pending, start: usize) -> Result<Self, AllocError>
        requires { start ≤ length (members pending.old) }
        ensures made { IfOk result (λ made. (before : List Pair) (ms : grammar.Members)
            → start ≡ length before → MeansMembers before (members pending.old) ms
            → Means made (grammar.mapping ms)) }
        ensures left { OnOk result ((before : List Pair) (ms : grammar.Members)
            → start ≡ length before → MeansMembers before (members pending.old) ms
            → members pending.new ≡ before) }
        ensures elements { OnOk result (elements pending.new ≡ elements pending.old) };
}

impl Build for Tree {
    ghost use Rattle.yaml_styled.specs.Parts.{IsTree, AreElements, AreMembers};

    type Pending = Pending;

    ghost Means = { λ made t. IsTree made t };

    ghost elements = { λ pending. pending.elements.items };

    ghost members = { λ pending. pending.members.items };

    ghost MeansElements = { AreElements };

    ghost MeansMembers = { AreMembers };

    #[inline]
    fn nothing_pending(alloc: Global) -> Pending {
        Pending {
            elements: Vec::new(alloc),
            members: Vec::new(alloc),
        }
    }

    #[inline]
    fn from_text(alloc: Global, text: &str) -> Result<Tree, AllocError> {
        let text = Text::new(alloc, text)?;
        Ok(Tree::Text(text))
    }

    #[inline]
    fn from_tree(tree: Tree) -> Tree {
        tree
    }

    #[inline]
    fn empty_sequence(alloc: Global) -> Tree {
        Tree::Seq(Vec::new(alloc))
    }

    #[inline]
    fn empty_mapping(alloc: Global) -> Tree {
        Tree::Map(Vec::new(alloc))
    }

    #[inline]
    fn elements_start(pending: &Pending) -> usize {
        pending.elements.len()
    }

    #[inline]
    fn add_element(pending: &mut Pending, element: Tree) -> Result<(), AllocError> {
        pending.elements.push(element)?;
        Ok(())
    }

    fn end_sequence(pending: &mut Pending, start: usize) -> Result<Tree, AllocError> {
        let elements = split_from(&mut pending.elements, start)?;
        Ok(Tree::Seq(elements))
    }

    #[inline]
    fn members_start(pending: &Pending) -> usize {
        pending.members.len()
    }

    #[inline]
    fn add_member(
        alloc: Global,
        pending: &mut Pending,
        key: &str,
        value: Tree,
    ) -> Result<(), AllocError> {
        let text = Text::new(alloc, key)?;
        pending.members.push((text, value))?;
        Ok(())
    }

    fn end_mapping(pending: &mut Pending, start: usize) -> Result<Tree, AllocError> {
        let members = split_from(&mut pending.members, start)?;
        Ok(Tree::Map(members))
    }
}

/// What is made of lines that are read without making anything of them.
#[derive(Debug, Drop)]
pub struct Skipped;

impl Build for Skipped {
    ghost use Rattle.std.specs.Prelude.{[]};
    ghost use Rattle.yaml_styled.specs.Parts.{IsAny, AreAnyElements, AreAnyMembers};

    type Pending = Skipped;

    ghost Means = { λ made t. IsAny made t };

    ghost elements = { λ pending. [] };

    ghost members = { λ pending. [] };

    ghost MeansElements = { AreAnyElements };

    ghost MeansMembers = { AreAnyMembers };

    #[inline]
    fn nothing_pending(_alloc: Global) -> Skipped {
        Skipped
    }

    #[inline]
    fn from_text(_alloc: Global, _text: &str) -> Result<Skipped, AllocError> {
        Ok(Skipped)
    }

    #[inline]
    fn from_tree(_tree: Tree) -> Skipped {
        Skipped
    }

    #[inline]
    fn empty_sequence(_alloc: Global) -> Skipped {
        Skipped
    }

    #[inline]
    fn empty_mapping(_alloc: Global) -> Skipped {
        Skipped
    }

    #[inline]
    fn elements_start(_pending: &Skipped) -> usize {
        0
    }

    #[inline]
    fn add_element(_pending: &mut Skipped, _element: Skipped) -> Result<(), AllocError> {
        Ok(())
    }

    #[inline]
    fn end_sequence(_pending: &mut Skipped, _start: usize) -> Result<Skipped, AllocError> {
        Ok(Skipped)
    }

    #[inline]
    fn members_start(_pending: &Skipped) -> usize {
        0
    }

    #[inline]
    fn add_member(
        _alloc: Global,
        _pending: &mut Skipped,
        _key: &str,
        _value: Skipped,
    ) -> Result<(), AllocError> {
        Ok(())
    }

    #[inline]
    fn end_mapping(_pending: &mut Skipped, _start: usize) -> Result<Skipped, AllocError> {
        Ok(Skipped)
    }
}
