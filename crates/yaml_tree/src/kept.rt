// What is kept of the values of a document while its parts are open: its trees, or nothing.
ghost use Rattle.std.specs.Prelude.{◌≡◌, IfOk, OnOk};
ghost use Rattle.yaml_tree.specs.Prelude.{cow_str_bytes, chars, no_element, sequence, mapping, text, nothing};
ghost use Rattle.yaml_tree.specs.Prelude.{text_bytes};
ghost use Rattle.yaml_tree.specs.Kept.{Keep, kept, elements_more, members_by};
ghost use Rattle.yaml_grammar.specs.Trees as grammar;

use std::alloc::{AllocError, Global};
use std::borrow::CowStr;
use yaml_data::{Text, Tree};

/// What is kept of a value of a document.
pub(crate) trait Kept: Drop {
    /// What is kept of the elements of a sequence.
    type Elements: Drop;

    /// Whether trees are kept, or keys alone.
    ghost keep: { Keep };

    /// What is kept of a value, as a tree.
    ghost tree: { Self → grammar.Tree };

    /// What is kept of elements, as elements.
    ghost elements: { Self.Elements → grammar.Elements };

    /// What is kept of a scalar that is a value. It fails only if memory runs out.
    fn of_scalar(alloc: Global, value: CowStr<'_>) -> Result<Self, AllocError>
        ensures { IfOk result (λ it. tree it ≡ kept keep (text (chars (cow_str_bytes value.entry)))) };

    /// What stands for a value that is still to come.
    fn placeholder() -> Self
        ensures { tree result ≡ nothing };

    /// No elements yet, with memory for `size` of them. It fails only if memory runs out.
    fn no_elements(alloc: Global, size: usize) -> Result<Self::Elements, AllocError>
        ensures { IfOk result (λ items. elements items ≡ no_element) };

    /// Puts in one element more. It fails only if memory runs out.
    fn put_element(items: &mut Self::Elements, value: Self) -> Result<(), AllocError>
        ensures { OnOk result (elements items.new
            ≡ elements_more keep (elements items.old) (tree value)) };

    /// What is kept of a sequence.
    fn of_seq(items: Self::Elements) -> Self
        ensures { tree result ≡ kept keep (sequence (elements items)) };

    /// What is kept of a mapping.
    fn of_map(pairs: Vec<(Text, Self)>) -> Self
        ensures { tree result ≡ kept keep (mapping (members_by tree pairs.items)) };
}

/// All trees are kept.
impl Kept for Tree {
    ghost use Rattle.std.specs.Prelude.{◌≡◌};
    ghost use Rattle.yaml_grammar.specs.Trees.{mapping};
    ghost use Rattle.yaml_tree.specs.Kept.{trees, members_by};
    ghost use Rattle.yaml_data.specs.Seen.{tree_of, elements_of};

    type Elements = Vec<Tree>;

    ghost keep = { trees };

    ghost tree = { tree_of };

    ghost elements = { λ items. elements_of items.items };

    #[inline(always)]
    fn of_scalar(alloc: Global, value: CowStr<'_>) -> Result<Self, AllocError> {
        let text = text_of(alloc, value)?;
        Ok(Tree::Text(text))
    }

    #[inline(always)]
    fn placeholder() -> Self {
        Tree::Text(Text::empty())
    }

    #[inline(always)]
    fn no_elements(alloc: Global, size: usize) -> Result<Vec<Tree>, AllocError> {
        Vec::with_capacity(alloc, size)
    }

    #[inline(always)]
    fn put_element(items: &mut Vec<Tree>, value: Self) -> Result<(), AllocError> {
        items.push(value)?;
        Ok(())
    }

    #[inline(always)]
    fn of_seq(items: Vec<Tree>) -> Self {
        Tree::Seq(items)
    }

    #[inline(always)]
    fn of_map(pairs: Vec<(Text, Tree)>) -> Self
        ensures { tree_of result ≡ mapping (members_by tree_of pairs.items) }
    {
        Tree::Map(pairs)
    }
}

/// What is kept of the elements of a sequence where no value is kept.
#[derive(Drop)]
pub(crate) struct Emptiness {
    /// Whether there is no element yet.
    pub(crate) is_empty: bool,
}

/// No value is kept.
impl Kept for () {
    ghost use Rattle.std.specs.Prelude.{◌≡◌};
    ghost use Rattle.yaml_tree.specs.Kept.{keys, elements_by, no_tree};
    ghost use Rattle.yaml_data.specs.Keys.{nothing};

    type Elements = Emptiness;

    ghost keep = { keys };

    ghost tree = { no_tree };

    ghost elements = { λ items. elements_by items.is_empty };

    #[inline(always)]
    fn of_scalar(_: Global, _: CowStr<'_>) -> Result<Self, AllocError> {
        Ok(())
    }

    #[inline(always)]
    fn placeholder() -> Self {}

    #[inline(always)]
    fn no_elements(_: Global, _: usize) -> Result<Emptiness, AllocError> {
        Ok(Emptiness { is_empty: true })
    }

    #[inline(always)]
    fn put_element(items: &mut Emptiness, _: Self) -> Result<(), AllocError> {
        items.is_empty = false;
        Ok(())
    }

    #[inline(always)]
    fn of_seq(_: Emptiness) -> Self {}

    #[inline(always)]
    fn of_map(_pairs: Vec<(Text, ())>) -> Self
        ensures { no_tree result ≡ nothing }
    {}
}

/// The text of a scalar. A value that has memory of its own is moved. It fails only if memory runs out.
#[inline(always)]
pub(crate) fn text_of(alloc: Global, value: CowStr<'_>) -> Result<Text, AllocError>
    ensures { IfOk result (λ text. text_bytes text ≡ cow_str_bytes value.entry) }
{
    match value {
        CowStr::Borrowed(text) => Text::new(alloc, text),
        CowStr::Owned(string) => Ok(Text::from_string(string)),
    }
}
