// Trees that are built from texts: very deep ones, and mappings with a key twice.
use probe_words::{no_place, text_of};
use std::alloc::{AllocError, Global};
use std::mem;
use yaml_tree::{Text, Tree};

/// Takes the tree, and leaves the empty text in its place.
pub(crate) fn taken(tree: &mut Tree) -> Tree {
    mem::replace(tree, Tree::Text(Text::empty()))
}

/// The answer after a tree was built.
fn built(alloc: Global) -> Result<String, AllocError> {
    String::from_str(alloc, "built")
}

/// Takes a text as the tree.
pub(crate) fn build_text(
    alloc: Global,
    tree: &mut Tree,
    written: &str,
) -> Result<String, AllocError> {
    let Some(text) = text_of(alloc, written)? else {
        return no_place(alloc);
    };
    *tree = Tree::Text(Text::from_string(text));
    built(alloc)
}

/// Takes a mapping of texts as the tree. Its keys and values come by turns.
pub(crate) fn build_pairs(
    alloc: Global,
    tree: &mut Tree,
    words: &str,
) -> Result<String, AllocError> {
    *tree = Tree::Map(pairs_of(alloc, words)?);
    built(alloc)
}

/// The pairs of keys and texts that come by turns.
fn pairs_of(alloc: Global, words: &str) -> Result<Vec<(Text, Tree)>, AllocError> {
    let mut pairs = Vec::new(alloc);
    let words: Vec<&str> = words.split(';').collect(alloc)?;
    for pair in words.chunks(2) {
        push_pair(alloc, &mut pairs, pair)?;
    }
    Ok(pairs)
}

/// Appends a key with a text, if these are two words.
fn push_pair(
    alloc: Global,
    pairs: &mut Vec<(Text, Tree)>,
    words: &[&str],
) -> Result<(), AllocError> {
    let [key, value] = words else {
        return Ok(());
    };
    let key = Text::new(alloc, key)?;
    let value = Text::new(alloc, value)?;
    pairs.push((key, Tree::Text(value)))?;
    Ok(())
}

/// A sequence of one element.
fn in_sequence(alloc: Global, tree: Tree) -> Result<Tree, AllocError> {
    Ok(Tree::Seq(vec![in alloc; tree]?))
}

/// A mapping of one pair.
fn in_mapping(alloc: Global, tree: Tree) -> Result<Tree, AllocError> {
    let key = Text::new(alloc, "k")?;
    Ok(Tree::Map(vec![in alloc; (key, tree)]?))
}

/// A sequence at an even level, and a mapping at an odd one.
fn in_level(alloc: Global, tree: Tree, level: u32) -> Result<Tree, AllocError> {
    match level % 2 {
        0 => in_sequence(alloc, tree),
        _ => in_mapping(alloc, tree),
    }
}

/// Puts the tree inside so many sequences of one element, one in another.
pub(crate) fn build_sequences(
    alloc: Global,
    tree: &mut Tree,
    count: &str,
) -> Result<String, AllocError> {
    for _ in 0..count.parse::<u32>().unwrap_or(0) {
        *tree = in_sequence(alloc, taken(tree))?;
    }
    built(alloc)
}

/// Puts the tree inside sequences of one element and mappings of one pair by turns, as many as are asked for.
pub(crate) fn build_nested(
    alloc: Global,
    tree: &mut Tree,
    count: &str,
) -> Result<String, AllocError> {
    for level in 0..count.parse::<u32>().unwrap_or(0) {
        *tree = in_level(alloc, taken(tree), level)?;
    }
    built(alloc)
}
