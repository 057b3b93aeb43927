// The trees that are edited, and the pointers to their ends.
use crate::edits::order::Shape;
use std::alloc::{AllocError, Global};
use yaml_tree::{Text, Tree};

impl Shape {
    /// The tree, without the pair at its end.
    pub(crate) fn tree(self, alloc: Global) -> Result<Tree, AllocError> {
        match self {
            Shape::Wide { pairs } => wide(alloc, pairs),
            Shape::Deep { depth } => deep(alloc, depth),
        }
    }

    /// The pointer to the pair at its end.
    pub(crate) fn end(self, alloc: Global) -> Result<String, AllocError> {
        let mut pointer = String::new(alloc);
        if let Shape::Deep { depth } = self {
            for _ in 2..depth {
                pointer.push_str("/in")?;
            }
        }
        pointer.push_str("/end")?;
        Ok(pointer)
    }
}

/// A mapping of that many pairs, as `key-00007: value-00007`.
fn wide(alloc: Global, pairs: u32) -> Result<Tree, AllocError> {
    let mut all = Vec::new(alloc);
    for number in 0..pairs {
        let key = format!(in alloc; "key-{number:05}")?;
        let value = format!(in alloc; "value-{number:05}")?;
        all.push((Text::from_string(key), Tree::Text(Text::from_string(value))))?;
    }
    Ok(Tree::Map(all))
}

/// Mappings in mappings, the last of them with a text in it.
fn deep(alloc: Global, depth: u32) -> Result<Tree, AllocError> {
    let mut whole = one_pair(alloc, "text", Tree::Text(Text::new(alloc, "x")?))?;
    for _ in 2..depth {
        whole = one_pair(alloc, "in", whole)?;
    }
    Ok(whole)
}

fn one_pair(alloc: Global, key: &str, value: Tree) -> Result<Tree, AllocError> {
    Ok(Tree::Map(vec![in alloc; (Text::new(alloc, key)?, value)]?))
}
