// A value taken to another pointer.
ghost use Rattle.std.specs.Prelude.{◌≡◌, IfOk, MatchOption, Some, None};
ghost use Rattle.tree_edits.specs.Prelude.{chars, same_text, tree_of};
ghost use Rattle.tree_edits.specs.Changes.{text_of};
ghost use Rattle.tree_edits.specs.Moves.{move_of, moved, value_at};

use crate::changes::Move;
use std::alloc::{AllocError, Global};
use tree_path::{Path, PathFault, at};
use yaml_config::Config;
use yaml_writer::Size;

/// The edits that take the value at the pointer `from` to the pointer `to`, as the operation `move` of RFC 6902 does
/// (4.4), but with a plain `set` at `to`: an element that is there is replaced. Where the two pointers are the same
/// text, the value is set where it is, so that it keeps its place. It fails only if memory runs out: the value is
/// copied.
pub fn moved(alloc: Global, tree: &Config, from: String, to: String) -> Result<Move, AllocError>
    ensures { IfOk result (λ edits. move_of edits
        ≡ moved (tree_of tree.now) (text_of from) (text_of to)) }
{
    let Some(value) = copy_at(alloc, tree, &from)? else {
        return Ok(Move::Missing { from });
    };
    if is_same(&from, &to) {
        return Ok(Move::Stays { path: from, value });
    }
    Ok(Move::Goes { from, to, value })
}

/// Whether two pointers are the same text.
fn is_same(from: &str, to: &str) -> bool
    ensures { result ≡ same_text (chars from.now) (chars to.now) }
{
    to == from
}

/// A copy of the value at a pointer; `None` if there is none, or the text is no pointer. It fails only if memory runs
/// out.
fn copy_at(alloc: Global, tree: &Config, path: &str) -> Result<Option<Config>, AllocError>
    ensures { IfOk result (λ copy. MatchOption copy
        (value_at (tree_of tree.now) (chars path.now) ≡ None)
        (λ copy. value_at (tree_of tree.now) (chars path.now) ≡ Some (tree_of copy))) }
{
    let path = match Path::parse(alloc, path) {
        Ok(path) => path,
        Err(PathFault::OutOfMemory) => return Err(AllocError),
        Err(_) => return Ok(None),
    };
    let Ok(value) = at(tree.tree(), &path) else {
        return Ok(None);
    };
    let copy = value.try_copy(alloc)?;
    let size = Size::of_element(&copy);
    Ok(Some(Config::with_size(copy, size)))
}
