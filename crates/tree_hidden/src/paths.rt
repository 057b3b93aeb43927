// Paths to what is hidden, each as its tokens.
ghost use Rattle.std.specs.Prelude.{◌≡◌, ◌⊎◌, IfErr, IfOk, Ok, Err, Some, None, codes, MatchOption};
ghost use Rattle.tree_hidden.specs.Prelude.{chars, path_of, same_text, text_bytes, texts};
ghost use Rattle.tree_hidden.specs.Hidden.{below, below_all, hides_whole, is_whole, may_lead, path_below};
ghost use Rattle.tree_hidden.specs.Tokens.{paths_of, tokens_of};

use json_pointer::{Path, PathFault};
use std::alloc::{AllocError, Global};
use std::borrow::CowStr;
use yaml_data::Text;

/// The tokens of a path, from some token on. A path without a token leads to the whole of a value.
pub type Tokens<'h> = &'h [Text];

/// The tokens of the path that a pointer means (RFC 6901).
///
/// # Errors
/// [`PathFault::BadPath`] if the text is no pointer, and [`PathFault::OutOfMemory`].
pub fn tokens_of(alloc: Global, pointer: &str) -> Result<Vec<Text>, PathFault>
    ensures ok { IfOk result (λ tokens. path_of (chars pointer.now) ≡ Ok (tokens_of tokens.items)) }
    ensures refused { IfErr result (λ fault.
        (fault ≡ PathFault.OutOfMemory) ⊎ (path_of (chars pointer.now) ≡ Err fault)) }
{
    match Path::parse(alloc, pointer) {
        Ok(path) => Ok(copied(alloc, path.tokens())?),
        Err(fault) => Err(fault),
    }
}

/// Copies of tokens. It fails only if memory runs out.
fn copied(alloc: Global, tokens: &[CowStr<'_>]) -> Result<Vec<Text>, AllocError>
    ensures { IfOk result (λ copies. tokens_of copies.items ≡ texts tokens.now) }
{
    let mut copies = Vec::new(alloc);
    for token in tokens {
        copies.push(Text::new(alloc, token.as_str())?)?;
    }
    Ok(copies)
}

/// Whether one of the paths leads to the whole.
pub(crate) fn hides_whole(paths: &[Tokens<'_>]) -> bool
    ensures { result ≡ hides_whole (paths_of paths.now) }
{
    for path in paths {
        if is_whole(path) {
            return true;
        }
    }
    false
}

/// Whether a path leads to the whole.
fn is_whole(path: Tokens<'_>) -> bool
    ensures { result ≡ is_whole (tokens_of path.now) }
{
    path.is_empty()
}

/// The paths from a value at this place on.
pub(crate) fn below_all<'h>(
    alloc: Global,
    place: Tokens<'_>,
    paths: &[Tokens<'h>],
) -> Result<Vec<Tokens<'h>>, AllocError>
    ensures { IfOk result (λ left.
        paths_of left.items ≡ below_all (tokens_of place.now) (paths_of paths.now)) }
{
    let mut left = Vec::new(alloc);
    left.extend_from_slice(paths)?;
    for token in place {
        left = below(alloc, token.as_str(), &left)?;
    }
    Ok(left)
}

/// The paths from the value on to which a token leads.
pub(crate) fn below<'h>(
    alloc: Global,
    token: &str,
    paths: &[Tokens<'h>],
) -> Result<Vec<Tokens<'h>>, AllocError>
    ensures { IfOk result (λ left.
        paths_of left.items ≡ below (chars token.now) (paths_of paths.now)) }
{
    let mut left = Vec::new(alloc);
    for path in paths {
        let Some(rest) = path_below(token, path) else {
            continue;
        };
        left.push(rest)?;
    }
    Ok(left)
}

/// What is left of a path from the value on to which a token leads; `None` if the path leads elsewhere.
fn path_below<'h>(token: &str, path: Tokens<'h>) -> Option<Tokens<'h>>
    ensures { MatchOption result (path_below (chars token.now) (tokens_of path.now) ≡ None)
        (λ rest. path_below (chars token.now) (tokens_of path.now) ≡ Some (tokens_of rest.now)) }
{
    let Some((first, rest)) = path.split_first() else {
        return Some(path);
    };
    if may_lead(token, first) {
        Some(rest)
    } else {
        None
    }
}

/// Whether a token may lead where another one does: they are the same, or it is `-`, which leads to a new element.
fn may_lead(token: &str, other: &Text) -> bool
    ensures { result ≡ may_lead (chars token.now) (chars (text_bytes other.now)) }
{
    is_same(token, other) || is_after_last(token)
}

/// Whether two tokens are the same.
fn is_same(token: &str, other: &Text) -> bool
    ensures { result ≡ same_text (chars token.now) (chars (text_bytes other.now)) }
{
    other.as_str() == token
}

/// Whether a token is `-`.
fn is_after_last(token: &str) -> bool
    ensures { result ≡ same_text (chars token.now) (codes "-") }
{
    token == "-"
}
