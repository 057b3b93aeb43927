// A text that is formatted with its comments.
ghost use Rattle.std.specs.Prelude.{◌≡◌, ◌≤◌, ◌<◌, ◌↔◌, Err, IfOk, IfErr, MatchBool, length, string_bytes};
ghost use Rattle.yaml_config.specs.Kept.{limits_of, own_limits};
ghost use Rattle.comments_kept.specs.Keeping.{GivesSameTree, HasSameComments, IsStyledIfBare, IsSettled};
ghost use Rattle.comments_kept.specs.Keeping.{Changes, IsStyledWithComments, IsWritten, Keeps, RefusesKeeping};
ghost use Rattle.comments_kept.specs.Keeping.{RefusesWriting, Writes};
ghost use Rattle.yaml_data.specs.Seen.{tree_of};
ghost use Rattle.yaml_grammar.specs.Trees.{depth};

use crate::fault::KeepFault;
use crate::plan::plan;
use crate::weave::weave;
use std::alloc::Global;
use yaml_commented::{bare_is_style, commented_reads};
use yaml_comments::{commented_comments, comments_of, comments_on_lines, comments_once};
use yaml_data::Tree;
use yaml_docs::events;
use yaml_tree::{Limits, ReadFault, bytes_give_one, read_one};

/// Reads a text that is one document, and returns its tree in the one style, with the comments and empty lines of the
/// text.
///
/// `bytes` are UTF-8 (YAML 1.2.2, 5.2), read by the failsafe schema (10.1) without aliases, anchors and tags. The
/// limits of depth and style are at most those of a [`Config`](yaml_tree::Config). The result gives the tree within the
/// same limits of depth and style; with what is kept it may have more bytes than the limit. Formatted once more, it
/// stays as it is: that is tried before it is returned.
///
/// # Errors
///
/// Those of [`format_one`](yaml_tree::format_one): each fault of [`ReadFault`] is returned only if it holds and no
/// earlier one does; [`ReadFault::OutOfMemory`] may come at any point. [`KeepFault::Unsettled`] comes in place of a
/// text that would change if it were formatted once more.
pub fn format_keeping(alloc: Global, bytes: &[u8], limits: &Limits) -> Result<String, KeepFault>
    requires deep { limits.now.depth ≤ own_limits.depth }
    requires long { limits.now.style ≤ own_limits.style }
    ensures tree { IfOk result (λ text.
        GivesSameTree bytes.now (limits_of limits.now) (string_bytes text)) }
    ensures comments { IfOk result (λ text. HasSameComments bytes.now (string_bytes text)) }
    ensures style { IfOk result (λ text.
        IsStyledWithComments bytes.now (limits_of limits.now) (string_bytes text)) }
    ensures bare { IfOk result (λ text.
        IsStyledIfBare bytes.now (limits_of limits.now) (string_bytes text)) }
    ensures places { IfOk result (λ text.
        Keeps bytes.now (limits_of limits.now) (string_bytes text)) }
    ensures again { IfOk result (λ text. IsSettled (limits_of limits.now) (string_bytes text)) }
    ensures too_long { (result ≡ Err (KeepFault.Read ReadFault.TooLong)) ↔ (limits.now.bytes < length bytes.now) }
    ensures refused { IfErr result (RefusesKeeping bytes.now (limits_of limits.now)) }
{
    commented_reads();
    commented_comments();
    comments_on_lines();
    comments_once();
    bare_is_style();
    bytes_give_one();
    let config = read_one(alloc, bytes, limits)?;
    let tree = config.tree();
    let text = written(alloc, bytes, limits.bytes, tree)?;
    if is_settled(alloc, bytes, tree, &text)? {
        return Ok(text);
    }
    Err(KeepFault::Unsettled)
}

/// Whether the text of a tree that was written for these bytes stays as it is when it is formatted once more. It fails
/// only if memory runs out.
fn is_settled(alloc: Global, bytes: &[u8], tree: &Tree, text: &str) -> Result<bool, KeepFault>
    requires deep { depth (tree_of tree.now) ≤ own_limits.depth }
    requires written { Writes bytes.now (tree_of tree.now) text.now }
    ensures settled { IfOk result (λ settled. MatchBool settled
        (Writes text.now (tree_of tree.now) text.now) (Changes (tree_of tree.now) text.now)) }
    ensures refused { IfErr result (λ fault. fault ≡ KeepFault.Read ReadFault.OutOfMemory) }
{
    let once = text.as_bytes();
    if once == bytes {
        return Ok(true);
    }
    match written(alloc, once, text.len() as u64, tree) {
        Ok(again) => Ok(again.as_str() == text),
        Err(KeepFault::Unsettled) => Ok(false),
        // What is written is read, so that only memory can be missing.
        Err(KeepFault::Read(_)) => Err(KeepFault::Read(ReadFault::OutOfMemory)),
    }
}

/// The text of a tree with the comments and empty lines of the bytes that give it.
///
/// # Errors
///
/// Those of [`events`], [`KeepFault::Unsettled`] if something has no place in the tree, and
/// [`ReadFault::OutOfMemory`].
fn written(alloc: Global, bytes: &[u8], max: u64, tree: &Tree) -> Result<String, KeepFault>
    requires { depth (tree_of tree.now) ≤ own_limits.depth }
    ensures written { IfOk result (λ text. IsWritten bytes.now (tree_of tree.now) (string_bytes text)) }
    ensures refused { IfErr result (RefusesWriting bytes.now max (tree_of tree.now)) }
{
    comments_on_lines();
    let events = events(alloc, bytes, max)?;
    let found = comments_of(alloc, bytes, &events)?;
    let kept = plan(alloc, bytes, &events, &found)?;
    let Some(text) = weave(alloc, tree, &kept)? else {
        return Err(KeepFault::Unsettled);
    };
    Ok(text)
}
