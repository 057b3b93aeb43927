//! The comments of a text, in order: their definition, the search for them, and laws.
//!
//! A law is a function that does nothing, takes nothing and always returns. What it ensures holds of all values.
#![tactic(auto)]

ghost use Rattle.yaml_comments.specs.CommentLaws.{CommentedComments, CommentsOnLines, CommentsOnce, PresentedComments};

mod find;

pub use find::{Comment, comments_of};
use yaml_recognizers::texts::unambiguous;

/// The comments of a text are those of its presentations: what stands behind the `#` at the ends of their lines (YAML
/// 1.2.2, 6.6).
pub fn presented_comments()
    ensures { PresentedComments }
{}

/// The text of a tree with comments that fit has exactly these comments, in order.
pub fn commented_comments()
    ensures { CommentedComments }
{
    unambiguous();
}

/// A text has one list of comments.
pub fn comments_once()
    ensures { CommentsOnce }
{}

/// Each comment of a text is on one line, of characters that may be in a comment (YAML 1.2.2, 6.6).
pub fn comments_on_lines()
    ensures { CommentsOnLines }
{}
