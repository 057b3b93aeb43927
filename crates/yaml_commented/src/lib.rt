//! The one style with comments: what stands between the lines of a tree's text, and laws of that text.
//!
//! A law is a function that does nothing, takes nothing and always returns. What it ensures holds of all values.
#![tactic(auto)]

ghost use Rattle.yaml_commented.specs.CommentedLaws.{BareIsStyle, CommentedPresents, CommentedReads, RowsWoven};

use yaml_recognizers::texts::unambiguous;

/// Each tree of texts, written in the one style with comments that fit, is a text that can be read as that tree. It has
/// a presentation that fits (YAML 1.2.2, chapters 5 to 9) and means the tree's events.
pub fn commented_presents()
    ensures { CommentedPresents }
{}

/// Each good tree's text with comments that fit gives that tree, within every limit of length that the text keeps.
pub fn commented_reads()
    ensures { CommentedReads }
{
    unambiguous();
}

/// Without comments and empty lines, the text of a tree with comments is its text in the one style.
pub fn bare_is_style()
    ensures { BareIsStyle }
{}

/// The text of a tree with comments is the lines of the tree, each with what is behind it.
pub fn rows_woven()
    ensures { RowsWoven }
{}
