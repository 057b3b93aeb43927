//! Laws of the one style: each tree has a text in it, and that text gives the tree.
//!
//! A law is a function that does nothing, takes nothing and always returns. What it ensures holds of all values, and
//! is cited where a proof needs it.
ghost use Rattle.yaml_recognizers.specs.StyleLaws.{FramedPresents, FramedReads, StylePresents, StyleReads};

use crate::texts::unambiguous;

/// Each tree of texts, written in the one style, is a text that can be read as that tree. It has a presentation that
/// fits (YAML 1.2.2, chapters 5 to 9) and means the tree's events. The same holds for the text between a line of `---`
/// and a line of `...`.
pub fn style_presents()
    ensures alone { StylePresents }
    ensures framed { FramedPresents }
{}

/// Each good tree's text in the one style gives that tree, alone and between a line of `---` and a line of `...`,
/// within every limit of length that the text keeps.
pub fn style_reads()
    ensures alone { StyleReads }
    ensures framed { FramedReads }
{
    unambiguous();
}
