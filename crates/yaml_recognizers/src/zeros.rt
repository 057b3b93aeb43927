//! Laws of zeros in bytes that a crash has left: they make no closing line and no text.
ghost use Rattle.yaml_recognizers.specs.Zeroed.{CutsAreZeroed, HolesAfter, NoClosingMade, NoZeroByte, NoZeroPresented, NoZeroWritten, PiecesLeft, WholeBehind};

use crate::one_style::style_presents;

/// Zeros in bytes make no closing line: each that is left was there.
///
/// Suppose that any bytes of a sequence of texts are zeros, and that it ends early. Each piece then stands for some of
/// the texts, in their order; one without a zero is one of them, as it was. The first pieces are the first texts, and
/// the first piece after them has a zero. Bytes that are cut, with zeros behind, are a case of this.
pub fn zeros_close_nothing()
    ensures none { NoClosingMade }
    ensures left { PiecesLeft }
    ensures holes { HolesAfter }
    ensures behind { WholeBehind }
    ensures cuts { CutsAreZeroed }
{}

/// A text with a presentation has no zero, and nor have its bytes: 0 is no character of YAML 1.2.2, 5.1.
pub fn no_zero_read()
    ensures text { NoZeroPresented }
    ensures bytes { NoZeroByte }
{}

/// The text of a tree between a line of `---` and a closing line has no zero.
pub fn no_zero_written()
    ensures { NoZeroWritten }
{
    style_presents();
}
