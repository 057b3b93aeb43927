//! Laws of closing lines: which pieces bytes have, and what a crash that cuts them leaves.
ghost use Rattle.yaml_recognizers.specs.Closings.{ClosedOnce, OnePieces, PieceBetween, RestUnclosed, SomePieces, TornClosings, TornInPieces};

/// A line of `---`, a tree in the one style, and a line of `...` contain exactly one closing line, at their end.
///
/// Suppose that a sequence of such texts is cut at any byte and any number of zero bytes follows. The closing lines
/// still mark exactly the texts that are whole, and these texts are its pieces.
pub fn closed_once()
    ensures once { ClosedOnce }
    ensures torn { TornClosings }
    ensures pieces { TornInPieces }
{}

/// Bytes have exactly one list of pieces, and one rest after their last closing line.
pub fn one_list_of_pieces()
    ensures some { SomePieces }
    ensures one { OnePieces }
{}

/// Pieces are found from one closing line to the next. Between the start of a line and the end of the next closing line
/// is a piece, and after the last closing line is the rest.
pub fn piece_between_closings()
    ensures piece { PieceBetween }
    ensures rest { RestUnclosed }
{}
