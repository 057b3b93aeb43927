// The open collections around a place, and what is read next.
use crate::line_sign::Sign;
use crate::next_line::NextLine;

/// What an open collection waits for.
#[derive(Clone, Copy, PartialEq, Eq)]
pub(crate) enum Waits {
    /// An item of a sequence.
    Item,
    /// The key after a `?`.
    Key,
    /// The value of a pair.
    Value,
}

/// An open collection.
#[derive(Clone, Copy)]
pub(crate) struct Collection {
    pub waits: Waits,
    /// How many spaces its items or pairs are indented by.
    pub indent: usize,
}

/// What is read next.
#[derive(Clone, Copy)]
pub(crate) enum Next {
    /// The part after a sign of the innermost collection, which has this indentation.
    After {
        at: usize,
        indent: usize,
        sign: Sign,
    },
    /// A pair of a mapping with this indentation.
    Pair {
        at: usize,
        indent: usize,
    },
    /// The line after a part that has been read.
    Line(NextLine),
}

/// A place where a scalar, a flow collection or the first pair of a mapping may be.
#[derive(Clone, Copy)]
pub(crate) struct Leaf {
    pub at: usize,
    /// The least indentation of its further lines.
    pub least: usize,
    /// The indentation of a mapping that begins here, if one may.
    pub pairs: Option<usize>,
}
