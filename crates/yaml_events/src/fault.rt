// Why a scanner stops.
ghost use Rattle.std.specs.Prelude.{◌≡◌};

use std::alloc::{AllocError, AllocFailed};
use std::fmt;
use thiserror::Error;

/// Why no node is where one is looked for. No contract says which reason a text gets, nor at which place: they only
/// help the person who writes the text. `Display` shows it in words, `Debug` by its name.
#[derive(Clone, Copy, Debug, PartialEq, Eq)]
pub enum Why {
    /// An alias (`*name`), which the profile leaves out.
    Alias,
    /// An anchor (`&name`), which the profile leaves out.
    Anchor,
    /// A tag (`!name`), which the profile leaves out.
    Tag,
    /// A directive other than `%YAML 1.1` and `%YAML 1.2`, or one in a wrong place.
    Directive,
    /// A value without a key, which the profile leaves out. The place is that of the `:`. After a `?` it is where the
    /// key is missing: right after the `?`, or between brackets at the sign that is there instead.
    OmittedKey,
    /// A byte order mark that is not at the text's start.
    ByteOrderMark,
    /// A character that is not allowed there.
    Character,
    /// An unknown escape.
    Escape,
    /// A line that has too few or too many spaces. In quotes and between brackets it is only this if the quote or the
    /// bracket is closed further down.
    Indent,
    /// A quote that is not closed. The place is that of the quote.
    Quote,
    /// A flow collection that is not closed, or has a malformed entry. The place is that of the innermost open bracket,
    /// or of what is malformed.
    Flow,
    /// A key that is too long or runs over lines, or a second one on its line.
    Key,
    /// A malformed header of a block scalar. The place is that of the first character that no header has there.
    BlockHeader,
    /// A document marker inside a node, at its place, or more than a comment after a `...`, at the end of the `...`.
    Marker,
    /// None of these.
    Other,
}

impl Why {
    /// Returns the reason in words.
    fn words(&self) -> &'static str {
        match self {
            Why::Alias => "an alias, which the profile leaves out",
            Why::Anchor => "an anchor, which the profile leaves out",
            Why::Tag => "a tag, which the profile leaves out",
            Why::Directive => "a directive that is not allowed here",
            Why::OmittedKey => "a value without a key, which the profile leaves out",
            Why::ByteOrderMark => "a byte order mark that is not at the text's start",
            Why::Character => "a character that is not allowed here",
            Why::Escape => "an unknown escape",
            Why::Indent => "a line with too few or too many spaces",
            Why::Quote => "a quote that is not closed",
            Why::Flow => "a flow collection that is not closed, or has a malformed entry",
            Why::Key => "a key that is too long or runs over lines, or a second one on its line",
            Why::BlockHeader => "a malformed header of a block scalar",
            Why::Marker => "a document marker inside a node",
            Why::Other => "no node",
        }
    }
}

impl fmt::Display for Why {
    fn fmt<W: fmt::Write>(&self, f: &mut fmt::Formatter<W>) -> fmt::Result {
        f.write_str(self.words())
    }
}

impl std::error::Error for Why {}

/// Why a scanner found nothing.
#[derive(Clone, Copy, Debug, PartialEq, Eq, Error)]
pub enum ScanFault {
    /// What is looked for is not there. `at` is the place at fault, in bytes from 0.
    #[error("no node at byte {at}: {why}")]
    At { at: usize, why: Why },
    /// Out of memory.
    #[error("out of memory")]
    OutOfMemory,
}

impl From<AllocError> for ScanFault {
    ghost use Rattle.yaml_events.specs.declared.fault.ScanFault.TheVariants.{OutOfMemory};

    ghost from_gives = { λ _ fault. fault ≡ OutOfMemory };

    fn from(_error: AllocError) -> ScanFault {
        ScanFault::OutOfMemory
    }
}

/// The value that comes back because there was no memory for it is dropped. So `events.push(event)?` works.
impl<T: Drop> From<AllocFailed<T>> for ScanFault {
    ghost use Rattle.yaml_events.specs.declared.fault.ScanFault.TheVariants.{OutOfMemory};

    ghost from_gives = { λ _ fault. fault ≡ OutOfMemory };

    fn from(_failed: AllocFailed<T>) -> ScanFault {
        ScanFault::OutOfMemory
    }
}
