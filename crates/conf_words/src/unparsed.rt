// Why words ask for nothing that the program could do.
ghost use Rattle.std.specs.Prelude.{◌≡◌};

use std::alloc::AllocError;
use thiserror::Error;

/// Why there is no invocation.
#[derive(Debug, Drop, Error)]
pub enum Unparsed {
    /// Help or the version is asked for. This is the text for standard output, with a line feed at its end.
    #[error("{0}")]
    Shown(String),
    /// The words are wrong. These are the lines for standard error, each with a line feed; the words in them are shown
    /// [`escaped`](crate::escaped).
    #[error("{0}")]
    Wrong(String),
    /// Out of memory.
    #[error("OutOfMemory")]
    OutOfMemory,
}

impl From<AllocError> for Unparsed {
    ghost use Rattle.conf_words.specs.declared.unparsed.Unparsed.TheVariants.{OutOfMemory};

    ghost from_gives = { λ _ out. out ≡ OutOfMemory };

    fn from(_: AllocError) -> Self {
        Unparsed::OutOfMemory
    }
}
