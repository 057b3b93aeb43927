// Why words give no matches.
ghost use Rattle.std.specs.Prelude.{◌≡◌};

use std::alloc::AllocError;
use thiserror::Error;

/// Why words give no matches.
#[derive(Clone, Copy, Debug, PartialEq, Eq, Error)]
pub enum Refusal {
    /// `--help`, or a word that begins with `-h`, asks for help.
    #[error("help is asked for")]
    Help,
    /// No argument has this name or letter.
    #[error("an option is not known")]
    UnknownOption,
    /// A flag has a text, as `--name=TEXT`.
    #[error("a flag takes no text")]
    UnexpectedText,
    /// An option has no text.
    #[error("an option needs a text")]
    MissingText,
    /// An argument is given twice, and may be given once.
    #[error("an argument is given twice")]
    GivenTwice,
    /// The text of a [`Form::Number`](crate::Form::Number) is no number, or too small.
    #[error("a text has to be a number")]
    NotANumber,
    /// There is no place for a word.
    #[error("there is a word too many")]
    UnexpectedWord,
    /// An argument has to be given, and isn't.
    #[error("an argument is missing")]
    MissingArgument,
    /// Two arguments are given that exclude each other.
    #[error("two arguments exclude each other")]
    Conflict,
    /// Out of memory.
    #[error("out of memory")]
    OutOfMemory,
}

impl From<AllocError> for Refusal {
    ghost use Rattle.command_line.specs.declared.refusal.Refusal.TheVariants.{OutOfMemory};

    ghost from_gives = { λ _ out. out ≡ OutOfMemory };

    fn from(_: AllocError) -> Self {
        Refusal::OutOfMemory
    }
}
