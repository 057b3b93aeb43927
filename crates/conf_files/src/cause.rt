// Why a file or a folder could not be used.
ghost use Rattle.std.specs.Prelude.{◌≡◌, ◌↔◌, Ok, Err, IsTrue, MatchResult};
ghost use Rattle.std.specs.IoError.{error_kind};

use std::alloc::AllocError;
use std::fmt::{Display, Formatter, Write};
use std::io::ErrorKind;
use std::{fmt, io};

/// What the standard library writes after the words of an error of the system, before the error's number.
const NUMBER: &str = " (os error ";

/// Which file or folder could not be used.
#[derive(Clone, Copy, Debug)]
pub enum Subject {
    /// What is at the path that the caller gave.
    Given,
    /// The folder that has it.
    Parent,
    /// The new file that is written beside it, to take its place.
    Staged,
    /// A file in the folder that the caller gave, by its name.
    Named(&'static str),
}

/// Why a file or a folder could not be used: which one it was, and the error.
///
/// The error is the system's, or says in its own words why what is there is not used.
#[derive(Clone, Copy, Debug)]
pub struct Cause {
    pub subject: Subject,
    pub error: io::Error,
}

impl Subject {
    /// The cause that this file or folder could not be used.
    pub fn cause(self, error: io::Error) -> Cause
        ensures { result ≡ record { subject = self; error = error } }
    {
        Cause {
            subject: self,
            error,
        }
    }

    /// The value of a result, or its error as the cause that this file or folder could not be used.
    pub fn blame<T>(self, done: io::Result<T>) -> Result<T, Cause>
        ensures { MatchResult done (λ value. result ≡ Ok value)
            (λ error. result ≡ Err (record { subject = self; error = error })) }
    {
        match done {
            Ok(value) => Ok(value),
            Err(error) => Err(self.cause(error)),
        }
    }
}

impl Cause {
    /// Whether memory ran out.
    pub fn is_out_of_memory(&self) -> bool
        ensures { IsTrue result ↔ (error_kind self.now.error ≡ ErrorKind.OutOfMemory) }
    {
        self.error.kind() == ErrorKind::OutOfMemory
    }

    /// The cause in words, as `store.yaml: No space left on device`. `given` is the path that the caller gave, as it is
    /// to be shown.
    pub fn shown<'n>(self, given: &'n str) -> ShownCause<'n> {
        ShownCause { cause: self, given }
    }
}

impl From<AllocError> for Cause {
    fn from(error: AllocError) -> Cause {
        Subject::Given.cause(io::Error::from(error))
    }
}

/// A [`Cause`] in words: the file or folder, and the words of the error, without its number.
#[derive(Clone, Copy)]
pub struct ShownCause<'n> {
    cause: Cause,
    given: &'n str,
}

impl Display for ShownCause<'_> {
    fn fmt<W: Write>(&self, f: &mut Formatter<W>) -> fmt::Result {
        let given = self.given;
        match self.cause.subject {
            Subject::Given => write!(f, "{given}: ")?,
            Subject::Parent => write!(f, "{given}: its folder: ")?,
            Subject::Staged => write!(f, "{given}: a new file beside it: ")?,
            Subject::Named(name) => write!(f, "{name}: ")?,
        }
        let mut words = Words {
            inner: f,
            is_done: false,
        };
        let error = self.cause.error;
        write!(words, "{error}")
    }
}

/// Writes the words of an error, and leaves out the number after them.
#[derive(Drop)]
struct Words<'f, W> {
    inner: &'f mut Formatter<W>,
    /// Whether all words are written.
    is_done: bool,
}

impl<W: Write> Write for Words<'_, W> {
    fn write_str(&mut self, part: &str) -> fmt::Result {
        if self.is_done {
            return Ok(());
        }
        match part.split_once(NUMBER) {
            Some((words, _)) => {
                self.is_done = true;
                self.inner.write_str(words)
            }
            None => self.inner.write_str(part),
        }
    }
}
