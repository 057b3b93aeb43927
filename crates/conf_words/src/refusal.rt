// What the program says of wrong words.
ghost use Rattle.std.specs.Prelude.{◌≡◌, false};
ghost use Rattle.conf_words.specs.Outcomes.{Tells};
ghost use Rattle.conf_words.specs.declared.refusal.Unasked.TheVariants.{OutOfMemory};
ghost use Rattle.conf_words.specs.declared.unparsed.Unparsed.TheVariants as unparsed;

use crate::escapes::escaped;
use crate::unparsed::Unparsed;
use crate::words::matches_of;
use clap::error::ErrorKind;
use std::alloc::{AllocError, Global};

/// Why words are wrong that only their escapes make right, or of which clap says nothing.
pub(crate) const OTHER: &str = "the words are wrong";

/// Why the matches of words ask for nothing.
#[derive(Clone, Copy)]
pub(crate) enum Unasked {
    /// The words are wrong, and this is why.
    Because(&'static str),
    /// Out of memory.
    OutOfMemory,
}

impl Unasked {
    /// The words are wrong, and nothing more is said of them.
    pub(crate) const OTHER: Unasked = Unasked::Because(OTHER);

    /// The same with its lines for standard error.
    pub(crate) fn told(self, alloc: Global) -> Unparsed
        ensures told { Tells false result }
        ensures memory { self ≡ OutOfMemory → result ≡ unparsed.OutOfMemory }
    {
        match self {
            Unasked::Because(why) => refused(alloc, why),
            Unasked::OutOfMemory => Unparsed::OutOfMemory,
        }
    }
}

/// The words are wrong, and this is why.
pub(crate) fn refused(alloc: Global, why: &str) -> Unparsed
    ensures { Tells false result }
{
    match refusal(alloc, why) {
        Ok(lines) => Unparsed::Wrong(lines),
        Err(AllocError) => Unparsed::OutOfMemory,
    }
}

/// The lines for standard error that say why the words are wrong. It fails only if memory runs out.
fn refusal(alloc: Global, why: &str) -> Result<String, AllocError> {
    format!(in alloc; "error: {why}\n\nFor more information, try '--help'.\n")
}

/// Why the words are wrong, in the lines for standard error. The words in them are [`escaped`]. It fails only if memory
/// runs out.
pub(crate) fn wrong_words(alloc: Global, words: &[String]) -> Result<String, AllocError> {
    if let Some((word, meant)) = word_of_others(words) {
        return tip(alloc, word, meant);
    }
    let mut shown = Vec::new(alloc);
    for word in words {
        shown.push(escaped(alloc, word)?)?;
    }
    refusal_of(alloc, &shown)
}

/// The lines for a word of other programs, with the one that may be meant. It fails only if memory runs out.
fn tip(alloc: Global, word: &str, meant: &str) -> Result<String, AllocError> {
    format!(in alloc;
        "error: unrecognized subcommand '{word}'\n\n  tip: '{meant}' may be meant\n\nFor more information, try '--help'.\n"
    )
}

/// The word that asks for something, if other programs have it, and the one that may be meant.
fn word_of_others(words: &[String]) -> Option<(&'static str, &'static str)> {
    let word = words.get(1)?;
    for (other, meant) in WORDS_OF_OTHERS {
        if word.as_str() == other {
            return Some((other, meant));
        }
    }
    None
}

/// Words that other programs have, each with the one of this program that may be meant. None is a subcommand.
const WORDS_OF_OTHERS: [(&str, &str); 23] = [
    ("list", "names"),
    ("ls", "names"),
    ("show", "get"),
    ("cat", "get"),
    ("read", "get"),
    ("rm", "delete"),
    ("remove", "delete"),
    ("unset", "delete"),
    ("del", "delete"),
    ("cp", "copy"),
    ("mv", "rename"),
    ("put", "set"),
    ("add", "set"),
    ("write", "set"),
    ("load", "import"),
    ("dump", "export"),
    ("history", "log"),
    ("compare", "diff"),
    ("changes", "diff"),
    ("compact", "checkpoint"),
    ("create", "init"),
    ("fsck", "verify"),
    ("version", "--version"),
];

/// Why the words, which are shown as they are, are wrong.
fn refusal_of(alloc: Global, words: &[String]) -> Result<String, AllocError> {
    match matches_of(alloc, words) {
        Ok(_matches) => refusal(alloc, OTHER),
        Err(error) if error.kind() == ErrorKind::OutOfMemory => Err(AllocError),
        Err(error) => format!(in alloc; "{error}"),
    }
}
