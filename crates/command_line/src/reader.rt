// Words, read by a table.
ghost use Rattle.std.specs.Prelude.{◌≡◌, Ok, find, map, option_map, string_bytes};
ghost use Rattle.command_line.specs.Forms.{has_letter, is_option_of};
ghost use Rattle.command_line.specs.Matches.{Did};
ghost use Rattle.command_line.specs.Rows.{row_of};
ghost use Rattle.command_line.specs.Words as spec;
ghost use Rattle.command_line.specs.Readers.{IsRead, reading_of};
ghost use Rattle.std.specs.Str.{chars};

use crate::argument::{Argument, Form, Relation, is_same};
use crate::matches::Matches;
use crate::numbers::is_decimal;
use crate::refusal::Refusal;
use crate::words::{after_dashes, letters_of, name_and_text};
use std::alloc::Global;

/// The name of the option that asks for help.
const HELP: &str = "help";

/// The letter of the flag that asks for help.
const HELP_LETTER: char = 'h';

/// Reads words by a table of arguments. The words are those behind the program's name, and behind the word that says
/// which table it is.
///
/// # Errors
/// The first [`Refusal`]: of the words in order, and then, once all are read, of the arguments in order.
pub fn read<'w>(
    alloc: Global,
    arguments: &[Argument],
    words: &'w [String],
) -> Result<Matches<'w>, Refusal>
    ensures { IsRead result (spec.read (map row_of arguments.now) (map string_bytes words.entry.now)) }
{
    let mut reader = Reader::new(alloc, arguments);
    reader.read_words(words)?;
    reader.finish()
}

/// What was read of words so far.
#[derive(Drop)]
pub(crate) struct Reader<'t, 'w> {
    arguments: &'t [Argument],
    given: Matches<'w>,
    /// The option whose text the next word is.
    waits: Option<&'t Argument>,
    /// Whether `--` was read.
    ended: bool,
}

impl<'t, 'w> Reader<'t, 'w> {
    fn new(alloc: Global, arguments: &'t [Argument]) -> Reader<'t, 'w>
        ensures table { result.arguments.now ≡ arguments.entry.now }
        ensures start { reading_of result ≡ spec.start }
    {
        Reader {
            arguments,
            given: Matches::new(alloc),
            waits: None,
            ended: false,
        }
    }

    /// Reads more words.
    fn read_words(&mut self, words: &'w [String]) -> Result<(), Refusal>
        ensures table { self.new.arguments.now ≡ self.old.arguments.now }
        ensures read { Did result (reading_of self.new) (spec.read_words (map row_of self.old.arguments.now)
            (map string_bytes words.entry.now) (Ok (reading_of self.old))) }
    {
        for word in words {
            if let Err(refusal) = self.read_word(word) {
                return Err(refusal);
            }
        }
        Ok(())
    }

    /// Reads one more word.
    fn read_word(&mut self, word: &'w str) -> Result<(), Refusal>
        ensures table { self.new.arguments.now ≡ self.old.arguments.now }
        ensures read { Did result (reading_of self.new) (spec.read_word (map row_of self.old.arguments.now)
            word.entry.now (reading_of self.old)) }
    {
        if self.ended {
            return self.read_place(word);
        }
        if let Some(option) = after_dashes(word) {
            return self.read_option(option);
        }
        match letters_of(word) {
            Some(letters) if !self.is_negative_here(letters) => self.read_letters(letters),
            _ => self.read_text(word),
        }
    }

    /// Reads what stands behind `--`.
    fn read_option(&mut self, option: &'w str) -> Result<(), Refusal>
        ensures table { self.new.arguments.now ≡ self.old.arguments.now }
        ensures read { Did result (reading_of self.new) (spec.read_option (map row_of self.old.arguments.now)
            option.entry.now (reading_of self.old)) }
    {
        if self.waits.is_some() {
            return Err(Refusal::MissingText);
        }
        if option.is_empty() {
            self.ended = true;
            return Ok(());
        }
        let (name, text) = name_and_text(option);
        self.read_named(name, text)
    }

    /// Reads an option by its name, and perhaps the text that stands in its word.
    fn read_named(&mut self, name: &str, text: Option<&'w str>) -> Result<(), Refusal>
        ensures table { self.new.arguments.now ≡ self.old.arguments.now }
        ensures read { Did result (reading_of self.new) (spec.read_named (map row_of self.old.arguments.now)
            name.now (option_map (λ s. s.now) text.entry) (reading_of self.old)) }
    {
        if is_same(name, HELP) {
            return Err(match text {
                Some(_) => Refusal::UnexpectedText,
                None => Refusal::Help,
            });
        }
        match option_of(self.arguments, name) {
            Some(argument) => self.take_option(argument, text),
            None => Err(Refusal::UnknownOption),
        }
    }

    /// Takes an option, and perhaps the text that stands in its word.
    fn take_option(&mut self, argument: &'t Argument, text: Option<&'w str>) -> Result<(), Refusal>
        ensures table { self.new.arguments.now ≡ self.old.arguments.now }
        ensures read { Did result (reading_of self.new) (spec.take_option (row_of argument.entry.now)
            (option_map (λ s. s.now) text.entry) (reading_of self.old)) }
    {
        match text {
            Some(text) if argument.form.takes_text() => self.given.give(argument, text),
            Some(_) => Err(Refusal::UnexpectedText),
            None if argument.form.takes_text() => {
                self.waits = Some(argument);
                Ok(())
            }
            None => self.given.give(argument, ""),
        }
    }

    /// Reads the flags of a word by their letters.
    fn read_letters(&mut self, letters: &str) -> Result<(), Refusal>
        ensures table { self.new.arguments.now ≡ self.old.arguments.now }
        ensures read { Did result (reading_of self.new) (spec.read_letters (map row_of self.old.arguments.now)
            (chars letters.now) (reading_of self.old)) }
    {
        if self.waits.is_some() {
            return Err(Refusal::MissingText);
        }
        self.take_letters(letters)
    }

    /// Takes the flags with these letters.
    fn take_letters(&mut self, letters: &str) -> Result<(), Refusal>
        ensures table { self.new.arguments.now ≡ self.old.arguments.now }
        ensures read { Did result (reading_of self.new) (spec.take_letters (map row_of self.old.arguments.now)
            (chars letters.now) (Ok (reading_of self.old))) }
    {
        for letter in letters.chars() {
            if let Err(refusal) = self.take_letter(letter) {
                return Err(refusal);
            }
        }
        Ok(())
    }

    /// Takes the flag with this letter.
    fn take_letter(&mut self, letter: char) -> Result<(), Refusal>
        ensures table { self.new.arguments.now ≡ self.old.arguments.now }
        ensures read { Did result (reading_of self.new) (spec.take_letter (map row_of self.old.arguments.now)
            letter (reading_of self.old)) }
    {
        if letter == HELP_LETTER {
            return Err(Refusal::Help);
        }
        match lettered(self.arguments, letter) {
            Some(argument) => self.given.give(argument, ""),
            None => Err(Refusal::UnknownOption),
        }
    }

    /// Reads a word that is a text: of the option that waits for one, or else of the next place.
    fn read_text(&mut self, word: &'w str) -> Result<(), Refusal>
        ensures table { self.new.arguments.now ≡ self.old.arguments.now }
        ensures read { Did result (reading_of self.new) (spec.read_text (map row_of self.old.arguments.now)
            word.entry.now (reading_of self.old)) }
    {
        match self.waits {
            Some(argument) => {
                self.waits = None;
                self.given.give(argument, word)
            }
            None => self.read_place(word),
        }
    }

    /// Reads the text of the next place.
    fn read_place(&mut self, word: &'w str) -> Result<(), Refusal>
        ensures table { self.new.arguments.now ≡ self.old.arguments.now }
        ensures read { Did result (reading_of self.new) (spec.read_place (map row_of self.old.arguments.now)
            word.entry.now (reading_of self.old)) }
    {
        match self.next_place() {
            Some(argument) => self.given.give(argument, word),
            None => Err(Refusal::UnexpectedWord),
        }
    }

    /// The next place: the first argument that is a place, and isn't given or may be given again.
    fn next_place(&self) -> Option<&'t Argument>
        ensures { option_map (λ a. row_of a.now) result
            ≡ spec.next_place (map row_of self.now.arguments.now) self.now.given }
    {
        for argument in self.arguments {
            if argument.form.is_place()
                && (argument.form.may_repeat() || !self.given.flag(argument.name))
            {
                return Some(argument);
            }
        }
        None
    }

    /// Whether what stands behind a `-` is a number, and a negative one may stand here: as the text of the option that
    /// waits, or of the next place.
    fn is_negative_here(&self, letters: &str) -> bool
        ensures { result ≡ spec.is_negative_here (map row_of self.now.arguments.now) letters.now
            (reading_of self.now) }
    {
        is_decimal(letters) && (may_be(self.waits) || may_be(self.next_place()))
    }

    /// What was given, if nothing is wrong of it.
    fn finish(self) -> Result<Matches<'w>, Refusal>
        ensures { IsRead result (spec.finish (map row_of self.entry.arguments.now) (reading_of self.entry)) }
    {
        if self.waits.is_some() {
            return Err(Refusal::MissingText);
        }
        for argument in self.arguments {
            if let Some(refusal) = wrong_of(&self.given, argument) {
                return Err(refusal);
            }
        }
        Ok(self.given)
    }
}

/// Whether there is an argument, and its text may be a negative number.
fn may_be(argument: Option<&Argument>) -> bool
    ensures { result ≡ spec.may_be (option_map (λ a. row_of a.now) argument.entry) }
{
    match argument {
        Some(argument) => argument.form.may_be_negative(),
        None => false,
    }
}

/// The option of this name.
fn option_of<'t>(arguments: &'t [Argument], name: &str) -> Option<&'t Argument>
    ensures { option_map (λ a. row_of a.now) result
        ≡ find (λ a. is_option_of a name.now) (map row_of arguments.entry.now) }
{
    for argument in arguments {
        if argument.is_option_of(name) {
            return Some(argument);
        }
    }
    None
}

/// The flag with this letter.
fn lettered(arguments: &[Argument], letter: char) -> Option<&Argument>
    ensures { option_map (λ a. row_of a.now) result
        ≡ find (λ a. has_letter a.kind letter) (map row_of arguments.entry.now) }
{
    for argument in arguments {
        if argument.form.has_letter(letter) {
            return Some(argument);
        }
    }
    None
}

/// What is wrong of an argument, once all words are read.
fn wrong_of(given: &Matches<'_>, argument: &Argument) -> Option<Refusal>
    ensures { result ≡ spec.wrong_of given.now (row_of argument.now) }
{
    let is_given = given.flag(argument.name);
    if matches!(argument.form, Form::Required) && !is_given {
        return Some(Refusal::MissingArgument);
    }
    match argument.relation {
        Relation::Free => None,
        Relation::Needs(other) => {
            (is_given && !given.flag(other)).then_some(Refusal::MissingArgument)
        }
        Relation::Excludes(others) => {
            (is_given && has_any(given, others)).then_some(Refusal::Conflict)
        }
        Relation::Replaces(other) => match (is_given, given.flag(other)) {
            (true, true) => Some(Refusal::Conflict),
            (false, false) => Some(Refusal::MissingArgument),
            _ => None,
        },
    }
}

/// Whether one of these is given.
fn has_any(given: &Matches<'_>, names: &[&str]) -> bool
    ensures { result ≡ spec.has_any given.now (map (λ s. s.now) names.now) }
{
    for name in names {
        if given.flag(name) {
            return true;
        }
    }
    false
}
