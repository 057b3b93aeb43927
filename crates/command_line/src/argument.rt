// The arguments that words may give.
ghost use Rattle.std.specs.Prelude.{◌≡◌, ◌&&◌, not};
ghost use Rattle.std.specs.Str.{bytes_eq};
ghost use Rattle.command_line.specs.Forms.{fits, has_letter, is_place, may_be_negative, may_repeat};
ghost use Rattle.command_line.specs.Forms.{is_option_of, takes_text};
ghost use Rattle.command_line.specs.Rows.{kind_of, row_of};

use crate::numbers::number_of;

/// An argument that words may give.
#[derive(Clone, Copy, Debug)]
pub struct Argument {
    /// What its texts are read by. An option stands in words as `--` and this name.
    pub name: &'static str,
    /// What a help says of it.
    pub help: &'static str,
    /// How it is given.
    pub form: Form,
    /// What it has to do with others.
    pub relation: Relation,
}

/// How an argument is given.
#[derive(Clone, Copy, Debug)]
pub enum Form {
    /// By a word at its place. It has to be there.
    Required,
    /// By a word at its place. It may be left out.
    Optional,
    /// By a word at its place, which may be a negative number. It may be left out.
    OptionalText,
    /// By any number of words: all that are left for the places behind those before.
    Several,
    /// By `--` and its name.
    Flag,
    /// By `--` and its name, or by `-` and this letter.
    ShortFlag(char),
    /// By `--`, its name and a word, which help calls so.
    Word(&'static str),
    /// As [`Form::Word`], any number of times.
    Words(&'static str),
    /// As [`Form::Word`]. The word may be a negative number.
    Text(&'static str),
    /// By `--`, its name and a number that is at least so big, which help calls so.
    Number(&'static str, u64),
}

/// What an argument has to do with others of its table, which stand by their names.
#[derive(Clone, Copy, Debug)]
pub enum Relation {
    /// Nothing.
    Free,
    /// It is given only with this one.
    Needs(&'static str),
    /// It is given with none of these.
    Excludes(&'static [&'static str]),
    /// Either it is given, or this one.
    Replaces(&'static str),
}

impl Argument {
    /// Whether it is the option of this name.
    pub(crate) fn is_option_of(&self, name: &str) -> bool
        ensures { result ≡ is_option_of (row_of self.now) name.now }
    {
        !self.form.is_place() && is_same(self.name, name)
    }
}

impl Form {
    /// Whether it is given by a word at a place.
    pub(crate) fn is_place(self) -> bool
        ensures { result ≡ is_place (kind_of self) }
    {
        matches!(
            self,
            Form::Required | Form::Optional | Form::OptionalText | Form::Several
        )
    }

    /// Whether it may be given again.
    pub(crate) fn may_repeat(self) -> bool
        ensures { result ≡ may_repeat (kind_of self) }
    {
        matches!(self, Form::Several | Form::Words(_))
    }

    /// Whether its word may be a negative number.
    pub(crate) fn may_be_negative(self) -> bool
        ensures { result ≡ may_be_negative (kind_of self) }
    {
        matches!(self, Form::OptionalText | Form::Text(_))
    }

    /// Whether it is an option with a text.
    pub(crate) fn takes_text(self) -> bool
        ensures { result ≡ takes_text (kind_of self) }
    {
        matches!(
            self,
            Form::Word(_) | Form::Words(_) | Form::Text(_) | Form::Number(_, _)
        )
    }

    /// Whether it is a flag with this letter.
    pub(crate) fn has_letter(self, letter: char) -> bool
        ensures { result ≡ has_letter (kind_of self) letter }
    {
        match self {
            Form::ShortFlag(own) => own == letter,
            _ => false,
        }
    }

    /// Whether the text may be given by it.
    pub(crate) fn fits(self, text: &str) -> bool
        ensures { result ≡ fits (kind_of self) text.now }
    {
        match self {
            Form::Number(_, least) => match number_of(text) {
                Some(number) => number >= least,
                None => false,
            },
            _ => true,
        }
    }
}

/// Whether two texts are the same.
pub(crate) fn is_same(text: &str, other: &str) -> bool
    ensures { result ≡ bytes_eq text.now other.now }
{
    text == other
}
