// What words give the arguments of a table.
ghost use Rattle.std.specs.Prelude.{◌≡◌, [], IfOk, List, ℕ, map, option_map};
ghost use Rattle.command_line.specs.Matches.{Did, give, has, number_in, text_of, texts_of};
ghost use Rattle.command_line.specs.Rows.{row_of};

use crate::argument::{Argument, is_same};
use crate::numbers::number_of;
use crate::refusal::Refusal;
use std::alloc::{AllocError, Global};
use std::marker::Model;

/// What words give the arguments of a table: the name of each and its text, in the order of the words. A flag has the
/// empty text.
#[derive(Debug, Drop)]
pub struct Matches<'w> {
    given: Vec<Given<'w>>,
}

/// The name of an argument and its text.
#[derive(Clone, Copy, Debug)]
struct Given<'w> {
    name: &'static str,
    text: &'w str,
}

impl<'w> Model for Matches<'w> {
    ghost Value = { List (List ℕ × List ℕ) };

    ghost view = { λ m. map (λ g. (g.name.now, g.text.now)) m.given.items };
}

impl<'w> Matches<'w> {
    pub(crate) fn new(alloc: Global) -> Matches<'w>
        ensures { result ≡ [] }
    {
        Matches {
            given: Vec::new(alloc),
        }
    }

    /// Whether an argument of this name is given.
    pub fn flag(&self, name: &str) -> bool
        ensures { result ≡ has self.now name.now }
    {
        for given in &self.given {
            if is_same(given.name, name) {
                return true;
            }
        }
        false
    }

    /// The text of the argument of this name, or the first of them; `None` if it is not given.
    pub fn text(&self, name: &str) -> Option<&'w str>
        ensures { option_map (λ s. s.now) result ≡ text_of self.now name.now }
    {
        for given in &self.given {
            if is_same(given.name, name) {
                return Some(given.text);
            }
        }
        None
    }

    /// The number that [`Matches::text`] is; `None` if there is none below 2 ^ 64.
    pub fn number(&self, name: &str) -> Option<u64>
        ensures { result ≡ number_in self.now name.now }
    {
        match self.text(name) {
            Some(text) => number_of(text),
            None => None,
        }
    }

    /// The texts of the argument of this name, in order. It fails only if memory runs out.
    pub fn texts(&self, alloc: Global, name: &str) -> Result<Vec<&'w str>, AllocError>
        ensures { IfOk result (λ texts.
            map (λ s. s.now) texts.items ≡ texts_of self.now name.now) }
    {
        let mut texts = Vec::new(alloc);
        for given in &self.given {
            if is_same(given.name, name) {
                texts.push(given.text)?;
            }
        }
        Ok(texts)
    }

    /// Notes a text for an argument, or says why the argument may not have it.
    pub(crate) fn give(&mut self, argument: &Argument, text: &'w str) -> Result<(), Refusal>
        ensures { Did result self.new (give (row_of argument.now) text.entry.now self.old) }
    {
        if !argument.form.may_repeat() && self.flag(argument.name) {
            return Err(Refusal::GivenTwice);
        }
        if !argument.form.fits(text) {
            return Err(Refusal::NotANumber);
        }
        let given = Given {
            name: argument.name,
            text,
        };
        match self.given.push(given) {
            Ok(()) => Ok(()),
            Err(_) => Err(Refusal::OutOfMemory),
        }
    }
}
