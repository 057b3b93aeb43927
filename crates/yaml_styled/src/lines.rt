// Lines that are taken piece by piece, as the one style writes them.
ghost use Rattle.std.specs.Prelude.{◌≡◌, ◌≤◌, ◌++◌, [], ◌∷◌, IfOk, IfSome, OnOk, if◌then◌else◌};
ghost use Rattle.yaml_styled.specs.Prelude.{chars, spaces};
ghost use Rattle.yaml_styled.specs.Comparing.{GoesOn};
ghost use Rattle.yaml_styled.specs.Taking.{Took};

use crate::blocks::{BLOCK, Class, Spaces};
use crate::miss::Miss;
use yaml_writer::Sink;

/// The most spaces that are compared at once.
const SPACES: &str = "                ";

/// Lines of a text, of which those that are indented are counted as they are taken. As a sink it takes what is written
/// off the text, and fails where the text goes on otherwise. It takes no memory.
#[derive(Drop)]
pub(crate) struct Lines<'t> {
    /// What is left of the text.
    rest: &'t str,
    /// How many indented lines were taken.
    counted: u64,
}

impl<'t> Lines<'t> {
    /// The lines of a text, before any is taken.
    pub(crate) fn new(text: &'t str) -> Lines<'t>
        ensures rest { result.rest.now ≡ text.now }
        ensures counted { result.counted ≡ 0 }
    {
        Lines {
            rest: text,
            counted: 0,
        }
    }

    /// What is left.
    #[inline]
    pub(crate) fn rest(&self) -> &'t str
        ensures { result.now ≡ self.now.rest.now }
    {
        self.rest
    }

    /// How many indented lines were taken.
    #[inline]
    pub(crate) fn counted(&self) -> u64
        ensures { result ≡ self.now.counted }
    {
        self.counted
    }

    /// The first byte of what is left.
    #[inline]
    pub(crate) fn first(&self) -> Option<u8> {
        self.rest.as_bytes().first().copied()
    }

    /// Takes what comes before this rest.
    #[inline(always)]
    pub(crate) fn go_on(&mut self, rest: &'t str)
        ensures rest { self.new.rest.now ≡ rest.now }
        ensures counted { self.new.counted ≡ self.old.counted }
    {
        self.rest = rest;
    }

    /// Takes a piece of ASCII or other text.
    #[inline]
    pub(crate) fn take(&mut self, piece: &str) -> Result<(), Miss>
        ensures { OnOk result (Took self.old.rest.now self.old.counted (chars piece.now) 0
            self.new.rest.now self.new.counted) }
    {
        let Some(rest) = self.rest.strip_prefix(piece) else {
            return Err(Miss::OtherForm);
        };
        self.rest = rest;
        Ok(())
    }

    /// Counts indented lines that were taken without being counted.
    pub(crate) fn count(&mut self, lines: u64) -> Result<(), Miss>
        ensures { OnOk result (Took self.old.rest.now self.old.counted [] lines
            self.new.rest.now self.new.counted) }
    {
        let Some(counted) = self.counted.checked_add(lines) else {
            return Err(Miss::OtherForm);
        };
        self.counted = counted;
        Ok(())
    }

    /// Takes the spaces that a line begins with, and counts it.
    pub(crate) fn indent(&mut self, count: u64) -> Result<(), Miss>
        ensures { OnOk result (Took self.old.rest.now self.old.counted (spaces count) 1
            self.new.rest.now self.new.counted) }
    {
        match self.next_row(count) {
            Ok(true) => Ok(()),
            Ok(false) => Err(Miss::OtherForm),
            Err(miss) => Err(miss),
        }
    }

    /// Takes the spaces before the next row and counts its line, if it comes after just so many spaces. Returns whether
    /// it does; if not, nothing is taken.
    pub(crate) fn next_row(&mut self, indent: u64) -> Result<bool, Miss>
        ensures { IfOk result (λ more. Took self.old.rest.now self.old.counted
            (if more then spaces indent else []) (if more then 1 else 0)
            self.new.rest.now self.new.counted) }
    {
        let Some(row) = strip_spaces(self.rest, indent) else {
            return Ok(false);
        };
        if !begins_row(row) {
            return Ok(false);
        }
        let Some(counted) = self.counted.checked_add(1) else {
            return Err(Miss::OtherForm);
        };
        self.rest = row;
        self.counted = counted;
        Ok(true)
    }
}

impl Sink for Lines<'_> {
    ghost use Rattle.yaml_styled.specs.Taking.{Took, took_none, took_both};

    type Fault = Miss;

    ghost Takes = { λ a cs b. Took a.rest.now a.counted cs 0 b.rest.now b.counted };

    ghost takes_none = { λ s. took_none s.rest.now s.counted };

    ghost takes_both = { λ a b c xs ys first second. took_both first second };

    #[inline]
    fn put_text(&mut self, text: &str) -> Result<(), Miss> {
        self.take(text)
    }

    #[inline]
    fn put_char(&mut self, c: char) -> Result<(), Miss> {
        let Some(rest) = self.rest.strip_prefix(c) else {
            return Err(Miss::OtherForm);
        };
        self.rest = rest;
        Ok(())
    }

    fn put_spaces(&mut self, count: u64) -> Result<(), Miss> {
        let Some(rest) = strip_spaces(self.rest, count) else {
            return Err(Miss::OtherForm);
        };
        self.rest = rest;
        Ok(())
    }
}

/// Whether a text begins with a character that a row may begin with.
#[inline]
fn begins_row(text: &str) -> bool {
    match text.as_bytes().first() {
        Some(byte) => !matches!(*byte, b' ' | b'\n'),
        None => false,
    }
}

/// What comes after so many spaces; `None` if the text does not begin with them.
#[inline(always)]
fn strip_spaces(text: &str, count: u64) -> Option<&str>
    ensures { IfSome result (λ rest. GoesOn text.now (spaces count) rest.now) }
{
    let mut left = count as usize;
    let mut rest = text;
    while left > BLOCK {
        rest = strip_few_spaces(rest, BLOCK)?;
        left -= BLOCK;
    }
    let row = strip_few_spaces(rest, left)?;
    Some(row)
}

/// The same for at most sixteen spaces.
#[inline(always)]
fn strip_few_spaces(text: &str, count: usize) -> Option<&str>
    requires { count ≤ 16 }
    ensures { IfSome result (λ rest. GoesOn text.now (spaces count) rest.now) }
{
    let bytes = text.as_bytes();
    if bytes.len() < BLOCK {
        return strip_last_spaces(text, count);
    }
    if Spaces::run_in_block(bytes, 0) < count {
        return None;
    }
    let (_, rest) = text.split_at_checked(count)?;
    Some(rest)
}

/// The same near the end of a text.
#[inline(never)]
fn strip_last_spaces(text: &str, count: usize) -> Option<&str>
    requires { count ≤ 16 }
    ensures { IfSome result (λ rest. GoesOn text.now (spaces count) rest.now) }
{
    let row = text.strip_prefix(&SPACES[..count])?;
    Some(row)
}
