// Cutting bytes that come in parts after each closing line.
ghost use Rattle.std.specs.Prelude.{◌≡◌, ◌≤◌, ◌+◌, ℕ, true, [], IfOk, IfErr, IfSome, IfNone, Err, length};
ghost use Rattle.yaml_docs.specs.Prelude.{ends_line};
ghost use Rattle.yaml_docs.specs.Cutting.{Held, Unclosed, Takes, Feeds, Overfeeds};
ghost use Rattle.yaml_docs.specs.LineBegun.{IsBegun, Completes};

use crate::closing::{CLOSING_LINE, LINE_AND_CLOSING_LINE};
use memchr::memmem;
use std::alloc::{AllocError, Global};
use std::marker::Model;
use std::mem;
use thiserror::Error;

/// How many bytes a [`Cutter`] took, and whether what it holds is a whole piece.
#[derive(Clone, Copy, Debug, PartialEq, Eq)]
pub struct Fed {
    /// How many of the bytes were taken, from the first.
    pub taken: usize,
    /// Whether the bytes that were taken end with the closing line of a piece. If not, all bytes were taken.
    pub closed: bool,
}

/// Why a [`Cutter`] takes no bytes. `Display` shows it as a sentence.
#[derive(Clone, Copy, Debug, PartialEq, Eq, Error)]
pub enum CutFault {
    /// The piece would have more bytes than it may.
    #[error("the piece is longer than the limit")]
    TooLong,
    /// Out of memory.
    #[error("out of memory")]
    OutOfMemory,
}

impl From<AllocError> for CutFault {
    ghost use Rattle.yaml_docs.specs.declared.cutter.CutFault.TheVariants.{OutOfMemory};

    ghost from_gives = { λ _ fault. fault ≡ OutOfMemory };

    fn from(_error: AllocError) -> CutFault {
        CutFault::OutOfMemory
    }
}

/// Holds the bytes after the last closing line of a stream that comes in parts. A closing line is a line of exactly
/// `...` and a line feed, as [`next_close`](crate::next_close) finds it. Contracts see the bytes that it holds, and the
/// most bytes that it may hold.
#[derive(Debug, Drop)]
pub struct Cutter {
    held: Vec<u8>,
    max: u64,
}

impl Model for Cutter {
    ghost use Rattle.std.specs.Prelude.{◌≤◌, length};
    ghost use Rattle.yaml_grammar.specs.Closings.{ends_line};
    ghost use Rattle.yaml_docs.specs.Cutting.{Held, held_code};

    ghost Value = { Held };

    ghost coded = { held_code };

    ghost view = { λ c. record { bytes = c.held.items; max = c.max } };

    ghost invariant = { λ c. length c.held.items ≤ c.max };
}

impl Cutter {
    /// Returns a cutter that holds nothing, for pieces of at most `max` bytes. It allocates nothing, and keeps the
    /// allocator.
    pub fn new(alloc: Global, max: u64) -> Self
        ensures { result ≡ record { bytes = []; max = max } }
    {
        Cutter {
            held: Vec::new(alloc),
            max,
        }
    }

    /// Takes bytes up to and including the first closing line, or all of them if there is none. A piece that is closed
    /// has to be [cleared](Cutter::clear) before the next call. Each byte is copied once.
    ///
    /// # Errors
    ///
    /// [`CutFault::TooLong`] only if the bytes that are held and those that would be taken are together more than the
    /// limit. [`CutFault::OutOfMemory`] if there is no memory for them. In both cases nothing is taken.
    pub fn feed(&mut self, bytes: &[u8]) -> Result<Fed, CutFault>
        requires { Unclosed self.old.bytes }
        ensures ok { IfOk result (Feeds self.old bytes.now self.new) }
        ensures short { IfOk result (λ fed. length self.new.bytes ≤ self.new.max) }
        ensures too_long { result ≡ Err CutFault.TooLong → Overfeeds self.old bytes.now }
        ensures unchanged { IfErr result (λ fault. self.new ≡ self.old) }
    {
        let fed = first_closing(&self.held, bytes);
        if fed.taken as u64 > self.max - self.held.len() as u64 {
            return Err(CutFault::TooLong);
        }
        self.held.extend_from_slice(&bytes[..fed.taken])?;
        Ok(fed)
    }

    /// Returns the bytes that are held: a whole piece if the last call of [`feed`](Cutter::feed) returned `closed`,
    /// else the first bytes of one.
    pub fn piece(&self) -> &[u8]
        ensures { result.now ≡ self.now.bytes }
    {
        &self.held
    }

    /// Drops the bytes that are held, and keeps their memory for the next ones.
    pub fn clear(&mut self)
        ensures { self.new ≡ record { bytes = []; max = self.old.max } }
    {
        self.held.clear();
    }

    /// Takes the bytes that are held out, with their memory. Nothing is held then.
    pub fn take(&mut self) -> Vec<u8>
        ensures taken { result.items ≡ self.old.bytes }
        ensures left { self.new ≡ record { bytes = []; max = self.old.max } }
    {
        let alloc = *self.held.allocator();
        mem::replace(&mut self.held, Vec::new(alloc))
    }
}

/// Returns how many of the bytes are taken after those that are held.
fn first_closing(held: &[u8], bytes: &[u8]) -> Fed
    requires { Unclosed held.now }
    ensures takes { Takes held.now bytes.now result.taken result.closed }
    ensures within { result.taken ≤ length bytes.now }
{
    if let Some(taken) = completed_line(held, bytes) {
        return Fed {
            taken,
            closed: true,
        };
    }
    match memmem::find(bytes, LINE_AND_CLOSING_LINE) {
        Some(line) => Fed {
            taken: line + LINE_AND_CLOSING_LINE.len(),
            closed: true,
        },
        None => Fed {
            taken: bytes.len(),
            closed: false,
        },
    }
}

/// Returns how many of the bytes complete a closing line that begins in the bytes that are held, or right after them.
/// Returns None if they complete none.
fn completed_line(held: &[u8], bytes: &[u8]) -> Option<usize>
    ensures found { IfSome result (λ taken. (dots : ℕ) × Completes held.now bytes.now dots
        × (taken + dots ≡ 4)) }
    ensures none { IfNone result ((dots : ℕ) → Completes held.now bytes.now dots → ⊥) }
{
    for dots in 0..CLOSING_LINE.len() {
        if completes(held, bytes, dots) {
            return Some(CLOSING_LINE.len() - dots);
        }
    }
    None
}

/// Returns whether the bytes complete a closing line of which `dots` dots are held.
fn completes(held: &[u8], bytes: &[u8], dots: usize) -> bool
    requires { dots ≤ 3 }
    ensures completes { result ≡ true → Completes held.now bytes.now dots }
    ensures otherwise { Completes held.now bytes.now dots → result ≡ true }
{
    is_begun(held, dots) && bytes.starts_with(&CLOSING_LINE[dots..])
}

/// Returns whether the last line that is held is `dots` dots.
fn is_begun(held: &[u8], dots: usize) -> bool
    requires { dots ≤ 3 }
    ensures begun { result ≡ true → IsBegun held.now dots }
    ensures not_begun { IsBegun held.now dots → result ≡ true }
{
    match held.strip_suffix(&CLOSING_LINE[..dots]) {
        Some(lines) => ends_line(lines),
        None => false,
    }
}

/// Returns whether a line starts after the bytes.
fn ends_line(bytes: &[u8]) -> bool
    ensures { result ≡ ends_line bytes.now }
{
    match bytes.last() {
        Some(byte) => *byte == b'\n',
        None => true,
    }
}
