// A reader's bytes, cut into pieces as they are read.
ghost use Rattle.std.specs.Prelude.{◌≡◌, ◌≤◌, ◌↔◌, ℕ, true, [], IfOk, length, take};
ghost use Rattle.yaml_docs.specs.Prelude.{ReadConsumes};
ghost use Rattle.yaml_docs.specs.Cutting.{Unclosed};
ghost use Rattle.yaml_docs.specs.PieceReading.{Advances, AdvancesAhead, Feeds, Fills, HasPieceAhead, Widens, IsSound, ahead, bytes_read, input_limit, piece_limit, piece_or_rest};

use crate::closing::next_close;
use crate::cutter::{CutFault, Cutter};
use std::alloc::{AllocError, Global};
use std::io;
use std::io::Read;
use thiserror::Error;

/// The most bytes that are read at once, and as many as are read at first.
const CHUNK: usize = 65_536;

const FIRST_CHUNK: usize = 4_096;

/// Why there is no next piece. `Display` shows it as a sentence.
#[derive(Clone, Copy, Debug, PartialEq, Eq, Error)]
pub enum PiecesFault {
    /// A read failed, and what was read before it closes no further piece.
    #[error("a read failed")]
    Read,
    /// The piece, or what comes after the last one, has more bytes than a piece may have.
    #[error("the piece is longer than the limit")]
    TooLong,
    /// The input has more bytes than it may have.
    #[error("the input is longer than the limit")]
    InputLong,
    /// Out of memory.
    #[error("out of memory")]
    OutOfMemory,
}

/// The pieces of what a reader gives, each as soon as its closing line was read. A piece is everything up to and
/// including a closing line, a line of exactly `...` and a line feed, as [`next_close`] finds it.
///
/// Contracts see the piece, or what comes after the last one (`piece_or_rest`), the bytes that were read and are in no
/// piece yet (`ahead`), how many bytes were read (`bytes_read`), and how many a piece and the whole input may have
/// (`piece_limit`, `input_limit`). That these fit together (`IsSound`) holds from [`Pieces::new`] on, until a call
/// fails.
#[derive(Drop)]
pub struct Pieces {
    cutter: Cutter,
    chunk: Vec<u8>,
    start: usize,
    end: usize,
    total: usize,
    limit: usize,
}

impl Pieces {
    /// Returns the pieces of a reader of which nothing is read yet. A piece may have `longest_piece` bytes, at least
    /// 65,536, and the whole input `longest_input` bytes. It takes the memory for 4,096 bytes. A read that fills them
    /// makes room for 65,536.
    ///
    /// # Errors
    /// `AllocError` if there is no memory for 4,096 bytes.
    pub fn new(
        alloc: Global,
        longest_piece: u64,
        longest_input: usize,
    ) -> Result<Pieces, AllocError>
        requires { 65536 ≤ longest_piece }
        ensures sound { IfOk result (IsSound longest_piece longest_input) }
        ensures unread { IfOk result (λ pieces. (ahead pieces ≡ []) × (bytes_read pieces ≡ 0)) }
    {
        Ok(Pieces {
            cutter: Cutter::new(alloc, longest_piece),
            chunk: vec![in alloc; 0; FIRST_CHUNK]?,
            start: 0,
            end: 0,
            total: 0,
            limit: longest_input,
        })
    }

    /// Goes on to the next piece, or to the bytes after the last one. Returns whether there is a piece. It reads only
    /// if what was read before closes no further piece, and at most 65,536 bytes at a time.
    ///
    /// # Errors
    /// After an error nothing is promised of the input.
    ///
    /// - `Read`: a read failed, and what was read before it closes no further piece.
    /// - `TooLong`: the piece, or what comes after the last one, has more bytes than a piece may have.
    /// - `InputLong`: the input has more bytes than it may have, and the first that many close no further piece.
    /// - `OutOfMemory`: there is no memory for the piece.
    pub fn advance<R: Read>(&mut self, reader: &mut R) -> Result<bool, PiecesFault>
        requires { IsSound (piece_limit self.old) (input_limit self.old) self.old }
        ensures { Advances (piece_limit self.old) (input_limit self.old)
            (R.remaining reader.old) (R.remaining reader.new) self.old self.new result }
    {
        self.cutter.clear();
        'parts: loop {
            if self.feed()? {
                return Ok(true);
            }
            if !self.fill(reader)? {
                return Ok(false);
            }
        }
    }

    /// Returns whether the bytes that were read close a further piece, so that there is one without a read.
    pub fn has_piece_ahead(&self) -> bool
        requires { IsSound (piece_limit self.now) (input_limit self.now) self.now }
        ensures { (result ≡ true) ↔ HasPieceAhead self.now }
    {
        next_close(&self.chunk[self.start..self.end], 0).is_some()
    }

    /// Goes on to the next piece, which the bytes that were read close. It never reads.
    ///
    /// # Errors
    /// `OutOfMemory`: there is no memory for the piece. After it nothing is promised of the input.
    pub fn advance_ahead(&mut self) -> Result<(), PiecesFault>
        requires sound { IsSound (piece_limit self.old) (input_limit self.old) self.old }
        requires ahead { HasPieceAhead self.old }
        ensures { AdvancesAhead (piece_limit self.old) (input_limit self.old)
            self.old self.new result }
    {
        self.cutter.clear();
        match self.feed() {
            Ok(_) => Ok(()),
            Err(fault) => Err(fault),
        }
    }

    /// Returns the piece, or the bytes after the last one, as the last call of [`advance`](Pieces::advance) or
    /// [`advance_ahead`](Pieces::advance_ahead) left them.
    pub fn piece(&self) -> &[u8]
        ensures { result.now ≡ piece_or_rest self.now }
    {
        self.cutter.piece()
    }

    /// Takes the piece out, or the bytes after the last one, with its memory. Until the next call of
    /// [`advance`](Pieces::advance) or [`advance_ahead`](Pieces::advance_ahead) the piece is empty.
    pub fn take_piece(&mut self) -> Vec<u8>
        ensures taken { result.items ≡ piece_or_rest self.old }
        ensures left { piece_or_rest self.new ≡ [] }
        ensures ahead { ahead self.new ≡ ahead self.old }
        ensures read { bytes_read self.new ≡ bytes_read self.old }
        ensures sound { (longest most : ℕ) → IsSound longest most self.old
            → IsSound longest most self.new }
    {
        self.cutter.take()
    }

    /// Appends what was read to the piece, up to the piece's end. Returns whether the piece is complete.
    fn feed(&mut self) -> Result<bool, PiecesFault>
        requires sound { IsSound (piece_limit self.old) (input_limit self.old) self.old }
        requires unclosed { Unclosed self.old.cutter.bytes }
        ensures { Feeds (piece_limit self.old) (input_limit self.old) self.old self.new result }
    {
        match self.cutter.feed(&self.chunk[self.start..self.end]) {
            Ok(fed) => {
                self.start += fed.taken;
                Ok(fed.closed)
            }
            Err(CutFault::TooLong) => Err(PiecesFault::TooLong),
            Err(CutFault::OutOfMemory) => Err(PiecesFault::OutOfMemory),
        }
    }

    /// Makes room for longer reads if the last one filled the chunk, and if there is memory for it.
    fn widen(&mut self)
        requires sound { IsSound (piece_limit self.old) (input_limit self.old) self.old }
        requires used { ahead self.old ≡ [] }
        ensures { Widens (piece_limit self.old) (input_limit self.old) self.old self.new }
    {
        if self.end < self.chunk.len() || CHUNK <= self.chunk.len() {
            return;
        }
        if self.chunk.resize(CHUNK, 0).is_ok() {
            self.start = 0;
            self.end = 0;
        }
    }

    /// Reads once. Returns whether there was anything to read. At the limit of the input it looks whether there is one
    /// byte more.
    fn fill<R: Read>(&mut self, reader: &mut R) -> Result<bool, PiecesFault>
        requires sound { IsSound (piece_limit self.old) (input_limit self.old) self.old }
        requires used { ahead self.old ≡ [] }
        ensures { Fills (piece_limit self.old) (input_limit self.old)
            (R.remaining reader.old) (R.remaining reader.new) self.old self.new result }
    {
        self.widen();
        let room = self.chunk.len().min(self.limit - self.total).max(1);
        match read_prefix(reader, &mut self.chunk, room) {
            Ok(0) => Ok(false),
            Ok(_) if self.total == self.limit => Err(PiecesFault::InputLong),
            Ok(count) => {
                self.start = 0;
                self.end = count;
                self.total += count;
                Ok(true)
            }
            Err(_) => Err(PiecesFault::Read),
        }
    }
}

/// Reads once, into the first `room` bytes of the chunk.
fn read_prefix<R: Read>(reader: &mut R, chunk: &mut [u8], room: usize) -> io::Result<usize>
    requires { room ≤ length chunk.old }
    ensures bound { IfOk result (λ count. count ≤ room) }
    ensures bytes { ReadConsumes (R.remaining reader.old) (R.remaining reader.new)
        result (take room chunk.new) }
{
    reader.read(&mut chunk[..room])
}
