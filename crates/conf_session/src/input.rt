// The input of a session, cut into pieces as it is read.
ghost use Rattle.std.specs.Prelude.{◌≡◌, ◌↔◌, true, [], IfOk};
ghost use Rattle.conf_session.specs.Input.{Advances, AdvancesAhead, HasPieceAhead, IsSound, ahead, bytes_read, piece_or_rest};

use crate::fault::SessionFault;
use crate::said::PIECE_LIMIT;
use std::alloc::{AllocError, Global};
use std::io::Read;
use yaml_docs::{Pieces, PiecesFault};

/// The most bytes of the input.
const SESSION_LIMIT: usize = 1_073_741_824;

/// The pieces of the input of a session, within its limits.
#[derive(Drop)]
pub(crate) struct Input {
    pieces: Pieces,
}

impl Input {
    /// Returns an input of which nothing is read yet. It takes the memory for 4,096 bytes.
    ///
    /// # Errors
    /// `AllocError` if there is no memory for the chunk.
    pub fn new(alloc: Global) -> Result<Input, AllocError>
        ensures { IfOk result (λ input. IsSound input × (ahead input ≡ [])
            × (bytes_read input ≡ 0)) }
    {
        let pieces = Pieces::new(alloc, PIECE_LIMIT, SESSION_LIMIT)?;
        Ok(Input { pieces })
    }

    /// Goes on to the next piece, or to the bytes after the last one, as [`Pieces::advance`]. Returns whether there is
    /// a piece.
    ///
    /// # Errors
    /// After an error nothing is promised of the input.
    ///
    /// - `Read`: a read failed, and what was read before it closes no further piece.
    /// - `TooLong`: the piece, or what comes after the last one, has more than [`PIECE_LIMIT`] bytes.
    /// - `SessionLong`: the input has more than 1,073,741,824 bytes, and the first that many close no further piece.
    /// - `OutOfMemory`: there is no memory for the piece.
    pub fn advance<R: Read>(&mut self, reader: &mut R) -> Result<bool, SessionFault>
        requires { IsSound self.old }
        ensures { Advances (R.remaining reader.old) (R.remaining reader.new)
            self.old self.new result }
    {
        match self.pieces.advance(reader) {
            Ok(more) => Ok(more),
            Err(PiecesFault::Read) => Err(SessionFault::Read),
            Err(PiecesFault::TooLong) => Err(SessionFault::TooLong),
            Err(PiecesFault::InputLong) => Err(SessionFault::SessionLong),
            Err(PiecesFault::OutOfMemory) => Err(SessionFault::OutOfMemory),
        }
    }

    /// Returns whether the bytes that were read close a further piece, so that there is one without a read.
    pub fn has_piece_ahead(&self) -> bool
        requires { IsSound self.now }
        ensures { (result ≡ true) ↔ HasPieceAhead self.now }
    {
        self.pieces.has_piece_ahead()
    }

    /// Goes on to the next piece, which the bytes that were read close. It never reads.
    ///
    /// # Errors
    /// `OutOfMemory`: there is no memory for the piece. After it nothing is promised of the input.
    pub fn advance_ahead(&mut self) -> Result<(), SessionFault>
        requires sound { IsSound self.old }
        requires ahead { HasPieceAhead self.old }
        ensures { AdvancesAhead self.old self.new result }
    {
        match self.pieces.advance_ahead() {
            Ok(()) => Ok(()),
            Err(_) => Err(SessionFault::OutOfMemory),
        }
    }

    /// Returns the piece, or the bytes after the last one, as the last call of [`advance`](Input::advance) or
    /// [`advance_ahead`](Input::advance_ahead) left them.
    pub fn piece(&self) -> &[u8]
        ensures { result.now ≡ piece_or_rest self.now }
    {
        self.pieces.piece()
    }
}
