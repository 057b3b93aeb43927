// Where a piece begins, and where its zeros are.
ghost use Rattle.std.specs.Prelude.{◌≡◌, ◌+◌, ◌≤◌, ◌<◌, ◌^◌, length};
ghost use Rattle.conf_history.specs.BadPieces.{line_feeds, zeros_of};
ghost use Rattle.conf_history.specs.Faults.{fault_here};

use crate::fault::HistoryFault;
use conf_store::{NoRecord, RecordFault};
use memchr::memchr_iter;

/// The first piece of a file that is not the next record.
#[derive(Clone, Copy, Debug, PartialEq, Eq)]
pub struct BadPiece {
    /// The number of the piece, from 1 after the base.
    pub number: u64,
    /// How many bytes of the file come before the piece.
    pub byte: u64,
    /// The line of the file in which the piece begins, from 1.
    pub line: u64,
    /// Why it is not the next record.
    pub why: NoRecord,
}

/// The zeros of a piece, which a crash may have left there.
#[derive(Clone, Copy, Debug, PartialEq, Eq)]
pub struct Zeros {
    /// How many bytes of the file come before the first of them.
    pub first: u64,
    /// How many there are.
    pub count: u64,
}

/// Where the next piece of a file begins.
#[derive(Clone, Copy)]
pub(crate) struct Place {
    /// How many pieces come before it, with the base.
    pub number: u64,
    /// How many bytes come before it.
    pub byte: u64,
    /// How many line feeds come before it.
    pub feeds: u64,
}

impl Place {
    /// The start of a file.
    pub fn start() -> Place
        ensures { result ≡ record { number = 0; byte = 0; feeds = 0 } }
    {
        Place {
            number: 0,
            byte: 0,
            feeds: 0,
        }
    }

    /// The place after a piece that begins here.
    pub fn after(self, piece: &[u8]) -> Place
        requires few { self.number ≤ self.byte }
        requires lines { self.feeds ≤ self.byte }
        requires short { self.byte + length piece.now < 2 ^ 63 }
        ensures { result ≡ record {
          number = self.number + 1;
          byte = self.byte + length piece.now;
          feeds = self.feeds + line_feeds piece.now;
        } }
    {
        Place {
            number: self.number + 1,
            byte: self.byte + piece.len() as u64,
            feeds: self.feeds + line_feeds(piece),
        }
    }

    /// The zeros of a piece that begins here, if it has any.
    pub fn zeros_of(self, piece: &[u8]) -> Option<Zeros>
        requires { self.byte + length piece.now < 2 ^ 63 }
        ensures { result ≡ zeros_of self.byte piece.now }
    {
        let mut places = memchr_iter(0, piece);
        let Some(first) = places.next() else {
            return None;
        };
        Some(Zeros {
            first: self.byte + first as u64,
            count: 1 + places.count() as u64,
        })
    }

    /// The fault of a file whose piece that begins here was not performed.
    pub fn fault_here(self, fault: RecordFault) -> HistoryFault
        requires { self.feeds < 2 ^ 63 }
        ensures { result ≡ fault_here self fault }
    {
        match fault {
            RecordFault::Bad(why) => HistoryFault::Damaged(BadPiece {
                number: self.number,
                byte: self.byte,
                line: self.feeds + 1,
                why,
            }),
            RecordFault::OutOfMemory => HistoryFault::OutOfMemory,
        }
    }
}

/// How many line feeds the bytes have.
fn line_feeds(bytes: &[u8]) -> u64
    ensures { result ≡ line_feeds bytes.now }
{
    memchr_iter(b'\n', bytes).count() as u64
}
