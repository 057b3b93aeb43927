// Open files.
ghost use Rattle.std.specs.Prelude.{◌≡◌, Some};
ghost use Rattle.conf_store.specs.Holes.{is_several};
ghost use Rattle.test_worlds.specs.Files.{remaining_of, waiting_of};

use conf_store::Waiting;
use std::io;
use std::io::{Cursor, Read};

/// A file in memory that is open to be read.
#[derive(Drop)]
pub struct MemoryFile {
    cursor: Cursor<Vec<u8>>,
    /// How many records may have waited for one sync, if it is the file of a store.
    waiting: Waiting,
}

impl MemoryFile {
    /// A file of these bytes, of which none is read.
    pub(crate) fn new(bytes: Vec<u8>, waiting: Waiting) -> MemoryFile
        ensures bytes { remaining_of result ≡ Some bytes.items }
        ensures waiting { waiting_of result ≡ is_several waiting }
    {
        MemoryFile {
            cursor: Cursor::new(bytes),
            waiting,
        }
    }

    pub(crate) fn waiting(&self) -> Waiting
        ensures { is_several result ≡ waiting_of self.now }
    {
        self.waiting
    }
}

impl Read for MemoryFile {
    ghost remaining = { remaining_of };

    fn read(&mut self, buf: &mut [u8]) -> io::Result<usize> {
        self.cursor.read(buf)
    }
}
