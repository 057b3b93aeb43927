// Open files.
ghost use Rattle.std.specs.Prelude.{◌≡◌};

use conf_store::Waiting;
use std::io;
use std::io::{Cursor, Read};

/// A file in memory that is open to be read.
#[derive(Drop)]
pub(crate) struct WorldFile {
    cursor: Cursor<Vec<u8>>,
    /// How many records may have waited for one sync, if it is the file of a store.
    waiting: Waiting,
}

impl WorldFile {
    /// A file of these bytes, of which none is read.
    pub(crate) fn new(bytes: Vec<u8>, waiting: Waiting) -> WorldFile {
        WorldFile {
            cursor: Cursor::new(bytes),
            waiting,
        }
    }

    /// How many records may have waited for one sync.
    pub(crate) fn waiting(&self) -> Waiting
        ensures { result ≡ self.now.waiting }
    {
        self.waiting
    }
}

impl Read for WorldFile {
    fn read(&mut self, buf: &mut [u8]) -> io::Result<usize> {
        self.cursor.read(buf)
    }
}
