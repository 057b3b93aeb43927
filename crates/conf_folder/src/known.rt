// What a run knows of a file that it read or wrote, and whether the file is still so.
use conf_files::{Identity, look};
use std::fs::{File, Metadata};
use std::io;
use std::io::ErrorKind;
use std::os::unix::fs::MetadataExt;
use std::rt::Files;

/// A file as a run read or left it: which one it is, and how long.
#[derive(Clone, Copy)]
pub(crate) struct KnownFile {
    identity: Identity,
    length: u64,
}

impl KnownFile {
    /// A file of this length.
    pub(crate) fn new(found: &Metadata, length: u64) -> KnownFile {
        KnownFile {
            identity: Identity::of(found),
            length,
        }
    }

    /// The file with so many more bytes at its end.
    pub(crate) fn longer(self, count: usize) -> Option<KnownFile> {
        let length = self.length.checked_add(count as u64)?;
        Some(KnownFile { length, ..self })
    }

    /// Finds that the file at a path is still so.
    ///
    /// # Errors
    /// If others have changed it, or the system refuses.
    pub(crate) fn find_at<R: Files<File = File>>(self, rt: &R, path: &str) -> io::Result<()> {
        self.compare(look(rt, path)?)
    }

    /// Finds that an open file is still so, and has a name.
    ///
    /// # Errors
    /// If others have changed it, or the system refuses.
    pub(crate) fn find_open(self, file: &File) -> io::Result<()> {
        self.compare(Some(file.metadata()?))
    }

    /// Finds that a file is still so, by what is found in its place.
    ///
    /// # Errors
    /// If others have changed it.
    fn compare(self, found: Option<Metadata>) -> io::Result<()> {
        let change = match found {
            Some(found) if Identity::of(&found) == self.identity && found.nlink() > 0 => {
                match found.len() {
                    length if length > self.length => "others have written to it",
                    length if length < self.length => "others have cut it",
                    _ => return Ok(()),
                }
            }
            _ => "others have removed or replaced it",
        };
        Err(io::Error::new(ErrorKind::InvalidInput, change))
    }
}
