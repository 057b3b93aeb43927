// Readers and writers that work in parts, end, or fail.
use std::alloc::Global;
use std::io;
use std::io::{ErrorKind, Read, Write};

/// A reader that gives at most `step` bytes at a time, and after the last one its end, or a fault if there is one.
#[derive(Drop)]
pub struct Source<'a> {
    pub rest: &'a [u8],
    pub step: usize,
    pub fault: Option<ErrorKind>,
}

impl<'a> Source<'a> {
    /// A reader that gives these bytes, and fails at the read after them.
    pub fn broken(bytes: &'a [u8]) -> Source<'a> {
        Source {
            rest: bytes,
            step: usize::MAX,
            fault: Some(ErrorKind::BrokenPipe),
        }
    }
}

impl Read for Source<'_> {
    fn read(&mut self, buf: &mut [u8]) -> io::Result<usize> {
        if let (true, Some(kind)) = (self.rest.is_empty(), self.fault) {
            return Err(io::Error::from(kind));
        }
        let most = self.step.min(buf.len());
        self.rest.read(&mut buf[..most])
    }
}

/// A writer that keeps bytes while there is room, and then takes none, or fails if there is a fault.
#[derive(Drop)]
pub struct Sink {
    pub kept: Vec<u8>,
    pub room: usize,
    pub fault: Option<ErrorKind>,
}

impl Sink {
    /// A writer that keeps `room` bytes, and then takes none.
    pub fn new(alloc: Global, room: usize) -> Sink {
        Sink {
            kept: Vec::new(alloc),
            room,
            fault: None,
        }
    }

    /// A writer that takes no byte, and fails.
    pub fn full(alloc: Global) -> Sink {
        Sink {
            kept: Vec::new(alloc),
            room: 0,
            fault: Some(ErrorKind::StorageFull),
        }
    }
}

impl Write for Sink {
    fn write(&mut self, buf: &[u8]) -> io::Result<usize> {
        if let (0, Some(kind)) = (self.room, self.fault) {
            return Err(io::Error::from(kind));
        }
        let taken = self.room.min(buf.len());
        self.kept.extend_from_slice(&buf[..taken])?;
        self.room -= taken;
        Ok(taken)
    }

    fn flush(&mut self) -> io::Result<()> {
        Ok(())
    }
}
