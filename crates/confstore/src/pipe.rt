// Standard output, whose pipe may be closed by whoever reads it, and standard error, which then says nothing of it.
//
// `confstore names store | head -1` has what it wants after one line. So a write that fails since nobody reads it any
// more is no fault to tell: standard error stays silent from then on. The status is still that of a failed write.
use std::alloc::Global;
use std::cell::Cell;
use std::io;
use std::io::{ErrorKind, Write};

/// Standard output. It notes when a write fails since nobody reads its pipe any more.
#[derive(Drop)]
pub(crate) struct Output<'c, W> {
    inner: W,
    is_closed: &'c Cell<bool>,
}

impl<'c, W> Output<'c, W> {
    /// Writes to `inner`, and notes a closed pipe in `is_closed`.
    pub(crate) fn new(inner: W, is_closed: &'c Cell<bool>) -> Self {
        Output { inner, is_closed }
    }

    /// Notes whether this failure is that of a closed pipe.
    fn note(&self, failure: &io::Error) {
        if failure.kind() == ErrorKind::BrokenPipe {
            self.is_closed.set(true);
        }
    }
}

impl<W: Write> Write for Output<'_, W> {
    fn write(&mut self, buf: &[u8]) -> io::Result<usize> {
        let done = self.inner.write(buf);
        if let Err(failure) = &done {
            self.note(failure);
        }
        done
    }

    fn flush(&mut self) -> io::Result<()> {
        let done = self.inner.flush();
        if let Err(failure) = &done {
            self.note(failure);
        }
        done
    }
}

/// Standard error. A line is one write, so that the lines of two runs are not mixed: what it is given is held back up
/// to a line feed at its end. It drops what it is given once it has to be silent.
#[derive(Drop)]
pub(crate) struct Errors<'c, E> {
    inner: E,
    is_silent: &'c Cell<bool>,
    /// What is held back.
    line: Vec<u8>,
}

impl<'c, E: Write> Errors<'c, E> {
    /// Writes to `inner` as long as `is_silent` holds false.
    pub(crate) fn new(alloc: Global, inner: E, is_silent: &'c Cell<bool>) -> Self {
        Errors {
            inner,
            is_silent,
            line: Vec::new(alloc),
        }
    }

    /// Writes what is held back. What can't be written is lost.
    fn write_line(&mut self) -> io::Result<()> {
        let done = if self.is_silent.get() {
            Ok(())
        } else {
            self.inner.write_all(&self.line)
        };
        self.line.clear();
        done
    }
}

impl<E: Write> Write for Errors<'_, E> {
    fn write(&mut self, buf: &[u8]) -> io::Result<usize> {
        if self.line.extend_from_slice(buf).is_err() {
            self.write_line()?;
            self.inner.write_all(buf)?;
        } else if buf.last() == Some(&b'\n') {
            self.write_line()?;
        }
        Ok(buf.len())
    }

    fn flush(&mut self) -> io::Result<()> {
        self.write_line()?;
        self.inner.flush()
    }
}
