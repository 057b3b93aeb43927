// Who is told what went wrong.
ghost use Rattle.std.specs.Prelude.{◌≡◌, ◌++◌, ℕ, List};
ghost use Rattle.conf_tools.specs.Listening.{fault_line};

use std::io;
use std::io::Write;

/// Who is told what went wrong, as standard error is.
///
/// Telling never fails: what can't be written is lost, and the program goes on. Of what is written to it in another way
/// than by [`tell`](Listener::tell), nothing is claimed.
pub trait Listener: Write {
    /// From one moment to another this text was told, and nothing else was written.
    ghost hears: { Self → List ℕ → Self → Type 0 };

    /// Tells a text.
    fn tell(&mut self, text: &str)
        ensures { hears self.old text.now self.new };

    /// What was told in two parts was told.
    ghost hears_both: { (first middle last : Self) (one other : List ℕ)
        → hears first one middle → hears middle other last → hears first (one ++ other) last };
}

/// A writer that is told what went wrong. What it does not take is lost.
///
/// As long as no write has failed, it holds all that it was told.
#[derive(Drop)]
pub struct Told<W> {
    writer: W,
    has_failed: bool,
}

impl<W: Write> Told<W> {
    ghost use Rattle.conf_tools.specs.Listening.{Works, told_contents};

    /// Tells it to `writer`.
    pub fn new(writer: W) -> Self
        ensures works { Works result }
        ensures contents { told_contents W.contents result ≡ W.contents writer }
    {
        Told {
            writer,
            has_failed: false,
        }
    }

    /// Returns the writer.
    pub fn into_writer(self) -> W
        ensures { W.contents result ≡ told_contents W.contents self }
    {
        let Told { writer, .. } = self;
        writer
    }
}

impl<W: Write> Write for Told<W> {
    ghost use Rattle.conf_tools.specs.Listening.{told_contents};

    ghost contents = { told_contents W.contents };

    fn write(&mut self, buf: &[u8]) -> io::Result<usize> {
        self.writer.write(buf)
    }

    fn flush(&mut self) -> io::Result<()> {
        self.writer.flush()
    }
}

impl<W: Write> Listener for Told<W> {
    ghost use Rattle.conf_tools.specs.Listening.{HearsText, hears_both};

    ghost hears = { HearsText W.contents };

    fn tell(&mut self, text: &str) {
        if self.writer.write_all(text.as_bytes()).is_err() {
            self.has_failed = true;
        }
    }

    ghost hears_both = { hears_both W.contents };
}

/// Tells the name of a fault in one line.
pub(crate) fn tell_name<E: Listener>(errors: &mut E, name: &str)
    ensures { E.hears errors.old (fault_line name.now) errors.new }
{
    errors.tell("confstore: ");
    errors.tell(name);
    errors.tell("\n");
}
