// A reader that remembers the end of what it gave.
ghost use Rattle.std.specs.Prelude.{◌≡◌, take, replicate, option_map, IfOk, IfErr};
ghost use Rattle.conf_tools.specs.Prelude.{ReadConsumes};
ghost use Rattle.std.specs.Io.{ReadsAtMost};
ghost use Rattle.conf_tools.specs.Tails.{Follows, blanks_after, end_of_rest, is_blank};

use std::io;
use std::io::Read;

/// How many bytes a [`Tail`] keeps.
pub const KEPT: usize = 256;

/// The end of what a reader gave.
#[derive(Drop)]
pub struct Tail {
    /// The last bytes that it gave. Before the first of them are zeros.
    pub kept: [u8; KEPT],
    /// How many bytes it gave since the last one that is no space, TAB, CR or LF. It stops at the greatest number.
    pub blanks: u64,
}

impl Tail {
    /// The end of a reader that gave nothing yet.
    fn new() -> Tail
        ensures kept { result.kept ≡ replicate KEPT 0 }
        ensures blanks { result.blanks ≡ 0 }
    {
        Tail {
            kept: [0; KEPT],
            blanks: 0,
        }
    }

    /// Takes in the bytes that were given next.
    fn push(&mut self, bytes: &[u8])
        ensures { Follows self.old bytes.now self.new }
    {
        self.blanks = blanks_after(self.blanks, bytes);
        let count = bytes.len();
        if count >= KEPT {
            self.kept.copy_from_slice(&bytes[count - KEPT..]);
        } else {
            self.kept.rotate_left(count);
            self.kept[KEPT - count..].copy_from_slice(bytes);
        }
    }

    /// The last bytes of the rest of an input, which is its last `rest` bytes: at most 256. `None` if all of the rest
    /// is blank.
    pub(crate) fn end_of_rest(&self, rest: u64) -> Option<&[u8]>
        ensures { option_map (λ bytes. bytes.now) result
            ≡ end_of_rest self.now.kept self.now.blanks rest }
    {
        if rest <= self.blanks {
            return None;
        }
        let count = rest.min(KEPT as u64) as usize;
        Some(&self.kept[KEPT - count..])
    }
}

/// How many bytes were given since the last one that is not blank, where it was `blanks` before these bytes. It looks
/// at the last bytes alone, as far as they are blank.
fn blanks_after(blanks: u64, bytes: &[u8]) -> u64
    ensures { result ≡ blanks_after blanks bytes.now }
{
    let mut at = bytes.len();
    'blanks: while at > 0 {
        if !is_blank(bytes[at - 1]) {
            return (bytes.len() - at) as u64;
        }
        at -= 1;
    }
    blanks.saturating_add(bytes.len() as u64)
}

/// Whether a byte is a space, a TAB, a CR or an LF.
fn is_blank(byte: u8) -> bool
    ensures { result ≡ is_blank byte }
{
    matches!(byte, b' ' | b'\t' | b'\r' | b'\n')
}

/// A reader that remembers the end of what it gave. It gives what the inner reader gives.
#[derive(Drop)]
pub struct TailReader<R> {
    /// The reader that the bytes come from.
    pub inner: R,
    /// The end of what it gave.
    pub tail: Tail,
}

impl<R> TailReader<R> {
    /// A reader that gives what `inner` gives.
    pub fn new(inner: R) -> TailReader<R>
        ensures inner { result.inner ≡ inner }
        ensures kept { result.tail.kept ≡ replicate KEPT 0 }
        ensures blanks { result.tail.blanks ≡ 0 }
    {
        TailReader {
            inner,
            tail: Tail::new(),
        }
    }
}

impl<R: Read> Read for TailReader<R> {
    ghost remaining = { λ reader. R.remaining reader.inner };

    fn read(&mut self, buf: &mut [u8]) -> io::Result<usize>
        ensures bound { ReadsAtMost result buf.new }
        ensures bytes { ReadConsumes (R.remaining self.old.inner) (R.remaining self.new.inner)
            result buf.new }
        // The tail is that of all bytes that were given.
        ensures tail { IfOk result (λ count.
            Follows self.old.tail (take count buf.new) self.new.tail) }
        ensures same { IfErr result (λ _. self.new.tail ≡ self.old.tail) }
    {
        let count = self.inner.read(buf)?;
        self.tail.push(&buf[..count]);
        Ok(count)
    }
}
