// Lines and columns of a text.
ghost use Rattle.std.specs.Prelude.{◌≤◌, length};

use std::fmt;
use yaml_chars::next_break;

/// A place in a text.
#[derive(Clone, Copy, Debug, PartialEq, Eq)]
pub struct Place {
    /// The line, from 1. Lines end in LF, CR LF or CR (YAML 1.2.2, 5.4).
    pub line: u64,
    /// The column in code points, from 1. A byte order mark counts as one.
    pub column: u64,
}

/// The line and the column with a colon between them, as `3:7`.
impl fmt::Display for Place {
    fn fmt<W: fmt::Write>(&self, f: &mut fmt::Formatter<W>) -> fmt::Result {
        let (line, column) = (self.line, self.column);
        write!(f, "{line}:{column}")
    }
}

/// Returns the place of the character that byte `at` of a text, from 0, belongs to; the place after the last character
/// if the text has no such byte. A line break belongs to the line that it ends. No contract says which place it is.
pub fn place_at(text: &str, at: usize) -> Place {
    let bytes = text.as_bytes();
    let mut line = 1;
    let mut start = 0;
    while let Some((place, len)) = next_break(text, start) {
        if place + len > at {
            break;
        }
        line += 1;
        start = place + len;
    }
    let column = 1 + code_points(&bytes[start..at.clamp(start, bytes.len())]);
    Place { line, column }
}

/// Returns how many characters begin in these bytes of a text.
fn code_points(bytes: &[u8]) -> u64
    ensures { result ≤ length bytes.now }
{
    bytes.iter().filter(|byte| **byte & 0xc0 != 0x80).count() as u64
}
