// Runs of characters of a class: sixteen bytes at a time, and at the end of the text by a look in a table for each.
ghost use Rattle.std.specs.Prelude.{◌≡◌, ◌<◌, ◌≤◌, false, length, slice_index};
ghost use Rattle.yaml_scan.specs.Prelude.{IsCharBoundary, IsRun};
ghost use Rattle.yaml_scan.specs.Classes.{test_of, bit_of, line_ascii, ArePassed};

use crate::blocks::class_in_block;

/// A class of characters. A byte decides it: the characters from U+0080 on are all in the class or all outside of it.
#[derive(Clone, Copy, Debug, PartialEq, Eq)]
pub enum Class {
    /// Whitespace, and the ASCII characters that are plain anywhere after the first character of a plain scalar
    /// outside of brackets (7.3.3).
    Words,
    /// Whitespace, and the ASCII characters that are plain there between brackets.
    WordsInside,
    /// The characters that are themselves on a line in single quotes (7.3.2).
    SingleQuoted,
    /// The characters that are themselves on a line in double quotes (7.3.1).
    DoubleQuoted,
    /// The ASCII characters that a line may hold (5.4, `nb-char`).
    Line,
}

impl Class {
    /// Returns its bit in the table.
    fn bit(self) -> u8
        ensures { result ≡ bit_of self }
    {
        match self {
            Class::Words => 1,
            Class::WordsInside => 2,
            Class::SingleQuoted => 4,
            Class::DoubleQuoted => 8,
            Class::Line => 16,
        }
    }

    /// Returns whether the byte belongs to a character of the class.
    fn has(self, byte: u8) -> bool
        ensures { result ≡ test_of self byte }
    {
        CLASSES[byte as usize] & self.bit() != 0
    }
}

/// For each byte the sum of the bits of its classes.
static CLASSES: [u8; 256] = [
    0, 0, 0, 0, 0, 0, 0, 0, 0, 31, 0, 0, 0, 0, 0, 0, 0, 0, 0, 0, 0, 0, 0, 0, 0, 0, 0, 0, 0, 0, 0,
    0, 31, 31, 23, 28, 31, 31, 31, 27, 31, 31, 31, 31, 29, 31, 31, 31, 31, 31, 31, 31, 31, 31, 31,
    31, 31, 31, 28, 31, 31, 31, 31, 31, 31, 31, 31, 31, 31, 31, 31, 31, 31, 31, 31, 31, 31, 31, 31,
    31, 31, 31, 31, 31, 31, 31, 31, 31, 31, 31, 31, 29, 23, 29, 31, 31, 31, 31, 31, 31, 31, 31, 31,
    31, 31, 31, 31, 31, 31, 31, 31, 31, 31, 31, 31, 31, 31, 31, 31, 31, 31, 31, 31, 29, 31, 29, 31,
    12, 12, 12, 12, 12, 12, 12, 12, 12, 12, 12, 12, 12, 12, 12, 12, 12, 12, 12, 12, 12, 12, 12, 12,
    12, 12, 12, 12, 12, 12, 12, 12, 12, 12, 12, 12, 12, 12, 12, 12, 12, 12, 12, 12, 12, 12, 12, 12,
    12, 12, 12, 12, 12, 12, 12, 12, 12, 12, 12, 12, 12, 12, 12, 12, 12, 12, 12, 12, 12, 12, 12, 12,
    12, 12, 12, 12, 12, 12, 12, 12, 12, 12, 12, 12, 12, 12, 12, 12, 12, 12, 12, 12, 12, 12, 12, 12,
    12, 12, 12, 12, 12, 12, 12, 12, 12, 12, 12, 12, 12, 12, 12, 12, 12, 12, 12, 12, 12, 12, 12, 12,
    12, 12, 12, 12, 12, 12, 12, 12, 12,
];

/// Returns the end of the run of characters of a class from `at` on, which is `at` if there are none.
#[inline(always)]
pub fn run_end(text: &str, at: usize, class: Class) -> usize
    requires { IsCharBoundary text.now at }
    ensures { IsRun (test_of class) text.now at result }
{
    passed_end(text.as_bytes(), at, class)
}

/// Returns the end of the run of ASCII characters from `at` on that a line may hold.
pub(crate) fn line_run_end(text: &str, at: usize) -> usize
    requires { IsCharBoundary text.now at }
    ensures { IsRun line_ascii text.now at result }
{
    run_end(text, at, Class::Line)
}

/// Returns the end of the bytes of a class from `at` on.
#[inline(always)]
fn passed_end(bytes: &[u8], at: usize, class: Class) -> usize
    requires { at ≤ length bytes.now }
    ensures passed { ArePassed (test_of class) bytes.now at result }
    ensures stop { result < length bytes.now
        → test_of class (slice_index bytes.now result) ≡ false }
{
    let mut end = at;
    'sixteens: while bytes.len() - end >= 16 {
        let count = class_in_block(bytes, end, class);
        end += count;
        if count < 16 {
            return end;
        }
    }
    last_passed_end(bytes, end, class)
}

/// Returns the end of the run of characters of a class at `at`, byte by byte, as [`passed_end`] does in blocks.
#[inline(never)]
fn last_passed_end(bytes: &[u8], at: usize, class: Class) -> usize
    requires { at ≤ length bytes.now }
    ensures passed { ArePassed (test_of class) bytes.now at result }
    ensures stop { result < length bytes.now
        → test_of class (slice_index bytes.now result) ≡ false }
{
    let mut end = at;
    while end < bytes.len() && class.has(bytes[end]) {
        end += 1;
    }
    end
}

/// Returns whether a byte is by itself a character that a line may hold.
pub(crate) fn is_line_byte(byte: u8) -> bool
    ensures { result ≡ line_ascii byte }
{
    matches!(byte, b' '..=b'~' | b'\t')
}
