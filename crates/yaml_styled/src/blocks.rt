// Runs of bytes at the start of a text, sixteen bytes at a time.
ghost use Rattle.std.specs.Prelude.{◌≡◌, ◌+◌, ◌≤◌, length, ℕ, Bool};
ghost use Rattle.yaml_styled.specs.Blocks.{IsBlockRun, IsRun, first_set};

use std::simd::prelude::*;

/// How many bytes are tested at once.
pub(crate) const BLOCK: usize = 16;

/// A class of bytes.
pub(crate) trait Class {
    /// Whether a byte is in the class.
    ghost passes: { ℕ → Bool };

    /// Whether a byte is in the class.
    fn has(byte: u8) -> bool
        ensures { result ≡ passes byte };

    /// How many of the sixteen bytes from `at` on are in the class, before the first one that is not.
    fn run_in_block(bytes: &[u8], at: usize) -> usize
        requires { at + 16 ≤ length bytes.now }
        ensures { IsBlockRun passes bytes.now at result };
}

/// How many bytes at the start are in a class.
#[inline(always)]
pub(crate) fn run_len<C: Class>(bytes: &[u8]) -> usize
    ensures { IsRun C.passes bytes.now result }
{
    let mut len = 0;
    'sixteens: while bytes.len() - len >= BLOCK {
        let count = C::run_in_block(bytes, len);
        len += count;
        if count < BLOCK {
            return len;
        }
    }
    last_run_len::<C>(bytes, len)
}

/// The same, byte by byte, where the first `from` bytes are known to be in the class.
#[inline(never)]
fn last_run_len<C: Class>(bytes: &[u8], from: usize) -> usize
    requires { IsRun C.passes bytes.now from }
    ensures { IsRun C.passes bytes.now result }
{
    let mut len = from;
    while len < bytes.len() && C::has(bytes[len]) {
        len += 1;
    }
    len
}

/// The place of the lowest bit that is set, and 16 if none is.
#[inline(always)]
fn first_set(mask: u64) -> usize
    ensures { result ≡ first_set mask }
{
    if mask == 0 {
        16
    } else {
        mask.trailing_zeros() as usize
    }
}

/// Spaces.
pub(crate) struct Spaces;

impl Class for Spaces {
    ghost use Rattle.yaml_chars.specs.Classes.{space};

    ghost passes = { space };

    #[inline(always)]
    fn has(byte: u8) -> bool {
        byte == b' '
    }

    #[inline(always)]
    fn run_in_block(bytes: &[u8], at: usize) -> usize {
        let block = u8x16::from_slice(&bytes[at..]);
        first_set(block.simd_ne(u8x16::splat(b' ')).to_bitmask())
    }
}

/// ASCII letters and digits, and `_`, `-`, `.` and `/`.
pub(crate) struct WordBytes;

impl Class for WordBytes {
    ghost use Rattle.yaml_grammar.specs.Style.{word_char};

    ghost passes = { word_char };

    #[inline(always)]
    fn has(byte: u8) -> bool {
        matches!(byte, b'A'..=b'Z' | b'a'..=b'z' | b'0'..=b'9' | b'_' | b'-' | b'.' | b'/')
    }

    // But for `_` they are two ranges: the letters, once they are small, and `-` to `9`.
    #[inline(always)]
    fn run_in_block(bytes: &[u8], at: usize) -> usize {
        let block = u8x16::from_slice(&bytes[at..]);
        let from_a = (block | u8x16::splat(0x20)) - u8x16::splat(b'a');
        let from_dash = block - u8x16::splat(b'-');
        let others = from_a.simd_ge(u8x16::splat(26))
            & from_dash.simd_ge(u8x16::splat(13))
            & block.simd_ne(u8x16::splat(b'_'));
        first_set(others.to_bitmask())
    }
}

/// ASCII characters that need no escape between double quotes.
pub(crate) struct LoneBytes;

impl Class for LoneBytes {
    ghost use Rattle.yaml_writer.specs.Runs.{stands_alone};

    ghost passes = { stands_alone };

    #[inline(always)]
    fn has(byte: u8) -> bool {
        matches!(byte, b' '..=b'~') & (byte != b'"') & (byte != b'\\')
    }

    #[inline(always)]
    fn run_in_block(bytes: &[u8], at: usize) -> usize {
        let block = u8x16::from_slice(&bytes[at..]);
        let from_space = block - u8x16::splat(b' ');
        let others = from_space.simd_ge(u8x16::splat(95))
            | block.simd_eq(u8x16::splat(b'"'))
            | block.simd_eq(u8x16::splat(b'\\'));
        first_set(others.to_bitmask())
    }
}
