// Tests of bytes, many of them at once.
ghost use Rattle.std.specs.Prelude.{◌≡◌, ◌-◌, ◌≤◌, ◌++◌, length, take, drop, ℕ, Bool};
ghost use Rattle.yaml_writer.specs.Prelude.{list_all};

use std::simd::prelude::*;

/// How many bytes are tested at once.
const BLOCK: usize = 16;

/// A class of bytes.
pub(crate) trait ByteClass {
    /// Whether a byte is in the class.
    ghost passes: { ℕ → Bool };

    /// Whether a byte is in the class.
    fn has(byte: u8) -> bool
        ensures { result ≡ passes byte };

    /// Whether each byte of a block is in the class.
    fn has_block(block: u8x16) -> bool
        ensures { result ≡ list_all passes block };
}

/// Whether each byte is in a class. From 4 bytes on they are tested by blocks, where some may be tested twice.
#[inline(always)]
pub(crate) fn are_all<C: ByteClass>(bytes: &[u8]) -> bool
    ensures { result ≡ list_all C.passes bytes.now }
{
    let len = bytes.len();
    if len >= BLOCK {
        are_all_blocks::<C>(bytes)
    } else if len >= 8 {
        C::has_block(outer_eights(bytes))
    } else if len >= 4 {
        C::has_block(outer_fours(bytes))
    } else {
        are_all_few::<C>(bytes)
    }
}

/// The same for at least one block. The last block may begin inside the one before it.
fn are_all_blocks<C: ByteClass>(bytes: &[u8]) -> bool
    requires { BLOCK ≤ length bytes.now }
    ensures { result ≡ list_all C.passes bytes.now }
{
    let last = bytes.len() - BLOCK;
    let mut at = 0;
    while at < last {
        if !C::has_block(u8x16::from_slice(&bytes[at..])) {
            return false;
        }
        at += BLOCK;
    }
    C::has_block(u8x16::from_slice(&bytes[last..]))
}

/// The same for a few bytes, one by one.
#[inline(always)]
fn are_all_few<C: ByteClass>(bytes: &[u8]) -> bool
    ensures { result ≡ list_all C.passes bytes.now }
{
    let mut all = true;
    for byte in bytes {
        all &= C::has(*byte);
    }
    all
}

/// The first eight bytes and the last eight.
#[inline(always)]
fn outer_eights(bytes: &[u8]) -> u8x16
    requires { 8 ≤ length bytes.now }
    ensures { result ≡ take 8 bytes.now ++ drop (length bytes.now - 8) bytes.now }
{
    let first = u8x8::from_slice(bytes);
    let last = u8x8::from_slice(&bytes[bytes.len() - 8..]);
    first.shuffle(last, [0, 1, 2, 3, 4, 5, 6, 7, 8, 9, 10, 11, 12, 13, 14, 15])
}

/// The first four bytes and the last four, twice.
#[inline(always)]
fn outer_fours(bytes: &[u8]) -> u8x16
    requires { 4 ≤ length bytes.now }
    ensures { result ≡ (take 4 bytes.now ++ drop (length bytes.now - 4) bytes.now)
        ++ (take 4 bytes.now ++ drop (length bytes.now - 4) bytes.now) }
{
    let first = u8x4::from_slice(bytes);
    let last = u8x4::from_slice(&bytes[bytes.len() - 4..]);
    let both: u8x8 = first.shuffle(last, [0, 1, 2, 3, 4, 5, 6, 7]);
    both.shuffle(both, [0, 1, 2, 3, 4, 5, 6, 7, 8, 9, 10, 11, 12, 13, 14, 15])
}

/// ASCII letters and digits, and `_`, `-`, `.` and `/`.
pub(crate) struct WordBytes;

impl ByteClass for WordBytes {
    ghost use Rattle.yaml_grammar.specs.Style.{word_char};

    ghost passes = { word_char };

    #[inline(always)]
    fn has(byte: u8) -> bool {
        WORD_BYTES[byte as usize] != 0
    }

    // But for `_` they are two ranges: the letters, once they are small, and `-` to `9`.
    #[inline(always)]
    fn has_block(block: u8x16) -> bool {
        let from_a = (block | u8x16::splat(0x20)) - u8x16::splat(b'a');
        let from_dash = block - u8x16::splat(b'-');
        let others = from_a.simd_ge(u8x16::splat(26))
            & from_dash.simd_ge(u8x16::splat(13))
            & block.simd_ne(u8x16::splat(b'_'));
        others.to_bitmask() == 0
    }
}

/// 1 for each byte that is an ASCII letter or digit, or one of `_`, `-`, `.` and `/`; 0 for the others.
static WORD_BYTES: [u8; 256] = [
    0, 0, 0, 0, 0, 0, 0, 0, 0, 0, 0, 0, 0, 0, 0, 0, 0, 0, 0, 0, 0, 0, 0, 0, 0, 0, 0, 0, 0, 0, 0, 0,
    0, 0, 0, 0, 0, 0, 0, 0, 0, 0, 0, 0, 0, 1, 1, 1, 1, 1, 1, 1, 1, 1, 1, 1, 1, 1, 0, 0, 0, 0, 0, 0,
    0, 1, 1, 1, 1, 1, 1, 1, 1, 1, 1, 1, 1, 1, 1, 1, 1, 1, 1, 1, 1, 1, 1, 1, 1, 1, 1, 0, 0, 0, 0, 1,
    0, 1, 1, 1, 1, 1, 1, 1, 1, 1, 1, 1, 1, 1, 1, 1, 1, 1, 1, 1, 1, 1, 1, 1, 1, 1, 1, 0, 0, 0, 0, 0,
    0, 0, 0, 0, 0, 0, 0, 0, 0, 0, 0, 0, 0, 0, 0, 0, 0, 0, 0, 0, 0, 0, 0, 0, 0, 0, 0, 0, 0, 0, 0, 0,
    0, 0, 0, 0, 0, 0, 0, 0, 0, 0, 0, 0, 0, 0, 0, 0, 0, 0, 0, 0, 0, 0, 0, 0, 0, 0, 0, 0, 0, 0, 0, 0,
    0, 0, 0, 0, 0, 0, 0, 0, 0, 0, 0, 0, 0, 0, 0, 0, 0, 0, 0, 0, 0, 0, 0, 0, 0, 0, 0, 0, 0, 0, 0, 0,
    0, 0, 0, 0, 0, 0, 0, 0, 0, 0, 0, 0, 0, 0, 0, 0, 0, 0, 0, 0, 0, 0, 0, 0, 0, 0, 0, 0, 0, 0, 0, 0,
];

/// ASCII characters that need no escape between double quotes.
pub(crate) struct LoneBytes;

impl ByteClass for LoneBytes {
    ghost use Rattle.yaml_writer.specs.Runs.{stands_alone};

    ghost passes = { stands_alone };

    #[inline(always)]
    fn has(byte: u8) -> bool {
        matches!(byte, b' '..=b'~') & (byte != b'"') & (byte != b'\\')
    }

    #[inline(always)]
    fn has_block(block: u8x16) -> bool {
        let from_space = block - u8x16::splat(b' ');
        let others = from_space.simd_ge(u8x16::splat(95))
            | block.simd_eq(u8x16::splat(b'"'))
            | block.simd_eq(u8x16::splat(b'\\'));
        others.to_bitmask() == 0
    }
}

/// ASCII characters that a literal shows, and line feeds.
pub(crate) struct LineBytes;

impl ByteClass for LineBytes {
    ghost use Rattle.yaml_writer.specs.Runs.{ascii_in_lines};

    ghost passes = { ascii_in_lines };

    #[inline(always)]
    fn has(byte: u8) -> bool {
        matches!(byte, b' '..=b'~' | b'\n')
    }

    #[inline(always)]
    fn has_block(block: u8x16) -> bool {
        let from_space = block - u8x16::splat(b' ');
        let others = from_space.simd_ge(u8x16::splat(95)) & block.simd_ne(u8x16::splat(b'\n'));
        others.to_bitmask() == 0
    }
}
