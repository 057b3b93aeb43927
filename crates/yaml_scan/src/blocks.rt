// Runs of bytes, sixteen bytes at a time.
ghost use Rattle.std.specs.Prelude.{◌≡◌, ◌+◌, ◌≤◌, length};
ghost use Rattle.yaml_scan.specs.Prelude.{no_break, space, inner, outer};
ghost use Rattle.yaml_scan.specs.Classes.{test_of, word, single_quoted, double_quoted, line_ascii};
ghost use Rattle.yaml_scan.specs.Blocks.{IsBlockRun, first_set};

use crate::classes::Class;
use std::simd::prelude::*;

/// Returns the place of the lowest bit that is set, and 16 if none is.
#[inline(always)]
fn first_set(mask: u64) -> usize
    ensures { result ≡ first_set mask }
{
    if mask == 0 {
        16
    } else {
        mask.trailing_zeros() as usize
    }
}

/// Returns how many of the sixteen bytes from `at` on are of the class, before the first one that is not.
#[inline(always)]
pub(crate) fn class_in_block(bytes: &[u8], at: usize, class: Class) -> usize
    requires { at + 16 ≤ length bytes.now }
    ensures { IsBlockRun (test_of class) bytes.now at result }
{
    match class {
        Class::Words => words_in_block(bytes, at),
        Class::WordsInside => words_inside_in_block(bytes, at),
        Class::SingleQuoted => single_quoted_in_block(bytes, at),
        Class::DoubleQuoted => double_quoted_in_block(bytes, at),
        Class::Line => line_in_block(bytes, at),
    }
}

#[inline(always)]
fn words_in_block(bytes: &[u8], at: usize) -> usize
    requires { at + 16 ≤ length bytes.now }
    ensures { IsBlockRun (word outer) bytes.now at result }
{
    let block = u8x16::from_slice(&bytes[at..]);
    let unprinted = (block - u8x16::splat(b' ')).simd_ge(u8x16::splat(b'\x7f' - b' '));
    let stops = (unprinted & block.simd_ne(u8x16::splat(b'\t')))
        | block.simd_eq(u8x16::splat(b':'))
        | block.simd_eq(u8x16::splat(b'#'));
    first_set(stops.to_bitmask())
}

/// As between brackets. `{` and `}` differ from `[` and `]` by one bit.
#[inline(always)]
fn words_inside_in_block(bytes: &[u8], at: usize) -> usize
    requires { at + 16 ≤ length bytes.now }
    ensures { IsBlockRun (word inner) bytes.now at result }
{
    let block = u8x16::from_slice(&bytes[at..]);
    let unprinted = (block - u8x16::splat(b' ')).simd_ge(u8x16::splat(b'\x7f' - b' '));
    let braced = block | u8x16::splat(b'{' - b'[');
    let stops = (unprinted & block.simd_ne(u8x16::splat(b'\t')))
        | block.simd_eq(u8x16::splat(b':'))
        | block.simd_eq(u8x16::splat(b'#'))
        | block.simd_eq(u8x16::splat(b','))
        | braced.simd_eq(u8x16::splat(b'{'))
        | braced.simd_eq(u8x16::splat(b'}'));
    first_set(stops.to_bitmask())
}

#[inline(always)]
fn single_quoted_in_block(bytes: &[u8], at: usize) -> usize
    requires { at + 16 ≤ length bytes.now }
    ensures { IsBlockRun single_quoted bytes.now at result }
{
    let block = u8x16::from_slice(&bytes[at..]);
    let control = block.simd_lt(u8x16::splat(b' '));
    let stops = (control & block.simd_ne(u8x16::splat(b'\t'))) | block.simd_eq(u8x16::splat(b'\''));
    first_set(stops.to_bitmask())
}

#[inline(always)]
fn double_quoted_in_block(bytes: &[u8], at: usize) -> usize
    requires { at + 16 ≤ length bytes.now }
    ensures { IsBlockRun double_quoted bytes.now at result }
{
    let block = u8x16::from_slice(&bytes[at..]);
    let control = block.simd_lt(u8x16::splat(b' '));
    let stops = (control & block.simd_ne(u8x16::splat(b'\t')))
        | block.simd_eq(u8x16::splat(b'"'))
        | block.simd_eq(u8x16::splat(b'\\'));
    first_set(stops.to_bitmask())
}

#[inline(always)]
fn line_in_block(bytes: &[u8], at: usize) -> usize
    requires { at + 16 ≤ length bytes.now }
    ensures { IsBlockRun line_ascii bytes.now at result }
{
    let block = u8x16::from_slice(&bytes[at..]);
    let unprinted = (block - u8x16::splat(b' ')).simd_ge(u8x16::splat(b'\x7f' - b' '));
    let stops = unprinted & block.simd_ne(u8x16::splat(b'\t'));
    first_set(stops.to_bitmask())
}

/// Returns how many of the sixteen bytes from `at` on are spaces, before the first one that is not.
#[inline(always)]
pub(crate) fn spaces_in_block(bytes: &[u8], at: usize) -> usize
    requires { at + 16 ≤ length bytes.now }
    ensures { IsBlockRun space bytes.now at result }
{
    let block = u8x16::from_slice(&bytes[at..]);
    first_set(block.simd_ne(u8x16::splat(b' ')).to_bitmask())
}

/// Returns how many of the sixteen bytes from `at` on are before the first one that begins a break.
#[inline(always)]
pub(crate) fn unbroken_in_block(bytes: &[u8], at: usize) -> usize
    requires { at + 16 ≤ length bytes.now }
    ensures { IsBlockRun no_break bytes.now at result }
{
    let block = u8x16::from_slice(&bytes[at..]);
    let breaks = block.simd_eq(u8x16::splat(b'\n')) | block.simd_eq(u8x16::splat(b'\r'));
    first_set(breaks.to_bitmask())
}
