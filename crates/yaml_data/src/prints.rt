// Prints of keys, by which keys that differ are told apart without comparing them one by one.
ghost use Rattle.std.specs.Prelude.{◌≡◌, ◌<◌, ◌↔◌, length, IfOk, IsTrue};
ghost use Rattle.std.specs.List.{AllAdjacentBelow};
ghost use Rattle.yaml_data.specs.Prints.{print_with, print_bytes, print_pieces, print_of, key_prints, AreDistinct};

use crate::Text;
use std::alloc::{AllocError, Global};

/// The print of the empty text.
const START: u64 = 1;

/// What a print is multiplied by before more is added. It is odd, so texts of one length that differ in one byte have
/// different prints.
const FACTOR: u64 = 6_364_136_223_846_793_005;

/// Whether the prints of the keys differ from one another. If they do, so do the keys; different keys may have equal
/// prints, but seldom have. It fails only if memory runs out.
pub(crate) fn have_distinct_prints<T>(
    alloc: Global,
    pairs: &[(Text, T)],
) -> Result<bool, AllocError>
    ensures { IfOk result (λ answer. IsTrue answer ↔ AreDistinct (key_prints pairs.now)) }
{
    let mut prints = prints_of(alloc, pairs)?;
    prints.sort_unstable();
    Ok(ascend(&prints))
}

/// The prints of the keys, in their order.
fn prints_of<T>(alloc: Global, pairs: &[(Text, T)]) -> Result<Vec<u64>, AllocError>
    ensures { IfOk result (λ prints. prints.items ≡ key_prints pairs.now) }
{
    let mut prints = Vec::with_capacity(alloc, pairs.len())?;
    for (key, _) in pairs {
        prints.push(print_of(key.as_str()))?;
    }
    Ok(prints)
}

/// Whether each number is less than the next.
fn ascend(numbers: &[u64]) -> bool
    ensures { IsTrue result ↔ AllAdjacentBelow (λ a b. a < b) numbers.now (length numbers.now) }
{
    for later in 1..numbers.len() {
        if numbers[later - 1] >= numbers[later] {
            return false;
        }
    }
    true
}

/// The print of a text. Its bytes are taken eight at a time, and those that are left one at a time.
fn print_of(text: &str) -> u64
    ensures { result ≡ print_of text.now }
{
    let (pieces, rest) = text.as_bytes().as_chunks::<8>();
    print_bytes(print_pieces(START, pieces), rest)
}

/// A print after more pieces of eight bytes.
fn print_pieces(before: u64, pieces: &[[u8; 8]]) -> u64
    ensures { result ≡ print_pieces before pieces.now }
{
    let mut print = before;
    for piece in pieces {
        print = print_with(print, u64::from_le_bytes(*piece));
    }
    print
}

/// A print after more bytes.
fn print_bytes(before: u64, bytes: &[u8]) -> u64
    ensures { result ≡ print_bytes before bytes.now }
{
    let mut print = before;
    for byte in bytes {
        print = print_with(print, u64::from(*byte));
    }
    print
}

/// A print after one number more.
#[inline(always)]
fn print_with(print: u64, more: u64) -> u64
    ensures { result ≡ print_with print more }
{
    print.wrapping_mul(FACTOR).wrapping_add(more)
}
