// Escapes.
ghost use Rattle.std.specs.Prelude.{◌<◌, IfSome, length};

use std::alloc::{AllocError, Global};

/// Returns the bytes that a text with escapes means, or `None` if an escape is wrong.
pub fn escaped(alloc: Global, text: &str) -> Result<Option<Vec<u8>>, AllocError> {
    let mut bytes = Vec::new(alloc);
    let is_right = push_escaped(&mut bytes, text)?;
    Ok(is_right.then_some(bytes))
}

/// Appends the bytes that a text with escapes means, up to a wrong escape. Returns whether none is wrong.
pub(crate) fn push_escaped(bytes: &mut Vec<u8>, text: &str) -> Result<bool, AllocError> {
    let mut left = text.as_bytes();
    while !left.is_empty() {
        let Some((byte, rest)) = first_byte(left) else {
            return Ok(false);
        };
        bytes.push(byte)?;
        left = rest;
    }
    Ok(true)
}

/// Returns the first byte that is written, and what is left after it.
fn first_byte(left: &[u8]) -> Option<(u8, &[u8])>
    ensures { IfSome result (λ read. length read.1.now < length left.now) }
{
    match left {
        [b'\\', b'x', high, low, rest @ ..] => Some((digit(*high)? * 16 + digit(*low)?, rest)),
        [b'\\', sign, rest @ ..] => Some((byte_of(*sign)?, rest)),
        [b'\\'] | [] => None,
        [byte, rest @ ..] => Some((*byte, rest)),
    }
}

/// Returns the byte that a sign after a backslash means.
fn byte_of(sign: u8) -> Option<u8> {
    match sign {
        b'n' => Some(b'\n'),
        b'r' => Some(b'\r'),
        b't' => Some(b'\t'),
        b'0' => Some(b'\0'),
        b'\\' | b's' => Some(b'\\'),
        _ => None,
    }
}

/// Returns the value of a hexadecimal digit.
fn digit(byte: u8) -> Option<u8>
    ensures { IfSome result (λ value. value < 16) }
{
    match byte {
        b'0'..=b'9' => Some(byte - b'0'),
        b'a'..=b'f' => Some(byte - b'a' + 10),
        b'A'..=b'F' => Some(byte - b'A' + 10),
        _ => None,
    }
}
