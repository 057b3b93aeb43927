// Texts and numbers of an order in which `*COUNT*` is a run of letters.
use crate::escapes::push_escaped;
use std::alloc::{AllocError, Global};

/// The text that is meant: `*COUNT*` is that many letters `x`, and the rest has escapes. What comes after a wrong
/// escape is left out, and bytes that are not UTF-8 are the empty text.
pub fn meant(alloc: Global, written: &str) -> Result<String, AllocError> {
    let (before, rest) = written.split_once('*').unwrap_or((written, "0"));
    let (count, after) = rest.split_once('*').unwrap_or((rest, ""));
    let mut bytes = Vec::new(alloc);
    push_meant(&mut bytes, before, count.parse::<u32>().unwrap_or(0), after)?;
    Ok(String::from_utf8(bytes).unwrap_or(String::new(alloc)))
}

/// Appends what a text with escapes means, so many letters, and what another text means.
fn push_meant(
    bytes: &mut Vec<u8>,
    before: &str,
    count: u32,
    after: &str,
) -> Result<(), AllocError> {
    let _ = push_escaped(bytes, before)?;
    for _ in 0..count {
        bytes.push(b'x')?;
    }
    let _ = push_escaped(bytes, after)?;
    Ok(())
}

/// The number that a word is; 0 if it is none.
pub fn number_of(word: &str) -> u64 {
    word.parse::<u64>().unwrap_or(0)
}

/// The length of a text, and the text if it has at most 1,000 bytes.
pub fn measured(alloc: Global, bytes: &[u8]) -> Result<String, AllocError> {
    let length = bytes.len();
    match str::from_utf8(bytes) {
        Ok(text) if length <= 1_000 => format!(in alloc; "{length} {text:?}"),
        _ => format!(in alloc; "{length}"),
    }
}
