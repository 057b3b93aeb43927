// Runs, and what is between them.
use crate::escapes::push_escaped;
use std::alloc::{AllocError, Global};

/// Returns the text that is meant, or `None` if it is written wrongly or is not UTF-8.
pub fn text_of(alloc: Global, written: &str) -> Result<Option<String>, AllocError> {
    match bytes_of(alloc, written)? {
        Some(bytes) => Ok(String::from_utf8(bytes).ok()),
        None => Ok(None),
    }
}

/// Returns the words that are meant, which have a space between them, or `None` if one is written wrongly.
pub fn words_of(alloc: Global, written: &str) -> Result<Option<Vec<String>>, AllocError> {
    let mut words = Vec::new(alloc);
    for word in written.split(' ') {
        match text_of(alloc, word)? {
            Some(word) => words.push(word)?,
            None => return Ok(None),
        }
    }
    Ok(Some(words))
}

/// Returns the bytes that are meant, or `None` if they are written wrongly.
pub fn bytes_of(alloc: Global, written: &str) -> Result<Option<Vec<u8>>, AllocError> {
    let mut bytes = Vec::new(alloc);
    let is_right = push_parts(&mut bytes, written)?;
    Ok(is_right.then_some(bytes))
}

/// Appends the bytes that are meant. Returns whether they are written rightly.
fn push_parts(bytes: &mut Vec<u8>, written: &str) -> Result<bool, AllocError> {
    for (index, part) in written.split("\\*").enumerate() {
        if !push_part(bytes, index, part)? {
            return Ok(false);
        }
    }
    Ok(true)
}

/// Appends the bytes of the part at an index, from 0: the odd ones are runs. Returns whether it is written rightly.
fn push_part(bytes: &mut Vec<u8>, index: usize, part: &str) -> Result<bool, AllocError> {
    if index % 2 == 0 {
        push_escaped(bytes, part)
    } else {
        push_run(bytes, part)
    }
}

/// Appends the bytes of a run. Returns whether it is written rightly.
fn push_run(bytes: &mut Vec<u8>, written: &str) -> Result<bool, AllocError> {
    let Some((count, piece)) = written.split_once(' ') else {
        return Ok(false);
    };
    let Ok(count) = count.parse::<u32>() else {
        return Ok(false);
    };
    for _ in 0..count {
        if !push_escaped(bytes, piece)? {
            return Ok(false);
        }
    }
    Ok(true)
}
