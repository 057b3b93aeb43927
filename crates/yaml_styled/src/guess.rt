// What lines seem to hold. Nothing is promised of it: whoever asks writes it, and compares.

use crate::blocks::{WordBytes, run_len};
use crate::miss::Miss;
use memchr::memchr;
use std::alloc::Global;
use yaml_data::Text;

/// The key in double quotes that a row seems to begin with, if it is written without an escape.
pub(crate) fn guessed_key(row: &str) -> Option<&str> {
    let quoted = row.strip_prefix('"')?;
    let (key, _) = split_at_byte(quoted, b'"')?;
    Some(key)
}

/// Whether an element seems to be a collection that begins on its line: an element of its own, or a key.
#[inline(always)]
pub(crate) fn begins_collection(row: &str) -> bool {
    let bytes = row.as_bytes();
    match bytes.first() {
        Some(b'-') => bytes.get(1) == Some(&b' '),
        Some(b'"') => has_quoted_key(row),
        Some(_) => bytes.get(run_len::<WordBytes>(bytes)) == Some(&b':'),
        None => false,
    }
}

/// Whether a line that begins with a double quote seems to begin with a key.
#[inline(never)]
fn has_quoted_key(row: &str) -> bool {
    let Some((_, quoted)) = row.split_at_checked(1) else {
        return false;
    };
    let Some((_, after)) = split_at_byte(quoted, b'"') else {
        return false;
    };
    after.starts_with(':')
}

/// The first line, without its line feed, and what comes after it.
pub(crate) fn guessed_line(lines: &str) -> Option<(&str, &str)> {
    split_at_byte(lines, b'\n')
}

/// What comes before the first byte of ASCII that is this, and what comes after it.
#[inline(always)]
fn split_at_byte(text: &str, byte: u8) -> Option<(&str, &str)> {
    let at = memchr(byte, text.as_bytes())?;
    let (before, _) = text.split_at_checked(at)?;
    let (_, after) = text.split_at_checked(at + 1)?;
    Some((before, after))
}

/// The text of the literal that the lines seem to begin with, whose own lines come after so many spaces.
pub(crate) fn guessed_literal(alloc: Global, lines: &str, indent: u64) -> Result<Text, Miss> {
    let Some((header, rest)) = guessed_line(lines) else {
        return Err(Miss::OtherForm);
    };
    let mut text = literal_text(alloc, rest, indent as usize)?;
    if header == "|-" {
        text.pop();
    }
    text.shrink_to_fit();
    Ok(Text::from_string(text))
}

/// The lines of a literal, which come after so many spaces, with their line feeds.
fn literal_text(alloc: Global, lines: &str, indent: usize) -> Result<String, Miss> {
    let mut text = String::new(alloc);
    let mut rest = lines;
    for _ in 0..lines.len() {
        let Some((line, after)) = guessed_line(rest) else {
            break;
        };
        let Some(content) = literal_line(line, indent) else {
            break;
        };
        text.push_str(content)?;
        text.push('\n')?;
        rest = after;
    }
    Ok(text)
}

/// A line of a literal without its spaces; `None` if it is no such line.
fn literal_line(line: &str, indent: usize) -> Option<&str> {
    if line.is_empty() {
        return Some(line);
    }
    let (margin, content) = line.split_at_checked(indent)?;
    if !margin.bytes().all(|byte| byte == b' ') {
        return None;
    }
    Some(content)
}

/// The text of what is between double quotes, with the escapes that are most used.
pub(crate) fn unescaped(alloc: Global, quoted: &str) -> Result<Text, Miss> {
    let mut text = String::with_capacity(alloc, quoted.len())?;
    let mut is_escaped = false;
    for c in quoted.chars() {
        if !is_escaped {
            is_escaped = c == '\\';
            if !is_escaped {
                text.push(c)?;
            }
            continue;
        }
        is_escaped = false;
        text.push(escaped_char(c)?)?;
    }
    text.shrink_to_fit();
    Ok(Text::from_string(text))
}

/// The character that a letter means after a backslash.
fn escaped_char(letter: char) -> Result<char, Miss> {
    match letter {
        '"' | '\\' => Ok(letter),
        'n' => Ok('\n'),
        't' => Ok('\t'),
        'r' => Ok('\r'),
        _ => Err(Miss::OtherForm),
    }
}
