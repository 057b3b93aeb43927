// The names of a store that are said where one is missing.
use itoa::Buffer;
use std::alloc::{AllocError, Global};

/// The most names that are listed, where none is like the missing one.
const MOST_LISTED: usize = 8;

/// The names to be said where one is missing: those that are one slip away from it, or else the first of all. Each
/// stands in quotes.
pub(crate) fn known_names(
    alloc: Global,
    names: &[String],
    missing: &str,
) -> Result<String, AllocError> {
    let alike = names_like(alloc, names, missing)?;
    if alike.is_empty() {
        first_names(alloc, names)
    } else {
        Ok(alike)
    }
}

/// The names that are one slip away from a missing one.
fn names_like(alloc: Global, names: &[String], missing: &str) -> Result<String, AllocError> {
    let mut said = String::new(alloc);
    for name in names {
        if is_one_slip_away(name.as_bytes(), missing.as_bytes()) {
            push_name(&mut said, name)?;
        }
    }
    Ok(said)
}

/// The first of all names, and how many more there are.
fn first_names(alloc: Global, names: &[String]) -> Result<String, AllocError> {
    let mut said = String::new(alloc);
    if names.is_empty() {
        said.push_str("none")?;
    }
    for name in names.iter().take(MOST_LISTED) {
        push_name(&mut said, name)?;
    }
    if names.len() > MOST_LISTED {
        push_rest(&mut said, names.len() - MOST_LISTED)?;
    }
    Ok(said)
}

/// Appends a name in quotes, behind a comma unless it is the first.
fn push_name(said: &mut String, name: &str) -> Result<(), AllocError> {
    if !said.is_empty() {
        said.push_str(", ")?;
    }
    said.push('"')?;
    said.push_str(name)?;
    said.push('"')
}

/// Appends how many names more there are.
fn push_rest(said: &mut String, count: usize) -> Result<(), AllocError> {
    let mut digits = Buffer::new();
    said.push_str(" and ")?;
    said.push_str(digits.format(count))?;
    said.push_str(" more")
}

/// Whether a word becomes another one by a byte more, a byte less, another byte, or two bytes that change places.
fn is_one_slip_away(word: &[u8], other: &[u8]) -> bool {
    match behind_common(word, other) {
        ([_], []) | ([], [_]) => true,
        ([a, b, rest @ ..], [c, d, others @ ..]) if a == d && b == c && rest == others => true,
        ([_, rest @ ..], [_, others @ ..]) if rest == others => true,
        ([_, rest @ ..], others) if rest == others => true,
        (rest, [_, others @ ..]) if rest == others => true,
        _ => false,
    }
}

/// What is behind the bytes with which both words begin.
fn behind_common<'w>(word: &'w [u8], other: &'w [u8]) -> (&'w [u8], &'w [u8]) {
    let mut left = (word, other);
    for _ in 0..word.len() {
        match left {
            ([first, rest @ ..], [second, others @ ..]) if first == second => {
                left = (rest, others);
            }
            _ => break,
        }
    }
    left
}
