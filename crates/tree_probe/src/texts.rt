// Texts that are written in a line, and their trees.
use std::alloc::{AllocError, Global};
use yaml_tree::{Config, Limits, ReadFault, read_one};

/// The text that is meant: `\n`, `\r` and `\t` are a line feed, a carriage return and a tab.
pub(crate) fn meant(alloc: Global, written: &str) -> Result<String, AllocError> {
    let text = written.replace(alloc, "\\n", "\n")?;
    let text = text.replace(alloc, "\\r", "\r")?;
    text.replace(alloc, "\\t", "\t")
}

/// The text that is meant: `\n` is a line feed, and `*COUNT` at the end that many letters `x`.
pub(crate) fn lengthened(alloc: Global, written: &str) -> Result<String, AllocError> {
    let (text, count) = written.split_once('*').unwrap_or((written, "0"));
    let mut text = text.replace(alloc, "\\n", "\n")?;
    for _ in 0..count.parse::<u32>().unwrap_or(0) {
        text.push('x')?;
    }
    Ok(text)
}

/// The length of a text, and the text.
pub(crate) fn measured(alloc: Global, text: &str) -> Result<String, AllocError> {
    format!(in alloc; "{} {text:?}", text.len())
}

/// The configuration that a text gives.
pub(crate) fn config_of(alloc: Global, text: &str) -> Result<Config, ReadFault> {
    read_one(alloc, text.as_bytes(), &Limits::CONFIGURATION)
}
