// The trees of texts in the one style, with the time that reading took.
use probe_words::{escaped, wrong_escape};
use std::alloc::{AllocError, Global};
use std::io;
use std::time::Instant;
use yaml_emit::style_text;
use yaml_tree::{Config, Limits, ReadFault, read_one};

/// How many nanoseconds reading a text with escapes took, and its tree in the one style, or why it is refused.
pub(crate) fn styled(rt: &HostRuntime, text: &str) -> io::Result<String> {
    match escaped(rt.alloc(), text)? {
        Some(bytes) => styled_in(rt, &bytes),
        None => Ok(wrong_escape(rt.alloc())?),
    }
}

/// The same of its bytes.
fn styled_in(rt: &HostRuntime, bytes: &[u8]) -> io::Result<String> {
    let begun = Instant::now(rt)?;
    let read = read_one(rt.alloc(), bytes, &Limits::CONFIGURATION);
    let time = begun.elapsed(rt)?.as_nanos();
    Ok(timed(rt.alloc(), time, read)?)
}

/// A time, and the tree that was read in it or why there is none.
fn timed(alloc: Global, time: u128, read: Result<Config, ReadFault>) -> Result<String, AllocError> {
    match read {
        Ok(config) => {
            let text = style_text(alloc, &config)?;
            let text = in_one_line(alloc, &text)?;
            format!(in alloc; "{time} tree {text}")
        }
        Err(fault) => {
            let fault = fault.brief();
            format!(in alloc; "{time} {fault}")
        }
    }
}

/// A text in one line.
fn in_one_line(alloc: Global, text: &str) -> Result<String, AllocError> {
    let text = text.replace(alloc, "\\", "\\\\")?;
    text.replace(alloc, "\n", "\\n")
}
