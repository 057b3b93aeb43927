// The events of texts.
use probe_words::{escaped, wrong_escape};
use std::alloc::{AllocError, Global};
use yaml_docs::events;

/// The events of a text with escapes, or why it is refused.
pub(crate) fn events_shown(alloc: Global, text: &str) -> Result<String, AllocError> {
    match escaped(alloc, text)? {
        Some(bytes) => events_in(alloc, &bytes),
        None => wrong_escape(alloc),
    }
}

/// The events of a text, or why it is refused.
fn events_in(alloc: Global, bytes: &[u8]) -> Result<String, AllocError> {
    match events(alloc, bytes, u64::MAX) {
        Ok(events) if events.len() == 0 => String::from_str(alloc, "events"),
        Ok(events) => format!(in alloc; "events {events}"),
        Err(fault) => {
            let fault = fault.brief();
            format!(in alloc; "{fault}")
        }
    }
}
