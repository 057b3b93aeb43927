// Orders on texts and nodes.
use crate::nodes::{Told, block_at, flow_at};
use crate::scalars::{header_at, lines_at, safe_of, scalar_at_spot};
use crate::show::events_shown;
use crate::spots::{BlockSpot, FlowSpot};
use crate::streams::{closings_of, cut, events_of};
use probe_words::{bytes_of, no_place};
use std::alloc::{AllocError, Global};

/// The answer to an order on events, scalars or nodes.
pub(crate) fn node_answered(alloc: Global, order: &str) -> Result<String, AllocError> {
    let (call, words) = order.split_once(';').unwrap_or((order, ""));
    match call {
        "show" => events_shown(alloc, words),
        _ => words_answered(alloc, call, words),
    }
}

/// The answer to a call with words, the last of which is a text or bytes.
fn words_answered(alloc: Global, call: &str, words: &str) -> Result<String, AllocError> {
    let (words, written) = words.rsplit_once(';').unwrap_or(("", words));
    match bytes_of(alloc, written)? {
        Some(bytes) => called_on(alloc, call, words, &bytes),
        None => no_place(alloc),
    }
}

/// The answer to a call with some words before bytes.
fn called_on(alloc: Global, call: &str, words: &str, bytes: &[u8]) -> Result<String, AllocError> {
    match call {
        "closings" => closings_of(alloc, bytes),
        "events" => events_of(alloc, words, bytes),
        "cut" => cut(alloc, words, bytes),
        _ => match str::from_utf8(bytes) {
            Ok(text) => called(alloc, call, words, text),
            Err(_) => no_place(alloc),
        },
    }
}

/// The answer to a call with some words before a text.
fn called(alloc: Global, call: &str, words: &str, text: &str) -> Result<String, AllocError> {
    match call {
        "is_safe" => safe_of(alloc, words, text),
        "header" => header_at(alloc, words, text),
        "lines" => lines_at(alloc, words, text),
        "flow" => flow_at(alloc, FlowSpot::of(words), text, Told::Events),
        "flow_end" => flow_at(alloc, FlowSpot::of(words), text, Told::Counts),
        "block" => block_at(alloc, BlockSpot::of(words), text, Told::Events),
        "block_end" => block_at(alloc, BlockSpot::of(words), text, Told::Counts),
        _ => scalar_at_spot(alloc, call, FlowSpot::of(words), text),
    }
}
