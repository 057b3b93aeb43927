// Orders on characters, on places of texts and on lists of events, and where the orders on nodes go.
use crate::characters::{class_of, line_feeds_after, text_in};
use crate::lists::list_of;
use crate::node_orders::node_answered;
use crate::places::{between, counted, found_at, signed_at};
use probe_words::{Answers, bytes_of, no_order, no_place};
use std::alloc::{AllocError, Global};
use std::io;

/// Answers the orders. Nothing is kept from one order to the next.
#[derive(Drop)]
pub(crate) struct Reader;

impl Answers for Reader {
    fn answer(&mut self, alloc: Global, order: &str) -> io::Result<String> {
        Ok(order_answered(alloc, order)?)
    }
}

/// The answer to an order.
fn order_answered(alloc: Global, order: &str) -> Result<String, AllocError> {
    let (call, words) = order.split_once(';').unwrap_or((order, ""));
    match call {
        "list" => list_of(alloc, words),
        "node" => node_answered(alloc, words),
        _ => text_answered(alloc, order),
    }
}

/// The answer to an order whose last word is a text or bytes.
fn text_answered(alloc: Global, order: &str) -> Result<String, AllocError> {
    let Some((words, written)) = order.rsplit_once(';') else {
        return no_order(alloc);
    };
    match bytes_of(alloc, written)? {
        Some(bytes) => answered_on(alloc, words, &bytes),
        None => no_place(alloc),
    }
}

/// The answer to the words of an order on bytes.
fn answered_on(alloc: Global, words: &str, bytes: &[u8]) -> Result<String, AllocError> {
    if words == "checked" {
        return text_in(alloc, bytes);
    }
    match str::from_utf8(bytes) {
        Ok(text) => words_answered(alloc, words, text),
        Err(_) => no_place(alloc),
    }
}

/// The answer to the words of an order on a text: a class, or a call and more words.
fn words_answered(alloc: Global, words: &str, text: &str) -> Result<String, AllocError> {
    match words.split_once(';') {
        Some((call, words)) => called(alloc, call, words, text),
        None => class_of(alloc, words, text),
    }
}

/// The answer to a call with some words on a text.
fn called(alloc: Global, call: &str, words: &str, text: &str) -> Result<String, AllocError> {
    match call {
        "line_feeds" => line_feeds_after(alloc, words, text),
        "has_break" => between(alloc, words, text),
        "at_most_chars" => counted(alloc, words, text),
        _ => called_at(alloc, call, words, text),
    }
}

/// The answer to a call at a place, and maybe with a sign or a class.
fn called_at(alloc: Global, call: &str, words: &str, text: &str) -> Result<String, AllocError> {
    match words.split_once(';') {
        Some((at, sign)) => signed_at(alloc, call, at, sign, text),
        None => found_at(alloc, call, words, text),
    }
}
