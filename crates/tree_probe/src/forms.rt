// Orders on other forms of a tree: its JSON text, its plain form, and the keys of a collection as lines.
use crate::texts::config_of;
use probe_words::{no_order, no_place, shown, text_of};
use std::alloc::{AllocError, Global};
use yaml_forms::{TextArray, json, json_line, keys, plain};
use yaml_tree::Config;

/// The answer to an order of the group.
pub(crate) fn answer(alloc: Global, order: &str) -> Result<String, AllocError> {
    match order.split_once(';') {
        Some(("texts", texts)) => text_array(alloc, texts),
        Some((form, written)) => form_of_written(alloc, form, written),
        None => no_order(alloc),
    }
}

/// A form of the tree of a text with escapes.
fn form_of_written(alloc: Global, form: &str, written: &str) -> Result<String, AllocError> {
    let Some(text) = text_of(alloc, written)? else {
        return no_place(alloc);
    };
    match config_of(alloc, &text) {
        Ok(config) => form_of(alloc, form, &config),
        Err(fault) => shown(alloc, &fault),
    }
}

/// A form of a tree.
fn form_of(alloc: Global, form: &str, config: &Config) -> Result<String, AllocError> {
    match form {
        "json" => json(alloc, config.tree()),
        "line" => shown(alloc, &json_line(alloc, config.tree())?),
        "keys" => keys_shown(alloc, config),
        "plain" => shown(alloc, &plain(alloc, config.tree())?),
        _ => no_order(alloc),
    }
}

/// The keys of a tree, or why it has none.
fn keys_shown(alloc: Global, config: &Config) -> Result<String, AllocError> {
    match keys(alloc, config.tree()) {
        Ok(lines) => shown(alloc, &lines),
        Err(fault) => shown(alloc, &fault),
    }
}

/// The JSON text of a sequence of texts; without an escape that is wrong.
fn text_array(alloc: Global, texts: &str) -> Result<String, AllocError> {
    let mut array = TextArray::new(alloc);
    for written in texts.split(';') {
        push_written(alloc, &mut array, written)?;
    }
    array.finish()
}

/// Appends a text with escapes to an array, unless an escape is wrong.
fn push_written(alloc: Global, array: &mut TextArray, written: &str) -> Result<(), AllocError> {
    match text_of(alloc, written)? {
        Some(text) => array.push(&text),
        None => Ok(()),
    }
}
