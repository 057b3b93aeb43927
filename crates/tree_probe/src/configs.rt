// Orders on what a configuration is: its limits, copies and sizes.
use crate::builds::{build_nested, build_pairs, build_sequences, build_text, taken};
use crate::faults::{check_fault, fault_of, sentence_of};
use crate::trees::take;
use probe_words::{no_order, no_place, shown, text_of};
use std::alloc::{AllocError, Global};
use yaml_tree::{Config, Limits, Size, Text, Tree, style_len};

/// The answer to an order of the group.
pub(crate) fn answer(alloc: Global, tree: &mut Tree, order: &str) -> Result<String, AllocError> {
    match order.split_once(';') {
        Some((call, words)) => answer_to_words(alloc, tree, call, words),
        None => answer_to_none(alloc, tree, order),
    }
}

/// The answer to an order of one word.
fn answer_to_none(alloc: Global, tree: &mut Tree, call: &str) -> Result<String, AllocError> {
    match call {
        "new" => configured(alloc, tree),
        "copy" => copied(alloc, tree),
        "empty" => empty(alloc),
        _ => no_order(alloc),
    }
}

/// The answer to an order with more words.
fn answer_to_words(
    alloc: Global,
    tree: &mut Tree,
    call: &str,
    text: &str,
) -> Result<String, AllocError> {
    match call {
        "tree" => take(alloc, tree, text),
        "pairs" => build_pairs(alloc, tree, text),
        "text" => build_text(alloc, tree, text),
        "sequences" => build_sequences(alloc, tree, text),
        "nested" => build_nested(alloc, tree, text),
        "deeper" => is_deeper(alloc, tree, text),
        "length" => length_to(alloc, tree, text),
        "sizes" => sizes_with(alloc, tree, text),
        "text_copies" => text_copies(alloc, text),
        "fault" => fault_of(alloc, text),
        "sentence" => sentence_of(alloc, text),
        "check_fault" => check_fault(alloc, text),
        _ => no_order(alloc),
    }
}

/// Whether the tree is deeper than this.
fn is_deeper(alloc: Global, tree: &Tree, depth: &str) -> Result<String, AllocError> {
    match depth.parse::<u8>() {
        Ok(depth) => shown(alloc, &tree.is_deeper_than(depth)),
        Err(_) => no_place(alloc),
    }
}

/// The length of the tree in the one style, if it is at most `most`.
fn length_to(alloc: Global, tree: &Tree, most: &str) -> Result<String, AllocError> {
    match most.parse::<u64>() {
        Ok(most) if !tree.is_deeper_than(Limits::KEPT.depth as u8) => shown(
            alloc,
            &style_len(tree, most),
        ),
        _ => no_place(alloc),
    }
}

/// The length and the depth of the configuration that the tree is, and the depth of its tree, or why it is none.
fn configured(alloc: Global, tree: &mut Tree) -> Result<String, AllocError> {
    match Config::new(alloc, taken(tree)) {
        Ok(config) => {
            let depth = config.tree().depth();
            let told = format!(in alloc; "{} {} {depth}", config.style_length(), config.depth());
            *tree = config.into_tree();
            told
        }
        Err((back, fault)) => {
            *tree = back;
            shown(alloc, &fault)
        }
    }
}

/// The length of the configuration that a copy of the tree is, and what a copy of that is.
fn copied(alloc: Global, tree: &Tree) -> Result<String, AllocError> {
    if tree.is_deeper_than(Limits::KEPT.depth as u8) {
        return no_place(alloc);
    }
    let Ok(config) = Config::new(alloc, tree.try_copy(alloc)?) else {
        return String::from_str(alloc, "no configuration");
    };
    copy_told(alloc, config.style_length(), &config.try_copy(alloc)?)
}

/// The length of a configuration, and what a copy of it is.
fn copy_told(alloc: Global, length: u64, copy: &Config) -> Result<String, AllocError> {
    let tree = copy.tree();
    format!(in alloc;
        "{length} {} {} {} {tree:?}",
        copy.style_length(),
        copy.depth(),
        tree.depth()
    )
}

/// The sizes of the tree as an element and as a value, and of a key.
fn sizes_with(alloc: Global, tree: &mut Tree, key: &str) -> Result<String, AllocError> {
    match Config::new(alloc, taken(tree)) {
        Ok(config) => {
            let element = Size::of_element(config.tree());
            let value = Size::of_value(config.tree());
            let told = format!(in alloc; "{element:?} {value:?} {:?}", Size::of_key(key));
            *tree = config.into_tree();
            told
        }
        Err((back, fault)) => {
            *tree = back;
            shown(alloc, &fault)
        }
    }
}

/// The length and the depth of the empty configuration, its tree, and the empty text.
fn empty(alloc: Global) -> Result<String, AllocError> {
    let config = Config::empty();
    let tree = config.tree();
    let text = Text::empty();
    format!(in alloc;
        "{} {} {tree:?} {:?}",
        config.style_length(),
        config.depth(),
        text.as_str()
    )
}

/// The length of a text, the text, and what copies of it are.
fn text_copies(alloc: Global, written: &str) -> Result<String, AllocError> {
    match text_of(alloc, written)? {
        Some(value) => copies_of(alloc, &value),
        None => no_place(alloc),
    }
}

/// The same of a text that was read. The first copy is looked at again after the text became a string.
fn copies_of(alloc: Global, value: &str) -> Result<String, AllocError> {
    let text = Text::new(alloc, value)?;
    let copy = text.try_copy(alloc)?;
    let told = format!(in alloc; "{} {:?} {:?}", text.len(), text.as_str(), copy.as_str())?;
    let string = text.into_string(alloc)?;
    string_told(alloc, &told, string, &copy)
}

/// What was told, the string that the text became, and what a text of that string and the copy are.
fn string_told(
    alloc: Global,
    told: &str,
    string: String,
    copy: &Text,
) -> Result<String, AllocError> {
    let told = format!(in alloc; "{told} {string:?}")?;
    let text = Text::from_string(string);
    format!(in alloc; "{told} {:?} {:?} {text:?}", text.as_str(), copy.as_str())
}
