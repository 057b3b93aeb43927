// Characters and their classes, and bytes as characters.
use crate::numbers::number_of;
use probe_words::{no_order, no_place, shown};
use std::alloc::{AllocError, Global};
use yaml_chars::{checked, flow_indicator, indicator, nb, nb_json, ns, printable, white};
use yaml_scan::push_line_feeds;

/// A class of characters.
#[derive(Clone, Copy)]
enum Class {
    Printable,
    NbJson,
    Nb,
    White,
    Ns,
    Indicator,
    FlowIndicator,
}

impl Class {
    /// The class that a word names.
    fn of(word: &str) -> Option<Class> {
        match word {
            "printable" => Some(Class::Printable),
            "nb_json" => Some(Class::NbJson),
            "nb" => Some(Class::Nb),
            "white" => Some(Class::White),
            "ns" => Some(Class::Ns),
            "indicator" => Some(Class::Indicator),
            "flow_indicator" => Some(Class::FlowIndicator),
            _ => None,
        }
    }

    /// Whether a character is in the class.
    fn has(self, c: char) -> bool {
        match self {
            Class::Printable => printable(c),
            Class::NbJson => nb_json(c),
            Class::Nb => nb(c),
            Class::White => white(c),
            Class::Ns => ns(c),
            Class::Indicator => indicator(c),
            Class::FlowIndicator => flow_indicator(c),
        }
    }
}

/// The characters of a text that are in a class.
fn characters_in(alloc: Global, class: Class, text: &str) -> Result<String, AllocError> {
    let kept: String = text.chars().filter(|c| class.has(*c)).collect(alloc)?;
    shown(alloc, &kept)
}

/// The characters of a text that are in the class that a word names.
pub(crate) fn class_of(alloc: Global, class: &str, text: &str) -> Result<String, AllocError> {
    match Class::of(class) {
        Some(class) => characters_in(alloc, class, text),
        None => no_order(alloc),
    }
}

/// A text with so many line feeds after it.
pub(crate) fn line_feeds_after(
    alloc: Global,
    count: &str,
    text: &str,
) -> Result<String, AllocError> {
    let Some(count) = number_of(count) else {
        return no_place(alloc);
    };
    let mut text = String::from_str(alloc, text)?;
    push_line_feeds(&mut text, count)?;
    shown(alloc, &text)
}

/// The bytes as a text, or the fault in a sentence, with the length of their longest prefix that is a text.
pub(crate) fn text_in(alloc: Global, bytes: &[u8]) -> Result<String, AllocError> {
    match checked(bytes) {
        Ok(text) => format!(in alloc; "{text:?}"),
        Err(fault) => format!(in alloc; "{fault}"),
    }
}
