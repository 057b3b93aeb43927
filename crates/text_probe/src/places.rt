// What is at a place, or between two.
ghost use Rattle.std.specs.Prelude.{◌<◌};
ghost use Rattle.std.specs.Str.{IsCharBoundary};

use crate::numbers::{number_of, place_in, places_in};
use probe_words::{no_order, no_place, shown};
use std::alloc::{AllocError, Global};
use yaml_chars::{next_break, next_char};
use yaml_scan::{
    Class, Marker, at_most_chars, break_end, comment_line_end, has_break, is_marker, is_marker_of,
    line_after, line_starts, nb_at, nb_end, ns_at, rest_of_line_end, run_end, sign_at, solid_at,
    solid_line, spaces_end, stands_at, stop_at, white_at, white_end,
};

/// What a call finds at a place.
pub(crate) fn found_at(
    alloc: Global,
    call: &str,
    at: &str,
    text: &str,
) -> Result<String, AllocError> {
    match place_in(text, at) {
        Some(at) => found_in(alloc, call, text, at),
        None => no_place(alloc),
    }
}

/// The same at a place that the text has.
fn found_in(alloc: Global, call: &str, text: &str, at: usize) -> Result<String, AllocError>
    requires { IsCharBoundary text.now at }
{
    match holds_at(call, text, at) {
        Some(holds) => shown(alloc, &holds),
        None => ends_from(alloc, call, text, at),
    }
}

/// Whether something is at a place, or `None` if the word names no such call.
fn holds_at(call: &str, text: &str, at: usize) -> Option<bool>
    requires { IsCharBoundary text.now at }
{
    match call {
        "line_starts" => Some(line_starts(text, at)),
        "white_at" => Some(white_at(text, at)),
        "ns_at" => Some(ns_at(text, at)),
        "solid_at" => Some(solid_at(text, at)),
        "is_marker" => Some(is_marker(text, at)),
        "is_directives_end" => Some(is_marker_of(text, at, Marker::DirectivesEnd)),
        "is_document_end" => Some(is_marker_of(text, at, Marker::DocumentEnd)),
        _ => None,
    }
}

/// The end of something that begins at a place, or what is there.
fn ends_from(alloc: Global, call: &str, text: &str, at: usize) -> Result<String, AllocError>
    requires { IsCharBoundary text.now at }
{
    match call {
        "white_end" => shown(alloc, &white_end(text, at)),
        "spaces_end" => shown(alloc, &spaces_end(text, at)),
        "nb_at" => shown(alloc, &nb_at(text, at)),
        "nb_end" => shown(alloc, &nb_end(text, at)),
        "break_end" => shown(alloc, &break_end(text, at)),
        "stop_at" => shown(alloc, &stop_at(text, at)),
        "comment_line_end" => shown(alloc, &comment_line_end(text, at)),
        "rest_of_line_end" => shown(alloc, &rest_of_line_end(text, at)),
        "line_after" => shown(alloc, &line_after(text, at)),
        "solid_line" => shown(alloc, &solid_line(text, at)),
        "next_break" => shown(alloc, &next_break(text, at)),
        "next_char" => shown(alloc, &next_char(text, at)),
        _ => no_order(alloc),
    }
}

/// What a call finds at a place, for a sign or a class.
pub(crate) fn signed_at(
    alloc: Global,
    call: &str,
    at: &str,
    sign: &str,
    text: &str,
) -> Result<String, AllocError> {
    match place_in(text, at) {
        Some(at) => signed_in(alloc, call, text, at, sign),
        None => no_place(alloc),
    }
}

/// The same at a place that the text has.
fn signed_in(
    alloc: Global,
    call: &str,
    text: &str,
    at: usize,
    sign: &str,
) -> Result<String, AllocError>
    requires { IsCharBoundary text.now at }
{
    match call {
        "run_end" => run_at(alloc, text, at, sign),
        "stands_at" => shown(alloc, &stands_at(text, at, ascii_of(sign))),
        "sign_at" => shown(alloc, &sign_at(text, at, ascii_of(sign))),
        _ => no_order(alloc),
    }
}

/// The first character of a word; NUL if it is not ASCII, or not there.
fn ascii_of(word: &str) -> u8
    ensures { result < 128 }
{
    match word.as_bytes() {
        [byte @ 0..128, ..] => *byte,
        _ => 0,
    }
}

/// The end of the run of characters of a class at a place.
fn run_at(alloc: Global, text: &str, at: usize, class: &str) -> Result<String, AllocError>
    requires { IsCharBoundary text.now at }
{
    match class {
        "Words" => shown(alloc, &run_end(text, at, Class::Words)),
        "WordsInside" => shown(alloc, &run_end(text, at, Class::WordsInside)),
        "SingleQuoted" => shown(alloc, &run_end(text, at, Class::SingleQuoted)),
        "DoubleQuoted" => shown(alloc, &run_end(text, at, Class::DoubleQuoted)),
        "Line" => shown(alloc, &run_end(text, at, Class::Line)),
        _ => no_order(alloc),
    }
}

/// Whether a break is between two places.
pub(crate) fn between(alloc: Global, words: &str, text: &str) -> Result<String, AllocError> {
    match places_in(text, words) {
        Some((from, to)) => shown(alloc, &has_break(text, from, to)),
        None => no_place(alloc),
    }
}

/// Whether at most so many characters are between two places.
pub(crate) fn counted(alloc: Global, words: &str, text: &str) -> Result<String, AllocError> {
    let Some((most, places)) = words.split_once(';') else {
        return no_place(alloc);
    };
    match (number_of(most), places_in(text, places)) {
        (Some(most), Some((from, to))) => shown(alloc, &at_most_chars(text, from, to, most)),
        _ => no_place(alloc),
    }
}
