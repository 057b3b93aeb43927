// Single signs and markers at a place.
ghost use Rattle.std.specs.Prelude.{◌≡◌, ◌<◌};
ghost use Rattle.yaml_scan.specs.Prelude.{IsCharBoundary, ns, white, rest, context_of, safe, first, marker, solid};
ghost use Rattle.yaml_scan.specs.Prelude.{sign};
ghost use Rattle.yaml_recognizers.specs.Streams.{marker_of};
ghost use Rattle.yaml_scan.specs.Markers.{sign_of};
ghost use Rattle.yaml_scan.specs.ScanPlaces.{is_sign, ends_word_byte};

use crate::runs::is_white;
use yaml_chars::{flow_indicator, next_char};
use yaml_events::FlowContext;

/// Returns whether this ASCII character is at `at`.
pub fn stands_at(text: &str, at: usize, character: u8) -> bool
    requires at { IsCharBoundary text.now at }
    requires ascii { character < 128 }
    ensures { result ≡ first (is_sign character) (rest text.now at) }
{
    let bytes = text.as_bytes();
    at < bytes.len() && bytes[at] == character
}

/// Returns whether whitespace is at `at` (5.5, `s-white`).
pub fn white_at(text: &str, at: usize) -> bool
    requires { IsCharBoundary text.now at }
    ensures { result ≡ first white (rest text.now at) }
{
    let bytes = text.as_bytes();
    at < bytes.len() && is_white(bytes[at])
}

fn is_solid(byte: u8) -> bool
    ensures { result ≡ solid byte }
{
    byte > b'#' || !matches!(byte, b' ' | b'\t' | b'\n' | b'\r' | b'#')
}

/// Returns whether a character is at `at` that is neither whitespace, a break nor `#`.
pub fn solid_at(text: &str, at: usize) -> bool
    requires { IsCharBoundary text.now at }
    ensures { result ≡ first solid (rest text.now at) }
{
    let bytes = text.as_bytes();
    at < bytes.len() && is_solid(bytes[at])
}

/// Returns whether a character is at `at` that is printable, and neither whitespace, a break nor a byte order mark
/// (5.5, `ns-char`).
#[inline(always)]
pub fn ns_at(text: &str, at: usize) -> bool
    requires { IsCharBoundary text.now at }
    ensures { result ≡ first ns (rest text.now at) }
{
    let bytes = text.as_bytes();
    if at < bytes.len() && bytes[at] < 128 {
        return is_ns_byte(bytes[at]);
    }
    decoded_ns_at(text, at)
}

/// Returns whether a byte is by itself an `ns-char`.
fn is_ns_byte(byte: u8) -> bool
    requires { byte < 128 }
    ensures { result ≡ ns byte }
{
    matches!(byte, b'!'..=b'~')
}

/// Returns whether an `ns-char` is at `at`, by the character itself.
#[inline(never)]
fn decoded_ns_at(text: &str, at: usize) -> bool
    requires { IsCharBoundary text.now at }
    ensures { result ≡ first ns (rest text.now at) }
{
    match next_char(text, at) {
        Some((character, _)) => yaml_chars::ns(character),
        None => false,
    }
}

/// Returns whether this sign is at `at` and no `ns-char` is after it, as with the `-`, `?` and `:` of a block
/// collection (8.2).
#[inline(always)]
pub fn sign_at(text: &str, at: usize, character: u8) -> bool
    requires at { IsCharBoundary text.now at }
    requires ascii { character < 128 }
    ensures { result ≡ sign character (rest text.now at) }
{
    if !stands_at(text, at, character) {
        return false;
    }
    !ns_at(text, at + 1)
}

/// Returns whether a character is at `at` that is safe in a plain scalar in this context (7.3.3, `ns-plain-safe`).
#[inline(always)]
pub fn safe_at(text: &str, at: usize, context: FlowContext) -> bool
    requires { IsCharBoundary text.now at }
    ensures { result ≡ first (safe (context_of context)) (rest text.now at) }
{
    let bytes = text.as_bytes();
    if at < bytes.len() && bytes[at] <= b' ' {
        return false;
    }
    decoded_safe_at(text, at, context)
}

/// Returns whether a safe character is at `at`, by the character itself.
#[inline(never)]
fn decoded_safe_at(text: &str, at: usize, context: FlowContext) -> bool
    requires { IsCharBoundary text.now at }
    ensures { result ≡ first (safe (context_of context)) (rest text.now at) }
{
    match next_char(text, at) {
        Some((character, _)) => is_safe(character, context),
        None => false,
    }
}

/// Returns whether a character is safe in a plain scalar in this context (7.3.3, `ns-plain-safe`).
pub fn is_safe(character: char, context: FlowContext) -> bool
    ensures { result ≡ safe (context_of context) character }
{
    match context {
        FlowContext::Outer | FlowContext::BlockKey => yaml_chars::ns(character),
        FlowContext::Inner | FlowContext::FlowKey => {
            yaml_chars::ns(character) && !flow_indicator(character)
        }
    }
}

/// Returns whether a marker begins at `at`: `---` or `...` before whitespace, a break or the end of the text (9.1.2,
/// `c-forbidden`). It is a marker only if a line starts at `at`, which this function does not check.
pub fn is_marker(text: &str, at: usize) -> bool
    requires { IsCharBoundary text.now at }
    ensures { result ≡ marker (rest text.now at) }
{
    is_marker_of(text, at, Marker::DirectivesEnd) || is_marker_of(text, at, Marker::DocumentEnd)
}

/// A marker of a document (9.1.2).
#[derive(Clone, Copy, Debug, PartialEq, Eq)]
pub enum Marker {
    /// `---`, after the directives (`c-directives-end`).
    DirectivesEnd,
    /// `...`, after a document (`c-document-end`).
    DocumentEnd,
}

/// Returns whether this marker begins at `at`: its three signs before whitespace, a break or the end of the text. It is
/// a marker only if a line starts at `at`, which this function does not check.
pub fn is_marker_of(text: &str, at: usize, marker: Marker) -> bool
    requires { IsCharBoundary text.now at }
    ensures { result ≡ marker_of (sign_of marker) (rest text.now at) }
{
    let sign = marker_sign(marker);
    let bytes = text.as_bytes();
    if bytes.len() - at < 3 {
        return false;
    }
    if bytes[at] != sign {
        return false;
    }
    if bytes[at + 1] != sign {
        return false;
    }
    if bytes[at + 2] != sign {
        return false;
    }
    let end = at + 3;
    if end == bytes.len() {
        return true;
    }
    ends_word(bytes[end])
}

fn marker_sign(marker: Marker) -> u8
    ensures { result ≡ sign_of marker }
{
    match marker {
        Marker::DirectivesEnd => b'-',
        Marker::DocumentEnd => b'.',
    }
}

fn ends_word(byte: u8) -> bool
    ensures { result ≡ ends_word_byte byte }
{
    matches!(byte, b' ' | b'\t' | b'\n' | b'\r')
}
