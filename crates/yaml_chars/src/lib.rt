//! Characters of YAML 1.2.2, their classes, and the breaks of a text.
//!
//! A text is UTF-8, and a place in it counts bytes from 0. Classes are over code points, as `specs/Classes.antt`
//! writes them. Line breaks are defined over bytes and over characters, since LF and CR are bytes of their own in
//! UTF-8. No call allocates.
//!
//! What scanners need to go from bytes to characters is in `specs/Places.antt` and, as lemmas, in `proofs/`.
#![tactic(auto)]

ghost use Rattle.std.specs.Prelude.{◌≡◌, ◌+◌, ◌<◌, ◌↔◌, ◌∷◌, IsTrue, IsOk, IfOk, IfErr, IsSome, IfSome, IfNone, length, drop, slice_index};
ghost use Rattle.std.specs.Char.{len_utf8};
ghost use Rattle.std.specs.Str.{IsUtf8, IsCharBoundary};
ghost use Rattle.std.specs.Str.Lossy.{utf8_valid_len};
ghost use Rattle.yaml_chars.specs.Classes.{line_break, printable, nb_json, nb, white, ns, indicator, flow_indicator};
ghost use Rattle.yaml_chars.specs.Places.{rest};
ghost use Rattle.yaml_chars.specs.Breaks.{StartsWithBreak, NoBreak, IsNextBreak, EndsLine};

use thiserror::Error;

/// Why bytes are not a text.
#[derive(Clone, Copy, Debug, PartialEq, Eq, Error)]
pub enum CharFault {
    /// The bytes are not UTF-8.
    #[error("the bytes are not UTF-8 after the first {at}")]
    NotUtf8 {
        /// The length in bytes of the longest prefix that is UTF-8.
        at: usize,
    },
}

/// Returns the bytes as a text. Of the encodings of YAML 1.2.2, 5.2, only UTF-8 is read.
///
/// Returns [`CharFault::NotUtf8`] exactly if the bytes are not UTF-8, with the length in bytes of the longest prefix
/// that is.
pub fn checked(bytes: &[u8]) -> Result<&str, CharFault>
    ensures valid { IsOk result ↔ IsUtf8 bytes.now }
    ensures text { IfOk result (λ text. text.now ≡ bytes.now) }
    ensures fault { IfErr result (λ fault. fault ≡ CharFault.NotUtf8 (utf8_valid_len bytes.now)) }
{
    simdutf8::compat::from_utf8(bytes).map_err(|error| CharFault::NotUtf8 {
        at: error.valid_up_to(),
    })
}

/// Returns whether a character is printable (5.1, `c-printable`): TAB, LF, CR or NEL, or one that is neither a control
/// nor U+FFFE nor U+FFFF.
pub fn printable(character: char) -> bool
    ensures { result ≡ printable character }
{
    matches!(
        character,
        '\t' | '\n'
            | '\r'
            | '\u{85}'
            | ' '..='~'
            | '\u{a0}'..='\u{d7ff}'
            | '\u{e000}'..='\u{fffd}'
            | '\u{10000}'..='\u{10ffff}'
    )
}

/// Returns whether a character may be between quotes on one line: TAB, and all from the space on (5.1, `nb-json`).
pub fn nb_json(character: char) -> bool
    ensures { result ≡ nb_json character }
{
    character == '\t' || character >= ' '
}

/// Returns whether a character is printable and neither a break nor a byte order mark (5.4, `nb-char`).
pub fn nb(character: char) -> bool
    ensures { result ≡ nb character }
{
    printable(character) && !matches!(character, '\n' | '\r' | '\u{feff}')
}

/// Returns whether a character is the space or TAB (5.5, `s-white`).
pub fn white(character: char) -> bool
    ensures { result ≡ white character }
{
    matches!(character, ' ' | '\t')
}

/// Returns whether a character is [`nb`] and not [`white`] (5.5, `ns-char`).
pub fn ns(character: char) -> bool
    ensures { result ≡ ns character }
{
    nb(character) && !white(character)
}

/// Returns whether a character has a meaning of its own in YAML: one of ``-?:,[]{}#&*!|>'"%@` `` (5.3, `c-indicator`).
pub fn indicator(character: char) -> bool
    ensures { result ≡ indicator character }
{
    matches!(
        character,
        '-' | '?'
            | ':'
            | ','
            | '['
            | ']'
            | '{'
            | '}'
            | '#'
            | '&'
            | '*'
            | '!'
            | '|'
            | '>'
            | '\''
            | '"'
            | '%'
            | '@'
            | '`'
    )
}

/// Returns whether a character has a meaning of its own in flow collections: one of `,[]{}` (5.3,
/// `c-flow-indicator`).
pub fn flow_indicator(character: char) -> bool
    ensures { result ≡ flow_indicator character }
{
    matches!(character, ',' | '[' | ']' | '{' | '}')
}

/// Returns the first line break at or after `at`: where it starts, and its length, both in bytes.
///
/// A break is CR LF, LF, or a CR that no LF follows (5.4, `b-break`); between CR and LF, the LF is the first.
/// Returns None if there is none. `at` is on a boundary of a character, the end of the text included.
pub fn next_break(text: &str, at: usize) -> Option<(usize, usize)>
    requires { IsCharBoundary text.now at }

    // over bytes
    ensures found { IfSome result (λ found. IsNextBreak text.now at found.0 found.1) }
    ensures none { IfNone result (NoBreak (drop at text.now)) }

    // over characters
    ensures line { IfSome result (λ found. EndsLine text.now at found.0 found.1) }
    ensures last_line { IfNone result (NoBreak (rest text.now at)) }
{
    let bytes = text.as_bytes();
    let start = at + memchr::memchr2(b'\n', b'\r', &bytes[at..])?;
    Some((start, break_len(&bytes[start..])))
}

/// Returns the length in bytes of the break at the start.
fn break_len(text: &[u8]) -> usize
    requires { IsTrue (line_break (slice_index text.now 0)) }
    ensures { StartsWithBreak text.now result (drop result text.now) }
{
    match text {
        [b'\r', b'\n', ..] => 2,
        _ => 1,
    }
}

/// Returns the character at `at`, and its length in bytes. Returns None at the end of the text.
///
/// `at` is on a boundary of a character, the end of the text included.
pub fn next_char(text: &str, at: usize) -> Option<(char, usize)>
    requires { IsCharBoundary text.now at }
    ensures found { IsSome result ↔ (at < length text.now) }
    ensures char { IfSome result (λ found.
        rest text.now at ≡ found.0 ∷ rest text.now (at + found.1)) }
    ensures len { IfSome result (λ found. found.1 ≡ len_utf8 found.0) }
    ensures boundary { IfSome result (λ found. IsCharBoundary text.now (at + found.1)) }
{
    let character = text[at..].chars().next()?;
    Some((character, character.len_utf8()))
}
