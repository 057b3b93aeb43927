// How the one style writes a scalar.
ghost use Rattle.std.specs.Prelude.{◌≡◌, ◌&&◌, false, IsTrue};
ghost use Rattle.yaml_writer.specs.Prelude.{chars, letter, word_char, shown, plain_in_style, literal_in_style};
ghost use Rattle.yaml_writer.specs.Prelude.{special_words, lower, is_among, shown_or_feed, space_or_feed, feeds_at_end};
ghost use Rattle.yaml_writer.specs.Prelude.{list_all, first, same_text, is_in, line_feed};
ghost use Rattle.yaml_writer.specs.ScalarStyles.{value_style, key_style, literal_style, special_initials};

use crate::bytes::{LineBytes, WordBytes, are_all};
use crate::lines::split_line;
use yaml_chars::printable;

/// How many bytes the longest special word has.
const LONGEST_SPECIAL: usize = 5;

/// How the one style writes a scalar (YAML 1.2.2, 7.3 and 8.1).
#[derive(Clone, Copy, Debug, PartialEq, Eq)]
pub enum ScalarStyle {
    /// As it is, on one line.
    Plain,
    /// In double quotes, on one line.
    Double,
    /// A literal whose last line has no line feed (`|-`).
    LiteralStrip,
    /// A literal that ends in one line feed (`|`).
    LiteralClip,
    /// A literal that ends in more than one line feed (`|+`).
    LiteralKeep,
}

/// Returns how the one style writes a text as a value.
pub fn value_style(text: &str) -> ScalarStyle
    ensures { result ≡ value_style (chars text.now) }
{
    if is_plain_in_style(text) {
        ScalarStyle::Plain
    } else if is_literal(text) {
        literal_style(text)
    } else {
        ScalarStyle::Double
    }
}

/// Returns how the one style writes a text as a key: plain or double-quoted.
pub fn key_style(text: &str) -> ScalarStyle
    ensures { result ≡ key_style (chars text.now) }
{
    if !is_plain_in_style(text) {
        return ScalarStyle::Double;
    }
    ScalarStyle::Plain
}

/// Whether a character is an ASCII letter.
fn is_letter(c: char) -> bool
    ensures { result ≡ letter c }
{
    matches!(c, 'A'..='Z' | 'a'..='z')
}

/// Whether a character is shown: written as itself in a literal, and between double quotes unless it is `"` or `\`.
pub(crate) fn is_shown(c: char) -> bool
    ensures { result ≡ shown c }
{
    matches!(c, ' '..='~')
        || (c >= '\u{a0}' && printable(c) && !matches!(c, '\u{2028}' | '\u{2029}' | '\u{feff}'))
}

fn is_plain_in_style(text: &str) -> bool
    ensures { result ≡ plain_in_style (chars text.now) }
{
    text.len() <= 128 && is_word(text) && !is_special(text)
}

/// Whether a text is a letter and then word characters, all of them ASCII.
fn is_word(text: &str) -> bool
    ensures word { result ≡ first letter (chars text.now) && list_all word_char (chars text.now) }
    ensures ascii { IsTrue result → chars text.now ≡ text.now }
{
    starts_with_letter(text) && has_word_chars(text)
}

fn starts_with_letter(text: &str) -> bool
    ensures { result ≡ first letter (chars text.now) }
{
    text.chars().next().is_some_and(is_letter)
}

fn has_word_chars(text: &str) -> bool
    ensures word { result ≡ list_all word_char (chars text.now) }
    ensures ascii { IsTrue result → chars text.now ≡ text.now }
{
    are_all::<WordBytes>(text.as_bytes())
}

/// Whether a text of ASCII is, in any letter case, a word that other readers of YAML take for something else.
fn is_special(text: &str) -> bool
    requires { chars text.now ≡ text.now }
    ensures { result ≡ is_among (lower (chars text.now)) special_words }
{
    may_be_special(text) && is_special_word(text)
}

/// Whether a text of ASCII is as short as a special word and starts, in any letter case, with the first letter of one.
#[inline(always)]
fn may_be_special(text: &str) -> bool
    requires { chars text.now ≡ text.now }
    ensures { result ≡ false → is_among (lower (chars text.now)) special_words ≡ false }
{
    if text.len() > LONGEST_SPECIAL {
        return false;
    }
    match text.as_bytes().first() {
        Some(byte) => is_special_initial(*byte),
        None => false,
    }
}

/// Whether a byte is, in any letter case, the first letter of a special word.
#[inline(always)]
fn is_special_initial(byte: u8) -> bool
    ensures { result ≡ is_in byte special_initials }
{
    matches!(
        byte,
        b'F' | b'N' | b'O' | b'T' | b'Y' | b'f' | b'n' | b'o' | b't' | b'y'
    )
}

/// Whether a text of ASCII is one of the special words of its length, in any letter case.
fn is_special_word(text: &str) -> bool
    requires { chars text.now ≡ text.now }
    ensures { result ≡ is_among (lower (chars text.now)) special_words }
{
    let length = text.len();
    if length == 1 {
        is_same_word(text, "y") || is_same_word(text, "n")
    } else if length == 2 {
        is_same_word(text, "no") || is_same_word(text, "on")
    } else if length == 3 {
        is_same_word(text, "yes") || is_same_word(text, "off")
    } else if length == 4 {
        is_same_word(text, "null") || is_same_word(text, "true")
    } else {
        length == 5 && is_same_word(text, "false")
    }
}

/// Whether a text of ASCII is this word, in any letter case.
fn is_same_word(text: &str, word: &str) -> bool
    requires { chars text.now ≡ text.now }
    ensures { result ≡ same_text (lower (chars text.now)) (lower word.now) }
{
    text.eq_ignore_ascii_case(word)
}

fn is_literal(text: &str) -> bool
    ensures { result ≡ literal_in_style (chars text.now) }
{
    has_feed(text) && !starts_with_space_or_feed(text) && is_shown_in_lines(text)
}

/// Whether each character is shown or is a line feed. Bytes are tested first, which is enough for a text of ASCII.
fn is_shown_in_lines(text: &str) -> bool
    ensures { result ≡ list_all shown_or_feed (chars text.now) }
{
    are_all::<LineBytes>(text.as_bytes()) || text.chars().all(is_shown_or_feed)
}

fn has_feed(text: &str) -> bool
    ensures { result ≡ is_in line_feed (chars text.now) }
{
    split_line(text).is_some()
}

fn is_shown_or_feed(c: char) -> bool
    ensures { result ≡ shown_or_feed c }
{
    is_shown(c) || c == '\n'
}

fn starts_with_space_or_feed(text: &str) -> bool
    ensures { result ≡ first space_or_feed (chars text.now) }
{
    text.chars().next().is_some_and(|c| matches!(c, ' ' | '\n'))
}

/// The style of a literal, by the number of line feeds that end it (YAML 1.2.2, 8.1.1.2).
fn literal_style(text: &str) -> ScalarStyle
    ensures { result ≡ literal_style (feeds_at_end (chars text.now)) }
{
    match text.strip_suffix('\n') {
        None => ScalarStyle::LiteralStrip,
        Some(prefix) => {
            if prefix.ends_with('\n') {
                ScalarStyle::LiteralKeep
            } else {
                ScalarStyle::LiteralClip
            }
        }
    }
}
