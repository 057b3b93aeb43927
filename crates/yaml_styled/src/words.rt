// Texts of ASCII at the start of lines: plain, or in double quotes without an escape.
ghost use Rattle.std.specs.Prelude.{◌≡◌, ◌≤◌, ◌<◌, ◌∷◌, ◌++◌, codes, true, false, length, IfSome, IsTrue};
ghost use Rattle.yaml_styled.specs.Prelude.{chars, letter, plain_in_style, word_char};
ghost use Rattle.std.specs.List.{list_all};
ghost use Rattle.yaml_writer.specs.Runs.{stands_alone};
ghost use Rattle.yaml_writer.specs.ScalarStyles.{special_initials};
ghost use Rattle.yaml_chars.specs.Classes.{is_in};

use crate::blocks::{LoneBytes, WordBytes, run_len};
use yaml_writer::{ScalarStyle, key_style};

/// How many bytes the longest special word has.
const LONGEST: usize = 5;

/// How many bytes a plain text has at most.
const LONGEST_PLAIN: usize = 128;

/// The plain text that lines begin with, and what comes after the sign that ends it.
#[inline(always)]
pub(crate) fn split_plain(lines: &str, sign: u8) -> Option<(&str, &str)>
    ensures plain { IfSome result (λ cut. plain_in_style (chars cut.0.now) ≡ true) }
    ensures ascii { IfSome result (λ cut. chars cut.0.now ≡ cut.0.now) }
    ensures cut { IfSome result (λ cut. lines.now ≡ cut.0.now ++ sign ∷ cut.1.now) }
{
    let bytes = lines.as_bytes();
    let len = run_len::<WordBytes>(bytes);
    if len >= bytes.len() || bytes[len] != sign {
        return None;
    }
    let (word, _) = lines.split_at_checked(len)?;
    let (_, rest) = lines.split_at_checked(len + 1)?;
    if !is_plain_word(word) {
        return None;
    }
    Some((word, rest))
}

/// Whether a text of word characters is plain in the one style.
#[inline(always)]
fn is_plain_word(word: &str) -> bool
    requires { list_all word_char word.now ≡ true }
    ensures { IsTrue result → plain_in_style (chars word.now) ≡ true }
{
    let bytes = word.as_bytes();
    if bytes.is_empty() || bytes.len() > LONGEST_PLAIN || !is_letter(bytes[0]) {
        return false;
    }
    if bytes.len() > LONGEST || !is_special_initial(bytes[0]) {
        return true;
    }
    is_plain(word)
}

/// Whether a text is plain in the one style.
fn is_plain(text: &str) -> bool
    ensures { result ≡ plain_in_style (chars text.now) }
{
    key_style(text) == ScalarStyle::Plain
}

/// Whether a byte is an ASCII letter.
#[inline(always)]
fn is_letter(byte: u8) -> bool
    ensures { result ≡ letter byte }
{
    matches!(byte, b'A'..=b'Z' | b'a'..=b'z')
}

/// Whether a byte is, in any letter case, the first letter of a special word.
#[inline(always)]
fn is_special_initial(byte: u8) -> bool
    ensures { result ≡ is_in byte special_initials }
{
    matches!(
        byte,
        b'F' | b'N' | b'O' | b'T' | b'Y' | b'f' | b'n' | b'o' | b't' | b'y'
    )
}

/// The text that lines begin with in double quotes, if it is ASCII without an escape and is not plain; and what comes
/// after the sign behind it.
#[inline(always)]
pub(crate) fn split_quoted(lines: &str, sign: u8) -> Option<(&str, &str)>
    ensures quoted { IfSome result (λ cut. plain_in_style (chars cut.0.now) ≡ false) }
    ensures alone { IfSome result (λ cut. list_all stands_alone cut.0.now ≡ true) }
    ensures cut { IfSome result (λ cut.
        lines.now ≡ codes "\"" ++ (cut.0.now ++ (codes "\"" ++ sign ∷ cut.1.now))) }
{
    let quoted = after_quote(lines)?;
    let len = run_len::<LoneBytes>(quoted.as_bytes());
    let (text, end) = quoted.split_at_checked(len)?;
    let after = after_quote(end)?;
    let rest = after_sign(after, sign)?;
    if is_plain(text) {
        return None;
    }
    Some((text, rest))
}

/// What comes after a double quote.
#[inline(always)]
fn after_quote(text: &str) -> Option<&str>
    ensures { IfSome result (λ rest. text.now ≡ codes "\"" ++ rest.now) }
{
    after_sign(text, b'"')
}

/// What comes after a sign.
#[inline(always)]
fn after_sign(text: &str, sign: u8) -> Option<&str>
    ensures { IfSome result (λ rest. text.now ≡ sign ∷ rest.now) }
{
    let bytes = text.as_bytes();
    if bytes.is_empty() || bytes[0] != sign {
        return None;
    }
    let (_, rest) = text.split_at_checked(1)?;
    Some(rest)
}
