// Texts as strings of JSON (RFC 8259, 7).
ghost use Rattle.std.specs.Prelude.{◌≡◌, ◌<◌, ◌^◌, ◌∷◌, [], true, false, OnOk, MatchOption};
ghost use Rattle.yaml_forms.specs.Prelude.{chars, backslash, hex, letter_escape};
ghost use Rattle.yaml_forms.specs.Json.{has_letter, json_char, json_chars, json_string, number_escape};

use crate::shown::is_shown;
use yaml_writer::{Sink, unescaped_len};

/// Writes a text as a string of JSON (RFC 8259, 7), with its quotes. Characters that the one style shows as themselves
/// stand as they are, but `"` and `\`. Any other one is an escape: `\"`, `\\`, `\b`, `\t`, `\n`, `\f` or `\r`, or `\u`
/// with four hexadecimal digits. It fails only if the sink does.
pub fn write_json_string<S: Sink>(text: &str, sink: &mut S) -> Result<(), S::Fault>
    ensures { OnOk result (S.Takes sink.old (json_string (chars text.now)) sink.new) }
{
    sink.put_char('"')?;
    write_json_chars(text, sink)?;
    sink.put_char('"')
}

/// Writes what is between the quotes: runs of ASCII that need no escape at once, other characters one by one.
fn write_json_chars<S: Sink>(text: &str, sink: &mut S) -> Result<(), S::Fault>
    ensures { OnOk result (S.Takes sink.old (json_chars (chars text.now)) sink.new) }
{
    let mut rest = text;
    while let Some(c) = rest.chars().next() {
        let run = unescaped_len(rest);
        if run > 0 {
            sink.put_text(&rest[..run])?;
            rest = &rest[run..];
        } else {
            write_json_char(c, sink)?;
            rest = &rest[c.len_utf8()..];
        }
    }
    Ok(())
}

/// Writes a character between the quotes: as itself, or as an escape.
fn write_json_char<S: Sink>(c: char, sink: &mut S) -> Result<(), S::Fault>
    ensures { OnOk result (S.Takes sink.old (json_char c) sink.new) }
{
    if c == '"' || c == '\\' {
        write_escape(c, sink)
    } else if is_shown(c) {
        sink.put_char(c)
    } else if let Some(letter) = escape_letter(c) {
        write_escape(letter, sink)
    } else {
        write_number_escape(c, sink)
    }
}

/// Writes a backslash and a character.
fn write_escape<S: Sink>(c: char, sink: &mut S) -> Result<(), S::Fault>
    ensures { OnOk result (S.Takes sink.old (backslash ∷ c ∷ []) sink.new) }
{
    sink.put_char('\\')?;
    sink.put_char(c)
}

/// The letter that means a control character after a backslash; `None` if JSON has no such letter.
fn escape_letter(c: char) -> Option<char>
    ensures { MatchOption result (has_letter c ≡ false)
        (λ letter. (has_letter c ≡ true) × (letter ≡ letter_escape c)) }
{
    match c {
        '\x08' => Some('b'),
        '\t' => Some('t'),
        '\n' => Some('n'),
        '\x0c' => Some('f'),
        '\r' => Some('r'),
        _ => None,
    }
}

/// Writes a character by its number, as `\u` and four hexadecimal digits. All characters from x10000 on are shown, so
/// none of them comes here.
fn write_number_escape<S: Sink>(c: char, sink: &mut S) -> Result<(), S::Fault>
    requires { c < 2 ^ 16 }
    ensures { OnOk result (S.Takes sink.old (number_escape c) sink.new) }
{
    let number = c as u32;
    write_escape('u', sink)?;
    write_digit(number / 4096, sink)?;
    write_digit(number / 256 % 16, sink)?;
    write_digit(number / 16 % 16, sink)?;
    write_digit(number % 16, sink)
}

/// Writes a number below 16 as a hexadecimal digit in upper case.
fn write_digit<S: Sink>(digit: u32, sink: &mut S) -> Result<(), S::Fault>
    requires { digit < 16 }
    ensures { OnOk result (S.Takes sink.old (hex digit ∷ []) sink.new) }
{
    let digit = digit as u8;
    let code = if digit < 10 {
        b'0' + digit
    } else {
        b'A' + (digit - 10)
    };
    sink.put_char(char::from(code))
}
