// Texts in double quotes (YAML 1.2.2, 7.3.1).
ghost use Rattle.std.specs.Prelude.{◌≡◌, ◌≤◌, ◌<◌, ◌/◌, ◌%◌, ◌^◌, ◌∷◌, [], true, false, ◌==◌, ◌||◌, length};
ghost use Rattle.std.specs.Prelude.{slice_index, take, OnOk, MatchOption};
ghost use Rattle.yaml_writer.specs.Prelude.{chars, in_range, null, bell, carriage_return, escape_char, backslash};
ghost use Rattle.yaml_writer.specs.Prelude.{list_all, hex, letter_escape, quoted_char, quoted_chars, in_double_quotes};
ghost use Rattle.yaml_writer.specs.Runs.{stands_alone, number_escape};

use crate::bytes::{ByteClass, LoneBytes, are_all};
use crate::scalar_style::is_shown;
use crate::sink::Sink;

/// Writes a text in double quotes (YAML 1.2.2, 7.3.1), on one line, without the line's end. It fails only if the sink
/// does.
pub fn write_quoted<S: Sink>(text: &str, sink: &mut S) -> Result<(), S::Fault>
    ensures { OnOk result (S.Takes sink.old (in_double_quotes (chars text.now)) sink.new) }
{
    sink.put_char('"')?;
    write_between_quotes(text, sink)?;
    sink.put_char('"')
}

/// Whether all these bytes are ASCII characters that need no escape between double quotes.
#[inline(always)]
pub fn stand_alone(bytes: &[u8]) -> bool
    ensures { result ≡ list_all stands_alone bytes.now }
{
    are_all::<LoneBytes>(bytes)
}

/// Writes what is between the quotes: at once if it is ASCII that needs no escape.
fn write_between_quotes<S: Sink>(text: &str, sink: &mut S) -> Result<(), S::Fault>
    ensures { OnOk result (S.Takes sink.old (quoted_chars (chars text.now)) sink.new) }
{
    if stand_alone(text.as_bytes()) {
        return sink.put_text(text);
    }
    write_quoted_chars(text, sink)
}

/// Writes what is between the quotes: runs of ASCII that need no escape at once, other characters one by one.
fn write_quoted_chars<S: Sink>(text: &str, sink: &mut S) -> Result<(), S::Fault>
    ensures { OnOk result (S.Takes sink.old (quoted_chars (chars text.now)) sink.new) }
{
    let mut rest = text;
    while let Some(c) = rest.chars().next() {
        let run = unescaped_len(rest);
        if run > 0 {
            sink.put_text(&rest[..run])?;
            rest = &rest[run..];
        } else {
            write_quoted_char(c, sink)?;
            rest = &rest[c.len_utf8()..];
        }
    }
    Ok(())
}

/// How many bytes at the start of a text are ASCII characters that need no escape between double quotes.
pub fn unescaped_len(text: &str) -> usize
    ensures within { result ≤ length text.now }
    ensures alone { list_all stands_alone (take result text.now) ≡ true }
    ensures ends { result < length text.now
        → stands_alone (slice_index text.now result) ≡ false }
{
    let bytes = text.as_bytes();
    let mut len = sixteens_len(bytes);
    while len < bytes.len() && LoneBytes::has(bytes[len]) {
        len += 1;
    }
    len
}

/// How many bytes at the start are, in whole groups of sixteen, ASCII characters that need no escape.
fn sixteens_len(bytes: &[u8]) -> usize
    ensures within { result ≤ length bytes.now }
    ensures alone { list_all stands_alone (take result bytes.now) ≡ true }
{
    let mut len = 0;
    while bytes.len() - len >= 16 && stand_alone(&bytes[len..len + 16]) {
        len += 16;
    }
    len
}

/// Writes a character between the quotes: as itself, or as an escape (YAML 1.2.2, 5.7).
fn write_quoted_char<S: Sink>(c: char, sink: &mut S) -> Result<(), S::Fault>
    ensures { OnOk result (S.Takes sink.old (quoted_char c) sink.new) }
{
    if c == '"' || c == '\\' {
        write_escape(c, sink)
    } else if is_shown(c) {
        sink.put_char(c)
    } else if let Some(letter) = escape_letter(c) {
        write_escape(letter, sink)
    } else {
        write_code_escape(c, sink)
    }
}

/// Writes a backslash and a character.
fn write_escape<S: Sink>(c: char, sink: &mut S) -> Result<(), S::Fault>
    ensures { OnOk result (S.Takes sink.old (backslash ∷ c ∷ []) sink.new) }
{
    sink.put_char('\\')?;
    sink.put_char(c)
}

/// The letter that means a character after a backslash (YAML 1.2.2, 5.7); `None` if it has no such letter.
fn escape_letter(c: char) -> Option<char>
    ensures { MatchOption result
        ((c == null) || in_range bell carriage_return c || (c == escape_char) ≡ false)
        (λ letter. ((c == null) || in_range bell carriage_return c || (c == escape_char) ≡ true)
        × (letter ≡ letter_escape c)) }
{
    match c {
        '\0' => Some('0'),
        '\x07' => Some('a'),
        '\x08' => Some('b'),
        '\t' => Some('t'),
        '\n' => Some('n'),
        '\x0b' => Some('v'),
        '\x0c' => Some('f'),
        '\r' => Some('r'),
        '\x1b' => Some('e'),
        _ => None,
    }
}

/// Writes a character by its number: `\x` and two hexadecimal digits if it is below 256, else `\u` and four. All
/// characters from x10000 on are shown, so none of them comes here.
fn write_code_escape<S: Sink>(c: char, sink: &mut S) -> Result<(), S::Fault>
    requires { c < 2 ^ 16 }
    ensures { OnOk result (S.Takes sink.old (number_escape c) sink.new) }
{
    let number = c as u32;
    if number <= 0xff {
        write_escape('x', sink)?;
        return write_two_digits(number, sink);
    }
    write_escape('u', sink)?;
    write_two_digits(number / 256, sink)?;
    write_two_digits(number % 256, sink)
}

/// Writes a number below 256 as two hexadecimal digits.
fn write_two_digits<S: Sink>(number: u32, sink: &mut S) -> Result<(), S::Fault>
    requires { number < 256 }
    ensures { OnOk result (S.Takes sink.old (hex (number / 16) ∷ hex (number % 16) ∷ []) sink.new) }
{
    write_digit(number / 16, sink)?;
    write_digit(number % 16, sink)
}

/// Writes a number below 16 as a hexadecimal digit in upper case.
fn write_digit<S: Sink>(digit: u32, sink: &mut S) -> Result<(), S::Fault>
    requires { digit < 16 }
    ensures { OnOk result (S.Takes sink.old (hex digit ∷ []) sink.new) }
{
    let digit = digit as u8;
    let code = if digit < 10 {
        b'0' + digit
    } else {
        b'A' + (digit - 10)
    };
    sink.put_char(char::from(code))
}
