// Lines of one key and its text each, as commands are spelled that need no general reader.
ghost use Rattle.std.specs.Prelude.{◌≡◌, ◌∷◌, ◌<◌, ◌&&◌, not, codes, IfSome, IsTrue};
ghost use Rattle.conf_session.specs.Prelude.{list_all, double_quote};
ghost use Rattle.conf_session.specs.CommandLines.{IsBefore, IsField, IsSpelled, bare_char, begins_bare, goes_on, is_phrase, may_stand};
ghost use Rattle.yaml_chars.specs.Classes.{in_range, indicator};
ghost use Rattle.conf_session.specs.FlowLine.{BeginsWith};

use conf_record::lines::cut_line;
use yaml_chars::indicator;
use yaml_writer::stand_alone;

/// The text of the first line, which has this key with its `: ` and the spaces before it, and the lines after it. The
/// text is as [`line_value`] has it.
pub fn cut_field<'t>(lines: &'t str, key: &str) -> Option<(&'t str, &'t str)>
    ensures { IfSome result (λ cut. IsField lines.now key.now cut.0.now cut.1.now) }
{
    let (line, rest) = cut_line(lines, key)?;
    let value = line_value(line)?;
    Some((value, rest))
}

/// The text that is spelled so after a key: between quotes, as [`cut_quoted`] takes it, or plain. A plain text has only
/// printable ASCII characters, and begins with no indicator (YAML 1.2.2, 5.3 and 7.3.3).
pub fn line_value(line: &str) -> Option<&str>
    ensures { IfSome result (λ value. IsSpelled line.now value.now) }
{
    match line.strip_prefix('"') {
        Some(quoted) => quoted_value(quoted),
        None => other_value(line),
    }
}

/// The text between double quotes, of which the first is cut off, and the second ends the line.
fn quoted_value(quoted: &str) -> Option<&str>
    ensures { IfSome result (λ value. IsSpelled (double_quote ∷ quoted.now) value.now) }
{
    let text = quoted.strip_suffix('"')?;
    if !stand_alone(text.as_bytes()) {
        return None;
    }
    Some(text)
}

/// The text of a line that begins with no double quote.
fn other_value(line: &str) -> Option<&str>
    ensures { IfSome result (λ value. IsSpelled line.now value.now) }
{
    match cut_quoted(line) {
        Some((value, rest)) if rest.is_empty() => Some(value),
        Some(_) => None,
        None => bare_value(line),
    }
}

/// The text between the quotes that a text begins with, and what is behind the second one (YAML 1.2.2, 7.3.1 and
/// 7.3.2). It has only printable ASCII characters that are no quotes of this kind, `"` or `\`.
pub(crate) fn cut_quoted(text: &str) -> Option<(&str, &str)>
    ensures { IfSome result (λ cut. BeginsWith text.now cut.0.now cut.1.now) }
{
    match text.strip_prefix('"') {
        Some(quoted) => cut_before(quoted, '"'),
        None => cut_before(text.strip_prefix('\'')?, '\''),
    }
}

/// The text before a quote, and what is behind it.
fn cut_before(quoted: &str, quote: char) -> Option<(&str, &str)>
    requires { quote < 128 }
    ensures { IfSome result (λ cut. IsBefore quoted.now quote cut.0.now cut.1.now) }
{
    let (value, rest) = quoted.split_once(quote)?;
    if !stand_alone(value.as_bytes()) {
        return None;
    }
    Some((value, rest))
}

/// The plain text that is the whole line.
fn bare_value(line: &str) -> Option<&str>
    ensures { IfSome result (λ value. IsSpelled line.now value.now) }
{
    let bytes = line.as_bytes();
    if begins_bare(bytes) && are_bare(bytes) {
        return Some(line);
    }
    if is_phrase(bytes) { Some(line) } else { None }
}

/// Whether there is a first byte, and it is no indicator.
pub(crate) fn begins_bare(bytes: &[u8]) -> bool
    ensures { result ≡ begins_bare bytes.now }
{
    match bytes.first() {
        Some(byte) => !indicator(char::from(*byte)),
        None => false,
    }
}

/// Whether each byte may stand in a plain text.
fn are_bare(bytes: &[u8]) -> bool
    ensures { result ≡ list_all bare_char bytes.now }
{
    let mut all = true;
    for byte in bytes {
        all &= is_bare_char(*byte);
    }
    all
}

/// Whether a byte may stand in a plain text.
#[inline]
pub(crate) fn is_bare_char(byte: u8) -> bool
    ensures { result ≡ bare_char byte }
{
    matches!(byte, b'!'..=b'~') & (byte != b':') & (byte != b'#')
}

/// Whether these are words with spaces between them, as a plain text may have them (YAML 1.2.2, 7.3.3). They are
/// printable ASCII, and begin with no indicator. A `:` stands before no space, and a `#` behind none.
fn is_phrase(bytes: &[u8]) -> bool
    ensures { result ≡ is_phrase bytes.now }
{
    match bytes.split_first() {
        Some((first, rest)) => begins_word(*first) && goes_on(*first, rest),
        None => false,
    }
}

/// Whether a byte may begin a plain text that has spaces.
fn begins_word(byte: u8) -> bool
    ensures { result ≡ (not (indicator byte) && in_range 33 126 byte) }
{
    !indicator(char::from(byte)) && matches!(byte, b'!'..=b'~')
}

/// Whether bytes may follow a first one in a plain text, up to its end.
fn goes_on(first: u8, bytes: &[u8]) -> bool
    ensures { result ≡ goes_on first bytes.now }
{
    let mut before = first;
    let mut left = bytes;
    while let Some((byte, after)) = left.split_first() {
        if !may_stand(before, *byte, after) {
            return false;
        }
        before = *byte;
        left = after;
    }
    before != b' '
}

/// Whether a byte may stand between the one before it and those after it in a plain text.
fn may_stand(before: u8, byte: u8, after: &[u8]) -> bool
    ensures { result ≡ may_stand before byte after.now }
{
    match byte {
        b':' => matches!(after.first(), Some(b'!'..=b'~')),
        b'#' => before != b' ',
        _ => matches!(byte, b' '..=b'~'),
    }
}

/// Whether this is the closing line, and nothing more.
pub fn is_end(lines: &str) -> bool
    ensures { IsTrue result → lines.now ≡ codes "...\n" }
{
    lines == "...\n"
}
