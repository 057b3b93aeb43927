// The line of a text at fault, with a mark under the place.
use crate::line::Line;
use std::fmt;
use yaml_docs::Place;

/// How many characters of a line are shown before the place, and from it on.
const SHOWN_BEFORE: usize = 60;

const SHOWN_AFTER: usize = 40;

/// The line of a text with a place, and below it a mark under the place:
///
/// ```text
/// 501 | key250: x
///     | ^
/// ```
///
/// Of a long line the part around the place is shown. A TAB is shown as `^I`, and another character that a terminal
/// wouldn't show, or that turns a text's direction, by its number, as `\u{1b}`.
#[derive(Clone, Copy)]
pub struct Excerpt<'t> {
    text: &'t str,
    place: Place,
}

impl<'t> Excerpt<'t> {
    /// The line of `bytes` that has the place. Of bytes that are not UTF-8 it is what comes before the first that
    /// isn't.
    pub fn new(bytes: &'t [u8], place: Place) -> Excerpt<'t> {
        let text = match str::from_utf8(bytes) {
            Ok(text) => text,
            Err(error) => valid_part(bytes, error.valid_up_to()),
        };
        Excerpt { text, place }
    }
}

/// The first bytes as a text.
fn valid_part(bytes: &[u8], len: usize) -> &str {
    let part = bytes.get(..len).unwrap_or_default();
    str::from_utf8(part).unwrap_or_default()
}

/// A character as it is shown in an excerpt.
#[derive(Clone, Copy)]
enum Shown {
    AsItIs(char),
    Tab,
    ByNumber(char),
}

impl Shown {
    fn of(character: char) -> Shown {
        match character {
            '\t' => Shown::Tab,
            '\0'..='\x1f'
            | '\x7f'..='\u{9f}'
            | '\u{61c}'
            | '\u{200b}'..='\u{200f}'
            | '\u{2028}'..='\u{202e}'
            | '\u{2060}'..='\u{2069}'
            | '\u{feff}' => Shown::ByNumber(character),
            _ => Shown::AsItIs(character),
        }
    }

    /// How many characters it has.
    fn width(self) -> usize {
        match self {
            Shown::AsItIs(_) => 1,
            Shown::Tab => 2,
            Shown::ByNumber('\0'..='\x0f') => 5,
            Shown::ByNumber('\x10'..='\u{ff}') => 6,
            Shown::ByNumber('\u{100}'..='\u{fff}') => 7,
            Shown::ByNumber(_) => 8,
        }
    }
}

impl fmt::Display for Shown {
    fn fmt<W: fmt::Write>(&self, f: &mut fmt::Formatter<W>) -> fmt::Result {
        match self {
            Shown::AsItIs(character) => f.write_char(*character),
            Shown::Tab => f.write_str("^I"),
            Shown::ByNumber(character) => {
                let number = u32::from(*character);
                write!(f, "\\u{{{number:x}}}")
            }
        }
    }
}

impl fmt::Display for Excerpt<'_> {
    fn fmt<W: fmt::Write>(&self, f: &mut fmt::Formatter<W>) -> fmt::Result {
        let number = self.place.line;
        let line = Line::numbered(self.text, number).text;
        let column = usize::try_from(self.place.column.saturating_sub(1)).unwrap_or(usize::MAX);
        let before = column.min(SHOWN_BEFORE);
        write!(f, "{number} | ")?;
        let width = write_part(f, line, column.saturating_sub(before), before)?;
        let _ = write_part(f, line, column, SHOWN_AFTER)?;
        f.write_str("\n")?;
        write_spaces(f, digits(number))?;
        f.write_str(" | ")?;
        write_spaces(f, width)?;
        f.write_str("^")
    }
}

/// Writes some characters of a line, as they are shown. Returns how many characters that are.
fn write_part<W: fmt::Write>(
    f: &mut fmt::Formatter<W>,
    line: &str,
    from: usize,
    count: usize,
) -> Result<usize, fmt::Error> {
    let mut width = 0usize;
    for character in line.chars().skip(from).take(count) {
        let shown = Shown::of(character);
        write!(f, "{shown}")?;
        width = width.saturating_add(shown.width());
    }
    Ok(width)
}

fn write_spaces<W: fmt::Write>(f: &mut fmt::Formatter<W>, count: usize) -> fmt::Result {
    for _ in 0..count {
        f.write_str(" ")?;
    }
    Ok(())
}

/// How many decimal digits a number has.
fn digits(number: u64) -> usize {
    let digits = number.checked_ilog10().unwrap_or(0).saturating_add(1);
    usize::try_from(digits).unwrap_or(usize::MAX)
}
