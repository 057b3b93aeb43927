// The lines of a text.

/// Whether a line ends between two characters (YAML 1.2.2, 5.4).
fn ends_line(previous: char, character: char) -> bool {
    previous == '\n' || (previous == '\r' && character != '\n')
}

/// A line of a text without its break, and where it begins.
#[derive(Clone, Copy)]
pub(crate) struct Line<'t> {
    /// The byte of the text at which it begins, from 0.
    pub(crate) start: usize,
    pub(crate) text: &'t str,
}

impl<'t> Line<'t> {
    /// The line of this number, from 1. Past the last line it is empty.
    pub(crate) fn numbered(text: &'t str, number: u64) -> Line<'t> {
        let mut line = 1u64;
        let mut start = 0;
        let mut previous = ' ';
        for (at, character) in text.char_indices() {
            if ends_line(previous, character) {
                if line == number {
                    return Line::between(text, start, at);
                }
                line = line.saturating_add(1);
                start = at;
            }
            previous = character;
        }
        match line == number {
            true => Line::between(text, start, text.len()),
            false => Line::between(text, text.len(), text.len()),
        }
    }

    fn between(text: &'t str, start: usize, end: usize) -> Line<'t> {
        let whole = text.get(start..end).unwrap_or_default();
        Line {
            start,
            text: whole.trim_end_matches(['\n', '\r']),
        }
    }

    pub(crate) fn is_blank(&self) -> bool {
        self.text.trim_matches([' ', '\t']).is_empty()
    }
}
