// The characters around a place at fault.
use crate::line::Line;
use yaml_docs::Place;

/// The characters around a place.
#[derive(Clone, Copy)]
pub(crate) struct Spot<'t> {
    /// The last line above that is not blank; empty if there is none.
    above: &'t str,
    /// What is before the place on its line.
    before: &'t str,
    /// What is from the place on, on its line.
    after: &'t str,
}

/// How many characters a key on its line has at most before its `:` (YAML 1.2.2, 7.4.2 and 8.2.2).
const LONGEST_KEY: usize = 1024;

/// The least number of characters that a line is indented by.
fn indentation(line: &str) -> usize {
    line.bytes().take_while(|byte| *byte == b' ').count()
}

/// A line without its indentation.
fn unindented(line: &str) -> &str {
    line.trim_start_matches([' ', '\t'])
}

/// Whether a text begins with a sign, and a blank or its end comes after it.
fn begins_with_sign(text: &str, sign: char) -> bool {
    match text.strip_prefix(sign) {
        Some(rest) => rest.is_empty() || rest.starts_with([' ', '\t']),
        None => false,
    }
}

/// Whether a template in braces, as `{{ name }}` or `{% if name %}`, begins in a line outside of quotes.
fn has_template(line: &str) -> bool {
    match line.find("{{").or(line.find("{%")) {
        Some(at) => !has_open_quote(line.get(..at).unwrap_or_default()),
        None => false,
    }
}

/// Whether a quote begins in a line and doesn't end there.
fn has_open_quote(line: &str) -> bool {
    let is_quote = |byte: &u8| matches!(*byte, b'"' | b'\'');
    line.bytes().filter(is_quote).count() % 2 == 1
}

/// The byte of a line, from 0, at which the `:` of the key stands that begins there, if the line has one.
fn colon_of_key(line: &str) -> Option<usize> {
    if line.starts_with('"') {
        return line.find("\":").map(|quote| quote.saturating_add(1));
    }
    if line.starts_with('\'') {
        return line.find("':").map(|quote| quote.saturating_add(1));
    }
    match line.find(": ") {
        Some(colon) => Some(colon),
        None => line.strip_suffix(':').map(|key| key.len()),
    }
}

/// The last character of a line that is no blank.
fn last_sign(line: &str) -> Option<char> {
    line.trim_end_matches([' ', '\t']).chars().next_back()
}

impl<'t> Spot<'t> {
    /// The characters around a place of a text.
    pub(crate) fn new(text: &'t str, place: Place) -> Spot<'t> {
        let line = Line::numbered(text, place.line);
        let column = usize::try_from(place.column.saturating_sub(1)).unwrap_or(usize::MAX);
        let at = match line.text.char_indices().nth(column) {
            Some((at, _)) => at,
            None => line.text.len(),
        };
        Spot {
            above: last_line(text.get(..line.start).unwrap_or_default()),
            before: line.text.get(..at).unwrap_or_default(),
            after: line.text.get(at..).unwrap_or_default(),
        }
    }

    /// The character at the place; `None` at the end of the line.
    pub(crate) fn character(&self) -> Option<char> {
        self.after.chars().next()
    }

    /// The last character before the place that is no blank.
    pub(crate) fn previous_sign(&self) -> Option<char> {
        last_sign(self.before)
    }

    /// Whether only blanks are before the place.
    pub(crate) fn begins_line(&self) -> bool {
        unindented(self.before).is_empty()
    }

    /// Whether a TAB is in the indentation of the line.
    pub(crate) fn is_indented_by_tab(&self) -> bool {
        self.before.trim_start_matches(' ').starts_with('\t')
    }

    /// Whether the place is in front of the spaces that the line begins with.
    pub(crate) fn is_before_indentation(&self) -> bool {
        self.before.is_empty() && self.after.starts_with(' ')
    }

    /// Whether a `:` and a blank are before the place.
    pub(crate) fn has_key_before(&self) -> bool {
        self.before.contains(": ") || self.before.contains(":\t")
    }

    /// Whether the text from the place on begins with a `:`, and a blank or the end of the line after it.
    pub(crate) fn is_colon(&self) -> bool {
        begins_with_sign(self.after, ':')
    }

    /// Whether a `:` is on the line from the place on.
    pub(crate) fn has_colon(&self) -> bool {
        self.after.contains(':')
    }

    /// Whether the text from the place on begins with a `-` and no blank after it.
    pub(crate) fn is_dash_without_space(&self) -> bool {
        self.after.starts_with('-') && !begins_with_sign(self.after, '-')
    }

    /// Whether the key before the place is `<<`.
    pub(crate) fn is_merge_key(&self) -> bool {
        match unindented(self.before).strip_prefix("<<") {
            Some(rest) => unindented(rest).starts_with(':'),
            None => false,
        }
    }

    /// Whether a letter, a digit or what else begins a name is behind the sign at the place: a second `!`, or a `<`.
    pub(crate) fn is_name_behind_sign(&self) -> bool {
        let mut characters = self.after.chars();
        let _ = characters.next();
        match characters.next() {
            Some(character) => character.is_alphanumeric() || matches!(character, '_' | '!' | '<'),
            None => false,
        }
    }

    /// Whether the word at the place and the next one both begin with a sign.
    pub(crate) fn is_sign_twice(&self, sign: char) -> bool {
        let Some((word, rest)) = self.after.split_once(' ') else {
            return false;
        };
        word.starts_with(sign) && unindented(rest).starts_with(sign)
    }

    /// Whether a key begins at the place whose `:` is too far on.
    pub(crate) fn is_long_key(&self) -> bool {
        match colon_of_key(self.after) {
            Some(colon) => {
                let key = self.after.get(..colon).unwrap_or_default();
                key.chars().count() > LONGEST_KEY
            }
            None => false,
        }
    }

    /// Whether a quote begins at the place and doesn't end on the line.
    pub(crate) fn is_open_quote(&self) -> bool {
        self.after.starts_with(['"', '\'']) && has_open_quote(self.after)
    }

    /// Whether the quote at the place is in front of a `''` on its line.
    pub(crate) fn has_apostrophe_pair(&self) -> bool {
        match self.after.strip_prefix('\'') {
            Some(quoted) => quoted.contains("''"),
            None => false,
        }
    }

    /// Whether the place is right behind a quote.
    pub(crate) fn is_beside_quote(&self) -> bool {
        self.before.ends_with('\'') && !self.after.starts_with([' ', '\t', '\''])
    }

    /// Whether a comma is before the place, with blanks at most between them.
    pub(crate) fn is_after_comma(&self) -> bool {
        self.previous_sign() == Some(',')
    }

    /// Whether a bracket or a comma is before the place, with blanks at most between them.
    pub(crate) fn is_in_brackets(&self) -> bool {
        let previous = match self.begins_line() {
            true => last_sign(self.above),
            false => self.previous_sign(),
        };
        matches!(previous, Some('[' | '{' | ','))
    }

    /// Whether a template in braces begins on the line, at the place or before it.
    pub(crate) fn is_in_template(&self) -> bool {
        let begins_here = self.after.starts_with("{{") || self.after.starts_with("{%");
        let began_before = self.before.ends_with('{') && self.after.starts_with(['{', '%', '#']);
        begins_here || began_before || has_template(self.before)
    }

    /// Whether the line begins with an entry of a list.
    pub(crate) fn is_entry(&self) -> bool {
        self.begins_line() && begins_with_sign(self.after, '-')
    }

    /// Whether the line above begins with an entry of a list.
    pub(crate) fn above_is_entry(&self) -> bool {
        begins_with_sign(unindented(self.above), '-')
    }

    /// Whether the line above begins with a template in braces.
    pub(crate) fn above_is_template(&self) -> bool {
        let line = unindented(self.above);
        line.starts_with("{{") || line.starts_with("{%")
    }

    /// Whether a comment ends the line above.
    pub(crate) fn above_has_comment(&self) -> bool {
        self.above.contains(" #")
    }

    /// Whether the line is indented by more than the one above.
    pub(crate) fn is_deeper_than_above(&self) -> bool {
        indentation(self.above) < indentation(self.before)
    }

    /// Whether the line is indented as the one above.
    pub(crate) fn is_as_deep_as_above(&self) -> bool {
        indentation(self.above) == indentation(self.before)
    }
}

/// The last line of a text that is not blank; empty if there is none.
fn last_line(text: &str) -> &str {
    let trimmed = text.trim_end_matches([' ', '\t', '\n', '\r']);
    match trimmed.rfind(['\n', '\r']) {
        Some(at) => trimmed.get(at + 1..).unwrap_or_default(),
        None => trimmed,
    }
}
