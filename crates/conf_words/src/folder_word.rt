// A folder in a line of words that a shell is to run.
use crate::escapes::is_hidden;
use std::fmt;
use std::fmt::{Display, Formatter};

/// A folder as the program's words name it in a shell: as it is, or in single quotes where a shell would read it
/// otherwise, and after `--` if it begins with `-`. In place of a folder that can't be shown as it is stands `FOLDER`.
#[derive(Clone, Copy)]
pub struct FolderWord<'f>(pub &'f str);

impl Display for FolderWord<'_> {
    fn fmt<W: fmt::Write>(&self, f: &mut Formatter<W>) -> fmt::Result {
        let folder = self.0;
        if folder.chars().any(is_hidden) {
            return f.write_str("FOLDER");
        }
        if folder.starts_with('-') {
            f.write_str("-- ")?;
        }
        if !folder.is_empty() && folder.bytes().all(is_plain) {
            return f.write_str(folder);
        }
        f.write_str("'")?;
        for c in folder.chars() {
            match c {
                '\'' => f.write_str("'\\''")?,
                _ => f.write_char(c)?,
            }
        }
        f.write_str("'")
    }
}

/// Whether every shell takes the character as it is, wherever it stands in a word.
fn is_plain(byte: u8) -> bool {
    byte.is_ascii_alphanumeric() || matches!(byte, b'/' | b'.' | b'_' | b'-' | b'+' | b',' | b'@')
}
