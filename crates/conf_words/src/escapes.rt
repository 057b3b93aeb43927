// Texts from outside, shown with their control characters escaped.
ghost use Rattle.std.specs.Prelude.{◌≡◌, ◌++◌, IfOk, OnOk, encode_utf8_all, string_bytes};
ghost use Rattle.std.specs.Str.{chars};
ghost use Rattle.conf_words.specs.Escapes.{escaped, escaped_char, is_hidden};

use std::alloc::{AllocError, Global};

/// A text for a line that a person reads: a name of a file, or a word that the program was given. The characters that
/// could change what a terminal shows are escaped, as `\u{1b}` and `\n`: C0, C1 and DEL, the separators of lines and
/// paragraphs, and what turns the direction of a text. So is `\`, as `\\`: no two texts are shown alike
/// ([`no_two_texts_are_shown_alike`](crate::no_two_texts_are_shown_alike)). It fails only if memory runs out.
pub fn escaped(alloc: Global, text: &str) -> Result<String, AllocError>
    ensures { IfOk result (λ shown.
        string_bytes shown ≡ encode_utf8_all (escaped (chars text.now))) }
{
    let mut shown = String::new(alloc);
    for c in text.chars() {
        push_escaped(&mut shown, c)?;
    }
    Ok(shown)
}

/// Appends a character, escaped if it is not shown as it is.
fn push_escaped(shown: &mut String, c: char) -> Result<(), AllocError>
    ensures { OnOk result (string_bytes shown.new
        ≡ string_bytes shown.old ++ encode_utf8_all (escaped_char c)) }
{
    if c != '\\' && !is_hidden(c) {
        return shown.push(c);
    }
    for part in c.escape_default() {
        shown.push(part)?;
    }
    Ok(())
}

/// Whether a character could change what a terminal shows of the others.
pub(crate) fn is_hidden(c: char) -> bool
    ensures { result ≡ is_hidden c }
{
    matches!(
        c,
        '\0'..='\x1f'
            | '\x7f'..='\u{9f}'
            | '\u{61c}'
            | '\u{200e}'..='\u{200f}'
            | '\u{2028}'..='\u{202e}'
            | '\u{2066}'..='\u{2069}'
    )
}
