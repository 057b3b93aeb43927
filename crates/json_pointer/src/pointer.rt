// Whether a text is a pointer, without a list of its tokens.
ghost use Rattle.std.specs.Prelude.{◌≡◌, ◌||◌, ◌==◌, is_none, is_ok};
ghost use Rattle.json_pointer.specs.Prelude.{chars, first, is_empty};
ghost use Rattle.json_pointer.specs.Pointers.{slash, first_stray, path_of};

use crate::path::escaped;

/// Whether a text is a pointer (RFC 6901, 3), so that [`Path::parse`](crate::Path::parse) reads it: it is empty or
/// begins with `/`, and each `~` in it is before `0` or `1`. It takes no memory.
pub fn is_pointer(text: &str) -> bool
    ensures { result ≡ is_ok (path_of (chars text.now)) }
{
    begins_as_pointer(text) && has_whole_escapes(text)
}

/// Whether a text is empty or begins with `/`.
fn begins_as_pointer(text: &str) -> bool
    ensures { result ≡ (is_empty (chars text.now) || first (λ c. c == slash) (chars text.now)) }
{
    match text.chars().next() {
        Some(c) => c == '/',
        None => true,
    }
}

/// Whether each `~` of a text is before `0` or `1`.
fn has_whole_escapes(text: &str) -> bool
    ensures { result ≡ is_none (first_stray (chars text.now)) }
{
    let mut rest = text.chars();
    while let Some(c) = rest.next() {
        if c != '~' {
            continue;
        }
        let Some(_) = escaped(rest.next()) else {
            return false;
        };
    }
    true
}
