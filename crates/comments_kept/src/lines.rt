// The lines of a text.
ghost use Rattle.std.specs.Prelude.{◌≡◌, ◌∷◌, ◌++◌, MatchOption};
ghost use Rattle.std.specs.Str.{chars};
ghost use Rattle.yaml_chars.specs.Signs.{line_feed};
ghost use Rattle.yaml_writer.specs.Lines.{IsOneLine};

/// The first line of a text, and what comes after its line feed; `None` if the text has no line feed.
pub(crate) fn split_line(text: &str) -> Option<(&str, &str)>
    ensures { MatchOption result (IsOneLine (chars text.now))
        (λ cut. (text.now ≡ cut.0.now ++ line_feed ∷ cut.1.now) × IsOneLine (chars cut.0.now)) }
{
    let at = memchr::memchr(b'\n', text.as_bytes())?;
    Some((&text[..at], &text[at + 1..]))
}
