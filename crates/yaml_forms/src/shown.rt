// Characters that are written as themselves.
ghost use Rattle.std.specs.Prelude.{◌≡◌};
ghost use Rattle.yaml_forms.specs.Prelude.{shown};

use yaml_chars::printable;

/// Whether a character is shown: it is printable (YAML 1.2.2, 5.1), and no control character, no break, no separator of
/// lines or paragraphs and no byte order mark.
pub(crate) fn is_shown(c: char) -> bool
    ensures { result ≡ shown c }
{
    matches!(c, ' '..='~')
        || (c >= '\u{a0}' && printable(c) && !matches!(c, '\u{2028}' | '\u{2029}' | '\u{feff}'))
}
