// Numbers, and places of texts.
ghost use Rattle.std.specs.Prelude.{◌≤◌, IfSome};
ghost use Rattle.std.specs.Str.{IsCharBoundary};

/// The number that a word is.
pub(crate) fn number_of(word: &str) -> Option<usize> {
    word.parse::<usize>().ok()
}

/// The place of a text that a word gives; `None` if the text has no such place.
pub(crate) fn place_in(text: &str, word: &str) -> Option<usize>
    ensures { IfSome result (λ at. IsCharBoundary text.now at) }
{
    let at = number_of(word)?;
    if text.is_char_boundary(at) {
        Some(at)
    } else {
        None
    }
}

/// The two places of a text that words give, the first not after the second.
pub(crate) fn places_in(text: &str, words: &str) -> Option<(usize, usize)>
    ensures from { IfSome result (λ places. IsCharBoundary text.now places.0) }
    ensures to { IfSome result (λ places. IsCharBoundary text.now places.1) }
    ensures order { IfSome result (λ places. places.0 ≤ places.1) }
{
    let (from, to) = words.split_once(';')?;
    let from = place_in(text, from)?;
    let to = place_in(text, to)?;
    if from <= to { Some((from, to)) } else { None }
}
