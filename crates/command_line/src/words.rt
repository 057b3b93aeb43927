// What a word looks like.
ghost use Rattle.std.specs.Prelude.{◌≡◌, option_map};
ghost use Rattle.command_line.specs.Looks.{after_dash, after_dashes, letters_of, name_in, text_in};

/// What follows a first `-`.
pub(crate) fn after_dash(word: &str) -> Option<&str>
    ensures { option_map (λ s. s.now) result ≡ after_dash word.now }
{
    word.strip_prefix('-')
}

/// What follows a first `--`.
pub(crate) fn after_dashes(word: &str) -> Option<&str>
    ensures { option_map (λ s. s.now) result ≡ after_dashes word.now }
{
    match after_dash(word) {
        Some(rest) => after_dash(rest),
        None => None,
    }
}

/// What follows the `-` of `-abc`; `None` of `-`, and of what begins with `--`.
pub(crate) fn letters_of(word: &str) -> Option<&str>
    ensures { option_map (λ s. s.now) result ≡ letters_of word.now }
{
    match after_dash(word) {
        Some(rest) if !rest.is_empty() && after_dash(rest).is_none() => Some(rest),
        _ => None,
    }
}

/// The name before a first `=`, and the text behind it, if there is one.
pub(crate) fn name_and_text(option: &str) -> (&str, Option<&str>)
    ensures name { result.0.now ≡ name_in option.now }
    ensures text { option_map (λ s. s.now) result.1 ≡ text_in option.now }
{
    match option.split_once('=') {
        Some((name, text)) => (name, Some(text)),
        None => (option, None),
    }
}
