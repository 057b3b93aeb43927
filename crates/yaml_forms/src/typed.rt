// The plain scalars that YAML's core schema resolves to something other than a text (YAML 1.2.2, 10.3.2).
ghost use Rattle.std.specs.Prelude.{◌≡◌, ◌||◌, ◌∷◌, [], MatchOption};
ghost use Rattle.yaml_forms.specs.Prelude.{list_all, chars, hex_digit, is_among, first, same_text};
ghost use Rattle.yaml_forms.specs.CoreScalars.{after_digits, after_sign, based, based_number, digit, digits, exponent, float_words, fraction, is_typed, null_words, octal_digit, truth_words, unsigned};

/// Whether the core schema resolves a text, as a plain scalar, to null, a truth value, an integer or a float (YAML
/// 1.2.2, 10.3.2). The time is linear in the length of the text.
pub(crate) fn is_typed(text: &str) -> bool
    ensures { result ≡ is_typed (chars text.now) }
{
    is_typed_text(text)
}

/// The same, by the bytes of the text. All characters of such a scalar are ASCII.
fn is_typed_text(text: &str) -> bool
    ensures { result ≡ is_typed text.now }
{
    is_null(text) || is_truth_value(text) || is_float_word(text) || is_number(text.as_bytes())
}

/// `null`, `Null`, `NULL` or `~`.
fn is_null(text: &str) -> bool
    ensures { result ≡ is_among text.now null_words }
{
    is_word(text, "null") | is_word(text, "Null") | is_word(text, "NULL") | is_word(text, "~")
}

/// `true` or `false`, in one of their spellings.
fn is_truth_value(text: &str) -> bool
    ensures { result ≡ is_among text.now truth_words }
{
    is_word(text, "true")
        | is_word(text, "True")
        | is_word(text, "TRUE")
        | is_word(text, "false")
        | is_word(text, "False")
        | is_word(text, "FALSE")
}

/// An infinity, or no number of the floats, in one of their spellings.
fn is_float_word(text: &str) -> bool
    ensures { result ≡ is_among text.now float_words }
{
    is_word(text, ".inf")
        | is_word(text, ".Inf")
        | is_word(text, ".INF")
        | is_word(text, "-.inf")
        | is_word(text, "-.Inf")
        | is_word(text, "-.INF")
        | is_word(text, "+.inf")
        | is_word(text, "+.Inf")
        | is_word(text, "+.INF")
        | is_word(text, ".nan")
        | is_word(text, ".NaN")
        | is_word(text, ".NAN")
}

/// Whether a text is this word.
fn is_word(text: &str, word: &str) -> bool
    ensures { result ≡ same_text text.now word.now }
{
    text == word
}

/// A number in digits.
fn is_number(bytes: &[u8]) -> bool
    ensures { result ≡ based_number bytes.now || unsigned (after_sign bytes.now) }
{
    is_based_number(bytes) || is_unsigned(after_sign(bytes))
}

/// `0o` and octal digits, or `0x` and hexadecimal digits.
fn is_based_number(bytes: &[u8]) -> bool
    ensures { result ≡ based_number bytes.now }
{
    match first_and_rest(bytes) {
        Some((first, rest)) => first == b'0' && is_based(rest),
        None => false,
    }
}

/// `o` and octal digits, or `x` and hexadecimal digits.
fn is_based(bytes: &[u8]) -> bool
    ensures { result ≡ based bytes.now }
{
    match first_and_rest(bytes) {
        Some((b'o', rest)) => are_octal_digits(rest),
        Some((first, rest)) => first == b'x' && are_hex_digits(rest),
        None => false,
    }
}

/// A number without its sign, with a fraction, an exponent, both or neither.
fn is_unsigned(bytes: &[u8]) -> bool
    ensures { result ≡ unsigned bytes.now }
{
    match first_and_rest(bytes) {
        Some((b'.', rest)) => begins_with_digit(rest) && is_exponent(after_digits(rest)),
        Some((first, rest)) => first.is_ascii_digit() && is_fraction(after_digits(rest)),
        None => false,
    }
}

/// What may come after the digits of a number: a point and further digits, an exponent, both or neither.
fn is_fraction(bytes: &[u8]) -> bool
    ensures { result ≡ fraction bytes.now }
{
    match first_and_rest(bytes) {
        Some((b'.', rest)) => is_exponent(after_digits(rest)),
        _ => is_exponent(bytes),
    }
}

/// Nothing, or `e` or `E`, perhaps a sign, and digits.
fn is_exponent(bytes: &[u8]) -> bool
    ensures { result ≡ exponent bytes.now }
{
    match first_and_rest(bytes) {
        Some((first, rest)) => matches!(first, b'e' | b'E') && are_digits(after_sign(rest)),
        None => true,
    }
}

/// What comes after a sign, if there is one.
fn after_sign(bytes: &[u8]) -> &[u8]
    ensures { result.now ≡ after_sign bytes.now }
{
    match first_and_rest(bytes) {
        Some((b'-' | b'+', rest)) => rest,
        _ => bytes,
    }
}

/// What comes after the digits at the start.
fn after_digits(bytes: &[u8]) -> &[u8]
    ensures { result.now ≡ after_digits bytes.now }
{
    let mut at = 0;
    while at < bytes.len() && bytes[at].is_ascii_digit() {
        at += 1;
    }
    &bytes[at..]
}

/// Whether there is a first byte, and it is a digit.
fn begins_with_digit(bytes: &[u8]) -> bool
    ensures { result ≡ first digit bytes.now }
{
    match first_and_rest(bytes) {
        Some((first, _)) => first.is_ascii_digit(),
        None => false,
    }
}

/// One decimal digit or more.
fn are_digits(bytes: &[u8]) -> bool
    ensures { result ≡ digits digit bytes.now }
{
    !bytes.is_empty() && have_only_digits(bytes)
}

/// No byte but decimal digits.
fn have_only_digits(bytes: &[u8]) -> bool
    ensures { result ≡ list_all digit bytes.now }
{
    bytes.iter().all(|b| b.is_ascii_digit())
}

/// One octal digit or more.
fn are_octal_digits(bytes: &[u8]) -> bool
    ensures { result ≡ digits octal_digit bytes.now }
{
    !bytes.is_empty() && have_only_octal_digits(bytes)
}

/// No byte but octal digits.
fn have_only_octal_digits(bytes: &[u8]) -> bool
    ensures { result ≡ list_all octal_digit bytes.now }
{
    bytes.iter().all(|b| matches!(*b, b'0'..=b'7'))
}

/// One hexadecimal digit or more.
fn are_hex_digits(bytes: &[u8]) -> bool
    ensures { result ≡ digits hex_digit bytes.now }
{
    !bytes.is_empty() && have_only_hex_digits(bytes)
}

/// No byte but hexadecimal digits.
fn have_only_hex_digits(bytes: &[u8]) -> bool
    ensures { result ≡ list_all hex_digit bytes.now }
{
    bytes
        .iter()
        .all(|b| matches!(*b, b'0'..=b'9' | b'A'..=b'F' | b'a'..=b'f'))
}

/// The first byte and those after it.
fn first_and_rest(bytes: &[u8]) -> Option<(u8, &[u8])>
    ensures { MatchOption result (bytes.now ≡ [])
        (λ split. bytes.now ≡ split.0 ∷ split.1.now) }
{
    let (first, rest) = bytes.split_first()?;
    Some((*first, rest))
}
