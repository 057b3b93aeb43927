// Numbers in words.
ghost use Rattle.std.specs.Prelude.{◌≡◌};
ghost use Rattle.command_line.specs.Numbers.{is_decimal, number_of, part_after, may_end};

/// The number that a text is; `None` if it is none below 2 ^ 64. It has digits, and perhaps a `+` before them.
pub(crate) fn number_of(text: &str) -> Option<u64>
    ensures { result ≡ number_of text.now }
{
    match text.parse() {
        Ok(number) => Some(number),
        Err(_) => None,
    }
}

/// Where the reading of a decimal number is: in which of its parts the last byte was.
#[derive(Clone, Copy)]
pub(crate) enum Part {
    Start,
    Whole,
    Fraction,
    Letter,
    Exponent,
}

impl Part {
    /// Where it is after one more byte; `None` if the number can't go on so.
    fn after(self, byte: u8) -> Option<Part>
        ensures { result ≡ part_after self byte }
    {
        match (self, byte) {
            (Part::Start | Part::Whole, b'0'..=b'9') => Some(Part::Whole),
            (Part::Whole, b'.') => Some(Part::Fraction),
            (Part::Fraction, b'0'..=b'9') => Some(Part::Fraction),
            (Part::Whole | Part::Fraction, b'e' | b'E') => Some(Part::Letter),
            (Part::Letter | Part::Exponent, b'0'..=b'9') => Some(Part::Exponent),
            _ => None,
        }
    }

    /// Whether the number may end here.
    fn may_end(self) -> bool
        ensures { result ≡ may_end self }
    {
        matches!(self, Part::Whole | Part::Fraction | Part::Exponent)
    }
}

/// Whether a text is a decimal number without a sign: digits, perhaps a point and more digits, and perhaps an exponent,
/// as `1.5e3`.
pub(crate) fn is_decimal(text: &str) -> bool
    ensures { result ≡ is_decimal text.now }
{
    let mut part = Part::Start;
    for byte in text.as_bytes() {
        match part.after(*byte) {
            Some(next) => part = next,
            None => return false,
        }
    }
    part.may_end()
}
