// What is found in a text.
ghost use Rattle.std.specs.Prelude.{◌≡◌};
ghost use Rattle.yaml_style.specs.Findings.{name_of};

/// A rule that a line of a text may break.
#[derive(Clone, Copy, Debug, PartialEq, Eq)]
pub enum Rule {
    /// The last character before the line's break, or before the text's end, is a space or TAB.
    TrailingWhitespace,
    /// The line ends in CR LF or CR, or it is the last line and has no break.
    LineEnd,
    /// The line has more than 120 code points, its break not counted.
    LongLine,
    /// The text is not that of its tree in the one style, and first differs from it on this line. At most one line of a
    /// text breaks this rule.
    NotInStyle,
}

impl Rule {
    /// The rule's name in a report: `S1` to `S4`, in the order above.
    pub fn name(self) -> &'static str
        ensures { result.now ≡ name_of self }
    {
        match self {
            Rule::TrailingWhitespace => "S1",
            Rule::LineEnd => "S2",
            Rule::LongLine => "S3",
            Rule::NotInStyle => "S4",
        }
    }
}

/// A line that breaks a rule.
#[derive(Clone, Copy, Debug, PartialEq, Eq)]
pub struct Finding {
    /// The rule that the line breaks.
    pub rule: Rule,
    /// The number of the line, from 1.
    pub line: u64,
}
