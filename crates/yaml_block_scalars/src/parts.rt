// The header of a block scalar.

/// Which breaks at the end of a block scalar its value keeps (YAML 1.2.2, 8.1.1.2).
#[derive(Clone, Copy, Debug, PartialEq, Eq)]
pub enum Chomping {
    /// `-`: it keeps none.
    Strip,
    /// No mark: it keeps the break of the last text line.
    Clip,
    /// `+`: it keeps that break, and those of the empty lines after it.
    Keep,
}

/// What a block scalar's header says (YAML 1.2.2, 8.1.1).
#[derive(Clone, Copy, Debug, PartialEq, Eq)]
pub struct Header {
    /// Whether it begins with `>`, and not with `|`.
    pub folded: bool,
    /// The indentation that it gives, from 1 to 9.
    pub digit: Option<u8>,
    /// Which of the last breaks are kept.
    pub chomping: Chomping,
}
