// Events, and how and where a scalar is written.
ghost use Rattle.std.specs.Prelude.{◌≡◌};
ghost use Rattle.yaml_events.specs.Meant.{event_of, event_ref_of};

use std::borrow::CowStr;

/// How a scalar is written (YAML 1.2.2, 3.2.3.1).
#[derive(Clone, Copy, Debug, PartialEq, Eq)]
pub enum Style {
    /// Without quotes (7.3.3).
    Plain,
    /// In single quotes (7.3.2).
    Single,
    /// In double quotes (7.3.1).
    Double,
    /// A block scalar after `|` (8.1.2).
    Literal,
    /// A block scalar after `>` (8.1.3).
    Folded,
    /// Not at all: an omitted value is the empty text (7.2).
    Omitted,
}

/// The range of bytes of a text that a scalar is written in: from `start` up to `end`, which is the place after it.
/// Both count bytes from 0.
///
/// Quotes belong to the range. That of a block scalar goes from its `|` or `>` through its last text line or empty
/// line, or through the line of its header. That of an omitted scalar is empty.
#[derive(Clone, Copy, Debug, PartialEq, Eq)]
pub struct Span {
    pub start: usize,
    pub end: usize,
}

/// An event of a text (YAML 1.2.2, 3.1).
#[derive(Drop)]
pub enum Event<'a> {
    DocStart,
    DocEnd,
    SeqStart,
    SeqEnd,
    MapStart,
    MapEnd,
    /// A scalar, whose value is borrowed from the text where the text has it in one piece.
    Scalar {
        style: Style,
        span: Span,
        value: CowStr<'a>,
    },
}

/// An [`Event`] by reference: its value stays in the list or in the text.
#[derive(Clone, Copy, Debug)]
pub enum EventRef<'e> {
    DocStart,
    DocEnd,
    SeqStart,
    SeqEnd,
    MapStart,
    MapEnd,
    Scalar {
        style: Style,
        span: Span,
        value: &'e str,
    },
}

impl Event<'_> {
    /// Returns the event by reference. The value is not copied.
    pub fn as_ref(&self) -> EventRef<'_>
        ensures { event_ref_of result ≡ event_of self.now }
    {
        match self {
            Event::DocStart => EventRef::DocStart,
            Event::DocEnd => EventRef::DocEnd,
            Event::SeqStart => EventRef::SeqStart,
            Event::SeqEnd => EventRef::SeqEnd,
            Event::MapStart => EventRef::MapStart,
            Event::MapEnd => EventRef::MapEnd,
            Event::Scalar { style, span, value } => EventRef::Scalar {
                style: *style,
                span: *span,
                value: value.as_str(),
            },
        }
    }
}
