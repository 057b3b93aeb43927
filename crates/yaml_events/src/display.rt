// Events in words, as tests and messages show them.
use crate::event::{Event, EventRef, Style};
use crate::list::Events;
use std::fmt;

/// A letter: `P` plain, `S` in single quotes, `D` in double quotes, `L` literal, `F` folded, `O` omitted.
impl fmt::Display for Style {
    fn fmt<W: fmt::Write>(&self, f: &mut fmt::Formatter<W>) -> fmt::Result {
        f.write_str(match self {
            Style::Plain => "P",
            Style::Single => "S",
            Style::Double => "D",
            Style::Literal => "L",
            Style::Folded => "F",
            Style::Omitted => "O",
        })
    }
}

/// Returns how an event is written, or how it begins if it is a scalar.
fn sign_of(event: &EventRef<'_>) -> &'static str {
    match event {
        EventRef::DocStart => "+D",
        EventRef::DocEnd => "-D",
        EventRef::SeqStart => "+S",
        EventRef::SeqEnd => "-S",
        EventRef::MapStart => "+M",
        EventRef::MapEnd => "-M",
        EventRef::Scalar { .. } => "=",
    }
}

/// `+` for a start and `-` for an end, of a document (`D`), a sequence (`S`) or a mapping (`M`). A scalar is `=`,
/// its style, the range of its bytes and its value, as in `=P[0,1]"a"`.
impl fmt::Display for EventRef<'_> {
    fn fmt<W: fmt::Write>(&self, f: &mut fmt::Formatter<W>) -> fmt::Result {
        match self {
            EventRef::Scalar { style, span, value } => {
                write!(f, "={style}[{},{}]{value:?}", span.start, span.end)
            }
            _ => f.write_str(sign_of(self)),
        }
    }
}

/// As an [`EventRef`] of it.
impl fmt::Display for Event<'_> {
    fn fmt<W: fmt::Write>(&self, f: &mut fmt::Formatter<W>) -> fmt::Result {
        fmt::Display::fmt(&self.as_ref(), f)
    }
}

/// As an [`EventRef`] of it.
impl fmt::Debug for Event<'_> {
    fn fmt<W: fmt::Write>(&self, f: &mut fmt::Formatter<W>) -> fmt::Result {
        fmt::Debug::fmt(&self.as_ref(), f)
    }
}

/// The events in order, with one space between two of them.
impl fmt::Display for Events<'_> {
    fn fmt<W: fmt::Write>(&self, f: &mut fmt::Formatter<W>) -> fmt::Result {
        let mut is_first = true;
        for event in self.iter() {
            if !is_first {
                f.write_str(" ")?;
            }
            is_first = false;
            write!(f, "{event}")?;
        }
        Ok(())
    }
}

/// The list of the events.
impl fmt::Debug for Events<'_> {
    fn fmt<W: fmt::Write>(&self, f: &mut fmt::Formatter<W>) -> fmt::Result {
        f.debug_list().entries(self.iter()).finish()
    }
}
