// The parts that a list of events keeps: kinds, and the values of the scalars.
ghost use Rattle.std.specs.Prelude.{◌≡◌, ◌++◌, OnOk, IfErr, IfSome};
ghost use Rattle.std.specs.List.{sum_by};
ghost use Rattle.yaml_events.specs.Meant.{event_of, event_ref_of};
ghost use Rattle.yaml_events.specs.declared.event.Event.TheVariants.{Scalar};
ghost use Rattle.std.specs.declared.borrow.CowStr.TheVariants.{Borrowed};
ghost use Rattle.yaml_events.specs.Parts.{edge_event, kind_of, borrowed_of, others_of, borrowed_event, omitted_event, other_event, stored_event, borrows, omits, has_other};

use crate::event::{Event, EventRef, Span, Style};
use std::alloc::AllocFailed;
use std::borrow::CowStr;

/// The start or the end of a document or a collection.
#[derive(Clone, Copy)]
pub(crate) enum Edge {
    DocStart,
    DocEnd,
    SeqStart,
    SeqEnd,
    MapStart,
    MapEnd,
}

/// The kind of an event. That of a scalar says which list its value is in.
#[derive(Clone, Copy)]
pub(crate) enum Kind {
    Edge(Edge),
    /// A scalar whose value is borrowed from the text, at a short place.
    Borrowed(Style),
    /// An omitted scalar at a short place.
    Omitted,
    /// Another scalar.
    Other(Style),
}

/// A scalar whose value is in the text, at a short place: one whose numbers are below 2^32.
#[derive(Clone, Copy)]
pub(crate) struct BorrowedScalar<'a> {
    pub(crate) start: u32,
    pub(crate) end: u32,
    pub(crate) value: &'a str,
}

/// A scalar at any place, and its value.
#[derive(Drop)]
pub(crate) struct OtherScalar<'a> {
    pub(crate) span: Span,
    pub(crate) value: CowStr<'a>,
}

/// An event as a list keeps it.
#[derive(Drop)]
pub(crate) enum Stored<'a> {
    Edge(Edge),
    Borrowed {
        style: Style,
        scalar: BorrowedScalar<'a>,
    },
    Other {
        style: Style,
        scalar: OtherScalar<'a>,
    },
}

const _: () = prove!(size_of::<Kind>() == 2);

const _: () = prove!(size_of::<BorrowedScalar<'static>>() == 24);

impl Edge {
    /// Returns the event.
    #[inline(always)]
    pub(crate) fn event<'a>(self) -> Event<'a>
        ensures { result ≡ edge_event self }
    {
        match self {
            Edge::DocStart => Event::DocStart,
            Edge::DocEnd => Event::DocEnd,
            Edge::SeqStart => Event::SeqStart,
            Edge::SeqEnd => Event::SeqEnd,
            Edge::MapStart => Event::MapStart,
            Edge::MapEnd => Event::MapEnd,
        }
    }

    /// Returns the event, by reference.
    #[inline(always)]
    pub(crate) fn event_ref<'e>(self) -> EventRef<'e>
        ensures { event_ref_of result ≡ event_of (edge_event self) }
    {
        match self {
            Edge::DocStart => EventRef::DocStart,
            Edge::DocEnd => EventRef::DocEnd,
            Edge::SeqStart => EventRef::SeqStart,
            Edge::SeqEnd => EventRef::SeqEnd,
            Edge::MapStart => EventRef::MapStart,
            Edge::MapEnd => EventRef::MapEnd,
        }
    }
}

impl<'a> BorrowedScalar<'a> {
    /// Returns the event of the scalar.
    #[inline(always)]
    pub(crate) fn event(self, style: Style) -> Event<'a>
        ensures { result ≡ borrowed_event style self.entry }
    {
        Event::Scalar {
            style,
            span: self.span(),
            value: CowStr::Borrowed(self.value),
        }
    }

    /// Returns the event of the scalar, by reference.
    #[inline(always)]
    pub(crate) fn event_ref(self, style: Style) -> EventRef<'a>
        ensures { event_ref_of result ≡ event_of (borrowed_event style self.entry) }
    {
        EventRef::Scalar {
            style,
            span: self.span(),
            value: self.value,
        }
    }

    /// Returns the place of the scalar.
    #[inline(always)]
    fn span(self) -> Span
        ensures start { result.start ≡ self.entry.start }
        ensures end { result.end ≡ self.entry.end }
    {
        Span {
            start: self.start as usize,
            end: self.end as usize,
        }
    }
}

impl<'a> OtherScalar<'a> {
    /// Returns the event of the scalar.
    #[inline(always)]
    pub(crate) fn event(self, style: Style) -> Event<'a>
        ensures { result ≡ other_event style self.entry }
    {
        Event::Scalar {
            style,
            span: self.span,
            value: self.value,
        }
    }

    /// Returns the event of the scalar, by reference.
    #[inline(always)]
    pub(crate) fn event_ref(&self, style: Style) -> EventRef<'_>
        ensures { event_ref_of result ≡ event_of (other_event style self.now) }
    {
        EventRef::Scalar {
            style,
            span: self.span,
            value: self.value.as_str(),
        }
    }
}

/// Returns the event of a scalar that is omitted at a place. Its value is `empty`.
#[inline(always)]
pub(crate) fn omitted_scalar<'a>(empty: &'a str, at: usize) -> Event<'a>
    ensures { result ≡ omitted_event empty.entry at }
{
    Event::Scalar {
        style: Style::Omitted,
        span: Span { start: at, end: at },
        value: CowStr::Borrowed(empty),
    }
}

/// Returns the event of a scalar that is omitted at a place, by reference. Its value is `empty`.
#[inline(always)]
pub(crate) fn omitted_ref<'e>(empty: &'e str, at: usize) -> EventRef<'e>
    ensures { event_ref_of result ≡ event_of (omitted_event empty.entry at) }
{
    EventRef::Scalar {
        style: Style::Omitted,
        span: Span { start: at, end: at },
        value: empty,
    }
}

impl<'a> Stored<'a> {
    /// Returns an event as a list keeps it.
    #[inline(always)]
    pub(crate) fn of(event: Event<'a>) -> Stored<'a>
        ensures { stored_event result ≡ event.entry }
    {
        match event {
            Event::DocStart => Stored::Edge(Edge::DocStart),
            Event::DocEnd => Stored::Edge(Edge::DocEnd),
            Event::SeqStart => Stored::Edge(Edge::SeqStart),
            Event::SeqEnd => Stored::Edge(Edge::SeqEnd),
            Event::MapStart => Stored::Edge(Edge::MapStart),
            Event::MapEnd => Stored::Edge(Edge::MapEnd),
            Event::Scalar { style, span, value } => match value {
                CowStr::Borrowed(value) => Stored::of_borrowed(style, span, value),
                CowStr::Owned(value) => Stored::Other {
                    style,
                    scalar: OtherScalar {
                        span,
                        value: CowStr::Owned(value),
                    },
                },
            },
        }
    }

    /// Returns a scalar whose value is borrowed, as a list keeps it.
    #[inline(always)]
    fn of_borrowed(style: Style, span: Span, value: &'a str) -> Stored<'a>
        ensures { stored_event result ≡ Scalar style span (Borrowed value.entry) }
    {
        let Some((start, end)) = short_place(span) else {
            return Stored::Other {
                style,
                scalar: OtherScalar {
                    span,
                    value: CowStr::Borrowed(value),
                },
            };
        };
        Stored::Borrowed {
            style,
            scalar: BorrowedScalar { start, end, value },
        }
    }

    /// Returns the event.
    pub(crate) fn event(self) -> Event<'a>
        ensures { result ≡ stored_event self.entry }
    {
        match self {
            Stored::Edge(edge) => edge.event(),
            Stored::Borrowed { style, scalar } => scalar.event(style),
            Stored::Other { style, scalar } => scalar.event(style),
        }
    }

    /// Returns the kind of the event.
    #[inline(always)]
    pub(crate) fn kind(&self) -> Kind
        ensures { result ≡ kind_of self.now }
    {
        match self {
            Stored::Edge(edge) => Kind::Edge(*edge),
            Stored::Borrowed { style, .. } => Kind::Borrowed(*style),
            Stored::Other { style, .. } => Kind::Other(*style),
        }
    }
}

/// Returns the start and the end of a short place. Returns None if one is 2^32 or more.
#[inline(always)]
pub(crate) fn short_place(span: Span) -> Option<(u32, u32)>
    ensures { IfSome result (λ place. (place.0 ≡ span.start) × (place.1 ≡ span.end)) }
{
    if span.start > u32::MAX as usize || span.end > u32::MAX as usize {
        return None;
    }
    Some((span.start as u32, span.end as u32))
}

/// Appends the value of a scalar to the list of its kind. Other events have no value. If there is no memory for it, the
/// error holds the event, and the lists are unchanged.
#[inline(always)]
pub(crate) fn keep_value<'a>(
    borrowed: &mut Vec<BorrowedScalar<'a>>,
    others: &mut Vec<OtherScalar<'a>>,
    event: Stored<'a>,
) -> Result<(), AllocFailed<Stored<'a>>>
    ensures borrowed { OnOk result
        (borrowed.new.items ≡ borrowed.old.items ++ borrowed_of event.entry) }
    ensures others { OnOk result (others.new.items ≡ others.old.items ++ others_of event.entry) }
    ensures back { IfErr result (λ e. (e.value ≡ event.entry)
        × (borrowed.new.items ≡ borrowed.old.items)
        × (others.new.items ≡ others.old.items)) }
{
    match event {
        Stored::Edge(_) => Ok(()),
        Stored::Borrowed { style, scalar } => match borrowed.push(scalar) {
            Ok(()) => Ok(()),
            Err(_) => Err(AllocFailed {
                value: Stored::Borrowed { style, scalar },
            }),
        },
        Stored::Other { style, scalar } => match others.push(scalar) {
            Ok(()) => Ok(()),
            Err(refused) => Err(AllocFailed {
                value: Stored::Other {
                    style,
                    scalar: refused.value,
                },
            }),
        },
    }
}

/// How many values the lists of some events hold.
#[derive(Clone, Copy)]
pub(crate) struct ValueCounts {
    pub(crate) borrowed: usize,
    pub(crate) omitted: usize,
    pub(crate) others: usize,
}

/// Returns how many values each list holds for events of these kinds.
pub(crate) fn value_counts(kinds: &[Kind]) -> ValueCounts
    ensures borrowed { result.borrowed ≡ sum_by borrows kinds.now }
    ensures omitted { result.omitted ≡ sum_by omits kinds.now }
    ensures others { result.others ≡ sum_by has_other kinds.now }
{
    let mut borrowed = 0;
    let mut omitted = 0;
    let mut others = 0;
    for kind in kinds {
        match kind {
            Kind::Edge(_) => {}
            Kind::Borrowed(_) => borrowed += 1,
            Kind::Omitted => omitted += 1,
            Kind::Other(_) => others += 1,
        }
    }
    ValueCounts {
        borrowed,
        omitted,
        others,
    }
}
