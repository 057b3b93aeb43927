// A list of events that grows.
ghost use Rattle.std.specs.Prelude.{◌≡◌, ◌≤◌, ◌<◌, ◌^◌, List, [], ◌∷◌, ◌++◌, length, take, insert, OnOk, OnErr, IfErr};
ghost use Rattle.std.specs.declared.borrow.CowStr.TheVariants.{Borrowed};
ghost use Rattle.yaml_events.specs.Meant.{events_of};
ghost use Rattle.yaml_events.specs.Omitted.{AppendsOmitted};
ghost use Rattle.yaml_events.specs.declared.event.Event;

use crate::event::{Event, Span, Style};
use crate::iter::{EventIntoIter, EventIter};
use crate::parts::{
    BorrowedScalar, Edge, Kind, OtherScalar, Stored, keep_value, omitted_scalar, short_place,
    value_counts,
};
use std::alloc::{AllocError, AllocFailed, Global};
use std::borrow::CowStr;
use std::marker::Model;

/// The events of a text, or of a part of it, in order. Contracts see the list of the events.
///
/// The kinds of all events are in one list, two bytes each. The values of the scalars are in lists of their own, in the
/// same order. So an event without a value takes no room for one, and an omitted value only that for its place.
#[derive(Drop)]
pub struct Events<'a> {
    kinds: Vec<Kind>,
    borrowed: Vec<BorrowedScalar<'a>>,
    /// The places of the omitted values.
    omitted: Vec<u32>,
    /// The text that each of them is.
    empty: &'a str,
    others: Vec<OtherScalar<'a>>,
}

impl<'a> Model for Events<'a> {
    ghost use Rattle.std.specs.Prelude.{◌≡◌, List, []};
    ghost use Rattle.yaml_events.specs.declared.event.Event.{Event};
    ghost use Rattle.yaml_events.specs.Parts.{events_in, Fits};

    ghost Value = { List Event };

    ghost view = { λ e. events_in e.empty e.kinds.items e.borrowed.items e.omitted.items e.others.items };

    ghost invariant = { λ e.
        Fits e.kinds.items e.borrowed.items e.omitted.items e.others.items
        × (e.empty.now ≡ []) };
}

impl<'a> Events<'a> {
    /// Returns an empty list. It allocates nothing, and keeps the allocator for later events.
    pub fn new(alloc: Global) -> Self
        ensures { result ≡ [] }
    {
        Events {
            kinds: Vec::new(alloc),
            borrowed: Vec::new(alloc),
            omitted: Vec::new(alloc),
            empty: "",
            others: Vec::new(alloc),
        }
    }

    /// Returns the number of events.
    #[inline(always)]
    pub fn len(&self) -> usize
        ensures { result ≡ length self.now }
    {
        self.kinds.len()
    }

    /// Returns an iterator over the events, in order, by reference.
    #[inline(always)]
    pub fn iter(&self) -> EventIter<'_>
        ensures events { result ≡ events_of self.now }
        ensures count { length self.now < 2 ^ 64 }
    {
        EventIter::new(
            self.empty,
            self.kinds.as_slice(),
            self.borrowed.as_slice(),
            self.omitted.as_slice(),
            self.others.as_slice(),
        )
    }

    /// Appends an event. If there is no memory for it, the error holds the event, and the list is unchanged.
    #[inline(always)]
    pub fn push(&mut self, event: Event<'a>) -> Result<(), AllocFailed<Event<'a>>>
        ensures ok { OnOk result (self.new ≡ self.old ++ event.entry ∷ []) }
        ensures back { IfErr result (λ e. (e.value ≡ event.entry) × (self.new ≡ self.old)) }
    {
        let stored = Stored::of(event);
        if self.kinds.push(stored.kind()).is_err() {
            return Err(AllocFailed {
                value: stored.event(),
            });
        }
        match keep_value(&mut self.borrowed, &mut self.others, stored) {
            Ok(()) => Ok(()),
            Err(refused) => {
                let _ = self.kinds.pop();
                Err(AllocFailed {
                    value: refused.value.event(),
                })
            }
        }
    }

    /// Appends the event of a scalar whose value is borrowed from the text. It makes no [`Event`] on the way, and takes
    /// 26 bytes, or more at a place of 2^32 or more. If there is no memory for it, the list is unchanged.
    #[inline(always)]
    pub fn push_borrowed(
        &mut self,
        style: Style,
        span: Span,
        value: &'a str,
    ) -> Result<(), AllocError>
        ensures ok { OnOk result
            (self.new ≡ self.old ++ Event.Scalar style span (Borrowed value.entry) ∷ []) }
        ensures back { OnErr result (self.new ≡ self.old) }
    {
        let Some((start, end)) = short_place(span) else {
            return self.push_far_borrowed(style, span, value);
        };
        self.kinds.push(Kind::Borrowed(style))?;
        let scalar = BorrowedScalar { start, end, value };
        if self.borrowed.push(scalar).is_err() {
            let _ = self.kinds.pop();
            return Err(AllocError);
        }
        Ok(())
    }

    /// Appends the event of a scalar whose value is borrowed, as that of another scalar.
    #[inline(never)]
    fn push_far_borrowed(
        &mut self,
        style: Style,
        span: Span,
        value: &'a str,
    ) -> Result<(), AllocError>
        ensures ok { OnOk result
            (self.new ≡ self.old ++ Event.Scalar style span (Borrowed value.entry) ∷ []) }
        ensures back { OnErr result (self.new ≡ self.old) }
    {
        let value = CowStr::Borrowed(value);
        match self.push(Event::Scalar { style, span, value }) {
            Ok(()) => Ok(()),
            Err(_) => Err(AllocError),
        }
    }

    /// Appends the event of a value that is omitted at a place, which counts bytes from 0: the empty text, with an
    /// empty range (YAML 1.2.2, 7.2). It takes six bytes. If there is no memory for it, the list is unchanged.
    #[inline]
    pub fn push_omitted(&mut self, at: usize) -> Result<(), AllocError>
        ensures ok { OnOk result (AppendsOmitted at self.old self.new) }
        ensures back { OnErr result (self.new ≡ self.old) }
    {
        if at > u32::MAX as usize {
            return self.push_far_omitted(at);
        }
        self.kinds.push(Kind::Omitted)?;
        if self.omitted.push(at as u32).is_err() {
            let _ = self.kinds.pop();
            return Err(AllocError);
        }
        Ok(())
    }

    /// Appends the event of a value that is omitted at a place, as that of another scalar.
    fn push_far_omitted(&mut self, at: usize) -> Result<(), AllocError>
        ensures ok { OnOk result (AppendsOmitted at self.old self.new) }
        ensures back { OnErr result (self.new ≡ self.old) }
    {
        match self.push(omitted_scalar(self.empty, at)) {
            Ok(()) => Ok(()),
            Err(_) => Err(AllocError),
        }
    }

    /// Inserts the start of a mapping before the event at `at`, counted from 0, or appends it where `at` is the
    /// length. If there is no memory for it, the list is unchanged.
    pub fn insert_map_start(&mut self, at: usize) -> Result<(), AllocError>
        requires { at ≤ length self.old }
        ensures ok { OnOk result (self.new ≡ insert self.old at Event.MapStart) }
        ensures back { OnErr result (self.new ≡ self.old) }
    {
        self.kinds.insert(at, Kind::Edge(Edge::MapStart))?;
        Ok(())
    }

    /// Keeps the first `len` events and drops those after them.
    pub fn truncate(&mut self, len: usize)
        requires { len ≤ length self.old }
        ensures { self.new ≡ take len self.old }
    {
        self.kinds.truncate(len);
        let counts = value_counts(self.kinds.as_slice());
        self.borrowed.truncate(counts.borrowed);
        self.omitted.truncate(counts.omitted);
        self.others.truncate(counts.others);
    }
}

impl<'a> IntoIterator for Events<'a> {
    type Item = Event<'a>;

    type IntoIter = EventIntoIter<'a>;

    ghost into_iter_gives = { λ events iterator. iterator ≡ events };

    #[inline(always)]
    fn into_iter(self) -> EventIntoIter<'a> {
        let Events {
            kinds,
            borrowed,
            omitted,
            empty,
            others,
        } = self;
        EventIntoIter::new(empty, kinds, borrowed, omitted, others)
    }
}
