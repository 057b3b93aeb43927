// Iterators over the events of a list.
ghost use Rattle.std.specs.Prelude.{◌≡◌};
ghost use Rattle.std.specs.Iterator.{YieldsFirst, YieldsFirstBy, item_count};
ghost use Rattle.yaml_events.specs.Meant.{event_ref_of, events_of};
ghost use Rattle.yaml_events.specs.Parts.{events_in, Fits};

use crate::draining::Draining;
use crate::event::{Event, EventRef};
use crate::parts::{BorrowedScalar, Kind, OtherScalar, omitted_ref, omitted_scalar};
use crate::rest::Rest;
use std::marker::Model;
use std::{slice, vec};

/// An iterator over the events of a list, by reference. Contracts see the list of the meanings of the events that are
/// left.
#[derive(Drop)]
pub struct EventIter<'e> {
    kinds: slice::Iter<'e, Kind>,
    borrowed: slice::Iter<'e, BorrowedScalar<'e>>,
    omitted: slice::Iter<'e, u32>,
    empty: &'e str,
    others: slice::Iter<'e, OtherScalar<'e>>,
}

impl<'e> Model for EventIter<'e> {
    ghost use Rattle.std.specs.Prelude.{List};
    ghost use Rattle.std.specs.Slice.Iter.{iter_rest};
    ghost use Rattle.yaml_grammar.specs.Events.{Event};
    ghost use Rattle.yaml_events.specs.Meant.{events_of};
    ghost use Rattle.yaml_events.specs.Parts.{events_in, Fits};

    ghost Value = { List Event };

    ghost view = { λ i. events_of
        (events_in i.empty (iter_rest i.kinds) (iter_rest i.borrowed) (iter_rest i.omitted)
        (iter_rest i.others)) };

    ghost invariant = { λ i.
        Fits (iter_rest i.kinds) (iter_rest i.borrowed) (iter_rest i.omitted)
        (iter_rest i.others) };
}

impl<'e> EventIter<'e> {
    /// Returns an iterator over the events that are kept in these parts.
    #[inline(always)]
    pub(crate) fn new(
        empty: &'e str,
        kinds: &'e [Kind],
        borrowed: &'e [BorrowedScalar<'e>],
        omitted: &'e [u32],
        others: &'e [OtherScalar<'e>],
    ) -> Self
        requires fits { Fits kinds.now borrowed.now omitted.now others.now }
        ensures { result
            ≡ events_of (events_in empty.entry kinds.now borrowed.now omitted.now others.now) }
    {
        EventIter {
            kinds: kinds.iter(),
            borrowed: borrowed.iter(),
            omitted: omitted.iter(),
            empty,
            others: others.iter(),
        }
    }
}

impl<'e> Iterator for EventIter<'e> {
    type Item = EventRef<'e>;

    ghost next_gives = { YieldsFirstBy event_ref_of (λ events. events) };

    ghost remaining = { item_count (λ events. events) };

    #[inline(always)]
    fn next(&mut self) -> Option<EventRef<'e>> {
        let Some(kind) = self.kinds.next() else {
            return None;
        };
        match kind {
            Kind::Edge(edge) => Some(edge.event_ref()),
            Kind::Borrowed(style) => {
                let Some(scalar) = self.borrowed.next() else {
                    return None;
                };
                Some(scalar.event_ref(*style))
            }
            Kind::Omitted => {
                let Some(at) = self.omitted.next() else {
                    return None;
                };
                Some(omitted_ref(self.empty, *at as usize))
            }
            Kind::Other(style) => {
                let Some(scalar) = self.others.next() else {
                    return None;
                };
                Some(scalar.event_ref(*style))
            }
        }
    }
}

/// An iterator that moves the events out of a list. Contracts see the list of the events that are left.
#[derive(Drop)]
pub struct EventIntoIter<'a> {
    kinds: Rest<Kind>,
    borrowed: Draining<BorrowedScalar<'a>>,
    omitted: Rest<u32>,
    empty: &'a str,
    others: vec::IntoIter<OtherScalar<'a>>,
}

impl<'a> Model for EventIntoIter<'a> {
    ghost use Rattle.std.specs.Prelude.{List};
    ghost use Rattle.std.specs.Vec.Iter.{into_iter_items};
    ghost use Rattle.yaml_events.specs.declared.event.Event.{Event};
    ghost use Rattle.yaml_events.specs.Parts.{events_in, Fits};

    ghost Value = { List Event };

    ghost view = { λ i.
        events_in i.empty i.kinds i.borrowed i.omitted (into_iter_items i.others) };

    ghost invariant = { λ i.
        Fits i.kinds i.borrowed i.omitted (into_iter_items i.others) };
}

impl<'a> EventIntoIter<'a> {
    /// Returns an iterator over the events that are kept in these parts.
    #[inline(always)]
    pub(crate) fn new(
        empty: &'a str,
        kinds: Vec<Kind>,
        borrowed: Vec<BorrowedScalar<'a>>,
        omitted: Vec<u32>,
        others: Vec<OtherScalar<'a>>,
    ) -> Self
        requires fits { Fits kinds.items borrowed.items omitted.items others.items }
        ensures { result
            ≡ events_in empty.entry kinds.items borrowed.entry.items omitted.items others.entry.items }
    {
        EventIntoIter {
            kinds: Rest::of(kinds),
            borrowed: Draining::of(borrowed),
            omitted: Rest::of(omitted),
            empty,
            others: others.into_iter(),
        }
    }
}

impl<'a> Iterator for EventIntoIter<'a> {
    type Item = Event<'a>;

    ghost next_gives = { YieldsFirst (λ events. events) };

    ghost remaining = { item_count (λ events. events) };

    #[inline(always)]
    fn next(&mut self) -> Option<Event<'a>> {
        let Some(kind) = self.kinds.next() else {
            return None;
        };
        match kind {
            Kind::Edge(edge) => Some(edge.event()),
            Kind::Borrowed(style) => {
                let Some(scalar) = self.borrowed.next() else {
                    return None;
                };
                Some(scalar.event(style))
            }
            Kind::Omitted => {
                let Some(at) = self.omitted.next() else {
                    return None;
                };
                Some(omitted_scalar(self.empty, at as usize))
            }
            Kind::Other(style) => {
                let Some(scalar) = self.others.next() else {
                    return None;
                };
                Some(scalar.event(style))
            }
        }
    }
}
