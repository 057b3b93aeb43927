// A block node that is being read.
ghost use Rattle.std.specs.Prelude.{◌≡◌, ◌≤◌, List, ◌++◌, [], ◌∷◌, length, insert, IfErr, OnErr, OnOk, MatchBool};
ghost use Rattle.yaml_block.specs.Prelude.{Refuses, BlockFrame};
ghost use Rattle.std.specs.declared.borrow.CowStr.TheVariants.{Borrowed};
ghost use Rattle.yaml_events.specs.declared.event.Event.TheVariants.{MapStart, Scalar};
ghost use Rattle.yaml_events.specs.Omitted.{AppendsOmitted};
ghost use Rattle.yaml_block.specs.Frames.{waits_of};
ghost use Rattle.yaml_block.specs.States.{IsOpened, Grown, Stack};

use crate::frame::{Collection, Waits};
use std::alloc::Global;
use yaml_events::{Event, Events, ScanFault, Span, Style};

/// A block node that is being read.
#[derive(Drop)]
pub(crate) struct Reader<'a> {
    pub alloc: Global,
    /// The events so far.
    pub events: Events<'a>,
    /// The open collections, the innermost last.
    pub collections: Vec<Collection>,
    /// Where the last part ended: its last scalar or closing bracket, or the place of an omitted value.
    pub end: usize,
}

impl<'a> Reader<'a> {
    /// Returns a reader with no events, before a node at `at`. It takes no memory.
    pub(crate) fn new(alloc: Global, at: usize) -> Self
        ensures events { result.events ≡ [] }
        ensures collections { result.collections.items ≡ [] }
    {
        Reader {
            alloc,
            events: Events::new(alloc),
            collections: Vec::new(alloc),
            end: at,
        }
    }

    /// Appends an event.
    #[inline(always)]
    pub(crate) fn put(&mut self, event: Event<'a>) -> Result<(), ScanFault>
        ensures events { OnOk result (self.new.events ≡ self.old.events ++ event.entry ∷ []) }
        ensures collections { self.new.collections ≡ self.old.collections }
        ensures end { self.new.end ≡ self.old.end }
        ensures grown { Grown self.old.events self.new.events }
        ensures none { IfErr result (λ fault. Refuses fault ⊥) }
    {
        match self.events.push(event) {
            Ok(()) => Ok(()),
            Err(_) => Err(ScanFault::OutOfMemory),
        }
    }

    /// Appends the event of a plain scalar whose value is borrowed from the text.
    #[inline(always)]
    pub(crate) fn put_borrowed(&mut self, span: Span, value: &'a str) -> Result<(), ScanFault>
        ensures events { OnOk result
            (self.new.events ≡ self.old.events ++ Scalar Style.Plain span (Borrowed value.entry) ∷ []) }
        ensures collections { self.new.collections ≡ self.old.collections }
        ensures end { self.new.end ≡ self.old.end }
        ensures grown { Grown self.old.events self.new.events }
        ensures none { IfErr result (λ fault. Refuses fault ⊥) }
    {
        match self.events.push_borrowed(Style::Plain, span, value) {
            Ok(()) => Ok(()),
            Err(_) => Err(ScanFault::OutOfMemory),
        }
    }

    /// Appends the event of a part that is omitted at a place.
    pub(crate) fn put_omitted(&mut self, at: usize) -> Result<(), ScanFault>
        ensures events { OnOk result (AppendsOmitted at self.old.events self.new.events) }
        ensures collections { self.new.collections ≡ self.old.collections }
        ensures end { self.new.end ≡ self.old.end }
        ensures grown { Grown self.old.events self.new.events }
        ensures none { IfErr result (λ fault. Refuses fault ⊥) }
    {
        match self.events.push_omitted(at) {
            Ok(()) => Ok(()),
            Err(_) => Err(ScanFault::OutOfMemory),
        }
    }

    /// Inserts the start of a mapping before the event at `place`, counted from 0.
    pub(crate) fn start_map_before(&mut self, place: usize) -> Result<(), ScanFault>
        requires place { place ≤ length self.old.events }
        ensures events { OnOk result (self.new.events ≡ insert self.old.events place MapStart) }
        ensures back { OnErr result (self.new.events ≡ self.old.events) }
        ensures collections { self.new.collections ≡ self.old.collections }
        ensures end { self.new.end ≡ self.old.end }
        ensures none { IfErr result (λ fault. Refuses fault ⊥) }
    {
        match self.events.insert_map_start(place) {
            Ok(()) => Ok(()),
            Err(_) => Err(ScanFault::OutOfMemory),
        }
    }

    /// Opens a collection with this indentation, or goes on with one. It appends no event.
    pub(crate) fn wait(&mut self, waits: Waits, indent: usize) -> Result<(), ScanFault>
        ensures collections { OnOk result (IsOpened waits indent self.old self.new) }
        ensures events { self.new.events ≡ self.old.events }
        ensures end { self.new.end ≡ self.old.end }
        ensures none { IfErr result (λ fault. Refuses fault ⊥) }
    {
        match self.collections.push(Collection { waits, indent }) {
            Ok(()) => Ok(()),
            Err(_) => Err(ScanFault::OutOfMemory),
        }
    }

    /// Opens a collection with this indentation, whose first event is `start`.
    #[inline(always)]
    pub(crate) fn open(
        &mut self,
        waits: Waits,
        indent: usize,
        start: Event<'a>,
    ) -> Result<(), ScanFault>
        ensures collections { OnOk result (IsOpened waits indent self.old self.new) }
        ensures events { OnOk result (self.new.events ≡ self.old.events ++ start.entry ∷ []) }
        ensures end { self.new.end ≡ self.old.end }
        ensures grown { Grown self.old.events self.new.events }
        ensures none { IfErr result (λ fault. Refuses fault ⊥) }
    {
        self.put(start)?;
        self.wait(waits, indent)
    }

    /// Returns whether the innermost collection waits for a key.
    pub(crate) fn waits_for_key(&self) -> bool
        ensures { (f : BlockFrame) (fs : List BlockFrame)
            → Stack (f ∷ fs) self.now.collections.items
            → MatchBool result (waits_of f ≡ Waits.Key) (waits_of f ≡ Waits.Key → ⊥) }
    {
        match self.collections.as_slice().last() {
            Some(collection) => collection.waits == Waits::Key,
            None => false,
        }
    }
}
