// The parts of a document that are open, while its events come.
ghost use Rattle.std.specs.Prelude.{◌≡◌, List, [], ◌∷◌, Some, false, IfOk, MatchResult};
ghost use Rattle.yaml_tree.specs.Prelude.{cow_str_bytes, chars, event_of, events_of, no_element, no_member, text};
ghost use Rattle.yaml_tree.specs.Prelude.{shape};
ghost use Rattle.yaml_tree.specs.Building.{HasNone, HasNoTree};
ghost use Rattle.yaml_tree.specs.Frames.{Frame, in_seq, at_key, innermost, frames_with, step, after_document_end, after_seq_end, after_map_end, finished_tree};
ghost use Rattle.yaml_tree.specs.Kept.{with_last, value_placed, scalar_placed, seq_ended, map_ended, members_by};
ghost use Rattle.yaml_tree.specs.OpenParts.{map_frame, part_frame, part_frames, Holds, Took, Finished, IsOutcome};

use crate::kept::{Kept, text_of};
use crate::sizes::Sizes;
use std::alloc::{AllocError, Global};
use std::borrow::CowStr;
use yaml_data::{Text, keys_differ};
use yaml_events::{Event, Events, ReadFault};

/// A part of a document that is not complete: its end, or a further value in it, is still to come. `V` is what is kept
/// of a value, and `E` what is kept of elements.
#[derive(Drop)]
pub(crate) enum Part<V, E> {
    /// A document whose value is next.
    Document,
    /// A document that has its value; its end is next.
    Root(V),
    /// A document that has ended.
    Whole(V),
    /// A sequence, with its elements so far.
    Seq(E),
    /// A mapping.
    Map(OpenMap<V>),
}

/// A mapping whose end is still to come.
#[derive(Drop)]
pub(crate) struct OpenMap<V> {
    /// The pairs so far. If a value is next, a placeholder stands for it.
    pub(crate) pairs: Vec<(Text, V)>,
    /// Whether the value of the last key is next. Otherwise a key is next.
    pub(crate) awaits_value: bool,
}

impl<V: Kept> OpenMap<V> {
    /// A mapping of no pairs yet, with memory for `pairs` of them. It fails only if memory runs out.
    fn with_capacity(alloc: Global, pairs: usize) -> Result<Self, AllocError>
        ensures { IfOk result (λ map. map_frame V.tree map ≡ at_key no_member) }
    {
        Ok(OpenMap {
            pairs: Vec::with_capacity(alloc, pairs)?,
            awaits_value: false,
        })
    }

    /// Puts in a collection. Returns `KeyNotText` if a key is next.
    fn put_collection(&mut self, value: V) -> Result<(), ReadFault>
        ensures { MatchResult result
            (λ _. value_placed V.keep (V.tree value) (map_frame V.tree self.old)
            ≡ Some (map_frame V.tree self.new))
            (HasNone (value_placed V.keep (V.tree value) (map_frame V.tree self.old))) }
    {
        if !self.awaits_value {
            return Err(ReadFault::KeyNotText);
        }
        self.put_value(value);
        Ok(())
    }

    /// Puts in a scalar: a value if one is next, else a key. It fails only if memory runs out.
    #[inline(always)]
    fn put_scalar(&mut self, alloc: Global, value: CowStr<'_>) -> Result<(), ReadFault>
        ensures { MatchResult result
            (λ _. scalar_placed V.keep (chars (cow_str_bytes value.entry))
            (map_frame V.tree self.old) ≡ Some (map_frame V.tree self.new))
            (HasNone (scalar_placed V.keep (chars (cow_str_bytes value.entry))
            (map_frame V.tree self.old))) }
    {
        if self.awaits_value {
            let value = V::of_scalar(alloc, value)?;
            self.put_value(value);
            return Ok(());
        }
        let key = text_of(alloc, value)?;
        self.pairs.push((key, V::placeholder()))?;
        self.awaits_value = true;
        Ok(())
    }

    /// Gives the last key its value.
    #[inline(always)]
    fn put_value(&mut self, value: V)
        ensures pairs { members_by V.tree self.new.pairs.items
            ≡ with_last (members_by V.tree self.old.pairs.items) (V.tree value) }
        ensures then { self.new.awaits_value ≡ false }
    {
        self.awaits_value = false;
        match self.pairs.last_mut() {
            Some(pair) => pair.1 = value,
            None => {}
        }
    }
}

impl<V: Kept<Elements = E>, E: Drop> Part<V, E> {
    /// Puts in a collection. Returns `KeyNotText` if a key is next, or if no value may follow.
    fn put_collection(&mut self, value: V) -> Result<(), ReadFault>
        ensures { MatchResult result
            (λ _. value_placed V.keep (V.tree value) (part_frame V.tree V.elements self.old)
            ≡ Some (part_frame V.tree V.elements self.new))
            (HasNone (value_placed V.keep (V.tree value)
            (part_frame V.tree V.elements self.old))) }
    {
        match self {
            Part::Document => {
                *self = Part::Root(value);
                Ok(())
            }
            Part::Root(_) | Part::Whole(_) => Err(ReadFault::KeyNotText),
            Part::Seq(items) => {
                V::put_element(items, value)?;
                Ok(())
            }
            Part::Map(map) => map.put_collection(value),
        }
    }

    /// Puts in a scalar. Returns `KeyNotText` if no value may follow.
    #[inline(always)]
    fn put_scalar(&mut self, alloc: Global, value: CowStr<'_>) -> Result<(), ReadFault>
        ensures { MatchResult result
            (λ _. scalar_placed V.keep (chars (cow_str_bytes value.entry))
            (part_frame V.tree V.elements self.old)
            ≡ Some (part_frame V.tree V.elements self.new))
            (HasNone (scalar_placed V.keep (chars (cow_str_bytes value.entry))
            (part_frame V.tree V.elements self.old))) }
    {
        match self {
            Part::Document => {
                let value = V::of_scalar(alloc, value)?;
                *self = Part::Root(value);
                Ok(())
            }
            Part::Root(_) | Part::Whole(_) => Err(ReadFault::KeyNotText),
            Part::Seq(items) => {
                let value = V::of_scalar(alloc, value)?;
                V::put_element(items, value)?;
                Ok(())
            }
            Part::Map(map) => map.put_scalar(alloc, value),
        }
    }
}

/// The parts of a document that are open, and whether the keys differ in each mapping that has ended. After a fault
/// nothing is promised of them. Each call that takes memory may return `OutOfMemory`.
#[derive(Drop)]
pub(crate) struct Parts<V, E> {
    alloc: Global,
    /// The parts, the innermost one last.
    pub(crate) parts: Vec<Part<V, E>>,
    sizes: Sizes,
    /// Whether the keys differ in each mapping that has ended.
    pub(crate) keys_differ: bool,
}

impl<V: Kept<Elements = E>, E: Drop> Parts<V, E> {
    /// No part is open yet. `sizes` says how many values the collections will have.
    pub(crate) fn new(alloc: Global, sizes: Sizes) -> Self
        ensures { Holds V.keep V.tree V.elements result [] }
    {
        Parts {
            alloc,
            parts: Vec::new(alloc),
            sizes,
            keys_differ: true,
        }
    }

    /// Opens a part inside the innermost one.
    fn push(&mut self, part: Part<V, E>) -> Result<(), ReadFault>
        ensures parts { MatchResult result
            (λ _. part_frames V.tree V.elements self.new.parts.items
            ≡ part_frame V.tree V.elements part
            ∷ part_frames V.tree V.elements self.old.parts.items)
            (λ fault. fault ≡ ReadFault.OutOfMemory) }
        ensures keys { self.new.keys_differ ≡ self.old.keys_differ }
    {
        self.parts.push(part)?;
        Ok(())
    }

    /// Removes the innermost part and returns it. Returns `KeyNotText` if there is none.
    fn pop(&mut self) -> Result<Part<V, E>, ReadFault>
        ensures parts { MatchResult result
            (λ part. part_frames V.tree V.elements self.old.parts.items
            ≡ part_frame V.tree V.elements part
            ∷ part_frames V.tree V.elements self.new.parts.items)
            (λ fault. (fault ≡ ReadFault.KeyNotText)
            × (part_frames V.tree V.elements self.old.parts.items ≡ [])) }
        ensures keys { self.new.keys_differ ≡ self.old.keys_differ }
    {
        match self.parts.pop() {
            Some(part) => Ok(part),
            None => Err(ReadFault::KeyNotText),
        }
    }

    /// Puts a collection that has ended into the innermost part. Returns `KeyNotText` if it has no place there.
    fn put_collection(&mut self, value: V) -> Result<(), ReadFault>
        ensures parts { MatchResult result
            (λ _. innermost (value_placed V.keep (V.tree value))
            (part_frames V.tree V.elements self.old.parts.items)
            ≡ Some (part_frames V.tree V.elements self.new.parts.items))
            (HasNone (innermost (value_placed V.keep (V.tree value))
            (part_frames V.tree V.elements self.old.parts.items))) }
        ensures keys { self.new.keys_differ ≡ self.old.keys_differ }
    {
        match self.parts.last_mut() {
            Some(part) => part.put_collection(value),
            None => Err(ReadFault::KeyNotText),
        }
    }

    /// Puts a scalar into the innermost part. Returns `KeyNotText` if it has no place there.
    #[inline(always)]
    fn put_scalar(&mut self, value: CowStr<'_>) -> Result<(), ReadFault>
        ensures parts { MatchResult result
            (λ _. innermost (scalar_placed V.keep (chars (cow_str_bytes value.entry)))
            (part_frames V.tree V.elements self.old.parts.items)
            ≡ Some (part_frames V.tree V.elements self.new.parts.items))
            (HasNone (innermost (scalar_placed V.keep (chars (cow_str_bytes value.entry)))
            (part_frames V.tree V.elements self.old.parts.items))) }
        ensures keys { self.new.keys_differ ≡ self.old.keys_differ }
    {
        match self.parts.last_mut() {
            Some(part) => part.put_scalar(self.alloc, value),
            None => Err(ReadFault::KeyNotText),
        }
    }

    /// Ends the innermost part. Returns `KeyNotText` if it is no document that has its value.
    fn end_document(&mut self) -> Result<(), ReadFault>
        ensures parts { MatchResult result
            (λ _. after_document_end (part_frames V.tree V.elements self.old.parts.items)
            ≡ Some (part_frames V.tree V.elements self.new.parts.items))
            (HasNone (after_document_end
            (part_frames V.tree V.elements self.old.parts.items))) }
        ensures keys { self.new.keys_differ ≡ self.old.keys_differ }
    {
        let part = self.pop()?;
        match part {
            Part::Root(value) => self.push(Part::Whole(value)),
            _ => Err(ReadFault::KeyNotText),
        }
    }

    /// Opens a sequence inside the innermost part. It fails only if memory runs out.
    fn start_seq(&mut self) -> Result<(), ReadFault>
        ensures parts { MatchResult result
            (λ _. part_frames V.tree V.elements self.new.parts.items
            ≡ in_seq no_element ∷ part_frames V.tree V.elements self.old.parts.items)
            (λ fault. fault ≡ ReadFault.OutOfMemory) }
        ensures keys { self.new.keys_differ ≡ self.old.keys_differ }
    {
        let items = V::no_elements(self.alloc, self.sizes.next_size())?;
        self.push(Part::Seq(items))
    }

    /// Opens a mapping inside the innermost part. It fails only if memory runs out.
    fn start_map(&mut self) -> Result<(), ReadFault>
        ensures parts { MatchResult result
            (λ _. part_frames V.tree V.elements self.new.parts.items
            ≡ at_key no_member ∷ part_frames V.tree V.elements self.old.parts.items)
            (λ fault. fault ≡ ReadFault.OutOfMemory) }
        ensures keys { self.new.keys_differ ≡ self.old.keys_differ }
    {
        // a key and a value each
        let map = OpenMap::with_capacity(self.alloc, self.sizes.next_size() / 2)?;
        self.push(Part::Map(map))
    }

    /// Ends the innermost part and returns its elements. Returns `KeyNotText` if it is no sequence.
    fn take_seq(&mut self) -> Result<E, ReadFault>
        ensures parts { MatchResult result
            (λ items. part_frames V.tree V.elements self.old.parts.items
            ≡ in_seq (V.elements items) ∷ part_frames V.tree V.elements self.new.parts.items)
            (HasNone (seq_ended (part_frames V.tree V.elements self.old.parts.items))) }
        ensures keys { self.new.keys_differ ≡ self.old.keys_differ }
    {
        let part = self.pop()?;
        match part {
            Part::Seq(items) => Ok(items),
            _ => Err(ReadFault::KeyNotText),
        }
    }

    /// Ends the innermost part and returns its pairs. Returns `KeyNotText` if it is no mapping where a key is next.
    fn take_map(&mut self) -> Result<Vec<(Text, V)>, ReadFault>
        ensures parts { MatchResult result
            (λ pairs. part_frames V.tree V.elements self.old.parts.items
            ≡ at_key (members_by V.tree pairs.items)
            ∷ part_frames V.tree V.elements self.new.parts.items)
            (HasNone (map_ended (part_frames V.tree V.elements self.old.parts.items))) }
        ensures keys { self.new.keys_differ ≡ self.old.keys_differ }
    {
        let part = self.pop()?;
        match part {
            Part::Map(
                OpenMap {
                    pairs,
                    awaits_value: false,
                },
            ) => Ok(pairs),
            _ => Err(ReadFault::KeyNotText),
        }
    }

    /// Ends the innermost part and puts it as a sequence into the one around it. Returns `KeyNotText` if it is no
    /// sequence, or has no place there.
    fn end_seq(&mut self) -> Result<(), ReadFault>
        ensures { (fs : List Frame) → Holds V.keep V.tree V.elements self.old fs
            → MatchResult result
            (λ _. Took V.keep V.tree V.elements self.new (after_seq_end fs))
            (HasNone (after_seq_end fs)) }
    {
        let items = self.take_seq()?;
        self.put_collection(V::of_seq(items))
    }

    /// Ends the innermost part, compares its keys, and puts it as a mapping into the one around it. Returns
    /// `KeyNotText` if it is no mapping where a key is next, or has no place there.
    fn end_map(&mut self) -> Result<(), ReadFault>
        ensures { (fs : List Frame) → Holds V.keep V.tree V.elements self.old fs
            → MatchResult result
            (λ _. Took V.keep V.tree V.elements self.new (after_map_end fs))
            (HasNone (after_map_end fs)) }
    {
        let pairs = self.take_map()?;
        let differ = keys_differ(self.alloc, &pairs)?;
        self.keys_differ = self.keys_differ && differ;
        self.put_collection(V::of_map(pairs))
    }

    /// Takes a scalar. Returns `KeyNotText` if it has no place there.
    #[inline(always)]
    fn scalar(&mut self, value: CowStr<'_>) -> Result<(), ReadFault>
        ensures { (fs : List Frame) → Holds V.keep V.tree V.elements self.old fs
            → MatchResult result
            (λ _. Took V.keep V.tree V.elements self.new
            (frames_with fs (text (chars (cow_str_bytes value.entry)))))
            (HasNone (frames_with fs (text (chars (cow_str_bytes value.entry))))) }
    {
        self.put_scalar(value)
    }

    /// Takes the next event of the document. Returns `KeyNotText` if the event has no place there, as the end of a
    /// collection that is a key.
    #[inline(always)]
    pub(crate) fn take(&mut self, event: Event<'_>) -> Result<(), ReadFault>
        ensures { (fs : List Frame) → Holds V.keep V.tree V.elements self.old fs
            → MatchResult result
            (λ _. Took V.keep V.tree V.elements self.new (step fs (shape (event_of event.entry))))
            (HasNone (step fs (shape (event_of event.entry)))) }
    {
        match event {
            Event::DocStart => self.push(Part::Document),
            Event::DocEnd => self.end_document(),
            Event::SeqStart => self.start_seq(),
            Event::SeqEnd => self.end_seq(),
            Event::MapStart => self.start_map(),
            Event::MapEnd => self.end_map(),
            Event::Scalar { value, .. } => self.scalar(value),
        }
    }

    /// Removes the document that has ended, and returns what is kept of its tree. Returns `KeyNotText` if it has not
    /// ended, or something else is open.
    fn take_whole(&mut self) -> Result<V, ReadFault>
        ensures parts { MatchResult result
            (λ value. finished_tree (part_frames V.tree V.elements self.old.parts.items)
            ≡ Some (V.tree value))
            (HasNone (finished_tree (part_frames V.tree V.elements self.old.parts.items))) }
        ensures keys { self.new.keys_differ ≡ self.old.keys_differ }
    {
        let last = self.pop()?;
        if !self.parts.is_empty() {
            return Err(ReadFault::KeyNotText);
        }
        match last {
            Part::Whole(value) => Ok(value),
            _ => Err(ReadFault::KeyNotText),
        }
    }

    /// What is kept of the document's tree, and whether in each of its mappings the keys differ. Returns `KeyNotText`
    /// if the document has not ended, or something else is open.
    pub(crate) fn finish(mut self) -> Result<(V, bool), ReadFault>
        ensures { (fs : List Frame) → Holds V.keep V.tree V.elements self fs → MatchResult result
            (λ found. Finished V.keep (V.tree found.0) found.1 (finished_tree fs))
            (HasNone (finished_tree fs)) }
    {
        let value = self.take_whole()?;
        Ok((value, self.keys_differ))
    }
}

/// What is kept of the tree of the one document whose events these are, and whether in each of its mappings the keys
/// differ. The events are read by a loop with a stack in memory: the call stack doesn't grow with the depth, which may
/// be any. `sizes` says how many values the collections have.
///
/// # Errors
///
/// - [`ReadFault::KeyNotText`] if some key is a collection, or the events are not those of one document.
/// - [`ReadFault::OutOfMemory`] if there is no memory for what is kept.
pub(crate) fn document_value<V: Kept>(
    alloc: Global,
    events: Events<'_>,
    sizes: Sizes,
) -> Result<(V, bool), ReadFault>
    ensures { MatchResult result
        (λ found. IsOutcome V.keep (V.tree found.0) found.1 (events_of events.entry))
        (HasNoTree (events_of events.entry)) }
{
    let mut parts = Parts::new(alloc, sizes);
    for event in events {
        parts.take(event)?;
    }
    parts.finish()
}
