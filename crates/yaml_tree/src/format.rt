// A document that is written in the one style, with no tree in between.
ghost use Rattle.std.specs.Prelude.{◌≡◌, ◌<◌, ℕ, ◌↔◌, List, [], Err, IfOk, IfErr, MatchResult, length, string_bytes};
ghost use Rattle.yaml_tree.specs.Prelude.{event_of, events_of, shape, limits_of};
ghost use Rattle.yaml_tree.specs.Building.{HasNone, HasNoTree};
ghost use Rattle.yaml_tree.specs.Documents.{IsDocument, IsWrittenTo};
ghost use Rattle.yaml_tree.specs.OpenParts.{HoldsKeys, open_frames};
ghost use Rattle.yaml_tree.specs.Formatting.{IsFormatted, Writes, Wrote, IsWritten, indent_after};
ghost use Rattle.yaml_tree.specs.Frames.{Frame, step};
ghost use Rattle.yaml_tree.specs.OpenText.{indent_in};
ghost use Rattle.yaml_tree.specs.Reading.{Refuses};

use crate::Limits;
use crate::documents::Document;
use crate::in_style::lines_in_style;
use crate::kept::Emptiness;
use crate::open_text::write_event;
use crate::parts::Parts;
use crate::sizes::Sizes;
use std::alloc::{AllocError, Global};
use yaml_events::{Event, Events, ReadFault};
use yaml_writer::{LimitedText, Sink};

/// The greatest indentation that is written. A document that needs more has more than 2,147,483,647 collections open at
/// once, and is refused as one for which there is no memory.
const MOST_INDENT: u64 = 4_294_967_295;

/// Reads a text that is one document, and returns its tree in the one style. The result is the same as that of writing
/// the tree of [`read_one`](crate::read_one), but no tree is built: the text is written from the events.
///
/// `bytes` are UTF-8 (YAML 1.2.2, 5.2), read by the failsafe schema (10.1) without aliases, anchors and tags. The call
/// stack doesn't grow with the text.
///
/// # Errors
///
/// Those of [`read_one`](crate::read_one): each fault of [`ReadFault`] is returned only if it holds and no earlier one
/// does; [`ReadFault::OutOfMemory`] may come at any point. It also comes if more than 2,147,483,647 collections are
/// open at once, where the limits allow that many.
pub fn format_one(alloc: Global, bytes: &[u8], limits: &Limits) -> Result<String, ReadFault>
    ensures given { IfOk result (λ text.
        IsFormatted bytes.now (limits_of limits.now) (string_bytes text)) }
    ensures too_long { (result ≡ Err ReadFault.TooLong) ↔ (limits.now.bytes < length bytes.now) }
    ensures refused { IfErr result (Refuses bytes.now (limits_of limits.now)) }
{
    match lines_in_style(alloc, bytes, limits)? {
        Some(lines) => Ok(String::from_str(alloc, lines)?),
        None => format_by_events(alloc, bytes, limits),
    }
}

/// Reads a text in any form, and returns its tree in the one style, as [`format_one`] does, with the same faults.
fn format_by_events(alloc: Global, bytes: &[u8], limits: &Limits) -> Result<String, ReadFault>
    ensures given { IfOk result (λ text.
        IsFormatted bytes.now (limits_of limits.now) (string_bytes text)) }
    ensures too_long { (result ≡ Err ReadFault.TooLong) ↔ (limits.now.bytes < length bytes.now) }
    ensures refused { IfErr result (Refuses bytes.now (limits_of limits.now)) }
{
    let document = Document::read(alloc, bytes, limits)?;
    let mut text = LimitedText::with_capacity(alloc, bytes.len(), limits.style)?;
    document.write(alloc, limits, &mut text)?;
    match text.into_text() {
        Some(text) => Ok(text),
        None => Err(ReadFault::LargeInStyle),
    }
}

impl Document<'_> {
    /// Writes the tree of the document in the one style to a sink. No tree is built: the text is written from the
    /// events. Of the limits only that of depth is tested, so a sink has to count what it takes if the text's length
    /// is to have a limit.
    ///
    /// # Errors
    ///
    /// The first of these faults that holds; [`ReadFault::OutOfMemory`] may come at any point. The sink may have taken
    /// some of the text.
    ///
    /// - [`ReadFault::KeyNotText`] if some key is a collection.
    /// - [`ReadFault::KeyTwice`] if a mapping holds a key twice.
    /// - [`ReadFault::TooDeep`] if the tree is deeper than `limits.depth`.
    pub fn write<S: Sink<Fault = AllocError>>(
        self,
        alloc: Global,
        limits: &Limits,
        sink: &mut S,
    ) -> Result<(), ReadFault>
        ensures { (bytes : List ℕ) → IsDocument bytes (limits_of limits.now) self.entry
            → MatchResult result
            (λ _. IsWrittenTo S.Takes bytes (limits_of limits.now) sink.old sink.new)
            (Refuses bytes (limits_of limits.now)) }
    {
        let Document {
            events,
            depth,
            sizes,
        } = self;
        let keys_differ = write_document(alloc, events, sizes, sink)?;
        if !keys_differ {
            return Err(ReadFault::KeyTwice);
        }
        if depth > limits.depth {
            return Err(ReadFault::TooDeep);
        }
        Ok(())
    }
}

/// Writes the one document whose events these are to a sink, and returns whether the keys differ in each mapping.
/// `sizes` says how many values the collections have.
///
/// # Errors
///
/// - [`ReadFault::KeyNotText`] if some key is a collection, or the events are not those of one document.
/// - [`ReadFault::OutOfMemory`] if there is no memory for the keys or the text.
fn write_document<S: Sink<Fault = AllocError>>(
    alloc: Global,
    events: Events<'_>,
    sizes: Sizes,
    sink: &mut S,
) -> Result<bool, ReadFault>
    ensures { MatchResult result
        (IsWritten S.Takes sink.old sink.new (events_of events.entry))
        (HasNoTree (events_of events.entry)) }
{
    let mut writer = DocumentWriter::new(alloc, sizes);
    for event in events {
        writer.take(event, sink)?;
    }
    let (_, keys_differ) = writer.parts.finish()?;
    Ok(keys_differ)
}

/// A document that is written in the one style while its events come.
#[derive(Drop)]
pub(crate) struct DocumentWriter {
    /// The parts that are open, with their keys and no values.
    parts: Parts<(), Emptiness>,
    /// The indentation of a collection that is opened next.
    indent: u64,
}

impl DocumentWriter {
    /// A writer before the first event.
    fn new(alloc: Global, sizes: Sizes) -> DocumentWriter
        ensures keeps { HoldsKeys result.parts [] }
        ensures indent { result.indent ≡ 0 }
    {
        DocumentWriter {
            parts: Parts::new(alloc, sizes),
            indent: 0,
        }
    }

    /// Takes the next event of the document, and writes what it adds. Returns `KeyNotText` if the event has no place
    /// there, and `OutOfMemory` if there is no memory for the keys or the text.
    #[inline(always)]
    fn take<S: Sink<Fault = AllocError>>(
        &mut self,
        event: Event<'_>,
        sink: &mut S,
    ) -> Result<(), ReadFault>
        requires indent { self.old.indent
            ≡ indent_in (open_frames self.old.parts.parts.items) }
        requires room { self.old.indent < 4294967296 }
        ensures { (start : S) (fs : List Frame) → Writes S.Takes start sink.old self.old fs
            → MatchResult result
            (λ _. Wrote S.Takes start sink.new self.new (step fs (shape (event_of event.entry))))
            (HasNone (step fs (shape (event_of event.entry)))) }
    {
        let indent = indent_after(self.indent, &event)?;
        write_event(&self.parts.parts, self.indent, &event, sink)?;
        self.parts.take(event)?;
        self.indent = indent;
        Ok(())
    }
}

/// The indentation of a collection that is opened after an event.
fn indent_after(indent: u64, event: &Event<'_>) -> Result<u64, AllocError>
    requires { indent < 4294967296 }
    ensures { IfOk result (λ next. (next ≡ indent_after indent (shape (event_of event.now)))
        × (next < 4294967296)) }
{
    match event {
        Event::SeqStart | Event::MapStart => {
            if indent + 2 > MOST_INDENT {
                return Err(AllocError);
            }
            Ok(indent + 2)
        }
        Event::SeqEnd | Event::MapEnd => Ok(indent.saturating_sub(2)),
        Event::DocStart | Event::DocEnd | Event::Scalar { .. } => Ok(indent),
    }
}
