// How many documents a list of events has, how deep it is, and how large its collections are.
ghost use Rattle.std.specs.Prelude.{◌≡◌, ◌<◌, ◌↔◌, Err, IfOk, IfErr, length};
ghost use Rattle.yaml_tree.specs.Prelude.{events_of, Tree, IsTreeOf, depth, limits_of};
ghost use Rattle.yaml_tree.specs.Documents.{IsDocument};
ghost use Rattle.yaml_tree.specs.Reading.{Refuses, document_count};

use crate::Limits;
use crate::sizes::{SizeCounter, Sizes};
use std::alloc::{AllocError, Global};
use yaml_docs::events;
use yaml_events::{EventRef, Events, ReadFault};

/// What one pass over the events of a text finds, before a tree is built.
#[derive(Drop)]
pub(crate) struct Outline {
    /// The number of documents.
    pub(crate) documents: u64,
    /// The depth of the tree whose events these are. A key is no deeper than its value, so it is counted as a value is.
    pub(crate) depth: u64,
    /// How many values each collection has.
    pub(crate) sizes: Sizes,
}

impl Outline {
    /// The outline of a list of events. It fails only if memory runs out.
    pub(crate) fn of(alloc: Global, events: &Events<'_>) -> Result<Outline, AllocError>
        ensures { IfOk result (λ outline.
            (outline.documents ≡ document_count (events_of events.now))
            × ((t : Tree) → IsTreeOf (events_of events.now) t → outline.depth ≡ depth t)) }
    {
        let mut documents = 0u64;
        let mut open = 0u64;
        let mut depth = 0u64;
        let mut counter = SizeCounter::new(alloc);
        for event in events.iter() {
            match event {
                EventRef::DocStart => documents += 1,
                EventRef::DocEnd => {}
                EventRef::SeqStart | EventRef::MapStart => {
                    open += 1;
                    depth = depth.max(open);
                    counter.start()?;
                }
                EventRef::SeqEnd | EventRef::MapEnd => {
                    open = open.saturating_sub(1);
                    counter.end();
                }
                EventRef::Scalar { .. } => {
                    depth = depth.max(open + 1);
                    counter.count();
                }
            }
        }
        Ok(Outline {
            documents,
            depth,
            sizes: counter.sizes(),
        })
    }
}

/// A text that was read as one document. No tree is built of it yet.
#[derive(Drop)]
pub struct Document<'a> {
    pub(crate) events: Events<'a>,
    pub(crate) depth: u64,
    pub(crate) sizes: Sizes,
}

impl<'a> Document<'a> {
    /// Reads a text that is one document.
    ///
    /// `bytes` are UTF-8 (YAML 1.2.2, 5.2), read by the failsafe schema (10.1) without aliases, anchors and tags. Of
    /// the limits only that of bytes is tested. The call stack doesn't grow with the text.
    ///
    /// # Errors
    ///
    /// Of those of [`read_one`](crate::read_one) the ones that need no tree: [`ReadFault::TooLong`],
    /// [`ReadFault::NotUtf8`], [`ReadFault::Syntax`] and [`ReadFault::Documents`]. Each is returned only if it holds
    /// and no earlier one does; [`ReadFault::OutOfMemory`] may come at any point.
    pub fn read(alloc: Global, bytes: &'a [u8], limits: &Limits) -> Result<Document<'a>, ReadFault>
        ensures read { IfOk result (IsDocument bytes.now (limits_of limits.now)) }
        ensures too_long { (result ≡ Err ReadFault.TooLong)
            ↔ (limits.now.bytes < length bytes.now) }
        ensures refused { IfErr result (Refuses bytes.now (limits_of limits.now)) }
    {
        let events = events(alloc, bytes, limits.bytes)?;
        let Outline {
            documents,
            depth,
            sizes,
        } = Outline::of(alloc, &events)?;
        if documents != 1 {
            return Err(ReadFault::Documents { count: documents });
        }
        Ok(Document {
            events,
            depth,
            sizes,
        })
    }
}
