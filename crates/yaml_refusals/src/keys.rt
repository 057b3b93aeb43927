// The first node of a text that is at fault: a key that comes twice, a key that is no text, a node that is too deep,
// and the second document.
use crate::nodes::{Nodes, next_sign};
use std::alloc::{AllocError, Global};
use std::collections::BTreeMap;
use std::collections::btree_map::Entry;
use yaml_events::{EventRef, Events};

/// A key that a mapping has twice.
#[derive(Clone, Copy)]
pub(crate) struct RepeatedKey<'e> {
    pub(crate) name: &'e str,
    /// Where the key is first, and where it is again, in bytes from 0.
    pub(crate) first: usize,
    pub(crate) second: usize,
}

/// The keys of the open mappings, each with the byte at which it is first. A list has none.
#[derive(Drop)]
struct OpenKeys<'e> {
    alloc: Global,
    open: Vec<BTreeMap<&'e str, usize>>,
}

impl<'e> OpenKeys<'e> {
    /// Takes a key of the innermost mapping. Returns where it was before, if it was.
    fn take(&mut self, name: &'e str, start: usize) -> Result<Option<usize>, AllocError> {
        let Some(keys) = self.open.last_mut() else {
            return Ok(None);
        };
        match keys.entry(name)? {
            Entry::Occupied(entry) => Ok(Some(*entry.get())),
            Entry::Vacant(entry) => {
                entry.insert(start);
                Ok(None)
            }
        }
    }

    fn open(&mut self) -> Result<(), AllocError> {
        Ok(self.open.push(BTreeMap::new(self.alloc))?)
    }

    fn close(&mut self) {
        let _ = self.open.pop();
    }
}

/// The first key of a text that is the second of its name in its mapping.
pub(crate) fn repeated_key<'e>(
    alloc: Global,
    text: &str,
    events: &'e Events<'_>,
) -> Result<Option<RepeatedKey<'e>>, AllocError> {
    let mut nodes = Nodes::new(alloc, text.as_bytes());
    let mut keys = OpenKeys {
        alloc,
        open: Vec::new(alloc),
    };
    for event in events.iter() {
        let step = nodes.next(&event)?;
        match event {
            EventRef::SeqStart | EventRef::MapStart => keys.open()?,
            EventRef::SeqEnd | EventRef::MapEnd => keys.close(),
            EventRef::Scalar { value, .. } if step.is_key => {
                if let Some(first) = keys.take(value, step.start)? {
                    return Ok(Some(RepeatedKey {
                        name: value,
                        first,
                        second: step.start,
                    }));
                }
            }
            _ => {}
        }
    }
    Ok(None)
}

/// Where the first key is that is a list or a mapping, in bytes from 0.
pub(crate) fn collection_as_key(
    alloc: Global,
    text: &str,
    events: &Events<'_>,
) -> Result<Option<usize>, AllocError> {
    let mut nodes = Nodes::new(alloc, text.as_bytes());
    for event in events.iter() {
        let step = nodes.next(&event)?;
        if step.is_key && !matches!(event, EventRef::Scalar { .. }) {
            return Ok(Some(step.start));
        }
    }
    Ok(None)
}

/// Where the first node is that is deeper than a limit, in bytes from 0.
pub(crate) fn too_deep(
    alloc: Global,
    text: &str,
    events: &Events<'_>,
    limit: u64,
) -> Result<Option<usize>, AllocError> {
    let mut nodes = Nodes::new(alloc, text.as_bytes());
    for event in events.iter() {
        let step = nodes.next(&event)?;
        if step.depth > limit {
            return Ok(Some(step.start));
        }
    }
    Ok(None)
}

/// Where the second document of a text begins, in bytes from 0: at its `---`, or at what is in it.
pub(crate) fn second_document(
    alloc: Global,
    text: &str,
    events: &Events<'_>,
) -> Result<Option<usize>, AllocError> {
    let mut nodes = Nodes::new(alloc, text.as_bytes());
    let mut documents = 0u64;
    for event in events.iter() {
        if matches!(event, EventRef::DocStart) {
            documents = documents.saturating_add(1);
            if documents == 2 {
                return Ok(Some(behind_end(text.as_bytes(), nodes.at)));
            }
        }
        nodes.next(&event)?;
    }
    Ok(None)
}

/// What comes first behind a document: behind its `...`, if it has one.
fn behind_end(text: &[u8], at: usize) -> usize {
    let next = next_sign(text, at);
    if text.get(next..).unwrap_or_default().starts_with(b"...") {
        return next_sign(text, next.saturating_add(3));
    }
    next
}
