// How many values each collection of a document has, so that memory for them is taken once.

use std::alloc::{AllocError, Global};

/// How many values each collection of a document has, in the order in which the collections start. It is a hint of how
/// much memory to take: a wrong number costs memory or time, and changes no tree.
#[derive(Drop)]
pub(crate) struct Sizes {
    counts: Vec<u32>,
    next: usize,
}

impl Sizes {
    /// No size is known.
    pub(crate) fn none(alloc: Global) -> Sizes {
        Sizes {
            counts: Vec::new(alloc),
            next: 0,
        }
    }

    /// The number of values of the collection that starts next, where a mapping's keys count too; 0 if it isn't known.
    pub(crate) fn next_size(&mut self) -> usize {
        match self.counts.get(self.next) {
            Some(count) => {
                self.next += 1;
                *count as usize
            }
            None => 0,
        }
    }
}

/// A collection whose end is still to come, and how many values it has so far.
#[derive(Clone, Copy)]
struct Counted {
    /// The place of its count in the list of counts.
    place: usize,
    values: u32,
}

/// Counts the values of each collection while a document's events are read.
#[derive(Drop)]
pub(crate) struct SizeCounter {
    counts: Vec<u32>,
    /// The collections around the innermost one, which comes last.
    outer: Vec<Counted>,
    innermost: Counted,
}

impl SizeCounter {
    /// Nothing is counted yet.
    pub fn new(alloc: Global) -> SizeCounter {
        SizeCounter {
            counts: Vec::new(alloc),
            outer: Vec::new(alloc),
            innermost: Counted {
                place: 0,
                values: 0,
            },
        }
    }

    /// Counts a scalar, a key or a value.
    #[inline]
    pub fn count(&mut self) {
        self.innermost.values = self.innermost.values.saturating_add(1);
    }

    /// Counts a collection, and begins to count its values. It fails only if memory runs out.
    pub fn start(&mut self) -> Result<(), AllocError> {
        self.count();
        self.outer.push(self.innermost)?;
        self.innermost = Counted {
            place: self.counts.len(),
            values: 0,
        };
        self.counts.push(0)?;
        Ok(())
    }

    /// Ends the innermost collection.
    pub fn end(&mut self) {
        if let Some(count) = self.counts.get_mut(self.innermost.place) {
            *count = self.innermost.values;
        }
        if let Some(outer) = self.outer.pop() {
            self.innermost = outer;
        }
    }

    /// The sizes of the collections that have ended.
    pub fn sizes(self) -> Sizes {
        Sizes {
            counts: self.counts,
            next: 0,
        }
    }
}
