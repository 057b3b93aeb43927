// What a crash may leave of the pending bytes of a file.
use probe_words::{Zeros, each_cut};
use std::alloc::{AllocError, Global};

/// Which of the pending bytes of a file are left, and which of these are zero.
#[derive(Clone, Copy, Debug)]
pub(crate) enum Tear {
    /// So many are as they were, and so many zeros come after them.
    Cut { kept: usize, zeros: usize },
    /// So many are left, of which the one at a place is zero.
    Hole { place: usize, pending: usize },
}

impl Tear {
    /// For each byte that is left, whether it is as it was.
    pub(crate) fn kept(self, alloc: Global) -> Result<Vec<bool>, AllocError> {
        match self {
            Tear::Cut { kept, zeros } => kept_and_zeros(alloc, kept, zeros),
            Tear::Hole { place, pending } => all_but_one(alloc, place, pending),
        }
    }
}

/// So many bytes as they were, and so many zeros.
fn kept_and_zeros(alloc: Global, kept: usize, zeros: usize) -> Result<Vec<bool>, AllocError> {
    let mut left = Vec::new(alloc);
    for place in 0..kept.saturating_add(zeros) {
        left.push(place < kept)?;
    }
    Ok(left)
}

/// So many bytes as they were, but for the one at a place.
fn all_but_one(alloc: Global, one: usize, pending: usize) -> Result<Vec<bool>, AllocError> {
    let mut left = Vec::new(alloc);
    for place in 0..pending {
        left.push(place != one)?;
    }
    Ok(left)
}

/// The tears that are tried where so many bytes are pending: each cut with these numbers of zeros, and each hole but
/// that of the last byte, which is a cut.
pub(crate) fn each_tear(
    alloc: Global,
    pending: usize,
    zeros: Zeros,
) -> Result<Vec<Tear>, AllocError> {
    let mut tears = Vec::new(alloc);
    for (kept, zeros) in &each_cut(alloc, pending, zeros)? {
        tears.push(Tear::Cut {
            kept: *kept,
            zeros: *zeros,
        })?;
    }
    push_holes(&mut tears, pending)?;
    Ok(tears)
}

/// Appends the holes in so many pending bytes.
fn push_holes(tears: &mut Vec<Tear>, pending: usize) -> Result<(), AllocError> {
    for place in 0..pending.saturating_sub(1) {
        tears.push(Tear::Hole { place, pending })?;
    }
    Ok(())
}
