// Cuts of a file that has pending bytes. A cut is how many of them a crash keeps, and how many zeros come after these.
use std::alloc::{AllocError, Global};

/// How many zeros come after the bytes that are kept.
#[derive(Clone, Copy)]
pub enum Zeros {
    /// None.
    None,
    /// None, and as many as fit.
    Ends,
    /// Each number that fits.
    Each,
}

impl Zeros {
    /// Whether this number is one of them, where so many fit.
    fn has(self, count: usize, most: usize) -> bool {
        match self {
            Zeros::None => count == 0,
            Zeros::Ends => count == 0 || count == most,
            Zeros::Each => true,
        }
    }
}

/// The cuts that keep each number of the pending bytes.
pub fn each_cut(
    alloc: Global,
    pending: usize,
    zeros: Zeros,
) -> Result<Vec<(usize, usize)>, AllocError> {
    let mut cuts = Vec::new(alloc);
    for kept in 0..=pending {
        push_cuts(&mut cuts, kept, pending, zeros)?;
    }
    Ok(cuts)
}

/// The cuts that keep none of the pending bytes, and those that keep all.
pub fn whole_cuts(
    alloc: Global,
    pending: usize,
    zeros: Zeros,
) -> Result<Vec<(usize, usize)>, AllocError> {
    let mut cuts = Vec::new(alloc);
    push_cuts(&mut cuts, 0, pending, zeros)?;
    if pending > 0 {
        push_cuts(&mut cuts, pending, pending, zeros)?;
    }
    Ok(cuts)
}

/// Appends the cuts that keep so many of the pending bytes, if there are so many.
pub fn push_cuts(
    cuts: &mut Vec<(usize, usize)>,
    kept: usize,
    pending: usize,
    zeros: Zeros,
) -> Result<(), AllocError> {
    let Some(most) = pending.checked_sub(kept) else {
        return Ok(());
    };
    for count in 0..=most {
        if zeros.has(count, most) {
            cuts.push((kept, count))?;
        }
    }
    Ok(())
}
