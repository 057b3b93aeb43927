// The images that a crash may leave of a disk, as choices of a stage and of cuts.
use conf_disk::{Cuts, Name};
use probe_words::{Zeros, each_cut, push_cuts, whole_cuts};
use std::alloc::{AllocError, Global};
use test_disks::MemoryDisk;

/// A number of stages that no disk here exceeds: six are left by two checkpoints that begin, with an opening between
/// them, and a whole one after them, up to its rename.
const STAGES: usize = 7;

/// Where files are cut.
#[derive(Clone, Copy)]
pub(crate) enum Cutting<'a> {
    /// After each pending byte, with each number of zeros.
    Each,
    /// `store.yaml` before its pending bytes, around the ends of these records and after them, and `next.yaml` before
    /// its pending bytes and after them: without zeros and with as many as fit.
    Records(&'a [usize]),
    /// Before the pending bytes and after them, without zeros.
    Whole,
}

impl Cutting<'_> {
    /// The cuts of `store.yaml` with so many pending bytes.
    fn of_store(self, alloc: Global, pending: usize) -> Result<Vec<(usize, usize)>, AllocError> {
        match self {
            Cutting::Each => each_cut(alloc, pending, Zeros::Each),
            Cutting::Records(ends) => record_cuts(alloc, pending, ends),
            Cutting::Whole => whole_cuts(alloc, pending, Zeros::None),
        }
    }

    /// The cuts of `next.yaml` with so many pending bytes.
    fn of_next(self, alloc: Global, pending: usize) -> Result<Vec<(usize, usize)>, AllocError> {
        match self {
            Cutting::Each => each_cut(alloc, pending, Zeros::Each),
            Cutting::Records(_) => whole_cuts(alloc, pending, Zeros::Ends),
            Cutting::Whole => whole_cuts(alloc, pending, Zeros::None),
        }
    }
}

/// The cuts before the pending bytes, and at the end of each record that is pending, one byte before it and one after.
fn record_cuts(
    alloc: Global,
    pending: usize,
    ends: &[usize],
) -> Result<Vec<(usize, usize)>, AllocError> {
    let mut cuts = Vec::new(alloc);
    push_cuts(&mut cuts, 0, pending, Zeros::Ends)?;
    for end in ends {
        if *end <= pending {
            push_cuts(&mut cuts, end.saturating_sub(1), pending, Zeros::Ends)?;
            push_cuts(&mut cuts, *end, pending, Zeros::Ends)?;
            push_cuts(&mut cuts, end.saturating_add(1), pending, Zeros::Ends)?;
        }
    }
    Ok(cuts)
}

/// A stage and cuts that a crash may leave.
#[derive(Clone, Copy)]
pub(crate) struct Choice {
    stage: usize,
    cuts: Cuts,
}

impl Choice {
    /// The image of the disk, if a crash can leave it.
    pub(crate) fn image(self, disk: &MemoryDisk) -> Result<Option<MemoryDisk>, AllocError> {
        disk.image(self.stage, self.cuts)
    }
}

/// The choices of a disk: each cut of one file with each of the other, in each stage.
pub(crate) fn choices(
    alloc: Global,
    disk: &MemoryDisk,
    cutting: Cutting<'_>,
) -> Result<Vec<Choice>, AllocError> {
    let mut choices = Vec::new(alloc);
    for stage in 0..STAGES {
        push_stage(alloc, &mut choices, disk, stage, cutting)?;
    }
    Ok(choices)
}

/// Appends the choices of a stage, if there is one.
fn push_stage(
    alloc: Global,
    choices: &mut Vec<Choice>,
    disk: &MemoryDisk,
    stage: usize,
    cutting: Cutting<'_>,
) -> Result<(), AllocError> {
    let store = disk.pending(stage, Name::Store)?;
    let next = disk.pending(stage, Name::Next)?;
    let (Some(store), Some(next)) = (store, next) else {
        return Ok(());
    };
    let stores = cutting.of_store(alloc, store)?;
    let nexts = cutting.of_next(alloc, next)?;
    for store in &stores {
        push_row(choices, stage, *store, &nexts)?;
    }
    Ok(())
}

/// Appends the choices of a stage with this cut of `store.yaml`.
fn push_row(
    choices: &mut Vec<Choice>,
    stage: usize,
    store: (usize, usize),
    nexts: &[(usize, usize)],
) -> Result<(), AllocError> {
    for next in nexts {
        let cuts = Cuts { store, next: *next };
        choices.push(Choice { stage, cuts })?;
    }
    Ok(())
}
