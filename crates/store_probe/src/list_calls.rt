// The calls of a list, and what each of them does to a store and to the counts beside it.
use crate::calls::FusedStore;
use crate::folders::Place;
use crate::subjects::{Counts, Subject};
use crate::wrong::Wrong;
use conf_state::StoreFault;
use conf_store::{OpenFault, Progress};
use std::alloc::Global;
use test_disks::{FusedDisk, MemoryDisk};

/// A call of a list.
#[derive(Clone, Copy)]
pub(crate) enum Call {
    /// Submits the next command.
    Submit,
    /// Flushes what waits.
    Flush,
    /// Begins a checkpoint, or writes the next slice of the one that runs.
    Slice,
    /// Makes a checkpoint.
    Checkpoint,
    /// Performs the next command.
    Apply,
    /// Closes the store and opens it.
    Reopen,
}

/// How many calls there are.
pub(crate) const CALLS: u64 = 6;

impl Call {
    /// The call of a number below that.
    pub(crate) fn of(number: u64) -> Call {
        match number {
            0 => Call::Submit,
            1 => Call::Flush,
            2 => Call::Slice,
            3 => Call::Checkpoint,
            4 => Call::Apply,
            _ => Call::Reopen,
        }
    }

    /// Makes the call, unless the disk has stopped. The counts are then those that a crash may leave.
    pub(crate) fn make(
        self,
        alloc: Global,
        place: &mut Place,
        subject: &Subject,
        counts: &mut Counts,
    ) -> Result<(), Wrong> {
        let Place::Open(store) = place else {
            return Ok(());
        };
        let answer = match self {
            Call::Submit => submit(alloc, store, subject, counts),
            Call::Flush => flushed(store.flush(), counts),
            Call::Slice => slice(store, counts),
            Call::Checkpoint => flushed(store.checkpoint(), counts),
            Call::Apply => apply(alloc, store, subject, counts),
            Call::Reopen => return reopen(alloc, place, counts),
        };
        let count = store.count();
        if answer == Err(StoreFault::Device) {
            *place = Place::Folder(place.take(alloc));
        }
        accepted(answer, count, *counts)
    }
}

/// After a call the store's count is that of all accepted commands, and the call is refused only by the disk.
fn accepted(answer: Result<(), StoreFault>, count: u64, counts: Counts) -> Result<(), Wrong> {
    match answer {
        _ if count != counts.most => Err(Wrong::Count(count)),
        Ok(()) | Err(StoreFault::Device) => Ok(()),
        Err(fault) => Err(Wrong::Call(fault)),
    }
}

/// Submits the next command. It is accepted, whether the disk stops or not.
fn submit(
    alloc: Global,
    store: &mut FusedStore,
    subject: &Subject,
    counts: &mut Counts,
) -> Result<(), StoreFault> {
    let command = subject.command(alloc, counts.most)?;
    counts.most = counts.most.saturating_add(1);
    match store.submit(7, command) {
        Ok(_) => Ok(()),
        Err(fault) => Err(fault),
    }
}

/// Performs the next command. It is accepted, whether the disk stops or not.
fn apply(
    alloc: Global,
    store: &mut FusedStore,
    subject: &Subject,
    counts: &mut Counts,
) -> Result<(), StoreFault> {
    let command = subject.command(alloc, counts.most)?;
    counts.most = counts.most.saturating_add(1);
    match store.apply(command) {
        Ok(_) => flushed(Ok(()), counts),
        Err(fault) => Err(fault),
    }
}

/// Begins a checkpoint, or writes the next slice of the one that runs. With the last one all commands are flushed.
fn slice(store: &mut FusedStore, counts: &mut Counts) -> Result<(), StoreFault> {
    match begin_or_slice(store) {
        Ok(true) => flushed(Ok(()), counts),
        Ok(false) => Ok(()),
        Err(fault) => Err(fault),
    }
}

/// Begins a checkpoint, or writes the next slice of the one that runs. Returns whether it is done.
pub(crate) fn begin_or_slice(store: &mut FusedStore) -> Result<bool, StoreFault> {
    if store.running() {
        let progress = store.slice()?;
        return Ok(progress == Progress::Done);
    }
    store.begin_checkpoint()?;
    Ok(false)
}

/// After `Ok` all accepted commands are flushed.
fn flushed(answer: Result<(), StoreFault>, counts: &mut Counts) -> Result<(), StoreFault> {
    if answer.is_ok() {
        counts.least = counts.most;
    }
    answer
}

/// Closes the store and opens it: what waits is then flushed.
fn reopen(alloc: Global, place: &mut Place, counts: &mut Counts) -> Result<(), Wrong> {
    let disk = place.close(alloc);
    open(alloc, place, disk, counts)
}

/// Opens the store over a disk, which may stop.
pub(crate) fn open(
    alloc: Global,
    place: &mut Place,
    disk: FusedDisk<MemoryDisk>,
    counts: &mut Counts,
) -> Result<(), Wrong> {
    match place.open(alloc, disk) {
        Ok(_) => {
            counts.least = counts.most;
            is_anew(place, counts.most)
        }
        Err(OpenFault::Device) => Ok(()),
        Err(fault) => Err(Wrong::Open(fault)),
    }
}

/// A store that was opened has all commands, and no checkpoint runs.
fn is_anew(place: &Place, count: u64) -> Result<(), Wrong> {
    match place {
        Place::Open(store) if store.count() == count && !store.running() => Ok(()),
        Place::Open(store) => Err(Wrong::Count(store.count())),
        Place::Folder(_) => Err(Wrong::NotOpen),
    }
}
