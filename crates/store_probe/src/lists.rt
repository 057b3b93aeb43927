// Lists of calls on a store, which are stopped after a disk call. Every image that a crash may leave then is opened.
use crate::choices::Cutting;
use crate::folders::Place;
use crate::images::{Found, Openings, open_images};
use crate::list_calls::{CALLS, Call, open};
use crate::subjects::{ALONE, Counts, Expected, PAIRED, Subject};
use crate::wrong::Wrong;
use std::alloc::{AllocError, Global};
use test_disks::{Fuse, FusedDisk, MemoryDisk};

/// The run of an import, a set, a checkpoint and a delete.
const RUN: [Call; 4] = [Call::Apply, Call::Apply, Call::Checkpoint, Call::Apply];

/// Three commands that are submitted and then flushed.
const SUBMITS: [Call; 4] = [Call::Submit, Call::Submit, Call::Submit, Call::Flush];

/// The greatest length of a list: its count has one digit.
const LENGTH: u64 = 8;

/// What a list leaves: the disk with the counts that a crash may leave, and how many calls the disk let pass if it did
/// not stop.
#[derive(Drop)]
pub(crate) struct Left {
    pub(crate) disk: MemoryDisk,
    pub(crate) counts: Counts,
    passed: u64,
}

/// Makes the calls of a list over a disk that stops after so many calls.
pub(crate) fn run_list(
    alloc: Global,
    subject: &Subject,
    calls: &[Call],
    most_calls: u64,
) -> Result<Left, Wrong> {
    let disk = FusedDisk::new(subject.folder(alloc)?, most_calls, Fuse::Stop);
    let mut place = Place::new(alloc);
    let mut counts = Counts::only(0);
    run_calls(alloc, &mut place, disk, subject, calls, &mut counts)?;
    let disk = place.close(alloc);
    Ok(Left {
        counts,
        passed: disk.passed(),
        disk: disk.into_inner(),
    })
}

/// Opens the store over a disk, and makes the calls.
fn run_calls(
    alloc: Global,
    place: &mut Place,
    disk: FusedDisk<MemoryDisk>,
    subject: &Subject,
    calls: &[Call],
    counts: &mut Counts,
) -> Result<(), Wrong> {
    open(alloc, place, disk, counts)?;
    for call in calls {
        call.make(alloc, place, subject, counts)?;
    }
    Ok(())
}

/// The line of the run that stops after so many calls.
pub(crate) fn crash(alloc: Global, most_calls: u64) -> Result<String, AllocError> {
    match images_after(alloc, &RUN, most_calls, Openings::CutOff) {
        Ok(Found { images, again, .. }) => format!(in alloc; "{images} images, {again} again"),
        Err(wrong) => wrong.line(alloc),
    }
}

/// The line of three commands that wait and are flushed, over a disk that stops after so many calls.
pub(crate) fn waiting(alloc: Global, most_calls: u64) -> Result<String, AllocError> {
    match images_after(alloc, &SUBMITS, most_calls, Openings::Whole) {
        Ok(found) => found.counts_shown(alloc),
        Err(wrong) => wrong.line(alloc),
    }
}

/// The same line, where each submit is taken for a flush. Where a command waits it has to say what is wrong.
pub(crate) fn misjudged(alloc: Global, most_calls: u64) -> Result<String, AllocError> {
    match misjudged_after(alloc, most_calls) {
        Ok(found) => found.counts_shown(alloc),
        Err(wrong) => wrong.line(alloc),
    }
}

/// Stops a list after so many calls, and opens each image that a crash leaves.
fn images_after(
    alloc: Global,
    calls: &[Call],
    most_calls: u64,
    openings: Openings,
) -> Result<Found, Wrong> {
    let Left { disk, counts, .. } = run_list(alloc, &ALONE, calls, most_calls)?;
    images_of(alloc, &disk, counts, openings)
}

/// The same of three commands that wait and are flushed, if each image had to have all that were accepted.
fn misjudged_after(alloc: Global, most_calls: u64) -> Result<Found, Wrong> {
    let Left { disk, counts, .. } = run_list(alloc, &ALONE, &SUBMITS, most_calls)?;
    images_of(alloc, &disk, Counts::only(counts.most), Openings::Whole)
}

/// Opens each image of a disk.
fn images_of(
    alloc: Global,
    disk: &MemoryDisk,
    counts: Counts,
    openings: Openings,
) -> Result<Found, Wrong> {
    let subject = ALONE;
    let expected = Expected { subject, counts };
    let mut found = Found::default();
    open_images(alloc, disk, expected, Cutting::Each, openings, &mut found)?;
    Ok(found)
}

/// How many lists were stopped how often, and the images that were opened.
#[derive(Clone, Copy, Default)]
struct Tally {
    lists: u64,
    stops: u64,
    found: Found,
}

impl Tally {
    /// The line of a tally.
    fn line(self, alloc: Global, openings: Openings) -> Result<String, AllocError> {
        let Tally {
            lists,
            stops,
            found,
        } = self;
        let Found { images, again, .. } = found;
        match openings {
            Openings::Whole => format!(in alloc; "{lists} lists, {stops} stops, {images} images"),
            Openings::CutOff => format!(in alloc;
                "{lists} lists, {stops} stops, {images} images, {again} again"
            ),
        }
    }
}

/// The line of all lists with so many calls, over a store whose checkpoints are two slices. Each is stopped after each
/// disk call of its last call; earlier stops are those of shorter lists.
pub(crate) fn lists(alloc: Global, length: u64, openings: Openings) -> Result<String, AllocError> {
    let length = length.min(LENGTH);
    let mut tally = Tally::default();
    for number in 0..lists_of(length) {
        if let Err(wrong) = try_list(alloc, length, number, openings, &mut tally) {
            return format!(in alloc; "list {number} is wrong: {wrong:?}");
        }
    }
    tally.line(alloc, openings)
}

/// How many lists have so many calls.
fn lists_of(length: u64) -> u64 {
    let mut count = 1u64;
    for _ in 0..length {
        count = count.saturating_mul(CALLS);
    }
    count
}

/// The calls of a list, by which one it is of those with so many.
fn calls_of(alloc: Global, length: u64, number: u64) -> Result<Vec<Call>, AllocError> {
    let mut calls = Vec::new(alloc);
    let mut rest = number;
    for _ in 0..length {
        calls.push(Call::of(rest % CALLS))?;
        rest /= CALLS;
    }
    Ok(calls)
}

/// Stops a list after each disk call of its last call.
fn try_list(
    alloc: Global,
    length: u64,
    number: u64,
    openings: Openings,
    tally: &mut Tally,
) -> Result<(), Wrong> {
    let calls = calls_of(alloc, length, number)?;
    tally.lists = tally.lists.saturating_add(1);
    let first = match calls.as_slice().split_last() {
        Some((_, before)) => run_list(alloc, &PAIRED, before, u64::MAX)?.passed,
        None => 0,
    };
    stop_each(alloc, &calls, first, openings, tally)
}

/// Stops a list after each of its disk calls from the one behind the first so many.
fn stop_each(
    alloc: Global,
    calls: &[Call],
    first: u64,
    openings: Openings,
    tally: &mut Tally,
) -> Result<(), Wrong> {
    let last = run_list(alloc, &PAIRED, calls, u64::MAX)?.passed;
    for passed in first..last {
        let left = run_list(alloc, &PAIRED, calls, passed.saturating_add(1))?;
        tally.stops = tally.stops.saturating_add(1);
        open_records(alloc, &left, openings, &mut tally.found)?;
    }
    Ok(())
}

/// Opens the images of what a list leaves, cut around the ends of the records that wait.
fn open_records(
    alloc: Global,
    left: &Left,
    openings: Openings,
    found: &mut Found,
) -> Result<(), Wrong> {
    let subject = PAIRED;
    let counts = left.counts;
    let ends = subject.record_ends(alloc, counts)?;
    open_images(
        alloc,
        &left.disk,
        Expected { subject, counts },
        Cutting::Records(&ends),
        openings,
        found,
    )
}
