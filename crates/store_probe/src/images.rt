// The images of what is left when a store stops. Each is opened, and its store goes on.
//
// Of `n` pending bytes a crash keeps the first ones and puts zeros after them, together no more than `n`. That is
// `(n + 1) * (n + 2) / 2` images: those that keep `k` bytes are as many as there are numbers of zeros from 0 to
// `n - k`. An opening that changes no file makes three calls, and is cut off before each: that leaves 3 images. One
// that writes a base makes nine, and leaves 15: 1 after each call up to the fourth, and 2, 3, 2 and 3 after the next
// four. With a file that is left over, which the fourth call removes, it is 20.
use crate::calls::FusedStore;
use crate::choices::{Choice, Cutting, choices};
use crate::list_calls::begin_or_slice;
use crate::subjects::{Expected, opened};
use crate::wrong::Wrong;
use conf_store::Store;
use std::alloc::{AllocError, Global};
use test_disks::{Fuse, FusedDisk, MemoryDisk};

/// The most disk calls of an opening: two syncs, a read, four for the staged file and two for the swap.
const OPENING: u64 = 9;

/// The most slices that a checkpoint here has.
const SLICES: u64 = 2;

/// Whether the openings of images are cut off, too.
#[derive(Clone, Copy)]
pub(crate) enum Openings {
    Whole,
    CutOff,
}

/// How many images were opened, how many of them had so many commands, from none to three, and how many were opened
/// after their openings were cut off.
#[derive(Clone, Copy, Default)]
pub(crate) struct Found {
    pub(crate) images: u64,
    pub(crate) counts: [u64; 4],
    pub(crate) again: u64,
}

impl Found {
    /// Counts an image with so many commands.
    pub(crate) fn note(&mut self, count: u64) {
        self.images = self.images.saturating_add(1);
        if let Some(images) = self.counts.get_mut(count as usize) {
            *images = images.saturating_add(1);
        }
    }

    /// The words for how many images had how many commands.
    pub(crate) fn counts_shown(self, alloc: Global) -> Result<String, AllocError> {
        let [none, one, two, three] = self.counts;
        format!(in alloc; "images with 0 to 3 commands: {none}, {one}, {two}, {three}")
    }
}

/// Opens the images of a disk.
pub(crate) fn open_images(
    alloc: Global,
    disk: &MemoryDisk,
    expected: Expected,
    cutting: Cutting<'_>,
    openings: Openings,
    found: &mut Found,
) -> Result<(), Wrong> {
    for choice in &choices(alloc, disk, cutting)? {
        let count = open_choice(alloc, disk, *choice, expected)?;
        found.note(count);
        if let Openings::CutOff = openings {
            let again = cut_off(alloc, disk, *choice, expected.only(count))?;
            found.again = found.again.saturating_add(again);
        }
    }
    Ok(())
}

/// Opens an image. Returns its count.
fn open_choice(
    alloc: Global,
    disk: &MemoryDisk,
    choice: Choice,
    expected: Expected,
) -> Result<u64, Wrong> {
    match choice.image(disk)? {
        Some(image) => open_image(alloc, image, expected),
        None => Err(Wrong::NoImage),
    }
}

/// Opens what a crash left. Its store goes on, and the file then has the next command. Returns the count before it.
pub(crate) fn open_image(
    alloc: Global,
    image: MemoryDisk,
    expected: Expected,
) -> Result<u64, Wrong> {
    let mut store = opened(alloc, image)?;
    match go_on(alloc, &mut store, expected) {
        Ok(count) => {
            let next = expected.only(count.saturating_add(1));
            match next.count_of(alloc, store.close().into_inner()) {
                Ok(_) => Ok(count),
                Err(wrong) => Err(wrong),
            }
        }
        Err(wrong) => Err(wrong),
    }
}

/// A store that was opened goes on: a checkpoint begins, also over a file that was left, a command is submitted while
/// it runs, and it is done after some slices. Returns the count before the command.
fn go_on(alloc: Global, store: &mut FusedStore, expected: Expected) -> Result<u64, Wrong> {
    let count = expected.count_in(store)?;
    let _ = begin_or_slice(store)?;
    let _ = store.submit(7, expected.subject.command(alloc, count)?)?;
    for _ in 0..SLICES {
        if store.running() {
            let _ = begin_or_slice(store)?;
        }
    }
    if store.running() {
        Err(Wrong::NotDone)
    } else {
        Ok(count)
    }
}

/// Cuts the opening of an image off after each of its disk calls. Returns how many images that leaves.
fn cut_off(
    alloc: Global,
    disk: &MemoryDisk,
    choice: Choice,
    expected: Expected,
) -> Result<u64, Wrong> {
    let mut images = 0u64;
    for calls in 0..OPENING {
        if let Some(image) = choice.image(disk)? {
            let again = cut_off_after(alloc, image, expected, calls)?;
            images = images.saturating_add(again);
        }
    }
    Ok(images)
}

/// Cuts an opening off after so many calls, and opens what a crash leaves then. Returns how many images that is; none
/// if opening makes no more calls.
fn cut_off_after(
    alloc: Global,
    image: MemoryDisk,
    expected: Expected,
    calls: u64,
) -> Result<u64, Wrong> {
    match Store::open(alloc, FusedDisk::new(image, calls, Fuse::Stop)) {
        Ok(_) => Ok(0),
        Err((disk, _)) => open_left(alloc, &disk.into_inner(), expected),
    }
}

/// Opens the images that keep no pending byte of a file, and those that keep all. Returns how many they are.
fn open_left(alloc: Global, disk: &MemoryDisk, expected: Expected) -> Result<u64, Wrong> {
    let mut images = 0u64;
    for choice in &choices(alloc, disk, Cutting::Whole)? {
        if let Some(image) = choice.image(disk)? {
            let _ = expected.count_of(alloc, image)?;
            images = images.saturating_add(1);
        }
    }
    Ok(images)
}
