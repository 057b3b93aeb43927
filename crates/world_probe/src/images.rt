// The images that a crash may leave of a folder. Each is opened, and its state looked up in the history of the folder.
use crate::histories::{History, Span};
use crate::states::told;
use crate::tears::{Tear, each_tear};
use crate::world::MemoryWorld;
use crate::wrong::Wrong;
use conf_system::FileName;
use probe_words::Zeros;
use std::alloc::{AllocError, Global};
use test_system::{Crash, MemorySystem, Torn};

/// More versions than any file here has.
const VERSIONS: usize = 16;

/// What a copy has that a crash leaves.
const COPY: &[u8] = b"x";

/// A folder whose run was cut off.
#[derive(Clone, Copy)]
pub(crate) struct Stopped<'a> {
    pub(crate) alloc: Global,
    pub(crate) system: &'a MemorySystem,
    /// Which zeros a crash leaves.
    pub(crate) zeros: Zeros,
    /// The states that it may have.
    pub(crate) span: Span,
}

/// The version of `store.yaml` at a stage.
#[derive(Clone, Copy)]
struct Place {
    stage: usize,
    version: usize,
}

/// What is left of a folder. An image with an even number has the oldest note, and no copy. One with an odd number has
/// the newest note, and a copy.
#[derive(Clone, Copy, Debug)]
struct Image {
    stage: usize,
    version: usize,
    store: Tear,
    next: Tear,
    number: usize,
}

impl Image {
    /// The folder after the crash that leaves this, if there is such a crash.
    fn made(self, stopped: Stopped<'_>) -> Result<Option<MemorySystem>, AllocError> {
        let store = self.store.kept(stopped.alloc)?;
        let next = self.next.kept(stopped.alloc)?;
        let crash = Crash {
            stage: self.stage,
            store: Torn {
                version: self.version,
                kept: &store,
            },
            next: Torn {
                version: 0,
                kept: &next,
            },
            copy: self.copy(),
            note: self.note(stopped.system.notes()?),
        };
        stopped.system.crashed(&crash)
    }

    /// The bytes of the copy, if there is one.
    fn copy(self) -> Option<&'static [u8]> {
        if self.number % 2 == 0 {
            None
        } else {
            Some(COPY)
        }
    }

    /// The place of the note among so many.
    fn note(self, count: usize) -> usize {
        if self.number % 2 == 0 {
            0
        } else {
            count.saturating_sub(1)
        }
    }
}

/// Opens the images that a crash leaves of a folder.
pub(crate) fn open_images(stopped: Stopped<'_>, history: &mut History) -> Result<(), Wrong> {
    for stage in 0..stopped.system.stages()? {
        open_stage(stopped, stage, history)?;
    }
    Ok(())
}

/// Opens the images of a stage, in each version of `store.yaml`, or once where there is none.
fn open_stage(stopped: Stopped<'_>, stage: usize, history: &mut History) -> Result<(), Wrong> {
    open_place(stopped, Place { stage, version: 0 }, history)?;
    for version in 1..VERSIONS {
        let place = Place { stage, version };
        if pending_in_store(stopped, place)?.is_some() {
            open_place(stopped, place, history)?;
        }
    }
    Ok(())
}

/// How many bytes of `store.yaml` are pending, if there is one.
fn pending_in_store(stopped: Stopped<'_>, place: Place) -> Result<Option<usize>, AllocError> {
    stopped
        .system
        .pending(place.stage, FileName::Store, place.version)
}

/// How many bytes of `next.yaml` are pending, if there is one.
fn pending_in_next(stopped: Stopped<'_>, place: Place) -> Result<Option<usize>, AllocError> {
    stopped.system.pending(place.stage, FileName::Next, 0)
}

/// Opens the images of a version: each tear of one file with each of the other.
fn open_place(stopped: Stopped<'_>, place: Place, history: &mut History) -> Result<(), Wrong> {
    let Stopped { alloc, zeros, .. } = stopped;
    let store = pending_in_store(stopped, place)?.unwrap_or(0);
    let next = pending_in_next(stopped, place)?.unwrap_or(0);
    let stores = each_tear(alloc, store, zeros)?;
    let nexts = each_tear(alloc, next, zeros)?;
    for (number, store) in stores.iter().enumerate() {
        let first = Image {
            stage: place.stage,
            version: place.version,
            store: *store,
            next: NONE,
            number,
        };
        open_row(stopped, first, &nexts, history)?;
    }
    Ok(())
}

/// What is left of no pending bytes.
const NONE: Tear = Tear::Cut { kept: 0, zeros: 0 };

/// Opens the images that differ from the first in what is left of `next.yaml`.
fn open_row(
    stopped: Stopped<'_>,
    first: Image,
    nexts: &[Tear],
    history: &mut History,
) -> Result<(), Wrong> {
    for (number, next) in nexts.iter().enumerate() {
        let image = Image {
            next: *next,
            number: first.number.saturating_add(number),
            ..first
        };
        open_image(stopped, image, history)?;
    }
    Ok(())
}

/// Opens an image, if a crash can leave it.
fn open_image(stopped: Stopped<'_>, image: Image, history: &mut History) -> Result<(), Wrong> {
    let Some(system) = image.made(stopped)? else {
        return Ok(());
    };
    let state = state_of(stopped.alloc, system, &history.path)?;
    if history.note(stopped.span, &state) {
        return Ok(());
    }
    Err(Wrong::State(format!(in stopped.alloc; "{image:?}: {state}")?))
}

/// The state of a folder that a crash left, once it is opened in a world of its own.
fn state_of(alloc: Global, system: MemorySystem, path: &str) -> Result<String, AllocError> {
    let mut world = MemoryWorld::new(alloc, usize::MAX);
    world.put_folder(path, system)?;
    told(alloc, &mut world, path)
}
