// A folder in memory, and what its files hold.
use crate::calls::FusedStore;
use conf_disk::{Content, Cuts, Disk, DiskFault, Holes, Name};
use conf_journal::STORE_LIMIT;
use conf_store::{OpenFault, Opened, Store, create_store, read_state};
use probe_words::{meant, measured};
use std::alloc::{AllocError, Global};
use std::mem;
use test_disks::{Fuse, FusedDisk, MemoryDisk};

/// A folder in memory, or the store that is open over it.
#[derive(Drop)]
pub(crate) enum Place {
    Folder(MemoryDisk),
    Open(FusedStore),
}

impl Place {
    /// A folder without a file.
    pub(crate) fn new(alloc: Global) -> Place {
        Place::Folder(MemoryDisk::new(alloc))
    }

    /// Takes the folder out, and leaves one without a file. The store is closed.
    pub(crate) fn take(&mut self, alloc: Global) -> MemoryDisk {
        self.close(alloc).into_inner()
    }

    /// The same, with the fuse of the store's disk. The disk of a folder lets all calls pass.
    pub(crate) fn close(&mut self, alloc: Global) -> FusedDisk<MemoryDisk> {
        match mem::replace(self, Place::new(alloc)) {
            Place::Folder(disk) => FusedDisk::new(disk, u64::MAX, Fuse::Stop),
            Place::Open(store) => store.close(),
        }
    }

    /// Opens the store over a disk, and takes it.
    pub(crate) fn open(
        &mut self,
        alloc: Global,
        disk: FusedDisk<MemoryDisk>,
    ) -> Result<Opened, OpenFault> {
        match Store::open(alloc, disk) {
            Ok((store, opened)) => {
                *self = Place::Open(store);
                Ok(opened)
            }
            Err((disk, fault)) => {
                *self = Place::Folder(disk.into_inner());
                Err(fault)
            }
        }
    }
}

/// Takes a new folder with these files.
pub(crate) fn renew(
    alloc: Global,
    place: &mut Place,
    store: Option<&str>,
    next: Option<&str>,
) -> Result<String, AllocError> {
    let store = bytes_of(alloc, store)?;
    let next = bytes_of(alloc, next)?;
    let answer = lengths(alloc, &store, &next)?;
    *place = Place::Folder(MemoryDisk::with_files(alloc, store, next)?);
    Ok(answer)
}

/// Takes a new folder with this `store.yaml`, of which it is noted that several appends may have waited for one sync.
pub(crate) fn noted(alloc: Global, place: &mut Place, store: &str) -> Result<String, AllocError> {
    let store = bytes_of(alloc, Some(store))?;
    let answer = lengths(alloc, &store, &None)?;
    *place = Place::Folder(MemoryDisk::left_by_crash(alloc, store, None, true));
    Ok(answer)
}

/// The length of each file.
fn lengths(
    alloc: Global,
    store: &Option<Vec<u8>>,
    next: &Option<Vec<u8>>,
) -> Result<String, AllocError> {
    match (store, next) {
        (Some(store), Some(next)) => format!(in alloc; "{} {}", store.len(), next.len()),
        (Some(store), None) => format!(in alloc; "{}", store.len()),
        _ => String::from_str(alloc, "no file"),
    }
}

/// The bytes that a written text means, if there is one.
fn bytes_of(alloc: Global, written: Option<&str>) -> Result<Option<Vec<u8>>, AllocError> {
    match written {
        Some(written) => Ok(Some(meant(alloc, written)?.into_bytes())),
        None => Ok(None),
    }
}

/// Opens the store over a disk that lets so many calls pass.
pub(crate) fn open(
    alloc: Global,
    place: &mut Place,
    calls: u64,
    fuse: Fuse,
) -> Result<String, AllocError> {
    let disk = FusedDisk::new(place.take(alloc), calls, fuse);
    match place.open(alloc, disk) {
        Ok(Opened { commands, dropped }) => format!(in alloc;
            "commands {commands}, dropped {dropped}"
        ),
        Err(fault) => format!(in alloc; "{fault:?}"),
    }
}

/// Makes a store of the state that the written text means as a `store.yaml`, over a disk that lets so many calls pass.
pub(crate) fn create(
    alloc: Global,
    place: &mut Place,
    calls: u64,
    fuse: Fuse,
    written: &str,
) -> Result<String, AllocError> {
    let text = meant(alloc, written)?.into_bytes();
    let mut source = MemoryDisk::with_files(alloc, Some(text), None)?;
    let state = match read_state(alloc, &mut source) {
        Ok((state, _)) => state,
        Err(fault) => return format!(in alloc; "{fault:?}"),
    };
    let disk = FusedDisk::new(place.take(alloc), calls, fuse);
    match create_store(alloc, disk, &state) {
        Ok(disk) => {
            *place = Place::Folder(disk.into_inner());
            String::from_str(alloc, "made")
        }
        Err((disk, fault)) => {
            *place = Place::Folder(disk.into_inner());
            format!(in alloc; "{fault:?}")
        }
    }
}

/// The length of a file, and its text unless it is long.
pub(crate) fn shown(alloc: Global, place: &mut Place, name: Name) -> Result<String, AllocError> {
    let mut disk = place.take(alloc);
    let read = disk.read(alloc, name, STORE_LIMIT);
    *place = Place::Folder(disk);
    content_of(alloc, read)
}

/// What a read returned: the length, and the text unless it is long.
fn content_of(alloc: Global, read: Result<Content, DiskFault>) -> Result<String, AllocError> {
    match read {
        Ok(Content::Bytes(bytes)) => measured(alloc, &bytes),
        Ok(Content::Missing) => String::from_str(alloc, "no file"),
        Ok(Content::TooLong) => String::from_str(alloc, "too long"),
        Err(fault) => format!(in alloc; "{fault:?}"),
    }
}

/// Takes the image of a stage that keeps no pending byte. Where there is none the folder stays.
pub(crate) fn image(alloc: Global, place: &mut Place, stage: u64) -> Result<String, AllocError> {
    let disk = place.take(alloc);
    let image = disk.image(stage as usize, Cuts::default())?;
    left(alloc, place, disk, image)
}

/// Takes the image of a stage that keeps all pending bytes of `store.yaml`, with so many zeros from one of them on.
/// Where there is none the folder stays.
pub(crate) fn worn(
    alloc: Global,
    place: &mut Place,
    stage: u64,
    first: u64,
    count: u64,
) -> Result<String, AllocError> {
    let disk = place.take(alloc);
    let stage = stage as usize;
    let holes = Holes {
        store: run_of(alloc, first, count)?,
        next: Vec::new(alloc),
    };
    let image = match disk.pending(stage, Name::Store)? {
        Some(keep) => {
            let cuts = Cuts {
                store: (keep, 0),
                next: (0, 0),
            };
            disk.image_with_holes(stage, cuts, &holes)?
        }
        None => None,
    };
    left(alloc, place, disk, image)
}

/// So many places from a first one on.
fn run_of(alloc: Global, first: u64, count: u64) -> Result<Vec<usize>, AllocError> {
    let mut places = Vec::new(alloc);
    for place in first..first.saturating_add(count) {
        places.push(place as usize)?;
    }
    Ok(places)
}

/// Takes the image of a disk, or the disk again where there is none.
fn left(
    alloc: Global,
    place: &mut Place,
    disk: MemoryDisk,
    image: Option<MemoryDisk>,
) -> Result<String, AllocError> {
    let (left, answer) = match image {
        Some(image) => (image, "an image"),
        None => (disk, "no image"),
    };
    *place = Place::Folder(left);
    String::from_str(alloc, answer)
}
