// A device that fails while the worked session runs.
use crate::subjects::{Expected, WORKED};
use crate::worked::{COMMANDS, COUNTS, session_line};
use conf_store::{OpenFault, Store};
use probe_words::{Sink, Source};
use std::alloc::{AllocError, Global};
use test_disks::{Fuse, FusedDisk, MemoryDisk};

/// The worked session over a disk that lets so many calls pass. Opening makes nine of them: two syncs, a read, four for
/// the staged file and two for the swap. Each change then appends a record and syncs it: a record that is appended
/// reads, and only its sync keeps it.
pub(crate) fn device(alloc: Global, calls: u64, fuse: Fuse) -> Result<String, AllocError> {
    match Store::open(alloc, FusedDisk::new(MemoryDisk::new(alloc), calls, fuse)) {
        Ok((store, _)) => {
            let source = Source {
                rest: COMMANDS,
                step: usize::MAX,
                fault: None,
            };
            session_line(alloc, WORKED, store, source, Sink::new(alloc, usize::MAX))
        }
        Err((disk, fault)) => refused(alloc, disk.into_inner(), fault),
    }
}

/// The line of an opening that is refused: why, and the count that the folder has then.
fn refused(alloc: Global, disk: MemoryDisk, fault: OpenFault) -> Result<String, AllocError> {
    let expected = Expected {
        subject: WORKED,
        counts: COUNTS,
    };
    match expected.count_of(alloc, disk) {
        Ok(reads) => format!(in alloc; "opening: {fault:?}, reads {reads}"),
        Err(wrong) => wrong.line(alloc),
    }
}
