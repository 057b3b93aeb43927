// Calls of the system as data.
use conf_system::{FileName, Note};

/// A call that changes something.
#[derive(Drop)]
pub(crate) enum Change {
    CreateNext,
    CreateCopy,
    Write(FileName, Vec<u8>),
    WriteRest(FileName, Vec<u8>),
    Sync(FileName),
    RenameNext,
    LinkNext,
    UnlinkNext,
    PlaceCopy,
    UnlinkCopy,
    SyncFolder,
    WriteNote(Note),
    SyncNote,
}

/// What was asked of the system.
#[derive(Drop)]
pub(crate) enum Made {
    /// A call that changes something, and how far it came if it failed.
    Called {
        change: Change,
        failed: Option<usize>,
    },
    /// The note was read, from when on the run goes by it.
    NoteRead,
    /// The note was to be read, and the call failed.
    NoteUnread,
}
