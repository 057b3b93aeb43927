// Calls of the system as data.
use file_calls::Rights;

/// A call that changes something.
#[derive(Drop)]
pub(crate) enum Change {
    CreateBeside(Rights),
    CreateGiven(Rights),
    Write(Vec<u8>),
    GiveOwner(u32, u32),
    GiveGroup(u32),
    SetMode(u32),
    SyncNew,
    Rename,
    UnlinkBeside,
    UnlinkGiven,
    SyncFolder,
}

/// A call that was made.
#[derive(Drop)]
pub(crate) struct Made {
    pub(crate) change: Change,
    /// How far it came, if it failed.
    pub(crate) failed: Option<usize>,
}
