// What a crash leaves, as a test chooses it.

/// What a crash of the machine leaves.
#[derive(Clone, Copy, Debug)]
pub struct Crash<'a> {
    /// Of which stage the names are, by its place among those since the last sync of the folder, oldest first, from 0.
    pub stage: usize,
    /// What is left of the file under `store.yaml` at that stage. Where there is none, this says nothing.
    pub store: Torn<'a>,
    /// What is left of the file under `next.yaml` at that stage. Where there is none, this says nothing.
    pub next: Torn<'a>,
    /// The bytes of the copy that is found, if there is one.
    pub copy: Option<&'a [u8]>,
    /// What `store.lock` says, by its place among what it said since its last sync, oldest first, from 0.
    pub note: usize,
}

/// What a crash leaves of a file: the bytes of a version that the device surely has, and then some of the pending ones.
#[derive(Clone, Copy, Debug)]
pub struct Torn<'a> {
    /// Of which version they are, by its place among those that the name may lead to, oldest first, from 0. A file has
    /// more than one from the moment when a copy takes its name to the next sync of the folder.
    pub version: usize,
    /// As many pending bytes are left as this is long. A byte is as it was where it says `true`, and zero where it says
    /// `false`.
    pub kept: &'a [bool],
}
