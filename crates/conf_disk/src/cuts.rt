// Where a crash cuts the files of a folder, and where it leaves zeros in them.
/// How each file of a stage is cut: how many of its pending bytes are kept, and how many zeros follow them. For a name
/// under which the stage has no file it is `(0, 0)`.
#[derive(Clone, Copy, Debug, Default, PartialEq, Eq)]
pub struct Cuts {
    /// How many pending bytes of the file under `Store` are kept, and how many zeros follow.
    pub store: (usize, usize),
    /// How many pending bytes of the file under `Next` are kept, and how many zeros follow.
    pub next: (usize, usize),
}

/// Where each file of a stage has zeros in place of pending bytes that are kept: their places, counted from 0 at the
/// first pending byte. A place that is not kept counts for nothing.
#[derive(Debug, Drop)]
pub struct Holes {
    /// The places in the file under `Store`.
    pub store: Vec<usize>,
    /// The places in the file under `Next`.
    pub next: Vec<usize>,
}
