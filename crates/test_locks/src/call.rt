// Calls on locks as data.

/// A call that changes something. Files go by numbers, from 0.
#[derive(Clone, Copy, Debug, PartialEq, Eq)]
pub enum LockCall {
    /// A run locks a file.
    LockFile(usize),
    /// A run locks the folder, for itself alone.
    LockFolder,
    /// A run locks the folder, to share it.
    ShareFolder,
    /// A run makes `store.lock`, which is the file with this number.
    Make(usize),
    /// A run removes `store.lock`.
    Remove,
    /// A run marks a file.
    Mark(usize),
    /// A run lets a file go.
    LetGoFile(usize),
    /// A run lets the folder go, which it held alone.
    LetGoFolder,
    /// A run lets its share of the folder go.
    LetGoShare,
}

/// A call of another run.
#[derive(Clone, Copy, Debug, PartialEq, Eq)]
pub struct OtherCall {
    /// Before which call of the run it comes, counted from 0.
    pub before: usize,
    /// The number of the other run.
    pub run: usize,
    /// The call.
    pub call: LockCall,
}
