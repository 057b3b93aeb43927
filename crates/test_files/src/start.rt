// What is there before the first call.
use file_calls::Rights;

/// What a name leads to.
#[derive(Clone, Copy, Debug, PartialEq, Eq)]
pub(crate) enum LeadsTo {
    Nothing,
    Old,
    New,
}

/// The file that is there before the first call, if its name leads to it. The device has all its bytes, and the name.
#[derive(Drop)]
pub(crate) struct Start {
    pub(crate) bytes: Vec<u8>,
    pub(crate) rights: Rights,
    pub(crate) given: LeadsTo,
}
