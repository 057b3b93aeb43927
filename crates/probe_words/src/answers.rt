// Answers that several probes give.
use std::alloc::{AllocError, Global};
use std::fmt::Debug;

/// A value as its `Debug` shows it.
pub fn shown<T: Debug>(alloc: Global, value: &T) -> Result<String, AllocError> {
    format!(in alloc; "{value:?}")
}

/// The answer to words that are no order.
pub fn no_order(alloc: Global) -> Result<String, AllocError> {
    String::from_str(alloc, "no order")
}

/// The answer if a text is written wrongly, or has no such place.
pub fn no_place(alloc: Global) -> Result<String, AllocError> {
    String::from_str(alloc, "no place")
}

/// The answer to a text that has a wrong escape.
pub fn wrong_escape(alloc: Global) -> Result<String, AllocError> {
    String::from_str(alloc, "wrong escape")
}
