//! Pointers into a tree, as JSON Pointer (RFC 6901) writes them: a [`Path`] is a list of tokens, and [`Path::parse`]
//! reads one. [`is_pointer`] tests whether a text is one. [`PathFault`] says why a text is no pointer, or which step of
//! a path leads to nothing.
#![tactic(auto)]

mod fault;
mod laws;
mod path;
mod pointer;

pub use fault::PathFault;
pub use laws::text_is_read_back;
pub use path::Path;
pub use pointer::is_pointer;
