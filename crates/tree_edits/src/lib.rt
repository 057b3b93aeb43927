//! Edits of a tree that a pointer (RFC 6901) alone cannot say, as a plain `set` or `delete` at one: [`with_parents`]
//! makes the mappings that a pointer needs, [`inserted`] puts a value between the elements of a list, and [`moved`]
//! takes a value to another pointer. They change no tree. Where an edit is not possible, they give the plain one, which
//! whoever performs it refuses.
#![tactic(auto)]

mod changes;
mod fault;
mod index;
mod insertion;
mod laws;
mod moving;
mod parents;
mod pointer;
#[cfg(test)]
mod tests;
mod value;

pub use changes::{Move, PlainSet};
pub use fault::EditFault;
pub use insertion::inserted;
pub use laws::{value_is_between, value_is_found};
pub use moving::moved;
pub use parents::with_parents;
