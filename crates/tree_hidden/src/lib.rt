//! JSON texts of values in which some places are hidden: the word `hidden` stands for what is there.
//!
//! Which places these are is said by paths, each a list of tokens, which [`paths_of_pointers`] makes of pointers
//! (RFC 6901). [`write_shown`] writes the value of a place, without what is at or below one of the paths. No JSON text
//! has the word `hidden` outside a string, so no value can be taken for it.
#![tactic(auto)]

mod json;
mod laws;
mod paths;
mod pointers;

pub use json::write_shown;
pub use laws::nothing_hidden_is_json;
pub use paths::{Tokens, tokens_of};
pub use pointers::{paths_of_pointers, tokens_of_paths};
