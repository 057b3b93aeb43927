//! Trees of texts, without their limits: what holds a text, how deep a tree is, its copy, and whether the keys of its
//! mappings differ.
#![tactic(auto)]

mod keys;
mod prints;
mod short;
mod text;
mod tree;

pub use keys::{has_distinct_keys, keys_differ};
pub use text::Text;
pub use tree::Tree;
