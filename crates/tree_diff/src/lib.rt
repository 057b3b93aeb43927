//! The edits that make one tree of another, for any program that has two trees: [`diff`] finds them, and each [`Edit`]
//! is a `set` or a `delete` of tree_path at a JSON Pointer (RFC 6901).
#![tactic(auto)]

mod edit;
mod level;
mod pointer;
mod same;
mod tail;
#[cfg(test)]
mod tests;
mod walk;
mod whole;

pub use edit::Edit;
pub use walk::diff;
