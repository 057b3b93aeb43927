//! What changed between two configurations or two states: the edits of a batch that make the second of the first.
//!
//! [`config_edits`] compares two configurations, [`state_edits`] two states, each as [`tree_diff`] compares two trees.
//! Their laws say that the edits make the second of the first, that what is equal has none, and that they are not much
//! longer than the whole. [`edits_text`] is the list of edits in the one style, as the word `batch` takes it.
//!
//! The laws leave the limits of a configuration aside: on the way from the first to the second one, a configuration may
//! be larger than both, so that a store refuses the batch as too large.
#![tactic(auto)]

mod configs;
mod laws;
mod left;
mod states;
#[cfg(test)]
mod tests;
mod text;

pub use configs::config_edits;
pub use laws::undo_gives_what_was;
pub use states::state_edits;
pub use text::edits_text;
