//! Conditions on the state of a store, for changes that are made only if nobody came between.
//!
//! [`check`] judges conditions in order. A caller does so right before a command, on the state that the command finds,
//! and performs the command only if all of them hold. [`index_for`] makes that faster where it is done again and again.
#![tactic(auto)]

mod checking;
mod condition;
mod fault;
mod indexing;
mod laws;
mod same_tree;

pub use checking::check;
pub use condition::Condition;
pub use fault::ConditionFault;
pub use indexing::{LARGE, index_for};
pub use laws::{conditions_hold, same_trees_are_equal};
