//! Configurations: trees of texts that are good to keep, and edits of them.
//!
//! A [`Config`] is a tree within [`Limits`] in whose mappings no key comes twice; its length in the one style is kept
//! with it. An [`Edit`] is planned before it is made: the plan has the length after the edit, in bytes, and the places
//! of the path's steps, so that a configuration that would be too long is never made and no key is searched for twice.
//! [`set_len`] and [`delete_len`] are the lengths alone.
#![tactic(auto)]

mod change;
mod config;
mod edit;
mod limits;
mod measure;
mod reads;
mod tally;
mod undo;

pub use change::{Change, Slot};
pub use config::Config;
pub use edit::Edit;
pub use limits::{Limits, limits_of_a_configuration, limits_that_are_kept};
pub use measure::{Plan, delete_len, plan_delete, plan_set, set_len};
pub use undo::Undo;
pub use yaml_events::{Brief, ReadFault};
