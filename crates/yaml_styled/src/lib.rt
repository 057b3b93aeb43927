//! Trees read from their lines in the one style, in one pass.
//!
//! [`read_value`] reads a value after the `:` of its key, and [`read_styled`] a whole text. What they read is written
//! so in the one style, to the byte; anything else is a [`Miss`], and is left to the general reader. [`skip_value`] and
//! [`skip_styled`] read the same, and make nothing of it. Each gives the [`Size`](yaml_writer::Size) of what it read,
//! which is counted on the way.
#![tactic(auto)]

mod blocks;
mod build;
mod flat;
mod guess;
mod keys;
mod lines;
mod miss;
mod open_keys;
mod pending;
mod read;
mod styled;
mod words;

pub use build::Skipped;
pub use miss::Miss;
pub use styled::{MOST_DEPTH, Styled, read_key, read_styled, read_value, skip_styled, skip_value};
