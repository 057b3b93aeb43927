//! The text of a configuration in the one style: the same indentation, quotes and order everywhere.
#![tactic(auto)]

mod text;

pub use text::style_text;
