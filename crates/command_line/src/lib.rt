//! Reads the words of a command line by a table of [`Argument`]s: options that stand as `--name`, `--name TEXT` and
//! `--name=TEXT`, flags that stand as `-x` too, and texts at places. [`read`] gives [`Matches`], or the first
//! [`Refusal`]. Behind the word `--` each word is the text of a place.
//!
//! The definition `read` of `specs/Words` says which words give what.
#![tactic(auto)]

mod argument;
mod matches;
mod numbers;
mod reader;
mod refusal;
mod words;

pub use argument::{Argument, Form, Relation};
pub use matches::Matches;
pub use reader::read;
pub use refusal::Refusal;
