//! Scanners of flow scalars: plain, in single quotes and in double quotes (YAML 1.2.2, 7.3).
//!
//! Each call looks for a scalar of its own kind at one place of a text, and returns its value and its end. A place
//! counts the bytes of the text from 0, and is on a boundary of a character. Contracts say what is at a place in terms
//! of the grammar's definitions, as `specs/Standing.antt` shows.
#![tactic(auto)]

mod double_quoted;
mod fold;
mod plain_scalar;
mod single_quoted;
mod unclosed;

pub use double_quoted::double;
pub use plain_scalar::{plain, plain_first_line_end, plain_line_end};
pub use single_quoted::single;
