//! A scanner of block scalars: literal (`|`) and folded (`>`) texts of YAML 1.2.2, 8.1.
//!
//! [`header`] reads the first line of a block scalar, [`literal`] and [`folded`] the lines after it. Comments after a
//! scalar are not part of it. A place counts the bytes of the text from 0, and is on a boundary of a character.
#![tactic(auto)]

mod first_line;
mod indent;
mod line;
mod parts;
mod room;
mod scalar;
mod value;

pub use first_line::header;
pub use parts::{Chomping, Header};
pub use scalar::{folded, least_indent, literal};
