//! What the probes share: programs that answer orders, so that the gate can compare the answers with expected ones.
//!
//! [`answer_lines`] answers each line of standard input, by an [`Answers`]. A line that begins with `#` is a heading,
//! and is answered by itself.
//!
//! In texts and bytes of an order `\n`, `\r`, `\t` and `\0` mean a line feed, a carriage return, a tab and a zero
//! byte, `\\` and `\s` a backslash, and `\xHH` a byte: a `;` is written as `\x3b`. [`escaped`] reads them. [`text_of`]
//! and [`bytes_of`] read runs, too. A run is between two `\*`: a count, a space, and what is repeated so many times, as
//! in `\*1024 x\*`. So a backslash before a star is `\x5c` there. [`words_of`] reads words with a space between them:
//! `\x20` is a space inside a word, and two spaces have an empty word between them.
//!
//! The orders on stores write runs in another way, which [`meant`] reads: `*COUNT*` is so many letters `x`. [`Source`]
//! and [`Sink`] are readers and writers that go in parts, end, or fail. [`each_cut`] and [`whole_cuts`] say what a
//! crash may leave of the pending bytes of a file.
#![tactic(auto)]

mod answers;
mod cuts;
mod escapes;
mod folders;
mod lines;
mod runs;
mod streams;
mod texts;

pub use answers::{no_order, no_place, shown, wrong_escape};
pub use cuts::{Zeros, each_cut, push_cuts, whole_cuts};
pub use escapes::escaped;
pub use folders::{ended, make_folder, remove_folder};
pub use lines::{Answers, answer_lines};
pub use runs::{bytes_of, text_of, words_of};
pub use streams::{Sink, Source};
pub use texts::{meant, measured, number_of};
