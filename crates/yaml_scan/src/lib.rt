//! What a scanner of YAML 1.2.2 asks about a place of a text: whitespace, breaks, signs, markers, comments and gaps.
//!
//! A place counts the bytes of a text from 0, and is on a boundary of a character. The end of the text is such a place.
//! The contracts speak of the characters from a place on, in the words of the recognizers of `yaml_recognizers`. Lemmas
//! that lead from bytes to those words are in `proofs/`. No call but [`push_line_feeds`] allocates.
#![tactic(auto)]

mod blocks;
mod breaks;
mod classes;
mod feeds;
mod gap;
mod lines;
mod runs;
mod signs;

pub use breaks::{Stop, at_most_chars, break_end, has_break, line_starts, stop_at};
pub use classes::{Class, run_end};
pub use feeds::push_line_feeds;
pub use gap::{Gap, gap_end, is_on_one_line};
pub use lines::{Line, comment_line_end, line_after, rest_of_line_end, solid_line};
pub use runs::{is_white, nb_at, nb_end, spaces_end, white_end};
pub use signs::{
    Marker, is_marker, is_marker_of, is_safe, ns_at, safe_at, sign_at, solid_at, stands_at,
    white_at,
};
