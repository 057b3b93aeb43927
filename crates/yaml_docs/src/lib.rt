//! Streams of documents (YAML 1.2.2, chapter 9), and the closing lines between consecutive texts.
//!
//! [`events`] reads bytes as a stream, and returns its events or the reason why they are refused. [`next_close`] finds
//! closing lines, and a [`Cutter`] cuts bytes that come in parts after each of them. [`Pieces`] does so with the bytes
//! of a reader. [`place_at`] gives the line and the column of a byte. [`write_or_count`] writes the bytes of an answer.
#![tactic(auto)]

mod closing;
mod cutter;
mod directive;
mod documents;
mod laws;
mod output;
mod pieces;
mod place;
mod read;

pub use closing::next_close;
pub use cutter::{CutFault, Cutter, Fed};
pub use laws::nodes_are_at_their_places;
pub use output::write_or_count;
pub use pieces::{Pieces, PiecesFault};
pub use place::{Place, place_at};
pub use read::events;
pub use yaml_events::{Brief, ReadFault};
