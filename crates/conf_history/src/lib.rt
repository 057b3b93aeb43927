//! What a store's file `store.yaml` held at each of its commands.
//!
//! The file is read once from its start, by any reader, and never changed. So it can be read while a session holds the
//! store: what was read is then the base and the first of the records
//! ([`reading_beside_a_writer`]).
//!
//! - [`state_at`] returns the state after all commands, or after the one with a number.
//! - [`config_at`] returns one configuration of it, and [`names_at`] the names of all, without building the others.
//! - [`config_in`] returns one configuration of bytes that were read before.
//! - [`write_log`] writes which commands the file holds: lines, JSON ([`log_lines_are_json`]), or their records.
//! - [`find_in_store`] says what an opening would find, also in a damaged file. [`survey_store`] adds the state.
//! - [`salvage`] makes a new store of what stands before the damage.
//! - [`back_up`] makes a new store with the same base and records.
#![tactic(auto)]

mod asked;
mod base;
mod bytes_reading;
mod copying;
mod fault;
mod following;
mod json_line;
mod laws;
mod line;
mod log;
mod logged;
mod output;
mod part_reading;
mod place;
mod reading;
mod replayed;
mod saving;
mod survey;
mod walk;

pub use bytes_reading::config_in;
pub use conf_store::NoRecord;
pub use copying::back_up;
pub use fault::{HistoryFault, SalvageFault};
pub use following::BadKind;
pub use laws::{log_lines_are_json, reading_beside_a_writer};
pub use line::{LineForm, USUAL_KEYS};
pub use log::{LogForm, LogRequest, write_log};
pub use part_reading::{config_at, names_at};
pub use place::{BadPiece, Zeros};
pub use reading::state_at;
pub use saving::salvage;
pub use survey::{Bad, Findings, Survey, find_in_store, survey_store};
