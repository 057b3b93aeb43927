//! The texts of a store: a base holds a whole state, and a record one command with its number.
//!
//! A base has a [`Format`]. [`base_text`] and [`record_text`] write them, [`read_base`] and [`read_record`] read them,
//! in any spelling. The laws say that what is written is read back, and that bytes are at most one base and one record.
//! They also say where documents end, even in a file that a crash has cut. [`BaseText`] keeps a base as its text, and
//! builds a configuration only when it is asked for.
//!
//! The states and commands are those of `conf_state`, which can be named from here too.
//!
//! [`keys_are`], [`next_text`], [`last_text`], [`last_value`] and [`part`] take such a document's mapping apart, for
//! readers of other documents. The functions of [`lines`] cut its lines without the general reader. An edit is read in
//! one place, whatever its document: by [`members_from`] of its mapping, by [`cut_edit`] of its lines.
#![tactic(auto)]

mod base_reader;
mod base_spans;
mod base_writer;
mod command_reader;
mod documents;
mod edit_lines;
mod edit_members;
mod entries;
mod fields;
mod format;
mod held_base;
mod laws;
pub mod lines;
mod next_record;
mod parts;
mod read;
mod record;
mod record_sink;
mod written;
mod written_base;

pub use base_writer::{base_start, base_text};
pub use conf_state::{Command, Edit, Names, Room, State, StoreFault, good_name, step};
pub use documents::{documents_are_read, documents_close};
pub use edit_lines::{Place, cut_edit, cut_element};
pub use edit_members::{EditMembers, members_from};
pub use fields::{is_same, keys_are, last_text, last_value, next_text, number_from, split_first};
pub use format::Format;
pub use held_base::BaseText;
pub use laws::{formats_are_told, records_read};
pub use next_record::{NoNext, read_next};
pub use parts::part;
pub use read::{read_base, read_record};
pub use record::{record_length, record_of_length, record_text, short_record};
pub use yaml_styled::Miss;
