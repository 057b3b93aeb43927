//! Other forms of what a tree holds: its JSON text, the one style with plain numbers, and the keys of a collection as
//! lines.
//!
//! [`json`] is the JSON text of a tree (RFC 8259, [`json_is_json`]), which is YAML too and gives the same tree
//! ([`json_reads`]).
//! [`write_json`] and [`write_json_string`] write it to a [`Sink`](yaml_writer::Sink), and a [`TextArray`] is the JSON
//! text of a sequence of texts, without its tree. [`plain`] is the one style, but numbers, truth values and null stand
//! plain, for readers with types; it gives the same tree ([`plain_reads`]). [`keys`] are the keys of a mapping, or the
//! indexes of a sequence, a line each, and are read back from these lines ([`keys_are_read_back`]).
#![tactic(auto)]

mod json_string;
mod json_tree;
mod key_lines;
mod keys_fault;
mod laws;
mod plain_form;
mod shown;
mod text_array;
mod typed;

pub use json_string::write_json_string;
pub use json_tree::{json, json_line, write_json};
pub use key_lines::keys;
pub use keys_fault::KeysFault;
pub use laws::{
    json_is_json, json_presents, json_reads, keys_are_read_back, plain_presents, plain_reads,
};
pub use plain_form::{plain, write_plain};
pub use text_array::TextArray;
