//! Trees of texts, the ones that may be kept, and how the one style writes them.
//!
//! A [`Tree`] is any tree, a [`Config`] one within limits in whose mappings no key comes twice. [`read_one`] reads a
//! text as one. [`write_style`] writes a tree's text in the one style to a [`Sink`], which may be a buffer or a count;
//! [`style_len`] is the text's length. A [`Document`] is a text that was read, and writes that text to a [`Sink`]
//! without building the tree. [`format_one`] returns it.
//!
//! A text that stands in the one style is read in one pass over its lines, by `yaml_styled`. Of any other text a tree
//! is built from the events of its document, by a loop with a stack. Before that it is known how many values each
//! collection has, so that memory for them is taken once.
#![tactic(auto)]

mod documents;
mod format;
mod in_style;
mod kept;
mod open_text;
mod parts;
mod read;
mod read_laws;
mod sizes;

pub use documents::Document;
pub use format::format_one;
pub use read::read_one;
pub use read_laws::{bytes_give_one, refused_bytes_give_none};
pub use yaml_config::{Config, Limits, limits_of_a_configuration, limits_that_are_kept};
pub use yaml_data::{Text, Tree};
pub use yaml_events::{Brief, ReadFault};
pub use yaml_writer::{
    ByteCount, ScalarStyle, Sink, Size, key_style, lengths_follow_indentation, style_len,
    value_style, write_key, write_style, write_text, write_value,
};
