//! The one style of trees: it writes a tree's text, and counts its bytes without writing it.
//!
//! [`write_style`] writes to a [`Sink`], which may be a buffer, a count ([`ByteCount`]) or a text of limited length
//! ([`LimitedText`]). [`style_len`] is the length of a tree's text, and a [`Size`] says how the length of a part grows
//! with its indentation. [`value_style`] and [`key_style`] say in which [`ScalarStyle`] a text is written.
//! [`stand_alone`] says whether bytes need no escape between double quotes, [`unescaped_len`] how many of a text don't.
#![tactic(auto)]

mod bytes;
mod count;
mod laws;
mod limited;
mod lines;
mod literal;
mod quoted;
mod scalar_style;
mod sink;
mod size;
mod style;
mod text_sink;

pub use count::{ByteCount, style_len};
pub use laws::lengths_follow_indentation;
pub use limited::LimitedText;
pub use quoted::{stand_alone, unescaped_len, write_quoted};
pub use scalar_style::{ScalarStyle, key_style, value_style};
pub use sink::Sink;
pub use size::Size;
pub use style::{write_key, write_scalar, write_style, write_text, write_value};
