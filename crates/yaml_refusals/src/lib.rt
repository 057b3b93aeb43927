//! Where a text is refused, why in detail, and what to do about it.
//!
//! [`read_one`](yaml_tree::read_one) answers a text that it refuses by the name of a fault. [`Refusal::of`] looks at
//! the text once more and finds the place at fault, and what helps the person who writes the text: of a key that is
//! there twice its name and the first place, of a text that is too long its size, of a malformed line what it looks
//! like. [`Refusal::brief`] is a line for an editor, `Display` a sentence, and an [`Excerpt`] shows the line of the
//! text with a mark under the place. [`first_comment`] finds what a text that is read would lose in the one style.
//!
//! No definition says which place and which detail a text gets. So this crate is tested, and its proofs say that it is
//! safe and ends. Its running time is linear in the text, but for the keys of mappings, which are kept in order.
#![tactic(auto)]

mod brief;
mod comments;
mod detail;
mod excerpt;
mod hint;
mod hint_words;
mod keys;
mod left_out;
mod line;
mod nodes;
mod refusal;
mod remedies;
mod spot;

pub use brief::RefusalBrief;
pub use comments::first_comment;
pub use detail::Detail;
pub use excerpt::Excerpt;
pub use hint::Hint;
pub use left_out::LeftOut;
pub use refusal::Refusal;
pub use remedies::remedy;
pub use yaml_docs::Place;
pub use yaml_events::{ReadFault, Why};
pub use yaml_tree::Limits;
