//! Recognizers of the productions of YAML 1.2.2, as definitions over lists of code points, and laws about them.
//!
//! A recognizer reads the one presentation of its production at the start of a text, and returns the rest of the
//! text. For each production there are three laws. What fits before a text that ends it is found. What is found is a
//! prefix of the text and fits before the rest. So what fits at the start of a text, before texts that end it, is
//! the same.
//!
//! The laws are about presentations in canonical form (`specs/Canonical*`): a line of comments belongs to the first
//! part that may have it. Flow scalars have no comments, and the laws about them are about all their presentations.
//! What ends a part is said in `specs/Ends`; a block scalar and a stream end by themselves.
//!
//! `flow_node_stands` and `block_node_stands` speak of nodes in whatever form, canonical or not. What is found where
//! there is one means the same, and where none is found there is none. `document_node_ends` says that what follows a
//! document ends its node.
//!
//! What follows from them is in `texts`: all presentations of a text, in whatever form, mean the same. The recognizer
//! of streams decides whether a text has one, and finds what it means.
//!
//! `one_style`, `closings` and `zeros` have laws for stores: each tree has a text in the one style, which gives that
//! tree, and closing lines mark exactly the documents that are whole, also in bytes that a crash has cut, or where it
//! has left zeros.
#![tactic(auto)]

pub mod block_nodes;
pub mod block_scalars;
pub mod closings;
pub mod comments;
pub mod flow_nodes;
pub mod flow_scalars;
pub mod one_style;
pub mod streams;
pub mod texts;
pub mod zeros;
