//! A scanner of block nodes: block sequences and mappings, and the scalars and flow nodes in them (YAML 1.2.2, 8.1 and
//! 8.2).
//!
//! [`block_node`] reads a text once, line by line, with a stack of the collections that are open. What a line says,
//! whether a collection goes on, begins, or has its part left out, is found without a state.
#![tactic(auto)]

mod block;
mod first_key;
mod frame;
mod indentation;
mod leaf;
mod line;
mod line_sign;
mod line_value;
mod nested_key;
mod next_line;
mod node;
mod pair;
mod reader;
mod refusals;
mod scalar;
mod sign;
mod unwind;

pub use node::block_node;
