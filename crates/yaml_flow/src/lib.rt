//! The scanner of flow nodes: scalars and the collections between brackets (YAML 1.2.2, chapter 7).
//!
//! [`flow_node`] reads the flow node at a place of a text, which counts bytes from 0, and appends its events. It does
//! not recurse: the open brackets are on a stack of its own. So deeper nesting takes more memory, but no deeper call
//! stack. [`scalar_at`] reads the flow scalar at a place.
#![tactic(auto)]

mod collection;
mod node;
mod pair;
mod push;
mod refusals;
mod scalar;

pub use node::flow_node;
pub use pair::{KEY_LIMIT, key_limit};
pub use scalar::{FlowScalar, scalar_at};
