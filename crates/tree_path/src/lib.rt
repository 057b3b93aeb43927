//! What paths do in trees of texts: the value at a path, and the edits of a tree there. A path is what a JSON Pointer
//! (RFC 6901) means.
#![tactic(auto)]

mod edit;
mod key_index;
mod key_table;
mod laws;
mod place;
mod step_places;
mod undo;

pub use edit::{at, at_by, delete, delete_planned, set, set_planned};
pub use json_pointer::{Path, PathFault, text_is_read_back};
pub use key_index::KeyIndex;
pub use laws::{keys_stay_distinct, set_is_found};
pub use place::{Miss, child, child_at, child_in, key_in, step_place};
pub use step_places::{Known, StepPlaces};
pub use undo::{Undo, set_undoable, undo_set};
