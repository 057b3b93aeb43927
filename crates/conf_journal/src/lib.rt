//! The procedures, of one to three disk calls each, by which a store changes its folder.
//!
//! The contract of each says what is read after `Ok`, and what a crash at any moment since its start leaves under
//! `store.yaml`, whatever it returned.
#![tactic(auto)]

mod laws;
mod next;
mod read;
mod store;

pub use laws::{held_store_is_left, held_store_is_the_only_one, runs_of_calls_are_joined};
pub use next::{append_next, begin_next, finish_next, stage_next, swap_next, sync_next};
pub use read::{STORE_LIMIT, load};
pub use store::{append_closed, append_store, sync_store};
