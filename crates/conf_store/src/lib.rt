//! A crash-safe store of named configurations in a folder.
//!
//! [`Store::open`] reads the state that `store.yaml` means. Commands change the state, and each adds a record to the
//! file:
//!
//! - [`Store::apply`] and [`Store::import`] perform one command and sync it. It is acknowledged when they return `Ok`.
//! - [`Store::submit`] performs a command without a sync: it waits. [`Store::flush`] acknowledges all commands that
//!   wait, by one sync.
//!
//! A checkpoint puts a base of the state in the place of the base and the records. [`Store::checkpoint`] does so in one
//! call. [`Store::begin_checkpoint`] and [`Store::slice`] write the new file in slices, and commands go on between
//! them.
//!
//! [`read_state`] reads the state of a folder and changes nothing, also where nothing can be written. [`create_store`]
//! makes a store of a state where there is none.
//!
//! [`replay_record`] performs one record on what is [`Replayed`], and [`replay_records`] all of them, for whoever goes
//! over a store's file. [`has_zero`] and [`is_record`] say of a piece that is not the next record whether a crash may
//! have left it; [`Waiting`] says whether several records may have waited for one sync.
//!
//! After a crash at any moment, opening finds the state after a prefix of the accepted commands, with every command
//! that was acknowledged ([`lives_hold`]).
#![tactic(auto)]

mod accepting;
mod base_file;
mod checkpoints;
mod commands;
mod creating;
mod cutting;
mod fault;
mod holes;
mod importing;
mod laws;
mod opening;
mod part_text;
mod pending;
mod reading;
mod records;
mod recovery;
mod slicing;
mod staging;
mod store;
mod waiting;

pub use base_file::replace_store;
pub use creating::{CreateFault, create_store, find_no_store};
pub use fault::OpenFault;
pub use holes::{has_zero, is_record};
pub use importing::import_command;
pub use laws::{
    bytes_mean_one_state, holes_mean, lives_hold, old_stores_read, one_state_is_flushed,
    records_are_measured,
};
pub use reading::read_state;
pub use records::{NoRecord, OnRefusal, RecordFault, Replayed, replay_record};
pub use recovery::{Opened, replay_records};
pub use slicing::Progress;
pub use store::Store;
pub use waiting::Waiting;
