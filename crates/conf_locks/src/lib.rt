//! The locks by which one run at a time changes a store.
//!
//! [`take_locks`] takes the lock on a folder's `store.lock`, and one on the folder, by single calls of a
//! [`LockSystem`], between which other runs may make any of theirs. The law [`runs_exclude`] says that a run which
//! holds a store keeps out all others until it lets go, whatever calls they make, if each keeps to the rules that the
//! calls require.
#![tactic(auto)]

mod laws;
mod system;
mod taking;

pub use laws::runs_exclude;
pub use system::{LockSystem, Locking, Making, Opening};
pub use taking::{LockPlace, NotTaken, Origin, take_locks};
