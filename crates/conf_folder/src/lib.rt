//! A disk over a real folder.
//!
//! [`FolderDisk`] makes the calls of [`Disk`](conf_disk::Disk) on the files `store.yaml` and `next.yaml` of a folder.
//! It holds a lock on the folder's `store.lock`, and one on the folder, until it is dropped. One for reading alone
//! holds no lock and changes nothing, so it serves for a folder that can't be written. [`open_store_file`] opens the
//! file of a store alone, to be read from its start to its end.
//!
//! [`make_folder`] makes a folder that is to hold one. What it does is [`make_with`], which is proved over the calls of
//! the system that [`FolderCalls`] lists with what each is trusted to do.
//!
//! What fails says why in a [`FolderError`], and a call of the disk in its [`cause`](FolderDisk::cause).
//!
//! The contract of the disk says nothing of what the folder keeps: that a real folder is an honest disk is a premise
//! that nothing here proves.
#![tactic(auto)]

mod calls;
mod disk;
mod fault;
mod files;
mod host;
mod known;
mod lock;
mod making;
mod note;
mod reading;

pub use calls::{FolderCalls, FolderMaking};
pub use disk::FolderDisk;
pub use fault::{FolderError, FolderFault};
pub use making::{NewFolder, make_folder, make_with};
pub use reading::{may_several_wait, open_store_file};
