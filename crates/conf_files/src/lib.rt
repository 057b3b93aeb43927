//! Files and folders that a user names, reached so that nobody can put another one in their place.
//!
//! [`OpenFolder`] is a folder that is open, with a path that leads to it whatever becomes of its name. [`look`],
//! [`open_plain`] and [`open_to_read`] use plain files alone: a link, a FIFO or a folder is neither followed nor
//! opened. [`open_input`] opens what a user names, only to be read, and [`create_empty`] makes an empty file there.
//!
//! [`open_to_replace`] opens a file to be read, and [`replace_file`] puts a file of other bytes in its place. A crash
//! at any moment leaves the old file or the new one, whole. [`create_file`] makes a file where nothing is yet. What
//! they do is [`replace_with`] and [`create_with`], which are proved over the calls of the system that [`file_calls`]
//! lists with what each is trusted to do. [`take_after`] gives a new file the owner, the group and the mode of the one
//! that it replaces.
//!
//! A call that fails says why in an [`io::Error`](std::io::Error), or in a [`Cause`], which also says for which file.
#![tactic(auto)]

mod cause;
mod create;
mod folder;
mod owner;
mod place;
mod plain;
mod replace;
mod rights;
mod writing;

pub use cause::{Cause, ShownCause, Subject};
pub use create::{NewFileFault, create_with};
pub use folder::{OpenFolder, parent_of};
pub use owner::{OWNER_ALONE, give_owner_and_group, is_of_same_owner_and_group, take_after};
pub use place::{Place, create_file, open_to_replace, replace_file};
pub use plain::{Identity, create_empty, find_same, look, open_input, open_plain, open_to_read};
pub use replace::{ReplaceFault, replace_with};
