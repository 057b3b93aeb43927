//! A disk over single calls of the system.
//!
//! [`SystemDisk`] makes the calls of [`Disk`](conf_disk::Disk) by those of a [`System`](conf_system::System). If the
//! system is honest, so is the disk, whatever calls fail, on their way or after it, and wherever a run is killed.
//!
//! A file of which a sync failed may lack bytes on the device that no later sync writes. So no sync is made again: a
//! copy takes the file's place. The note in `store.lock` tells the next run.
#![tactic(auto)]

mod copying;
mod disk;
mod opening;
mod reading;
mod refusal;
mod run;
mod writing;

pub use disk::{DiskState, SystemDisk};
pub use opening::{Unopened, crashes_are_safe};
pub use refusal::{Place, Refusal};
