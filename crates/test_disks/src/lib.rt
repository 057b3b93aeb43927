//! Disks for tests. [`MemoryDisk`] is a folder in memory, and makes each image that a crash may leave. [`FusedDisk`]
//! lets a disk fail at a chosen call.
#![tactic(auto)]

mod folder;
mod fused;
mod marks;
mod memory;

pub use fused::{Fuse, FusedDisk};
pub use memory::MemoryDisk;
