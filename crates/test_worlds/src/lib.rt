//! A world for tests: folders with disks in memory, and files.
//!
//! [`MemoryWorld`] is one over any disk that a new folder can have. [`memory_runs_hold`] says what runs of the program
//! keep in it, and [`memory_reads_see_writes`] what they read. [`system_runs_hold`] and [`system_reads_see_writes`] say
//! the same of the disk of `conf_protocol` over a system in memory, which is honest.
#![tactic(auto)]

mod file;
mod laws;
mod new_disk;
mod places;
mod world;

pub use file::MemoryFile;
pub use laws::{
    memory_reads_see_writes, memory_runs_hold, memory_worlds_keep_folders, system_reads_see_writes,
    system_runs_hold,
};
pub use new_disk::{NewDisk, NewSystem};
pub use world::MemoryWorld;
