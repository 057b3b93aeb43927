//! A folder with two files as the store sees it: what is read, and what a crash of the machine may leave.
//!
//! [`Disk`] states the model. [`Cuts`] and [`Holes`] say where a crash cuts the files of a stage and leaves zeros.
#![tactic(auto)]

mod cuts;
mod disk;
mod laws;

pub use cuts::{Cuts, Holes};
pub use disk::{Content, Disk, DiskFault, Name};
pub use laws::{
    calls_leave_no_other_image, images_are_cuts, images_are_stable, reading_is_an_image,
    what_reads_may_be_left,
};
