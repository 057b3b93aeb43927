//! One folder as the kernel and the device hold it, and the single calls of the system that change it.
//!
//! [`System`] says of each call what it is trusted to do, beside the page of the manual that says so. A kill leaves
//! what was at some moment of a call. A crash of the machine leaves of each file the bytes that the device surely has,
//! and then pending ones, each as it was or zero.
//!
//! The laws are what follows from the model alone. One says what the machine is as a folder of
//! [`Disk`](conf_disk::Disk).
#![tactic(auto)]

mod laws;
mod system;

pub use laws::{
    calls_are_steps, calls_keep_machines_sound, calls_leave_no_other_image, crashes_are_images,
    failed_syncs_last, images_are_stable, on_the_device_is_left, prefixes_are_left,
    reading_is_left, syncs_leave_less,
};
pub use system::{FileName, Linking, Note, System};
