//! A file that a person names, and a new one beside it, as the kernel and the device hold them, and the single calls of
//! the system that change them.
//!
//! [`FileCalls`] says of each call what it is trusted to do, beside the page of the manual that says so. A kill leaves
//! what was at some moment of a call. A crash of the machine leaves of each file the bytes that the device surely has,
//! and then pending ones, each as it was or zero. Who may use a file after a crash is not part of the model.
#![tactic(auto)]

mod calls;
mod laws;

pub use calls::{Creation, FileCalls, Rights};
pub use laws::{calls_leave_no_other_image, on_the_device_is_left, reading_is_left};
