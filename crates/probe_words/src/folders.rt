// Folders of the system.
use std::alloc::{AllocError, Global};
use std::fs::File;
use std::rt::Files;
use std::{fs, io};

/// Makes a folder, and those around it.
pub fn make_folder<R: Files<File = File> + Alloc>(
    rt: &R,
    alloc: Global,
    name: &str,
) -> Result<String, AllocError> {
    ended(alloc, fs::create_dir_all(rt, name))
}

/// Removes a folder with all that is in it.
pub fn remove_folder<R: Files<File = File> + Alloc>(
    rt: &R,
    alloc: Global,
    name: &str,
) -> Result<String, AllocError> {
    ended(alloc, fs::remove_dir_all(rt, name))
}

/// The answer for how a call of the system ended.
pub fn ended(alloc: Global, outcome: io::Result<()>) -> Result<String, AllocError> {
    match outcome {
        Ok(()) => String::from_str(alloc, "ok"),
        Err(_) => String::from_str(alloc, "failed"),
    }
}
