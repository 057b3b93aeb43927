// A folder that is open, and reached by its own name.
ghost use Rattle.std.specs.Prelude.{◌≢◌, IfErr};
ghost use Rattle.std.specs.IoError.{error_kind};

use crate::plain::{Identity, elsewhere_by_now};
use std::alloc::{AllocError, Global};
use std::fs::File;
use std::io::ErrorKind;
use std::os::fd::AsRawFd;
use std::path::Path;
use std::rt::Files;
use std::{fs, io};

/// A folder that is open until it is dropped, and a path to it.
///
/// The path is that of the open folder under /proc, which leads to it even if it is moved, or another folder is put in
/// its place. Where there is no /proc, it is the path that was given, which may come to lead to another folder.
#[derive(Drop)]
pub struct OpenFolder {
    file: File,
    identity: Identity,
    path: String,
}

impl OpenFolder {
    /// Opens the folder at a path.
    ///
    /// # Errors
    /// If there is no folder at the path, the system refuses, or there is no memory for a path.
    pub fn new<R: Files<File = File>>(rt: &R, alloc: Global, path: &str) -> io::Result<OpenFolder> {
        let (file, identity) = open_folder(rt, path)?;
        let path = lasting_path(rt, alloc, &file, identity, path)?;
        Ok(OpenFolder {
            file,
            identity,
            path,
        })
    }

    /// The open folder, to be locked or looked at.
    pub fn file(&self) -> &File {
        &self.file
    }

    /// The path of a file in the folder.
    ///
    /// # Errors
    /// If there is no memory for it.
    pub fn path_of(&self, alloc: Global, name: &str) -> Result<String, AllocError> {
        let folder = self.path.as_str();
        format!(in alloc; "{folder}/{name}")
    }

    /// Finds that the path still leads to the folder.
    ///
    /// # Errors
    /// If it doesn't, or the system refuses. It is never `NotFound`, which callers have of a file in the folder.
    pub fn find_in_place<R: Files<File = File>>(&self, rt: &R) -> io::Result<()>
        ensures { IfErr result (λ error. error_kind error ≢ ErrorKind.NotFound) }
    {
        match fs::metadata(rt, self.path.as_str()) {
            Ok(found) if Identity::of(&found) == self.identity => Ok(()),
            Err(error) if error.kind() != ErrorKind::NotFound => Err(error),
            Ok(_) | Err(_) => Err(elsewhere_by_now()),
        }
    }

    /// Syncs the folder.
    ///
    /// # Errors
    /// If the system refuses.
    pub fn sync(&self) -> io::Result<()> {
        self.file.sync_all()
    }
}

/// The path of the folder that has a path's last part.
pub fn parent_of(path: &str) -> &str {
    match Path::new(path).parent() {
        Some(parent) if !parent.as_str().is_empty() => parent.as_str(),
        _ => ".",
    }
}

/// Opens the folder at a path, if it is one: anything else is not opened, since that might wait.
fn open_folder<R: Files<File = File>>(rt: &R, path: &str) -> io::Result<(File, Identity)> {
    let found = fs::metadata(rt, path)?;
    if !found.is_dir() {
        return Err(io::Error::new(ErrorKind::NotADirectory, "it is no folder"));
    }
    let file = File::open(rt, path)?;
    let identity = Identity::of(&file.metadata()?);
    if identity == Identity::of(&found) {
        Ok((file, identity))
    } else {
        Err(elsewhere_by_now())
    }
}

/// The path of an open folder under /proc, if there is one, or else the one that is given.
fn lasting_path<R: Files<File = File>>(
    rt: &R,
    alloc: Global,
    file: &File,
    identity: Identity,
    given: &str,
) -> Result<String, AllocError> {
    let descriptor = file.as_raw_fd();
    let path = format!(in alloc; "/proc/self/fd/{descriptor}")?;
    if leads_to(rt, path.as_str(), identity) {
        Ok(path)
    } else {
        String::from_str(alloc, given)
    }
}

/// Whether a path leads to the file or folder of this identity.
fn leads_to<R: Files<File = File>>(rt: &R, path: &str, identity: Identity) -> bool {
    match fs::metadata(rt, path) {
        Ok(found) => Identity::of(&found) == identity,
        Err(_) => false,
    }
}
