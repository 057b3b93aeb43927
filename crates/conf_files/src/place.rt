// A name in an open folder, and the file that it leads to: the calls of the system.
use crate::cause::{Cause, Subject};
use crate::create::create_with;
use crate::folder::{OpenFolder, parent_of};
use crate::owner::{ACCESS, OWNER_ALONE};
use crate::plain::{Identity, elsewhere_by_now, find_same, no_plain_file, open_plain};
use crate::replace::replace_with;
use file_calls::{Creation, FileCalls, Rights};
use std::alloc::Global;
use std::fs::{File, Metadata, OpenOptions, Permissions};
use std::io::{ErrorKind, Write};
use std::os::unix::fs::{MetadataExt, OpenOptionsExt, PermissionsExt, fchown};
use std::path::Path;
use std::rt::Files;
use std::{fs, io};

/// Where a file is that was opened to be replaced: in which open folder, under which name, and which file it is.
#[derive(Drop)]
pub struct Place {
    folder: OpenFolder,
    path: String,
    identity: Identity,
}

/// A name that a person gave of a file, in an open folder, and a new file, once it is made.
///
/// It claims nothing of the system. Each call is one of the system that changes something, with looks before it.
#[derive(Drop)]
struct HostFile<'h, R> {
    rt: &'h R,
    alloc: Global,
    folder: &'h OpenFolder,
    /// The path of the name.
    path: &'h str,
    /// Which file had the name when it was opened to be replaced.
    identity: Option<Identity>,
    /// The new file, and its path, if it is beside the other.
    new: Option<NewFile>,
}

/// A new file that is open, and its path.
#[derive(Drop)]
struct NewFile {
    file: File,
    path: Option<String>,
}

/// Makes a file of these bytes at a path, and syncs it and its folder, as [`create_with`] does.
///
/// # Errors
/// The cause, which comes to
/// - [`NewFileFault::FileExists`](crate::NewFileFault::FileExists) if something is at the path;
/// - [`NewFileFault::Device`](crate::NewFileFault::Device) if there is no such folder, the path names no file, or a
///   call of the system fails;
/// - [`NewFileFault::OutOfMemory`](crate::NewFileFault::OutOfMemory) if there is no memory for a path.
///
/// No file is left then, if the new one can be removed; it is the whole file if its folder could not be synced.
pub fn create_file<R: Files<File = File>>(
    rt: &R,
    alloc: Global,
    path: &str,
    bytes: &[u8],
) -> Result<(), Cause> {
    let (folder, path) = open_parent(rt, alloc, path)?;
    let mut host = HostFile {
        rt,
        alloc,
        folder: &folder,
        path: path.as_str(),
        identity: None,
        new: None,
    };
    create_with(&mut host, bytes)
}

/// Puts a file that has these bytes in the place of a file that was opened to be replaced, as [`replace_with`] does.
///
/// Whoever can change the folders on the path can't have another folder's file replaced: all is done in the folder that
/// was opened, by its own name, and the name in it has to have the file that was opened. Where there is no /proc, the
/// path is looked at before each step.
///
/// # Errors
/// The cause, which comes to
/// - [`ReplaceFault::Device`](crate::ReplaceFault::Device) if another file has the name by now, the file may not be
///   written, or a call of the system fails: the file is the old one, or the new one if its folder can't be synced;
/// - [`ReplaceFault::OutOfMemory`](crate::ReplaceFault::OutOfMemory) if there is no memory for a path: the file is the
///   old one.
///
/// Nothing else is left in the folder then, if the new file can be removed.
pub fn replace_file<R: Files<File = File>>(
    rt: &R,
    alloc: Global,
    place: &Place,
    bytes: &[u8],
) -> Result<(), Cause> {
    let mut host = HostFile {
        rt,
        alloc,
        folder: &place.folder,
        path: place.path.as_str(),
        identity: Some(place.identity),
        new: None,
    };
    replace_with(&mut host, bytes)
}

/// Opens the folder that has a path's last part, and returns it with the path of that in it.
fn open_parent<R: Files<File = File>>(
    rt: &R,
    alloc: Global,
    path: &str,
) -> Result<(OpenFolder, String), Cause> {
    let Some(name) = Path::new(path).file_name() else {
        let error = io::Error::new(ErrorKind::InvalidInput, "it names no file");
        return Err(Subject::Given.cause(error));
    };
    let folder = Subject::Parent.blame(OpenFolder::new(rt, alloc, parent_of(path)))?;
    let path = folder.path_of(alloc, name)?;
    Ok((folder, path))
}

/// Opens the plain file at a path to be read, and the folder that has it, so that
/// [`replace_file`](crate::replace_file) replaces this very file. If the path is a link, it is the file that the link
/// leads to. What is no plain file is not opened.
///
/// # Errors
/// The cause, which comes to
/// - [`ReplaceFault::Device`](crate::ReplaceFault::Device) if there is no plain file at the path, or the system
///   refuses;
/// - [`ReplaceFault::OutOfMemory`](crate::ReplaceFault::OutOfMemory) if there is no memory for a path.
pub fn open_to_replace<R: Files<File = File>>(
    rt: &R,
    alloc: Global,
    path: &str,
) -> Result<(File, Place), Cause> {
    let found = Subject::Given.blame(fs::metadata(rt, path))?;
    if !found.is_file() {
        return Err(Subject::Given.cause(no_plain_file(&found)));
    }
    if Subject::Given
        .blame(fs::symlink_metadata(rt, path))?
        .is_symlink()
    {
        let target = Subject::Given.blame(fs::canonicalize(&(rt, alloc), path))?;
        return open_in_folder(rt, alloc, target.as_path().as_str());
    }
    open_in_folder(rt, alloc, path)
}

/// Opens the file at a path that is no link, in the open folder that has it.
fn open_in_folder<R: Files<File = File>>(
    rt: &R,
    alloc: Global,
    path: &str,
) -> Result<(File, Place), Cause> {
    let (folder, path) = open_parent(rt, alloc, path)?;
    let mut how = OpenOptions::new();
    how.read(true);
    let file = Subject::Given.blame(open_plain(rt, &how, path.as_str()))?;
    let identity = Identity::of(&Subject::Given.blame(file.metadata())?);
    Ok((
        file,
        Place {
            folder,
            path,
            identity,
        },
    ))
}

/// Who may use a file.
fn rights_of(found: &Metadata) -> Rights {
    Rights {
        owner: found.uid(),
        group: found.gid(),
        mode: found.mode() & ACCESS,
    }
}

/// The error of a call on a new file that was not made.
fn not_made() -> io::Error {
    io::Error::new(ErrorKind::NotFound, "it is not made")
}

impl<R: Files<File = File>> HostFile<'_, R> {
    /// Makes an empty file, where nothing may be. Nobody but its owner has access.
    fn open_new(&self, path: &str) -> io::Result<File> {
        let mut how = OpenOptions::new();
        how.write(true).create_new(true).mode(OWNER_ALONE);
        how.open(self.rt, path)
    }

    /// The new file.
    fn new_file(&mut self) -> io::Result<&mut File> {
        match &mut self.new {
            Some(new) => Ok(&mut new.file),
            None => Err(not_made()),
        }
    }

    /// The path of the new file beside the other.
    fn beside(&self) -> io::Result<&str> {
        match &self.new {
            Some(
                NewFile {
                    path: Some(path),
                    ..
                },
            ) => Ok(path.as_str()),
            _ => Err(not_made()),
        }
    }

    /// Finds that a file is the one that was opened.
    fn find_identity(&self, found: &Metadata) -> io::Result<()> {
        if self.identity == Some(Identity::of(found)) {
            Ok(())
        } else {
            Err(elsewhere_by_now())
        }
    }

    /// Finds that the file that was opened still has its name, in the folder that the path leads to.
    fn find_there(&self) -> io::Result<()> {
        let Some(identity) = self.identity else {
            return Err(elsewhere_by_now());
        };
        find_same(self.rt, self.path, identity)?;
        self.folder.find_in_place(self.rt)
    }
}

impl<R: Files<File = File>> FileCalls for HostFile<'_, R> {
    ghost use Rattle.std.specs.Prelude.{None, [], false};
    ghost use Rattle.conf_system.specs.Machine.{empty_version};
    ghost use Rattle.file_calls.specs.Machine.Leads.{Nothing};

    ghost model = { record {
      honest = ⊥;
      machine = λ place. record {
        old = record { version = empty_version; rights = record { owner = 0; group = 0; mode = 0 } };
        new = None;
        earlier = [];
        now = record { given = Nothing; beside = Nothing };
        is_refused = false;
        is_left = false;
      };
      moment = λ place. 0;
      held = λ place t m. ⊥;
    } };

    ghost holds_now = { λ place t honest le. absurd honest };

    ghost only_now = { λ place m honest held. absurd honest };

    fn old_rights(&mut self) -> io::Result<Rights> {
        self.folder.find_in_place(self.rt)?;
        let mut how = OpenOptions::new();
        how.append(true);
        let file = open_plain(self.rt, &how, self.path)?;
        let found = file.metadata()?;
        self.find_identity(&found)?;
        Ok(rights_of(&found))
    }

    fn create_beside(&mut self, number: u32) -> io::Result<Creation> {
        let name = format!(in self.alloc; ".confstore-{number}.tmp")?;
        let path = self.folder.path_of(self.alloc, name.as_str())?;
        match self.open_new(path.as_str()) {
            Ok(file) => {
                self.new = Some(NewFile {
                    file,
                    path: Some(path),
                });
                Ok(Creation::Made)
            }
            Err(error) if error.kind() == ErrorKind::AlreadyExists => Ok(Creation::Taken),
            Err(error) => Err(error),
        }
    }

    fn create_given(&mut self) -> io::Result<()> {
        let file = self.open_new(self.path)?;
        self.new = Some(NewFile { file, path: None });
        Ok(())
    }

    fn write(&mut self, bytes: &[u8]) -> io::Result<usize> {
        let file = self.new_file()?;
        for _ in 0..u64::MAX {
            match file.write(bytes) {
                Err(error) if error.kind() == ErrorKind::Interrupted => {}
                done => return done,
            }
        }
        Err(io::Error::from(ErrorKind::Interrupted))
    }

    fn new_rights(&mut self) -> io::Result<Rights> {
        Ok(rights_of(&self.new_file()?.metadata()?))
    }

    fn give_owner(&mut self, owner: u32, group: u32) -> io::Result<()> {
        fchown(&*self.new_file()?, Some(owner), Some(group))
    }

    fn give_group(&mut self, group: u32) -> io::Result<()> {
        fchown(&*self.new_file()?, None, Some(group))
    }

    fn set_mode(&mut self, mode: u32) -> io::Result<()> {
        self.new_file()?
            .set_permissions(Permissions::from_mode(mode))
    }

    fn sync_new(&mut self) -> io::Result<()> {
        self.new_file()?.sync_all()
    }

    fn rename(&mut self) -> io::Result<()> {
        let beside = self.beside()?;
        self.find_there()?;
        fs::rename(self.rt, beside, self.path)
    }

    fn unlink_beside(&mut self) -> io::Result<()> {
        fs::remove_file(self.rt, self.beside()?)
    }

    fn unlink_given(&mut self) -> io::Result<()> {
        fs::remove_file(self.rt, self.path)
    }

    fn sync_folder(&mut self) -> io::Result<()> {
        self.folder.sync()
    }
}
