// Plain files under paths. What is no plain file, as a link, a FIFO or a folder, is neither opened nor followed.
ghost use Rattle.std.specs.Prelude.{◌≢◌, IfErr};
ghost use Rattle.std.specs.IoError.{error_kind};

use crate::cause::{Cause, Subject};
use std::fs::{File, Metadata, OpenOptions};
use std::io::ErrorKind;
use std::os::unix::fs::MetadataExt;
use std::rt::Files;
use std::{fs, io};

/// How often a file is looked for that is another one when it is opened.
const MOST_LOOKS: u32 = 100;

/// Which file or folder of the system it is, whatever its paths are.
#[derive(Clone, Copy, PartialEq, Eq)]
pub struct Identity {
    device: u64,
    number: u64,
}

impl Identity {
    /// The identity of what is described.
    pub fn of(metadata: &Metadata) -> Identity {
        Identity {
            device: metadata.dev(),
            number: metadata.ino(),
        }
    }
}

/// What is known of the plain file under a path, if anything is there.
///
/// # Errors
/// If what is there is no plain file, or the system refuses.
pub fn look<R: Files<File = File>>(rt: &R, path: &str) -> io::Result<Option<Metadata>>
    ensures { IfErr result (λ error. error_kind error ≢ ErrorKind.NotFound) }
{
    match fs::symlink_metadata(rt, path) {
        Ok(metadata) if metadata.is_file() => Ok(Some(metadata)),
        Ok(metadata) => Err(no_plain_file(&metadata)),
        Err(error) if error.kind() == ErrorKind::NotFound => Ok(None),
        Err(error) => Err(error),
    }
}

/// Finds that the plain file under a path is the one of this identity.
///
/// # Errors
/// If it is another one, nothing or no plain file is there, or the system refuses.
pub fn find_same<R: Files<File = File>>(rt: &R, path: &str, identity: Identity) -> io::Result<()> {
    match look(rt, path)? {
        Some(found) if Identity::of(&found) == identity => Ok(()),
        _ => Err(elsewhere_by_now()),
    }
}

/// The error of something that is there, and is no plain file.
pub(crate) fn no_plain_file(found: &Metadata) -> io::Error
    ensures { error_kind result ≢ ErrorKind.NotFound }
{
    if found.is_dir() {
        io::Error::new(ErrorKind::IsADirectory, "it is a folder")
    } else if found.is_symlink() {
        io::Error::new(
            ErrorKind::InvalidInput,
            "it is a link, which is not followed",
        )
    } else {
        io::Error::new(ErrorKind::InvalidInput, "it is no plain file")
    }
}

/// The error of a name that leads to another file or folder than before, or to none.
pub(crate) fn elsewhere_by_now() -> io::Error
    ensures { error_kind result ≢ ErrorKind.NotFound }
{
    io::Error::new(ErrorKind::InvalidInput, "its name leads elsewhere by now")
}

/// Opens the plain file under a path, which is the one that was looked at before. Returns `None` if it is another one
/// by now.
///
/// # Errors
/// `NotFound` if nothing is there. If it is no plain file, or the system refuses.
fn open_seen<R: Files<File = File>>(
    rt: &R,
    how: &OpenOptions,
    path: &str,
) -> io::Result<Option<File>> {
    let Some(found) = look(rt, path)? else {
        return Err(io::Error::new(ErrorKind::NotFound, "no such file"));
    };
    let file = how.open(rt, path)?;
    if Identity::of(&file.metadata()?) == Identity::of(&found) {
        Ok(Some(file))
    } else {
        Ok(None)
    }
}

/// Opens the plain file under a path. It is the file that was looked at before.
///
/// # Errors
/// `NotFound` if nothing is there. If it is no plain file, or another one by now, or the system refuses.
pub fn open_plain<R: Files<File = File>>(
    rt: &R,
    how: &OpenOptions,
    path: &str,
) -> io::Result<File> {
    match open_seen(rt, how, path)? {
        Some(file) => Ok(file),
        None => Err(elsewhere_by_now()),
    }
}

/// Opens the plain file under a path for reading. If another run puts a file in its place meanwhile, it opens that one.
///
/// # Errors
/// `NotFound` if nothing is there. If it is no plain file, or another one each time, or the system refuses.
pub fn open_to_read<R: Files<File = File>>(rt: &R, path: &str) -> io::Result<File> {
    let mut how = OpenOptions::new();
    how.read(true);
    for _ in 0..MOST_LOOKS {
        if let Some(file) = open_seen(rt, &how, path)? {
            return Ok(file);
        }
    }
    Err(elsewhere_by_now())
}

/// Makes an empty file at a path that a user names, where nothing may be, for those whom the umask allows. What is
/// there already, also a link, is neither followed nor changed.
///
/// # Errors
/// If something is there, or the system refuses.
pub fn create_empty<R: Files<File = File>>(rt: &R, path: &str) -> Result<(), Cause> {
    let mut how = OpenOptions::new();
    how.write(true).create_new(true);
    Subject::Given.blame(how.open(rt, path))?;
    Ok(())
}

/// Opens what is at a path that a user names, to be read. A link is followed, and a FIFO or a device is opened.
///
/// # Errors
/// If nothing is there, it is a folder, or the system refuses.
pub fn open_input<R: Files<File = File>>(rt: &R, path: &str) -> Result<File, Cause> {
    let file = Subject::Given.blame(File::open(rt, path))?;
    let found = Subject::Given.blame(file.metadata())?;
    if found.is_dir() {
        return Err(Subject::Given.cause(no_plain_file(&found)));
    }
    Ok(file)
}
