// The system that runs on: single calls on the files of one open folder.
use crate::files::{Paths, create_staged, has_no_links};
use crate::known::KnownFile;
use crate::lock::HeldLock;
use crate::note::{mark, note_length, read_note};
use conf_files::{Identity, OpenFolder, look, open_plain, open_to_read};
use conf_system::{FileName, Linking, Note, System};
use std::fs::{File, Metadata, OpenOptions};
use std::io::{ErrorKind, Write};
use std::os::unix::fs::FileExt;
use std::rt::Files;
use std::{fs, io};

/// The files of a real folder, by single calls of the system. It claims nothing.
///
/// A call also fails where others have changed a file that this run read or left, or the folder's path leads elsewhere.
#[derive(Drop)]
pub(crate) struct HostSystem<'r, R: Files<File = File>> {
    rt: &'r R,
    folder: OpenFolder,
    paths: Paths,
    /// The open `store.lock`. `None` on a folder that is only read.
    lock: Option<HeldLock>,
    /// Whether the first byte of `store.lock` is known to be that of a note.
    is_marked: bool,
    store: Used,
    next: Used,
    copy: Used,
    /// The file that was opened to be read last.
    reading: Option<File>,
    /// Whether this run made the `next.yaml` that is there.
    is_staged: bool,
    presence: Presence,
    /// The file that a new `store.yaml` takes after where there is none.
    like: Option<Metadata>,
}

/// A file that this run uses.
#[derive(Drop)]
struct Used {
    /// The handle for appending, once it is open.
    file: Option<File>,
    /// The file as this run read or left it, if it did.
    known: Option<KnownFile>,
}

/// What a run knows of whether `store.yaml` is there.
#[derive(Clone, Copy, PartialEq, Eq)]
pub(crate) enum Presence {
    /// It may be there or not.
    Unknown,
    /// It was there, and no run removes it.
    There,
    /// It was not there, and no other run makes it.
    Missing,
}

impl Used {
    fn closed() -> Used {
        Used {
            file: None,
            known: None,
        }
    }

    /// A new file, which is empty.
    fn made(file: File) -> io::Result<Used> {
        let found = file.metadata()?;
        Ok(Used {
            file: Some(file),
            known: Some(KnownFile::new(&found, 0)),
        })
    }

    /// What is known, which is handed over to another name.
    fn take(&mut self) -> Used {
        Used {
            file: self.file.take(),
            known: self.known.take(),
        }
    }
}

/// Writes some of the bytes. An interrupted call is made again.
fn write_some(file: &mut File, bytes: &[u8]) -> io::Result<usize> {
    for _ in 0..u64::MAX {
        match file.write(bytes) {
            Err(error) if error.kind() == ErrorKind::Interrupted => {}
            done => return done,
        }
    }
    Err(io::Error::from(ErrorKind::Interrupted))
}

/// Reads some bytes from a place on. An interrupted call is made again.
fn read_some(file: &File, buffer: &mut [u8], offset: u64) -> io::Result<usize> {
    for _ in 0..u64::MAX {
        match file.read_at(buffer, offset) {
            Err(error) if error.kind() == ErrorKind::Interrupted => {}
            done => return done,
        }
    }
    Err(io::Error::from(ErrorKind::Interrupted))
}

/// Why a call on a file that was not opened fails.
fn not_open() -> io::Error {
    io::Error::new(ErrorKind::InvalidInput, "it is not open")
}

impl<'r, R: Files<File = File>> HostSystem<'r, R> {
    pub(crate) fn new(
        rt: &'r R,
        folder: OpenFolder,
        paths: Paths,
        lock: Option<HeldLock>,
        presence: Presence,
        like: Option<Metadata>,
    ) -> Self {
        HostSystem {
            rt,
            folder,
            paths,
            lock,
            is_marked: false,
            store: Used::closed(),
            next: Used::closed(),
            copy: Used::closed(),
            reading: None,
            is_staged: false,
            presence,
            like,
        }
    }

    /// Ends the run. If there is no `store.yaml`, a `store.lock` and a `next.yaml` that this run made are removed.
    pub(crate) fn finish(&self) {
        let is_made = match &self.lock {
            Some(lock) => lock.is_made(),
            None => false,
        };
        if is_made && self.has_no_store() {
            self.remove_unfinished();
            let _ = fs::remove_file(self.rt, self.paths.lock.as_str());
        }
    }

    /// Removes a `next.yaml` that this run made and didn't rename. Where others have changed it, or the system refuses,
    /// it stays.
    fn remove_unfinished(&self) {
        if self.is_staged && self.find_known(FileName::Next).is_ok() {
            let _ = self.remove(FileName::Next);
        }
    }

    /// Whether there is no `store.yaml`.
    fn has_no_store(&self) -> bool {
        matches!(self.look_at(FileName::Store), Ok(None))
    }

    /// Finds that the path still leads to the folder.
    ///
    /// # Errors
    /// If it doesn't, or the system refuses.
    pub(crate) fn find_in_place(&self) -> io::Result<()> {
        self.folder.find_in_place(self.rt)
    }

    /// The path of a file in the folder.
    ///
    /// # Errors
    /// If the path to the folder leads elsewhere by now.
    fn path(&self, name: FileName) -> io::Result<&str> {
        self.find_in_place()?;
        Ok(self.paths.of(name))
    }

    /// What is known of a file in the folder, if it is there.
    fn look_at(&self, name: FileName) -> io::Result<Option<Metadata>> {
        look(self.rt, self.path(name)?)
    }

    /// Removes a file in the folder.
    fn remove(&self, name: FileName) -> io::Result<()> {
        fs::remove_file(self.rt, self.path(name)?)
    }

    fn used(&mut self, name: FileName) -> &mut Used {
        match name {
            FileName::Store => &mut self.store,
            FileName::Next => &mut self.next,
            FileName::Copy => &mut self.copy,
        }
    }

    /// Takes out the handle for appending to a file, or opens the file if there is none. A caller that succeeds keeps
    /// the handle; after a failure it is closed.
    fn take_handle(&mut self, name: FileName) -> io::Result<File> {
        match self.used(name).file.take() {
            Some(file) => Ok(file),
            None => open_plain(self.rt, OpenOptions::new().append(true), self.path(name)?),
        }
    }

    /// Adds some of the bytes to a file.
    fn write_some(&mut self, name: FileName, bytes: &[u8]) -> io::Result<usize> {
        let mut file = self.take_handle(name)?;
        let known = self.used(name).known.take();
        let count = write_some(&mut file, bytes)?;
        let used = self.used(name);
        used.file = Some(file);
        used.known = known.and_then(|known| known.longer(count));
        Ok(count)
    }

    /// Finds that the file under a name is as this run read or left it, if it did.
    ///
    /// # Errors
    /// If others have changed it, or the system refuses.
    fn find_known(&self, name: FileName) -> io::Result<()> {
        let used = match name {
            FileName::Store => &self.store,
            FileName::Next => &self.next,
            FileName::Copy => &self.copy,
        };
        match used.known {
            Some(known) => known.find_at(self.rt, self.paths.of(name)),
            None => Ok(()),
        }
    }

    /// Returns if `store.yaml` may be there, or be missing, as it was found.
    ///
    /// # Errors
    /// If it was missing before and this run has not made it, or was there: then the system has said something false,
    /// or another program has removed it.
    fn find_presence(&self, is_there: bool) -> io::Result<()> {
        match (self.presence, is_there) {
            (Presence::Missing, true) => {
                Err(io::Error::new(ErrorKind::AlreadyExists, "it was not there before"))
            }
            (Presence::There, false) => {
                Err(io::Error::new(ErrorKind::NotFound, "it was there before"))
            }
            _ => Ok(()),
        }
    }

    /// Makes an empty file. It takes after the `store.yaml` that it is to replace, or else after the file that a new
    /// store takes after, if there is one.
    fn create(&self, name: FileName) -> io::Result<Used> {
        let replaced = self.look_at(FileName::Store)?;
        if replaced.is_some() {
            self.find_presence(true)?;
        }
        let like = replaced.as_ref().or(self.like.as_ref());
        Used::made(create_staged(self.rt, self.paths.of(name), like)?)
    }

    /// The path to `store.yaml` and that of the file which is to take its name. Both are as this run left them.
    fn find_both(&self, name: FileName) -> io::Result<(&str, &str)> {
        let from = self.path(name)?;
        self.find_known(name)?;
        self.find_known(FileName::Store)?;
        Ok((from, self.paths.of(FileName::Store)))
    }
}

impl<'r, R: Files<File = File>> System for HostSystem<'r, R> {
    ghost use Rattle.conf_system.specs.Crash.{files_machine};
    ghost use Rattle.std.specs.Prelude.{[], None, false};

    ghost model = { record {
      honest = ⊥;
      machine = λ system. files_machine None None None (record { on_device = false; several = false });
      moment = λ system. 0;
      held = λ system t m. ⊥;
    } };

    ghost holds_now = { λ system t honest le. absurd honest };

    ghost only_now = { λ system m honest held. absurd honest };

    ghost sound = { λ system honest. absurd honest };

    fn look(&self, name: FileName) -> io::Result<Option<u64>> {
        let found = self.look_at(name)?;
        if name == FileName::Store {
            self.find_presence(found.is_some())?;
        }
        match found {
            Some(found) => Ok(Some(found.len())),
            None => Ok(None),
        }
    }

    fn are_linked(&self) -> io::Result<bool> {
        let Some(next) = self.look_at(FileName::Next)? else {
            return Ok(false);
        };
        let Some(store) = look(self.rt, self.paths.of(FileName::Store))? else {
            return Ok(false);
        };
        Ok(Identity::of(&next) == Identity::of(&store))
    }

    fn open(&mut self, name: FileName) -> io::Result<Option<u64>> {
        self.reading = None;
        let file = match open_to_read(self.rt, self.path(name)?) {
            Ok(file) => file,
            Err(error) if error.kind() == ErrorKind::NotFound => {
                if name == FileName::Store {
                    self.find_presence(false)?;
                    self.presence = Presence::Missing;
                }
                return Ok(None);
            }
            Err(error) => return Err(error),
        };
        let found = file.metadata()?;
        if name == FileName::Store {
            self.find_presence(true)?;
            if self.store.known.is_none() {
                self.store.known = Some(KnownFile::new(&found, found.len()));
            }
        }
        self.reading = Some(file);
        Ok(Some(found.len()))
    }

    fn read_at(&self, name: FileName, buffer: &mut [u8], offset: u64) -> io::Result<usize> {
        match &self.reading {
            Some(file) => read_some(file, buffer, offset),
            None => Err(not_open()),
        }
    }

    fn create_next(&mut self) -> io::Result<()> {
        self.next = self.create(FileName::Next)?;
        self.is_staged = true;
        Ok(())
    }

    fn create_copy(&mut self) -> io::Result<()> {
        self.copy = self.create(FileName::Copy)?;
        Ok(())
    }

    fn write(&mut self, name: FileName, bytes: &[u8]) -> io::Result<usize> {
        self.write_some(name, bytes)
    }

    fn write_rest(&mut self, name: FileName, bytes: &[u8]) -> io::Result<usize> {
        self.write_some(name, bytes)
    }

    fn sync(&mut self, name: FileName) -> io::Result<()> {
        let file = self.take_handle(name)?;
        file.sync_all()?;
        let used = self.used(name);
        if let Some(known) = used.known {
            known.find_open(&file)?;
        }
        used.file = Some(file);
        Ok(())
    }

    fn rename_next(&mut self) -> io::Result<()> {
        self.store.file = None;
        let (from, to) = self.find_both(FileName::Next)?;
        fs::rename(self.rt, from, to)?;
        self.is_staged = false;
        self.presence = Presence::There;
        self.store = self.next.take();
        Ok(())
    }

    fn link_next(&mut self) -> io::Result<Linking> {
        self.store.file = None;
        let (from, to) = self.find_both(FileName::Next)?;
        match fs::hard_link(self.rt, from, to) {
            Ok(()) => {}
            Err(error) if has_no_links(&error) => return Ok(Linking::Unsupported),
            Err(error) => return Err(error),
        }
        self.is_staged = false;
        self.presence = Presence::There;
        self.store = self.next.take();
        Ok(Linking::Linked)
    }

    fn unlink_next(&mut self) -> io::Result<()> {
        self.next = Used::closed();
        self.is_staged = false;
        self.remove(FileName::Next)
    }

    fn place_copy(&mut self) -> io::Result<()> {
        self.store.file = None;
        let (from, to) = self.find_both(FileName::Copy)?;
        fs::rename(self.rt, from, to)?;
        self.store = self.copy.take();
        Ok(())
    }

    fn unlink_copy(&mut self) -> io::Result<()> {
        self.copy = Used::closed();
        self.remove(FileName::Copy)
    }

    fn sync_folder(&mut self) -> io::Result<()> {
        self.folder.sync()
    }

    fn write_note(&mut self, note: Note) -> io::Result<()> {
        let Some(lock) = &self.lock else {
            return Err(not_open());
        };
        lock.file().set_len(note_length(note))?;
        if !self.is_marked {
            mark(lock.file())?;
            self.is_marked = true;
        }
        Ok(())
    }

    fn sync_note(&mut self) -> io::Result<()> {
        match &self.lock {
            Some(lock) => lock.file().sync_all(),
            None => Err(not_open()),
        }
    }

    fn read_note(&mut self) -> io::Result<Note> {
        let Some(lock) = &self.lock else {
            return Err(not_open());
        };
        let found = read_note(lock.file())?;
        self.is_marked = found.is_marked;
        let is_there = self.presence == Presence::There;
        Ok(Note {
            on_device: found.note.on_device && is_there,
            several: found.note.several || !is_there,
        })
    }
}
