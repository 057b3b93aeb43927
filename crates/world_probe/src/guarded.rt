// A system in memory that claims nothing, and tells whether a call was made that may not be made.
ghost use Rattle.std.specs.Prelude.{◌≡◌, true, IfOk, IsSome};
ghost use Rattle.conf_system.specs.Machine.{bytes_under};
ghost use Rattle.test_system.specs.Memory.{memory_machine};

use conf_system::{FileName, Linking, Note, System};
use std::alloc::AllocError;
use std::io;
use std::io::ErrorKind;
use test_system::MemorySystem;

/// A system in memory that claims nothing. A call that may not be made fails, and is told by
/// [`is_misused`](GuardedSystem::is_misused).
#[derive(Drop)]
pub(crate) struct GuardedSystem {
    inner: MemorySystem,
    is_misused: bool,
}

impl GuardedSystem {
    pub(crate) fn over(inner: MemorySystem) -> Self {
        GuardedSystem {
            inner,
            is_misused: false,
        }
    }

    /// Whether a call was made that may not be made.
    pub(crate) fn is_misused(&self) -> bool {
        self.is_misused
    }

    /// The system, as it is now.
    pub(crate) fn into_inner(self) -> MemorySystem {
        let GuardedSystem { inner, .. } = self;
        inner
    }

    /// Whether there is a copy that reads as `store.yaml` does.
    fn has_whole_copy(&self) -> Result<bool, AllocError>
        ensures { IfOk result (λ has. has ≡ true → let m = memory_machine self.now.inner in
            IsSome m.copy × (bytes_under m FileName.Copy ≡ bytes_under m FileName.Store)) }
    {
        let copy = self.inner.file(FileName::Copy)?;
        let store = self.inner.file(FileName::Store)?;
        match (&copy, &store) {
            (Some(copy), Some(store)) => Ok(copy.as_slice() == store.as_slice()),
            _ => Ok(false),
        }
    }

    /// Notes a call that may not be made.
    fn misuse(&mut self) -> io::Error {
        self.is_misused = true;
        io::Error::new(ErrorKind::Other, "the call may not be made")
    }
}

impl System for GuardedSystem {
    ghost use Rattle.test_system.specs.Replay.{new_machine};

    ghost model = { record {
      honest = ⊥;
      machine = λ system. new_machine;
      moment = λ system. 0;
      held = λ system t m. ⊥;
    } };

    ghost holds_now = { λ system t honest le. absurd honest };

    ghost only_now = { λ system m honest held. absurd honest };

    ghost sound = { λ system honest. absurd honest };

    fn look(&self, name: FileName) -> io::Result<Option<u64>> {
        self.inner.look(name)
    }

    fn are_linked(&self) -> io::Result<bool> {
        self.inner.are_linked()
    }

    fn open(&mut self, name: FileName) -> io::Result<Option<u64>> {
        self.inner.open(name)
    }

    fn read_at(&self, name: FileName, buffer: &mut [u8], offset: u64) -> io::Result<usize> {
        match self.inner.file(name)? {
            Some(_) => self.inner.read_at(name, buffer, offset),
            None => Err(io::Error::new(ErrorKind::NotFound, "there is no such file")),
        }
    }

    fn create_next(&mut self) -> io::Result<()> {
        match self.inner.file(FileName::Next)? {
            None => self.inner.create_next(),
            Some(_) => Err(self.misuse()),
        }
    }

    fn create_copy(&mut self) -> io::Result<()> {
        match self.inner.file(FileName::Copy)? {
            None => self.inner.create_copy(),
            Some(_) => Err(self.misuse()),
        }
    }

    fn write(&mut self, name: FileName, bytes: &[u8]) -> io::Result<usize> {
        match self.inner.file(name)? {
            Some(_) => self.inner.write(name, bytes),
            None => Err(self.misuse()),
        }
    }

    fn write_rest(&mut self, name: FileName, bytes: &[u8]) -> io::Result<usize> {
        match self.inner.file(name)? {
            Some(_) => self.inner.write_rest(name, bytes),
            None => Err(self.misuse()),
        }
    }

    fn sync(&mut self, name: FileName) -> io::Result<()> {
        match self.inner.file(name)? {
            Some(_) => self.inner.sync(name),
            None => Err(self.misuse()),
        }
    }

    fn rename_next(&mut self) -> io::Result<()> {
        if self.inner.has_links()? {
            return Err(self.misuse());
        }
        match self.inner.file(FileName::Next)? {
            Some(_) => self.inner.rename_next(),
            None => Err(self.misuse()),
        }
    }

    fn link_next(&mut self) -> io::Result<Linking> {
        if self.inner.file(FileName::Store)?.is_some() {
            return Err(self.misuse());
        }
        match self.inner.file(FileName::Next)? {
            Some(_) => self.inner.link_next(),
            None => Err(self.misuse()),
        }
    }

    fn unlink_next(&mut self) -> io::Result<()> {
        match self.inner.file(FileName::Next)? {
            Some(_) => self.inner.unlink_next(),
            None => Err(self.misuse()),
        }
    }

    fn place_copy(&mut self) -> io::Result<()> {
        if self.inner.has_links()? {
            return Err(self.misuse());
        }
        if !self.has_whole_copy()? {
            return Err(self.misuse());
        }
        self.inner.place_copy()
    }

    fn unlink_copy(&mut self) -> io::Result<()> {
        match self.inner.file(FileName::Copy)? {
            Some(_) => self.inner.unlink_copy(),
            None => Err(self.misuse()),
        }
    }

    fn sync_folder(&mut self) -> io::Result<()> {
        self.inner.sync_folder()
    }

    fn write_note(&mut self, note: Note) -> io::Result<()> {
        self.inner.write_note(note)
    }

    fn sync_note(&mut self) -> io::Result<()> {
        self.inner.sync_note()
    }

    fn read_note(&mut self) -> io::Result<Note> {
        self.inner.read_note()
    }
}
