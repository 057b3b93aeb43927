// The system in memory as the trait has it.
use crate::change::Change;
use crate::memory::MemoryFileCalls;
use crate::spares::Spare;
use crate::start::LeadsTo;
use file_calls::{Creation, FileCalls, Rights};
use std::io;
use std::io::ErrorKind;

impl FileCalls for MemoryFileCalls {
    ghost use Rattle.test_files.specs.Memory.{memory_model, kept_calls};
    ghost use Rattle.test_files.specs.Runs.{was_now, was_only_now};

    ghost model = { memory_model };

    ghost holds_now = { λ calls t honest le. was_now (kept_calls calls) t le };

    ghost only_now = { λ calls m honest was. was_only_now (kept_calls calls) m was };

    fn old_rights(&mut self) -> io::Result<Rights> {
        match self.replay() {
            Ok(machine) => Ok(machine.old_file.rights),
            Err(error) => Err(error),
        }
    }

    fn create_beside(&mut self, number: u32) -> io::Result<Creation> {
        if number < self.taken {
            return Ok(Creation::Taken);
        }
        match self.make(Change::CreateBeside(self.made())) {
            Ok(()) => Ok(Creation::Made),
            Err(error) => Err(error),
        }
    }

    fn create_given(&mut self) -> io::Result<()> {
        match self.replay() {
            Ok(machine) if machine.current.given == LeadsTo::Nothing => {
                self.make(Change::CreateGiven(self.made()))
            }
            Ok(_) => Err(io::Error::new(ErrorKind::AlreadyExists, "it is there")),
            Err(error) => Err(error),
        }
    }

    fn write(&mut self, bytes: &[u8]) -> io::Result<usize> {
        self.make_write(bytes)
    }

    fn new_rights(&mut self) -> io::Result<Rights> {
        match self.replay() {
            Ok(machine) => match machine.rights_at(LeadsTo::New) {
                Some(rights) => Ok(rights),
                None => Err(io::Error::new(ErrorKind::NotFound, "it is not made")),
            },
            Err(error) => Err(error),
        }
    }

    fn give_owner(&mut self, owner: u32, group: u32) -> io::Result<()> {
        self.make_or(Change::GiveOwner(owner, group), Spare::Refused)
    }

    fn give_group(&mut self, group: u32) -> io::Result<()> {
        self.make_or(Change::GiveGroup(group), Spare::Refused)
    }

    fn set_mode(&mut self, mode: u32) -> io::Result<()> {
        self.make(Change::SetMode(mode))
    }

    fn sync_new(&mut self) -> io::Result<()> {
        self.make_or(Change::SyncNew, Spare::FailedSync)
    }

    fn rename(&mut self) -> io::Result<()> {
        self.make(Change::Rename)
    }

    fn unlink_beside(&mut self) -> io::Result<()> {
        self.make_or(Change::UnlinkBeside, Spare::Left)
    }

    fn unlink_given(&mut self) -> io::Result<()> {
        self.make_or(Change::UnlinkGiven, Spare::Left)
    }

    fn sync_folder(&mut self) -> io::Result<()> {
        self.make(Change::SyncFolder)
    }
}
