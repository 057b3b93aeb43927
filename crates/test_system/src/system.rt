// The system in memory as the trait has it.
ghost use Rattle.std.specs.Prelude.{◌≡◌, ℕ, List, length, Some, IsSome, IfOk, option_map};
ghost use Rattle.conf_system.specs.Machine.{CreateNext, CreateCopy, Write, WriteRest, Sync, RenameNext, LinkNext, UnlinkNext};
ghost use Rattle.conf_system.specs.Machine.{PlaceCopy, UnlinkCopy, SyncFolder, WriteNote, SyncNote};
ghost use Rattle.conf_system.specs.Machine.{MayBeCalled, under, bytes_under, are_linked};
ghost use Rattle.conf_system.specs.Models.{Goes, Links, ReadsNote, Stays, Writes, Fills};
ghost use Rattle.test_system.specs.Memory.{memory_machine, memory_model, Follows, FollowsLink, FollowsWrite};
ghost use Rattle.test_system.specs.Memory.{FollowsNote, FollowsRead};

use crate::change::Change;
use crate::fault::Fault;
use crate::memory::MemorySystem;
use conf_system::{FileName, Linking, Note, System};
use std::io;

impl System for MemorySystem {
    ghost use Rattle.test_system.specs.Memory.{memory_model, kept_calls};
    ghost use Rattle.test_system.specs.Runs.{was_now, was_only_now, sound_now};

    ghost model = { memory_model };

    ghost holds_now = { λ system t honest le. was_now (kept_calls system) t le };

    ghost only_now = { λ system m honest was. was_only_now (kept_calls system) m was };

    ghost sound = { λ system honest. sound_now (kept_calls system) system.log.sound };

    fn look(&self, name: FileName) -> io::Result<Option<u64>>
        ensures found { IfOk result (λ found.
            found ≡ option_map length (bytes_under (memory_machine self.now) name)) }
        ensures follows { FollowsRead self.now result }
    {
        match self.bytes(name) {
            Ok(None) => Ok(None),
            Ok(Some(bytes)) => Ok(Some(bytes.len() as u64)),
            Err(error) => Err(error),
        }
    }

    fn are_linked(&self) -> io::Result<bool>
        ensures linked { IfOk result (λ linked.
            linked ≡ are_linked (memory_machine self.now).now.store (memory_machine self.now).now.next) }
        ensures follows { FollowsRead self.now result }
    {
        match self.replay() {
            Ok(machine) => Ok(machine.are_linked()),
            Err(error) => Err(error),
        }
    }

    fn open(&mut self, name: FileName) -> io::Result<Option<u64>>
        ensures found { IfOk result (λ found.
            found ≡ option_map length (bytes_under (memory_machine self.old) name)) }
        ensures stays { Stays memory_model self.old self.new }
        ensures same { self.new ≡ self.old }
        ensures follows { FollowsRead self.old result }
    {
        self.look(name)
    }

    fn read_at(&self, name: FileName, buffer: &mut [u8], offset: u64) -> io::Result<usize>
        requires { IsSome (under (memory_machine self.now) name) }
        ensures read { IfOk result (λ count. (bytes : List ℕ)
            → bytes_under (memory_machine self.now) name ≡ Some bytes
            → Fills bytes offset buffer.old buffer.new count) }
        ensures follows { FollowsRead self.now result }
    {
        match self.bytes(name) {
            Ok(None) => unreachable!(),
            Ok(Some(bytes)) => Ok(fill(&bytes, buffer, offset)),
            Err(error) => Err(error),
        }
    }

    fn create_next(&mut self) -> io::Result<()>
        requires { MayBeCalled CreateNext (memory_machine self.old) }
        ensures goes { Goes memory_model CreateNext self.old result self.new }
        ensures follows { Follows self.old CreateNext result self.new }
    {
        self.make(Change::CreateNext)
    }

    fn create_copy(&mut self) -> io::Result<()>
        requires { MayBeCalled CreateCopy (memory_machine self.old) }
        ensures goes { Goes memory_model CreateCopy self.old result self.new }
        ensures follows { Follows self.old CreateCopy result self.new }
    {
        self.make(Change::CreateCopy)
    }

    fn write(&mut self, name: FileName, bytes: &[u8]) -> io::Result<usize>
        requires { MayBeCalled (Write name bytes.now) (memory_machine self.old) }
        ensures writes { Writes memory_model (Write name) bytes.now self.old result self.new }
        ensures follows { FollowsWrite self.old (Write name) bytes.now result self.new }
    {
        self.make_write(name, bytes)
    }

    fn write_rest(&mut self, name: FileName, bytes: &[u8]) -> io::Result<usize>
        requires { MayBeCalled (WriteRest name bytes.now) (memory_machine self.old) }
        ensures writes { Writes memory_model (WriteRest name) bytes.now self.old result self.new }
        ensures follows { FollowsWrite self.old (WriteRest name) bytes.now result self.new }
    {
        let count = self.offered(bytes.len());
        match bytes[..count].to_vec(self.alloc) {
            Err(error) => Err(io::Error::from(error)),
            Ok(kept) => match self.make(Change::WriteRest(name, kept)) {
                Ok(()) => Ok(count),
                Err(error) => Err(error),
            },
        }
    }

    fn sync(&mut self, name: FileName) -> io::Result<()>
        requires { MayBeCalled (Sync name) (memory_machine self.old) }
        ensures goes { Goes memory_model (Sync name) self.old result self.new }
        ensures follows { Follows self.old (Sync name) result self.new }
    {
        self.make_sync(name)
    }

    fn rename_next(&mut self) -> io::Result<()>
        requires { MayBeCalled RenameNext (memory_machine self.old) }
        ensures goes { Goes memory_model RenameNext self.old result self.new }
        ensures follows { Follows self.old RenameNext result self.new }
    {
        self.make(Change::RenameNext)
    }

    fn link_next(&mut self) -> io::Result<Linking>
        requires { MayBeCalled LinkNext (memory_machine self.old) }
        ensures links { Links memory_model self.old result self.new }
        ensures follows { FollowsLink self.old result self.new }
    {
        if self.plan.fault == Fault::NoLinks {
            return Ok(Linking::Unsupported);
        }
        match self.make(Change::LinkNext) {
            Ok(()) => Ok(Linking::Linked),
            Err(error) => Err(error),
        }
    }

    fn unlink_next(&mut self) -> io::Result<()>
        requires { MayBeCalled UnlinkNext (memory_machine self.old) }
        ensures goes { Goes memory_model UnlinkNext self.old result self.new }
        ensures follows { Follows self.old UnlinkNext result self.new }
    {
        self.make(Change::UnlinkNext)
    }

    fn place_copy(&mut self) -> io::Result<()>
        requires { MayBeCalled PlaceCopy (memory_machine self.old) }
        ensures goes { Goes memory_model PlaceCopy self.old result self.new }
        ensures follows { Follows self.old PlaceCopy result self.new }
    {
        self.make(Change::PlaceCopy)
    }

    fn unlink_copy(&mut self) -> io::Result<()>
        requires { MayBeCalled UnlinkCopy (memory_machine self.old) }
        ensures goes { Goes memory_model UnlinkCopy self.old result self.new }
        ensures follows { Follows self.old UnlinkCopy result self.new }
    {
        self.make(Change::UnlinkCopy)
    }

    fn sync_folder(&mut self) -> io::Result<()>
        ensures goes { Goes memory_model SyncFolder self.old result self.new }
        ensures follows { Follows self.old SyncFolder result self.new }
    {
        self.make(Change::SyncFolder)
    }

    fn write_note(&mut self, note: Note) -> io::Result<()>
        ensures goes { Goes memory_model (WriteNote note) self.old result self.new }
        ensures follows { Follows self.old (WriteNote note) result self.new }
    {
        self.make(Change::WriteNote(note))
    }

    fn sync_note(&mut self) -> io::Result<()>
        ensures goes { Goes memory_model SyncNote self.old result self.new }
        ensures follows { Follows self.old SyncNote result self.new }
    {
        self.make(Change::SyncNote)
    }

    fn read_note(&mut self) -> io::Result<Note>
        ensures reads { ReadsNote memory_model self.old result self.new }
        ensures follows { FollowsNote self.old result self.new }
    {
        self.look_at_note()
    }
}

/// Fills the front of a buffer with the bytes from a place on, and returns how many these are.
fn fill(bytes: &[u8], buffer: &mut [u8], offset: u64) -> usize
    ensures { Fills bytes.now offset buffer.old buffer.new result }
{
    let Ok(offset) = usize::try_from(offset) else {
        return 0;
    };
    if offset >= bytes.len() {
        return 0;
    }
    let rest = &bytes[offset..];
    let count = rest.len().min(buffer.len());
    buffer[..count].copy_from_slice(&rest[..count]);
    count
}
