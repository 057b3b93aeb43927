// Whether the journal has room for a command's record.
ghost use Rattle.std.specs.Prelude.{◌≡◌, ◌↔◌, IsTrue};
ghost use Rattle.conf_state.specs.Commands.{command_of, may_be_long};
ghost use Rattle.conf_state.specs.Rooms.{room_of};

use crate::command::Command;

/// The most bytes of the record of a batch, or of a command with an about.
pub const RECORD_LIMIT: u64 = 67_108_864;

/// Whether the journal has room for a command's record.
#[derive(Clone, Copy, Debug, PartialEq, Eq)]
pub enum Room {
    /// It has.
    Enough,
    /// It hasn't, however short it is: the command is a batch or has an about, and its record has more than 67,108,864
    /// bytes. It is refused with `RecordLong`.
    LongRecord,
    /// It hasn't: with the record it would be over its limit. The command is refused with `JournalLong`.
    Missing,
}

impl Room {
    /// Returns the room for a command's record of `bytes` bytes in a journal of `size` bytes, which may have `limit`
    /// bytes.
    pub fn of(command: &Command, bytes: u64, size: u64, limit: u64) -> Room
        ensures { result ≡ room_of (may_be_long (command_of command.now)) bytes size limit }
    {
        if command.may_be_long() && bytes > RECORD_LIMIT {
            return Room::LongRecord;
        }
        if size <= limit && bytes <= limit - size {
            return Room::Enough;
        }
        Room::Missing
    }

    /// Returns whether there is room.
    pub fn is_enough(self) -> bool
        ensures { IsTrue result ↔ (self ≡ Room.Enough) }
    {
        matches!(self, Room::Enough)
    }
}
