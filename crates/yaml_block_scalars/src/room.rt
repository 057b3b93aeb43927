// The room of a value that is put together from lines.
ghost use Rattle.std.specs.Prelude.{◌≡◌, ◌≤◌, ◌++◌, OnOk, string_bytes};

use crate::line::Line;
use std::alloc::AllocError;

/// The bytes that a value has room for at first, beyond its first text line and the line feeds before it.
const FIRST_ROOM: usize = 128;

/// The least number of bytes that a value gets room for if its first room is not enough. A still longer value grows as
/// any `String` does.
const LONG_ROOM: usize = 4_096;

/// Returns how many bytes a value has room for at first.
pub(crate) fn first_room(empties: usize, line: Line) -> usize
    requires { line.start ≤ line.end }
{
    FIRST_ROOM
        .saturating_add(empties)
        .saturating_add(line.end - line.start)
}

/// Appends the text of a line to a value. If there is no room for it, the value gets room for many lines at once.
pub(crate) fn push_text(value: &mut String, text: &str) -> Result<(), AllocError>
    ensures { OnOk result (string_bytes value.new ≡ string_bytes value.old ++ text.now) }
{
    if spare_room(value) < text.len() {
        value.reserve(text.len().max(LONG_ROOM))?;
    }
    value.push_str(text)
}

/// Gives back the room that a long value has to spare.
pub(crate) fn give_back_room(value: &mut String)
    ensures { string_bytes value.new ≡ string_bytes value.old }
{
    if spare_room(value) > FIRST_ROOM {
        value.shrink_to_fit();
    }
}

/// Returns how many more bytes a value has room for.
fn spare_room(value: &String) -> usize {
    value.capacity().saturating_sub(value.len())
}
