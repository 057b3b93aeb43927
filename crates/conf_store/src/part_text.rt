// The text of one part of a base, in memory that was taken before.
ghost use Rattle.std.specs.Prelude.{◌≡◌, ◌≤◌, ◌+◌, ◌++◌, length, string_bytes, string_capacity};
ghost use Rattle.conf_store.specs.Prelude.{spaces};
ghost use Rattle.std.specs.String.{string_len};
ghost use Rattle.conf_store.specs.Room.{AppendsWithin};

use std::convert::Infallible;
use yaml_writer::Sink;

/// A text that is written into memory that was taken before. What it has room for it takes; it isn't written to
/// otherwise.
#[derive(Drop)]
pub struct PartText {
    pub text: String,
}

impl Sink for PartText {
    ghost use Rattle.conf_store.specs.PartTexts.{TakesWithin, TakesWithin-none, TakesWithin-both};

    type Fault = Infallible;

    ghost Takes = { TakesWithin };

    ghost takes_none = { TakesWithin-none };

    ghost takes_both = { TakesWithin-both };

    fn put_text(&mut self, text: &str) -> Result<(), Infallible> {
        append(&mut self.text, text);
        Ok(())
    }

    fn put_char(&mut self, c: char) -> Result<(), Infallible> {
        // It has room.
        let _ = self.text.push(c);
        Ok(())
    }

    fn put_spaces(&mut self, count: u64) -> Result<(), Infallible> {
        append_spaces(&mut self.text, count as usize);
        Ok(())
    }
}

/// Appends a text for which there is room.
pub fn append(text: &mut String, more: &str)
    ensures { AppendsWithin text.old more.now text.new }
{
    let _ = text.push_str(more);
}

/// The most spaces that are appended at once.
const SPACES: &str = "                                                                ";

/// Appends `count` spaces for which there is room.
fn append_spaces(text: &mut String, count: usize)
    ensures { AppendsWithin text.old (spaces count) text.new }
{
    let mut left = count;
    while left > SPACES.len() {
        append(text, SPACES);
        left -= SPACES.len();
    }
    append(text, &SPACES[..left]);
}
