// A string as a sink: what is written comes at its end.
ghost use Rattle.std.specs.Prelude.{◌≡◌, ◌++◌, string_bytes, OnOk};
ghost use Rattle.yaml_writer.specs.Prelude.{spaces};

use crate::sink::Sink;
use std::alloc::AllocError;

/// Appends what is written to the end of the text. It fails only if memory runs out.
impl Sink for String {
    ghost use Rattle.std.specs.Prelude.{◌≡◌, ◌++◌, string_bytes, encode_utf8_all};
    ghost use Rattle.yaml_writer.specs.Encoded.{encoded_none, encoded_both};

    type Fault = AllocError;

    ghost Takes = { λ a cs b. string_bytes b ≡ string_bytes a ++ encode_utf8_all cs };

    ghost takes_none = { λ s. encoded_none (string_bytes s) };

    ghost takes_both = { λ a b c xs ys first second.
        encoded_both (string_bytes a) (string_bytes b) (string_bytes c) xs ys first second };

    fn put_text(&mut self, text: &str) -> Result<(), AllocError> {
        self.push_str(text)?;
        Ok(())
    }

    fn put_char(&mut self, c: char) -> Result<(), AllocError> {
        self.push(c)
    }

    fn put_spaces(&mut self, count: u64) -> Result<(), AllocError> {
        push_spaces(self, count as usize)
    }
}

/// The most spaces that are appended at once.
const SPACES: &str = "                                                                ";

/// Appends `count` spaces. It fails only if memory runs out; some of them may then be there.
fn push_spaces(text: &mut String, count: usize) -> Result<(), AllocError>
    ensures { OnOk result (string_bytes text.new ≡ string_bytes text.old ++ spaces count) }
{
    let mut left = count;
    while left > SPACES.len() {
        text.push_str(SPACES)?;
        left -= SPACES.len();
    }
    text.push_str(&SPACES[..left])?;
    Ok(())
}
