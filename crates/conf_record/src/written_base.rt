// Bases as a store writes them, read line by line without the general reader.
ghost use Rattle.std.specs.Prelude.{◌≡◌, ◌++◌, codes, decimal, encode_utf8_all, IfOk, IfSome};
ghost use Rattle.conf_record.specs.Documents.{IsBase};
ghost use Rattle.conf_record.specs.Formats.{format_start};

use crate::documents::documents_are_read;
use crate::entries::read_entries;
use crate::fields::number_from;
use crate::format::Format;
use crate::lines::cut_line;
use conf_state::State;
use std::alloc::Global;
use std::str;
use yaml_styled::Miss;

/// The state whose base the bytes are, if they are the very text that [`base_text`](crate::base_text) writes for it,
/// and it holds a configuration.
pub(crate) fn written_base(alloc: Global, bytes: &[u8]) -> Result<State, Miss>
    ensures { IfOk result (λ state. IsBase bytes.now state) }
{
    documents_are_read();
    let Ok(text) = str::from_utf8(bytes) else {
        return Err(Miss::OtherForm);
    };
    let Some(frame) = cut_frame(text) else {
        return Err(Miss::OtherForm);
    };
    let parts = read_entries(alloc, frame.lines)?;
    if parts.is_empty() {
        return Err(Miss::OtherForm);
    }
    match State::from_parts(alloc, parts, frame.count)? {
        Some(state) => Ok(state),
        None => Err(Miss::OtherForm),
    }
}

/// What is around the configurations of a base, as a store writes it.
#[derive(Clone, Copy)]
pub(crate) struct Frame<'t> {
    pub format: Format,
    /// How many commands were accepted.
    pub count: u64,
    /// The lines of the configurations, with the end of the document.
    pub lines: &'t str,
}

/// What is around the configurations of a base, if the text has its lines as a store writes them.
pub(crate) fn cut_frame(text: &str) -> Option<Frame<'_>>
    ensures { IfSome result (λ frame. text.now ≡ format_start frame.format
        ++ (codes "at: \"" ++ (encode_utf8_all (decimal frame.count)
        ++ (codes "\"\nconfigs:\n" ++ frame.lines.now)))) }
{
    let (format, members) = cut_format(text)?;
    let (line, after) = cut_line(members, "at: \"")?;
    let digits = line.strip_suffix('"')?;
    let count = number_from(digits)?;
    let lines = after.strip_prefix("configs:\n")?;
    Some(Frame {
        format,
        count,
        lines,
    })
}

/// The format that a text begins with as a base does, and what comes after its line.
fn cut_format(text: &str) -> Option<(Format, &str)>
    ensures { IfSome result (λ cut. text.now ≡ format_start cut.0 ++ cut.1.now) }
{
    match text.strip_prefix("---\nstore: confstore-2\n") {
        Some(members) => Some((Format::Second, members)),
        None => {
            let members = text.strip_prefix("---\nstore: confstore-3\n")?;
            Some((Format::Third, members))
        }
    }
}
