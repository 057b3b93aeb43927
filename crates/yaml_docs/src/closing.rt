// Closing lines: where one of several consecutive texts ends and the next begins.
ghost use Rattle.std.specs.Prelude.{IfSome, IfNone};
ghost use Rattle.yaml_docs.specs.NextClosing.{StartsLine, IsNextClosing, NoClosingAfter};

use memchr::memmem;

/// The line that closes a text: three dots and a line feed.
pub(crate) const CLOSING_LINE: &[u8] = b"...\n";

/// That line after the end of the line before it.
pub(crate) const LINE_AND_CLOSING_LINE: &[u8] = b"\n...\n";

/// Returns the first place after `at` that is just after a closing line: a line of exactly `...` and a line feed.
/// Returns None if there is none. Places count bytes from 0. A line has to start at `at`, as at 0 and after each
/// closing line, so the next one can be searched from the place that is returned.
///
/// A `...` with CR and LF, or with a comment, ends a document (9.1.2) and closes nothing. So cutting bytes
/// short makes no new closing line.
pub fn next_close(bytes: &[u8], at: usize) -> Option<usize>
    requires { StartsLine bytes.now at }
    ensures found { IfSome result (IsNextClosing bytes.now at) }
    ensures starts_line { IfSome result (StartsLine bytes.now) }
    ensures none { IfNone result (NoClosingAfter bytes.now at) }
{
    let rest = &bytes[at..];
    if rest.starts_with(CLOSING_LINE) {
        return Some(at + CLOSING_LINE.len());
    }
    let Some(line) = memmem::find(rest, LINE_AND_CLOSING_LINE) else {
        return None;
    };
    Some(at + line + LINE_AND_CLOSING_LINE.len())
}
