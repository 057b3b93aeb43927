// What is said of the bytes after the last closing line of an input, which a session does not perform.
ghost use Rattle.std.specs.Prelude.{◌≡◌};
ghost use Rattle.conf_tools.specs.Tails.{TellsRest, cause_of, end_of_rest, has_part, many_bytes, unperformed_bytes, unperformed_line};

use crate::listener::Listener;
use crate::tail::Tail;
use itoa::Buffer;

/// Why the end of an input most likely has no closing line.
#[derive(Clone, Copy)]
pub(crate) enum Cause {
    /// It has NUL bytes, as UTF-16 has.
    NulBytes,
    /// It has lines that end in CR LF.
    CrLf,
    /// It ends with `...`, and no line feed follows.
    NoLineFeed,
    /// It has a line that begins with `---`, after its first line.
    Dashes,
    /// None of these.
    NoClosingLine,
}

impl Cause {
    ghost use Rattle.conf_tools.specs.Tails.{cause_text};

    /// What is told of the cause.
    fn text(self) -> &'static str
        ensures { result.now ≡ cause_text self }
    {
        match self {
            Cause::NulBytes => "it has NUL bytes, as in UTF-16, and commands are UTF-8",
            Cause::CrLf => "its lines end in CR LF, and a closing line ends in LF alone",
            Cause::NoLineFeed => "no line feed follows its last \"...\"",
            Cause::Dashes => "a line of \"---\" begins a document, and \"...\" closes one",
            Cause::NoClosingLine => "a command ends with a line of exactly \"...\" and a line feed",
        }
    }
}

/// Why these bytes at the end of an input most likely have no closing line.
fn cause_of(end: &[u8]) -> Cause
    ensures { result ≡ cause_of end.now }
{
    if end.contains(&0) {
        Cause::NulBytes
    } else if has_part(end, b"\r\n") {
        Cause::CrLf
    } else if end.ends_with(b"...") {
        Cause::NoLineFeed
    } else if has_part(end, b"\n---") {
        Cause::Dashes
    } else {
        Cause::NoClosingLine
    }
}

/// Whether a part, which is not empty, stands somewhere in the bytes.
fn has_part(bytes: &[u8], part: &[u8]) -> bool
    ensures { result ≡ has_part part.now bytes.now }
{
    for at in 0..bytes.len() {
        if bytes[at..].starts_with(part) {
            return true;
        }
    }
    false
}

/// Tells in one line how many bytes after the last closing line were not performed, and the likely cause. Nothing is
/// told if all of them are blank.
pub(crate) fn tell_rest<E: Listener>(errors: &mut E, tail: &Tail, rest: u64)
    ensures { TellsRest E.hears (end_of_rest tail.now.kept tail.now.blanks rest) rest
        errors.old errors.new }
{
    let Some(end) = tail.end_of_rest(rest) else {
        return;
    };
    tell_unperformed(errors, rest, cause_of(end));
}

/// Tells that so many bytes at the end of an input were not performed, for this cause.
fn tell_unperformed<E: Listener>(errors: &mut E, rest: u64, cause: Cause)
    ensures { E.hears errors.old (unperformed_line rest cause) errors.new }
{
    tell_unperformed_bytes(errors, rest);
    errors.tell(cause.text());
    errors.tell("\n");
}

/// Tells the line up to the cause.
fn tell_unperformed_bytes<E: Listener>(errors: &mut E, rest: u64)
    ensures { E.hears errors.old (unperformed_bytes rest) errors.new }
{
    match rest {
        1 => errors.tell("confstore: the last byte of the input was not performed: "),
        _ => tell_many_bytes(errors, rest),
    }
}

/// Tells the line up to the cause, for more than one byte.
fn tell_many_bytes<E: Listener>(errors: &mut E, rest: u64)
    ensures { E.hears errors.old (many_bytes rest) errors.new }
{
    let mut digits = Buffer::new();
    errors.tell("confstore: the last ");
    errors.tell(digits.format(rest));
    errors.tell(" bytes of the input were not performed: ");
}
