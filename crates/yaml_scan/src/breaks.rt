// Line breaks, the starts of lines, and what is between two places.
ghost use Rattle.std.specs.Prelude.{◌≡◌, ◌<◌, ◌≤◌, ◌↔◌, true, not, nat_le, None, IsTrue, IfSome, IfNone, length};
ghost use Rattle.std.specs.Prelude.{slice_index};
ghost use Rattle.yaml_scan.specs.Prelude.{IsCharBoundary, chars, no_break, line_break, rest, between, line_starts};
ghost use Rattle.yaml_scan.specs.Prelude.{read_break, read_stop};
ghost use Rattle.yaml_scan.specs.Classes.{ArePassed};
ghost use Rattle.yaml_scan.specs.ScanPlaces.{IsBreak, IsStop, byte_order_mark_bytes, unbroken_between};

use crate::blocks::unbroken_in_block;

/// Returns the end of the break at `at`: LF, CR LF, or a CR that no LF follows (5.4, `b-break`). Returns None if there
/// is none.
pub fn break_end(text: &str, at: usize) -> Option<usize>
    requires { IsCharBoundary text.now at }
    ensures found { IfSome result (IsBreak text.now at) }
    ensures none { IfNone result (read_break (rest text.now at) ≡ None) }
{
    let bytes = text.as_bytes();
    if at == bytes.len() {
        return None;
    }
    if bytes[at] == b'\n' {
        return Some(at + 1);
    }
    if bytes[at] != b'\r' {
        return None;
    }
    let next = at + 1;
    if next == bytes.len() {
        return Some(next);
    }
    if bytes[next] != b'\n' {
        return Some(next);
    }
    Some(next + 1)
}

/// How a line ends.
#[derive(Clone, Copy, Debug, PartialEq, Eq)]
pub struct Stop {
    /// Whether it ends with a break, and not with the end of the text.
    pub has_break: bool,
    /// The place after the break, or the end of the text.
    pub next: usize,
}

/// Returns how a line ends at `at`: with a break or with the end of the text. Returns None if neither is there.
pub fn stop_at(text: &str, at: usize) -> Option<Stop>
    requires { IsCharBoundary text.now at }
    ensures found { IfSome result (λ stop. IsStop text.now at stop.has_break stop.next) }
    ensures none { IfNone result (read_stop (rest text.now at) ≡ None) }
{
    if let Some(next) = break_end(text, at) {
        return Some(Stop {
            has_break: true,
            next,
        });
    }
    if at < text.len() {
        return None;
    }
    Some(Stop {
        has_break: false,
        next: at,
    })
}

fn is_break(byte: u8) -> bool
    ensures { result ≡ line_break byte }
{
    matches!(byte, b'\n' | b'\r')
}

/// Returns whether a line starts at `at`: at the start of the text, after a byte order mark there, or after a break.
pub fn line_starts(text: &str, at: usize) -> bool
    requires { IsCharBoundary text.now at }
    ensures { result ≡ line_starts text.now at }
{
    if at == 0 {
        return true;
    }
    let bytes = text.as_bytes();
    if is_break(bytes[at - 1]) {
        return true;
    }
    is_byte_order_mark(&text[..at])
}

fn is_byte_order_mark(text: &str) -> bool
    ensures { IsTrue result ↔ (text.now ≡ byte_order_mark_bytes) }
{
    text == "\u{feff}"
}

/// Returns whether there is a line break between two places. It looks at the bytes between them once, up to the first
/// break.
pub fn has_break(text: &str, from: usize, to: usize) -> bool
    requires order { from ≤ to }
    requires from { IsCharBoundary text.now from }
    requires to { IsCharBoundary text.now to }
    ensures { result ≡ not (unbroken_between text.now from to) }
{
    let bytes = text.as_bytes();
    let mut at = from;
    'sixteens: while at < to && bytes.len() - at >= 16 {
        let count = unbroken_in_block(bytes, at);
        at += count;
        if count < 16 {
            return at < to;
        }
    }
    last_unbroken_end(bytes, at, to) < to
}

/// Returns the place of the first byte from `at` on that begins a break, if it is before `to`, byte by byte. Else it
/// returns `to`, or `at` if this is after `to`.
fn last_unbroken_end(bytes: &[u8], at: usize, to: usize) -> usize
    requires at { at ≤ length bytes.now }
    requires to { to ≤ length bytes.now }
    ensures passed { ArePassed no_break bytes.now at result }
    ensures stop { result < to → line_break (slice_index bytes.now result) ≡ true }
{
    let mut end = at;
    while end < to && !is_break(bytes[end]) {
        end += 1;
    }
    end
}

/// Returns whether at most `limit` characters are between two places. It counts them only if the number of bytes does
/// not decide.
pub fn at_most_chars(text: &str, from: usize, to: usize, limit: usize) -> bool
    requires order { from ≤ to }
    requires from { IsCharBoundary text.now from }
    requires to { IsCharBoundary text.now to }
    ensures { result ≡ nat_le (length (between text.now from to)) limit }
{
    let len = to - from;
    if len <= limit {
        return true;
    }
    if len / 4 > limit {
        return false;
    }
    count_chars(&text[from..to]) <= limit
}

fn count_chars(text: &str) -> usize
    ensures { result ≡ length (chars text.now) }
{
    text.chars().count()
}
