// The ends of lines, and lines of comments.
ghost use Rattle.std.specs.Prelude.{◌≡◌, ◌<◌, ◌≤◌, true, false, [], None, IfSome, IfNone, IsTrue, length};
ghost use Rattle.yaml_scan.specs.Prelude.{IsCharBoundary, rest, read_line_end, all_comments, closes_line};
ghost use Rattle.yaml_scan.specs.Lines.{IsLineStart, IsCommentEnd, IsLineEnd, EndsLineAfter, NoLineEndAfter, IsSolidLine};

use crate::breaks::stop_at;
use crate::gap::short_gap_end;
use crate::runs::{nb_end, spaces_end, white_end};
use crate::signs::{solid_at, stands_at};

/// A line that holds more than whitespace and a comment, or the end of the text.
#[derive(Clone, Copy, Debug, PartialEq, Eq)]
pub struct Line {
    /// Where it starts.
    pub start: usize,
    /// Where its spaces end.
    pub first: usize,
}

/// Returns the end of the comment at `at`, its break not included, or `at` if there is no `#`.
fn comment_end(text: &str, at: usize) -> usize
    requires { IsCharBoundary text.now at }
    ensures { IsCommentEnd text.now at result }
{
    if !stands_at(text, at, b'#') {
        return at;
    }
    nb_end(text, at + 1)
}

/// Returns the end of the line that starts at `at` if it holds nothing but whitespace and a comment (6.6, `l-comment`):
/// the place after its break, or the end of the text. Returns None if it holds more, and at the end of the text.
pub fn comment_line_end(text: &str, at: usize) -> Option<usize>
    requires { IsCharBoundary text.now at }
    ensures found { IfSome result (IsLineEnd true text.now at) }
    ensures none { IfNone result (read_line_end true (rest text.now at) ≡ None) }
{
    let content = comment_end(text, white_end(text, at));
    after_content(text, at, content)
}

/// Returns the end of the line of a part that ends at `at`, if nothing follows it on its line but whitespace and, after
/// whitespace, a comment (6.6, `s-b-comment`): the place after its break, or the end of the text. Returns None if more
/// follows, and at the end of the text.
#[inline(always)]
pub fn rest_of_line_end(text: &str, at: usize) -> Option<usize>
    requires { IsCharBoundary text.now at }
    ensures found { IfSome result (IsLineEnd false text.now at) }
    ensures none { IfNone result (read_line_end false (rest text.now at) ≡ None) }
{
    if stands_at(text, at, b'\n') {
        return after_content(text, at, at);
    }
    blank_line_end(text, at)
}

/// Returns the end of the line of a part that ends at `at`, with whitespace after the part or not, as
/// [`rest_of_line_end`] does.
fn blank_line_end(text: &str, at: usize) -> Option<usize>
    requires { IsCharBoundary text.now at }
    ensures found { IfSome result (IsLineEnd false text.now at) }
    ensures none { IfNone result (read_line_end false (rest text.now at) ≡ None) }
{
    let white = white_end(text, at);
    let content = if white > at {
        comment_end(text, white)
    } else {
        white
    };
    after_content(text, at, content)
}

/// Returns the place after the break at `content`, or the end of the text, unless this is `at`.
/// Returns None if neither is there.
fn after_content(text: &str, at: usize, content: usize) -> Option<usize>
    requires at { IsCharBoundary text.now at }
    requires content { IsCharBoundary text.now content }
    requires order { at ≤ content }
    ensures found { IfSome result (EndsLineAfter text.now at content) }
    ensures none { IfNone result (NoLineEndAfter text.now at content) }
{
    let Some(stop) = stop_at(text, content) else {
        return None;
    };
    if stop.next == at {
        return None;
    }
    Some(stop.next)
}

/// Returns the place after a line that starts at `at` with its line feed, and so is empty. Returns None at any other.
fn empty_line_end(text: &str, at: usize) -> Option<usize>
    requires { IsCharBoundary text.now at }
    ensures { IfSome result (IsLineEnd true text.now at) }
{
    if !stands_at(text, at, b'\n') {
        return None;
    }
    after_content(text, at, at)
}

/// Returns the first line from the line at `at` on that holds more than whitespace and a comment, or the end of the
/// text (6.6, `s-l-comments`). A line starts at `at`, or the text ends there. Each line before it is read once.
#[inline(always)]
pub fn solid_line(text: &str, at: usize) -> Line
    requires { IsCharBoundary text.now at }
    ensures found { IsSolidLine true text.now at result }
    ensures starts { IsLineStart text.now at → IsLineStart text.now result.start }
{
    let first = spaces_end(text, at);
    if solid_at(text, first) {
        return Line { start: at, first };
    }
    later_solid_line(text, at)
}

/// Returns the first solid line from the line at `at` on, as [`solid_line`] does. Mostly it is a later one.
#[inline(never)]
fn later_solid_line(text: &str, at: usize) -> Line
    requires { IsCharBoundary text.now at }
    ensures found { IsSolidLine true text.now at result }
    ensures starts { IsLineStart text.now at → IsLineStart text.now result.start }
{
    let mut start = at;
    'lines: loop {
        if let Some(next) = empty_line_end(text, start) {
            start = next;
            continue;
        }
        let first = spaces_end(text, start);
        if solid_at(text, first) {
            return Line { start, first };
        }
        let Some(next) = comment_line_end(text, start) else {
            return Line { start, first };
        };
        start = next;
    }
}

/// Returns the first line after a part that ends at `at` that holds more than whitespace and a comment, or the end of
/// the text (6.6, `s-l-comments`). Returns None if anything but whitespace and a comment follows the part on its line.
#[inline(always)]
pub fn line_after(text: &str, at: usize) -> Option<Line>
    requires { IsCharBoundary text.now at }
    ensures found { IfSome result (IsSolidLine false text.now at) }
    ensures starts { IfSome result (λ line. IsLineStart text.now line.start) }
    ensures closes { IfSome result (λ _. closes_line (all_comments false (rest text.now at))
        ≡ true) }
    ensures none { IfNone result (closes_line (all_comments false (rest text.now at)) ≡ false) }
    ensures no_comments { IfNone result (all_comments false (rest text.now at)
        ≡ ([], rest text.now at)) }
{
    if goes_on_at(text, at) {
        return None;
    }
    if let Some(next) = rest_of_line_end(text, at) {
        return Some(solid_line(text, next));
    }
    if at < text.len() {
        return None;
    }
    Some(Line {
        start: at,
        first: at,
    })
}

/// Returns whether something solid is at `at`, or after one space there. Then the line goes on.
#[inline(always)]
fn goes_on_at(text: &str, at: usize) -> bool
    requires { IsCharBoundary text.now at }
    ensures no_end { IsTrue result → read_line_end false (rest text.now at) ≡ None }
    ensures within { IsTrue result → at < length text.now }
{
    match short_gap_end(text, at) {
        Some(_) => true,
        None => false,
    }
}
