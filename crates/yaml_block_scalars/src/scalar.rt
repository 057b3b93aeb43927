// Block scalars after their headers.
ghost use Rattle.std.specs.Prelude.{◌≡◌, ◌≤◌, ◌^◌, ◌≤ℤ◌, negsuc, true, false, [], None, Some, IfOk, IfErr, IfSome};
ghost use Rattle.std.specs.Prelude.{IfNone, length, string_bytes};
ghost use Rattle.yaml_block_scalars.specs.Prelude.{cow_str_bytes, IsBorrowedStr, IsCharBoundary, chars, rest, Refuses};
ghost use Rattle.yaml_block_scalars.specs.Prelude.{line_feeds, begins, find_indent, empties_at, lines_at, NoBody};
ghost use Rattle.yaml_block_scalars.specs.Prelude.{IsLineStart};
ghost use Rattle.yaml_block_scalars.specs.Found.{IsBodyAt, IsPieceAt, AreLines, ArePiece};
ghost use Rattle.yaml_block_scalars.specs.Lines.{AreFeeds, IsPlaced, IsPiece, IsNoPiece, ArePushed};
ghost use Rattle.yaml_block_scalars.specs.Meant.{chomping_of, is_folded, least_indent};

use crate::indent::detected;
use crate::line::{Line, empty_lines, text_line, text_start};
use crate::parts::{Chomping, Header};
use crate::room::{first_room, give_back_room, push_text};
use crate::value::{feeds_after, no_lines, push_between};
use std::alloc::Global;
use std::borrow::CowStr;
use yaml_events::ScanFault;
use yaml_scan::push_line_feeds;

/// How the breaks of a block scalar are read.
#[derive(Clone, Copy)]
struct Style {
    folded: bool,
    chomping: Chomping,
}

/// Appends the text line `first` and all lines after it to the value. Returns where they end.
fn push_lines(
    value: &mut String,
    text: &str,
    first: Line,
    indent: usize,
    style: Style,
) -> Result<usize, ScanFault>
    requires { IsPlaced indent text.now first }
    ensures found { IfOk result (ArePushed indent style.folded
        (chomping_of style.chomping) text.now first (string_bytes value.old)
        (string_bytes value.new)) }
    ensures none { IfErr result (λ fault.
        Refuses fault (lines_at indent (rest text.now first.next) ≡ None)) }
{
    let mut line = first;
    'lines: loop {
        push_text(value, &text[line.start..line.end])?;
        let Some(next) = text_line(text, line.next, indent)? else {
            push_line_feeds(value, feeds_after(style.chomping, line))?;
            return Ok(line.next);
        };
        push_between(value, style.folded, line, next)?;
        line = next;
    }
}

/// Returns the end of `count` line feeds at `at`. Returns None if anything else is there.
fn feeds_end(text: &str, at: usize, count: usize) -> Option<usize>
    requires { IsCharBoundary text.now at }
    ensures found { IfSome result (AreFeeds text.now at count) }
    ensures none { IfNone result (begins (line_feeds count) (rest text.now at) ≡ false) }
{
    let bytes = text.as_bytes();
    let mut end = at;
    while end - at < count {
        if end == bytes.len() {
            return None;
        }
        if bytes[end] != b'\n' {
            return None;
        }
        end += 1;
    }
    Some(end)
}

/// Returns where the value ends in the text, if the text has it in one piece from the start of `line` on. Returns None
/// otherwise. `line` is the first text line, and `empties` counts the empty lines before it.
fn piece_end(
    text: &str,
    empties: usize,
    line: Line,
    indent: usize,
    chomping: Chomping,
) -> Option<usize>
    requires { IsPlaced indent text.now line }
    ensures found { IfSome result (IsPiece indent (chomping_of chomping) text.now empties line) }
    ensures none { IfNone result
        (IsNoPiece indent (chomping_of chomping) text.now empties line) }
{
    if empties > 0 {
        return None;
    }
    let Some(end) = feeds_end(text, line.end, feeds_after(chomping, line)) else {
        return None;
    };
    match text_start(text, line.next, indent) {
        Some(_) => None,
        None => Some(end),
    }
}

/// Returns the value of the lines at `at`, and where they end.
fn lines<'a>(
    alloc: Global,
    text: &'a str,
    at: usize,
    indent: usize,
    style: Style,
) -> Result<(CowStr<'a>, usize), ScanFault>
    requires { IsCharBoundary text.now at }
    ensures found { IfOk result (λ found.
        AreLines indent style.folded (chomping_of style.chomping) text.now at
        (cow_str_bytes found.0) found.1) }
    ensures borrowed { IfOk result (λ found.
        ArePiece indent (chomping_of style.chomping) (rest text.now at) → IsBorrowedStr found.0) }
    ensures none { IfErr result (λ fault.
        Refuses fault (lines_at indent (empties_at indent (rest text.now at)).1 ≡ None)) }
{
    let (empties, place) = empty_lines(text, at, indent);
    let Some(line) = text_line(text, place, indent)? else {
        return Ok((no_lines(alloc, style.chomping, empties)?, place));
    };
    if let Some(end) = piece_end(text, empties, line, indent, style.chomping) {
        return Ok((CowStr::Borrowed(&text[line.start..end]), line.next));
    }
    joined_lines(alloc, text, empties, line, indent, style)
}

/// Returns the value of `empties` empty lines, the text line `first` and all lines after it, and where they end.
fn joined_lines<'a>(
    alloc: Global,
    text: &str,
    empties: usize,
    first: Line,
    indent: usize,
    style: Style,
) -> Result<(CowStr<'a>, usize), ScanFault>
    requires { IsPlaced indent text.now first }
    ensures found { IfOk result (λ found. ArePushed indent style.folded
        (chomping_of style.chomping) text.now first (line_feeds empties)
        (cow_str_bytes found.0) found.1) }
    ensures none { IfErr result (λ fault.
        Refuses fault (lines_at indent (rest text.now first.next) ≡ None)) }
{
    let mut value = String::with_capacity(alloc, first_room(empties, first))?;
    push_line_feeds(&mut value, empties)?;
    let end = push_lines(&mut value, text, first, indent, style)?;
    give_back_room(&mut value);
    Ok((CowStr::Owned(value), end))
}

/// Returns the least indentation of a node or a scalar below an indentation of `n`, which is -1 at the top of a
/// document.
pub fn least_indent(n: i64) -> usize
    ensures value { result ≡ least_indent n }
    ensures fits { result ≤ 2 ^ 63 }
{
    if n < 0 { 0 } else { n as usize + 1 }
}

/// Returns the indentation of the lines at `at`, which is `least` or more.
fn indent_at(text: &str, at: usize, least: usize, digit: Option<u8>) -> Result<usize, ScanFault>
    requires boundary { IsCharBoundary text.now at }
    requires fits { least ≤ 2 ^ 63 }
    ensures found { IfOk result (λ indent. find_indent digit least (rest text.now at)
        ≡ Some indent) }
    ensures none { IfErr result (λ fault.
        Refuses fault (find_indent digit least (rest text.now at) ≡ None)) }
{
    match digit {
        Some(digit) => Ok(least.saturating_sub(1) + digit as usize),
        None => detected(text, at, least),
    }
}

/// The two forms of a block scalar.
#[derive(Clone, Copy)]
enum Form {
    Literal,
    Folded,
}

impl Form {
    fn is_folded(self) -> bool
        ensures { result ≡ is_folded self }
    {
        match self {
            Form::Literal => false,
            Form::Folded => true,
        }
    }
}

/// Returns the value of the scalar of this form whose header ends at `at`, and where its lines end.
fn body<'a>(
    alloc: Global,
    text: &'a str,
    at: usize,
    n: i64,
    header: &Header,
    form: Form,
) -> Result<(CowStr<'a>, usize), ScanFault>
    requires boundary { IsCharBoundary text.now at }
    requires below { negsuc 0 ≤ℤ n }
    ensures found { IfOk result (λ found.
        IsBodyAt (least_indent n) (is_folded form) header.now text.now at
        (cow_str_bytes found.0) found.1) }
    ensures line { IsLineStart text.now at
        → IfOk result (λ found. IsLineStart text.now found.1) }
    ensures borrowed { IfOk result (λ found.
        IsPieceAt (least_indent n) header.now text.now at found.1 → IsBorrowedStr found.0) }
    ensures none { IfErr result (λ fault.
        Refuses fault (NoBody header.now.digit (least_indent n) (rest text.now at))) }
{
    let indent = indent_at(text, at, least_indent(n), header.digit)?;
    let style = Style {
        folded: form.is_folded(),
        chomping: header.chomping,
    };
    lines(alloc, text, at, indent, style)
}

/// Returns the value of the literal scalar whose header ends at `at`, and its end (YAML 1.2.2, 8.1.2). The end is after
/// its last text line or empty line, or `at` where it has neither.
///
/// The scalar is below an indentation of `n`, which is -1 at the top of a document. Of the header, the digit, from 1 to
/// 9, and the chomping are used; `folded` is not. Each break in the value is one line feed. The value is borrowed
/// where the text has it in one piece. That is where it is the text of the only text line with the line feeds that
/// follow it, or where it is empty and there is no text line. Memory for any other value is allocated once, or a second
/// time where it is much longer than its first line. A value of more than 4 KiB grows as any `String` does. What a long
/// value has to spare at its end is given back.
///
/// # Errors
///
/// [`ScanFault::At`] only if no such scalar is at `at`: if a line of spaces before the first text line is too wide, or
/// a line holds a character that no line may hold. [`ScanFault::OutOfMemory`] if there is no memory for a value that is
/// not borrowed.
pub fn literal<'a>(
    alloc: Global,
    text: &'a str,
    at: usize,
    n: i64,
    header: &Header,
) -> Result<(CowStr<'a>, usize), ScanFault>
    requires boundary { IsCharBoundary text.now at }
    requires below { negsuc 0 ≤ℤ n }
    ensures found { IfOk result (λ found.
        IsBodyAt (least_indent n) false header.now text.now at (cow_str_bytes found.0) found.1) }
    ensures line { IsLineStart text.now at
        → IfOk result (λ found. IsLineStart text.now found.1) }
    ensures borrowed { IfOk result (λ found.
        IsPieceAt (least_indent n) header.now text.now at found.1 → IsBorrowedStr found.0) }
    ensures none { IfErr result (λ fault.
        Refuses fault (NoBody header.now.digit (least_indent n) (rest text.now at))) }
{
    body(alloc, text, at, n, header, Form::Literal)
}

/// Returns the value of the folded scalar whose header ends at `at`, and its end (YAML 1.2.2, 8.1.3). The end is after
/// its last text line or empty line, or `at` where it has neither.
///
/// A break between two text lines that do not begin with whitespace is folded: it is one space, or a line feed for each
/// empty line there. All else is as in a [`literal`] scalar, errors included.
pub fn folded<'a>(
    alloc: Global,
    text: &'a str,
    at: usize,
    n: i64,
    header: &Header,
) -> Result<(CowStr<'a>, usize), ScanFault>
    requires boundary { IsCharBoundary text.now at }
    requires below { negsuc 0 ≤ℤ n }
    ensures found { IfOk result (λ found.
        IsBodyAt (least_indent n) true header.now text.now at (cow_str_bytes found.0) found.1) }
    ensures line { IsLineStart text.now at
        → IfOk result (λ found. IsLineStart text.now found.1) }
    ensures borrowed { IfOk result (λ found.
        IsPieceAt (least_indent n) header.now text.now at found.1 → IsBorrowedStr found.0) }
    ensures none { IfErr result (λ fault.
        Refuses fault (NoBody header.now.digit (least_indent n) (rest text.now at))) }
{
    body(alloc, text, at, n, header, Form::Folded)
}
