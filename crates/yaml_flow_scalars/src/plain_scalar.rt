// Plain scalars (YAML 1.2.2, 7.3.3).
ghost use Rattle.std.specs.Prelude.{◌≡◌, ℕ, Bool, ◌<◌, ◌≤◌, ◌&&◌, ◌||◌, ◌==◌, nat_lt, true, false, ◌++◌, IsTrue, IfOk};
ghost use Rattle.std.specs.Prelude.{IfErr, IfSome, IfNone, length, slice_index};
ghost use Rattle.yaml_flow_scalars.specs.Prelude.{IsCharBoundary, chars, cow_str_bytes, list_all, string_bytes};
ghost use Rattle.yaml_flow_scalars.specs.Prelude.{no_break, ns, rest, between, colon, plain_style, first, plain_first};
ghost use Rattle.yaml_flow_scalars.specs.Prelude.{plain_next, folded_break, context_of, line_starts, Refuses};
ghost use Rattle.yaml_events.specs.Borrowed.{BorrowsOneLine};
ghost use Rattle.yaml_scan.specs.Classes.{test_of, word};
ghost use Rattle.yaml_flow_scalars.specs.Standing.{ScalarAt, NoScalarAt, IsUnbroken};
ghost use Rattle.yaml_flow_scalars.specs.PlainPlaces.{is_content, letter_or_digit, BeginsPlain, NoPlainBegins, IsPlainPiece, NoPlainPiece, IsPlainRun, IsFirstLine, IsNextLine, NoNextLine, PushesLines};

use crate::fold::{fold_at, push_fold, push_line, white_start};
use std::alloc::{AllocError, Global};
use std::borrow::CowStr;
use yaml_chars::{indicator, next_char, ns};
use yaml_events::{FlowContext, ScanFault, Why};
use yaml_scan::{
    Class, is_marker, is_on_one_line, is_safe, line_starts, run_end, safe_at, white_end,
};

/// A further line of a plain scalar.
#[derive(Clone, Copy)]
struct PlainLine {
    /// The number of empty lines before it.
    empties: usize,
    /// Where its first character after the indentation is.
    start: usize,
    /// The place after its last plain character.
    end: usize,
}

/// Returns the value of the longest plain scalar at `at` (7.3.3, `ns-plain`), and the place after its last character.
/// Further lines are indented by `n` spaces or more; a key has none. The value of a scalar on one line is borrowed from
/// the text.
///
/// # Errors
///
/// [`ScanFault::At`] only if no plain scalar is at `at`, with that place and the reason as far as the first character
/// shows it. [`ScanFault::OutOfMemory`] if there is no memory for a value that goes over lines.
#[inline(always)]
pub fn plain<'a>(
    alloc: Global,
    text: &'a str,
    at: usize,
    n: u64,
    context: FlowContext,
) -> Result<(CowStr<'a>, usize), ScanFault>
    requires { IsCharBoundary text.now at }
    ensures found { IfOk result (λ r.
        ScalarAt plain_style n (context_of context) text.now at (chars (cow_str_bytes r.0)) r.1) }
    ensures none { IfErr result (λ fault.
        Refuses fault (NoScalarAt plain_style n (context_of context) text.now at)) }
    ensures borrowed { IfOk result (λ r. BorrowsOneLine text.now at r.0 r.1) }
    ensures unbroken { IfOk result (λ r. IsUnbroken text.now at r.0 r.1) }
    ensures ends_inside_line { IfOk result (λ r. line_starts text.now r.1 ≡ false) }
{
    let after = first_end(text, at, context)?;
    let end = plain_run_end(text, after, Before::Content, context);
    let Some(line) = next_line(text, end, n, context) else {
        return Ok((CowStr::Borrowed(&text[at..end]), end));
    };
    let mut value = String::new(alloc);
    push_line(&mut value, &text[at..end])?;
    let end = push_lines(&mut value, text, line, n, context)?;
    Ok((CowStr::Owned(value), end))
}

/// Returns the end of the plain scalar at `at`, if it begins with an ASCII letter or digit and is on one line. Most
/// plain scalars are such. Returns None at any other, and where none is at `at`.
#[inline(always)]
pub fn plain_line_end(text: &str, at: usize, n: u64, context: FlowContext) -> Option<usize>
    requires { IsCharBoundary text.now at }
    ensures found { IfSome result (λ end.
        ScalarAt plain_style n (context_of context) text.now at (between text.now at end) end) }
    ensures unbroken { IfSome result (λ end. list_all no_break (between text.now at end) ≡ true) }
    ensures ends_inside_line { IfSome result (λ end. line_starts text.now end ≡ false) }
{
    let Some(end) = plain_first_line_end(text, at, context) else {
        return None;
    };
    if !is_last_line(text, end, n, context) {
        return None;
    }
    Some(end)
}

/// Returns the end of the first line of the plain scalar at `at`, if it begins with an ASCII letter or digit. The
/// caller finds whether a further line follows. Returns None at any other, and where none is at `at`.
#[inline(always)]
pub fn plain_first_line_end(text: &str, at: usize, context: FlowContext) -> Option<usize>
    requires { IsCharBoundary text.now at }
    ensures { IfSome result (IsFirstLine (context_of context) text.now at) }
{
    if !letter_or_digit_at(text, at) {
        return None;
    }
    Some(plain_run_end(text, at + 1, Before::Content, context))
}

/// Returns whether a line of a plain scalar that ends at `at` is seen to be its last one. Where no plain character is
/// on the line after it, it may be the last one too.
#[inline(always)]
fn is_last_line(text: &str, at: usize, n: u64, context: FlowContext) -> bool
    requires { IsCharBoundary text.now at }
    ensures { IsTrue result → NoNextLine n (context_of context) text.now at }
{
    if !is_on_one_line(context) {
        return match fold_at(text, white_end(text, at), n) {
            Some(_) => false,
            None => true,
        };
    }
    true
}

/// Returns the place after the first character of a plain scalar.
#[inline(always)]
fn first_end(text: &str, at: usize, context: FlowContext) -> Result<usize, ScanFault>
    requires { IsCharBoundary text.now at }
    ensures found { IfOk result (BeginsPlain (context_of context) text.now at) }
    ensures none { IfErr result (λ fault.
        Refuses fault (NoPlainBegins (context_of context) text.now at)) }
{
    if letter_or_digit_at(text, at) {
        return Ok(at + 1);
    }
    let Some((character, len)) = next_char(text, at) else {
        return Err(ScanFault::At {
            at,
            why: Why::Character,
        });
    };
    if line_starts(text, at) && is_marker(text, at) {
        return Err(ScanFault::At {
            at,
            why: Why::Marker,
        });
    }
    if !is_first(character, text, at + len, context) {
        return Err(ScanFault::At {
            at,
            why: why_not_first(character),
        });
    }
    Ok(at + len)
}

/// Returns whether an ASCII letter or digit is at `at`: a plain scalar may begin with any of them.
fn letter_or_digit_at(text: &str, at: usize) -> bool
    requires { IsCharBoundary text.now at }
    ensures { result ≡ first letter_or_digit (rest text.now at) }
{
    let bytes = text.as_bytes();
    at < bytes.len() && is_letter_or_digit(bytes[at])
}

fn is_letter_or_digit(byte: u8) -> bool
    ensures { result ≡ letter_or_digit byte }
{
    byte.is_ascii_lowercase() || matches!(byte, b'0'..=b'9' | b'A'..=b'Z')
}

/// Returns whether a plain scalar may begin with a character that ends at `after` (`ns-plain-first`).
fn is_first(character: char, text: &str, after: usize, context: FlowContext) -> bool
    requires { IsCharBoundary text.now after }
    ensures { result ≡ plain_first (context_of context) character (rest text.now after) }
{
    if !ns(character) {
        return false;
    }
    if !indicator(character) {
        return true;
    }
    matches!(character, '?' | ':' | '-') && safe_at(text, after, context)
}

/// Returns why a plain scalar does not begin with a character.
fn why_not_first(character: char) -> Why {
    match character {
        '*' => Why::Alias,
        '&' => Why::Anchor,
        '!' => Why::Tag,
        '%' => Why::Directive,
        ',' | '[' | ']' | '{' | '}' => Why::Flow,
        '\u{feff}' => Why::ByteOrderMark,
        _ => Why::Character,
    }
}

/// What is before a place of a plain scalar.
#[derive(Clone, Copy)]
enum Before {
    /// A character of the scalar that is not whitespace.
    Content,
    /// Whitespace or a break.
    Blank,
}

/// Returns what is before `stop`, where words go from `end` to `words`, and whitespace from there to `stop`.
fn before_stop(before: Before, end: usize, words: usize, stop: usize) -> Before
    requires { words ≤ stop }
    ensures { is_content result ≡ ((nat_lt end words || is_content before) && (stop == words)) }
{
    if words < stop {
        Before::Blank
    } else if end < words {
        Before::Content
    } else {
        before
    }
}

/// Returns the class of words: whitespace, and ASCII characters that are plain wherever they are after the first one.
fn words_of(context: FlowContext) -> Class
    ensures { test_of result ≡ word (context_of context) }
{
    match context {
        FlowContext::Outer | FlowContext::BlockKey => Class::Words,
        FlowContext::Inner | FlowContext::FlowKey => Class::WordsInside,
    }
}

/// Returns the end of the plain character at `at`, where no word goes on (`ns-plain-char`): a `:` or a `#` where one is
/// allowed, or a character that is not ASCII. Words go from `end` to `words`, and whitespace from there to `at`.
#[inline(always)]
fn special_end(
    text: &str,
    at: usize,
    before: Before,
    end: usize,
    words: usize,
    context: FlowContext,
) -> Option<usize>
    requires at { IsCharBoundary text.now at }
    requires order { words ≤ at }
    requires stop { at < length text.now → word (context_of context) (slice_index text.now at)
        ≡ false }
    ensures found { IfSome result (IsPlainPiece (context_of context)
        ((nat_lt end words || is_content before) && (at == words)) text.now at) }
    ensures none { IfNone result (NoPlainPiece (context_of context)
        ((nat_lt end words || is_content before) && (at == words)) text.now at) }
{
    let bytes = text.as_bytes();
    if at == bytes.len() {
        return None;
    }
    let byte = bytes[at];
    if byte == b':' {
        return colon_end(text, at, context);
    }
    if byte < b'#' {
        return None;
    }
    if byte < 128 && byte != b'#' {
        return None;
    }
    decoded_end(text, at, before_stop(before, end, words, at), context)
}

/// Returns the end of the `:` at `at`, if a safe character follows it.
#[inline(always)]
fn colon_end(text: &str, at: usize, context: FlowContext) -> Option<usize>
    requires within { at < length text.now }
    requires colon { slice_index text.now at ≡ colon }
    ensures found { IfSome result (λ end. (black : Bool)
        → IsPlainPiece (context_of context) black text.now at end) }
    ensures none { IfNone result ((black : Bool)
        → NoPlainPiece (context_of context) black text.now at) }
{
    let end = at + 1;
    if safe_at(text, end, context) {
        Some(end)
    } else {
        None
    }
}

/// Returns the end of the plain character at `at`, by the character itself.
#[inline(never)]
fn decoded_end(text: &str, at: usize, before: Before, context: FlowContext) -> Option<usize>
    requires { IsCharBoundary text.now at }
    ensures found { IfSome result (IsPlainPiece (context_of context)
        (is_content before) text.now at) }
    ensures none { IfNone result (NoPlainPiece (context_of context)
        (is_content before) text.now at) }
{
    let Some((character, len)) = next_char(text, at) else {
        return None;
    };
    let end = at + len;
    if is_plain_next(character, before, text, end, context) {
        Some(end)
    } else {
        None
    }
}

/// Returns whether a character that ends at `after` is plain (`ns-plain-char`).
fn is_plain_next(
    character: char,
    before: Before,
    text: &str,
    after: usize,
    context: FlowContext,
) -> bool
    requires { IsCharBoundary text.now after }
    ensures { (previous : ℕ) → ns previous ≡ is_content before
        → result ≡ plain_next (context_of context) previous character (rest text.now after) }
{
    match character {
        ':' => safe_at(text, after, context),
        '#' => matches!(before, Before::Content),
        _ => is_safe(character, context),
    }
}

/// Returns the end of the plain characters from `from` on that are on its line, with the whitespace between them. It is
/// `from` if there is none.
#[inline(always)]
fn plain_run_end(text: &str, from: usize, before: Before, context: FlowContext) -> usize
    requires { IsCharBoundary text.now from }
    ensures { IsPlainRun (context_of context) (is_content before) text.now from result }
{
    let class = words_of(context);
    let mut end = from;
    let mut before = before;
    'runs: loop {
        let stop = run_end(text, end, class);
        let words = white_start(text, end, stop);
        match special_end(text, stop, before, end, words, context) {
            Some(next) => {
                end = next;
                before = Before::Content;
            }
            None => return words,
        }
    }
}

/// Returns the end of the plain characters from `from` on, where a further line begins.
#[inline(never)]
fn further_run_end(text: &str, from: usize, context: FlowContext) -> usize
    requires { IsCharBoundary text.now from }
    ensures { IsPlainRun (context_of context) false text.now from result }
{
    plain_run_end(text, from, Before::Blank, context)
}

/// Returns the further line of a plain scalar after a line that ends at `at`. Returns None if there is none, and in a
/// key.
#[inline(always)]
fn next_line(text: &str, at: usize, n: u64, context: FlowContext) -> Option<PlainLine>
    requires { IsCharBoundary text.now at }
    ensures found { IfSome result (λ line.
        IsNextLine n (context_of context) text.now at line.empties line.start line.end) }
    ensures none { IfNone result (NoNextLine n (context_of context) text.now at) }
{
    if is_on_one_line(context) {
        return None;
    }
    let Some(fold) = fold_at(text, white_end(text, at), n) else {
        return None;
    };
    let end = further_run_end(text, fold.next, context);
    if end == fold.next {
        return None;
    }
    Some(PlainLine {
        empties: fold.empties,
        start: fold.next,
        end,
    })
}

/// Appends what a further line and all lines after it mean. Returns the end of the last one.
#[inline(never)]
fn push_lines(
    value: &mut String,
    text: &str,
    first: PlainLine,
    n: u64,
    context: FlowContext,
) -> Result<usize, AllocError>
    requires order { first.start ≤ first.end }
    requires start { IsCharBoundary text.now first.start }
    requires end { IsCharBoundary text.now first.end }
    ensures { IfOk result (PushesLines n (context_of context) text.now first.end
        (folded_break first.empties ++ between text.now first.start first.end)
        (string_bytes value.old) (string_bytes value.new)) }
{
    let mut line = first;
    'lines: loop {
        push_fold(value, line.empties)?;
        value.push_str(&text[line.start..line.end])?;
        match next_line(text, line.end, n, context) {
            Some(next) => line = next,
            None => return Ok(line.end),
        }
    }
}
