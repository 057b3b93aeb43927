// Scalars in double quotes (YAML 1.2.2, 7.3.1).
ghost use Rattle.std.specs.Prelude.{◌≡◌, ◌≢◌, ◌↔◌, ◌+◌, ◌<◌, ◌≤◌, false, None, IsTrue, IfOk, IfErr, IfSome, IfNone};
ghost use Rattle.std.specs.Prelude.{length, slice_index, codes, if◌then◌else◌};
ghost use Rattle.yaml_flow_scalars.specs.Prelude.{IsCharBoundary, chars, string_bytes, cow_str_bytes, line_break};
ghost use Rattle.yaml_flow_scalars.specs.Prelude.{is_in, rest, IsRun, backslash, double_quote, first, double_style};
ghost use Rattle.yaml_flow_scalars.specs.Prelude.{one_line, escape, quoted_char_fits, hex_digit, digits_after};
ghost use Rattle.yaml_flow_scalars.specs.Prelude.{context_of, line_starts, Refuses};
ghost use Rattle.yaml_flow_scalars.specs.Standing.{ScalarAt, NoScalarAt, IsUnbroken};
ghost use Rattle.yaml_flow_scalars.specs.DoubleScan.{double_value, raw_char, Adds, ClosesAt, EscapeAt, NoEscapeAt, IsEscape, IsDigit, digits_at, IsNumberAt, JoinsAt, NoJoinAt};
ghost use Rattle.yaml_flow_scalars.specs.DoubleBorrowed.{BorrowsVerbatim};

use crate::fold::{Fold, first_room, fold_at, fold_fault, push_fold, white_start};
use crate::unclosed::{Quotes, quote_fault};
use std::alloc::Global;
use std::borrow::CowStr;
use yaml_events::{FlowContext, ScanFault, Why};
use yaml_scan::{Class, break_end, is_on_one_line, push_line_feeds, run_end, stands_at};

/// What an escape means, and the place after it.
#[derive(Clone, Copy)]
struct Escape {
    meant: char,
    end: usize,
}

/// Returns the value of the scalar in double quotes at `at` (7.3.1), and the place after its closing quote. Further
/// lines are indented by `n` spaces or more; a key has none. The value of a scalar with neither a break nor a backslash
/// in it is borrowed from the text, and takes no memory.
///
/// # Errors
///
/// [`ScanFault::At`] only if no such scalar is at `at`. The reason is a missing quote at its start or end, both with
/// the place `at`, an unknown escape, a control character, a break in a key, or a line that is indented too little or
/// is a document marker.
/// [`ScanFault::OutOfMemory`] if there is no memory for a value that is not borrowed.
#[inline(always)]
pub fn double<'a>(
    alloc: Global,
    text: &'a str,
    at: usize,
    n: u64,
    context: FlowContext,
) -> Result<(CowStr<'a>, usize), ScanFault>
    requires { IsCharBoundary text.now at }
    ensures found { IfOk result (λ r.
        ScalarAt double_style n (context_of context) text.now at (chars (cow_str_bytes r.0)) r.1) }
    ensures borrowed { IfOk result (λ r. BorrowsVerbatim text.now at r.0 r.1) }
    ensures none { IfErr result (λ fault.
        Refuses fault (NoScalarAt double_style n (context_of context) text.now at)) }
    ensures unbroken { IfOk result (λ r. IsUnbroken text.now at r.0 r.1) }
    ensures ends_inside_line { IfOk result (λ r. line_starts text.now r.1 ≡ false) }
{
    if !stands_at(text, at, b'"') {
        return Err(ScanFault::At {
            at,
            why: Why::Quote,
        });
    }
    let start = at + 1;
    let end = run_end(text, start, Class::DoubleQuoted);
    if stands_at(text, end, b'"') {
        return Ok((CowStr::Borrowed(&text[start..end]), end + 1));
    }
    match unescaped(alloc, text, start, end, n, context) {
        Ok((value, end)) => Ok((CowStr::Owned(value), end)),
        Err(fault) => Err(quote_fault(text, at, Quotes::Double, fault)),
    }
}

/// Returns the value of a scalar whose first run of characters goes from `start` to `first`, and the place after its
/// closing quote.
#[inline(never)]
fn unescaped(
    alloc: Global,
    text: &str,
    start: usize,
    first: usize,
    n: u64,
    context: FlowContext,
) -> Result<(String, usize), ScanFault>
    requires start { IsCharBoundary text.now start }
    requires run { IsRun raw_char text.now start first }
    requires goes_on { first < length text.now → slice_index text.now first ≢ double_quote }
    ensures ok { IfOk result (λ r. ClosesAt n (context_of context) text.now start first
        (string_bytes r.0) r.1) }
    ensures err { IfErr result (λ fault.
        Refuses fault (double_value n (context_of context) (rest text.now start) ≡ None)) }
{
    let mut value = String::with_capacity(alloc, first_room(first - start))?;
    let mut place = start;
    let mut end = first;
    'runs: while !stands_at(text, end, b'"') {
        place = push_run(&mut value, text, place, end, n, context)?;
        end = run_end(text, place, Class::DoubleQuoted);
    }
    value.push_str(&text[place..end])?;
    Ok((value, end + 1))
}

/// Appends a run of characters, and what the escape or the break after it means. Returns the place after that.
fn push_run(
    value: &mut String,
    text: &str,
    from: usize,
    end: usize,
    n: u64,
    context: FlowContext,
) -> Result<usize, ScanFault>
    requires from { IsCharBoundary text.now from }
    requires run { IsRun raw_char text.now from end }
    requires goes_on { end < length text.now → slice_index text.now end ≢ double_quote }
    ensures further { IfOk result (λ next. end < next) }
    ensures ok { IfOk result (λ next.
        Adds n (context_of context) text.now (string_bytes value.old) from
        (string_bytes value.new) next) }
    ensures err { IfErr result (λ fault.
        Refuses fault (double_value n (context_of context) (rest text.now from) ≡ None)) }
{
    if stands_at(text, end, b'\\') {
        value.push_str(&text[from..end])?;
        return push_escape(value, text, end, n, context);
    }
    if !breaks_at(text, end) {
        let why = if end == text.len() {
            Why::Quote
        } else {
            Why::Character
        };
        return Err(ScanFault::At { at: end, why });
    }
    let white = white_start(text, from, end);
    value.push_str(&text[from..white])?;
    let fold = line_after(text, end, n, context)?;
    push_fold(value, fold.empties)?;
    Ok(fold.next)
}

/// Appends what the escape or the join at `at` means. Returns the place after it.
fn push_escape(
    value: &mut String,
    text: &str,
    at: usize,
    n: u64,
    context: FlowContext,
) -> Result<usize, ScanFault>
    requires within { at < length text.now }
    requires backslash { slice_index text.now at ≡ backslash }
    ensures further { IfOk result (λ next. at < next) }
    ensures ok { IfOk result (λ next.
        Adds n (context_of context) text.now (string_bytes value.old) at
        (string_bytes value.new) next) }
    ensures err { IfErr result (λ fault.
        Refuses fault (double_value n (context_of context) (rest text.now at) ≡ None)) }
{
    if let Some(escape) = escape_at(text, at) {
        value.push(escape.meant)?;
        return Ok(escape.end);
    }
    let fold = line_after(text, at + 1, n, context)?;
    push_line_feeds(value, fold.empties)?;
    Ok(fold.next)
}

/// Returns the fold whose break is at `at`, if lines may be joined there. No other join follows it at once.
#[inline(always)]
fn line_after(text: &str, at: usize, n: u64, context: FlowContext) -> Result<Fold, ScanFault>
    requires { IsCharBoundary text.now at }
    ensures ok { IfOk result (λ fold.
        JoinsAt n (context_of context) text.now at fold.empties fold.next) }
    ensures err { IfErr result (λ fault.
        Refuses fault (NoJoinAt n (context_of context) text.now at)) }
{
    if !breaks_at(text, at) {
        return Err(ScanFault::At {
            at,
            why: Why::Escape,
        });
    }
    if is_on_one_line(context) {
        return Err(ScanFault::At { at, why: Why::Key });
    }
    let Some(fold) = fold_at(text, at, n) else {
        return Err(fold_fault(text, at));
    };
    if stands_at(text, fold.next, b'\\') && breaks_at(text, fold.next + 1) {
        return Err(ScanFault::At {
            at: fold.next,
            why: Why::Escape,
        });
    }
    Ok(fold)
}

/// Returns whether a break is at `at`.
fn breaks_at(text: &str, at: usize) -> bool
    requires { IsCharBoundary text.now at }
    ensures { result ≡ first line_break (rest text.now at) }
{
    break_end(text, at).is_some()
}

/// Returns the escape whose backslash is at `at` (5.7, `c-ns-esc-char`).
fn escape_at(text: &str, at: usize) -> Option<Escape>
    requires within { at < length text.now }
    requires backslash { slice_index text.now at ≡ backslash }
    ensures found { IfSome result (λ escape. EscapeAt text.now at escape.meant escape.end) }
    ensures none { IfNone result (NoEscapeAt text.now at) }
{
    let bytes = text.as_bytes();
    let sign = at + 1;
    if sign == bytes.len() {
        return None;
    }
    let digits = digits_after(bytes[sign]);
    if digits == 0 {
        let Some(meant) = escaped_char(bytes[sign]) else {
            return None;
        };
        return Some(Escape {
            meant,
            end: sign + 1,
        });
    }
    let Some(number) = hex_number(text, sign + 1, digits) else {
        return None;
    };
    let Some(meant) = char::from_u32(number) else {
        return None;
    };
    Some(Escape {
        meant,
        end: sign + 1 + digits,
    })
}

/// Returns how many digits follow the sign of an escape: 0 if it takes none, or if it begins no escape.
fn digits_after(sign: u8) -> usize
    ensures { result ≡ (if is_in sign (codes "xuU") then digits_after sign else 0) }
{
    match sign {
        b'x' => 2,
        b'u' => 4,
        b'U' => 8,
        _ => 0,
    }
}

/// Returns what a sign after a backslash means. Returns None if it takes digits, or if it begins no escape.
fn escaped_char(sign: u8) -> Option<char>
    ensures found { IfSome result (IsEscape sign) }
    ensures none { IfNone result (quoted_char_fits (escape sign) ≡ false) }
{
    match sign {
        b'0' => Some('\0'),
        b'a' => Some('\u{7}'),
        b'b' => Some('\u{8}'),
        b't' | b'\t' => Some('\t'),
        b'n' => Some('\n'),
        b'v' => Some('\u{b}'),
        b'f' => Some('\u{c}'),
        b'r' => Some('\r'),
        b'e' => Some('\u{1b}'),
        b' ' => Some(' '),
        b'"' => Some('"'),
        b'/' => Some('/'),
        b'\\' => Some('\\'),
        b'N' => Some('\u{85}'),
        b'_' => Some('\u{a0}'),
        b'L' => Some('\u{2028}'),
        b'P' => Some('\u{2029}'),
        _ => None,
    }
}

/// Returns the number that `count` hexadecimal digits from `at` on give. Returns None if there are fewer.
fn hex_number(text: &str, at: usize, count: usize) -> Option<u32>
    requires at { IsCharBoundary text.now at }
    requires few { count ≤ 8 }
    ensures found { IfSome result (IsNumberAt text.now at count) }
    ensures none { IfNone result (digits_at text.now at count ≡ false) }
{
    let bytes = text.as_bytes();
    let mut number = 0;
    let mut end = at;
    while end - at < count {
        if end == bytes.len() {
            return None;
        }
        let Some(digit) = hex_digit(bytes[end]) else {
            return None;
        };
        number = number * 16 + digit;
        end += 1;
    }
    Some(number)
}

/// Returns the value of a hexadecimal digit.
fn hex_digit(byte: u8) -> Option<u32>
    ensures found { IfSome result (IsDigit byte) }
    ensures none { IfNone result (hex_digit byte ≡ false) }
{
    match byte {
        b'0'..=b'9' => Some(u32::from(byte - b'0')),
        b'A'..=b'F' => Some(u32::from(byte - b'A') + 10),
        b'a'..=b'f' => Some(u32::from(byte - b'a') + 10),
        _ => None,
    }
}
