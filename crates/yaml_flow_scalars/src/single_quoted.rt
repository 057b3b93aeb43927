// Scalars in single quotes (YAML 1.2.2, 7.3.2).
ghost use Rattle.std.specs.Prelude.{◌≡◌, ◌+◌, ◌-◌, ◌<◌, ◌≤◌, false, IfOk, IfErr, IfSome, IfNone, None};
ghost use Rattle.yaml_flow_scalars.specs.Prelude.{IsCharBoundary, chars, cow_str_bytes, rest, IsRun, single_style};
ghost use Rattle.yaml_flow_scalars.specs.Prelude.{one_line, first, quote, context_of, line_starts, Refuses};
ghost use Rattle.yaml_flow_scalars.specs.Folds.{IsFold};
ghost use Rattle.yaml_flow_scalars.specs.SingleScalars.{content, BorrowsContent, IsInside, NoFoldIn, read_inside};
ghost use Rattle.yaml_flow_scalars.specs.Standing.{ScalarAt, NoScalarAt, IsUnbroken};

use crate::fold::{Fold, fold_at, fold_fault, push_fold, push_line, white_start};
use crate::unclosed::{Quotes, quote_fault};
use std::alloc::Global;
use std::borrow::CowStr;
use yaml_events::{FlowContext, ScanFault, Why};
use yaml_scan::{Class, break_end, is_on_one_line, run_end, stands_at};

/// Returns the value of the scalar in single quotes at `at` (7.3.2), and the place after its closing quote. Further
/// lines are indented by `n` spaces or more; a key has none. The value of a scalar on one line without a pair of quotes
/// in it is borrowed from the text, and takes no memory.
///
/// # Errors
///
/// [`ScanFault::At`] only if no such scalar is at `at`, with the place at fault and the reason: `Quote` with `at` if no
/// quote opens or closes it, `Character` at a control character, `Key` if a key goes over lines, `Indent` or `Marker`
/// if a further line is indented too little or is a document marker. [`ScanFault::OutOfMemory`] if there is no memory
/// for a value that is not borrowed.
#[inline(never)]
pub fn single<'a>(
    alloc: Global,
    text: &'a str,
    at: usize,
    n: u64,
    context: FlowContext,
) -> Result<(CowStr<'a>, usize), ScanFault>
    requires { IsCharBoundary text.now at }
    ensures found { IfOk result (λ r.
        ScalarAt single_style n (context_of context) text.now at (chars (cow_str_bytes r.0)) r.1) }
    ensures none { IfErr result (λ fault.
        Refuses fault (NoScalarAt single_style n (context_of context) text.now at)) }
    ensures borrowed { IfOk result (λ r. BorrowsContent text.now (at + 1) (r.1 - 1) r.0) }
    ensures unbroken { IfOk result (λ r. IsUnbroken text.now at r.0 r.1) }
    ensures ends_inside_line { IfOk result (λ r. line_starts text.now r.1 ≡ false) }
{
    if !stands_at(text, at, b'\'') {
        return Err(ScanFault::At {
            at,
            why: Why::Quote,
        });
    }
    unquoted(alloc, text, at + 1, n, context)
}

/// Returns the value between the quotes, from the place after the opening one on, and the place after the closing one.
fn unquoted<'a>(
    alloc: Global,
    text: &'a str,
    start: usize,
    n: u64,
    context: FlowContext,
) -> Result<(CowStr<'a>, usize), ScanFault>
    requires start { IsCharBoundary text.now start }
    requires opened { 0 < start }
    ensures found { IfOk result (λ r.
        IsInside n (context_of context) text.now start (chars (cow_str_bytes r.0)) r.1) }
    ensures none { IfErr result (λ fault.
        Refuses fault (read_inside n (context_of context) (rest text.now start) ≡ None)) }
    ensures borrowed { IfOk result (λ r. BorrowsContent text.now start (r.1 - 1) r.0) }
    ensures unbroken { IfOk result (λ r. IsUnbroken text.now start r.0 r.1) }
{
    let mut value = String::new(alloc);
    let mut place = start;
    'runs: loop {
        let end = run_end(text, place, Class::SingleQuoted);
        if stands_at(text, end, b'\'') {
            if stands_at(text, end + 1, b'\'') {
                push_line(&mut value, &text[place..end + 1])?;
                place = end + 2;
                continue;
            }
            if place == start {
                return Ok((CowStr::Borrowed(&text[start..end]), end + 1));
            }
            value.push_str(&text[place..end])?;
            return Ok((CowStr::Owned(value), end + 1));
        }
        let white = white_start(text, place, end);
        let Some(fold) = fold_in(text, end, n, context) else {
            return Err(fault_at(text, start, end, context));
        };
        push_line(&mut value, &text[place..white])?;
        push_fold(&mut value, fold.empties)?;
        place = fold.next;
    }
}

/// Returns the fold whose break is at `at`. Returns None if there is none, and in a key.
fn fold_in(text: &str, at: usize, n: u64, context: FlowContext) -> Option<Fold>
    requires { IsCharBoundary text.now at }
    ensures lines { IfSome result (λ fold. one_line (context_of context) ≡ false) }
    ensures found { IfSome result (λ fold. IsFold n text.now at fold.empties fold.next) }
    ensures none { IfNone result (NoFoldIn n (context_of context) text.now at) }
{
    if is_on_one_line(context) {
        return None;
    }
    fold_at(text, at, n)
}

/// Returns why no scalar is between quotes, the first of which is before `start`: it does not go on at `at`, where
/// neither a quote nor a fold is.
#[inline(never)]
fn fault_at(text: &str, start: usize, at: usize, context: FlowContext) -> ScanFault
    requires at { IsCharBoundary text.now at }
    requires opened { 0 < start }
{
    let fault = stop_fault(text, at, context);
    quote_fault(text, start - 1, Quotes::Single, fault)
}

/// Returns why a scalar does not go on at `at`, where neither a quote nor a fold is.
fn stop_fault(text: &str, at: usize, context: FlowContext) -> ScanFault
    requires { IsCharBoundary text.now at }
{
    if break_end(text, at).is_none() {
        let why = if at == text.len() {
            Why::Quote
        } else {
            Why::Character
        };
        return ScanFault::At { at, why };
    }
    if is_on_one_line(context) {
        return ScanFault::At { at, why: Why::Key };
    }
    fold_fault(text, at)
}
