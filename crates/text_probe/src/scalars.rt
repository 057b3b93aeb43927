// Scalars, gaps, and what is safe in a plain scalar.
ghost use Rattle.std.specs.Prelude.{◌≤ℤ◌, negsuc};
ghost use Rattle.std.specs.Str.{IsCharBoundary};

use crate::spots::{BlockSpot, FlowSpot, flow_context, number_of};
use probe_words::{no_order, no_place, shown};
use std::alloc::{AllocError, Global};
use std::borrow::CowStr;
use yaml_block_scalars::{folded, header, literal};
use yaml_events::{BlockContext, ScanFault};
use yaml_flow::scalar_at;
use yaml_flow_scalars::{double, plain, single};
use yaml_scan::{gap_end, is_safe, safe_at};

/// What a call finds at a place.
pub(crate) fn scalar_at_spot(
    alloc: Global,
    call: &str,
    spot: Option<FlowSpot>,
    text: &str,
) -> Result<String, AllocError> {
    match spot {
        Some(spot) if text.is_char_boundary(spot.at) => found_at_spot(alloc, call, spot, text),
        _ => no_place(alloc),
    }
}

/// The same at a place that the text has.
fn found_at_spot(
    alloc: Global,
    call: &str,
    spot: FlowSpot,
    text: &str,
) -> Result<String, AllocError>
    requires { IsCharBoundary text.now spot.at }
{
    let FlowSpot { at, n, context } = spot;
    match call {
        "plain" => found(alloc, plain(alloc, text, at, n, context)),
        "single" => found(alloc, single(alloc, text, at, n, context)),
        "double" => found(alloc, double(alloc, text, at, n, context)),
        "scalar" => any_scalar(alloc, text, spot),
        "gap_end" => gap_at(alloc, text, spot),
        "safe_at" => shown(alloc, &safe_at(text, at, context)),
        _ => no_order(alloc),
    }
}

/// A value and its end, or why there is none.
fn found(
    alloc: Global,
    scalar: Result<(CowStr<'_>, usize), ScanFault>,
) -> Result<String, AllocError> {
    match scalar {
        Ok((value, end)) => {
            let holder = match &value {
                CowStr::Borrowed(_) => "borrowed",
                CowStr::Owned(_) => "owned",
            };
            let value = value.as_str();
            format!(in alloc; "{holder} {value:?} {end}")
        }
        Err(fault) => format!(in alloc; "{fault:?}"),
    }
}

/// The flow scalar at a place, with its style.
fn any_scalar(alloc: Global, text: &str, spot: FlowSpot) -> Result<String, AllocError>
    requires { IsCharBoundary text.now spot.at }
{
    match scalar_at(alloc, text, spot.at, spot.n, spot.context) {
        Ok(scalar) => {
            let lines = if scalar.is_over_lines(text, spot.at) {
                "over lines"
            } else {
                "on one line"
            };
            let value = scalar.value.as_str();
            format!(in alloc; "{} {lines} {value:?} {}", scalar.style, scalar.end)
        }
        Err(fault) => format!(in alloc; "{fault:?}"),
    }
}

/// The gap at a place, or a sentence that says why there is none.
fn gap_at(alloc: Global, text: &str, spot: FlowSpot) -> Result<String, AllocError>
    requires { IsCharBoundary text.now spot.at }
{
    match gap_end(text, spot.at, spot.n, spot.context) {
        Ok(gap) => format!(in alloc; "{gap:?}"),
        Err(fault) => format!(in alloc; "{fault}"),
    }
}

/// The characters of a text that are safe in a plain scalar in a context.
pub(crate) fn safe_of(alloc: Global, context: &str, text: &str) -> Result<String, AllocError> {
    let Some(context) = flow_context(context) else {
        return no_place(alloc);
    };
    let safe: String = text
        .chars()
        .filter(|c| is_safe(*c, context))
        .collect(alloc)?;
    shown(alloc, &safe)
}

/// The header of a block scalar at a place.
pub(crate) fn header_at(alloc: Global, at: &str, text: &str) -> Result<String, AllocError> {
    match number_of(at) {
        Some(at) if text.is_char_boundary(at) => shown(alloc, &header(text, at)),
        _ => no_place(alloc),
    }
}

/// The block scalar at a place, below an indentation of `n`.
pub(crate) fn lines_at(alloc: Global, words: &str, text: &str) -> Result<String, AllocError> {
    match BlockSpot::with(words, BlockContext::Bin) {
        Some(spot) if spot.n >= -1 && text.is_char_boundary(spot.at) => {
            found(alloc, block_scalar(alloc, text, spot.at, spot.n))
        }
        _ => no_place(alloc),
    }
}

/// Reads a block scalar: its header, and the lines after it.
fn block_scalar<'a>(
    alloc: Global,
    text: &'a str,
    at: usize,
    n: i64,
) -> Result<(CowStr<'a>, usize), ScanFault>
    requires at { IsCharBoundary text.now at }
    requires below { negsuc 0 ≤ℤ n }
{
    let (header, end) = header(text, at)?;
    if header.folded {
        folded(alloc, text, end, n, &header)
    } else {
        literal(alloc, text, end, n, &header)
    }
}
