// Flow nodes.
ghost use Rattle.std.specs.Prelude.{◌≡◌, ℕ, ◌==◌, false, [], ◌∷◌, ◌++◌, IfOk, IfErr};
ghost use Rattle.yaml_flow.specs.Prelude.{IsCharBoundary, rest, open_brace, open_bracket, first, context_of};
ghost use Rattle.yaml_flow.specs.Prelude.{line_starts, Refuses, NoFlowNode};
ghost use Rattle.yaml_flow.specs.FlowNodes.{FlowNodeRead, FlowNodeIs, NoFlowNodeFound};
ghost use Rattle.yaml_flow.specs.Frames.{Kept};
ghost use Rattle.yaml_flow.specs.Scalars.{scalar_event_at};

use crate::collection::{bracket_at, collection};
use crate::push::push_scalar;
use crate::scalar::{FlowScalar, plain_line_at, scalar_at};
use std::alloc::Global;
use yaml_events::{Events, FlowContext, ScanFault};
use yaml_recognizers::flow_nodes::flow_node_stands;

/// Reads the flow node at `at` in the context `c` (YAML 1.2.2, 7.4 and 7.5), appends its events, and returns the place
/// after it.
///
/// Places count bytes from 0 and are on a boundary of a character. Further lines of the node are indented by `n` spaces
/// or more; a key has none.
///
/// # Errors
///
/// [`ScanFault::At`] only if no flow node is at `at`, and [`ScanFault::OutOfMemory`] if there is no memory for the
/// events, a value or the open brackets. The list of events is then as it was.
#[inline(always)]
pub fn flow_node<'a>(
    alloc: Global,
    events: &mut Events<'a>,
    text: &'a str,
    at: usize,
    n: u64,
    c: FlowContext,
) -> Result<usize, ScanFault>
    requires { IsCharBoundary text.now at }
    ensures reads { IfOk result (λ end.
        FlowNodeRead n (context_of c) text.now at end events.old events.new) }
    ensures only { IfOk result (λ end.
        FlowNodeIs n (context_of c) text.now at end events.old events.new) }
    ensures missing { IfErr result (λ fault.
        Refuses fault (NoFlowNodeFound n (context_of c) text.now at)) }
    ensures none { IfErr result
        (λ fault. Refuses fault (NoFlowNode n (context_of c) (line_starts text.now at)
        (rest text.now at))) }
    ensures unchanged { IfErr result (λ _. events.new ≡ events.old) }
{
    flow_node_stands();
    let kept = events.len();
    match read_node(alloc, events, text, at, n, c) {
        Ok(end) => Ok(end),
        Err(fault) => {
            events.truncate(kept);
            Err(fault)
        }
    }
}

/// Reads the flow node at a place. If it fails, events may have been appended.
#[inline(always)]
fn read_node<'a>(
    alloc: Global,
    events: &mut Events<'a>,
    text: &'a str,
    at: usize,
    n: u64,
    c: FlowContext,
) -> Result<usize, ScanFault>
    requires { IsCharBoundary text.now at }
    ensures reads { IfOk result (λ end.
        FlowNodeRead n (context_of c) text.now at end events.old events.new) }
    ensures missing { IfErr result (λ fault.
        Refuses fault (NoFlowNodeFound n (context_of c) text.now at)) }
    ensures kept { (k : ℕ) → Kept k events.old events.new }
{
    if let Some(kind) = bracket_at(text, at) {
        return collection(alloc, events, text, at, kind, n, c);
    }
    if let Some(found) = plain_line_at(text, at, n, c) {
        return put_scalar(events, at, found);
    }
    any_scalar(alloc, events, text, at, n, c)
}

/// Reads the flow scalar at a place, of any kind. If it fails, no event has been appended.
#[inline(never)]
fn any_scalar<'a>(
    alloc: Global,
    events: &mut Events<'a>,
    text: &'a str,
    at: usize,
    n: u64,
    c: FlowContext,
) -> Result<usize, ScanFault>
    requires at { IsCharBoundary text.now at }
    requires no_seq { first (λ x. x == open_bracket) (rest text.now at) ≡ false }
    requires no_map { first (λ x. x == open_brace) (rest text.now at) ≡ false }
    ensures reads { IfOk result (λ end.
        FlowNodeRead n (context_of c) text.now at end events.old events.new) }
    ensures missing { IfErr result (λ fault.
        Refuses fault (NoFlowNodeFound n (context_of c) text.now at)) }
    ensures kept { (k : ℕ) → Kept k events.old events.new }
{
    let found = scalar_at(alloc, text, at, n, c)?;
    put_scalar(events, at, found)
}

/// Appends the event of the flow scalar that starts at `at`. Returns the place after it.
#[inline(always)]
fn put_scalar<'a>(
    events: &mut Events<'a>,
    at: usize,
    found: FlowScalar<'a>,
) -> Result<usize, ScanFault>
    ensures written { IfOk result (λ end. (end ≡ found.entry.end)
        × (events.new ≡ events.old ++ scalar_event_at at found.entry ∷ [])) }
    ensures none { IfErr result (λ fault. Refuses fault ⊥) }
    ensures kept { (k : ℕ) → Kept k events.old events.new }
{
    let end = found.end;
    push_scalar(events, at, found)?;
    Ok(end)
}
