// Appending and inserting events, with the fault of a scanner.
ghost use Rattle.std.specs.Prelude.{◌≡◌, ℕ, ◌≤◌, [], ◌∷◌, ◌++◌, length, insert, OnOk, IfErr};
ghost use Rattle.yaml_flow.specs.Prelude.{Refuses, MapStart, Scalar};
ghost use Rattle.yaml_events.specs.Omitted.{AppendsOmitted};
ghost use Rattle.std.specs.declared.borrow.CowStr.TheVariants.{Borrowed};
ghost use Rattle.yaml_flow.specs.Frames.{Kept};
ghost use Rattle.yaml_flow.specs.Scalars.{scalar_event_at};

use crate::scalar::FlowScalar;
use std::borrow::CowStr;
use yaml_events::{Event, Events, ScanFault, Span, Style};

/// Appends an event.
#[inline(always)]
pub(crate) fn push<'a>(events: &mut Events<'a>, event: Event<'a>) -> Result<(), ScanFault>
    ensures ok { OnOk result (events.new ≡ events.old ++ event.entry ∷ []) }
    ensures none { IfErr result (λ fault. Refuses fault ⊥) }
    ensures kept { (k : ℕ) → Kept k events.old events.new }
{
    match events.push(event) {
        Ok(()) => Ok(()),
        Err(_) => Err(ScanFault::OutOfMemory),
    }
}

/// Appends the event of a scalar that starts at `start`. One whose value is borrowed needs no event on the way.
#[inline(always)]
pub(crate) fn push_scalar<'a>(
    events: &mut Events<'a>,
    start: usize,
    scalar: FlowScalar<'a>,
) -> Result<(), ScanFault>
    ensures ok { OnOk result (events.new ≡ events.old ++ scalar_event_at start scalar.entry ∷ []) }
    ensures none { IfErr result (λ fault. Refuses fault ⊥) }
    ensures kept { (k : ℕ) → Kept k events.old events.new }
{
    let FlowScalar { style, value, end } = scalar;
    let span = Span { start, end };
    match value {
        CowStr::Borrowed(value) => push_borrowed(events, style, span, value),
        CowStr::Owned(_) => push(events, Event::Scalar { style, span, value }),
    }
}

/// Appends the event of a scalar whose value is borrowed.
#[inline(always)]
fn push_borrowed<'a>(
    events: &mut Events<'a>,
    style: Style,
    span: Span,
    value: &'a str,
) -> Result<(), ScanFault>
    ensures ok { OnOk result
        (events.new ≡ events.old ++ Scalar style span (Borrowed value.entry) ∷ []) }
    ensures none { IfErr result (λ fault. Refuses fault ⊥) }
    ensures kept { (k : ℕ) → Kept k events.old events.new }
{
    match events.push_borrowed(style, span, value) {
        Ok(()) => Ok(()),
        Err(_) => Err(ScanFault::OutOfMemory),
    }
}

/// Appends the event of a node that is omitted at a place.
pub(crate) fn push_omitted(events: &mut Events<'_>, at: usize) -> Result<(), ScanFault>
    ensures ok { OnOk result (AppendsOmitted at events.old events.new) }
    ensures none { IfErr result (λ fault. Refuses fault ⊥) }
    ensures kept { (k : ℕ) → Kept k events.old events.new }
{
    match events.push_omitted(at) {
        Ok(()) => Ok(()),
        Err(_) => Err(ScanFault::OutOfMemory),
    }
}

/// Inserts the start of a mapping before the event at `at`, counted from 0.
pub(crate) fn insert_map_start(events: &mut Events<'_>, at: usize) -> Result<(), ScanFault>
    requires { at ≤ length events.old }
    ensures ok { OnOk result (events.new ≡ insert events.old at MapStart) }
    ensures none { IfErr result (λ fault. Refuses fault ⊥) }
    ensures kept { (k : ℕ) → k ≤ at → Kept k events.old events.new }
{
    match events.insert_map_start(at) {
        Ok(()) => Ok(()),
        Err(_) => Err(ScanFault::OutOfMemory),
    }
}
