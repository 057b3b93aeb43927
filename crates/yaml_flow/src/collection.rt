// Flow collections, read with an explicit stack of open brackets (YAML 1.2.2, 7.4).
ghost use Rattle.std.specs.Prelude.{◌≡◌, ℕ, Bool, ◌+◌, ◌-◌, ◌*◌, ◌==◌, ◌<◌, ◌≤◌, false, List, ◌++◌, [], ◌∷◌, Some};
ghost use Rattle.std.specs.Prelude.{None, length, IfOk, IfErr, OnOk, IfSome, IfNone};
ghost use Rattle.yaml_flow.specs.Prelude.{IsCharBoundary, rest, open_brace, open_bracket, first, in_flow, context_of};
ghost use Rattle.yaml_flow.specs.Prelude.{event_of, style_of, line_starts, Refuses, closer, BorrowsPlain};
ghost use Rattle.yaml_flow.specs.FlowNodes.{Appended, FlowNodeRead, NoFlowNodeFound};
ghost use Rattle.yaml_flow.specs.Frames.{Collection, Stack, Stands, Waits, AfterQuestion, AtEntry, EventList, Kept, Pushes, ends_plain, is_plain_style, AtNode, EntryRead, BeforeGap, IsBracket, LineMoves, Onward, Passes, bracket_start, bracket_end, in_sequence, steps_left, pair_start, place_of};
ghost use Rattle.yaml_scan.specs.Gaps.{NoGap};

use crate::pair::plug;
use crate::push::{push, push_scalar};
use crate::refusals::{bracket_fault, no_scalar, why_not_ended};
use crate::scalar::scalar_at;
use std::alloc::Global;
use yaml_events::{Event, Events, FlowContext, ScanFault, Style, Why};
use yaml_scan::{gap_end, safe_at, stands_at};

/// Which part of an entry is being read.
#[derive(Clone, Copy)]
pub(crate) enum Part {
    /// Its node, without `?`: its key, or in a sequence perhaps all of it.
    First,
    /// Its key after `?`.
    Asked,
    /// Its value.
    Value,
}

/// Which collection an open bracket begins.
#[derive(Clone, Copy)]
pub(crate) enum BracketKind {
    /// `[`: a flow sequence (7.4.1).
    Sequence,
    /// `{`: a flow mapping (7.4.2).
    Mapping,
}

/// An open bracket, with what waits in it for the node that is being read.
#[derive(Clone, Copy)]
pub(crate) struct Open {
    pub(crate) kind: BracketKind,
    pub(crate) part: Part,
    /// Where that node starts.
    pub(crate) start: usize,
    /// How many events are before it.
    pub(crate) before: usize,
}

/// What is the same for all brackets of one call: the least number of spaces of a further line, and the context between
/// the brackets.
#[derive(Clone, Copy)]
pub(crate) struct Setting {
    pub(crate) n: u64,
    pub(crate) context: FlowContext,
}

/// How a node ends. It decides which `:` after it is that of a pair.
#[derive(Clone, Copy)]
pub(crate) enum NodeEnd {
    /// As a plain scalar does: a `:` before a safe character would belong to it.
    Plain,
    /// By a quote or a bracket.
    Delimited,
}

/// What is read next.
#[derive(Clone, Copy)]
pub(crate) enum Next {
    /// The closing bracket, or an entry, may start here.
    Entry { at: usize },
    /// The node that the innermost bracket waits for starts here.
    Node { at: usize },
    /// An entry and the gap after it have been read.
    AfterEntry { at: usize },
    /// The innermost bracket is closed.
    Closed { end: usize },
}

pub(crate) fn fault(at: usize, why: Why) -> ScanFault {
    ScanFault::At { at, why }
}

fn closing(kind: BracketKind) -> u8
    ensures { result ≡ closer (in_sequence kind) }
{
    match kind {
        BracketKind::Sequence => b']',
        BracketKind::Mapping => b'}',
    }
}

fn start_event<'a>(kind: BracketKind) -> Event<'a>
    ensures meant { event_of result ≡ bracket_start (in_sequence kind) }
    ensures borrowed { (text : List ℕ) → BorrowsPlain text result }
{
    match kind {
        BracketKind::Sequence => Event::SeqStart,
        BracketKind::Mapping => Event::MapStart,
    }
}

fn end_event<'a>(kind: BracketKind) -> Event<'a>
    ensures meant { event_of result ≡ bracket_end (in_sequence kind) }
    ensures borrowed { (text : List ℕ) → BorrowsPlain text result }
{
    match kind {
        BracketKind::Sequence => Event::SeqEnd,
        BracketKind::Mapping => Event::MapEnd,
    }
}

/// Returns the place after the gap at a place, which may be empty. If the gap goes over lines, `line` becomes the place
/// after it.
#[inline(always)]
pub(crate) fn pass_gap(
    text: &str,
    at: usize,
    setting: Setting,
    line: &mut usize,
) -> Result<usize, ScanFault>
    requires { IsCharBoundary text.now at }
    ensures found { IfOk result (Passes setting.n (context_of setting.context) text.now at) }
    ensures line { IfOk result (LineMoves text.now line.old at line.new) }
    ensures none { IfErr result
        (λ fault. Refuses fault
        (NoGap setting.n (context_of setting.context) (rest text.now at))) }
{
    let gap = gap_end(text, at, setting.n, setting.context)?;
    if gap.is_over_lines {
        *line = gap.end;
    }
    Ok(gap.end)
}

/// Reads the gap after an opening bracket or a comma.
fn pass(text: &str, at: usize, setting: Setting, line: &mut usize) -> Result<Next, ScanFault>
    requires at { IsCharBoundary text.now at }
    requires inside_line { line_starts text.now at ≡ false }
    ensures onward { IfOk result (Onward text.now at) }
    ensures less { IfOk result (λ next.
        steps_left text.now next ≤ 2 * (length text.now - at) + 1) }
    ensures line { IfOk result (λ next. LineMoves text.now line.old at line.new (place_of next)) }
    ensures stands { IfOk result (λ next. (w : Collection) (top : Open) (events : EventList)
        → BeforeGap setting.n (context_of setting.context) text.now w (in_sequence top.kind) at
        events
        → Stands setting.n (context_of setting.context) text.now w top next events) }
    ensures none { IfErr result (λ fault.
        Refuses fault ((w : Collection) (in_seq : Bool) (events : EventList)
        → BeforeGap setting.n (context_of setting.context) text.now w in_seq at events
        → w.reads ≡ None)) }
{
    let end = pass_gap(text, at, setting, line)?;
    Ok(Next::Entry { at: end })
}

/// Reads the closing bracket, or the start of an entry.
fn entry(
    events: &mut Events<'_>,
    text: &str,
    at: usize,
    setting: Setting,
    top: &mut Open,
    line: &mut usize,
) -> Result<Next, ScanFault>
    requires { IsCharBoundary text.now at }
    ensures onward { IfOk result (Onward text.now at) }
    ensures less { IfOk result (λ next.
        steps_left text.now next < 2 * (length text.now - at) + 1) }
    ensures line { IfOk result (λ next. LineMoves text.now line.old at line.new (place_of next)) }
    ensures stands { IfOk result (λ next. (w : Collection)
        → AtEntry setting.n (context_of setting.context) text.now w (in_sequence top.old.kind) at
        events.old
        → Stands setting.n (context_of setting.context) text.now w top.new next events.new) }
    ensures none { IfErr result (λ fault. Refuses fault ((w : Collection)
        → AtEntry setting.n (context_of setting.context) text.now w (in_sequence top.old.kind) at
        events.old
        → w.reads ≡ None)) }
    ensures kept { (k : ℕ) → Kept k events.old events.new }
{
    if stands_at(text, at, closing(top.kind)) {
        push(events, end_event(top.kind))?;
        return Ok(Next::Closed { end: at + 1 });
    }
    if !stands_at(text, at, b'?') || safe_at(text, at + 1, setting.context) {
        top.part = Part::First;
        return Ok(Next::Node { at });
    }
    asked(events, text, at + 1, setting, top, line)
}

/// Reads what is between the `?` of an entry and its key.
fn asked(
    events: &mut Events<'_>,
    text: &str,
    at: usize,
    setting: Setting,
    top: &mut Open,
    line: &mut usize,
) -> Result<Next, ScanFault>
    requires at { IsCharBoundary text.now at }
    requires inside_line { line_starts text.now at ≡ false }
    ensures onward { IfOk result (Onward text.now at) }
    ensures less { IfOk result (λ next. steps_left text.now next ≤ 2 * (length text.now - at)) }
    ensures line { IfOk result (λ next. LineMoves text.now line.old at line.new (place_of next)) }
    ensures stands { IfOk result (λ next. (w : Collection)
        → AfterQuestion setting.n (context_of setting.context) text.now w
        (in_sequence top.old.kind) at events.old
        → Stands setting.n (context_of setting.context) text.now w top.new next events.new) }
    ensures none { IfErr result (λ fault. Refuses fault ((w : Collection)
        → AfterQuestion setting.n (context_of setting.context) text.now w
        (in_sequence top.old.kind) at events.old → w.reads ≡ None)) }
    ensures kept { (k : ℕ) → Kept k events.old events.new }
{
    let key = pass_gap(text, at, setting, line)?;
    if key == at {
        return Err(fault(at, Why::OmittedKey));
    }
    start_pair(events, top.kind)?;
    top.part = Part::Asked;
    Ok(Next::Node { at: key })
}

/// Appends the start of the mapping that a pair in a sequence is. In a mapping there is none.
fn start_pair(events: &mut Events<'_>, kind: BracketKind) -> Result<(), ScanFault>
    ensures written { OnOk result ((text : List ℕ)
        → Appended text events.old events.new (pair_start (in_sequence kind))) }
    ensures none { IfErr result (λ fault. Refuses fault ⊥) }
    ensures kept { (k : ℕ) → Kept k events.old events.new }
{
    match kind {
        BracketKind::Sequence => push(events, Event::MapStart),
        BracketKind::Mapping => Ok(()),
    }
}

/// Reads the comma or the closing bracket after an entry and its gap.
fn after_entry(
    events: &mut Events<'_>,
    text: &str,
    at: usize,
    setting: Setting,
    top: Open,
    line: &mut usize,
) -> Result<Next, ScanFault>
    requires { IsCharBoundary text.now at }
    ensures onward { IfOk result (Onward text.now at) }
    ensures less { IfOk result (λ next. steps_left text.now next < 2 * (length text.now - at)) }
    ensures line { IfOk result (λ next. LineMoves text.now line.old at line.new (place_of next)) }
    ensures stands { IfOk result (λ next. (w : Collection)
        → EntryRead setting.n (context_of setting.context) text.now w (in_sequence top.kind) at
        events.old
        → Stands setting.n (context_of setting.context) text.now w top next events.new) }
    ensures none { IfErr result (λ fault. Refuses fault ((w : Collection)
        → EntryRead setting.n (context_of setting.context) text.now w (in_sequence top.kind) at
        events.old
        → w.reads ≡ None)) }
    ensures kept { (k : ℕ) → Kept k events.old events.new }
{
    if stands_at(text, at, b',') {
        return pass(text, at + 1, setting, line);
    }
    if stands_at(text, at, closing(top.kind)) {
        push(events, end_event(top.kind))?;
        return Ok(Next::Closed { end: at + 1 });
    }
    Err(fault(at, why_not_ended(text, at)))
}

fn in_flow(c: FlowContext) -> FlowContext
    ensures { context_of result ≡ in_flow (context_of c) }
{
    match c {
        FlowContext::Outer | FlowContext::Inner => FlowContext::Inner,
        FlowContext::BlockKey | FlowContext::FlowKey => FlowContext::FlowKey,
    }
}

/// Returns the kind of the opening bracket at `at`. Returns None if there is none.
pub(crate) fn bracket_at(text: &str, at: usize) -> Option<BracketKind>
    requires { IsCharBoundary text.now at }
    ensures found { IfSome result (λ kind. IsBracket text.now at (in_sequence kind)) }
    ensures none { IfNone result
        ((first (λ x. x == open_bracket) (rest text.now at) ≡ false)
        × (first (λ x. x == open_brace) (rest text.now at) ≡ false)) }
{
    if stands_at(text, at, b'[') {
        return Some(BracketKind::Sequence);
    }
    if stands_at(text, at, b'{') {
        return Some(BracketKind::Mapping);
    }
    None
}

/// Appends the start of the collection whose bracket opens at `at`, and returns the open bracket.
fn begin(events: &mut Events<'_>, at: usize, kind: BracketKind) -> Result<Open, ScanFault>
    ensures kind { IfOk result (λ top. top.kind ≡ kind) }
    ensures written { OnOk result ((text : List ℕ)
        → Appended text events.old events.new (bracket_start (in_sequence kind) ∷ [])) }
    ensures none { IfErr result (λ fault. Refuses fault ⊥) }
    ensures kept { (k : ℕ) → Kept k events.old events.new }
{
    let before = events.len();
    push(events, start_event(kind))?;
    Ok(Open {
        kind,
        part: Part::First,
        start: at,
        before,
    })
}

fn push_open(outer: &mut Vec<Open>, top: Open) -> Result<(), ScanFault>
    ensures ok { OnOk result (outer.new.items ≡ outer.old.items ++ top ∷ []) }
    ensures none { IfErr result (λ fault. Refuses fault ⊥) }
{
    match outer.push(top) {
        Ok(()) => Ok(()),
        Err(_) => Err(ScanFault::OutOfMemory),
    }
}

/// Reads the node that the innermost bracket waits for, or the bracket that opens it.
fn node<'a>(
    alloc: Global,
    events: &mut Events<'a>,
    text: &'a str,
    at: usize,
    setting: Setting,
    top: &mut Open,
    outer: &mut Vec<Open>,
    line: &mut usize,
) -> Result<Next, ScanFault>
    requires at { IsCharBoundary text.now at }
    requires line { line.old ≤ at }
    requires inside { in_flow (context_of setting.context) ≡ context_of setting.context }
    ensures onward { IfOk result (Onward text.now at) }
    ensures less { IfOk result (λ next. steps_left text.now next < 2 * (length text.now - at)) }
    ensures line { IfOk result (λ next. LineMoves text.now line.old at line.new (place_of next)) }
    ensures opened { OnOk result (Pushes outer.old.items at outer.new.items) }
    ensures stands { IfOk result (λ next. (whole inner : Collection) (around : List Collection)
        → Stack setting.n (context_of setting.context) text.now whole around outer.old.items inner
        → AtNode setting.n (context_of setting.context) text.now inner top.old at events.old
        → Waits setting.n (context_of setting.context) text.now whole outer.new.items top.new next
        events.new) }
    ensures none { IfErr result (λ fault. Refuses fault ((w : Collection)
        → AtNode setting.n (context_of setting.context) text.now w top.old at events.old
        → w.reads ≡ None)) }
    ensures kept { (k : ℕ) → Kept k events.old events.new }
{
    if at == text.len() {
        return Err(fault(at, Why::Flow));
    }
    top.start = at;
    top.before = events.len();
    let Some(kind) = bracket_at(text, at) else {
        return scalar(alloc, events, text, setting, top, line);
    };
    push_open(outer, *top)?;
    *top = begin(events, at, kind)?;
    pass(text, at + 1, setting, line)
}

/// Reads the scalar at the start of the node that the innermost bracket waits for.
fn scalar<'a>(
    alloc: Global,
    events: &mut Events<'a>,
    text: &'a str,
    setting: Setting,
    top: &mut Open,
    line: &mut usize,
) -> Result<Next, ScanFault>
    requires at { IsCharBoundary text.now top.old.start }
    requires line { line.old ≤ top.old.start }
    requires count { top.old.before ≡ length events.old }
    requires no_seq { first (λ x. x == open_bracket) (rest text.now top.old.start) ≡ false }
    requires no_map { first (λ x. x == open_brace) (rest text.now top.old.start) ≡ false }
    requires inside { in_flow (context_of setting.context) ≡ context_of setting.context }
    ensures onward { IfOk result (Onward text.now top.old.start) }
    ensures less { IfOk result (λ next.
        steps_left text.now next < 2 * (length text.now - top.old.start)) }
    ensures line { IfOk result (λ next.
        LineMoves text.now line.old top.old.start line.new (place_of next)) }
    ensures stands { IfOk result (λ next. (w : Collection)
        → AtNode setting.n (context_of setting.context) text.now w top.old top.old.start
        events.old
        → Stands setting.n (context_of setting.context) text.now w top.new next events.new) }
    ensures none { IfErr result (λ fault. Refuses fault ((w : Collection)
        → AtNode setting.n (context_of setting.context) text.now w top.old top.old.start
        events.old
        → w.reads ≡ None)) }
    ensures kept { (k : ℕ) → Kept k events.old events.new }
{
    let start = top.start;
    let found = match scalar_at(alloc, text, start, setting.n, setting.context) {
        Ok(found) => found,
        Err(fault) => return Err(no_scalar(text, *top, fault)),
    };
    let end = found.end;
    let node_end = node_end(found.style);
    if found.is_over_lines(text, start) {
        *line = end;
    }
    push_scalar(events, start, found)?;
    plug(events, text, end, node_end, setting, top, line)
}

fn node_end(style: Style) -> NodeEnd
    ensures { ends_plain result ≡ is_plain_style (style_of style) }
{
    match style {
        Style::Plain => NodeEnd::Plain,
        _ => NodeEnd::Delimited,
    }
}

/// Reads the collection whose bracket opens at a place: appends its events, and returns the place after it.
#[inline(never)]
pub(crate) fn collection<'a>(
    alloc: Global,
    events: &mut Events<'a>,
    text: &'a str,
    at: usize,
    kind: BracketKind,
    n: u64,
    c: FlowContext,
) -> Result<usize, ScanFault>
    requires at { IsCharBoundary text.now at }
    requires bracket { IsBracket text.now at (in_sequence kind) }
    ensures found { IfOk result (λ end.
        FlowNodeRead n (context_of c) text.now at end events.old events.new) }
    ensures none { IfErr result (λ fault.
        Refuses fault (NoFlowNodeFound n (context_of c) text.now at)) }
    ensures kept { (k : ℕ) → Kept k events.old events.new }
{
    let mut outer: Vec<Open> = Vec::new(alloc);
    match collection_end(alloc, events, text, at, kind, n, c, &mut outer) {
        Ok(end) => Ok(end),
        Err(fault) => Err(bracket_fault(text, innermost(&outer, at), c, fault)),
    }
}

/// Returns where the innermost open bracket is. `outer` has the brackets around it, and the outermost one is at `at`.
fn innermost(outer: &[Open], at: usize) -> usize {
    match outer.last() {
        Some(open) => open.start,
        None => at,
    }
}

/// Reads the flow collection at `at`, as [`collection`] does. `outer` is the list of the brackets around the innermost
/// open one, the outermost first. It is empty at first. After a failure it has those where the reading stopped.
#[inline(always)]
fn collection_end<'a>(
    alloc: Global,
    events: &mut Events<'a>,
    text: &'a str,
    at: usize,
    kind: BracketKind,
    n: u64,
    c: FlowContext,
    outer: &mut Vec<Open>,
) -> Result<usize, ScanFault>
    requires at { IsCharBoundary text.now at }
    requires bracket { IsBracket text.now at (in_sequence kind) }
    requires empty { outer.old.items ≡ [] }
    ensures found { IfOk result (λ end.
        FlowNodeRead n (context_of c) text.now at end events.old events.new) }
    ensures none { IfErr result (λ fault.
        Refuses fault (NoFlowNodeFound n (context_of c) text.now at)) }
    ensures kept { (k : ℕ) → Kept k events.old events.new }
{
    let setting = Setting {
        n,
        context: in_flow(c),
    };
    // No break is between this place and the place that is read. Each open node that started before it has a break
    // after its start.
    let mut line = at;
    let mut top = begin(events, at, kind)?;
    let mut next = pass(text, at + 1, setting, &mut line)?;
    'nodes: loop {
        next = match next {
            Next::Entry { at } => entry(events, text, at, setting, &mut top, &mut line)?,
            Next::Node { at } => node(
                alloc, events, text, at, setting, &mut top, outer, &mut line,
            )?,
            Next::AfterEntry { at } => after_entry(events, text, at, setting, top, &mut line)?,
            Next::Closed { end } => match outer.pop() {
                None => return Ok(end),
                Some(frame) => {
                    top = frame;
                    plug(
                        events,
                        text,
                        end,
                        NodeEnd::Delimited,
                        setting,
                        &mut top,
                        &mut line,
                    )?
                }
            },
        };
    }
}
