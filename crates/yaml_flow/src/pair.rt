// What follows a node of a flow collection: its entry ends, or a `:` makes it a key (YAML 1.2.2, 7.4.2).
ghost use Rattle.std.specs.Prelude.{◌≡◌, ℕ, ◌+◌, ◌-◌, ◌*◌, ◌==◌, true, false, not, ◌&&◌, ◌||◌, ◌<◌, ◌≤◌, nat_lt};
ghost use Rattle.std.specs.Prelude.{nat_le, List, ◌++◌, length, None, IfOk, IfErr, OnOk};
ghost use Rattle.yaml_flow.specs.Prelude.{IsCharBoundary, rest, first, in_flow, Flow, flow_text, short_key, context_of};
ghost use Rattle.yaml_flow.specs.Prelude.{line_starts, Refuses, is_colon, ends_entry};
ghost use Rattle.yaml_flow.specs.FlowNodes.{Appended};
ghost use Rattle.yaml_flow.specs.Frames.{Collection, Stands, NodeRead, AtColon, BeganPair, Kept, NoPair, absent_events, in_sequence, is_single, is_value, LineMoves, Onward, SameLine, ends_plain, steps_left, pair_end, place_of};
ghost use Rattle.yaml_flow.specs.declared.collection.Next.TheVariants.{AfterEntry};
ghost use Rattle.yaml_chars.specs.Signs;

use crate::collection::{BracketKind, Next, NodeEnd, Open, Part, Setting, fault, pass_gap};
use crate::push::{insert_map_start, push, push_omitted};
use yaml_events::{Event, Events, FlowContext, ScanFault, Why};
use yaml_scan::{at_most_chars, safe_at, stands_at};

/// The most characters between the start of a key on one line and its `:`, in code points (YAML 1.2.2, 7.4.2 and
/// 8.2.2).
pub const KEY_LIMIT: usize = 1024;

/// A key is short if it has at most [`KEY_LIMIT`] characters, with the whitespace before its `:`.
pub fn key_limit()
    ensures { (key : Flow) (gap : List ℕ) → short_key key gap
        ≡ nat_le (length (flow_text key ++ gap)) KEY_LIMIT }
{}

/// Reads what follows the node that the innermost bracket waited for, which ends at `end`: the gap, and perhaps a `:`.
#[inline(always)]
pub(crate) fn plug(
    events: &mut Events<'_>,
    text: &str,
    end: usize,
    node_end: NodeEnd,
    setting: Setting,
    top: &mut Open,
    line: &mut usize,
) -> Result<Next, ScanFault>
    requires start { IsCharBoundary text.now top.old.start }
    requires end { IsCharBoundary text.now end }
    requires order { top.old.start ≤ end }
    requires count { top.old.before ≤ length events.old }
    requires inside_line { line_starts text.now end ≡ false }
    requires line { SameLine text.now line.old top.old.start end }
    requires inside { in_flow (context_of setting.context) ≡ context_of setting.context }
    ensures onward { IfOk result (Onward text.now end) }
    ensures less { IfOk result (λ next. steps_left text.now next ≤ 2 * (length text.now - end)) }
    ensures line { IfOk result (λ next. LineMoves text.now line.old end line.new (place_of next)) }
    ensures stands { IfOk result (λ next. (w : Collection)
        → NodeRead setting.n (context_of setting.context) text.now w top.old node_end end
        events.old
        → Stands setting.n (context_of setting.context) text.now w top.new next events.new) }
    ensures none { IfErr result (λ fault. Refuses fault ((w : Collection)
        → NodeRead setting.n (context_of setting.context) text.now w top.old node_end end
        events.old
        → w.reads ≡ None)) }
    ensures kept { (k : ℕ) → k ≤ top.old.before → Kept k events.old events.new }
{
    let after = pass_gap(text, end, setting, line)?;
    if is_value(top.part) {
        return close_pair(events, *top, after);
    }
    if !colon_at(text, after, node_end, setting.context) {
        return without_value(events, end, after, *top);
    }
    begin_pair(events, text, after, *top, *line)?;
    value(events, text, after, node_end, setting, top, line)
}

fn is_value(part: Part) -> bool
    ensures { result ≡ is_value part }
{
    match part {
        Part::First | Part::Asked => false,
        Part::Value => true,
    }
}

/// Returns whether the `:` of a pair is at a place after its key.
fn colon_at(text: &str, at: usize, key_end: NodeEnd, context: FlowContext) -> bool
    requires { IsCharBoundary text.now at }
    ensures { result ≡ is_colon (context_of context) (ends_plain key_end) (rest text.now at) }
{
    if !stands_at(text, at, b':') {
        return false;
    }
    match key_end {
        NodeEnd::Plain => !safe_at(text, at + 1, context),
        NodeEnd::Delimited => true,
    }
}

/// Ends a pair that is read, as is the gap after it. In a sequence its mapping ends.
fn close_pair(events: &mut Events<'_>, top: Open, after: usize) -> Result<Next, ScanFault>
    ensures next { IfOk result (λ next. next ≡ AfterEntry after) }
    ensures written { OnOk result ((text : List ℕ)
        → Appended text events.old events.new (pair_end (in_sequence top.kind))) }
    ensures none { IfErr result (λ fault. Refuses fault ⊥) }
    ensures kept { (k : ℕ) → Kept k events.old events.new }
{
    match top.kind {
        BracketKind::Sequence => push(events, Event::MapEnd)?,
        BracketKind::Mapping => {}
    }
    Ok(Next::AfterEntry { at: after })
}

/// Returns whether the node is an entry of a sequence without `?`: it is a pair only if a `:` follows.
fn is_single(top: Open) -> bool
    ensures { result ≡ is_single top }
{
    match (top.kind, top.part) {
        (BracketKind::Sequence, Part::First) => true,
        _ => false,
    }
}

/// Ends an entry whose node, or key, ends at a place with no `:` after it.
fn without_value(
    events: &mut Events<'_>,
    end: usize,
    after: usize,
    top: Open,
) -> Result<Next, ScanFault>
    ensures next { IfOk result (λ next. next ≡ AfterEntry after) }
    ensures written { OnOk result
        ((text : List ℕ) → Appended text events.old events.new
        (absent_events (is_single top) (in_sequence top.kind) end)) }
    ensures none { IfErr result (λ fault. Refuses fault ⊥) }
    ensures kept { (k : ℕ) → Kept k events.old events.new }
{
    if is_single(top) {
        return Ok(Next::AfterEntry { at: after });
    }
    push_omitted(events, end)?;
    close_pair(events, top, after)
}

/// Begins the mapping of a pair in a sequence without `?`, once its `:` is found. Fails if the key is not on one line
/// with the `:`, or is too long. For other pairs it does nothing.
#[inline(always)]
fn begin_pair(
    events: &mut Events<'_>,
    text: &str,
    colon: usize,
    top: Open,
    line: usize,
) -> Result<(), ScanFault>
    requires start { IsCharBoundary text.now top.start }
    requires colon { IsCharBoundary text.now colon }
    requires order { top.start ≤ colon }
    requires count { top.before ≤ length events.old }
    ensures begun { OnOk result (BeganPair text.now top line colon events.old events.new) }
    ensures none { IfErr result (λ fault. Refuses fault (NoPair text.now top line colon)) }
    ensures kept { (k : ℕ) → k ≤ top.before → Kept k events.old events.new }
{
    if !is_single(top) {
        return Ok(());
    }
    if line > top.start || !at_most_chars(text, top.start, colon, KEY_LIMIT) {
        return Err(fault(top.start, Why::Key));
    }
    insert_map_start(events, top.before)
}

/// Reads what follows the `:` of a pair.
#[inline(always)]
fn value(
    events: &mut Events<'_>,
    text: &str,
    colon: usize,
    key_end: NodeEnd,
    setting: Setting,
    top: &mut Open,
    line: &mut usize,
) -> Result<Next, ScanFault>
    requires at { IsCharBoundary text.now colon }
    requires stands { first (λ x. x == Signs.colon) (rest text.now colon) ≡ true }
    ensures onward { IfOk result (Onward text.now colon) }
    ensures less { IfOk result (λ next. steps_left text.now next < 2 * (length text.now - colon)) }
    ensures line { IfOk result (λ next.
        LineMoves text.now line.old colon line.new (place_of next)) }
    ensures stands { IfOk result (λ next. (w : Collection)
        → AtColon setting.n (context_of setting.context) text.now w (in_sequence top.old.kind)
        key_end colon events.old
        → Stands setting.n (context_of setting.context) text.now w top.new next events.new) }
    ensures none { IfErr result (λ fault. Refuses fault ((w : Collection)
        → AtColon setting.n (context_of setting.context) text.now w (in_sequence top.old.kind)
        key_end colon events.old → w.reads ≡ None)) }
    ensures kept { (k : ℕ) → Kept k events.old events.new }
{
    let at = pass_gap(text, colon + 1, setting, line)?;
    if is_left_out(text, colon + 1, at, key_end) {
        push_omitted(events, colon + 1)?;
        return close_pair(events, *top, at);
    }
    top.part = Part::Value;
    Ok(Next::Node { at })
}

/// Returns whether the value is omitted after a `:` and the gap from `start` to `at`: the entry ends there, or there is
/// no gap after the `:` of a plain key.
fn is_left_out(text: &str, start: usize, at: usize, key_end: NodeEnd) -> bool
    requires { IsCharBoundary text.now at }
    ensures { result ≡ (ends_entry (rest text.now at) || (ends_plain key_end
        && not (nat_lt start at))) }
{
    if entry_ends(text, at) {
        return true;
    }
    match key_end {
        NodeEnd::Plain => start >= at,
        NodeEnd::Delimited => false,
    }
}

/// Returns whether an entry ends at a place: at a comma, a closing bracket or the end of the text.
pub(crate) fn entry_ends(text: &str, at: usize) -> bool
    requires { IsCharBoundary text.now at }
    ensures { result ≡ ends_entry (rest text.now at) }
{
    if at == text.len() {
        return true;
    }
    if stands_at(text, at, b',') {
        return true;
    }
    if stands_at(text, at, b']') {
        return true;
    }
    stands_at(text, at, b'}')
}
