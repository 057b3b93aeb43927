// A scalar, a flow collection, or the first pair of a mapping (YAML 1.2.2, 8.2.2 and 8.2.3).
ghost use Rattle.std.specs.Prelude.{◌≡◌, ◌*◌, ◌+◌, ◌-◌, ◌^◌, ◌<◌, ◌≤◌, true, false, [], ◌∷◌, ◌++◌, ◌⊎◌, Some, None};
ghost use Rattle.std.specs.Prelude.{IfSome, IfOk, IfErr, OnOk, length};
ghost use Rattle.yaml_block.specs.Prelude.{IsCharBoundary, rest, question, first, bar, sign, Refuses};
ghost use Rattle.yaml_block.specs.LineValues.{IsRestOfLine};
ghost use Rattle.yaml_block.specs.States.{fits_as_key, IsOpened, Grown, Onward, Leads, FailsBy, BeforeLeaf};

use crate::first_key::has_colon;
use crate::frame::{Leaf, Next, Waits};
use crate::line_sign::Sign;
use crate::line_value::{LineValue, line_value, rest_of_line};
use crate::next_line::NextLine;
use crate::reader::Reader;
use crate::refusals::{line_goes_on, no_node, refusal};
use crate::scalar::begins_block_scalar;
use yaml_events::{Event, FlowContext, ScanFault, Why};
use yaml_flow::{KEY_LIMIT, flow_node};
use yaml_flow_scalars::plain_first_line_end;
use yaml_scan::{at_most_chars, has_break, line_after, sign_at, white_end};

impl<'a> Reader<'a> {
    /// Reads what a block node begins with, where it is no `- `: a block scalar, a flow node, or the first key of a
    /// mapping, which it opens. Appends its events. Returns what is read next, and where.
    ///
    /// Most are plain scalars that are a first key or the rest of their line. Those are read once.
    ///
    /// It fails if no block node begins so, or memory runs out.
    #[inline(always)]
    pub(crate) fn leaf(&mut self, text: &'a str, leaf: Leaf) -> Result<Next, ScanFault>
        requires at { IsCharBoundary text.now leaf.at }
        requires least { leaf.least ≤ 2 ^ 63 }
        requires pairs { IfSome leaf.pairs (λ indent. indent ≤ leaf.at) }
        ensures onward { IfOk result (Onward text.now leaf.at (3 * (length text.now - leaf.at))) }
        ensures leads { IfOk result (Leads text.now (BeforeLeaf text.now leaf) self.old self.new) }
        ensures grown { Grown self.old.events self.new.events }
        ensures none { IfErr result (FailsBy text.now (BeforeLeaf text.now leaf) self.old) }
    {
        if let Some(end) = plain_first_line_end(text, leaf.at, FlowContext::Outer) {
            if let Some(indent) = leaf.pairs {
                if has_colon(text, leaf.at, end) {
                    return self.first_key(text, leaf, indent, end);
                }
            }
            if let Some(scalar) = rest_of_line(text, leaf.at, end, leaf.least) {
                return self.line_leaf(text, leaf, scalar);
            }
        }
        self.any_leaf(text, leaf)
    }

    /// Reads a leaf that is a plain scalar and the rest of its line. Returns the line after it.
    #[inline(always)]
    fn line_leaf(&mut self, text: &'a str, leaf: Leaf, scalar: LineValue) -> Result<Next, ScanFault>
        requires scalar { IsRestOfLine text.now leaf.least scalar }
        requires start { scalar.start ≡ leaf.at }
        ensures onward { IfOk result (Onward text.now leaf.at (3 * (length text.now - leaf.at))) }
        ensures leads { IfOk result (Leads text.now (BeforeLeaf text.now leaf) self.old self.new) }
        ensures grown { Grown self.old.events self.new.events }
        ensures none { IfErr result (λ fault. Refuses fault ⊥) }
    {
        self.put_plain(text, scalar.start, scalar.end)?;
        Ok(Next::Line(NextLine {
            line: scalar.after,
            is_solid: true,
        }))
    }

    /// Reads what a block node begins with, of any kind, as [`Reader::leaf`] does.
    #[inline(always)]
    fn any_leaf(&mut self, text: &'a str, leaf: Leaf) -> Result<Next, ScanFault>
        requires at { IsCharBoundary text.now leaf.at }
        requires least { leaf.least ≤ 2 ^ 63 }
        requires pairs { IfSome leaf.pairs (λ indent. indent ≤ leaf.at) }
        ensures onward { IfOk result (Onward text.now leaf.at (3 * (length text.now - leaf.at))) }
        ensures leads { IfOk result (Leads text.now (BeforeLeaf text.now leaf) self.old self.new) }
        ensures grown { Grown self.old.events self.new.events }
        ensures none { IfErr result (FailsBy text.now (BeforeLeaf text.now leaf) self.old) }
    {
        if begins_block_scalar(text, leaf.at) {
            return self.block_scalar(text, leaf);
        }
        if let Some(indent) = leaf.pairs {
            if sign_at(text, leaf.at, b'?') {
                return self.first_asked(leaf.at, indent);
            }
        }
        self.flow_leaf(text, leaf)
    }

    /// Opens a mapping whose first key follows the `?` at `at`.
    fn first_asked(&mut self, at: usize, indent: usize) -> Result<Next, ScanFault>
        requires fits { at < 2 ^ 63 }
        ensures next { IfOk result (λ next. next ≡ Next.After (at + 1) indent Sign.Asked) }
        ensures collections { OnOk result (IsOpened Waits.Key indent self.old self.new) }
        ensures events { OnOk result (self.new.events ≡ self.old.events ++ Event.MapStart ∷ []) }
        ensures grown { Grown self.old.events self.new.events }
        ensures none { IfErr result (λ fault. Refuses fault ⊥) }
    {
        self.open(Waits::Key, indent, Event::MapStart)?;
        Ok(Next::After {
            at: at + 1,
            indent,
            sign: Sign::Asked,
        })
    }

    /// Reads a flow node, which may be the first key of a mapping. Where the value of the key is the rest of the line,
    /// it reads this too.
    #[inline(never)]
    fn flow_leaf(&mut self, text: &'a str, leaf: Leaf) -> Result<Next, ScanFault>
        requires at { IsCharBoundary text.now leaf.at }
        requires pairs { IfSome leaf.pairs (λ indent. indent ≤ leaf.at) }
        requires no_bar { first bar (rest text.now leaf.at) ≡ false }
        requires not_asked { IfSome leaf.pairs
            (λ indent. sign question (rest text.now leaf.at) ≡ false) }
        ensures onward { IfOk result (Onward text.now leaf.at (3 * (length text.now - leaf.at))) }
        ensures leads { IfOk result (Leads text.now (BeforeLeaf text.now leaf) self.old self.new) }
        ensures grown { Grown self.old.events self.new.events }
        ensures none { IfErr result (FailsBy text.now (BeforeLeaf text.now leaf) self.old) }
    {
        let before = self.events.len();
        let end = match flow_node(
            self.alloc,
            &mut self.events,
            text,
            leaf.at,
            leaf.least as u64,
            FlowContext::Outer,
        ) {
            Ok(end) => end,
            Err(fault) => return Err(no_node(text, leaf.at, fault)),
        };
        let colon = white_end(text, end);
        if sign_at(text, colon, b':') {
            let indent = key_indent(text, leaf, end, colon)?;
            self.start_map_before(before)?;
            if let Some(value) = line_value(text, colon, indent) {
                return self.line_pair(text, value, indent);
            }
            self.wait(Waits::Value, indent)?;
            return Ok(Next::After {
                at: colon + 1,
                indent,
                sign: Sign::Colon,
            });
        }
        self.end = end;
        match line_after(text, end) {
            Some(line) => Ok(Next::Line(NextLine {
                line,
                is_solid: true,
            })),
            None => Err(line_goes_on(text, colon)),
        }
    }
}

/// Returns the indentation of the mapping whose first key is the flow node of the leaf, which ends at `end` and has
/// its `:` at `colon`. Returns an error if no mapping may begin there, or if the node has a further line or is too
/// long.
fn key_indent(text: &str, leaf: Leaf, end: usize, colon: usize) -> Result<usize, ScanFault>
    requires at { IsCharBoundary text.now leaf.at }
    requires end { IsCharBoundary text.now end }
    requires colon { IsCharBoundary text.now colon }
    requires order { leaf.at ≤ end }
    requires gap { end ≤ colon }
    ensures pairs { IfOk result (λ indent. leaf.pairs ≡ Some indent) }
    ensures fits { OnOk result (fits_as_key text.now leaf.at end colon ≡ true) }
    ensures none { IfErr result (λ _. (leaf.pairs ≡ None)
        ⊎ (fits_as_key text.now leaf.at end colon ≡ false)) }
{
    let Some(indent) = leaf.pairs else {
        return Err(refusal(colon, Why::Key));
    };
    if has_break(text, leaf.at, end) {
        return Err(refusal(leaf.at, Why::Key));
    }
    if !at_most_chars(text, leaf.at, colon, KEY_LIMIT) {
        return Err(refusal(leaf.at, Why::Key));
    }
    Ok(indent)
}
