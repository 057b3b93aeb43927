// A whole block node.
ghost use Rattle.std.specs.Prelude.{◌≡◌, ◌*◌, ◌-◌, ◌^◌, ◌<◌, ◌≤◌, ◌≤ℤ◌, negsuc, [], true, IfOk, IfErr, length};
ghost use Rattle.yaml_block.specs.Prelude.{IsCharBoundary, Refuses, line_starts, least_indent};
ghost use Rattle.yaml_block.specs.Found.{NoBlockNodeFound, NoBlockNodeAt, BlockNodeRead, BlockNodeIs};
ghost use Rattle.yaml_block.specs.States.{Grown, Onward, Leads, FailsBy, BeforeNode};
ghost use Rattle.yaml_block.specs.Lines.{is_shallow};

use crate::frame::{Leaf, Next};
use crate::indentation::Indentation;
use crate::reader::Reader;
use crate::refusals::{no_white, refusal};
use std::alloc::Global;
use std::mem;
use yaml_block_scalars::least_indent;
use yaml_events::{BlockContext, Events, ScanFault, Why};
use yaml_scan::{line_starts, rest_of_line_end, solid_line, white_end};

impl<'a> Reader<'a> {
    /// Reads the start of the outermost node. Returns what is read next.
    fn prefix(
        &mut self,
        text: &'a str,
        at: usize,
        least: usize,
        context: BlockContext,
    ) -> Result<Next, ScanFault>
        requires at { IsCharBoundary text.now at }
        requires least { least ≤ 2 ^ 63 }
        ensures fits { length text.now < 2 ^ 63 }
        ensures onward { IfOk result (Onward text.now at (3 * (length text.now - at))) }
        ensures leads { IfOk result (Leads text.now
            (BeforeNode text.now least (is_shallow context) at)
            self.old self.new) }
        ensures grown { Grown self.old.events self.new.events }
        ensures none { IfErr result (FailsBy text.now
            (BeforeNode text.now least (is_shallow context) at) self.old) }
    {
        if at == text.len() {
            return Err(refusal(at, Why::Other));
        }
        if line_starts(text, at) {
            return self.prefix_line(text, at, least, context);
        }
        if let Some(next) = rest_of_line_end(text, at) {
            let line = solid_line(text, next);
            return self.on_line(
                text,
                line,
                Indentation {
                    least,
                    margin: least,
                    context,
                },
            );
        }
        let first = white_end(text, at);
        if first == at {
            return Err(no_white(text, at));
        }
        self.leaf(
            text,
            Leaf {
                at: first,
                least,
                pairs: None,
            },
        )
    }

    /// Reads the start of the outermost node where a line starts at `at`.
    fn prefix_line(
        &mut self,
        text: &'a str,
        at: usize,
        least: usize,
        context: BlockContext,
    ) -> Result<Next, ScanFault>
        requires at { IsCharBoundary text.now at }
        requires least { least ≤ 2 ^ 63 }
        requires fits { length text.now < 2 ^ 63 }
        requires starts { line_starts text.now at ≡ true }
        ensures onward { IfOk result (Onward text.now at (3 * (length text.now - at))) }
        ensures leads { IfOk result (Leads text.now
            (BeforeNode text.now least (is_shallow context) at)
            self.old self.new) }
        ensures grown { Grown self.old.events self.new.events }
        ensures none { IfErr result (FailsBy text.now
            (BeforeNode text.now least (is_shallow context) at) self.old) }
    {
        let line = solid_line(text, at);
        // Without a comment line before it, a leaf needs no spaces.
        let margin = if line.start == at { 0 } else { least };
        self.on_line(
            text,
            line,
            Indentation {
                least,
                margin,
                context,
            },
        )
    }

    /// Reads a whole node. Returns the place after it and the comments that belong to it.
    fn node(
        &mut self,
        text: &'a str,
        at: usize,
        least: usize,
        context: BlockContext,
    ) -> Result<usize, ScanFault>
        requires at { IsCharBoundary text.now at }
        requires least { least ≤ 2 ^ 63 }
        requires none_open { self.old.collections.items ≡ [] }
        ensures reads { IfOk result (BlockNodeRead least (is_shallow context) text.now at
            self.old.events self.new.events) }
        ensures only { IfOk result (BlockNodeIs least (is_shallow context) text.now at
            self.old.events self.new.events) }
        ensures grown { Grown self.old.events self.new.events }
        ensures missing { IfErr result (λ fault.
            Refuses fault (NoBlockNodeFound least (is_shallow context) text.now at)) }
        ensures none { IfErr result (λ fault.
            Refuses fault (NoBlockNodeAt least (is_shallow context) text.now at)) }
    {
        let mut next = self.prefix(text, at, least, context)?;
        'parts: loop {
            next = match next {
                Next::After { at, indent, sign } => self.after_sign(text, at, indent, sign)?,
                Next::Pair { at, indent } => self.pair(text, at, indent)?,
                Next::Line(after) => match self.unwind(text, after)? {
                    Some(next) => next,
                    None => return Ok(after.line.start),
                },
            };
        }
    }
}

/// Reads the block node at `at`, appends its events, and returns the place after it (YAML 1.2.2, 8.2).
///
/// `at` counts bytes from 0 and is on a boundary of a character. The node is below an indentation of `n`, which is -1
/// at the top of a document. In the context `Bout` it may also be a sequence at the indentation `n`. The place that is
/// returned is after the comments that belong to the node: a line starts there, or the text ends.
///
/// # Errors
///
/// [`ScanFault::At`] only if no block node is at `at`, and [`ScanFault::OutOfMemory`] if there is no memory for events,
/// for values or for the stack of open collections. The list of events is then as it was.
pub fn block_node<'a>(
    alloc: Global,
    events: &mut Events<'a>,
    text: &'a str,
    at: usize,
    n: i64,
    context: BlockContext,
) -> Result<usize, ScanFault>
    requires at { IsCharBoundary text.now at }
    requires below { negsuc 0 ≤ℤ n }
    ensures reads { IfOk result (BlockNodeRead (least_indent n) (is_shallow context) text.now at
        events.old events.new) }
    ensures only { IfOk result (BlockNodeIs (least_indent n) (is_shallow context) text.now at
        events.old events.new) }
    ensures missing { IfErr result (λ fault.
        Refuses fault (NoBlockNodeFound (least_indent n) (is_shallow context) text.now at)) }
    ensures none { IfErr result (λ fault.
        Refuses fault (NoBlockNodeAt (least_indent n) (is_shallow context) text.now at)) }
    ensures unchanged { IfErr result (λ _. events.new ≡ events.old) }
{
    let kept = events.len();
    let mut reader = Reader::new(alloc, at);
    mem::swap(events, &mut reader.events);
    let result = reader.node(text, at, least_indent(n), context);
    mem::swap(events, &mut reader.events);
    if result.is_err() {
        events.truncate(kept);
    }
    result
}
