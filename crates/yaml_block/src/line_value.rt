// The value of a pair where it is the rest of its line (YAML 1.2.2, 8.2.2).
ghost use Rattle.std.specs.Prelude.{◌≡◌, ℕ, ◌*◌, ◌+◌, ◌-◌, ◌≤◌, true, IfOk, IfErr, IfSome, OnOk, length};
ghost use Rattle.yaml_block.specs.Prelude.{IsCharBoundary, rest, Refuses, FlowNodeRead, IsFirstLine};
ghost use Rattle.yaml_block.specs.LineValues.{IsLeadIn, IsLineValue, IsPlainLine, IsRestOfLine};
ghost use Rattle.yaml_block.specs.States.{Grown, Onward, Leads, BeforeLineValue};
ghost use Rattle.yaml_chars.specs.Signs as signs;
ghost use Rattle.yaml_grammar.specs.FlowScalars as flow;
ghost use Rattle.yaml_recognizers.specs.Prefixes as prefixes;

use crate::frame::Next;
use crate::next_line::NextLine;
use crate::reader::Reader;
use yaml_events::{FlowContext, ScanFault, Span};
use yaml_flow_scalars::plain_first_line_end;
use yaml_scan::{Line, rest_of_line_end, solid_line, stands_at};

/// A value that is the rest of its line: a plain scalar on one line.
#[derive(Clone, Copy)]
pub(crate) struct LineValue {
    /// Where it starts.
    pub start: usize,
    /// The place after it.
    pub end: usize,
    /// The line after it.
    pub after: Line,
}

/// Returns the value of a pair whose `:` is at `colon`, in a mapping at `indent`, if it is the rest of its line.
///
/// One space is before the value, which begins with an ASCII letter or digit, and the next line is not deeper than the
/// mapping. Most values are such. Returns None at any other, and where the text ends without a break.
#[inline(always)]
pub(crate) fn line_value(text: &str, colon: usize, indent: usize) -> Option<LineValue>
    requires at { IsCharBoundary text.now colon }
    requires deep { indent ≤ colon }
    ensures colon { IfSome result (λ _. prefixes.sign signs.colon (rest text.now colon) ≡ true) }
    ensures value { IfSome result (IsLineValue text.now indent) }
    ensures lead { IfSome result (λ value. IsLeadIn text.now (colon + 1) value.start) }
{
    if !stands_at(text, colon, b':') {
        return None;
    }
    let space = colon + 1;
    if !stands_at(text, space, b' ') {
        return None;
    }
    let start = space + 1;
    let Some(end) = plain_first_line_end(text, start, FlowContext::Outer) else {
        return None;
    };
    rest_of_line(text, start, end, indent + 1)
}

/// Returns the plain scalar whose first line is between two places, if it is the rest of that line: a comment at most
/// is after it, and the next line is indented by fewer than `least` spaces. Returns None at any other, and where the
/// text ends without a break.
#[inline(always)]
pub(crate) fn rest_of_line(text: &str, start: usize, end: usize, least: usize) -> Option<LineValue>
    requires start { IsCharBoundary text.now start }
    requires line { IsFirstLine flow.outer text.now start end }
    ensures rest { IfSome result (IsRestOfLine text.now least) }
    ensures start { IfSome result (λ value. value.start ≡ start) }
{
    let Some(next) = rest_of_line_end(text, end) else {
        return None;
    };
    let after = solid_line(text, next);
    if after.first - after.start >= least {
        return None;
    }
    Some(LineValue { start, end, after })
}

impl<'a> Reader<'a> {
    /// Appends the event of the plain scalar between two places of one line. The last part ends with it.
    #[inline(always)]
    pub(crate) fn put_plain(
        &mut self,
        text: &'a str,
        start: usize,
        end: usize,
    ) -> Result<(), ScanFault>
        requires start { IsCharBoundary text.now start }
        requires end { IsCharBoundary text.now end }
        requires order { start ≤ end }
        ensures read { OnOk result ((n : ℕ) (c : flow.FlowContext)
            → IsPlainLine n c text.now start end
            → FlowNodeRead n c text.now start end self.old.events self.new.events) }
        ensures collections { self.new.collections ≡ self.old.collections }
        ensures end { OnOk result (self.new.end ≡ end) }
        ensures grown { Grown self.old.events self.new.events }
        ensures none { IfErr result (λ fault. Refuses fault ⊥) }
    {
        self.put_borrowed(Span { start, end }, &text[start..end])?;
        self.end = end;
        Ok(())
    }

    /// Reads the value of a pair, which is the rest of its line. Closes the mapping if no further pair follows. Returns
    /// what is read next.
    #[inline(always)]
    pub(crate) fn line_pair(
        &mut self,
        text: &'a str,
        value: LineValue,
        indent: usize,
    ) -> Result<Next, ScanFault>
        requires value { IsLineValue text.now indent value }
        ensures onward { IfOk result (Onward text.now value.start
            (3 * (length text.now - value.start))) }
        ensures leads { IfOk result (Leads text.now
            (BeforeLineValue text.now indent value.start) self.old self.new) }
        ensures grown { Grown self.old.events self.new.events }
        ensures none { IfErr result (λ fault. Refuses fault ⊥) }
    {
        self.put_plain(text, value.start, value.end)?;
        let after = NextLine {
            line: value.after,
            is_solid: true,
        };
        match self.after_pair(text, after, indent)? {
            Some(next) => Ok(next),
            None => Ok(Next::Line(after)),
        }
    }
}
