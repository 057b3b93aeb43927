// Further pairs of a mapping (YAML 1.2.2, 8.2.2).
ghost use Rattle.std.specs.Prelude.{◌≡◌, ◌*◌, ◌-◌, ◌<◌, IfOk, IfErr, length};
ghost use Rattle.yaml_block.specs.Prelude.{IsCharBoundary};
ghost use Rattle.yaml_block.specs.States.{Grown, IsPairPlace, Onward, Leads, FailsBy, BeforePair, BeforeColon};

use crate::frame::{Next, Waits};
use crate::line_sign::Sign;
use crate::line_value::line_value;
use crate::nested_key::nested_key;
use crate::reader::Reader;
use crate::refusals::{no_node, refusal};
use yaml_events::{FlowContext, ScanFault, Why};
use yaml_flow::{KEY_LIMIT, flow_node};
use yaml_flow_scalars::plain_first_line_end;
use yaml_scan::{at_most_chars, sign_at, white_end};

impl<'a> Reader<'a> {
    /// Reads the further pairs of a mapping that are whole lines, and those of the mappings in them, up to the start of
    /// the first that is not. Returns what is read next.
    pub(crate) fn pair(
        &mut self,
        text: &'a str,
        at: usize,
        indent: usize,
    ) -> Result<Next, ScanFault>
        requires placed { IsPairPlace text.now indent at }
        ensures onward { IfOk result (Onward text.now at (3 * (length text.now - at))) }
        ensures leads { IfOk result (Leads text.now
            (BeforePair text.now indent at) self.old self.new) }
        ensures grown { Grown self.old.events self.new.events }
        ensures none { IfErr result (FailsBy text.now (BeforePair text.now indent at) self.old) }
    {
        let Some(end) = plain_first_line_end(text, at, FlowContext::BlockKey) else {
            return self.any_pair(text, at, indent);
        };
        let mut at = at;
        let mut end = end;
        let mut indent = indent;
        'pairs: loop {
            self.put_plain(text, at, end)?;
            if !at_most_chars(text, at, end, KEY_LIMIT) {
                return self.after_key(text, at, end, indent);
            }
            if let Some(value) = line_value(text, end, indent) {
                let next = self.line_pair(text, value, indent)?;
                let Next::Pair {
                    at: further,
                    indent: same,
                } = next
                else {
                    return Ok(next);
                };
                let Some(further_end) = plain_first_line_end(text, further, FlowContext::BlockKey)
                else {
                    return self.any_pair(text, further, same);
                };
                at = further;
                end = further_end;
                indent = same;
                continue;
            }
            let Some(nested) = nested_key(text, end, indent) else {
                return self.after_key(text, at, end, indent);
            };
            self.open_nested(text, at, end, indent, nested)?;
            at = nested.at;
            end = nested.end;
            indent = nested.indent;
        }
    }

    /// Reads the start of a further pair of a mapping: its key, of any kind, on one line with the `:`, or its `?`.
    /// Returns what is read next.
    #[inline(never)]
    fn any_pair(&mut self, text: &'a str, at: usize, indent: usize) -> Result<Next, ScanFault>
        requires placed { IsPairPlace text.now indent at }
        ensures onward { IfOk result (Onward text.now at (3 * (length text.now - at))) }
        ensures leads { IfOk result (Leads text.now
            (BeforePair text.now indent at) self.old self.new) }
        ensures grown { Grown self.old.events self.new.events }
        ensures none { IfErr result (FailsBy text.now (BeforePair text.now indent at) self.old) }
    {
        if sign_at(text, at, b'?') {
            self.wait(Waits::Key, indent)?;
            return Ok(Next::After {
                at: at + 1,
                indent,
                sign: Sign::Asked,
            });
        }
        match flow_node(
            self.alloc,
            &mut self.events,
            text,
            at,
            0,
            FlowContext::BlockKey,
        ) {
            Ok(end) => self.after_key(text, at, end, indent),
            Err(fault) => Err(no_node(text, at, fault)),
        }
    }

    /// Reads the `:` after the key between two places. Returns what is read next.
    #[inline(always)]
    fn after_key(
        &mut self,
        text: &'a str,
        at: usize,
        end: usize,
        indent: usize,
    ) -> Result<Next, ScanFault>
        requires placed { IsPairPlace text.now indent at }
        requires above { at < end }
        requires end { IsCharBoundary text.now end }
        ensures onward { IfOk result (Onward text.now at (3 * (length text.now - at))) }
        ensures leads { IfOk result (Leads text.now
            (BeforeColon text.now indent at end) self.old self.new) }
        ensures grown { Grown self.old.events self.new.events }
        ensures none { IfErr result (FailsBy text.now
            (BeforeColon text.now indent at end) self.old) }
    {
        let colon = white_end(text, end);
        if !sign_at(text, colon, b':') {
            return Err(refusal(at, Why::Key));
        }
        if !at_most_chars(text, at, colon, KEY_LIMIT) {
            return Err(refusal(at, Why::Key));
        }
        self.wait(Waits::Value, indent)?;
        Ok(Next::After {
            at: colon + 1,
            indent,
            sign: Sign::Colon,
        })
    }
}
