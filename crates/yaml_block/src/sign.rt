// The part after a sign of a collection: `-`, `?` or `:` (YAML 1.2.2, 8.2.1 and 8.2.2).
ghost use Rattle.std.specs.Prelude.{◌≡◌, ◌*◌, ◌+◌, ◌-◌, ◌^◌, ◌<◌, true, false, IfOk, IfErr, length};
ghost use Rattle.yaml_block.specs.Prelude.{rest, all_comments, closes_line, IsLineStart, IsSolidLine};
ghost use Rattle.yaml_block.specs.States.{Grown, IsAfterSign, Onward, Leads, FailsBy, BeforePart};

use crate::frame::{Leaf, Next};
use crate::indentation::Indentation;
use crate::line_sign::{Sign, is_omitted};
use crate::next_line::NextLine;
use crate::reader::Reader;
use crate::refusals::{no_white, refusal};
use yaml_events::{ScanFault, Why};
use yaml_scan::{Line, line_after, sign_at, spaces_end, white_end};

impl<'a> Reader<'a> {
    /// Reads the start of the part after a sign: on its line, on a later one, or omitted. Returns what is read next.
    pub(crate) fn after_sign(
        &mut self,
        text: &'a str,
        at: usize,
        indent: usize,
        sign: Sign,
    ) -> Result<Next, ScanFault>
        requires placed { IsAfterSign text.now indent at }
        requires fits { length text.now < 2 ^ 63 }
        ensures onward { IfOk result (Onward text.now at (3 * (length text.now - at) + 2)) }
        ensures leads { IfOk result (Leads text.now
            (BeforePart text.now sign indent at) self.old self.new) }
        ensures grown { Grown self.old.events self.new.events }
        ensures none { IfErr result (FailsBy text.now
            (BeforePart text.now sign indent at) self.old) }
    {
        match line_after(text, at) {
            Some(line) => self.on_later_line(text, at, line, indent, sign),
            None => self.on_sign_line(text, at, indent, sign),
        }
    }

    /// Reads the start of the part after a sign with nothing but a comment after it: the part is at `line`, or omitted.
    /// Returns what is read next.
    fn on_later_line(
        &mut self,
        text: &'a str,
        at: usize,
        line: Line,
        indent: usize,
        sign: Sign,
    ) -> Result<Next, ScanFault>
        requires placed { IsAfterSign text.now indent at }
        requires fits { length text.now < 2 ^ 63 }
        requires closes { closes_line (all_comments false (rest text.now at)) ≡ true }
        requires line { IsSolidLine false text.now at line }
        requires starts { IsLineStart text.now line.start }
        ensures onward { IfOk result (Onward text.now at (3 * (length text.now - at) + 2)) }
        ensures leads { IfOk result (Leads text.now
            (BeforePart text.now sign indent at) self.old self.new) }
        ensures grown { Grown self.old.events self.new.events }
        ensures none { IfErr result (FailsBy text.now
            (BeforePart text.now sign indent at) self.old) }
    {
        let context = sign.context();
        if is_omitted(text, line, indent, context) {
            if self.waits_for_key() {
                return Err(refusal(at, Why::OmittedKey));
            }
            self.put_omitted(at)?;
            self.end = at;
            return Ok(Next::Line(NextLine {
                line,
                is_solid: true,
            }));
        }
        let node = Indentation {
            least: indent + 1,
            margin: indent + 1,
            context,
        };
        self.on_line(text, line, node)
    }

    /// Reads the start of the part after a sign on the line of the sign. Returns what is read next.
    fn on_sign_line(
        &mut self,
        text: &'a str,
        at: usize,
        indent: usize,
        sign: Sign,
    ) -> Result<Next, ScanFault>
        requires placed { IsAfterSign text.now indent at }
        requires fits { length text.now < 2 ^ 63 }
        requires goes_on { closes_line (all_comments false (rest text.now at)) ≡ false }
        ensures onward { IfOk result (Onward text.now at (3 * (length text.now - at) + 2)) }
        ensures leads { IfOk result (Leads text.now
            (BeforePart text.now sign indent at) self.old self.new) }
        ensures grown { Grown self.old.events self.new.events }
        ensures none { IfErr result (FailsBy text.now
            (BeforePart text.now sign indent at) self.old) }
    {
        let first = white_end(text, at);
        if first == at {
            return Err(no_white(text, at));
        }
        let least = indent + 1;
        if !sign.allows_compact() || spaces_end(text, at) < first {
            return self.leaf(
                text,
                Leaf {
                    at: first,
                    least,
                    pairs: None,
                },
            );
        }
        let inner = least + (first - at);
        if sign_at(text, first, b'-') {
            return self.open_items(first, inner);
        }
        self.leaf(
            text,
            Leaf {
                at: first,
                least,
                pairs: Some(inner),
            },
        )
    }
}
