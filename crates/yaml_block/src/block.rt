// A block scalar in a block node (YAML 1.2.2, 8.1 and 8.2.3).
ghost use Rattle.std.specs.Prelude.{◌≡◌, ◌*◌, ◌-◌, ◌^◌, ◌≤◌, true, IfOk, IfErr, length};
ghost use Rattle.yaml_block.specs.Prelude.{IsCharBoundary, rest, first, bar};
ghost use Rattle.yaml_block.specs.States.{Grown, Onward, Leads, FailsBy, BeforeLeaf};

use crate::frame::{Leaf, Next};
use crate::next_line::NextLine;
use crate::reader::Reader;
use crate::scalar::{body_at, line_after_scalar};
use yaml_block_scalars::header;
use yaml_events::{Event, ScanFault, Span};
use yaml_scan::Line;

impl<'a> Reader<'a> {
    /// Reads the block scalar of a leaf, with the comments that belong to it. Returns the line after it.
    pub(crate) fn block_scalar(&mut self, text: &'a str, leaf: Leaf) -> Result<Next, ScanFault>
        requires at { IsCharBoundary text.now leaf.at }
        requires least { leaf.least ≤ 2 ^ 63 }
        requires begins { first bar (rest text.now leaf.at) ≡ true }
        ensures onward { IfOk result (Onward text.now leaf.at (3 * (length text.now - leaf.at))) }
        ensures leads { IfOk result (Leads text.now (BeforeLeaf text.now leaf) self.old self.new) }
        ensures grown { Grown self.old.events self.new.events }
        ensures none { IfErr result (FailsBy text.now (BeforeLeaf text.now leaf) self.old) }
    {
        let (head, lines) = header(text, leaf.at)?;
        let body = body_at(self.alloc, text, lines, leaf.least, &head)?;
        let end = body.end;
        self.put(Event::Scalar {
            style: body.style,
            span: Span {
                start: leaf.at,
                end,
            },
            value: body.value,
        })?;
        self.end = end;
        Ok(Next::Line(line_after_scalar(text, end)))
    }
}
