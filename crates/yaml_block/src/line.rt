// A node at the start of a line (YAML 1.2.2, 8.2.3).
ghost use Rattle.std.specs.Prelude.{◌≡◌, ◌*◌, ◌+◌, ◌-◌, ◌^◌, ◌<◌, ◌≤◌, false, [], ◌∷◌, ◌++◌, IfOk, IfErr, OnOk, length};
ghost use Rattle.yaml_block.specs.Prelude.{rest, is_line_end, sign, Refuses, dash};
ghost use Rattle.yaml_block.specs.States.{IsOpened, Grown, Onward, Leads, FailsBy, BeforeNodeLine};
ghost use Rattle.yaml_block.specs.Lines.{IsLine};

use crate::frame::{Leaf, Next, Waits};
use crate::indentation::Indentation;
use crate::line_sign::Sign;
use crate::reader::Reader;
use crate::refusals::too_shallow;
use yaml_events::{Event, ScanFault};
use yaml_scan::{Line, white_end};

impl<'a> Reader<'a> {
    /// Reads the start of a node that is on a line of its own. Returns what is read next.
    #[inline(always)]
    pub(crate) fn on_line(
        &mut self,
        text: &'a str,
        line: Line,
        node: Indentation,
    ) -> Result<Next, ScanFault>
        requires line { IsLine text.now line }
        requires solid { is_line_end (rest text.now line.start) ≡ false }
        requires fits { length text.now < 2 ^ 63 }
        requires least { node.least ≤ 2 ^ 63 }
        ensures onward { IfOk result (Onward text.now line.start
            (3 * (length text.now - line.start))) }
        ensures leads { IfOk result (Leads text.now
            (BeforeNodeLine text.now node line.start) self.old self.new) }
        ensures grown { Grown self.old.events self.new.events }
        ensures none { IfErr result (FailsBy text.now
            (BeforeNodeLine text.now node line.start) self.old) }
    {
        let spaces = line.first - line.start;
        if node.begins_sequence(text, line) {
            return self.open_items(line.first, spaces);
        }
        if spaces < node.margin {
            return Err(too_shallow(text, line));
        }
        let first = white_end(text, line.first);
        if spaces < node.least || line.first < first {
            return self.leaf(
                text,
                Leaf {
                    at: first,
                    least: node.least,
                    pairs: None,
                },
            );
        }
        self.leaf(
            text,
            Leaf {
                at: first,
                least: node.least,
                pairs: Some(spaces),
            },
        )
    }

    /// Opens a sequence whose first `-` is at `dash`.
    pub(crate) fn open_items(&mut self, dash: usize, indent: usize) -> Result<Next, ScanFault>
        requires fits { dash < 2 ^ 63 }
        ensures next { IfOk result (λ next. next ≡ Next.After (dash + 1) indent Sign.Dash) }
        ensures collections { OnOk result (IsOpened Waits.Item indent self.old self.new) }
        ensures events { OnOk result (self.new.events ≡ self.old.events ++ Event.SeqStart ∷ []) }
        ensures grown { Grown self.old.events self.new.events }
        ensures none { IfErr result (λ fault. Refuses fault ⊥) }
    {
        self.open(Waits::Item, indent, Event::SeqStart)?;
        Ok(Next::After {
            at: dash + 1,
            indent,
            sign: Sign::Dash,
        })
    }
}
