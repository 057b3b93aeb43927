// The first key of a mapping where it is a plain scalar on one line (YAML 1.2.2, 8.2.2).
ghost use Rattle.std.specs.Prelude.{◌≡◌, ◌*◌, ◌-◌, ◌<◌, ◌≤◌, ◌&&◌, nat_le, Some, IfOk, IfErr, length};
ghost use Rattle.yaml_block.specs.Prelude.{IsCharBoundary, between, rest, colon, key_limit, sign};
ghost use Rattle.yaml_block.specs.LineValues.{IsFirstKey};
ghost use Rattle.yaml_block.specs.States.{Grown, Onward, Leads, FailsBy, BeforeLeaf};

use crate::frame::{Leaf, Next, Waits};
use crate::line_sign::Sign;
use crate::line_value::line_value;
use crate::reader::Reader;
use yaml_events::{Event, ScanFault};
use yaml_flow::KEY_LIMIT;
use yaml_scan::{at_most_chars, sign_at};

/// Returns whether the scalar between two places may be a key: its `:` is right after it, and it is short enough.
#[inline(always)]
pub(crate) fn has_colon(text: &str, at: usize, end: usize) -> bool
    requires at { IsCharBoundary text.now at }
    requires end { IsCharBoundary text.now end }
    requires above { at < end }
    ensures { result ≡ sign colon (rest text.now end)
        && nat_le (length (between text.now at end)) key_limit }
{
    sign_at(text, end, b':') && at_most_chars(text, at, end, KEY_LIMIT)
}

impl<'a> Reader<'a> {
    /// Opens a mapping whose first key is the plain scalar of the leaf, which ends at `end` and has its `:` there.
    /// Where the value of the key is the rest of the line, it reads this too, and closes the mapping if no further pair
    /// follows. Returns what is read next.
    pub(crate) fn first_key(
        &mut self,
        text: &'a str,
        leaf: Leaf,
        indent: usize,
        end: usize,
    ) -> Result<Next, ScanFault>
        requires at { IsCharBoundary text.now leaf.at }
        requires pairs { leaf.pairs ≡ Some indent }
        requires deep { indent ≤ leaf.at }
        requires key { IsFirstKey text.now leaf.at end }
        ensures onward { IfOk result (Onward text.now leaf.at (3 * (length text.now - leaf.at))) }
        ensures leads { IfOk result (Leads text.now (BeforeLeaf text.now leaf) self.old self.new) }
        ensures grown { Grown self.old.events self.new.events }
        ensures none { IfErr result (FailsBy text.now (BeforeLeaf text.now leaf) self.old) }
    {
        self.put(Event::MapStart)?;
        self.put_plain(text, leaf.at, end)?;
        if let Some(value) = line_value(text, end, indent) {
            return self.line_pair(text, value, indent);
        }
        self.wait(Waits::Value, indent)?;
        Ok(Next::After {
            at: end + 1,
            indent,
            sign: Sign::Colon,
        })
    }
}
