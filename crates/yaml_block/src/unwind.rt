// The line after a part: which of the open collections goes on there.
ghost use Rattle.std.specs.Prelude.{◌<◌, IfOk, IfErr};
ghost use Rattle.yaml_block.specs.Prelude.{Refuses};
ghost use Rattle.yaml_block.specs.States.{Grown};
ghost use Rattle.yaml_block.specs.Lines.{IsNextLine};
ghost use Rattle.yaml_block.specs.Turns.{MayGoOn, Unwinds, IsTurn, PairRead, PartRead};

use crate::frame::{Collection, Next, Waits};
use crate::line_sign::Sign;
use crate::next_line::{NextLine, goes_on_with, goes_on_with_pair};
use crate::reader::Reader;
use yaml_events::{Event, ScanFault};

impl<'a> Reader<'a> {
    /// Closes the collections that end at the line after a part, and returns what is read next in the one that goes on
    /// there. Returns None where all end.
    pub(crate) fn unwind(&mut self, text: &str, after: NextLine) -> Result<Option<Next>, ScanFault>
        requires line { IsNextLine text.now after }
        ensures onward { IfOk result (MayGoOn text.now after.line.start) }
        ensures turns { IfOk result (Unwinds text.now after self.old self.new) }
        ensures grown { Grown self.old.events self.new.events }
        ensures none { IfErr result (λ fault. Refuses fault ⊥) }
    {
        'collections: while let Some(collection) = self.collections.pop() {
            if let Some(next) = self.after_part(text, after, collection)? {
                return Ok(Some(next));
            }
        }
        Ok(None)
    }

    /// Returns what is read next in this collection, whose part has been read: its next item, the value of its key, or
    /// its next pair. If it has none, closes it and returns None.
    fn after_part(
        &mut self,
        text: &str,
        after: NextLine,
        collection: Collection,
    ) -> Result<Option<Next>, ScanFault>
        requires line { IsNextLine text.now after }
        ensures turn { IfOk result (IsTurn (PartRead collection) text.now after self.old self.new) }
        ensures grown { Grown self.old.events self.new.events }
        ensures none { IfErr result (λ fault. Refuses fault ⊥) }
    {
        let line = after.line;
        let indent = collection.indent;
        match collection.waits {
            Waits::Item => {
                if goes_on_with(text, line, indent, b'-') {
                    self.wait(Waits::Item, indent)?;
                    return Ok(Some(Next::After {
                        at: line.first + 1,
                        indent,
                        sign: Sign::Dash,
                    }));
                }
                self.put(Event::SeqEnd)?;
                Ok(None)
            }
            Waits::Key => {
                if goes_on_with(text, line, indent, b':') {
                    self.wait(Waits::Value, indent)?;
                    return Ok(Some(Next::After {
                        at: line.first + 1,
                        indent,
                        sign: Sign::Asked,
                    }));
                }
                self.put_omitted(self.end)?;
                self.after_pair(text, after, indent)
            }
            Waits::Value => self.after_pair(text, after, indent),
        }
    }

    /// Returns the next pair of a mapping. If it has none, closes it and returns None.
    #[inline(always)]
    pub(crate) fn after_pair(
        &mut self,
        text: &str,
        after: NextLine,
        indent: usize,
    ) -> Result<Option<Next>, ScanFault>
        requires line { IsNextLine text.now after }
        ensures turn { IfOk result (IsTurn (PairRead indent) text.now after self.old self.new) }
        ensures grown { Grown self.old.events self.new.events }
        ensures none { IfErr result (λ fault. Refuses fault ⊥) }
    {
        if goes_on_with_pair(text, after, indent) {
            return Ok(Some(Next::Pair {
                at: after.line.first,
                indent,
            }));
        }
        self.put(Event::MapEnd)?;
        Ok(None)
    }
}
