// A mapping that is the value of a key, on the lines after it (YAML 1.2.2, 8.2.2).
ghost use Rattle.std.specs.Prelude.{◌≡◌, ◌<◌, nat_le, true, IfErr, IfSome, OnOk, length};
ghost use Rattle.yaml_block.specs.Prelude.{IsCharBoundary, between, rest, key_limit, Refuses};
ghost use Rattle.yaml_block.specs.LineValues.{IsNestedKey};
ghost use Rattle.yaml_block.specs.States.{Grown, IsPairPlace, Leads, BeforeColon};
ghost use Rattle.yaml_block.specs.declared.frame.Next.TheVariants.{Pair};
ghost use Rattle.yaml_chars.specs.Signs as signs;
ghost use Rattle.yaml_recognizers.specs.Prefixes as prefixes;

use crate::first_key::has_colon;
use crate::frame::Waits;
use crate::reader::Reader;
use yaml_events::{Event, FlowContext, ScanFault};
use yaml_flow_scalars::plain_first_line_end;
use yaml_scan::{rest_of_line_end, solid_line, stands_at};

/// The first key of a mapping that is the value of another key.
#[derive(Clone, Copy)]
pub(crate) struct NestedKey {
    /// Where it starts.
    pub at: usize,
    /// The place after it, where its `:` is.
    pub end: usize,
    /// How many spaces the pairs of its mapping are indented by.
    pub indent: usize,
}

/// Returns the first key of the mapping that is the value of the key whose `:` is at `colon`, in a mapping at `indent`,
/// if the line ends right after that `:`, and the first key is a plain scalar that begins with an ASCII letter or
/// digit. Most mappings begin so. Returns None at any other.
#[inline(always)]
pub(crate) fn nested_key(text: &str, colon: usize, indent: usize) -> Option<NestedKey>
    requires { IsCharBoundary text.now colon }
    ensures colon { IfSome result (λ _. prefixes.sign signs.colon (rest text.now colon) ≡ true) }
    ensures nested { IfSome result (IsNestedKey text.now indent colon) }
{
    if !stands_at(text, colon, b':') {
        return None;
    }
    if !stands_at(text, colon + 1, b'\n') {
        return None;
    }
    let Some(next) = rest_of_line_end(text, colon + 1) else {
        return None;
    };
    // Most lines that are not deep enough are found without a look at their spaces.
    let bytes = text.as_bytes();
    let deepest = next.saturating_add(indent);
    if deepest >= bytes.len() || bytes[deepest] != b' ' {
        return None;
    }
    let line = solid_line(text, next);
    let spaces = line.first - line.start;
    if spaces <= indent {
        return None;
    }
    let Some(end) = plain_first_line_end(text, line.first, FlowContext::BlockKey) else {
        return None;
    };
    if !has_colon(text, line.first, end) {
        return None;
    }
    Some(NestedKey {
        at: line.first,
        end,
        indent: spaces,
    })
}

impl<'a> Reader<'a> {
    /// Opens the mapping of a nested key, which is the value of the key between two places.
    #[inline(always)]
    pub(crate) fn open_nested(
        &mut self,
        text: &'a str,
        at: usize,
        end: usize,
        indent: usize,
        nested: NestedKey,
    ) -> Result<(), ScanFault>
        requires placed { IsPairPlace text.now indent at }
        requires above { at < end }
        requires end { IsCharBoundary text.now end }
        requires short { nat_le (length (between text.now at end)) key_limit ≡ true }
        requires colon { prefixes.sign signs.colon (rest text.now end) ≡ true }
        requires nested { IsNestedKey text.now indent end nested }
        ensures leads { OnOk result (Leads text.now (BeforeColon text.now indent at end)
            self.old self.new (Pair nested.at nested.indent)) }
        ensures grown { Grown self.old.events self.new.events }
        ensures none { IfErr result (λ fault. Refuses fault ⊥) }
    {
        self.wait(Waits::Value, indent)?;
        self.put(Event::MapStart)
    }
}
