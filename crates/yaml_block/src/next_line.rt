// The line after a part, and whether a collection goes on there.
ghost use Rattle.std.specs.Prelude.{◌≡◌, ◌<◌, ◌==◌, ◌&&◌, not, false};
ghost use Rattle.yaml_block.specs.Prelude.{rest, past_spaces, spaces_before, block_node_stops};
ghost use Rattle.yaml_block.specs.Lines.{IsLine, IsNextLine};
ghost use Rattle.yaml_recognizers.specs.Prefixes as prefixes;

use yaml_scan::{Line, is_marker, sign_at};

/// The line after a part.
#[derive(Clone, Copy)]
pub(crate) struct NextLine {
    /// The line.
    pub line: Line,
    /// Whether it holds more than whitespace and a comment. Only after a block scalar may it hold no more.
    pub is_solid: bool,
}

/// Returns whether a collection with this indentation goes on at the line with this sign: `-` of a further item, or `:`
/// of the value of a key after `?` (8.2.1 and 8.2.2).
pub(crate) fn goes_on_with(text: &str, line: Line, indent: usize, sign: u8) -> bool
    requires line { IsLine text.now line }
    requires ascii { sign < 128 }
    ensures { result ≡ (spaces_before (rest text.now line.start) == indent)
        && prefixes.sign sign (past_spaces (rest text.now line.start)) }
{
    line.first - line.start == indent && sign_at(text, line.first, sign)
}

/// Returns whether a mapping with this indentation goes on at the line with a further pair (8.2.2).
pub(crate) fn goes_on_with_pair(text: &str, after: NextLine, indent: usize) -> bool
    requires { IsNextLine text.now after }
    ensures { result ≡ (spaces_before (rest text.now after.line.start) == indent)
        && not (block_node_stops indent false (rest text.now after.line.start)) }
{
    let line = after.line;
    if line.first - line.start != indent {
        return false;
    }
    if !after.is_solid {
        return false;
    }
    // Neither the end of the text nor a marker has spaces before it.
    if indent > 0 {
        return true;
    }
    if line.start == text.len() {
        return false;
    }
    !is_marker(text, line.start)
}
