// A sign of a collection: `-`, `?` or `:` (YAML 1.2.2, 8.2.1 and 8.2.2).
ghost use Rattle.std.specs.Prelude.{◌≡◌, suc, false, not};
ghost use Rattle.yaml_block.specs.Prelude.{rest, is_line_end, block_node_stops};
ghost use Rattle.yaml_block.specs.Lines.{IsLine, is_shallow};
ghost use Rattle.yaml_block.specs.Signs.{is_colon, is_shallow as is_shallow_after};

use yaml_events::BlockContext;
use yaml_scan::{Line, sign_at};

/// The sign before a part.
#[derive(Clone, Copy, PartialEq, Eq)]
pub(crate) enum Sign {
    /// `-`: a compact collection may be on its line.
    Dash,
    /// `?`, or the `:` of its value: a compact collection may be on its line, and a sequence may be as deep as the
    /// mapping.
    Asked,
    /// The `:` of a key on its line: no compact collection may be on that line, but a sequence may be as deep as the
    /// mapping.
    Colon,
}

impl Sign {
    /// Returns the context of a node after the sign.
    pub fn context(self) -> BlockContext
        ensures { is_shallow result ≡ is_shallow_after self }
    {
        match self {
            Sign::Dash => BlockContext::Bin,
            Sign::Asked | Sign::Colon => BlockContext::Bout,
        }
    }

    /// Returns whether a compact collection may be on the line of the sign (8.2.1, `ns-l-compact-sequence`, and 8.2.2).
    pub fn allows_compact(self) -> bool
        ensures { result ≡ not (is_colon self) }
    {
        match self {
            Sign::Dash | Sign::Asked => true,
            Sign::Colon => false,
        }
    }
}

/// Returns whether the part after a sign of a collection at `indent` is omitted, if this line follows the line of the
/// sign and holds more than whitespace and a comment.
///
/// The end of the text and a marker need no test: they have no spaces, and no `-` before whitespace.
pub(crate) fn is_omitted(text: &str, line: Line, indent: usize, context: BlockContext) -> bool
    requires line { IsLine text.now line }
    requires solid { is_line_end (rest text.now line.start) ≡ false }
    ensures { result
        ≡ block_node_stops (suc indent) (is_shallow context) (rest text.now line.start) }
{
    let spaces = line.first - line.start;
    if spaces > indent {
        return false;
    }
    match context {
        BlockContext::Bin => true,
        BlockContext::Bout => spaces < indent || !sign_at(text, line.first, b'-'),
    }
}
