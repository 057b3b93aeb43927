// How deep a node on a line of its own is.
ghost use Rattle.std.specs.Prelude.{◌≡◌, ◌-◌, ◌&&◌};
ghost use Rattle.yaml_block.specs.Prelude.{rest, dash, sign};
ghost use Rattle.yaml_block.specs.Lines.{is_deep, IsLine};

use yaml_events::BlockContext;
use yaml_scan::{Line, sign_at};

/// The least indentations of a node that starts on a line of its own.
#[derive(Clone, Copy)]
pub(crate) struct Indentation {
    /// The least indentation of the node's lines.
    pub least: usize,
    /// The least number of spaces before a leaf on this line: 0 if no comment line is before it.
    pub margin: usize,
    /// The context of the node: in `Bout` a sequence may be one space less deep.
    pub context: BlockContext,
}

impl Indentation {
    /// Returns whether a sequence may be indented by this number of spaces.
    fn fits_sequence(self, spaces: usize) -> bool
        ensures { result ≡ is_deep self.least self.context spaces }
    {
        match self.context {
            BlockContext::Bin => self.least <= spaces,
            BlockContext::Bout => self.least.saturating_sub(1) <= spaces,
        }
    }

    /// Returns whether the line begins with the `-` of a sequence that is deep enough (8.2.1).
    pub fn begins_sequence(self, text: &str, line: Line) -> bool
        requires { IsLine text.now line }
        ensures { result ≡ sign dash (rest text.now line.first)
            && is_deep self.least self.context (line.first - line.start) }
    {
        sign_at(text, line.first, b'-') && self.fits_sequence(line.first - line.start)
    }
}
