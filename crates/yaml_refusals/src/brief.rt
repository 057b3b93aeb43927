// A refusal in a few words, for a line that an editor reads.
use crate::detail::Detail;
use crate::refusal::Refusal;
use std::fmt;
use yaml_events::ReadFault;

/// A refusal by the name of its fault, and what is known of it in parentheses: `KeyTwice "port" (first at 2:1)`,
/// `Syntax Key (a `: ` in a value without quotes: quote the value)`. It has no place: that stands before it, behind the
/// file's name.
#[derive(Clone, Copy)]
pub struct RefusalBrief<'r>(pub &'r Refusal);

impl fmt::Display for RefusalBrief<'_> {
    fn fmt<W: fmt::Write>(&self, f: &mut fmt::Formatter<W>) -> fmt::Result {
        match self.0.fault {
            ReadFault::Syntax { why, .. } => write!(f, "Syntax {why:?}")?,
            fault => {
                let name = fault.brief();
                write!(f, "{name}")?;
            }
        }
        match &self.0.detail {
            Detail::None => Ok(()),
            Detail::Bytes { found, limit } => write!(f, " ({found} bytes, and at most {limit})"),
            Detail::Depth { limit } => write!(f, " (at most {limit} deep)"),
            Detail::Documents { count: 0 } => f.write_str(" (none)"),
            Detail::Documents { count } => write!(f, " (the second of {count} begins here)"),
            Detail::Key { name, first } => write!(f, " {name:?} (first at {first})"),
            Detail::Hint(hint) => write!(f, " ({hint})"),
        }
    }
}
