// Where the text of a record goes: a buffer, or a count of its bytes.
ghost use Rattle.std.specs.Prelude.{◌≡◌, ◌≤◌, OnOk};
ghost use Rattle.conf_record.specs.Prelude.{IsKept, tree_of, value_at};

use conf_state::value_length;
use std::alloc::AllocError;
use std::convert::Infallible;
use yaml_tree::{ByteCount, Config, Sink, write_value};

/// The indentation of the members of an edit in a batch.
pub(crate) const EDIT_INDENT: u64 = 4;

/// A sink that takes configurations too. A count needs only the size that a configuration keeps, and not its text.
pub(crate) trait RecordSink: Sink {
    /// Takes a configuration as the value after the `:` of its key, whose line is indented by `indent` spaces.
    fn put_value(&mut self, value: &Config, indent: u64) -> Result<(), Self::Fault>
        requires { indent ≤ EDIT_INDENT }
        ensures takes { OnOk result (Self.Takes self.old
            (value_at (tree_of value.now) indent) self.new) }
        ensures kept { OnOk result (IsKept (tree_of value.now)) };
}

/// The text of the configuration comes at the end. It fails only if memory runs out.
impl RecordSink for String {
    fn put_value(&mut self, value: &Config, indent: u64) -> Result<(), AllocError> {
        write_value(value.tree(), indent, self)
    }
}

/// As many bytes are counted as the configuration has: those of so many spaces.
impl RecordSink for ByteCount {
    fn put_value(&mut self, value: &Config, indent: u64) -> Result<(), Infallible> {
        self.put_spaces(value_length(value, indent))
    }
}
