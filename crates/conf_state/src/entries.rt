// A configuration of a state by itself, as a base text has it.
ghost use Rattle.std.specs.Prelude.{◌≡◌, OnOk};
ghost use Rattle.conf_state.specs.Prelude.{chars, byte_len};
ghost use Rattle.conf_state.specs.EntryTexts.{entry_named};

use crate::base::{entry_length, write_entry};
use crate::state::State;
use yaml_writer::Sink;

impl State {
    /// Writes the configuration under a name as a base text has it: under its name at the indentation 2, in the one
    /// style. If no configuration has the name, it writes nothing. It fails only if the sink does.
    pub fn write_entry<S: Sink>(&self, name: &str, sink: &mut S) -> Result<(), S::Fault>
        ensures { OnOk result (S.Takes sink.old (entry_named self.now.configs (chars name.now))
            sink.new) }
    {
        match self.get(name) {
            Some(config) => write_entry(name, config, sink),
            None => Ok(()),
        }
    }

    /// How many bytes [`write_entry`](State::write_entry) writes. They are not counted where the size of the
    /// configuration is known.
    pub fn entry_length(&self, name: &str) -> u64
        ensures { result ≡ byte_len (entry_named self.now.configs (chars name.now)) }
    {
        match self.get(name) {
            Some(config) => entry_length(name, config),
            None => 0,
        }
    }
}
