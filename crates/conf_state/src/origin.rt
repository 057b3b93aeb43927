// Configurations that a draft or a part begins with.
ghost use Rattle.std.specs.Prelude.{◌≡◌, List, map, is_some, option_map, IfOk};
ghost use Rattle.conf_state.specs.Prelude.{chars, byte_len, tree_of};
ghost use Rattle.conf_state.specs.BaseTexts.{entries_length};
ghost use Rattle.conf_state.specs.Commands.{text_of};
ghost use Rattle.conf_state.specs.EntryTexts.{entry_named};
ghost use Rattle.conf_state.specs.Limits.{AreWithin};
ghost use Rattle.conf_state.specs.States.{Entry, names_of, config_named};

use crate::state::State;
use std::alloc::{AllocError, Global};
use yaml_config::Config;

/// Configurations by name, in order, which may be kept in any form: as trees, or as the text of a base. They are within
/// the limits of a store, and don't change.
pub trait Origin: Drop {
    /// The configurations.
    ghost configs: { Self → List Entry };

    /// Whether there is a configuration under a name.
    fn has(&self, name: &str) -> bool
        ensures { result ≡ is_some (config_named (configs self.now) (chars name.now)) };

    /// How many bytes the configuration under a name has in a base text, with its name; 0 if there is none.
    fn length_of(&self, name: &str) -> u64
        ensures { result ≡ byte_len (entry_named (configs self.now) (chars name.now)) };

    /// A copy of the configuration under a name. It fails only if memory runs out.
    fn copy_of(&self, alloc: Global, name: &str) -> Result<Option<Config>, AllocError>
        ensures { IfOk result (λ copy. option_map tree_of copy
            ≡ config_named (configs self.now) (chars name.now)) };

    /// The names, in order. It fails only if memory runs out.
    fn all_names(&self, alloc: Global) -> Result<Vec<String>, AllocError>
        ensures { IfOk result (λ names. map text_of names.items ≡ names_of (configs self.now)) };

    /// How many bytes all configurations have in a base text.
    fn total_length(&self) -> u64
        ensures exact { result ≡ entries_length (configs self.now) }
        ensures limits { AreWithin (configs self.now) };
}

impl Origin for State {
    ghost configs = { λ state. state.configs };

    fn has(&self, name: &str) -> bool {
        self.get(name).is_some()
    }

    fn length_of(&self, name: &str) -> u64 {
        self.entry_length(name)
    }

    fn copy_of(&self, alloc: Global, name: &str) -> Result<Option<Config>, AllocError> {
        match self.get(name) {
            Some(config) => Ok(Some(config.try_copy(alloc)?)),
            None => Ok(None),
        }
    }

    fn all_names(&self, alloc: Global) -> Result<Vec<String>, AllocError> {
        let mut names = Vec::new(alloc);
        for name in self.names() {
            names.push(String::from_str(alloc, name)?)?;
        }
        Ok(names)
    }

    fn total_length(&self) -> u64 {
        self.entries_length()
    }
}
