// The base of a store's file, as what its records change.
ghost use Rattle.std.specs.Prelude.{◌≡◌};

use conf_record::BaseText;
use conf_state::{Origin, State};
use std::alloc::{AllocError, Global};
use yaml_config::Config;

/// The configurations of a base.
#[derive(Drop)]
pub(crate) enum Base {
    /// A base that is written as a store writes it. No configuration is built.
    Written(BaseText),
    /// A base in another form.
    Spelled(State),
}

impl Origin for Base {
    ghost use Rattle.conf_history.specs.Bases.{configs_of};

    ghost configs = { configs_of };

    fn has(&self, name: &str) -> bool {
        match self {
            Base::Written(base) => base.has(name),
            Base::Spelled(state) => state.has(name),
        }
    }

    fn length_of(&self, name: &str) -> u64 {
        match self {
            Base::Written(base) => base.length_of(name),
            Base::Spelled(state) => Origin::length_of(state, name),
        }
    }

    fn copy_of(&self, alloc: Global, name: &str) -> Result<Option<Config>, AllocError> {
        match self {
            Base::Written(base) => base.copy_of(alloc, name),
            Base::Spelled(state) => state.copy_of(alloc, name),
        }
    }

    fn all_names(&self, alloc: Global) -> Result<Vec<String>, AllocError> {
        match self {
            Base::Written(base) => base.all_names(alloc),
            Base::Spelled(state) => state.all_names(alloc),
        }
    }

    fn total_length(&self) -> u64 {
        match self {
            Base::Written(base) => base.total_length(),
            Base::Spelled(state) => state.total_length(),
        }
    }
}
