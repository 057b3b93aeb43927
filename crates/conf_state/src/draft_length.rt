// How many bytes the configurations that a draft makes of an origin's have in the base text.
ghost use Rattle.std.specs.Prelude.{◌≡◌, ℕ, List, min, IfOk};
ghost use Rattle.conf_state.specs.Prelude.{chars, byte_len, tree_of};
ghost use Rattle.conf_state.specs.BaseTexts.{entries_length};
ghost use Rattle.conf_state.specs.Drafts.{drafted, ChangesOne, IsDraftOf};
ghost use Rattle.conf_state.specs.EntryTexts.{entry_named};
ghost use Rattle.conf_state.specs.States.{Entry, put_config, cut_config};

use crate::base::{ENTRY_INDENT, entry_length};
use crate::draft::Draft;
use crate::origin::Origin;
use std::alloc::AllocError;
use yaml_config::{Change, Config};

// No memory holds configurations of 18,446,744,073,709,551,615 bytes or more, and so such a sum is returned as an
// `AllocError`.

impl Draft {
    /// How many bytes the configurations would have with this one under its name.
    pub(crate) fn length_with<O: Origin>(
        &self,
        origin: &O,
        name: &str,
        config: &Config,
    ) -> Result<u64, AllocError>
        requires { IsDraftOf (O.configs origin.now) self.now }
        ensures { IfOk result (λ length. length
            ≡ entries_length (put_config (drafted (O.configs origin.now) self.now) (chars name.now)
            (tree_of config.now))) }
    {
        let length = self
            .length_without(origin, name)
            .saturating_add(entry_length(name, config));
        if length == u64::MAX {
            return Err(AllocError);
        }
        Ok(length)
    }

    /// How many bytes the configurations would have without the one under a name.
    pub(crate) fn length_without<O: Origin>(&self, origin: &O, name: &str) -> u64
        requires { IsDraftOf (O.configs origin.now) self.now }
        ensures { result ≡ entries_length
            (cut_config (drafted (O.configs origin.now) self.now) (chars name.now)) }
    {
        self.length - self.length_of(origin, name)
    }

    /// How many bytes the configuration under a name has in the base text, with its name, at most the greatest `u64`; 0
    /// if there is none.
    fn length_of<O: Origin>(&self, origin: &O, name: &str) -> u64
        requires { IsDraftOf (O.configs origin.now) self.now }
        ensures { result ≡ min (byte_len
            (entry_named (drafted (O.configs origin.now) self.now) (chars name.now))) u64.MAX }
    {
        if let Some(config) = self.touched.get(name) {
            return entry_length(name, config);
        }
        if self.removed.contains(name) {
            return 0;
        }
        origin.length_of(name)
    }
}

/// How many bytes configurations of `before` bytes have after a change of one of them.
pub(crate) fn length_changed(before: u64, change: Change) -> Result<u64, AllocError>
    requires { (old new : List Entry) × (name : List ℕ)
        × (before ≡ entries_length old) × ChangesOne change old name new }
    ensures { IfOk result (λ after. (old new : List Entry) (name : List ℕ)
        → before ≡ entries_length old → ChangesOne change old name new
        → after ≡ entries_length new) }
{
    let after = change.length_after(before, ENTRY_INDENT);
    if after > u128::from(u64::MAX) {
        return Err(AllocError);
    }
    Ok(after as u64)
}
