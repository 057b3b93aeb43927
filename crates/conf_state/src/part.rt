// A state of which only some configurations are built.
ghost use Rattle.std.specs.Prelude.{◌≡◌, ◌⊎◌, ◌+◌, Ok, Err, OnOk, IfOk, IfErr, IfSome, IfNone, map, option_map};
ghost use Rattle.conf_state.specs.Prelude.{chars, tree_of};
ghost use Rattle.conf_state.specs.Commands.{command_of, text_of};
ghost use Rattle.conf_state.specs.Drafts.{drafted, IsDraftOf};
ghost use Rattle.conf_state.specs.Limits.{IsState};
ghost use Rattle.conf_state.specs.Parts.{IsPart};
ghost use Rattle.conf_state.specs.States.{config_named, names_of};
ghost use Rattle.conf_state.specs.Steps.{step};

use crate::base::{BASE_LIMIT, base_length};
use crate::command::Command;
use crate::counting::check_room;
use crate::draft::Draft;
use crate::drafting::draft_command;
use crate::fault::StoreFault;
use crate::origin::Origin;
use crate::room::Room;
use std::alloc::{AllocError, Global};
use std::marker::Model;
use yaml_config::Config;

/// The configurations of a store by name, in order, and how many commands were accepted, as in a
/// [`State`](crate::State). Only a configuration that a command puts or edits is built. The others are those of an
/// origin. Contracts see the same value as of a state. That a part keeps a state's limits is said by the clause
/// `limits` of [`Part::count`].
#[derive(Drop)]
pub struct Part<O: Origin> {
    origin: O,
    /// How many commands were accepted before the first that this part performs.
    start: u64,
    draft: Draft,
    count: u64,
}

impl<O: Origin> Model for Part<O> {
    ghost use Rattle.conf_state.specs.States.{Contents};
    ghost use Rattle.conf_state.specs.TreeCode.{contents_code};

    ghost Value = { Contents };

    ghost coded = { contents_code };

    ghost use Rattle.conf_state.specs.Drafts.{drafted};
    ghost use Rattle.conf_state.specs.Limits.{IsState};
    ghost use Rattle.conf_state.specs.Parts.{IsPart};

    ghost view = { λ p. record { configs = drafted (O.configs p.origin) p.draft; count = p.count } };

    ghost invariant = { λ p. IsPart (O.configs p.origin) p.draft p.count
        × IsState (record { configs = O.configs p.origin; count = p.start }) };
}

impl<O: Origin> Part<O> {
    /// An origin's configurations, after this many accepted commands. Returns `None` if the base text would have more
    /// than 67,108,864 bytes.
    pub fn new(alloc: Global, origin: O, count: u64) -> Option<Part<O>>
        ensures some { IfSome result (λ part.
            (part ≡ record { configs = O.configs origin; count = count }) × IsState part) }
        ensures none { IfNone result
            (IsState (record { configs = O.configs origin; count = count }) → ⊥) }
    {
        let draft = Draft::new(alloc, &origin);
        if base_length(u128::from(count), draft.length) > BASE_LIMIT {
            return None;
        }
        Some(Part {
            origin,
            start: count,
            draft,
            count,
        })
    }

    /// How many commands were accepted.
    pub fn count(&self) -> u64
        ensures count { result ≡ self.now.count }
        ensures limits { IsState self.now }
    {
        self.count
    }

    /// A copy of the configuration under a name; `None` if no configuration has the name. It fails only if memory runs
    /// out.
    pub fn copy_of(&self, alloc: Global, name: &str) -> Result<Option<Config>, AllocError>
        ensures { IfOk result (λ copy. option_map tree_of copy
            ≡ config_named self.now.configs (chars name.now)) }
    {
        self.draft.copy_of(alloc, &self.origin, name)
    }

    /// The names, in the order of the configurations. It fails only if memory runs out.
    pub fn names(&self, alloc: Global) -> Result<Vec<String>, AllocError>
        ensures { IfOk result (λ names. map text_of names.items ≡ names_of self.now.configs) }
    {
        self.draft.names(alloc, &self.origin)
    }

    /// Performs a command as [`step`](crate::step) does, where there is room for its record. After a refusal the part
    /// has to be dropped.
    pub fn replay(&mut self, alloc: Global, command: Command) -> Result<(), StoreFault>
        ensures ok { OnOk result (step self.old (command_of command) Room.Enough ≡ Ok self.new) }
        ensures refused { IfErr result (λ fault. (fault ≡ StoreFault.OutOfMemory)
            ⊎ (step self.old (command_of command) Room.Enough ≡ Err fault)) }
    {
        match draft_next(alloc, &self.origin, &mut self.draft, self.count, command) {
            Ok(()) => {
                self.count += 1;
                Ok(())
            }
            Err(fault) => {
                self.draft = Draft::new(alloc, &self.origin);
                self.count = self.start;
                Err(fault)
            }
        }
    }
}

/// Makes the edits of a command on a draft of an origin, as the next one after `count` commands. After a refusal the
/// draft has to be dropped.
fn draft_next<O: Origin>(
    alloc: Global,
    origin: &O,
    draft: &mut Draft,
    count: u64,
    command: Command,
) -> Result<(), StoreFault>
    requires { IsDraftOf (O.configs origin.now) draft.old }
    ensures part { OnOk result (IsPart (O.configs origin.now) draft.new (count + 1)) }
    ensures ok { OnOk result (step
        (record { configs = drafted (O.configs origin.now) draft.old; count = count })
        (command_of command) Room.Enough
        ≡ Ok (record { configs = drafted (O.configs origin.now) draft.new; count = count + 1 })) }
    ensures refused { IfErr result (λ fault. (fault ≡ StoreFault.OutOfMemory) ⊎ (step
        (record { configs = drafted (O.configs origin.now) draft.old; count = count })
        (command_of command) Room.Enough ≡ Err fault)) }
{
    draft_command(alloc, origin, draft, command)?;
    check_room(count, draft.length, Room::Enough)
}
