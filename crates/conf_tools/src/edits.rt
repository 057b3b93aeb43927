// Edits of a configuration for which its tree says which sets and deletes they are.
ghost use Rattle.std.specs.Prelude.{◌≡◌, IfErr, IfOk};
ghost use Rattle.conf_tools.specs.Changes.{IsMadeOf};
ghost use Rattle.conf_tools.specs.Edits.{CannotEdit, LacksEdit, edits, placed, refusal_of, sets, takes};
ghost use Rattle.conf_tools.specs.Prelude.{command_of, text_of, tree_of};
ghost use Rattle.tree_edits.specs.Changes.{set_of};
ghost use Rattle.tree_edits.specs.Moves.{goes, move_of};

use crate::changes::Action;
use conf_disk::Disk;
use conf_state::{Command, Edit, StoreFault};
use conf_store::Store;
use conf_words::Placing;
use std::alloc::{AllocError, Global};
use tree_edits::{EditFault, Move, PlainSet, inserted, moved, with_parents};
use yaml_config::Config;

/// An edit of a configuration for which its tree says which sets and deletes it is.
#[derive(Drop)]
pub enum TreeEdit {
    /// Sets a value at a JSON Pointer, with the mappings that are missing on its way: a set where the first one is
    /// missing.
    WithParents { path: String, value: Config },
    /// Inserts a value before the element of a list at a JSON Pointer: a set of the list.
    Insert { path: String, value: Config },
    /// Moves what is at one JSON Pointer to another one: a batch that deletes it and then sets it. Where the two
    /// pointers are one, it is a set.
    Move { from: String, to: String },
}

/// The command that makes an edit of the configuration under a name.
///
/// # Errors
/// `BadName` and `NoConfig` if there is none; `TooDeep` and `ConfigLarge` if no configuration has the value to set; and
/// `OutOfMemory`.
pub(crate) fn edit_command<D: Disk>(
    alloc: Global,
    store: &Store<D>,
    name: String,
    edit: TreeEdit,
) -> Result<Command, StoreFault>
    ensures ok { IfOk result (λ command. IsMadeOf store.now.state (text_of name)
        (edits (text_of name) edit) (command_of command)) }
    ensures refused { IfErr result (LacksEdit store.now.state (text_of name) edit) }
{
    match store.config(&name) {
        Ok(config) => edit_of(alloc, config, name, edit),
        Err(fault) => Err(fault),
    }
}

/// The command that makes an edit of a configuration, which is under a name.
///
/// # Errors
/// `TooDeep` and `ConfigLarge` if no configuration has the value to set, and `OutOfMemory`.
fn edit_of(
    alloc: Global,
    config: &Config,
    name: String,
    edit: TreeEdit,
) -> Result<Command, StoreFault>
    ensures ok { IfOk result (λ command. command_of command
        ≡ edits (text_of name) edit (tree_of config.now)) }
    ensures refused { IfErr result (CannotEdit edit (tree_of config.now)) }
{
    match edit {
        TreeEdit::WithParents { path, value } => match with_parents(alloc, config, path, value) {
            Ok(set) => Ok(set_command(name, set)),
            Err(fault) => Err(refusal_of(fault)),
        },
        TreeEdit::Insert { path, value } => match inserted(alloc, config, path, value) {
            Ok(set) => Ok(set_command(name, set)),
            Err(fault) => Err(refusal_of(fault)),
        },
        TreeEdit::Move { from, to } => {
            let edits = moved(alloc, config, from, to)?;
            Ok(move_command(alloc, name, edits)?)
        }
    }
}

/// The fault of a store for a value that can't be set.
fn refusal_of(fault: EditFault) -> StoreFault
    ensures { result ≡ refusal_of fault }
{
    match fault {
        EditFault::TooDeep => StoreFault::TooDeep,
        EditFault::TooLarge => StoreFault::ConfigLarge,
        EditFault::OutOfMemory => StoreFault::OutOfMemory,
    }
}

/// The command that sets a value in the configuration under a name.
fn set_command(name: String, set: PlainSet) -> Command
    ensures { command_of result ≡ sets (text_of name) (set_of set) }
{
    Command::Set {
        name,
        path: set.path,
        value: set.value,
    }
}

/// The command that moves a value in the configuration under a name. It fails only if memory runs out.
fn move_command(alloc: Global, name: String, edits: Move) -> Result<Command, AllocError>
    ensures { IfOk result (λ command. command_of command ≡ takes (text_of name) (move_of edits)) }
{
    match edits {
        Move::Stays { path, value } => Ok(Command::Set { name, path, value }),
        Move::Goes { from, to, value } => move_batch(alloc, name, from, to, value),
        Move::Missing { from } => Ok(Command::Delete { name, path: from }),
    }
}

/// The batch that deletes what is at one pointer of the configuration under a name, and then sets a value at another
/// one. It fails only if memory runs out.
fn move_batch(
    alloc: Global,
    name: String,
    from: String,
    to: String,
    value: Config,
) -> Result<Command, AllocError>
    ensures { IfOk result (λ command. command_of command
        ≡ takes (text_of name) (goes (text_of from) (text_of to) (tree_of value))) }
{
    let delete = Edit::Delete {
        name: name.clone()?,
        path: from,
    };
    let set = Edit::Set {
        name,
        path: to,
        value,
    };
    let edits = vec![in alloc; delete, set]?;
    Ok(Command::Batch { edits })
}

/// The action that puts the value of a set so.
pub(crate) fn placed(placing: Placing, set: Action<'static>) -> Action<'static>
    ensures { result ≡ placed placing set.entry }
{
    match (placing, set) {
        (Placing::WithParents, Action::Perform(Command::Set { name, path, value })) =>
            Action::Edit {
                name,
                edit: TreeEdit::WithParents { path, value },
            },
        (Placing::BeforeElement, Action::Perform(Command::Set { name, path, value })) => {
            Action::Edit {
                name,
                edit: TreeEdit::Insert { path, value },
            }
        }
        (_, set) => set,
    }
}
