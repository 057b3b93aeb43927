// Sets inside configurations that are made together or not at all. They are made in place, and what takes each back is
// kept until the last one is made.
ghost use Rattle.std.specs.Prelude.{◌≡◌, ◌⊎◌, ◌+◌, ◌<◌, true, List, map, Ok, Err, OnOk, IfErr, length};
ghost use Rattle.conf_state.specs.Prelude.{chars};
ghost use Rattle.yaml_config.specs.declared.edit.Edit.TheVariants.{Set};
ghost use Rattle.conf_state.specs.Commands.{edit_of, text_of};
ghost use Rattle.conf_state.specs.Edits.{configs_edited};
ghost use Rattle.conf_state.specs.Kept.{entries_of, ArePlain};
ghost use Rattle.conf_state.specs.States.{Contents, Entry};
ghost use Rattle.conf_state.specs.Steps.{all_edited, and_then, next_state};
ghost use Rattle.conf_state.specs.Trails.{AreSets, IsHeld, IsMade, IsSet, Trail};

use crate::command::Edit;
use crate::configs::Configs;
use crate::counting::check_room;
use crate::draft_length::length_changed;
use crate::fault::StoreFault;
use crate::name::absence;
use crate::planning::set_in_config;
use crate::room::Room;
use std::alloc::Global;
use yaml_config::{Config, Undo};

/// A set that was made inside the configuration under a name.
#[derive(Drop)]
pub(crate) struct Made {
    name: String,
    undo: Undo,
}

/// The sets that were made so far.
#[derive(Drop)]
pub(crate) struct Sets {
    /// What takes them back, in the order in which they were made.
    pub(crate) made: Vec<Made>,
    /// How many bytes the configurations have in the base text after them.
    pub(crate) length: u64,
}

/// Whether edits are sets inside configurations.
pub(crate) fn are_sets(edits: &[Edit]) -> bool
    ensures { result ≡ true → AreSets edits.now }
{
    for edit in edits {
        if !is_set(edit) {
            return false;
        }
    }
    true
}

fn is_set(edit: &Edit) -> bool
    ensures { result ≡ true → IsSet edit.now }
{
    match edit {
        Edit::Set { path, .. } => !path.is_empty(),
        _ => false,
    }
}

/// Makes the sets of a command, one after the other, if there is room for its record as the next one after `count`
/// commands. After a refusal those that were made have to be taken back.
pub(crate) fn set_all(
    alloc: Global,
    configs: &mut Configs,
    sets: &mut Sets,
    edits: Vec<Edit>,
    count: u64,
    room: Room,
) -> Result<(), StoreFault>
    requires held { IsHeld configs.old sets.old.length }
    requires sets { AreSets edits.items }
    ensures ok { OnOk result (all_edited (entries_of configs.old) (map edit_of edits.items)
        ≡ Ok (entries_of configs.new)) }
    ensures held { OnOk result (IsHeld configs.new sets.new.length) }
    ensures counts { OnOk result (count < u64.MAX) }
    ensures room { OnOk result ((s : Contents) → s.count ≡ count
        → next_state s room (entries_of configs.new)
        ≡ Ok (record { configs = entries_of configs.new; count = s.count + 1 })) }
    ensures refused { IfErr result (λ fault. (fault ≡ StoreFault.OutOfMemory)
        ⊎ ((s : Contents) → s.count ≡ count
        → and_then (all_edited (entries_of configs.old) (map edit_of edits.items))
        (next_state s room) ≡ Err fault)) }
    ensures plain { ArePlain configs.new }
    ensures trail { (start : List Entry)
        → Trail start sets.old.made.items (entries_of configs.old)
        → Trail start sets.new.made.items (entries_of configs.new) }
{
    set_each(alloc, configs, sets, edits)?;
    check_room(count, sets.length, room)
}

/// Makes sets, one after the other. After a refusal those that were made have to be taken back.
fn set_each(
    alloc: Global,
    configs: &mut Configs,
    sets: &mut Sets,
    edits: Vec<Edit>,
) -> Result<(), StoreFault>
    requires held { IsHeld configs.old sets.old.length }
    requires sets { AreSets edits.items }
    ensures ok { OnOk result (all_edited (entries_of configs.old) (map edit_of edits.items)
        ≡ Ok (entries_of configs.new)) }
    ensures held { OnOk result (IsHeld configs.new sets.new.length) }
    ensures refused { IfErr result (λ fault. (fault ≡ StoreFault.OutOfMemory)
        ⊎ (all_edited (entries_of configs.old) (map edit_of edits.items) ≡ Err fault)) }
    ensures plain { ArePlain configs.new }
    ensures trail { (start : List Entry)
        → Trail start sets.old.made.items (entries_of configs.old)
        → Trail start sets.new.made.items (entries_of configs.new) }
{
    for edit in edits {
        let Edit::Set { name, path, value } = edit else {
            unreachable!()
        };
        set_one(alloc, configs, sets, name, &path, value)?;
    }
    Ok(())
}

/// Makes a set inside the configuration under a name, at a pointer that is not empty. If it is refused after it was
/// made, since memory ran out, it is among those that have to be taken back.
fn set_one(
    alloc: Global,
    configs: &mut Configs,
    sets: &mut Sets,
    name: String,
    pointer: &str,
    value: Config,
) -> Result<(), StoreFault>
    requires held { IsHeld configs.old sets.old.length }
    requires steps { 0 < length pointer.now }
    ensures ok { OnOk result (configs_edited (entries_of configs.old) (text_of name) (Set value)
        (chars pointer.now) ≡ Ok (entries_of configs.new)) }
    ensures held { OnOk result (IsHeld configs.new sets.new.length) }
    ensures refused { IfErr result (λ fault. (fault ≡ StoreFault.OutOfMemory)
        ⊎ (configs_edited (entries_of configs.old) (text_of name) (Set value)
        (chars pointer.now) ≡ Err fault)) }
    ensures plain { ArePlain configs.new }
    ensures trail { (start : List Entry)
        → Trail start sets.old.made.items (entries_of configs.old)
        → Trail start sets.new.made.items (entries_of configs.new) }
{
    sets.made.reserve(1)?;
    let Some(config) = configs.get_mut(&name) else {
        return Err(absence(&name));
    };
    let (undo, change) = set_in_config(alloc, config, pointer, value)?;
    sets.made.push_reserved(Made { name, undo });
    sets.length = length_changed(sets.length, change)?;
    Ok(())
}

/// Takes sets back, the last one first. It takes no memory.
pub(crate) fn take_back(configs: &mut Configs, made: Vec<Made>)
    requires plain { ArePlain configs.old }
    requires trail { (start : List Entry) × Trail start made.items (entries_of configs.old) }
    ensures same { (start : List Entry) → Trail start made.items (entries_of configs.old)
        → entries_of configs.new ≡ start }
    ensures plain { ArePlain configs.new }
{
    let mut left = made;
    while let Some(last) = left.pop() {
        take_one_back(configs, last);
    }
}

/// Takes the last set back.
fn take_one_back(configs: &mut Configs, made: Made)
    requires plain { ArePlain configs.old }
    requires made { (before : List Entry) × IsMade made before (entries_of configs.old) }
    ensures same { (before : List Entry) → IsMade made before (entries_of configs.old)
        → entries_of configs.new ≡ before }
    ensures plain { ArePlain configs.new }
{
    if let Some(config) = configs.get_mut(&made.name) {
        config.undo(made.undo);
    }
}
