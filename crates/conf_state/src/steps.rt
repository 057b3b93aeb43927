// One command on a state.
ghost use Rattle.std.specs.Prelude.{◌≡◌, ◌⊎◌, Ok, Err, OnOk, OnErr, IfErr, map};
ghost use Rattle.conf_state.specs.Commands.{command_of, edit_of, single, batch};
ghost use Rattle.conf_state.specs.Steps.{all_edited, and_then, next_state, step};

use crate::command::{Command, Edit, Edits};
use crate::draft::Draft;
use crate::drafting::draft_edits;
use crate::editing::make_edit;
use crate::fault::StoreFault;
use crate::in_place::InPlace;
use crate::room::Room;
use crate::sets::are_sets;
use crate::state::State;
use std::alloc::Global;

/// Performs a command. A refused command leaves the state unchanged, and is dropped. `room` says whether there is room
/// for the command's record. If there isn't, the command is refused with [`StoreFault::RecordLong`] or
/// [`StoreFault::JournalLong`], unless a fault that is before it in [`StoreFault`] holds.
///
/// An import under a new name goes last; under an existing name it replaces the tree. A set or a delete edits the tree
/// under the name. At the empty path a set replaces the configuration, and a delete removes it.
///
/// A batch makes its edits one after the other, each on what those before it made. If one of them is refused, so is the
/// batch, with its fault, and none is made. The limit of the base text is that of the state after the last edit.
pub fn step(
    alloc: Global,
    state: &mut State,
    command: Command,
    room: Room,
) -> Result<(), StoreFault>
    ensures ok { OnOk result (step state.old (command_of command) room ≡ Ok state.new) }
    ensures refused { IfErr result (λ fault. (fault ≡ StoreFault.OutOfMemory)
        ⊎ (step state.old (command_of command) room ≡ Err fault)) }
    ensures unchanged { OnErr result (state.new ≡ state.old) }
{
    match command.into_edits() {
        Edits::Single(edit) => step_edit(alloc, state, edit, room),
        Edits::Batch(edits) => step_batch(alloc, state, edits, room),
    }
}

/// Performs a batch. If it has one edit alone, that is made in place.
fn step_batch(
    alloc: Global,
    state: &mut State,
    mut edits: Vec<Edit>,
    room: Room,
) -> Result<(), StoreFault>
    ensures ok { OnOk result (step state.old (batch (map edit_of edits.items)) room
        ≡ Ok state.new) }
    ensures refused { IfErr result (λ fault. (fault ≡ StoreFault.OutOfMemory)
        ⊎ (step state.old (batch (map edit_of edits.items)) room ≡ Err fault)) }
    ensures unchanged { OnErr result (state.new ≡ state.old) }
{
    match edits.len() {
        0 => Err(StoreFault::EmptyBatch),
        1 => step_edit(alloc, state, edits.pop().unwrap(), room),
        _ => step_edits(alloc, state, edits, room),
    }
}

/// Performs the edits of a batch. If each sets a value inside a configuration, they are made in place, and copy none.
fn step_edits(
    alloc: Global,
    state: &mut State,
    edits: Vec<Edit>,
    room: Room,
) -> Result<(), StoreFault>
    ensures ok { OnOk result (and_then (all_edited state.old.configs (map edit_of edits.items))
        (next_state state.old room) ≡ Ok state.new) }
    ensures refused { IfErr result (λ fault. (fault ≡ StoreFault.OutOfMemory)
        ⊎ (and_then (all_edited state.old.configs (map edit_of edits.items))
        (next_state state.old room) ≡ Err fault)) }
    ensures unchanged { OnErr result (state.new ≡ state.old) }
{
    if are_sets(&edits) {
        return state.set_all(alloc, edits, room);
    }
    let mut draft = Draft::new(alloc, state);
    draft_edits(alloc, state, &mut draft, edits)?;
    state.take(draft, room)
}

/// Performs the command that is this edit alone, in place.
pub(crate) fn step_edit(
    alloc: Global,
    state: &mut State,
    edit: Edit,
    room: Room,
) -> Result<(), StoreFault>
    ensures ok { OnOk result (step state.old (single (edit_of edit)) room ≡ Ok state.new) }
    ensures refused { IfErr result (λ fault. (fault ≡ StoreFault.OutOfMemory)
        ⊎ (step state.old (single (edit_of edit)) room ≡ Err fault)) }
    ensures unchanged { OnErr result (state.new ≡ state.old) }
{
    make_edit(alloc, &InPlace { room }, state, edit)
}
