// One command on a state that is dropped if the command is refused.
ghost use Rattle.std.specs.Prelude.{◌≡◌, ◌⊎◌, Ok, Err, OnOk, IfErr, map};
ghost use Rattle.conf_state.specs.Commands.{command_of, edit_of, batch};
ghost use Rattle.conf_state.specs.Steps.{step};

use crate::command::{Command, Edit, Edits};
use crate::drafting::draft_batch;
use crate::fault::StoreFault;
use crate::room::Room;
use crate::state::State;
use crate::steps::step_edit;
use std::alloc::Global;

/// Performs a command as [`step`](crate::step) does, where there is room for its record. After a refusal the state
/// has to be dropped. So a batch makes its edits in place, and copies no configuration.
pub fn replay(alloc: Global, state: &mut State, command: Command) -> Result<(), StoreFault>
    ensures ok { OnOk result (step state.old (command_of command) Room.Enough ≡ Ok state.new) }
    ensures refused { IfErr result (λ fault. (fault ≡ StoreFault.OutOfMemory)
        ⊎ (step state.old (command_of command) Room.Enough ≡ Err fault)) }
{
    match command.into_edits() {
        Edits::Single(edit) => step_edit(alloc, state, edit, Room::Enough),
        Edits::Batch(edits) => replay_batch(alloc, state, edits),
    }
}

/// Performs a batch, on a draft that holds all configurations.
fn replay_batch(alloc: Global, state: &mut State, edits: Vec<Edit>) -> Result<(), StoreFault>
    ensures ok { OnOk result (step state.old (batch (map edit_of edits.items)) Room.Enough
        ≡ Ok state.new) }
    ensures refused { IfErr result (λ fault. (fault ≡ StoreFault.OutOfMemory)
        ⊎ (step state.old (batch (map edit_of edits.items)) Room.Enough ≡ Err fault)) }
{
    let mut held = state.take_configs(alloc);
    draft_batch(alloc, state, &mut held, edits)?;
    state.fill(held, Room::Enough)
}
