// Edits of a state in place.
use crate::editing::Editor;
use crate::fault::StoreFault;
use crate::room::Room;
use crate::state::State;
use std::alloc::Global;
use yaml_config::{Config, Edit as PathEdit};

/// Makes an edit in a state in place, as a command by itself. A refusal leaves the state unchanged.
#[derive(Drop)]
pub(crate) struct InPlace {
    /// Whether there is room for the command's record.
    pub(crate) room: Room,
}

impl Editor for InPlace {
    ghost use Rattle.conf_state.specs.Endings.{EndsInPlace, refused_in_place};

    type Target = State;

    ghost configs = { λ _ state. state.configs };

    ghost IsReady = { λ _ _. Unit {0} };

    ghost Ends = { λ editor. EndsInPlace editor.room };

    fn has(&self, target: &State, name: &str) -> bool {
        target.get(name).is_some()
    }

    fn put(&self, target: &mut State, name: String, config: Config) -> Result<(), StoreFault> {
        target.put(name, config, self.room)
    }

    fn edit(
        &self,
        alloc: Global,
        target: &mut State,
        name: String,
        pointer: &str,
        edit: PathEdit,
    ) -> Result<(), StoreFault> {
        target.edit(alloc, &name, pointer, edit, self.room)
    }

    fn remove(&self, target: &mut State, name: String) -> Result<(), StoreFault> {
        target.take_out(&name, self.room)
    }

    ghost refused = { λ editor state fault. refused_in_place editor.room state fault };
}
