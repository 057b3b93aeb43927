// Commands on a draft.
ghost use Rattle.std.specs.Prelude.{map};
ghost use Rattle.conf_state.specs.Commands.{command_of, edit_of, batch};
ghost use Rattle.conf_state.specs.Drafts.{drafted, IsDraftOf};
ghost use Rattle.conf_state.specs.Endings.{EndsOnDraft};
ghost use Rattle.conf_state.specs.Steps.{all_edited, performed};

use crate::command::{Command, Edit, Edits};
use crate::draft::{Draft, OnDraft};
use crate::editing::make_edit;
use crate::fault::StoreFault;
use crate::origin::Origin;
use std::alloc::Global;

/// Makes the edits of a command on a draft of an origin. After a refusal the draft has to be dropped.
pub(crate) fn draft_command<O: Origin>(
    alloc: Global,
    origin: &O,
    draft: &mut Draft,
    command: Command,
) -> Result<(), StoreFault>
    requires { IsDraftOf (O.configs origin.now) draft.old }
    ensures { EndsOnDraft (O.configs origin.now) draft.old
        (performed (drafted (O.configs origin.now) draft.old) (command_of command))
        result draft.new }
{
    match command.into_edits() {
        Edits::Single(edit) => make_edit(alloc, &OnDraft { origin }, draft, edit),
        Edits::Batch(edits) => draft_batch(alloc, origin, draft, edits),
    }
}

/// Makes the edits of a batch on a draft of an origin. After a refusal the draft has to be dropped.
pub(crate) fn draft_batch<O: Origin>(
    alloc: Global,
    origin: &O,
    draft: &mut Draft,
    edits: Vec<Edit>,
) -> Result<(), StoreFault>
    requires { IsDraftOf (O.configs origin.now) draft.old }
    ensures { EndsOnDraft (O.configs origin.now) draft.old
        (performed (drafted (O.configs origin.now) draft.old) (batch (map edit_of edits.items)))
        result draft.new }
{
    if edits.is_empty() {
        return Err(StoreFault::EmptyBatch);
    }
    draft_edits(alloc, origin, draft, edits)
}

/// Makes edits on a draft of an origin, one after the other. After a refusal the draft has to be dropped.
pub(crate) fn draft_edits<O: Origin>(
    alloc: Global,
    origin: &O,
    draft: &mut Draft,
    edits: Vec<Edit>,
) -> Result<(), StoreFault>
    requires { IsDraftOf (O.configs origin.now) draft.old }
    ensures { EndsOnDraft (O.configs origin.now) draft.old
        (all_edited (drafted (O.configs origin.now) draft.old) (map edit_of edits.items))
        result draft.new }
{
    for edit in edits {
        make_edit(alloc, &OnDraft { origin }, draft, edit)?;
    }
    Ok(())
}
