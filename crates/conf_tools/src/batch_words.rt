// The word of the program that makes all edits of a list, or none.
ghost use Rattle.std.specs.Prelude.{◌≡◌, map};
ghost use Rattle.conf_state.specs.Commands.{edit_of};
ghost use Rattle.conf_tools.specs.Batches.{IsBatch, MakesEdits, counted_alone, fault_of_edits};
ghost use Rattle.conf_tools.specs.Outcomes.{LeavesBatch};
ghost use Rattle.conf_tools.specs.Performs.{BatchesBytes, BatchesRead};

use crate::change_words::change_if;
use crate::changes::{Action, Change};
use crate::file_words::tell_cause;
use crate::listener::Listener;
use crate::outcome::Ending;
use crate::reporter::{Origin, Reporter};
use crate::texts::ToolFault;
use crate::world::{Access, World};
use conf_about::About;
use conf_session::{EditsFault, read_edits};
use conf_state::{Command, Edit};
use conf_words::{Batch, Conditions, Target, Wanted};
use std::alloc::Global;

/// The name and the pointer of a change that is at no one place, where anything may be.
const NOWHERE: &str = "";

/// Makes the edits that the text of a file lists, all of them or none. Why it was not read or is refused is written.
pub(crate) fn batch_text<A: World, E: Listener>(
    world: &mut A,
    reporter: Reporter,
    asked: Batch<'_>,
    about: Option<About>,
    read: Result<Vec<u8>, ToolFault>,
    errors: &mut E,
) -> Ending<'static>
    ensures makes { BatchesRead A.model A.Disk.model about asked.entry.folder.now asked.entry.count read
        world.old world.new result }
    ensures leaves { LeavesBatch E.hears errors.old result errors.new }
{
    match read {
        Ok(text) => batch_bytes(world, reporter, asked, about, &text, errors),
        Err(fault) => {
            reporter.tell_fault(errors, Origin::Named(asked.file), b"", fault);
            tell_cause(world, reporter.alloc, asked.file, errors);
            Ending::ToldFault(fault)
        }
    }
}

/// Makes the edits that a text lists, all of them or none. Why the text is refused is written.
fn batch_bytes<A: World, E: Listener>(
    world: &mut A,
    reporter: Reporter,
    asked: Batch<'_>,
    about: Option<About>,
    text: &[u8],
    errors: &mut E,
) -> Ending<'static>
    ensures makes { BatchesBytes A.model A.Disk.model about asked.entry.folder.now asked.entry.count text.now
        world.old world.new result }
    ensures leaves { LeavesBatch E.hears errors.old result errors.new }
{
    let place = Target {
        folder: asked.folder,
        name: NOWHERE,
        pointer: NOWHERE,
        conditions: conditions_of(asked.count),
    };
    match batch_of(reporter.alloc, text) {
        Ok(action) => {
            let (access, change) = (Access::Changing, Change::Act { action, about });
            Ending::Of(change_if(world, reporter.alloc, access, place, change, errors))
        }
        Err(fault) => {
            reporter.tell_fault(errors, Origin::Named(asked.file), text, fault);
            Ending::ToldFault(fault)
        }
    }
}

/// The condition that a store has accepted so many commands, if there is a number.
fn conditions_of(count: Option<u64>) -> Conditions<'static>
    ensures { result ≡ counted_alone count }
{
    Conditions {
        place: Wanted::Anything,
        count,
    }
}

/// The action that makes the edits which a text lists, or why it lists none.
fn batch_of(alloc: Global, text: &[u8]) -> Result<Action<'static>, ToolFault>
    ensures { IsBatch text.now result }
{
    match read_edits(alloc, text) {
        Ok(edits) => Ok(batch_action(edits)),
        Err(fault) => Err(fault_of_edits(fault)),
    }
}

/// Why a text lists no edits, as a fault of the text.
fn fault_of_edits(fault: EditsFault) -> ToolFault
    ensures { result ≡ fault_of_edits fault }
{
    match fault {
        EditsFault::Text(fault) => ToolFault::Read(fault),
        EditsFault::NoEdits => ToolFault::NoEdits,
        EditsFault::Import(fault) => ToolFault::ImportText(fault),
    }
}

/// The action that makes these edits.
fn batch_action(edits: Vec<Edit>) -> Action<'static>
    ensures { MakesEdits (map edit_of edits.items) result }
{
    Action::Perform(Command::Batch { edits })
}
