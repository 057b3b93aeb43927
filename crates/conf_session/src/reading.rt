// The texts of a command that changes configurations are read, before its conditions are judged.
ghost use Rattle.std.specs.Prelude.{◌≡◌, false};
ghost use Rattle.conf_session.specs.Prelude.{command_of, command_with, has_about, noted, tree_of};
ghost use Rattle.conf_session.specs.ReadChanges.{ReadsAsked};
ghost use Rattle.conf_session.specs.Requests.{MeansRequest};
ghost use Rattle.conf_session.specs.Said.{batch_of_parts, change_seen, noted_said, part_seen, parts_seen, single_part};

use crate::parts::{Part, read_parts};
use crate::said::Change;
use conf_about::About;
use conf_state::{Command, Edit, Edits, StoreFault};
use conf_store::import_command;
use std::alloc::Global;

/// The command that a part is by itself.
///
/// # Errors
/// The reason why the name or the text of an import is refused, or `OutOfMemory`.
pub(crate) fn read_single(alloc: Global, part: Part) -> Result<Command, StoreFault>
    ensures { ReadsAsked (MeansRequest (single_part (part_seen part))) result }
{
    match part {
        Part::Import { name, text } => import_command(alloc, &name, text.as_bytes()),
        Part::Plain(edit) => Ok(Command::from(edit)),
    }
}

/// The batch of these parts. All texts in it are read, in order, whatever the names are.
///
/// # Errors
/// `Read` for the first text that gives no tree, or `OutOfMemory`, inside `Read` too.
pub(crate) fn read_batch(alloc: Global, parts: Vec<Part>) -> Result<Command, StoreFault>
    ensures { ReadsAsked (MeansRequest (batch_of_parts (parts_seen parts.items))) result }
{
    match read_parts(alloc, parts) {
        Ok(edits) => Ok(Command::Batch { edits }),
        Err(fault) => Err(StoreFault::Read(fault)),
    }
}

/// The command after conditions, or before an about: a part by itself, or a batch.
///
/// # Errors
/// As [`read_single`] and [`read_batch`].
pub(crate) fn read_change(alloc: Global, change: Change) -> Result<Command, StoreFault>
    ensures { ReadsAsked (MeansRequest (change_seen change)) result }
{
    match change {
        Change::Single(part) => read_single(alloc, part),
        Change::Batch(parts) => read_batch(alloc, parts),
    }
}

/// The same with its about.
///
/// # Errors
/// As [`read_change`].
pub(crate) fn read_noted(alloc: Global, change: Change, about: About) -> Result<Command, StoreFault>
    ensures { ReadsAsked (MeansRequest (noted_said (tree_of about) (change_seen change))) result }
{
    match read_change(alloc, change) {
        Ok(command) => Ok(noted(command, about)),
        Err(fault) => Err(fault),
    }
}

/// A command with an about, where it has none yet.
fn noted(command: Command, about: About) -> Command
    requires { has_about (command_of command) ≡ false }
    ensures { command_of result ≡ noted (command_of command) (tree_of about) }
{
    let edits = edits_of(command);
    Command::Noted { edits, about }
}

/// The edits of a command that has no about.
fn edits_of(command: Command) -> Edits
    requires { has_about (command_of command) ≡ false }
    ensures { command_with result ≡ command_of command }
{
    match command {
        Command::Import { name, tree } => Edits::Single(Edit::Import { name, tree }),
        Command::Set { name, path, value } => Edits::Single(Edit::Set { name, path, value }),
        Command::Delete { name, path } => Edits::Single(Edit::Delete { name, path }),
        Command::Batch { edits } => Edits::Batch(edits),
        Command::Noted { edits, .. } => edits,
    }
}
