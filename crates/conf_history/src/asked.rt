// Which commands a log is asked for.
ghost use Rattle.std.specs.Prelude.{◌≡◌, map};
ghost use Rattle.conf_history.specs.Prelude.{chars, command_of, command_with, edit_of, same_text};
ghost use Rattle.conf_history.specs.Logs.{any_changes, changes, is_asked, is_of};

use crate::log::LogRequest;
use conf_state::{Command, Edit, Edits};

/// Whether a log is asked for a command with a number.
pub(crate) fn is_asked(request: LogRequest<'_>, number: u64, command: &Command) -> bool
    ensures { result ≡ is_asked request.entry number (command_of command.now) }
{
    request.from <= number && is_of(request.name, command)
}

/// Whether a command changes the configuration with a name, if one is given.
fn is_of(name: Option<&str>, command: &Command) -> bool
    ensures { result ≡ is_of name.entry (command_of command.now) }
{
    match name {
        Some(name) => changes(name, command),
        None => true,
    }
}

/// Whether a command has an edit of the configuration with a name, with an about or without.
fn changes(name: &str, command: &Command) -> bool
    ensures { result ≡ changes (chars name.now) (command_of command.now) }
{
    match command {
        Command::Import { name: other, .. } => is_same_name(name, other),
        Command::Set { name: other, .. } => is_same_name(name, other),
        Command::Delete { name: other, .. } => is_same_name(name, other),
        Command::Batch { edits } => any_changes(name, edits),
        Command::Noted { edits, .. } => edits_change(name, edits),
    }
}

/// Whether one of a command's edits is of the configuration with a name.
fn edits_change(name: &str, edits: &Edits) -> bool
    ensures { result ≡ changes (chars name.now) (command_with edits.now) }
{
    match edits {
        Edits::Single(edit) => is_same_name(name, edit.name()),
        Edits::Batch(edits) => any_changes(name, edits),
    }
}

/// Whether one of some edits is of the configuration with a name.
fn any_changes(name: &str, edits: &[Edit]) -> bool
    ensures { result ≡ any_changes (chars name.now) (map edit_of edits.now) }
{
    for edit in edits {
        if is_same_name(name, edit.name()) {
            return true;
        }
    }
    false
}

/// Whether two names are the same.
fn is_same_name(name: &str, other: &str) -> bool
    ensures { result ≡ same_text (chars name.now) (chars other.now) }
{
    other == name
}
