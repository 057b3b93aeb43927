// Commands on a state, from their words or from a record.
use crate::texts::lengthened;
use conf_record::read_record;
use conf_state::{Command, Room, State, StoreFault, step};
use std::alloc::{AllocError, Global};
use yaml_tree::{Config, Limits, read_one};

/// The configuration that a text gives.
fn value_of(alloc: Global, text: &str) -> Result<Config, StoreFault> {
    let text = lengthened(alloc, text)?;
    read_one(alloc, text.as_bytes(), &Limits::KEPT).map_err(StoreFault::Read)
}

/// The command that words give; `None` if they give none.
pub(crate) fn command_of(alloc: Global, words: &[&str]) -> Result<Option<Command>, StoreFault> {
    Ok(match words {
        ["import", name, tree] => Some(Command::Import {
            name: String::from_str(alloc, name)?,
            tree: value_of(alloc, tree)?,
        }),
        ["set", name, path, value] => Some(Command::Set {
            name: String::from_str(alloc, name)?,
            path: String::from_str(alloc, path)?,
            value: value_of(alloc, value)?,
        }),
        ["delete", name, path] => Some(Command::Delete {
            name: String::from_str(alloc, name)?,
            path: String::from_str(alloc, path)?,
        }),
        _ => None,
    })
}

/// Performs the command that words give.
pub(crate) fn perform(
    alloc: Global,
    state: &mut State,
    words: &[&str],
    room: Room,
) -> Result<String, AllocError> {
    match command_of(alloc, words) {
        Ok(Some(command)) => answer_to(alloc, state, command, room),
        Ok(None) => String::from_str(alloc, "no order"),
        Err(fault) => format!(in alloc; "{fault:?}"),
    }
}

/// Performs the command of a record.
pub(crate) fn perform_record(
    alloc: Global,
    state: &mut State,
    text: &str,
) -> Result<String, AllocError> {
    let text = lengthened(alloc, text)?;
    match read_record(alloc, text.as_bytes())? {
        Some((command, _)) => answer_to(alloc, state, command, Room::Enough),
        None => String::from_str(alloc, "no record"),
    }
}

/// Performs a command. The answer is the count after it, or why it is refused.
fn answer_to(
    alloc: Global,
    state: &mut State,
    command: Command,
    room: Room,
) -> Result<String, AllocError> {
    match step(alloc, state, command, room) {
        Ok(()) => format!(in alloc; "{}", state.count()),
        Err(fault) => format!(in alloc; "{fault:?}"),
    }
}
