// Orders on a state, and on records and bases.
use crate::commands::{command_of, perform, perform_record};
use crate::store_faults::store_fault;
use crate::texts::{lengthened, measured};
use conf_record::{Format, base_text, read_base, read_record, record_text};
use conf_state::{Room, State, good_name};
use probe_words::{bytes_of, no_order, shown, wrong_escape};
use std::alloc::{AllocError, Global};
use yaml_emit::style_text;

/// The answer to an order.
pub(crate) fn answer(alloc: Global, state: &mut State, order: &str) -> Result<String, AllocError> {
    let words: Vec<&str> = order.split(';').collect(alloc)?;
    match words.as_slice() {
        ["record", number, command @ ..] => record_of(alloc, number, command),
        ["unfit", command @ ..] => perform(alloc, state, command, Room::Missing),
        [call] => answer_to_none(alloc, state, call),
        [call, text] => answer_to_one(alloc, state, call, text),
        command => perform(alloc, state, command, Room::Enough),
    }
}

/// The answer to an order of one word.
fn answer_to_none(alloc: Global, state: &mut State, call: &str) -> Result<String, AllocError> {
    match call {
        "new" => renew(alloc, state),
        "show" => configs_of(alloc, state),
        "length" => shown(alloc, &state.base_length()),
        "base" => base_of(alloc, state, Format::Second),
        "third" => base_of(alloc, state, Format::Third),
        _ => no_order(alloc),
    }
}

/// The answer to an order with one part.
fn answer_to_one(
    alloc: Global,
    state: &mut State,
    call: &str,
    text: &str,
) -> Result<String, AllocError> {
    match call {
        "name" => shown(alloc, &good_name(text)),
        "perform" => perform_record(alloc, state, text),
        "read" => text_read(alloc, text),
        "read_bytes" => bytes_read(alloc, text),
        "open" => open(alloc, state, text),
        "fault" => store_fault(alloc, text),
        _ => no_order(alloc),
    }
}

/// Takes an empty state in place of the one that is held.
fn renew(alloc: Global, state: &mut State) -> Result<String, AllocError> {
    *state = State::new(alloc);
    String::from_str(alloc, "new")
}

/// The length of the base text in a format, and the base text.
fn base_of(alloc: Global, state: &State, format: Format) -> Result<String, AllocError> {
    let text = base_text(alloc, state, format)?;
    measured(alloc, &text)
}

/// The record of a command.
fn record_of(alloc: Global, number: &str, words: &[&str]) -> Result<String, AllocError> {
    let Ok(number) = number.parse::<u64>() else {
        return String::from_str(alloc, "no number");
    };
    match command_of(alloc, words) {
        Ok(Some(command)) => measured(alloc, &record_text(alloc, &command, number)?),
        Ok(None) => String::from_str(alloc, "no command"),
        Err(fault) => format!(in alloc; "{fault:?}"),
    }
}

/// The record or the base that bytes are read as, written again: a base in the format of the bytes.
fn reading_of(alloc: Global, bytes: &[u8]) -> Result<String, AllocError> {
    if let Some((command, number)) = read_record(alloc, bytes)? {
        return measured(alloc, &record_text(alloc, &command, number)?);
    }
    match read_base(alloc, bytes)? {
        Some(state) => measured(alloc, &base_text(alloc, &state, Format::of(bytes))?),
        None => String::from_str(alloc, "neither"),
    }
}

/// The same of a text.
fn text_read(alloc: Global, written: &str) -> Result<String, AllocError> {
    let text = lengthened(alloc, written)?;
    reading_of(alloc, text.as_bytes())
}

/// The same of bytes with escapes and runs.
fn bytes_read(alloc: Global, written: &str) -> Result<String, AllocError> {
    match bytes_of(alloc, written)? {
        Some(bytes) => reading_of(alloc, &bytes),
        None => wrong_escape(alloc),
    }
}

/// Takes the state of a base in place of the one that is held.
fn open(alloc: Global, state: &mut State, text: &str) -> Result<String, AllocError> {
    let text = lengthened(alloc, text)?;
    match read_base(alloc, text.as_bytes())? {
        Some(read) => {
            *state = read;
            format!(in alloc; "{}", state.count())
        }
        None => String::from_str(alloc, "no base"),
    }
}

/// The count, and each configuration in the one style.
fn configs_of(alloc: Global, state: &State) -> Result<String, AllocError> {
    let mut shown = format!(in alloc; "{}", state.count())?;
    for name in state.names() {
        if let Some(config) = state.get(name) {
            let text = style_text(alloc, config)?;
            shown = format!(in alloc; "{shown} {name} {text:?}")?;
        }
    }
    Ok(shown)
}
