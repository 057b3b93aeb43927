// What changed between two states of a store, over any reader and writer.
ghost use Rattle.std.specs.Prelude.{◌≡◌, ◌⊎◌, None, Ok, Err, IfErr, IfOk, IfSome, map, option_map};
ghost use Rattle.conf_store.specs.Holes.{is_several};
ghost use Rattle.conf_tools.specs.Diffs.{HoldsBoth, IsFirst, RefusesBoth, RefusesDiff, RefusesEdits, WritesDiff, WritesEdits, asked_edits, edits_between, name_asked};
ghost use Rattle.conf_state.specs.Commands.{edit_of};
ghost use Rattle.conf_tools.specs.Prelude.{RefusesSurvey, chars, tree_of};

use crate::input::read_up_to;
use crate::keeping::MOST_OF_STORE;
use crate::reading_fault::ReadingFault;
use crate::texts::{ToolFault, write_whole};
use conf_diff::{config_edits, edits_text, state_edits};
use conf_history::{HistoryFault, find_in_store, state_at};
use conf_state::{Edit, State, StoreFault, good_name};
use conf_store::Waiting;
use conf_words::Span;
use std::alloc::Global;
use std::io::{Read, Write};
use yaml_tree::Config;

/// Whether two states, or two configurations, are the same.
#[derive(Clone, Copy, Debug, PartialEq, Eq)]
pub enum Sameness {
    /// There are no edits between them.
    Same,
    /// Edits make the second of the first.
    Different,
}

/// What is compared of a store.
#[derive(Clone, Copy, Debug, PartialEq, Eq)]
pub struct DiffRequest<'w> {
    /// The configuration of this name alone; all if there is none.
    pub name: Option<&'w str>,
    /// After which commands it is compared.
    pub span: Span,
}

/// Two states of a store.
#[derive(Drop)]
struct Compared {
    first: State,
    second: State,
}

/// Writes the edits that make the configurations of a store after a command of those after another one, as the list
/// that the word `batch` takes. Where the request names no first command, it is the last one before the file's records;
/// where it names no second one, it is the last. Nothing is written where the two are the same. The file is read once,
/// to its end. It takes memory for its bytes, both states and the edits.
///
/// # Errors
/// - `History` if the file can't be read, or does not answer with both states, as [`state_at`] says.
/// - `Value` with `BadName` if the name may not be used, with `NoConfig` if neither state has it, or with
///   `OutOfMemory`.
/// - `Output` if the writer fails. Only the first of the edits are written, as far as the writer took them.
///
/// But for `Output`, nothing is written.
pub fn write_diff<R: Read, W: Write>(
    alloc: Global,
    reader: &mut R,
    waiting: Waiting,
    request: DiffRequest<'_>,
    writer: &mut W,
) -> Result<Sameness, ReadingFault>
    ensures ok { IfOk result (WritesDiff (is_several waiting) (R.remaining reader.old)
        (name_asked request.entry.name) request.entry.span (W.contents writer.old) (W.contents writer.new)) }
    ensures refused { IfErr result (RefusesDiff (is_several waiting) (R.remaining reader.old)
        (name_asked request.entry.name) request.entry.span (W.contents writer.old) (W.contents writer.new)) }
{
    let states = match read_states(alloc, reader, waiting, request.span) {
        Ok(states) => states,
        Err(fault) => return Err(ReadingFault::History(fault)),
    };
    let edits = match asked_edits(alloc, request.name, &states.first, &states.second) {
        Ok(edits) => edits,
        Err(fault) => return Err(ReadingFault::Value(fault)),
    };
    write_edits(alloc, &edits, writer)
}

/// Reads the two states of a store's file.
///
/// # Errors
/// Those of [`find_in_store`] and [`state_at`].
fn read_states<R: Read>(
    alloc: Global,
    reader: &mut R,
    waiting: Waiting,
    span: Span,
) -> Result<Compared, HistoryFault>
    ensures ok { IfOk result (λ states. IfSome (R.remaining reader.old) (λ bytes.
        HoldsBoth (is_several waiting) bytes span states.first states.second)) }
    ensures refused { IfErr result (λ fault. IfSome (R.remaining reader.old) (λ bytes.
        RefusesBoth (is_several waiting) bytes span fault)) }
{
    let bytes = match read_file(alloc, reader) {
        Ok(bytes) => bytes,
        Err(fault) => return Err(fault),
    };
    states_in(alloc, &bytes, waiting, span)
}

/// The two states that the bytes of a store's file hold.
///
/// # Errors
/// Those of [`find_in_store`] and [`state_at`].
fn states_in(
    alloc: Global,
    bytes: &[u8],
    waiting: Waiting,
    span: Span,
) -> Result<Compared, HistoryFault>
    ensures ok { IfOk result (λ states. HoldsBoth (is_several waiting) bytes.now span states.first states.second) }
    ensures refused { IfErr result (RefusesBoth (is_several waiting) bytes.now span) }
{
    let from = match first_number(alloc, bytes, waiting, span.from) {
        Ok(from) => from,
        Err(fault) => return Err(fault),
    };
    let mut given = bytes;
    let first = match state_at(alloc, &mut given, waiting, Some(from)) {
        Ok(state) => state,
        Err(fault) => return Err(fault),
    };
    let mut given = bytes;
    let second = match state_at(alloc, &mut given, waiting, span.to) {
        Ok(state) => state,
        Err(fault) => return Err(fault),
    };
    Ok(Compared { first, second })
}

/// The number of the first of the two states: as it is asked for, or that of the file's base.
///
/// # Errors
/// Those of [`find_in_store`].
fn first_number(
    alloc: Global,
    bytes: &[u8],
    waiting: Waiting,
    from: Option<u64>,
) -> Result<u64, HistoryFault>
    ensures ok { IfOk result (IsFirst (is_several waiting) bytes.now from) }
    ensures refused { IfErr result (RefusesSurvey bytes.now) }
{
    if let Some(number) = from {
        return Ok(number);
    }
    let mut given = bytes;
    match find_in_store(alloc, &mut given, waiting) {
        Ok(findings) => Ok(findings.base),
        Err(fault) => Err(fault),
    }
}

/// Reads a store's file to its end.
///
/// # Errors
/// `Input` if a read fails, `NotAStore` if the file has more bytes than a store may have, and `OutOfMemory`.
fn read_file<R: Read>(alloc: Global, reader: &mut R) -> Result<Vec<u8>, HistoryFault>
    ensures ok { IfOk result (λ bytes. IfSome (R.remaining reader.old) (λ given. given ≡ bytes.items)) }
    ensures refused { IfErr result (λ fault.
        IfSome (R.remaining reader.old) (λ given. RefusesSurvey given fault)) }
{
    let bytes = match read_up_to(alloc, reader, MOST_OF_STORE) {
        Ok(bytes) => bytes,
        Err(ToolFault::Input) => return Err(HistoryFault::Input),
        Err(_) => return Err(HistoryFault::OutOfMemory),
    };
    if bytes.len() == MOST_OF_STORE {
        return Err(HistoryFault::NotAStore);
    }
    Ok(bytes)
}

/// The edits between two states, of the configuration of a name alone if there is one.
///
/// # Errors
/// `BadName` if the name may not be used, `NoConfig` if neither state has it, and `OutOfMemory`.
fn asked_edits(
    alloc: Global,
    name: Option<&str>,
    first: &State,
    second: &State,
) -> Result<Vec<Edit>, StoreFault>
    ensures ok { IfOk result (λ edits. asked_edits (name_asked name.entry) first.now second.now
        ≡ Ok (map edit_of edits.items)) }
    ensures refused { IfErr result (λ fault. (fault ≡ StoreFault.OutOfMemory)
        ⊎ (asked_edits (name_asked name.entry) first.now second.now ≡ Err fault)) }
{
    match name {
        Some(name) => edits_between(alloc, name, first.get(name), second.get(name)),
        None => Ok(state_edits(alloc, first, second)?),
    }
}

/// The edits between two configurations of a name.
///
/// # Errors
/// `BadName` if the name may not be used, `NoConfig` if both are missing, and `OutOfMemory`.
fn edits_between(
    alloc: Global,
    name: &str,
    first: Option<&Config>,
    second: Option<&Config>,
) -> Result<Vec<Edit>, StoreFault>
    ensures ok { IfOk result (λ edits. edits_between (chars name.now)
        (option_map (λ c. tree_of c.now) first.entry) (option_map (λ c. tree_of c.now) second.entry)
        ≡ Ok (map edit_of edits.items)) }
    ensures refused { IfErr result (λ fault. (fault ≡ StoreFault.OutOfMemory)
        ⊎ (edits_between (chars name.now) (option_map (λ c. tree_of c.now) first.entry)
        (option_map (λ c. tree_of c.now) second.entry) ≡ Err fault)) }
{
    if !good_name(name) {
        return Err(StoreFault::BadName);
    }
    if first.is_none() && second.is_none() {
        return Err(StoreFault::NoConfig);
    }
    Ok(config_edits(alloc, name, first, second)?)
}

/// Writes edits as the list that the word `batch` takes; nothing of none.
///
/// # Errors
/// `Value` with `OutOfMemory`, and `Output` if the writer fails: then only the first of the edits are written, as far
/// as the writer took them.
pub(crate) fn write_edits<W: Write>(
    alloc: Global,
    edits: &[Edit],
    writer: &mut W,
) -> Result<Sameness, ReadingFault>
    ensures ok { IfOk result (WritesEdits (map edit_of edits.now) (W.contents writer.old) (W.contents writer.new)) }
    ensures refused { IfErr result (RefusesEdits (map edit_of edits.now)
        (W.contents writer.old) (W.contents writer.new)) }
{
    if edits.is_empty() {
        return Ok(Sameness::Same);
    }
    let Ok(text) = edits_text(alloc, edits) else {
        return Err(ReadingFault::Value(StoreFault::OutOfMemory));
    };
    match write_whole(writer, text.as_bytes()) {
        Ok(()) => Ok(Sameness::Different),
        Err(_) => Err(ReadingFault::Output),
    }
}
