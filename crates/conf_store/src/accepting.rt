// Performing a command on the state, and making its record, before anything is written to the disk.
ghost use Rattle.std.specs.Prelude.{◌≡◌, ◌⊎◌, ◌≤◌, max, true, IfOk, IfErr, OnErr, Err, string_bytes};
ghost use Rattle.conf_store.specs.Prelude.{store_limit, command_of, has_about};
ghost use Rattle.conf_store.specs.Accepting.{IsAccepted, IsMeasured, IsOfState, IsRenewed};
ghost use Rattle.conf_store.specs.Calls.{outcome};
ghost use Rattle.conf_store.specs.Staged.{staged_length, with_more};
ghost use Rattle.conf_store.specs.Stagings.{IsReady, staged_of};

use crate::staging::Staging;
use conf_journal::STORE_LIMIT;
use conf_record::{
    Format, base_text, documents_are_read, documents_close, record_length, record_of_length,
    short_record,
};
use conf_state::{Command, Room, State, StoreFault, step, steps_are_counted_or_refused};
use std::alloc::{AllocError, Global};

/// Performs a command on the state of a store whose file has `size` bytes, and adds its record to the new file of a
/// running checkpoint. Returns the command's record and the new count.
///
/// # Errors
/// The first refusal of the command by the state, as [`step`] returns it, and `OutOfMemory`. It is `RecordLong` if the
/// record of a batch is too long, and `JournalLong` if one of the two files would be longer than [`STORE_LIMIT`] with
/// the record. The state and the new file are unchanged.
pub fn accept(
    alloc: Global,
    state: &mut State,
    staging: &mut Staging,
    command: Command,
    size: u64,
) -> Result<(String, u64), StoreFault>
    requires size { size ≤ store_limit }
    requires staged { staged_length (staged_of state.old staging.old) ≤ store_limit }
    requires ready { IsReady state.old.configs staging.old }
    ensures ok { IfOk result (λ r.
        IsAccepted state.old (command_of command) state.new
        (max size (staged_length (staged_of state.old staging.old))) (string_bytes r.0)
        × (r.1 ≡ state.new.count)) }
    ensures staged { IfOk result (λ r. staged_of state.new staging.new
        ≡ with_more (string_bytes r.0) (staged_of state.old staging.old)) }
    ensures refused { IfErr result (λ fault.
        (fault ≡ StoreFault.OutOfMemory)
        ⊎ (outcome (max size (staged_length (staged_of state.old staging.old))) state.old
        (command_of command) ≡ Err fault)) }
    ensures of_state { IfErr result IsOfState }
    ensures unchanged { OnErr result (state.new ≡ state.old) }
    ensures unstaged { OnErr result
        (staged_of state.new staging.new ≡ staged_of state.old staging.old) }
    ensures ready { IsReady state.new.configs staging.new }
{
    documents_are_read();
    documents_close();
    steps_are_counted_or_refused();
    // At the greatest count the record is made for nothing: the command is refused.
    let number = state.count().saturating_add(1);
    let longest = size.max(staging.len());
    let (record, room) = record_within(alloc, &command, number, longest)?;
    match staging.step(alloc, state, command, room, &record) {
        Ok(()) => Ok((record, state.count())),
        Err(fault) => Err(fault),
    }
}

/// The text of a renewed file.
#[derive(Drop)]
pub struct Renewed {
    pub text: String,
    /// The length of its base in bytes.
    pub base: u64,
    /// The new count.
    pub count: u64,
}

/// Performs a command with an about on the state of a store, and returns the text of the file that is to take the place
/// of `store.yaml`: a base of the state before, in the third format, and the command's record. `longest` is the length
/// of the longer one of the store's two files.
///
/// # Errors
/// As [`accept`]. The state is unchanged.
pub fn renew(
    alloc: Global,
    state: &mut State,
    command: Command,
    longest: u64,
) -> Result<Renewed, StoreFault>
    requires about { has_about (command_of command) ≡ true }
    ensures ok { IfOk result (λ renewed. IsRenewed state.old (command_of command) state.new longest
        (string_bytes renewed.text) renewed.base × (renewed.count ≡ state.new.count)) }
    ensures refused { IfErr result (λ fault. (fault ≡ StoreFault.OutOfMemory)
        ⊎ (outcome longest state.old (command_of command) ≡ Err fault)) }
    ensures of_state { IfErr result IsOfState }
    ensures unchanged { OnErr result (state.new ≡ state.old) }
{
    documents_are_read();
    documents_close();
    steps_are_counted_or_refused();
    let number = state.count().saturating_add(1);
    let (record, room) = record_within(alloc, &command, number, longest)?;
    let mut text = base_text(alloc, state, Format::Third)?;
    let base = text.len() as u64;
    text.push_str(&record)?;
    match step(alloc, state, command, room) {
        Ok(()) => Ok(Renewed {
            text,
            base,
            count: state.count(),
        }),
        Err(fault) => Err(fault),
    }
}

/// The record of a command, and whether a file of `longest` bytes has room for it. A short one is made before its
/// length is known.
fn record_within(
    alloc: Global,
    command: &Command,
    number: u64,
    longest: u64,
) -> Result<(String, Room), AllocError>
    ensures { IfOk result (λ r.
        IsMeasured (command_of command.now) number longest (string_bytes r.0) r.1) }
{
    match short_record(alloc, command, number)? {
        Some(record) => {
            let room = Room::of(command, record.len() as u64, longest, STORE_LIMIT);
            Ok((record, room))
        }
        None => measured_record(alloc, command, number, longest),
    }
}

/// The same for a record that may be long. It is measured first; without room for it none is made, and the text is
/// empty.
fn measured_record(
    alloc: Global,
    command: &Command,
    number: u64,
    longest: u64,
) -> Result<(String, Room), AllocError>
    ensures { IfOk result (λ r.
        IsMeasured (command_of command.now) number longest (string_bytes r.0) r.1) }
{
    let bytes = record_length(command, number);
    let room = Room::of(command, bytes, longest, STORE_LIMIT);
    if !room.is_enough() {
        return Ok((String::new(alloc), room));
    }
    let record = record_of_length(alloc, command, number, bytes)?;
    Ok((record, room))
}
