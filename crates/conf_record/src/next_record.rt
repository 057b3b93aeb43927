// The record after a count: of a single edit it is read as a store writes it, with no more than the command made.
ghost use Rattle.std.specs.Prelude.{◌≡◌, ◌≢◌, ◌<◌, ◌+◌, true, false, IfOk, IfErr, IfSome, OnOk};
ghost use Rattle.conf_record.specs.Prelude.{command_of};
ghost use Rattle.conf_record.specs.Documents.{IsRecord};
ghost use Rattle.conf_record.specs.LineValues.{FollowsNumber};
ghost use Rattle.conf_record.specs.NextRecord.{IsNotNext};

use crate::laws::records_read;
use crate::read::read_record;
use crate::written::{cut_many, cut_single, made_command};
use conf_state::{Command, RECORD_LIMIT};
use itoa::Buffer;
use std::alloc::{AllocError, Global};
use std::str;
use yaml_styled::Miss;

/// Why bytes are not the record after a count.
#[derive(Clone, Copy, Debug, PartialEq, Eq)]
pub enum NoNext {
    /// They are no record, as [`read_record`](crate::read_record) says.
    NotARecord,
    /// They are a record under another number.
    OtherNumber { found: u64 },
    /// Out of memory.
    OutOfMemory,
}

impl From<AllocError> for NoNext {
    ghost use Rattle.std.specs.Prelude.{◌≡◌};
    ghost use Rattle.conf_record.specs.declared.next_record.NoNext.TheVariants.{OutOfMemory};

    ghost from_gives = { λ _ fault. fault ≡ OutOfMemory };

    fn from(_error: AllocError) -> NoNext {
        NoNext::OutOfMemory
    }
}

/// Reads the record whose number is one more than a count, in any spelling, and returns its command. It takes time
/// linear in the bytes.
///
/// # Errors
/// `NotARecord`, `OtherNumber` and `OutOfMemory`.
pub fn read_next(alloc: Global, bytes: &[u8], count: u64) -> Result<Command, NoNext>
    ensures ok { IfOk result (λ command. IsRecord bytes.now (command_of command) (count + 1)) }
    ensures room { OnOk result (count < u64.MAX) }
    ensures refused { IfErr result (IsNotNext bytes.now count) }
{
    records_read();
    let Some(lines) = lines_after(bytes, count) else {
        return spelled_next(alloc, bytes, count);
    };
    match cut_single(lines) {
        Some(texts) => Ok(made_command(alloc, texts)?),
        None => match cut_many(alloc, lines) {
            Ok(command) => Ok(command),
            Err(Miss::OtherForm) => spelled_next(alloc, bytes, count),
            Err(Miss::OutOfMemory) => Err(NoNext::OutOfMemory),
        },
    }
}

/// The same by the general reader.
fn spelled_next(alloc: Global, bytes: &[u8], count: u64) -> Result<Command, NoNext>
    ensures ok { IfOk result (λ command. IsRecord bytes.now (command_of command) (count + 1)) }
    ensures room { OnOk result (count < u64.MAX) }
    ensures refused { IfErr result (IsNotNext bytes.now count) }
{
    let Some((command, number)) = read_record(alloc, bytes)? else {
        return Err(NoNext::NotARecord);
    };
    if !is_next(count, number) {
        return Err(NoNext::OtherNumber { found: number });
    }
    Ok(command)
}

/// Whether a record's number is the next one after a count.
fn is_next(count: u64, number: u64) -> bool
    ensures next { result ≡ true → number ≡ count + 1 }
    ensures other { result ≡ false → number ≢ count + 1 }
    ensures room { result ≡ true → count < u64.MAX }
{
    count < u64::MAX && number == count + 1
}

/// The lines after the number of a record, if it is the one after a count, and stands there as a store writes it.
fn lines_after(bytes: &[u8], count: u64) -> Option<&str>
    ensures lines { IfSome result (λ lines. FollowsNumber bytes.now (count + 1) lines.now) }
    ensures room { IfSome result (λ _. count < u64.MAX) }
{
    if count == u64::MAX || bytes.len() as u64 > RECORD_LIMIT {
        return None;
    }
    let Ok(text) = str::from_utf8(bytes) else {
        return None;
    };
    let digits = text.strip_prefix("---\nat: \"")?;
    let mut buffer = Buffer::new();
    let quote = digits.strip_prefix(buffer.format(count + 1))?;
    let lines = quote.strip_prefix("\"\n")?;
    Some(lines)
}
