// Which commands a store's file holds.
ghost use Rattle.std.specs.Prelude.{◌≡◌, Some, OnOk, IfErr};
ghost use Rattle.conf_history.specs.Logs.{FailsToLog, LogsAll, StopsLog, fault_of_holding};
ghost use Rattle.conf_history.specs.Prelude.{is_several};

use crate::fault::HistoryFault;
use crate::line::LineForm;
use crate::logged::Logged;
use crate::output::put_bytes;
use crate::replayed::BasePart;
use crate::walk::Walk;
use conf_store::{OnRefusal, Waiting};
use std::alloc::Global;
use std::io::{Read, Write};
use yaml_recognizers::closings::one_list_of_pieces;

/// Which commands of a file are written, and how.
#[derive(Clone, Copy)]
pub struct LogRequest<'h> {
    /// How each command is written.
    pub form: LogForm<'h>,
    /// Only commands that change the configuration of this name are written; all, if there is none.
    pub name: Option<&'h str>,
    /// Only commands from this number on are written.
    pub from: u64,
}

/// How a command of a file is written.
#[derive(Clone, Copy)]
pub enum LogForm<'h> {
    /// A line for each: its number, what is shown of its about, what it does, the configuration and the place in it,
    /// and its values if asked for.
    Lines {
        /// What the line says of each edit.
        form: LineForm<'h>,
        /// The keys of an about that the line shows, in this order; [`USUAL_KEYS`](crate::USUAL_KEYS) say who made the
        /// command, when and why.
        shown: &'h [&'h str],
    },
    /// A JSON object (RFC 8259) for each, on a line of its own: its number, its about and its edits.
    Json,
    /// The records as they stand in the file.
    Records,
}

/// Writes the commands of a store's file that are asked for, in their order: of all of them, or of those up to the
/// number `at`. The file is read as by [`state_at`](crate::state_at). It does not flush.
///
/// A batch changes each configuration of which it has an edit, and it is written whole. An about makes no difference to
/// what a command changes.
///
/// Without a number, each command is written as soon as it was read and performed. With one, nothing is written before
/// the command with the number was performed: until then what is to be written is held in memory.
///
/// With [`LogForm::Lines`] a line has the number, the word `import`, `set` or `delete`, the name, and for a set or a
/// delete the pointer in double quotes, as `2 set web "/port"`. A batch is one line: its number, the word `batch`, and
/// its edits with `; ` between them, as `4 batch import web; set web "/port"`. If the command has an about, its keys
/// that are `shown` stand behind the number, in the order of `shown`, each with its text in double quotes, as
/// `3 by "ann" why "open the port" set web "/port"`. With [`LineForm::Values`] each import and each set has a space and
/// its value after it, as a JSON text (RFC 8259) without whitespace between its parts: `2 set web "/port" "81"`. With
/// [`LineForm::Hiding`] the word `hidden` stands for what is at some paths, or below them, as
/// `1 import web {"port":"80","key":hidden}`; an about is never hidden.
///
/// With [`LogForm::Json`] a line is a JSON object (RFC 8259), also without whitespace between its parts, as
/// `{"at":"3","by":"ann","about":{"by":"ann"},"edits":[{"set":"web","path":"/port","value":"81"}]}`. It has the number
/// as a string under `at`. If the command has an about, the object then has `by`, `when` and `why`, those that the
/// about has, and the whole about under `about`. Last come the `edits`, one for a command that is no batch. An edit has
/// the name under `import`, `set` or `delete`, and then an import its `tree`, a set its `path` and its `value`, and a
/// delete its `path`.
///
/// With [`LogForm::Records`] the bytes of each record are written.
///
/// # Errors
/// Without a number, the commands before the fault are written, and at `Output` a part of the last one's text. With a
/// number nothing is written, but at `Output`, where a part of the whole log is.
///
/// - `Output`: a write failed, or took nothing.
/// - `Input`, `NotAStore`, `Damaged`, `NoSuchCommand` and `OutOfMemory` as of [`state_at`](crate::state_at).
pub fn write_log<R: Read, W: Write>(
    alloc: Global,
    reader: &mut R,
    waiting: Waiting,
    at: Option<u64>,
    request: LogRequest<'_>,
    writer: &mut W,
) -> Result<(), HistoryFault>
    ensures ok { OnOk result (LogsAll (is_several waiting) at request.entry (R.remaining reader.old)
        (R.remaining reader.new) (W.contents writer.old) (W.contents writer.new)) }
    ensures refused { IfErr result (FailsToLog (is_several waiting) at request.entry (R.remaining reader.old)
        (W.contents writer.old) (W.contents writer.new)) }
{
    match at {
        Some(number) => log_up_to(alloc, reader, waiting, number, request, writer),
        None => log_each(alloc, reader, waiting, None, request, writer),
    }
}

/// Writes the commands up to the one with the number, once that one was performed.
fn log_up_to<R: Read, W: Write>(
    alloc: Global,
    reader: &mut R,
    waiting: Waiting,
    number: u64,
    request: LogRequest<'_>,
    writer: &mut W,
) -> Result<(), HistoryFault>
    ensures ok { OnOk result (LogsAll (is_several waiting) (Some number) request.entry (R.remaining reader.old)
        (R.remaining reader.new) (W.contents writer.old) (W.contents writer.new)) }
    ensures refused { IfErr result (FailsToLog (is_several waiting) (Some number) request.entry (R.remaining reader.old)
        (W.contents writer.old) (W.contents writer.new)) }
{
    let mut held = Vec::new(alloc);
    match log_each(alloc, reader, waiting, Some(number), request, &mut held) {
        Ok(()) => put_bytes(writer, &held),
        Err(fault) => Err(fault_of_holding(fault)),
    }
}

/// The fault of a log that was to be held in memory, which takes no bytes only where there is no more.
fn fault_of_holding(fault: HistoryFault) -> HistoryFault
    ensures { result ≡ fault_of_holding fault }
{
    match fault {
        HistoryFault::Output => HistoryFault::OutOfMemory,
        fault => fault,
    }
}

/// Writes each command as soon as it was read and performed: all of them, or those up to the number `at`.
///
/// # Errors
/// Those of [`write_log`]. The commands before the fault are written.
fn log_each<R: Read, W: Write>(
    alloc: Global,
    reader: &mut R,
    waiting: Waiting,
    at: Option<u64>,
    request: LogRequest<'_>,
    writer: &mut W,
) -> Result<(), HistoryFault>
    ensures ok { OnOk result (LogsAll (is_several waiting) at request.entry (R.remaining reader.old)
        (R.remaining reader.new) (W.contents writer.old) (W.contents writer.new)) }
    ensures refused { IfErr result (StopsLog (is_several waiting) at request.entry (R.remaining reader.old)
        (W.contents writer.old) (W.contents writer.new)) }
{
    one_list_of_pieces();
    let mut walk = Walk::begin(alloc, reader)?;
    let BasePart { part } = walk.take_base(alloc, at)?;
    let mut logged = Logged::new(part, request);
    'records: while walk.next(
        alloc,
        reader,
        waiting,
        at,
        &mut logged,
        OnRefusal::DropState,
    )? {
        put_bytes(writer, logged.entry(walk.pieces.piece()))?;
    }
    Ok(())
}
