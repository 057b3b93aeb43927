// What is answered to one piece, and what is done for it.
ghost use Rattle.std.specs.Prelude.{◌≡◌, IfOk, IfSome};
ghost use Rattle.conf_session.specs.Prelude.{command_of, conditions_of};
ghost use Rattle.conf_session.specs.ReadChanges.{EndsByMemory, IfMet, IsRequest};
ghost use Rattle.conf_session.specs.Requests.{Asks, MeansRequest, changing, checkpointing};
ghost use Rattle.conf_session.specs.Said.{said_of};
ghost use Rattle.conf_session.specs.Answers.{answered, condition_answered};
ghost use Rattle.conf_session.specs.Replies.{Handles, MeansPrefixes, refused_as, unmet_as};

use crate::answer::{count_answer, export_answer, get_answer, names_answer};
use crate::command_lines::edit_in_lines;
use crate::fault::SessionFault;
use crate::flow_line::edit_in_flow;
use crate::reading::{read_batch, read_change, read_noted, read_single};
use crate::said::{Said, read_said};
use crate::words::{Refusal, answered, condition_answered};
use conf_conditions::{Condition, ConditionFault, check, index_for};
use conf_disk::Disk;
use conf_state::{Command, StoreFault};
use conf_store::Store;
use std::alloc::{AllocError, Global};

/// What is answered to a piece.
#[derive(Drop)]
pub enum Reply {
    /// A command was accepted that changes the state.
    Accepted(String),
    /// A request was answered that changes no configuration.
    Done(String),
    /// The request is refused.
    Refused(Refusal),
}

/// The reply to a request that is refused.
///
/// # Errors
/// `Reopen`, `Device` and `OutOfMemory` are not answered: they end a session.
pub fn refused(fault: StoreFault) -> Result<Reply, SessionFault>
    ensures { result ≡ refused_as (answered fault) }
{
    let reason = answered(fault)?;
    Ok(Reply::Refused(reason))
}

/// Performs a command that changes the state, without a flush, unless it renews the file. The memory for its answer is
/// taken first.
fn change<D: Disk>(
    alloc: Global,
    store: &mut Store<D>,
    command: Command,
) -> Result<Reply, SessionFault>
    requires means { MeansPrefixes D.model store.old }
    ensures { Handles D.model store.old store.new
        (λ request. request ≡ changing (command_of command)) result }
{
    let next = store.count().saturating_add(1);
    let answer = count_answer(alloc, next)?;
    match store.submit(0, command) {
        Ok(_) => Ok(Reply::Accepted(answer)),
        Err(fault) => refused(fault),
    }
}

/// Makes a checkpoint. The memory for its answer is taken first.
fn checkpoint<D: Disk>(alloc: Global, store: &mut Store<D>) -> Result<Reply, SessionFault>
    requires means { MeansPrefixes D.model store.old }
    ensures { Handles D.model store.old store.new
        (λ request. request ≡ checkpointing) result }
{
    let answer = count_answer(alloc, store.count())?;
    match store.checkpoint() {
        Ok(()) => Ok(Reply::Done(answer)),
        Err(StoreFault::Device) => Err(SessionFault::Device),
        Err(StoreFault::Reopen) => Err(SessionFault::Reopen),
        Err(_) => Err(SessionFault::OutOfMemory),
    }
}

/// Performs a command whose texts are read, or answers why there is none.
fn change_read<D: Disk>(
    alloc: Global,
    store: &mut Store<D>,
    read: Result<Command, StoreFault>,
) -> Result<Reply, SessionFault>
    requires means { MeansPrefixes D.model store.old }
    requires memory { EndsByMemory read }
    ensures { Handles D.model store.old store.new (IsRequest read) result }
{
    match read {
        Ok(command) => change(alloc, store, command),
        Err(fault) => refused(fault),
    }
}

/// The reply to a command one of whose conditions does not hold.
///
/// # Errors
/// `OutOfMemory` is not answered: it ends a session.
fn refused_condition(fault: ConditionFault) -> Result<Reply, SessionFault>
    ensures { result ≡ refused_as (condition_answered fault) }
{
    let reason = condition_answered(fault)?;
    Ok(Reply::Refused(reason))
}

/// The same for a command whose texts are read. Where memory ran out for them, that is told.
fn unmet(read: Result<Command, StoreFault>, fault: ConditionFault) -> Result<Reply, SessionFault>
    ensures { result ≡ unmet_as read fault }
{
    match read {
        Ok(_) => refused_condition(fault),
        Err(why) => match answered(why) {
            Ok(_) => refused_condition(fault),
            Err(end) => Err(end),
        },
    }
}

/// Performs a command whose texts are read, if its conditions hold of the state that it finds. Its texts are read
/// before, so that a command without memory changes nothing, whatever its conditions are. The store gets ready for more
/// conditions like these.
fn change_if<D: Disk>(
    alloc: Global,
    store: &mut Store<D>,
    conditions: &[Condition],
    read: Result<Command, StoreFault>,
) -> Result<Reply, SessionFault>
    requires means { MeansPrefixes D.model store.old }
    requires memory { EndsByMemory read }
    ensures { Handles D.model store.old store.new
        (IfMet (conditions_of conditions.now) (IsRequest read)) result }
{
    index_for(alloc, store, conditions);
    match check(alloc, store, conditions) {
        Ok(()) => change_read(alloc, store, read),
        Err(fault) => unmet(read, fault),
    }
}

/// Performs what a document says, and makes the answer.
fn answer_said<D: Disk>(
    alloc: Global,
    store: &mut Store<D>,
    said: Said,
) -> Result<Reply, SessionFault>
    requires means { MeansPrefixes D.model store.old }
    ensures { Handles D.model store.old store.new
        (MeansRequest (said_of said)) result }
{
    match said {
        Said::Single(part) => {
            let read = read_single(alloc, part);
            change_read(alloc, store, read)
        }
        Said::Batch(parts) => {
            let read = read_batch(alloc, parts);
            change_read(alloc, store, read)
        }
        Said::Conditional { conditions, change } => {
            let read = read_change(alloc, change);
            change_if(alloc, store, &conditions, read)
        }
        Said::Noted { change, about } => {
            let read = read_noted(alloc, change, about);
            change_read(alloc, store, read)
        }
        Said::ConditionalNoted {
            conditions,
            change,
            about,
        } => {
            let read = read_noted(alloc, change, about);
            change_if(alloc, store, &conditions, read)
        }
        Said::Checkpoint => checkpoint(alloc, store),
        Said::Get { name, path } => get_answer(alloc, store, &name, &path),
        Said::Export(name) => export_answer(alloc, store, &name),
        Said::Names => Ok(names_answer(alloc, store)?),
        Said::LargeAbout => Ok(Reply::Refused(Refusal::AboutLarge)),
        Said::Nothing => Ok(Reply::Refused(Refusal::BadCommand)),
    }
}

/// Performs what a piece asks for, and makes the answer. Nothing is flushed, unless it asks for a checkpoint or renews
/// the file.
pub fn answer_piece<D: Disk>(
    alloc: Global,
    store: &mut Store<D>,
    piece: &[u8],
) -> Result<Reply, SessionFault>
    requires means { MeansPrefixes D.model store.old }
    ensures { Handles D.model store.old store.new (Asks piece.now) result }
{
    match usual_edit(alloc, piece)? {
        Some(command) => change(alloc, store, command),
        None => answer_any(alloc, store, piece),
    }
}

/// The command of a piece that is one of the usual edits. `None` says nothing of the piece.
fn usual_edit(alloc: Global, piece: &[u8]) -> Result<Option<Command>, AllocError>
    ensures { IfOk result (λ found. IfSome found
        (λ command. Asks piece.now (changing (command_of command)))) }
{
    if piece.starts_with(b"{") {
        return edit_in_flow(alloc, piece);
    }
    edit_in_lines(alloc, piece)
}

/// The same for a piece that is none of the usual edits.
fn answer_any<D: Disk>(
    alloc: Global,
    store: &mut Store<D>,
    piece: &[u8],
) -> Result<Reply, SessionFault>
    requires means { MeansPrefixes D.model store.old }
    ensures { Handles D.model store.old store.new (Asks piece.now) result }
{
    let said = read_said(alloc, piece)?;
    answer_said(alloc, store, said)
}
