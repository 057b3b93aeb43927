// A session in groups: all commands that one read brought are performed, flushed by one sync, and then answered.
ghost use Rattle.std.specs.Prelude.{◌≡◌, ◌+◌, ◌^◌, ◌<◌, ◌≤◌, ◌⊎◌, ◌↔◌, ◌++◌, [], true, false, None, OnOk, IsErrOf};
ghost use Rattle.std.specs.Prelude.{IsSome, length};
ghost use Rattle.conf_session.specs.Prelude.{HasFailed, AllImagesMean, HasFlushed};
ghost use Rattle.conf_session.specs.Input.{ahead, piece_or_rest};
ghost use Rattle.conf_session.specs.Replies.{CountsFailures};
ghost use Rattle.conf_session.specs.Gathering.{CanGoOn, CanTakeGroup, FlushesAll, PerformsGroup, Starts, SubmitsGroup, Tends, TendsByBeginning, TendsBySlice, unwritten_bytes};
ghost use Rattle.conf_session.specs.Groups.{RunsBy, RunsGrouped, answers_limit, checkpoints_of};
ghost use Rattle.conf_session.specs.Sinks.{SentSoFar};
ghost use Rattle.conf_session.specs.Handings.{handings_of};
ghost use Rattle.conf_session.specs.Streams.{streams_of};

use crate::fault::SessionFault;
use crate::input::Input;
use crate::pieces::submit_piece;
use crate::session::Tally;
use crate::sink::AnswerSink;
use crate::unwritten::Unwritten;
use conf_disk::Disk;
use conf_state::StoreFault;
use conf_store::Store;
use std::alloc::Global;
use std::io::Read;

/// Which checkpoints a grouped session makes.
#[derive(Clone, Copy, Debug, PartialEq, Eq)]
pub enum Checkpoints {
    /// Only those that commands ask for.
    Asked,
    /// Those that commands ask for, and one each time that `store.yaml` has grown by so many bytes since its base was
    /// written. That one is written in slices, one after each group.
    After { bytes: u64 },
}

/// Which pieces of a session are flushed together.
#[derive(Clone, Copy)]
pub(crate) enum Grouping {
    /// Each piece is a group by itself. What waits is flushed with the first one.
    Each,
    /// Those that one read brought are a group. What waits is flushed before the first one.
    Read(Checkpoints),
}

impl Grouping {
    /// Which checkpoints the session makes.
    fn checkpoints(self) -> Checkpoints
        ensures { result ≡ checkpoints_of self }
    {
        match self {
            Grouping::Each => Checkpoints::Asked,
            Grouping::Read(checkpoints) => checkpoints,
        }
    }

    /// The most bytes of answers that are kept, but for the last answer.
    fn answers_limit(self) -> usize
        ensures { result ≡ answers_limit self }
    {
        match self {
            Grouping::Each => 0,
            Grouping::Read(_) => ANSWERS_LIMIT,
        }
    }
}

/// The most bytes of a group's answers, but for the last one.
const ANSWERS_LIMIT: usize = 65_536;

/// Flushes all commands that wait. Does nothing if none does.
///
/// # Errors
/// `Device`: a crash may still take back commands that waited, and the store has to be opened again.
pub(crate) fn flush_all<D: Disk>(store: &mut Store<D>) -> Result<(), SessionFault>
    requires { store.old.reopen ≡ false }
    ensures flushes { FlushesAll D.model store.old store.new result }
    ensures failures { CountsFailures D.model store.old store.new result }
{
    match store.flush() {
        Ok(()) => Ok(()),
        Err(_) => Err(SessionFault::Device),
    }
}

/// Performs the piece in hand, and each further one that was read, until the answers are full. Nothing is flushed,
/// unless a piece asks for a checkpoint or renews the file.
///
/// # Errors
/// `OutOfMemory`: the pieces before the current one are performed, and that one changed nothing. `Device`: the pieces
/// before the current one are performed, and that one is or isn't; the store has to be opened again.
fn submit_group<D: Disk>(
    alloc: Global,
    store: &mut Store<D>,
    input: &mut Input,
    answers: &mut Unwritten,
) -> Result<(), SessionFault>
    requires can { CanTakeGroup D.model store.old input.old answers.old }
    ensures submits { SubmitsGroup D.model
        (piece_or_rest input.old ++ ahead input.old) input.new store.old store.new
        answers.old answers.new result }
    ensures small { answers.new.written + length (unwritten_bytes answers.new) < 2 ^ 64 }
    ensures goes_on { OnOk result (CanGoOn input.old input.new answers.new) }
    ensures failures { CountsFailures D.model store.old store.new result }
{
    'pieces: loop {
        submit_piece(alloc, store, input, answers)?;
        if answers.is_full() || !input.has_piece_ahead() {
            return Ok(());
        }
        input.advance_ahead()?;
    }
}

/// Performs a group, flushes it, and then hands out its answers: the piece in hand, and each further one that was read,
/// until the answers are full.
///
/// # Errors
/// `Write`: all pieces of the group are performed and flushed, and so many bytes of answers were written, with those of
/// the groups before. `OutOfMemory`: the pieces before the current one are performed, flushed and answered, and that
/// one changed nothing. `Device`: the pieces before the current one are performed, and that one is or isn't. A crash
/// may still take back all of them, nothing is written, and the store has to be opened again.
fn perform_group<D: Disk, S: AnswerSink<D>>(
    alloc: Global,
    store: &mut Store<D>,
    input: &mut Input,
    sink: &mut S,
    answers: &mut Unwritten,
) -> Result<(), SessionFault>
    requires can { CanTakeGroup D.model store.old input.old answers.old }
    requires none { unwritten_bytes answers.old ≡ [] }
    requires sent { SentSoFar D.model (S.taken sink.old) store.old }
    ensures performs { PerformsGroup D.model
        (S.taken sink.old) (S.taken sink.new) (S.handings sink.old) (S.handings sink.new)
        (piece_or_rest input.old ++ ahead input.old) input.new store.old store.new
        answers.old answers.new result }
    ensures goes_on { OnOk result (CanGoOn input.old input.new answers.new) }
    ensures failures { CountsFailures D.model store.old store.new result }
{
    let before = answers.tally.documents;
    let ended = submit_group(alloc, store, input, answers);
    if store.needs_reopen() {
        return ended;
    }
    if answers.tally.documents == before {
        return ended;
    }
    flush_all(store)?;
    answers.put(store, sink)?;
    ended
}

/// Begins a checkpoint. Does nothing if there is no memory for it.
///
/// # Errors
/// `Device`: the store has to be opened again.
fn begin_checkpoint<D: Disk>(store: &mut Store<D>) -> Result<(), SessionFault>
    requires sound { store.old.reopen ≡ false }
    requires none { store.old.staged ≡ None }
    requires flushed { D.model.honest →
        HasFlushed (D.model.folder store.old.disk) store.old.state [] store.old.state }
    requires now { D.model.honest → AllImagesMean (D.model.folder store.old.disk) store.old.state }
    ensures tends { TendsByBeginning D.model
        store.old store.new result }
    ensures failures { CountsFailures D.model store.old store.new result }
{
    let Err(fault) = store.begin_checkpoint() else {
        return Ok(());
    };
    match fault {
        StoreFault::OutOfMemory => Ok(()),
        _ => Err(SessionFault::Device),
    }
}

/// Writes the next slice of the running checkpoint.
///
/// # Errors
/// `Device`: the store has to be opened again.
fn write_slice<D: Disk>(store: &mut Store<D>) -> Result<(), SessionFault>
    requires sound { store.old.reopen ≡ false }
    requires runs { IsSome store.old.staged }
    requires flushed { D.model.honest →
        HasFlushed (D.model.folder store.old.disk) store.old.state [] store.old.state }
    requires now { D.model.honest → AllImagesMean (D.model.folder store.old.disk) store.old.state }
    ensures tends { TendsBySlice D.model
        store.old store.new result }
    ensures failures { CountsFailures D.model store.old store.new result }
{
    match store.slice() {
        Ok(_) => Ok(()),
        Err(_) => Err(SessionFault::Device),
    }
}

/// Begins a checkpoint if one is due, or writes a slice of the one that runs.
///
/// # Errors
/// `Device`: the store has to be opened again.
fn tend_checkpoint<D: Disk>(
    store: &mut Store<D>,
    checkpoints: Checkpoints,
) -> Result<(), SessionFault>
    requires sound { store.old.reopen ≡ false }
    requires flushed { D.model.honest →
        HasFlushed (D.model.folder store.old.disk) store.old.state [] store.old.state }
    requires now { D.model.honest → AllImagesMean (D.model.folder store.old.disk) store.old.state }
    ensures tends { Tends D.model checkpoints
        store.old store.new result }
    ensures failures { CountsFailures D.model store.old store.new result }
{
    let Checkpoints::After { bytes } = checkpoints else {
        return Ok(());
    };
    if store.running() {
        return write_slice(store);
    }
    if store.grown() < bytes {
        return Ok(());
    }
    begin_checkpoint(store)
}

/// Performs the commands of a stream in groups, and answers each by one document. Returns what was done.
///
/// The input is cut into pieces, and each is answered, as by [`run`](crate::run). All whole pieces that were read
/// already are one group: each is performed, then one sync flushes all of them, and only then are their answers
/// handed out. So a client that sends many commands at once pays one sync for all that one read brought, and a client
/// that waits for each answer pays as many as with `run`. A group ends early once its answers have 65,536 bytes, and
/// what is kept for the output is at most that and one answer. Nothing is read while a whole piece is at hand.
///
/// Commands that were submitted before, and wait for a flush, are flushed first.
///
/// With [`Checkpoints::After`] a checkpoint is begun after a group, once `store.yaml` has grown by so many bytes, and
/// one slice of it is written after each further group. So an answer waits for one such step at most. If there is no
/// memory for a checkpoint the session goes on, and tries again after a later group. A checkpoint that runs when the
/// session ends goes on running.
///
/// A crash at any moment leaves the state after a prefix of what waited and of the accepted commands. Once answers are
/// handed to the sink, that prefix has every command that was accepted up to them: the sink requires so
/// ([`AnswerSink::put`]), also in a session that is cut off. Once this returns, nothing waits, unless it returns
/// `Device` or `Reopen`.
///
/// # Errors
/// All pieces before the fault are performed, flushed and answered, but for `Write` and `Device`.
///
/// - `Read`: a read failed.
/// - `TooLong`: a piece, or what comes after the last closing line, has more than 16,777,216 bytes.
/// - `SessionLong`: the input has more than 1,073,741,824 bytes.
/// - `Write`: the sink took only a part of the answers. All pieces of the group are performed and flushed, also those
///   after the one whose answer was cut. Nothing more is read.
/// - `OutOfMemory`: the current piece changed nothing.
/// - `Device`: any number of pieces of the last group are performed without an answer, a crash may still take them
///   back, and the store has to be opened again.
/// - `Reopen` comes only at the start, if the store has to be opened again. Nothing is read or written.
pub fn run_grouped<D: Disk, R: Read, S: AnswerSink<D>>(
    alloc: Global,
    store: &mut Store<D>,
    reader: &mut R,
    sink: &mut S,
    checkpoints: Checkpoints,
) -> Result<Tally, SessionFault>
    ensures runs { RunsGrouped D.model
        (streams_of (R.remaining reader.old) (R.remaining reader.new) (S.taken sink.old)
        (S.taken sink.new)) (handings_of (S.handings sink.old) (S.handings sink.new))
        checkpoints store.old store.new result }
    ensures reopen { IsErrOf result SessionFault.Reopen ↔ (store.old.reopen ≡ true) }
    ensures unchanged { IsErrOf result SessionFault.Reopen → store.new ≡ store.old }
    ensures device { (store.new.reopen ≡ true)
        ↔ ((store.old.reopen ≡ true) ⊎ IsErrOf result SessionFault.Device) }
    ensures cause { IsErrOf result SessionFault.Device →
        HasFailed (D.model.failure_count store.old.disk) (D.model.failure_count store.new.disk) }
    ensures risen { D.model.failure_count store.old.disk ≤ D.model.failure_count store.new.disk }
{
    run_groups(alloc, store, reader, sink, Grouping::Read(checkpoints))
}

/// Flushes all commands that wait, where what one read brought is a group.
///
/// # Errors
/// `Device`: a crash may still take back commands that waited, and the store has to be opened again.
fn start<D: Disk>(store: &mut Store<D>, grouping: Grouping) -> Result<(), SessionFault>
    requires { store.old.reopen ≡ false }
    ensures starts { Starts D.model grouping store.old store.new result }
    ensures failures { CountsFailures D.model store.old store.new result }
{
    match grouping {
        Grouping::Each => Ok(()),
        Grouping::Read(_) => flush_all(store),
    }
}

/// Performs the commands of a stream by their groups, and answers each by one document. Returns what was done.
///
/// # Errors
/// As [`run`](crate::run) and [`run_grouped`].
pub(crate) fn run_groups<D: Disk, R: Read, S: AnswerSink<D>>(
    alloc: Global,
    store: &mut Store<D>,
    reader: &mut R,
    sink: &mut S,
    grouping: Grouping,
) -> Result<Tally, SessionFault>
    ensures runs { RunsBy D.model
        (streams_of (R.remaining reader.old) (R.remaining reader.new) (S.taken sink.old)
        (S.taken sink.new)) (handings_of (S.handings sink.old) (S.handings sink.new))
        grouping store.old store.new result }
    ensures reopen { IsErrOf result SessionFault.Reopen ↔ (store.old.reopen ≡ true) }
    ensures unchanged { IsErrOf result SessionFault.Reopen → store.new ≡ store.old }
    ensures device { (store.new.reopen ≡ true)
        ↔ ((store.old.reopen ≡ true) ⊎ IsErrOf result SessionFault.Device) }
    ensures cause { IsErrOf result SessionFault.Device →
        HasFailed (D.model.failure_count store.old.disk) (D.model.failure_count store.new.disk) }
    ensures risen { D.model.failure_count store.old.disk ≤ D.model.failure_count store.new.disk }
{
    if store.needs_reopen() {
        return Err(SessionFault::Reopen);
    }
    start(store, grouping)?;
    let mut input = Input::new(alloc)?;
    let mut answers = Unwritten::new(alloc, grouping.answers_limit());
    'groups: while input.advance(reader)? {
        perform_group(alloc, store, &mut input, sink, &mut answers)?;
        tend_checkpoint(store, grouping.checkpoints())?;
    }
    let mut tally = answers.tally;
    tally.rest = input.piece().len() as u64;
    Ok(tally)
}
