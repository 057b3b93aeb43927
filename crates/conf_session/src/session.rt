// A session: commands in, answers out.
ghost use Rattle.std.specs.Prelude.{◌≡◌, ◌≤◌, ◌⊎◌, ◌↔◌, true, IsErrOf};
ghost use Rattle.conf_session.specs.Prelude.{HasFailed};
ghost use Rattle.conf_session.specs.Runs.{Runs};
ghost use Rattle.conf_session.specs.Handings.{handings_of};
ghost use Rattle.conf_session.specs.Streams.{streams_of};

use crate::fault::SessionFault;
use crate::groups::{Grouping, run_groups};
use crate::sink::AnswerSink;
use conf_disk::Disk;
use conf_store::Store;
use std::alloc::Global;
use std::io::Read;

/// What a session did.
#[derive(Clone, Copy, Debug, PartialEq, Eq)]
pub struct Tally {
    /// The pieces that were answered.
    pub documents: u64,
    /// The accepted commands that change the state.
    pub accepted: u64,
    /// The answers that are refusals.
    pub refused: u64,
    /// The bytes after the last closing line, which are neither performed nor answered.
    pub rest: u64,
}

/// Performs the commands of a stream, and answers each by one document. Returns what was done.
///
/// The input is cut into pieces after each closing line, a line of exactly `...` and a line feed. Each piece
/// is one command. It is performed as soon as its closing line was read, and its answer is handed to the sink
/// before anything else is read. At most 65,536 bytes are read at a time. A piece that is no command is answered
/// by `refused: BadCommand`, and one whose about is too large by `refused: AboutLarge`. Bytes after the last closing
/// line are neither performed nor answered.
///
/// A crash at any moment leaves the state after a prefix of the accepted commands. Once an answer is handed to
/// the sink, that prefix has every command that was accepted up to it: the sink requires so
/// ([`AnswerSink::put`]). The field `cut_off` of the clause says so of each moment since then, and `kept` of one that
/// returned.
/// Commands that were submitted before, and wait for a flush, come first: they are flushed with the first piece,
/// whatever it asks for.
///
/// # Errors
/// All pieces before the fault are performed and answered.
///
/// - `Read`: a read failed.
/// - `TooLong`: a piece, or what comes after the last closing line, has more than 16,777,216 bytes.
/// - `SessionLong`: the input has more than 1,073,741,824 bytes.
/// - `Write`: the sink took only a part of an answer. Its piece is performed. Nothing after it is performed or
///   read.
/// - `OutOfMemory`: the current piece changed nothing.
/// - `Device`: the current command is performed or not, and the store has to be opened again.
/// - `Reopen` comes only at the start, if the store has to be opened again. Nothing is read or handed out.
pub fn run<D: Disk, R: Read, S: AnswerSink<D>>(
    alloc: Global,
    store: &mut Store<D>,
    reader: &mut R,
    sink: &mut S,
) -> Result<Tally, SessionFault>
    ensures runs { Runs D.model
        (streams_of (R.remaining reader.old) (R.remaining reader.new) (S.taken sink.old)
        (S.taken sink.new)) (handings_of (S.handings sink.old) (S.handings sink.new))
        store.old store.new result }
    ensures reopen { IsErrOf result SessionFault.Reopen ↔ (store.old.reopen ≡ true) }
    ensures unchanged { IsErrOf result SessionFault.Reopen → store.new ≡ store.old }
    ensures device { (store.new.reopen ≡ true)
        ↔ ((store.old.reopen ≡ true) ⊎ IsErrOf result SessionFault.Device) }
    ensures cause { IsErrOf result SessionFault.Device →
        HasFailed (D.model.failure_count store.old.disk) (D.model.failure_count store.new.disk) }
    ensures risen { D.model.failure_count store.old.disk ≤ D.model.failure_count store.new.disk }
{
    run_groups(alloc, store, reader, sink, Grouping::Each)
}
