// Sessions on a store, over any disk, reader and writer.
ghost use Rattle.std.specs.Prelude.{◌≡◌, ◌≤◌, ◌⊎◌, ◌↔◌, true, IsErrOf};
ghost use Rattle.conf_session.specs.Handings.{handings_of};
ghost use Rattle.conf_tools.specs.Prelude.{HasFailed, store_file, store_note, streams_of};
ghost use Rattle.conf_tools.specs.Dropped.{HasNoRest, TellsDropped, TellsDroppedOf};
ghost use Rattle.conf_tools.specs.Stores.{RunsOn, SessionRuns, SurvivesCrashes, WasOpened, after_session};

use crate::dropped::open_told;
use crate::fault_names::{
    condition_fault_name, folder_fault_name, open_fault_name, session_fault_name,
};
use crate::listener::Listener;
use conf_conditions::ConditionFault;
use conf_disk::{Disk, Name};
use conf_folder::FolderFault;
use conf_session::{
    AnswerSink, Checkpoints, SessionFault, Tally, answers_acknowledge, run, run_grouped,
};
use conf_state::StoreFault;
use conf_store::{OpenFault, Store};
use std::alloc::Global;
use std::error::Error;
use std::fmt;
use std::fmt::{Display, Formatter};
use std::io::Read;

/// Why a tool on a store ended early. The message is [`StoreToolFault::name`].
#[derive(Clone, Copy, Debug, PartialEq, Eq)]
pub enum StoreToolFault {
    /// The folder can't be used. Nothing was read or written.
    Folder(FolderFault),
    /// The store can't be opened. Nothing was read or written.
    Open(OpenFault),
    /// The session ended before the end of its input.
    Session(SessionFault),
    /// The configuration can't be exported. Nothing was written.
    Export(StoreFault),
    /// A condition of a change does not hold, or can't be judged. Nothing has changed.
    Condition(ConditionFault),
    /// The store refuses a change. Each but `Device` leaves it as it was.
    Refused(StoreFault),
    /// There is a `store.yaml` where a store is to be made. Nothing was written.
    StoreExists,
}

impl StoreToolFault {
    ghost use Rattle.conf_tools.specs.FaultLines.{store_fault_name};

    /// The name of the innermost fault, by which it is told.
    pub fn name(self) -> &'static str
        ensures { result.now ≡ store_fault_name self }
    {
        match self {
            StoreToolFault::Folder(fault) => folder_fault_name(fault),
            StoreToolFault::Open(fault) => open_fault_name(fault),
            StoreToolFault::Session(fault) => session_fault_name(fault),
            StoreToolFault::Export(fault) => fault.name(),
            StoreToolFault::Condition(fault) => condition_fault_name(fault),
            StoreToolFault::Refused(fault) => fault.name(),
            StoreToolFault::StoreExists => "StoreExists",
        }
    }
}

impl Display for StoreToolFault {
    fn fmt<W: fmt::Write>(&self, f: &mut Formatter<W>) -> fmt::Result {
        f.write_str(self.name())
    }
}

impl Error for StoreToolFault {}

/// How many commands of a session share one sync.
#[derive(Clone, Copy, Debug, PartialEq, Eq)]
pub enum Grouping {
    /// Each command has its own, and is answered before anything else is read, as by [`run`](conf_session::run).
    Single,
    /// All commands that one read brought share one, as by [`run_grouped`](conf_session::run_grouped).
    Grouped(Checkpoints),
}

/// Performs the commands that `reader` gives on an open store, and hands the answers to `sink`.
///
/// # Errors
/// Those of the call for the grouping.
fn run_session<D: Disk, R: Read, S: AnswerSink<D>>(
    alloc: Global,
    store: &mut Store<D>,
    grouping: Grouping,
    reader: &mut R,
    sink: &mut S,
) -> Result<Tally, SessionFault>
    ensures runs { SessionRuns D.model (streams_of (R.remaining reader.old)
        (R.remaining reader.new) (S.taken sink.old) (S.taken sink.new))
        (handings_of (S.handings sink.old) (S.handings sink.new))
        grouping store.old store.new result }
    ensures reopen { IsErrOf result SessionFault.Reopen ↔ (store.old.reopen ≡ true) }
    ensures device { (store.new.reopen ≡ true)
        ↔ ((store.old.reopen ≡ true) ⊎ IsErrOf result SessionFault.Device) }
    ensures cause { IsErrOf result SessionFault.Device →
        HasFailed (D.model.failure_count store.old.disk) (D.model.failure_count store.new.disk) }
    ensures risen { D.model.failure_count store.old.disk ≤ D.model.failure_count store.new.disk }
{
    match grouping {
        Grouping::Single => run(alloc, store, reader, sink),
        Grouping::Grouped(checkpoints) => run_grouped(alloc, store, reader, sink, checkpoints),
    }
}

/// Opens the store on `disk`, performs the commands that `reader` gives, and hands the answers to `sink`. The
/// grouping says which call of `conf_session` does so. Returns the disk, and what was done. One line to `errors` says
/// how many bytes opening dropped, if there were any.
///
/// While the store is opened, a crash leaves a `store.yaml` that means what it might have meant before the call. From
/// then on, a crash at any moment leaves the state after a prefix of the accepted commands. Once an answer is handed to
/// the sink, that prefix has every command that was accepted up to it: the sink requires so
/// ([`AnswerSink::put`](conf_session::AnswerSink::put)), also in a session that is cut off.
///
/// # Errors
/// The disk is returned with the fault. `Open` if the store can't be opened: nothing is read or written, and, but for
/// `Device`, no file has changed. `Session` if the session ends before the end of its input.
pub fn run_store<D: Disk + Drop, R: Read, S: AnswerSink<D>, E: Listener>(
    alloc: Global,
    disk: D,
    grouping: Grouping,
    reader: &mut R,
    sink: &mut S,
    errors: &mut E,
) -> Result<(D, Tally), (D, StoreToolFault)>
    ensures runs { RunsOn D.model
        (streams_of (R.remaining reader.old) (R.remaining reader.new)
        (S.taken sink.old) (S.taken sink.new))
        grouping disk result }
    // No crash loses a command that was answered, or keeps one that was not accepted.
    ensures crashes { D.model.honest → SurvivesCrashes D.model (streams_of (R.remaining reader.old)
        (R.remaining reader.new) (S.taken sink.old) (S.taken sink.new))
        (handings_of (S.handings sink.old) (S.handings sink.new)) grouping disk result }
    ensures told { TellsDropped E.hears errors.old errors.new }
    ensures untold { WasOpened result ⊎ (errors.new ≡ errors.old) }
    // The line says how many bytes followed the last whole record of the file.
    ensures dropped { D.model.honest → WasOpened result →
        TellsDroppedOf E.hears (store_note D.model disk) (store_file D.model disk)
        errors.old errors.new }
    // Nothing is told if no bytes are dropped.
    ensures quiet { D.model.honest → HasNoRest (store_note D.model disk) (store_file D.model disk)
        → errors.new ≡ errors.old }
{
    answers_acknowledge();
    let mut store = match open_told(alloc, disk, errors) {
        Ok(store) => store,
        Err((disk, fault)) => return Err((disk, StoreToolFault::Open(fault))),
    };
    let result = run_session(alloc, &mut store, grouping, reader, sink);
    let disk = store.close();
    after_session(disk, result)
}

/// The disk that a session leaves, with how the session ended.
fn after_session<D>(
    disk: D,
    ended: Result<Tally, SessionFault>,
) -> Result<(D, Tally), (D, StoreToolFault)>
    ensures { result ≡ after_session disk ended }
{
    match ended {
        Ok(tally) => Ok((disk, tally)),
        Err(fault) => Err((disk, StoreToolFault::Session(fault))),
    }
}
