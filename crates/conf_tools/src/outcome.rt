// How a run of the program ends, and what is told of it.
ghost use Rattle.std.specs.Prelude.{◌≡◌};
ghost use Rattle.conf_tools.specs.FaultLines.{reading_fault_name, store_fault_name, text_fault_name};
ghost use Rattle.conf_tools.specs.Listening.{fault_line};
ghost use Rattle.conf_tools.specs.Outcomes.{TellsDamage, TellsEnding, TellsOutcome, status_of_ending, status_of_outcome};
ghost use Rattle.conf_tools.specs.ReadingStatuses.{status_of_reading};
ghost use Rattle.conf_tools.specs.NewFiles.{new_file_fault_name, status_of_new_file};
ghost use Rattle.conf_tools.specs.Statuses.{status_of, status_of_store};

use crate::fault_names::new_file_fault_name;
use crate::listener::{Listener, tell_name};
use crate::program::{Status, status_of, status_of_store};
use crate::read_words::status_of_reading;
use crate::reading_fault::ReadingFault;
use crate::stores::StoreToolFault;
use crate::texts::ToolFault;
use conf_files::NewFileFault;
use conf_words::FolderWord;

/// How a word on a store ended. What went wrong is still to be told.
#[derive(Clone, Copy)]
pub(crate) enum Outcome<'w> {
    /// All was done.
    Done,
    /// Nothing is at the place that was looked for.
    Absent,
    /// What was compared differs.
    Differs,
    /// The store in this folder is damaged.
    Damaged { folder: &'w str },
    /// A text was refused, or could not be written, or memory ran out.
    Text(ToolFault),
    /// The store could not be opened or changed, or a session ended early.
    Store(StoreToolFault),
    /// The file of a store could not be read, or does not answer.
    Reading(ReadingFault),
    /// What an opening drops was not put into a new file.
    Keeping(NewFileFault),
}

/// How a run ended.
#[derive(Clone, Copy)]
pub(crate) enum Ending<'w> {
    /// As a word on a store does.
    Of(Outcome<'w>),
    /// With this fault of a text, which is told already.
    ToldFault(ToolFault),
    /// With this status. What is wrong with texts is told already.
    Told(Status),
}

/// Tells what went wrong, if that is still to be told, and returns the status.
pub(crate) fn tell_ending<E: Listener>(errors: &mut E, ending: Ending<'_>) -> Status
    ensures status { result ≡ status_of_ending ending.entry }
    ensures tells { TellsEnding E.hears ending.entry errors.old errors.new }
{
    match ending {
        Ending::Of(outcome) => tell_outcome(errors, outcome),
        Ending::ToldFault(fault) => status_of(fault),
        Ending::Told(status) => status,
    }
}

/// Tells why a word on a store ended early, if it did, and returns the status.
pub(crate) fn tell_outcome<E: Listener>(errors: &mut E, outcome: Outcome<'_>) -> Status
    ensures status { result ≡ status_of_outcome outcome.entry }
    ensures tells { TellsOutcome E.hears outcome.entry errors.old errors.new }
{
    match outcome {
        Outcome::Done => Status::Done,
        Outcome::Absent => Status::Absent,
        Outcome::Differs => Status::Differs,
        Outcome::Damaged { folder } => {
            tell_damage(errors, folder);
            Status::Refused
        }
        Outcome::Text(fault) => tell_text_fault(errors, fault),
        Outcome::Store(fault) => tell_store_fault(errors, fault),
        Outcome::Reading(fault) => tell_reading_fault(errors, fault),
        Outcome::Keeping(fault) => tell_new_file_fault(errors, fault),
    }
}

/// Tells the name of a fault of a text, and returns its status.
fn tell_text_fault<E: Listener>(errors: &mut E, fault: ToolFault) -> Status
    ensures status { result ≡ status_of fault }
    ensures tells { E.hears errors.old (fault_line (text_fault_name fault)) errors.new }
{
    tell_name(errors, fault.name());
    status_of(fault)
}

/// Tells the name of a fault of a store, and returns its status.
fn tell_store_fault<E: Listener>(errors: &mut E, fault: StoreToolFault) -> Status
    ensures status { result ≡ status_of_store fault }
    ensures tells { E.hears errors.old (fault_line (store_fault_name fault)) errors.new }
{
    tell_name(errors, fault.name());
    status_of_store(fault)
}

/// Tells the name of a fault of a word that reads a store, and returns its status.
fn tell_reading_fault<E: Listener>(errors: &mut E, fault: ReadingFault) -> Status
    ensures status { result ≡ status_of_reading fault }
    ensures tells { E.hears errors.old (fault_line (reading_fault_name fault)) errors.new }
{
    tell_name(errors, fault.name());
    status_of_reading(fault)
}

/// Tells the name of a fault of a new file, and returns its status.
fn tell_new_file_fault<E: Listener>(errors: &mut E, fault: NewFileFault) -> Status
    ensures status { result ≡ status_of_new_file fault }
    ensures tells { E.hears errors.old (fault_line (new_file_fault_name fault)) errors.new }
{
    tell_name(errors, new_file_fault_name(fault));
    status_of_new_file(fault)
}

/// The status of a fault of a new file.
fn status_of_new_file(fault: NewFileFault) -> Status
    ensures { result ≡ status_of_new_file fault }
{
    match fault {
        NewFileFault::Device => Status::Device,
        NewFileFault::FileExists | NewFileFault::OutOfMemory => Status::Refused,
    }
}

/// Tells that a store is damaged, and which words make a store of what it still says.
fn tell_damage<E: Listener>(errors: &mut E, folder: &str)
    ensures { TellsDamage E.hears errors.old errors.new }
{
    tell_name(errors, "Damaged");
    let _ = writeln!(
        errors,
        "confstore: to keep what comes before the damage: confstore salvage {} NEW",
        FolderWord(folder)
    );
}
