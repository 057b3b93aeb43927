// The words of the program that only read a store, and the one that makes a store of what a damaged one still says.
ghost use Rattle.std.specs.Prelude.{◌≡◌};
ghost use Rattle.conf_tools.specs.Endings.{EndsSurvey, ending_after_diff, ending_after_log, ending_after_presence, ending_after_reading};
ghost use Rattle.conf_tools.specs.ReadingStatuses.{status_of_history, status_of_reading};
ghost use Rattle.conf_store.specs.Holes.{is_several};
ghost use Rattle.conf_tools.specs.Exports.{disk_back};
ghost use Rattle.conf_tools.specs.StoreWords.{OpensFile, OpensNew, Reads, Salvages, SavesInFolder, Says, WritesFindings};
ghost use Rattle.conf_tools.specs.declared.outcome.Ending.TheVariants.{Of};

use crate::diffs::{DiffRequest, Sameness, write_diff};
use crate::outcome::Outcome;
use crate::program::Status;
use crate::reading_fault::ReadingFault;
use crate::reads::{Presence, find_presence, write_names, write_values};
use crate::surveys::{Soundness, write_findings, write_survey};
use crate::world::World;
use conf_folder::FolderFault;
use conf_history::{Findings, HistoryFault, LogRequest, SalvageFault, salvage, write_log};
use conf_store::Waiting;
use conf_words::{MissingValue, NamesForm, Place, Places, ValueForm};
use std::alloc::Global;
use std::io::{Read, Write};

/// What is asked of a store's file.
#[derive(Clone, Copy)]
pub(crate) enum Question<'w> {
    /// The names of its configurations.
    Names {
        at: Option<u64>,
        form: NamesForm,
    },
    /// The values at places, or what is written where nothing is.
    Values {
        places: &'w Places<'w>,
        missing: MissingValue<'w>,
        form: ValueForm,
    },
    /// Whether something is at a place.
    Presence(Place<'w>),
    /// Its commands.
    Log {
        at: Option<u64>,
        request: LogRequest<'w>,
    },
    /// What changed between two states of it.
    Diff(DiffRequest<'w>),
    /// Whether it can be opened.
    Survey,
}

/// Answers a question on the store in a folder, beside whoever holds the store.
pub(crate) fn answer_on_folder<'w, A: World, W: Write>(
    world: &mut A,
    alloc: Global,
    folder: &'w str,
    question: Question<'_>,
    output: &mut W,
) -> Outcome<'w>
    ensures { Reads A.model A.File.remaining folder.now (Says question.entry) world.old world.new
        (W.contents output.old) (W.contents output.new) (Of result) }
{
    match open_file(world, alloc, folder) {
        Ok(mut file) => {
            let waiting = world.waiting(&file);
            answer(alloc, &mut file, waiting, folder, question, output)
        }
        Err(fault) => Outcome::Reading(fault),
    }
}

/// Answers a question on a store, of whose folder this is the file.
pub(crate) fn answer<'w, R: Read, W: Write>(
    alloc: Global,
    file: &mut R,
    waiting: Waiting,
    folder: &'w str,
    question: Question<'_>,
    output: &mut W,
) -> Outcome<'w>
    ensures { Says question.entry (is_several waiting) (R.remaining file.old) (W.contents output.old)
        (W.contents output.new) (Of result) }
{
    match question {
        Question::Names { at, form } => {
            let ended = write_names(alloc, file, waiting, at, form, output);
            outcome_of_reading(ended)
        }
        Question::Values {
            places,
            missing,
            form,
        } => {
            let ended = write_values(alloc, file, waiting, places, missing, form, output);
            outcome_of_reading(ended)
        }
        Question::Presence(place) => {
            let found = find_presence(alloc, file, waiting, place);
            outcome_of_presence(found)
        }
        Question::Log { at, request } => {
            let ended = write_log(alloc, file, waiting, at, request, output);
            outcome_of_log(ended)
        }
        Question::Diff(request) => {
            let ended = write_diff(alloc, file, waiting, request, output);
            outcome_of_diff(ended)
        }
        Question::Survey => {
            let ended = write_survey(alloc, file, waiting, output);
            outcome_of_survey(folder, ended)
        }
    }
}

/// How a look for something at a place ended.
fn outcome_of_presence(found: Result<Presence, ReadingFault>) -> Outcome<'static>
    ensures { Of result ≡ ending_after_presence found }
{
    match found {
        Ok(Presence::Present) => Outcome::Done,
        Ok(Presence::Absent) => Outcome::Absent,
        Err(fault) => Outcome::Reading(fault),
    }
}

/// How a comparison ended.
pub(crate) fn outcome_of_diff(ended: Result<Sameness, ReadingFault>) -> Outcome<'static>
    ensures { Of result ≡ ending_after_diff ended }
{
    match ended {
        Ok(Sameness::Same) => Outcome::Done,
        Ok(Sameness::Different) => Outcome::Differs,
        Err(fault) => Outcome::Reading(fault),
    }
}

/// How a log ended.
fn outcome_of_log(ended: Result<(), HistoryFault>) -> Outcome<'static>
    ensures { Of result ≡ ending_after_log ended }
{
    match ended {
        Ok(()) => Outcome::Done,
        Err(fault) => Outcome::Reading(ReadingFault::History(fault)),
    }
}

/// How a look into a store's file ended.
fn outcome_of_reading(ended: Result<(), ReadingFault>) -> Outcome<'static>
    ensures { Of result ≡ ending_after_reading ended }
{
    match ended {
        Ok(()) => Outcome::Done,
        Err(fault) => Outcome::Reading(fault),
    }
}

/// How a survey of the store in a folder ended.
fn outcome_of_survey<'w>(folder: &'w str, ended: Result<Soundness, ReadingFault>) -> Outcome<'w>
    ensures { EndsSurvey ended (Of result) }
{
    match ended {
        Ok(Soundness::Whole) => Outcome::Done,
        Ok(Soundness::Damaged) => Outcome::Damaged { folder },
        Err(fault) => Outcome::Reading(fault),
    }
}

/// Makes a store in a new folder, of what the file of the store in another one says before its first bad piece.
pub(crate) fn salvage_folder<A: World, W: Write>(
    world: &mut A,
    alloc: Global,
    folder: &str,
    new: &str,
    output: &mut W,
) -> Outcome<'static>
    ensures { Salvages A.model A.Disk.model A.File.remaining folder.now new.now world.old world.new
        (W.contents output.old) (W.contents output.new) (Of result) }
{
    match open_file(world, alloc, folder) {
        Ok(mut file) => {
            let waiting = world.waiting(&file);
            save_in_folder(world, alloc, &mut file, waiting, new, output)
        }
        Err(fault) => Outcome::Reading(fault),
    }
}

/// Makes a store in a new folder, of what a store's file says before its first bad piece.
fn save_in_folder<A: World, W: Write>(
    world: &mut A,
    alloc: Global,
    file: &mut A::File,
    waiting: Waiting,
    new: &str,
    output: &mut W,
) -> Outcome<'static>
    ensures { SavesInFolder A.model A.Disk.model new.now (is_several waiting) (A.File.remaining file.old)
        world.old world.new (W.contents output.old) (W.contents output.new)
        (Of result) }
{
    match open_new(world, alloc, file, new) {
        Ok(disk) => {
            let saved = salvage(alloc, file, waiting, disk);
            write_saved(world, alloc, saved, output)
        }
        Err(fault) => Outcome::Reading(fault),
    }
}

/// Gives the disk back, and writes what stands in the file of which a store was made, if one was. No other run waits
/// for whoever reads the output.
pub(crate) fn write_saved<A: World, W: Write>(
    world: &mut A,
    alloc: Global,
    saved: Result<(A::Disk, Findings), (A::Disk, SalvageFault)>,
    output: &mut W,
) -> Outcome<'static>
    ensures back { A.model.given_back (disk_back saved) world.old world.new }
    ensures writes { WritesFindings saved (W.contents output.old) (W.contents output.new)
        (Of result) }
{
    match saved {
        Ok((disk, findings)) => {
            world.give_back(disk);
            let ended = write_findings(alloc, &findings, output);
            outcome_of_reading(ended)
        }
        Err((disk, fault)) => {
            world.give_back(disk);
            Outcome::Reading(ReadingFault::Salvage(fault))
        }
    }
}

/// The disk of a folder that is to hold a new store, which takes after the file of another one. A missing folder is
/// made. One that has a `store.yaml` stays as it is.
pub(crate) fn open_new<A: World>(
    world: &mut A,
    alloc: Global,
    like: &A::File,
    folder: &str,
) -> Result<A::Disk, ReadingFault>
    ensures { OpensNew A.model folder.now world.old result world.new }
{
    if let Err(fault) = world.make_folder(alloc, folder) {
        return Err(ReadingFault::Folder(fault));
    }
    match world.open_store(alloc, folder) {
        Ok(None) => {}
        Ok(Some(_)) | Err(FolderFault::NotAStore) => {
            return Err(ReadingFault::Salvage(SalvageFault::StoreExists));
        }
        Err(fault) => return Err(ReadingFault::Folder(fault)),
    }
    match world.open_saved(alloc, like, folder) {
        Ok(disk) => Ok(disk),
        Err(fault) => Err(ReadingFault::Folder(fault)),
    }
}

/// Opens the file of the store in a folder to be read, beside whoever holds the store. A folder without one is no
/// store.
pub(crate) fn open_file<A: World>(
    world: &mut A,
    alloc: Global,
    folder: &str,
) -> Result<A::File, ReadingFault>
    ensures { OpensFile A.model folder.now world.old result world.new }
{
    match world.open_store(alloc, folder) {
        Ok(Some(file)) => Ok(file),
        Ok(None) => Err(ReadingFault::History(HistoryFault::NotAStore)),
        Err(fault) => Err(ReadingFault::Folder(fault)),
    }
}

/// The status of a fault of a word that reads a store.
pub(crate) fn status_of_reading(fault: ReadingFault) -> Status
    ensures { result ≡ status_of_reading fault }
{
    match fault {
        ReadingFault::Folder(FolderFault::Device | FolderFault::Locked)
        | ReadingFault::Salvage(SalvageFault::Device)
        | ReadingFault::Output => Status::Device,
        ReadingFault::History(fault) | ReadingFault::Salvage(SalvageFault::History(fault)) => {
            status_of_history(fault)
        }
        _ => Status::Refused,
    }
}

/// The status of a fault of a store's file.
fn status_of_history(fault: HistoryFault) -> Status
    ensures { result ≡ status_of_history fault }
{
    match fault {
        HistoryFault::Input | HistoryFault::Output => Status::Device,
        _ => Status::Refused,
    }
}
