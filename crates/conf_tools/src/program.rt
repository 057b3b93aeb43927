// What the program does for an invocation.
ghost use Rattle.std.specs.Prelude.{◌≡◌, ◌⊎◌};
ghost use Rattle.std.specs.Process.{exit_status};
ghost use Rattle.conf_tools.specs.Endings.{ending_at_end};
ghost use Rattle.conf_tools.specs.Exports.{TellsExport, disk_back};
ghost use Rattle.conf_tools.specs.Outcomes.{EndsWriting, Leaves, RefusesWords, TellsNoMemory, TellsSession, TellsShown, TellsUnparsed, TellsUnperformed};
ghost use Rattle.conf_tools.specs.OnStores.{PerformsOnStores};
ghost use Rattle.conf_tools.specs.Performs.{Does, DoesWords, EndsProcess, RunsTo, grouping_of, noted_of, noted_of_words, output_of, output_of_words};
ghost use Rattle.conf_tools.specs.Refused.{IsReporting};
ghost use Rattle.conf_tools.specs.Statuses.{ShowsText, ShowsUnparsed, code_of, status_of, status_of_store};
ghost use Rattle.conf_tools.specs.StoreWords.{ExportsFromFolder, RunsOnFolder, WritesFound, WritesWhole};
ghost use Rattle.conf_tools.specs.Telling.{TellsOf, TellsOfRun, TellsOfWords, TellsRun};
ghost use Rattle.conf_tools.specs.Worlds.{around_noting};
ghost use Rattle.conf_tools.specs.declared.outcome.Ending.TheVariants.{Of};

use crate::backups::back_up_folder;
use crate::batch_words::batch_text;
use crate::change_words::{alter, change_in_folder, import_text, init_folder, set_at};
use crate::changes::Change;
use crate::config_files::export_all;
use crate::diff_words::diff_files;
use crate::diffs::DiffRequest;
use crate::exports::export_text;
use crate::file_words::{check_files, format_files, read_named};
use crate::keeping::{salvage_to, verify_folder};
use crate::listener::Listener;
use crate::logs::log_folder;
use crate::outcome::{Ending, Outcome, tell_ending, tell_outcome};
use crate::read_words::{Question, answer_on_folder};
use crate::reporter::{Reporter, write_cause};
use crate::rest::tell_rest;
use crate::sentences::{Sought, tell_sentence};
use crate::stores::{Grouping, StoreToolFault, run_store};
use crate::tail::{Tail, TailReader};
use crate::texts::{ToolFault, write_whole};
use crate::world::{Access, World};
use conf_folder::FolderFault;
use conf_session::{AnswerSink, Checkpoints, SessionFault, Tally};
use conf_state::StoreFault;
use conf_store::OpenFault;
use conf_words::{Invocation, Reporting, TreeForm, Unparsed};
use std::alloc::{AllocError, Global};
use std::io;
use std::io::{ErrorKind, Read, Write};
use std::process::ExitCode;

/// What the program ends with.
#[derive(Clone, Copy, Debug, PartialEq, Eq)]
pub enum Status {
    /// 0: all was done.
    Done,
    /// 1: `check` found something in a text.
    Found,
    /// 1: `exists` found nothing at a place.
    Absent,
    /// 1: `diff` found that what it compared differs.
    Differs,
    /// 1: a text or a store was refused, or memory ran out.
    Refused,
    /// 2: the words are none that the program takes.
    WrongWords,
    /// 3: reading or writing failed, or the folder is missing or locked.
    Device,
}

impl Status {
    /// The number that the program ends with.
    pub fn code(self) -> u8
        ensures { result ≡ code_of self }
    {
        match self {
            Status::Done => 0,
            Status::Found | Status::Absent | Status::Differs | Status::Refused => 1,
            Status::WrongWords => 2,
            Status::Device => 3,
        }
    }
}

/// Does what an invocation asks for, with the folders and files of `world`, and returns the status.
///
/// It is `Done` if all was done. It is `Refused` if a text or a store is refused or memory ran out, `Found` if
/// something was found in a text, `Absent` if nothing is at a place that was looked for, `Differs` if what was compared
/// differs, and `Device` if reading or writing failed, or a folder is missing or locked. A fault is written to `errors`
/// in one line; if that write fails, it is ignored. Where a text of a file is refused, the line has the place, and
/// others explain it where the invocation or the world asks for that. Commands that are refused inside a session leave
/// the status `Done`. So do bytes after the last closing line of its input; if they are not blank, one line to `errors`
/// says that they were not performed, and the likely cause. Another line there says how many bytes after the last whole
/// record of a store were dropped, if there were any.
///
/// A fault of a store is told by its name, as `confstore: NoConfig`. A line after it says what was looked for, where
/// that is a store, a configuration, a place, a command or what a condition wants; after an export it does if reports
/// explain. Where a folder or a file could not be used, a line after the fault says why, as
/// `store.yaml: No space left on device`.
///
/// Where writing to `output` fails, only the first of what it is to hold is written.
///
/// Each disk that the world hands out is given back to it before this returns, and before anything is written to
/// `output` but the answers of a session. `output` gets those by [`put`](AnswerSink::put) alone, which requires that no
/// crash takes back what they tell: also in a run that is cut off, no answer is out before its sync.
///
/// The clause `stores` is the part of `runs` on which the laws of `conf_runs` stand: what is done with the stores in
/// folders.
pub fn perform<A: World, R: Read, W: Write + AnswerSink<A::Disk>, E: Listener>(
    world: &mut A,
    alloc: Global,
    invocation: Invocation<'_>,
    input: &mut TailReader<R>,
    output: &mut W,
    errors: &mut E,
) -> Status
    ensures runs { RunsTo A.model A.Disk.model A.File.remaining E.hears invocation.entry
        (around_noting world.old (R.remaining input.old.inner)
        (output_of invocation.entry (W.contents output.old) (W.taken output.old))
        (noted_of invocation.entry (W.handings output.old)))
        (around_noting world.new (R.remaining input.new.inner)
        (output_of invocation.entry (W.contents output.new) (W.taken output.new))
        (noted_of invocation.entry (W.handings output.new)))
        errors.old errors.new result }
    ensures tells { TellsOfRun A.model A.Disk.model A.File.remaining E.hears
        invocation.entry input.new.tail
        (around_noting world.old (R.remaining input.old.inner)
        (output_of invocation.entry (W.contents output.old) (W.taken output.old))
        (noted_of invocation.entry (W.handings output.old)))
        (around_noting world.new (R.remaining input.new.inner)
        (output_of invocation.entry (W.contents output.new) (W.taken output.new))
        (noted_of invocation.entry (W.handings output.new)))
        errors.old errors.new (code_of result) }
    ensures stores { PerformsOnStores A.model A.Disk.model A.File.remaining invocation.entry
        (around_noting world.old (R.remaining input.old.inner)
        (output_of invocation.entry (W.contents output.old) (W.taken output.old))
        (noted_of invocation.entry (W.handings output.old)))
        (around_noting world.new (R.remaining input.new.inner)
        (output_of invocation.entry (W.contents output.new) (W.taken output.new))
        (noted_of invocation.entry (W.handings output.new))) result }
{
    let sought = Sought::of(&invocation, world.reporting());
    let ending = perform_word(world, alloc, invocation, input, output, errors);
    let status = tell_ending(errors, ending);
    tell_sentence(world, alloc, sought, ending, errors);
    tell_cause_at(world, alloc, status, errors);
    status
}

/// Runs the program for words: does what they ask for, as [`perform`] does, or writes help or what is wrong with them,
/// as [`show_unparsed`] does, and returns the number of the status, with which the process is to end.
pub fn run_program<A: World, R: Read, W: Write + AnswerSink<A::Disk>, E: Listener>(
    world: &mut A,
    alloc: Global,
    asked: Result<Invocation<'_>, Unparsed>,
    input: &mut TailReader<R>,
    output: &mut W,
    errors: &mut E,
) -> ExitCode
    ensures ends { EndsProcess A.model A.Disk.model A.File.remaining E.hears asked.entry
        (around_noting world.old (R.remaining input.old.inner)
        (output_of_words asked.entry (W.contents output.old) (W.taken output.old))
        (noted_of_words asked.entry (W.handings output.old)))
        (around_noting world.new (R.remaining input.new.inner)
        (output_of_words asked.entry (W.contents output.new) (W.taken output.new))
        (noted_of_words asked.entry (W.handings output.new)))
        errors.old errors.new (exit_status result) }
    ensures tells { TellsOfWords A.model A.Disk.model A.File.remaining E.hears
        asked.entry input.new.tail
        (around_noting world.old (R.remaining input.old.inner)
        (output_of_words asked.entry (W.contents output.old) (W.taken output.old))
        (noted_of_words asked.entry (W.handings output.old)))
        (around_noting world.new (R.remaining input.new.inner)
        (output_of_words asked.entry (W.contents output.new) (W.taken output.new))
        (noted_of_words asked.entry (W.handings output.new)))
        errors.old errors.new (exit_status result) }
{
    let status = do_words(world, alloc, asked, input, output, errors);
    ExitCode::from(status.code())
}

/// Does what words ask for, or writes why they ask for nothing, and returns the status.
fn do_words<A: World, R: Read, W: Write + AnswerSink<A::Disk>, E: Listener>(
    world: &mut A,
    alloc: Global,
    asked: Result<Invocation<'_>, Unparsed>,
    input: &mut TailReader<R>,
    output: &mut W,
    errors: &mut E,
) -> Status
    ensures does { DoesWords A.model A.Disk.model A.File.remaining E.hears asked.entry
        (around_noting world.old (R.remaining input.old.inner)
        (output_of_words asked.entry (W.contents output.old) (W.taken output.old))
        (noted_of_words asked.entry (W.handings output.old)))
        (around_noting world.new (R.remaining input.new.inner)
        (output_of_words asked.entry (W.contents output.new) (W.taken output.new))
        (noted_of_words asked.entry (W.handings output.new)))
        errors.old errors.new result }
    ensures tells { TellsOfWords A.model A.Disk.model A.File.remaining E.hears
        asked.entry input.new.tail
        (around_noting world.old (R.remaining input.old.inner)
        (output_of_words asked.entry (W.contents output.old) (W.taken output.old))
        (noted_of_words asked.entry (W.handings output.old)))
        (around_noting world.new (R.remaining input.new.inner)
        (output_of_words asked.entry (W.contents output.new) (W.taken output.new))
        (noted_of_words asked.entry (W.handings output.new)))
        errors.old errors.new (code_of result) }
{
    match asked {
        Ok(invocation) => perform(world, alloc, invocation, input, output, errors),
        Err(unparsed) => show_unparsed(&unparsed, output, errors),
    }
}

/// Writes why a folder could not be used, if this is the status of a device and that is known.
fn tell_cause_at<A: World, E: Write>(world: &A, alloc: Global, status: Status, errors: &mut E)
    ensures { (status ≡ Status.Device) ⊎ (errors.new ≡ errors.old) }
{
    match (status, world.cause()) {
        (Status::Device, Some((cause, folder))) => {
            write_cause(errors, alloc, cause, folder, "FOLDER");
        }
        _ => {}
    }
}

/// Does what an invocation asks for, as [`perform`] does, and returns how it ended: that is still to be told.
fn perform_word<'w, A: World, R: Read, W: Write + AnswerSink<A::Disk>, E: Listener>(
    world: &mut A,
    alloc: Global,
    invocation: Invocation<'w>,
    input: &mut TailReader<R>,
    output: &mut W,
    errors: &mut E,
) -> Ending<'w>
    ensures does { Does A.model A.Disk.model A.File.remaining invocation.entry
        (around_noting world.old (R.remaining input.old.inner)
        (output_of invocation.entry (W.contents output.old) (W.taken output.old))
        (noted_of invocation.entry (W.handings output.old)))
        (around_noting world.new (R.remaining input.new.inner)
        (output_of invocation.entry (W.contents output.new) (W.taken output.new))
        (noted_of invocation.entry (W.handings output.new))) result }
    ensures leaves { Leaves E.hears invocation.entry errors.old result errors.new }
    ensures tells { TellsOf A.model A.Disk.model A.File.remaining E.hears
        invocation.entry input.new.tail
        (around_noting world.old (R.remaining input.old.inner)
        (output_of invocation.entry (W.contents output.old) (W.taken output.old))
        (noted_of invocation.entry (W.handings output.old)))
        (around_noting world.new (R.remaining input.new.inner)
        (output_of invocation.entry (W.contents output.new) (W.taken output.new))
        (noted_of invocation.entry (W.handings output.new)))
        errors.old errors.new result }
{
    match invocation {
        Invocation::Init { folder } => Ending::Of(init_folder(world, alloc, folder, errors)),
        Invocation::Import {
            import,
            about,
            reporting,
        } => {
            let reporter = reporter_of(world, alloc, reporting);
            let read = read_named(world, alloc, import.file, input);
            import_text(world, reporter, import, about, read, errors)
        }
        Invocation::Set {
            target,
            put,
            about,
            reporting,
        } => {
            let reporter = reporter_of(world, alloc, reporting);
            set_at(world, reporter, target, put, about, input, errors)
        }
        Invocation::Alter {
            target,
            alteration,
            about,
        } => Ending::Of(alter(world, alloc, target, alteration, about, errors)),
        Invocation::Batch {
            batch,
            about,
            reporting,
        } => {
            let reporter = reporter_of(world, alloc, reporting);
            let read = read_named(world, alloc, batch.file, input);
            batch_text(world, reporter, batch, about, read, errors)
        }
        Invocation::Checkpoint { folder } => {
            let (access, change) = (Access::Changing, Change::Checkpoint);
            Ending::Of(change_in_folder(world, alloc, access, folder, &[], change, errors))
        }
        Invocation::Run { folder, grouping } => {
            let grouping = grouping_of(grouping);
            Ending::Of(run_folder(world, alloc, folder, grouping, input, output, errors))
        }
        Invocation::Export { folder, name, form } => {
            Ending::Of(export_folder(world, alloc, folder, name, form, output, errors))
        }
        Invocation::ExportAll { folder, into, form } => {
            let reporter = reporter_of(world, alloc, Reporting::Brief);
            export_all(world, reporter, folder, into, form, errors)
        }
        Invocation::Names { folder, at, form } => {
            let asked = Question::Names { at, form };
            Ending::Of(answer_on_folder(world, alloc, folder, asked, output))
        }
        Invocation::Get {
            folder,
            places,
            missing,
            form,
        } => {
            let asked = Question::Values {
                places: &places,
                missing,
                form,
            };
            Ending::Of(answer_on_folder(world, alloc, folder, asked, output))
        }
        Invocation::Exists { folder, place } => {
            let asked = Question::Presence(place);
            Ending::Of(answer_on_folder(world, alloc, folder, asked, output))
        }
        Invocation::Log {
            folder,
            commands,
            form,
        } => Ending::Of(log_folder(world, alloc, folder, commands, form, output)),
        Invocation::Diff { folder, name, span } => {
            let asked = Question::Diff(DiffRequest { name, span });
            Ending::Of(answer_on_folder(world, alloc, folder, asked, output))
        }
        Invocation::DiffFiles { first, second } => {
            let reporter = reporter_of(world, alloc, Reporting::Brief);
            diff_files(world, reporter, first, second, input, output, errors)
        }
        Invocation::Verify {
            folder,
            keep_dropped,
        } => Ending::Of(verify_folder(world, alloc, folder, keep_dropped, output)),
        Invocation::Salvage {
            folder,
            new,
            keep_dropped,
        } => Ending::Of(salvage_to(world, alloc, folder, keep_dropped, new, output)),
        Invocation::Backup { folder, new } => {
            Ending::Of(back_up_folder(world, alloc, folder, new))
        }
        Invocation::Format {
            formatting,
            files,
            reporting,
        } => {
            let reporter = reporter_of(world, alloc, reporting);
            format_files(world, reporter, formatting, &files, input, output, errors)
        }
        Invocation::Check {
            style,
            files,
            reporting,
        } => {
            let reporter = reporter_of(world, alloc, reporting);
            check_files(world, reporter, style, &files, input, output, errors)
        }
    }
}

/// Who writes why texts are refused: as much as the words or the world ask for.
fn reporter_of<A: World>(world: &A, alloc: Global, asked: Reporting) -> Reporter
    ensures { IsReporting asked result.reporting }
{
    match asked {
        Reporting::Brief => Reporter {
            alloc,
            reporting: world.reporting(),
        },
        Reporting::Explained => Reporter {
            alloc,
            reporting: Reporting::Explained,
        },
    }
}

/// Performs the commands of `input` on the store in a folder. One line to `errors` says how many bytes opening dropped,
/// and one if bytes at the end of the input were not performed.
fn run_folder<A: World, R: Read, S: AnswerSink<A::Disk>, E: Listener>(
    world: &mut A,
    alloc: Global,
    folder: &str,
    grouping: Grouping,
    input: &mut TailReader<R>,
    output: &mut S,
    errors: &mut E,
) -> Outcome<'static>
    ensures runs { RunsOnFolder A.model A.Disk.model folder.now grouping
        (around_noting world.old (R.remaining input.old.inner)
        (S.taken output.old) (S.handings output.old))
        (around_noting world.new (R.remaining input.new.inner)
        (S.taken output.new) (S.handings output.new))
        (Of result) }
    ensures told { TellsSession E.hears errors.old errors.new }
    ensures tells { TellsRun A.model A.Disk.model E.hears folder.now grouping input.new.tail
        (around_noting world.old (R.remaining input.old.inner)
        (S.taken output.old) (S.handings output.old))
        (around_noting world.new (R.remaining input.new.inner)
        (S.taken output.new) (S.handings output.new))
        errors.old errors.new (Of result) }
{
    match world.open(alloc, Access::Making, folder) {
        Ok(disk) => {
            let ended = run_store(alloc, disk, grouping, input, output, errors);
            end_session(world, ended, &input.tail, errors)
        }
        Err(fault) => Outcome::Store(StoreToolFault::Folder(fault)),
    }
}

/// Gives the disk back, and tells how many bytes a session did not perform, if it came to the end of its input.
fn end_session<A: World, E: Listener>(
    world: &mut A,
    ended: Result<(A::Disk, Tally), (A::Disk, StoreToolFault)>,
    tail: &Tail,
    errors: &mut E,
) -> Outcome<'static>
    ensures back { A.model.given_back (disk_back ended) world.old world.new }
    ensures ends { Of result ≡ ending_at_end ended }
    ensures told { TellsUnperformed E.hears tail.now ended errors.old errors.new }
{
    match ended {
        Ok((disk, tally)) => {
            world.give_back(disk);
            tell_rest(errors, tail, tally.rest);
            Outcome::Done
        }
        Err((disk, fault)) => {
            world.give_back(disk);
            Outcome::Store(fault)
        }
    }
}

/// How a session groups its commands, as the words say.
fn grouping_of(asked: conf_words::Grouping) -> Grouping
    ensures { result ≡ grouping_of asked }
{
    match asked {
        conf_words::Grouping::Single => Grouping::Single,
        conf_words::Grouping::Grouped {
            checkpoint_after: Some(bytes),
        } => Grouping::Grouped(Checkpoints::After { bytes }),
        conf_words::Grouping::Grouped {
            checkpoint_after: None,
        } => Grouping::Grouped(Checkpoints::Asked),
    }
}

/// Writes the configuration under a name, from the store in a folder, in the one style. The disk is given back before
/// anything is written to `output`, so that no other run waits for whoever reads it.
fn export_folder<A: World, W: Write, E: Listener>(
    world: &mut A,
    alloc: Global,
    folder: &str,
    name: &str,
    form: TreeForm,
    output: &mut W,
    errors: &mut E,
) -> Outcome<'static>
    ensures exports { ExportsFromFolder A.model A.Disk.model form folder.now name.now world.old world.new
        (W.contents output.old) (W.contents output.new) (Of result) }
    ensures told { TellsExport E.hears errors.old errors.new }
{
    match world.open(alloc, Access::Reading, folder) {
        Ok(disk) => {
            let found = export_text(alloc, disk, name, form, errors);
            write_found(world, found, output)
        }
        Err(fault) => Outcome::Store(StoreToolFault::Folder(fault)),
    }
}

/// Gives the disk back, and writes the text that an export found, if it found one.
fn write_found<A: World, W: Write>(
    world: &mut A,
    found: Result<(A::Disk, String), (A::Disk, StoreToolFault)>,
    output: &mut W,
) -> Outcome<'static>
    ensures back { A.model.given_back (disk_back found) world.old world.new }
    ensures writes { WritesFound found (W.contents output.old) (W.contents output.new) (Of result) }
{
    match found {
        Ok((disk, text)) => {
            world.give_back(disk);
            write_text(&text, output)
        }
        Err((disk, fault)) => {
            world.give_back(disk);
            Outcome::Store(fault)
        }
    }
}

/// Writes a text whole.
fn write_text<W: Write>(text: &str, output: &mut W) -> Outcome<'static>
    ensures writes { WritesWhole text.now (W.contents output.old) (W.contents output.new) (Of result) }
    ensures ends { EndsWriting result }
{
    match write_whole(output, text.as_bytes()) {
        Ok(()) => Outcome::Done,
        Err(_) => Outcome::Text(ToolFault::Output),
    }
}

/// The status of a fault of a text.
pub(crate) fn status_of(fault: ToolFault) -> Status
    ensures { result ≡ status_of fault }
{
    match fault {
        ToolFault::Input | ToolFault::Output => Status::Device,
        ToolFault::Read(_)
        | ToolFault::Comments(_)
        | ToolFault::Unsettled
        | ToolFault::OneValue
        | ToolFault::NoEdits
        | ToolFault::ImportText(_) => Status::Refused,
    }
}

/// The status of a fault of a store.
pub(crate) fn status_of_store(fault: StoreToolFault) -> Status
    ensures { result ≡ status_of_store fault }
{
    match fault {
        StoreToolFault::Folder(FolderFault::Device | FolderFault::Locked)
        | StoreToolFault::Open(OpenFault::Device) => Status::Device,
        StoreToolFault::Session(
            SessionFault::Read
            | SessionFault::Write { .. }
            | SessionFault::Device
            | SessionFault::Reopen,
        ) => Status::Device,
        StoreToolFault::Export(StoreFault::Device | StoreFault::Reopen)
        | StoreToolFault::Refused(StoreFault::Device | StoreFault::Reopen) => Status::Device,
        _ => Status::Refused,
    }
}

/// Writes why there is no invocation, and returns the status. Help and the version are written to `writer`: 0, or 3 if
/// that fails, where only the first of them is written. Wrong words are reported on `errors`: 2. So is memory that ran
/// out: 1.
pub fn show_unparsed<W: Write, E: Listener>(
    unparsed: &Unparsed,
    writer: &mut W,
    errors: &mut E,
) -> Status
    ensures shows { ShowsUnparsed unparsed.now (W.contents writer.old) (W.contents writer.new) result }
    ensures tells { TellsUnparsed E.hears unparsed.now errors.old errors.new result }
{
    match unparsed {
        Unparsed::Shown(text) => show_text(text, writer, errors),
        Unparsed::Wrong(lines) => {
            errors.tell(lines);
            Status::WrongWords
        }
        Unparsed::OutOfMemory => refuse_memory(errors),
    }
}

/// Writes help or the version, tells if that fails, and returns the status.
fn show_text<W: Write, E: Listener>(text: &str, writer: &mut W, errors: &mut E) -> Status
    ensures shows { ShowsText text.now (W.contents writer.old) (W.contents writer.new) result }
    ensures tells { TellsShown E.hears errors.old errors.new result }
{
    tell_outcome(errors, write_text(text, writer))
}

/// Writes why the program's arguments could not be read, and returns the status. Words that are not UTF-8 are wrong
/// words; otherwise memory ran out.
pub fn refuse_words<E: Listener>(errors: &mut E, error: &io::Error) -> Status
    ensures { RefusesWords E.hears errors.old errors.new result }
{
    if error.kind() == ErrorKind::InvalidData {
        errors.tell("error: the words are not UTF-8\n");
        return Status::WrongWords;
    }
    refuse_memory(errors)
}

/// Tells that memory ran out.
fn refuse_memory<E: Listener>(errors: &mut E) -> Status
    ensures status { result ≡ Status.Refused }
    ensures tells { TellsNoMemory E.hears errors.old errors.new }
{
    let fault = ToolFault::from(AllocError);
    tell_outcome(errors, Outcome::Text(fault))
}
