// What `format` and `check` do with files and standard input.
ghost use Rattle.std.specs.Prelude.{◌≡◌, Err, IfErr, IfOk, OnErr, OnOk, map};
ghost use Rattle.conf_tools.specs.Outcomes.{LeavesTold, SilentIfDone, TellsIfDone};
ghost use Rattle.conf_tools.specs.Performs.{ChecksAll, ChecksText, FormatsAll, FormatsText};
ghost use Rattle.conf_tools.specs.Statuses.{status_of, worst};
ghost use Rattle.conf_tools.specs.Endings.{StaysUnlessFault};
ghost use Rattle.conf_tools.specs.Losses.{TellsLoss, TellsWritten};
ghost use Rattle.conf_tools.specs.Refused.{TellsFault, TellsFaultOf, blamed, path_of};
ghost use Rattle.conf_tools.specs.Telling.{TellsCause, TellsCheck, TellsFirstComment, TellsFormat, TellsNote, TellsOpened, TellsReplaced, TellsReport, TellsReportOnRead, TellsReports, TellsRestyled, TellsRestyledAll};
ghost use Rattle.conf_tools.specs.TextWords.{ChecksRead, FormatsFile, FormatsRead, ReplacesAt, ReportsOnAll, ReportsOnRead, RestylesAll, SaysReport, TakesText, replaced_or_not, shown_name, ending_after_check, ending_after_format, status_after, status_of_change, status_of_count, status_of_report, stops_all, unopened};
ghost use Rattle.conf_tools.specs.Worlds.{around};

use crate::file_texts::{Restyled, check_file, list_changed, restyle};
use crate::listener::Listener;
use crate::outcome::Ending;
use crate::program::{Status, status_of};
use crate::reporter::{Origin, Reporter, write_cause};
use crate::styles::tell_left_out;
use crate::texts::{ToolFault, check_text, format_text, read_text};
use crate::world::World;
use conf_files::ReplaceFault;
use conf_words::{Comments, Formatting, STANDARD_INPUT, Style, escaped};
use std::alloc::{AllocError, Global};
use std::io::{Read, Write};
use yaml_refusals::first_comment;

/// What `format --check` and `check` write of a file.
#[derive(Clone, Copy, Debug, PartialEq, Eq)]
pub enum Report {
    /// A line for each of its findings, where its text is compared with what it is in this style.
    Findings { style: Style },
    /// Its name, if its text is another one in this style.
    Name { style: Style },
}

/// Writes the texts of files in a style, or that of `input` if there are none. The first file alone is written to
/// `output`; any number are replaced, or named where they would change. Of a file that is written without its comments
/// it is told how many it has.
pub(crate) fn format_files<A: World, R: Read, W: Write, E: Listener>(
    world: &mut A,
    reporter: Reporter,
    formatting: Formatting,
    files: &[&str],
    input: &mut R,
    output: &mut W,
    errors: &mut E,
) -> Ending<'static>
    ensures formats { FormatsAll A.model A.File.remaining formatting (map (λ file. file.now) files.now)
        (around world.old (R.remaining input.old) (W.contents output.old))
        (around world.new (R.remaining input.new) (W.contents output.new)) result }
    ensures told { LeavesTold E.hears (TellsIfDone E.hears) errors.old result errors.new }
    ensures tells { TellsFormat A.model A.File.remaining E.hears reporter.reporting formatting
        (map (λ file. file.now) files.now)
        (around world.old (R.remaining input.old) (W.contents output.old))
        (around world.new (R.remaining input.new) (W.contents output.new))
        errors.old errors.new result }
{
    match (formatting, files) {
        (Formatting::Write { style }, []) => format_input(reporter, style, input, output, errors),
        (Formatting::Write { style }, [file, ..]) => {
            format_file(world, reporter, style, file, input, output, errors)
        }
        (Formatting::InPlace { comments }, files) => {
            Ending::Told(replace_files(world, reporter, comments, files, errors))
        }
        (Formatting::Check { style }, []) => {
            let (report, files) = (Report::Name { style }, [STANDARD_INPUT]);
            Ending::Told(try_files(world, reporter, report, &files, input, output, errors))
        }
        (Formatting::Check { style }, files) => {
            let report = Report::Name { style };
            Ending::Told(try_files(world, reporter, report, files, input, output, errors))
        }
    }
}

/// Writes where the texts of files depart from a style, or that of `input` if there are none.
pub(crate) fn check_files<A: World, R: Read, W: Write, E: Listener>(
    world: &mut A,
    reporter: Reporter,
    style: Style,
    files: &[&str],
    input: &mut R,
    output: &mut W,
    errors: &mut E,
) -> Ending<'static>
    ensures checks { ChecksAll A.model A.File.remaining style (map (λ file. file.now) files.now)
        (around world.old (R.remaining input.old) (W.contents output.old))
        (around world.new (R.remaining input.new) (W.contents output.new)) result }
    ensures told { LeavesTold E.hears SilentIfDone errors.old result errors.new }
    ensures tells { TellsCheck A.model A.File.remaining E.hears reporter.reporting style
        (map (λ file. file.now) files.now)
        (around world.old (R.remaining input.old) (W.contents output.old))
        (around world.new (R.remaining input.new) (W.contents output.new))
        errors.old errors.new result }
{
    match files {
        [] => check_input(reporter, style, input, output, errors),
        files => {
            let report = Report::Findings { style };
            Ending::Told(try_files(world, reporter, report, files, input, output, errors))
        }
    }
}

/// Reads the text of a file, or of `input` for `-`.
///
/// # Errors
/// `Input` if it can't be read, and memory that runs out.
pub(crate) fn read_named<A: World, R: Read>(
    world: &mut A,
    alloc: Global,
    file: &str,
    input: &mut R,
) -> Result<Vec<u8>, ToolFault>
    ensures { TakesText A.model A.File.remaining file.now result world.old world.new
        (R.remaining input.old) (R.remaining input.new) }
{
    if file == STANDARD_INPUT {
        return read_text(alloc, input);
    }
    match world.open_file(file) {
        Some(mut opened) => read_text(alloc, &mut opened),
        None => Err(ToolFault::Input),
    }
}

/// Writes why a file could not be opened or replaced, if that is known. Of standard input it is not known.
pub(crate) fn tell_cause<A: World, E: Write>(world: &A, alloc: Global, file: &str, errors: &mut E) {
    if file == STANDARD_INPUT {
        return;
    }
    match world.file_cause() {
        Some(cause) if !cause.is_out_of_memory() => {
            write_cause(errors, alloc, cause, file, "FILE");
        }
        _ => {}
    }
}

/// Writes why a file could not be opened, if it came to nothing and that is known.
pub(crate) fn tell_cause_of<A: World, T, E: Write>(
    world: &A,
    alloc: Global,
    file: &str,
    ended: &Result<T, ToolFault>,
    errors: &mut E,
)
    ensures { OnOk ended.now (errors.new ≡ errors.old) }
{
    match ended {
        Ok(_) => {}
        Err(_) => tell_cause(world, alloc, file, errors),
    }
}

/// Writes why a file could not be opened, read or replaced, if this is the status of a device and that is known.
fn tell_cause_at<A: World, E: Write>(
    world: &A,
    alloc: Global,
    file: &str,
    status: Status,
    errors: &mut E,
)
    ensures { TellsCause status errors.old errors.new }
{
    match status {
        Status::Device => tell_cause(world, alloc, file, errors),
        _ => {}
    }
}

/// Writes why a file could not be opened, if its text came to nothing and that is known.
fn tell_cause_after<A: World, E: Write>(
    world: &A,
    alloc: Global,
    file: &str,
    ending: Ending<'_>,
    errors: &mut E,
)
    ensures { StaysUnlessFault ending.entry errors.old errors.new }
{
    match ending {
        Ending::ToldFault(_) => tell_cause(world, alloc, file, errors),
        _ => {}
    }
}

/// Writes the text of `input` in a style.
fn format_input<R: Read, W: Write, E: Listener>(
    reporter: Reporter,
    style: Style,
    input: &mut R,
    output: &mut W,
    errors: &mut E,
) -> Ending<'static>
    ensures formats { FormatsText style (R.remaining input.old) (R.remaining input.new)
        (W.contents output.old) (W.contents output.new) result }
    ensures told { LeavesTold E.hears (TellsIfDone E.hears) errors.old result errors.new }
{
    let read = read_text(reporter.alloc, input);
    format_read(reporter, Origin::Input, style, read, output, errors)
}

/// Writes the text of a file, or of `input` for `-`, in a style, and tells how many comments are left out.
fn format_file<A: World, R: Read, W: Write, E: Listener>(
    world: &mut A,
    reporter: Reporter,
    style: Style,
    file: &str,
    input: &mut R,
    output: &mut W,
    errors: &mut E,
) -> Ending<'static>
    ensures formats { FormatsFile A.model A.File.remaining style file.now
        (around world.old (R.remaining input.old) (W.contents output.old))
        (around world.new (R.remaining input.new) (W.contents output.new)) result }
    ensures told { LeavesTold E.hears (TellsIfDone E.hears) errors.old result errors.new }
{
    let read = read_named(world, reporter.alloc, file, input);
    let ending = format_read(reporter, Origin::Named(file), style, read, output, errors);
    tell_cause_after(world, reporter.alloc, file, ending, errors);
    ending
}

/// Writes a text that was read in a style, or why it was not read. Of a text that is named, and is written without its
/// comments, it tells how many these are.
fn format_read<W: Write, E: Listener>(
    reporter: Reporter,
    origin: Origin<'_>,
    style: Style,
    read: Result<Vec<u8>, ToolFault>,
    output: &mut W,
    errors: &mut E,
) -> Ending<'static>
    ensures formats { FormatsRead style read (W.contents output.old) (W.contents output.new) result }
    ensures told { TellsWritten E.hears origin.entry style read result errors.old errors.new }
{
    match read {
        Ok(text) => {
            let ended = format_text(reporter.alloc, &text, style, output);
            tell_written(reporter, errors, origin, &text, &ended);
            tell_loss(reporter.alloc, errors, origin, style, &text, &ended);
            ending_after_format(ended)
        }
        Err(fault) => {
            reporter.tell_fault(errors, origin, b"", fault);
            Ending::ToldFault(fault)
        }
    }
}

/// Writes why nothing was written of a text, or not all, if that is so. A failure of the output is not one of the file.
fn tell_written<T, E: Listener>(
    reporter: Reporter,
    errors: &mut E,
    origin: Origin<'_>,
    text: &[u8],
    ended: &Result<T, ToolFault>,
)
    ensures same { OnOk ended.now (errors.new ≡ errors.old) }
    ensures told { IfErr ended.now (TellsFault E.hears errors.old) }
    ensures of { IfErr ended.now (λ fault. TellsFaultOf E.hears reporter.reporting
        (blamed (path_of origin.entry) fault) fault errors.old errors.new) }
{
    match ended {
        Ok(_) => {}
        Err(fault) => reporter.tell_fault(errors, origin.blamed(*fault), text, *fault),
    }
}

/// Tells how many comments a text has that is named, if it was written without them.
fn tell_loss<E: Listener>(
    alloc: Global,
    errors: &mut E,
    origin: Origin<'_>,
    style: Style,
    text: &[u8],
    ended: &Result<(), ToolFault>,
)
    ensures { OnOk ended.now (TellsLoss E.hears origin.entry style text.now errors.old errors.new) }
{
    match ended {
        Ok(()) => tell_loss_of(alloc, errors, origin, style, text),
        Err(_) => {}
    }
}

/// Tells how many comments a text has that is named, and is written without them.
fn tell_loss_of<E: Listener>(
    alloc: Global,
    errors: &mut E,
    origin: Origin<'_>,
    style: Style,
    text: &[u8],
)
    ensures { TellsLoss E.hears origin.entry style text.now errors.old errors.new }
{
    match (origin, style) {
        (Origin::Input, _) => {}
        (Origin::Named(_), Style::Bare) => tell_left_out(alloc, errors, text),
        (Origin::Named(_), Style::WithComments) => {}
    }
}

/// How the writing of one text in a style ends.
fn ending_after_format(ended: Result<(), ToolFault>) -> Ending<'static>
    ensures { result ≡ ending_after_format ended }
{
    match ended {
        Ok(()) => Ending::Told(Status::Done),
        Err(fault) => Ending::ToldFault(fault),
    }
}

/// The status of what was done with a text.
fn status_after(ended: Result<(), ToolFault>) -> Status
    ensures { result ≡ status_after ended }
{
    match ended {
        Ok(()) => Status::Done,
        Err(fault) => status_of(fault),
    }
}

/// Writes where the text of `input` departs from a style.
fn check_input<R: Read, W: Write, E: Listener>(
    reporter: Reporter,
    style: Style,
    input: &mut R,
    output: &mut W,
    errors: &mut E,
) -> Ending<'static>
    ensures checks { ChecksText style (R.remaining input.old) (R.remaining input.new)
        (W.contents output.old) (W.contents output.new) result }
    ensures told { LeavesTold E.hears SilentIfDone errors.old result errors.new }
{
    let read = read_text(reporter.alloc, input);
    check_read(reporter, style, read, output, errors)
}

/// Writes where a text that was read of standard input departs from a style, or why it was not read.
fn check_read<W: Write, E: Listener>(
    reporter: Reporter,
    style: Style,
    read: Result<Vec<u8>, ToolFault>,
    output: &mut W,
    errors: &mut E,
) -> Ending<'static>
    ensures checks { ChecksRead style read (W.contents output.old) (W.contents output.new) result }
    ensures told { LeavesTold E.hears SilentIfDone errors.old result errors.new }
{
    match read {
        Ok(text) => {
            let ended = check_text(reporter.alloc, &text, style, output);
            reporter.tell(errors, Origin::Input, &text, &ended);
            ending_after_check(ended)
        }
        Err(fault) => {
            reporter.tell_fault(errors, Origin::Input, b"", fault);
            Ending::ToldFault(fault)
        }
    }
}

/// How a report on standard input ends.
fn ending_after_check(ended: Result<u64, ToolFault>) -> Ending<'static>
    ensures { result ≡ ending_after_check ended }
{
    match ended {
        Ok(count) => Ending::Told(status_of_count(count)),
        Err(fault) => Ending::ToldFault(fault),
    }
}

/// The status of a report that has so many findings.
fn status_of_count(count: u64) -> Status
    ensures { result ≡ status_of_count count }
{
    if count == 0 {
        Status::Done
    } else {
        Status::Found
    }
}

/// The status of a report on whether a text would change.
fn status_of_change(is_other: bool) -> Status
    ensures { result ≡ status_of_change is_other }
{
    if is_other {
        Status::Found
    } else {
        Status::Done
    }
}

/// Replaces each file whose text is another one in the style.
fn replace_files<A: World, E: Listener>(
    world: &mut A,
    reporter: Reporter,
    comments: Comments,
    files: &[&str],
    errors: &mut E,
) -> Status
    ensures replaces { RestylesAll A.model A.File.remaining comments (map (λ file. file.now) files.now)
        Status.Done world.old world.new result }
    ensures silent { SilentIfDone result errors.old errors.new }
    ensures tells { TellsRestyledAll A.model A.File.remaining E.hears reporter.reporting comments
        (map (λ file. file.now) files.now) Status.Done world.old world.new
        errors.old errors.new result }
{
    let mut status = Status::Done;
    for file in files {
        status = worst(
            status,
            restyle_file(world, reporter, comments, file, errors),
        );
    }
    status
}

/// Replaces a file by its text in the style, if that is another one. Writes why it is not read or replaced.
fn restyle_file<A: World, E: Listener>(
    world: &mut A,
    reporter: Reporter,
    comments: Comments,
    file: &str,
    errors: &mut E,
) -> Status
    ensures { TellsRestyled A.model A.File.remaining E.hears reporter.reporting comments file.now
        world.old world.new errors.old errors.new result }
{
    let status = restyle_opened(world, reporter, comments, file, errors);
    tell_cause_at(world, reporter.alloc, file, status, errors);
    status
}

/// Replaces a file by its text in the style, if that is another one.
fn restyle_opened<A: World, E: Listener>(
    world: &mut A,
    reporter: Reporter,
    comments: Comments,
    file: &str,
    errors: &mut E,
) -> Status
    ensures { TellsOpened A.model A.File.remaining E.hears reporter.reporting comments file.now
        world.old world.new errors.old errors.new result }
{
    match world.open_to_replace(reporter.alloc, file) {
        Ok((mut opened, place)) => {
            let read = read_text(reporter.alloc, &mut opened);
            replace_read(world, reporter, comments, file, read, place, errors)
        }
        Err(fault) => {
            let fault = unopened(fault);
            reporter.tell_fault(errors, Origin::Named(file), b"", fault);
            status_of(fault)
        }
    }
}

/// Puts a text that was read, in the style, in the place of its file, or writes why it was not read.
fn replace_read<A: World, E: Listener>(
    world: &mut A,
    reporter: Reporter,
    comments: Comments,
    file: &str,
    read: Result<Vec<u8>, ToolFault>,
    place: A::Place,
    errors: &mut E,
) -> Status
    ensures { TellsReplaced A.model E.hears reporter.reporting comments file.now place read
        world.old world.new errors.old errors.new result }
{
    match read {
        Ok(text) => {
            let restyled = restyle(reporter.alloc, &text, comments);
            let ended = replace_by(world, reporter.alloc, place, restyled);
            reporter.tell(errors, Origin::Named(file), &text, &ended);
            status_after(ended)
        }
        Err(fault) => {
            reporter.tell_fault(errors, Origin::Named(file), b"", fault);
            status_of(fault)
        }
    }
}

/// Puts a text that is another one in the style in the place of its file.
fn replace_by<A: World>(
    world: &mut A,
    alloc: Global,
    place: A::Place,
    restyled: Result<Restyled, ToolFault>,
) -> Result<(), ToolFault>
    ensures { ReplacesAt A.model place restyled world.old world.new result }
{
    match restyled {
        Ok(Restyled::Same) => Ok(()),
        Ok(Restyled::Changed(text)) => {
            replaced_or_not(world.replace(alloc, place, text.as_bytes()))
        }
        Err(fault) => Err(fault),
    }
}

/// The fault of a file that was not opened to be replaced.
fn unopened(fault: ReplaceFault) -> ToolFault
    ensures { result ≡ unopened fault }
{
    match fault {
        ReplaceFault::Device => ToolFault::Input,
        ReplaceFault::OutOfMemory => ToolFault::from(AllocError),
    }
}

/// What came of a replacement.
pub(crate) fn replaced_or_not(ended: Result<(), ReplaceFault>) -> Result<(), ToolFault>
    ensures { result ≡ replaced_or_not ended }
{
    match ended {
        Ok(()) => Ok(()),
        Err(ReplaceFault::Device) => Err(ToolFault::Output),
        Err(ReplaceFault::OutOfMemory) => Err(ToolFault::from(AllocError)),
    }
}

/// Reports on each file. Every file is tried, unless the writer fails.
fn try_files<A: World, R: Read, W: Write, E: Listener>(
    world: &mut A,
    reporter: Reporter,
    report: Report,
    files: &[&str],
    input: &mut R,
    output: &mut W,
    errors: &mut E,
) -> Status
    ensures reports { ReportsOnAll A.model A.File.remaining report (map (λ file. file.now) files.now) Status.Done
        (around world.old (R.remaining input.old) (W.contents output.old))
        (around world.new (R.remaining input.new) (W.contents output.new)) result }
    ensures silent { SilentIfDone result errors.old errors.new }
    ensures tells { TellsReports A.model A.File.remaining E.hears reporter.reporting report
        (map (λ file. file.now) files.now) Status.Done
        (around world.old (R.remaining input.old) (W.contents output.old))
        (around world.new (R.remaining input.new) (W.contents output.new))
        errors.old errors.new result }
{
    let mut status = Status::Done;
    for file in files {
        let ended = try_file(world, reporter, report, file, input, output, errors);
        if stops_all(&ended) {
            return Status::Device;
        }
        status = worst(status, status_of_report(ended));
    }
    status
}

/// Whether the writer failed, so that no other file is tried.
fn stops_all(ended: &Result<Status, ToolFault>) -> bool
    ensures { result ≡ stops_all ended.now }
{
    match ended {
        Err(ToolFault::Output) => true,
        _ => false,
    }
}

/// The status of a report on a file.
fn status_of_report(ended: Result<Status, ToolFault>) -> Status
    ensures { result ≡ status_of_report ended }
{
    match ended {
        Ok(status) => status,
        Err(fault) => status_of(fault),
    }
}

/// Reports on a file, or on `input` for `-`, or writes why there is no report.
fn try_file<A: World, R: Read, W: Write, E: Listener>(
    world: &mut A,
    reporter: Reporter,
    report: Report,
    file: &str,
    input: &mut R,
    output: &mut W,
    errors: &mut E,
) -> Result<Status, ToolFault>
    ensures { TellsReport A.model A.File.remaining E.hears reporter.reporting report file.now
        (around world.old (R.remaining input.old) (W.contents output.old))
        (around world.new (R.remaining input.new) (W.contents output.new))
        errors.old errors.new result }
{
    let read = read_named(world, reporter.alloc, file, input);
    let ended = report_on_read(reporter, report, file, read, output, errors);
    tell_cause_at(world, reporter.alloc, file, status_of_report(ended), errors);
    ended
}

/// Reports on a text that was read of a file, or writes why there is no report.
fn report_on_read<W: Write, E: Listener>(
    reporter: Reporter,
    report: Report,
    file: &str,
    read: Result<Vec<u8>, ToolFault>,
    output: &mut W,
    errors: &mut E,
) -> Result<Status, ToolFault>
    ensures reports { ReportsOnRead report (shown_name file.now) read result
        (W.contents output.old) (W.contents output.new) }
    ensures tells { TellsReportOnRead E.hears reporter.reporting report file.now read result
        errors.old errors.new }
{
    match read {
        Ok(text) => {
            let ended = report_on(reporter.alloc, report, file, &text, output);
            tell_written(reporter, errors, Origin::Named(file), &text, &ended);
            tell_comments(reporter, errors, report, file, &text, &ended);
            ended
        }
        Err(fault) => {
            reporter.tell_fault(errors, Origin::Named(file), b"", fault);
            Err(fault)
        }
    }
}

/// Writes where a text that was named has comments, if it has and they are not kept: it is not replaced without being
/// asked to.
fn tell_comments<E: Listener>(
    reporter: Reporter,
    errors: &mut E,
    report: Report,
    file: &str,
    text: &[u8],
    ended: &Result<Status, ToolFault>,
)
    ensures note { IfOk ended.now (λ status. TellsNote E.hears reporter.reporting report file.now
        text.now status errors.old errors.new) }
    ensures same { OnErr ended.now (errors.new ≡ errors.old) }
{
    match (report, ended) {
        (Report::Name { style: Style::Bare }, Ok(Status::Found)) => tell_first_comment(
            reporter, errors, file, text,
        ),
        _ => {}
    }
}

/// Writes where a text has its first comment, if it has one.
fn tell_first_comment<E: Listener>(reporter: Reporter, errors: &mut E, file: &str, text: &[u8])
    ensures { TellsFirstComment E.hears reporter.reporting file.now text.now
        errors.old errors.new }
{
    if let Ok(Some(place)) = first_comment(reporter.alloc, text) {
        let fault = ToolFault::Comments(place);
        reporter.tell_fault(errors, Origin::Named(file), text, fault);
    }
}

/// Reports on the text of a file, whose name is shown [`escaped`].
fn report_on<W: Write>(
    alloc: Global,
    report: Report,
    file: &str,
    text: &[u8],
    output: &mut W,
) -> Result<Status, ToolFault>
    ensures { SaysReport report (shown_name file.now) result text.now
        (W.contents output.old) (W.contents output.new) }
{
    let name = escaped(alloc, file)?;
    report_under(alloc, report, &name, text, output)
}

/// Reports on the text of a file, which is shown under this name.
fn report_under<W: Write>(
    alloc: Global,
    report: Report,
    name: &str,
    text: &[u8],
    output: &mut W,
) -> Result<Status, ToolFault>
    ensures { SaysReport report name.now result text.now
        (W.contents output.old) (W.contents output.new) }
{
    match report {
        Report::Findings { style } => match check_file(alloc, name, text, style, output) {
            Ok(count) => Ok(status_of_count(count)),
            Err(fault) => Err(fault),
        },
        Report::Name { style } => match list_changed(alloc, name, text, style, output) {
            Ok(is_other) => Ok(status_of_change(is_other)),
            Err(fault) => Err(fault),
        },
    }
}

/// The worse of two statuses, by their numbers.
fn worst(one: Status, other: Status) -> Status
    ensures { result ≡ worst one other }
{
    if one.code() < other.code() {
        other
    } else {
        one
    }
}
