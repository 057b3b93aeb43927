// What standard error has of a text that is refused.
ghost use Rattle.std.specs.Prelude.{◌≡◌, ◌++◌, IfErr, OnOk, Some};
ghost use Rattle.conf_tools.specs.FaultLines.{text_fault_name};
ghost use Rattle.conf_tools.specs.Refused.{HasPlace, TellsCalled, TellsFault, TellsFaultOf, TellsUnnamed, blamed, fault_and_more, path_of, place_text, refusal_line};

use crate::listener::Listener;
use crate::texts::ToolFault;
use conf_files::Cause;
use conf_words::{Reporting, escaped};
use itoa::Buffer;
use std::alloc::Global;
use std::io::Write;
use yaml_refusals::{Detail, Excerpt, Place, Refusal, remedy};
use yaml_tree::{Limits, ReadFault};

/// What to do about a text that is no list of edits.
const KEYS_OF_EDITS: &str =
    "compare the keys of each edit, and their order, with `confstore help batch`";

/// What to do about a JSON text with comments.
const COMMENTED_JSON: &str = "JSON has no comments: `confstorectl import --from json5` reads them";

/// Where a text comes from, as a line on standard error names it.
#[derive(Clone, Copy)]
pub(crate) enum Origin<'f> {
    /// Standard input, where the words name no file.
    Input,
    /// A file of this name, `-` for standard input, or the word for a text that the words give.
    Named(&'f str),
}

impl<'f> Origin<'f> {
    /// What a fault of the text is told of: a failure of the output is none of the file.
    pub(crate) fn blamed(self, fault: ToolFault) -> Origin<'f>
        ensures { path_of result ≡ blamed (path_of self.entry) fault }
    {
        match fault {
            ToolFault::Output => Origin::Input,
            _ => self,
        }
    }
}

/// What is known of the refusal of a text.
#[derive(Drop)]
struct Report {
    /// Where the text is at fault, if it is known.
    place: Option<Place>,
    /// The fault by its name, and what is known of it; nothing if there was no memory for it.
    shown: Option<String>,
    /// What to do.
    remedy: &'static str,
}

/// Tells why texts are refused.
#[derive(Clone, Copy)]
pub(crate) struct Reporter {
    pub(crate) alloc: Global,
    pub(crate) reporting: Reporting,
}

impl Reporter {
    /// Tells why a text, of which these bytes were read, came to nothing, if it did.
    pub(crate) fn tell<T, E: Listener>(
        &self,
        errors: &mut E,
        origin: Origin<'_>,
        text: &[u8],
        ended: &Result<T, ToolFault>,
    )
        ensures same { OnOk ended.now (errors.new ≡ errors.old) }
        ensures told { IfErr ended.now (TellsFault E.hears errors.old) }
        ensures of { IfErr ended.now (λ fault. TellsFaultOf E.hears self.now.reporting
            (path_of origin.entry) fault errors.old errors.new) }
    {
        match ended {
            Ok(_) => {}
            Err(fault) => self.tell_fault(errors, origin, text, *fault),
        }
    }

    /// Tells a fault of a text of which these bytes were read: in one line for standard input, and else under the name
    /// of the file, with the place if there is one.
    pub(crate) fn tell_fault<E: Listener>(
        &self,
        errors: &mut E,
        origin: Origin<'_>,
        text: &[u8],
        fault: ToolFault,
    )
        ensures told { TellsFault E.hears errors.old fault }
        ensures of { TellsFaultOf E.hears self.now.reporting (path_of origin.entry) fault
            errors.old errors.new }
    {
        match origin {
            Origin::Input => self.tell_unnamed(errors, fault),
            Origin::Named(file) => self.tell_named(errors, file, text, fault),
        }
    }

    /// Tells a fault of standard input, where the words name no file.
    fn tell_unnamed<E: Listener>(&self, errors: &mut E, fault: ToolFault)
        ensures { TellsUnnamed E.hears fault errors.old errors.new }
    {
        let shown = format!(in self.alloc; "{fault}").ok();
        let more = more_of(&shown, fault.name());
        tell_line(errors, "confstore", None, fault.name(), more);
    }

    /// Tells a fault of a text of which these bytes were read, under the name of its file.
    fn tell_named<E: Listener>(&self, errors: &mut E, file: &str, text: &[u8], fault: ToolFault)
        ensures { TellsFaultOf E.hears self.now.reporting (Some file.now) fault
            errors.old errors.new }
    {
        match escaped(self.alloc, file) {
            Ok(name) => self.tell_called(errors, &name, text, fault),
            Err(_) => self.tell_called(errors, "FILE", text, fault),
        }
    }

    /// Tells a fault of a text of which these bytes were read, and which is called so.
    fn tell_called<E: Listener>(&self, errors: &mut E, name: &str, text: &[u8], fault: ToolFault)
        ensures { TellsCalled E.hears self.now.reporting name.now fault errors.old errors.new }
    {
        match fault {
            ToolFault::Read(fault) => self.tell_refusal(errors, name, text, fault),
            ToolFault::Comments(place) => self.tell_comments(errors, name, text, place),
            ToolFault::OneValue => self.tell_one_value(errors, name),
            ToolFault::NoEdits => self.tell_no_edits(errors, name),
            ToolFault::ImportText(fault) => self.tell_import_text(errors, name, fault),
            ToolFault::Input => tell_fault_line(errors, name, None, ToolFault::Input, ""),
            ToolFault::Output => tell_fault_line(errors, name, None, ToolFault::Output, ""),
            ToolFault::Unsettled => tell_fault_line(errors, name, None, ToolFault::Unsettled, ""),
        }
    }

    /// Tells that a text has comments, of which the first is at this place.
    fn tell_comments<E: Listener>(&self, errors: &mut E, name: &str, text: &[u8], place: Place)
        ensures { TellsCalled E.hears self.now.reporting name.now (ToolFault.Comments place)
            errors.old errors.new }
    {
        tell_fault_line(errors, name, Some(place), ToolFault::Comments(place), "");
        self.explain(
            errors,
            text,
            Some(place),
            "--keep-comments keeps them; --drop-comments replaces the file, and they are lost",
        );
    }

    /// Tells that a text is one value alone.
    fn tell_one_value<E: Listener>(&self, errors: &mut E, name: &str)
        ensures { TellsCalled E.hears self.now.reporting name.now ToolFault.OneValue
            errors.old errors.new }
    {
        let more = " (neither a mapping nor a list)";
        tell_fault_line(errors, name, None, ToolFault::OneValue, more);
        self.explain(
            errors,
            b"",
            None,
            "a configuration is mostly a mapping; --any-root takes one value, too",
        );
    }

    /// Tells that a text lists no edits.
    fn tell_no_edits<E: Listener>(&self, errors: &mut E, name: &str)
        ensures { TellsCalled E.hears self.now.reporting name.now ToolFault.NoEdits
            errors.old errors.new }
    {
        tell_fault_line(
            errors,
            name,
            None,
            ToolFault::NoEdits,
            " (no list of edits)",
        );
        self.explain(errors, b"", None, KEYS_OF_EDITS);
    }

    /// Tells why the text of an import in a list is refused.
    fn tell_import_text<E: Listener>(&self, errors: &mut E, name: &str, fault: ReadFault)
        ensures { TellsCalled E.hears self.now.reporting name.now (ToolFault.ImportText fault)
            errors.old errors.new }
    {
        let brief = fault.brief();
        let shown = format!(in self.alloc; "{brief} (the text of an import)").ok();
        let more = more_of(&shown, ToolFault::ImportText(fault).name());
        tell_fault_line(errors, name, None, ToolFault::ImportText(fault), more);
        self.explain(errors, b"", None, remedy(fault));
    }

    /// Tells where and why a text is refused.
    fn tell_refusal<E: Listener>(&self, errors: &mut E, name: &str, text: &[u8], fault: ReadFault)
        ensures { TellsCalled E.hears self.now.reporting name.now (ToolFault.Read fault)
            errors.old errors.new }
    {
        let report = self.report_on(text, fault);
        let more = more_of(&report.shown, ToolFault::Read(fault).name());
        let place = place_of(fault, report.place);
        tell_fault_line(errors, name, place, ToolFault::Read(fault), more);
        self.explain(errors, text, place, report.remedy);
    }

    /// What is known of the refusal of a text of which these bytes were read. Of one that is too long no more was read
    /// than shows that.
    fn report_on(&self, text: &[u8], fault: ReadFault) -> Report {
        match fault {
            ReadFault::TooLong => self.report_length(),
            _ => self.report_refusal(text, fault),
        }
    }

    /// What is known of the refusal of a text that is too long.
    fn report_length(&self) -> Report {
        let most = Limits::CONFIGURATION.bytes;
        Report {
            place: None,
            shown: format!(in self.alloc; "TooLong (more than {most} bytes)").ok(),
            remedy: remedy(ReadFault::TooLong),
        }
    }

    /// What is known of the refusal of a text that was read whole.
    fn report_refusal(&self, text: &[u8], fault: ReadFault) -> Report {
        match Refusal::of(self.alloc, text, &Limits::CONFIGURATION, fault) {
            Ok(refusal) => {
                let brief = refusal.brief();
                Report {
                    place: refusal.place,
                    shown: format!(in self.alloc; "{brief}").ok(),
                    remedy: remedy_of(&refusal, text),
                }
            }
            Err(_) => Report {
                place: None,
                shown: None,
                remedy: "",
            },
        }
    }

    /// Writes the line of a text that has a place, with a mark under it, and what to do, if there is more than the line
    /// before says. Nothing is written where reports are brief.
    fn explain<E: Write>(&self, errors: &mut E, text: &[u8], place: Option<Place>, remedy: &str)
        ensures { self.now.reporting ≡ Reporting.Brief → errors.new ≡ errors.old }
    {
        match self.reporting {
            Reporting::Brief => {}
            Reporting::Explained => write_explanation(errors, text, place, remedy),
        }
    }
}

/// Writes the line of a text that has a place, with a mark under it, and what to do, if there is more than that.
fn write_explanation<E: Write>(errors: &mut E, text: &[u8], place: Option<Place>, remedy: &str) {
    if let Some(place) = place {
        let excerpt = Excerpt::new(text, place);
        let _ = writeln!(errors, "{excerpt}");
    }
    if !remedy.is_empty() {
        let _ = writeln!(errors, "help: {remedy}");
    }
}

/// Writes why a file or a folder at a path could not be used, in one line. If there is no memory to show the path,
/// another word stands for it. A failure of the writer is ignored.
pub(crate) fn write_cause<E: Write>(
    errors: &mut E,
    alloc: Global,
    cause: Cause,
    path: &str,
    unshown: &str,
) {
    let shown = escaped(alloc, path).ok();
    let shown = shown.as_deref().unwrap_or(unshown);
    let cause = cause.shown(shown);
    let _ = writeln!(errors, "{cause}");
}

/// Tells a fault of a text in a line, with a place if it has one, and what more is known.
fn tell_fault_line<E: Listener>(
    errors: &mut E,
    text: &str,
    place: Option<Place>,
    fault: ToolFault,
    more: &str,
)
    ensures { E.hears errors.old (refusal_line text.now place (text_fault_name fault) more.now)
        errors.new }
{
    tell_line(errors, text, place, fault.name(), more);
}

/// Tells the line for a fault of a text.
fn tell_line<E: Listener>(errors: &mut E, text: &str, place: Option<Place>, name: &str, more: &str)
    ensures { E.hears errors.old (refusal_line text.now place name.now more.now) errors.new }
{
    match place {
        None => tell_unplaced(errors, text, name, more),
        Some(place) => tell_placed(errors, text, place, name, more),
    }
}

/// Tells the line for a fault that has no place.
fn tell_unplaced<E: Listener>(errors: &mut E, text: &str, name: &str, more: &str)
    ensures { E.hears errors.old (text.now ++ fault_and_more name.now more.now) errors.new }
{
    errors.tell(text);
    tell_fault_and_more(errors, name, more);
}

/// Tells the line for a fault at a place.
fn tell_placed<E: Listener>(errors: &mut E, text: &str, place: Place, name: &str, more: &str)
    ensures { E.hears errors.old
        (text.now ++ place_text place.line place.column ++ fault_and_more name.now more.now) errors.new }
{
    errors.tell(text);
    tell_place(errors, place);
    tell_fault_and_more(errors, name, more);
}

/// Tells a line and a column.
fn tell_place<E: Listener>(errors: &mut E, place: Place)
    ensures { E.hears errors.old (place_text place.line place.column) errors.new }
{
    let mut line = Buffer::new();
    let mut column = Buffer::new();
    errors.tell(":");
    errors.tell(line.format(place.line));
    errors.tell(":");
    errors.tell(column.format(place.column));
}

/// Tells the name of a fault, what more is known, and the end of the line.
fn tell_fault_and_more<E: Listener>(errors: &mut E, name: &str, more: &str)
    ensures { E.hears errors.old (fault_and_more name.now more.now) errors.new }
{
    errors.tell(": ");
    errors.tell(name);
    errors.tell(more);
    errors.tell("\n");
}

/// The place of a fault: its own, if it has one, and else the one that was found.
fn place_of(fault: ReadFault, found: Option<Place>) -> Option<Place>
    ensures { HasPlace fault result }
{
    match fault {
        ReadFault::Syntax { line, column, .. } => Some(Place { line, column }),
        _ => found,
    }
}

/// What is shown behind the name of a fault; nothing if there was no memory for it.
fn more_of<'s>(shown: &'s Option<String>, name: &str) -> &'s str {
    match shown {
        Some(shown) => shown.strip_prefix(name).unwrap_or(""),
        None => "",
    }
}

/// What to do about the refusal of a text, if it doesn't say so itself.
fn remedy_of(refusal: &Refusal, text: &[u8]) -> &'static str {
    if is_commented_json(text) {
        return COMMENTED_JSON;
    }
    match &refusal.detail {
        Detail::Hint(_) => "",
        _ => remedy(refusal.fault),
    }
}

/// Whether a text looks like JSON with comments: it begins with a bracket, and in it `//` or `/*` is behind a blank.
fn is_commented_json(text: &[u8]) -> bool {
    let text = text.trim_ascii_start();
    matches!(text.first(), Some(b'{' | b'[')) && text.windows(3).any(begins_comment)
}

/// Whether three bytes are a blank and the beginning of a comment.
fn begins_comment(bytes: &[u8]) -> bool {
    matches!(bytes, [blank, b'/', b'/' | b'*'] if blank.is_ascii_whitespace())
}
