// What stands in a store's file, over any reader and writer.
ghost use Rattle.std.specs.Prelude.{◌≡◌, IfOk, IfErr, OnOk};
ghost use Rattle.conf_store.specs.Holes.{is_several};
ghost use Rattle.conf_tools.specs.Prelude.{Appends};
ghost use Rattle.conf_tools.specs.Surveys.{CannotWrite, RefusesWriting, WritesSurvey, findings_text, soundness_of, soundness_of_kind};

use crate::findings::findings_text;
use crate::reading_fault::ReadingFault;
use crate::texts::write_whole;
use conf_history::{Bad, BadKind, Findings, HistoryFault, find_in_store};
use conf_store::Waiting;
use std::alloc::Global;
use std::io::{Read, Write};

/// Whether a store's file can be opened.
#[derive(Clone, Copy, Debug, PartialEq, Eq)]
pub enum Soundness {
    /// The file means a state. An opening drops what a crash may have left behind it.
    Whole,
    /// One of its pieces is not the next record, and no crash left that.
    Damaged,
}

/// Writes what an opening of a store would find in its file, as a YAML mapping in the one style, and returns whether it
/// could be opened. The file is read as by [`find_in_store`].
///
/// # Errors
/// - `History` if [`find_in_store`] fails, or memory runs out. Nothing is written.
/// - `Output` if the writer fails. Only the first of the text is written, as far as the writer took it.
pub fn write_survey<R: Read, W: Write>(
    alloc: Global,
    reader: &mut R,
    waiting: Waiting,
    writer: &mut W,
) -> Result<Soundness, ReadingFault>
    ensures ok { IfOk result (WritesSurvey (is_several waiting) (R.remaining reader.old)
        (W.contents writer.old) (W.contents writer.new)) }
    ensures refused { IfErr result (RefusesWriting (is_several waiting) (R.remaining reader.old)
        (W.contents writer.old) (W.contents writer.new)) }
{
    let findings = match find_in_store(alloc, reader, waiting) {
        Ok(findings) => findings,
        Err(fault) => return Err(ReadingFault::History(fault)),
    };
    match write_findings(alloc, &findings, writer) {
        Ok(()) => Ok(soundness_of(&findings.bad)),
        Err(fault) => Err(fault),
    }
}

/// Whether a store's file can be opened, by its first bad piece.
fn soundness_of(bad: &Option<Bad>) -> Soundness
    ensures { result ≡ soundness_of bad.now }
{
    match bad {
        None => Soundness::Whole,
        Some(bad) => soundness_of_kind(bad.kind),
    }
}

/// Whether a store's file can be opened, by the kind of its first bad piece.
fn soundness_of_kind(kind: BadKind) -> Soundness
    ensures { result ≡ soundness_of_kind kind }
{
    match kind {
        BadKind::Torn => Soundness::Whole,
        BadKind::Unexpected => Soundness::Damaged,
    }
}

/// Writes what stands in a store's file, as [`write_survey`] does.
///
/// # Errors
/// - `History` with `OutOfMemory` if memory runs out. Nothing is written.
/// - `Output` if the writer fails. Only the first of the text is written, as far as the writer took it.
pub fn write_findings<W: Write>(
    alloc: Global,
    findings: &Findings,
    writer: &mut W,
) -> Result<(), ReadingFault>
    ensures ok { OnOk result (Appends (W.contents writer.old) (W.contents writer.new)
        (findings_text findings.now)) }
    ensures refused { IfErr result (CannotWrite (findings_text findings.now)
        (W.contents writer.old) (W.contents writer.new)) }
{
    let text = match findings_text(alloc, findings) {
        Ok(text) => text,
        Err(_) => return Err(ReadingFault::History(HistoryFault::OutOfMemory)),
    };
    match write_whole(writer, &text) {
        Ok(()) => Ok(()),
        Err(_) => Err(ReadingFault::Output),
    }
}
