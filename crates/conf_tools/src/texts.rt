// The tools for texts, over any reader and writer.
ghost use Rattle.std.specs.Prelude.{◌≡◌, IfErr, IfOk, OnErr, OnOk};
ghost use Rattle.conf_tools.specs.Prelude.{Appends};
ghost use Rattle.conf_tools.specs.Parts.{WritesPart};
ghost use Rattle.conf_tools.specs.Styles.{IsStyled};
ghost use Rattle.conf_tools.specs.Tools.{Checks, Formats, IsReport, IsTaken, Stops};

use crate::input::read_up_to;
use crate::report::report;
use crate::styles::{findings_in, styled_text};
use conf_state::StoreFault;
use conf_words::Style;
use std::alloc::{AllocError, Global};
use std::error::Error;
use std::fmt;
use std::fmt::{Display, Formatter};
use std::io::{Read, Write};
use yaml_docs::write_or_count;
use yaml_refusals::Place;
use yaml_tree::{Limits, ReadFault};

/// The most bytes that are read: one more than a text may have, by which a text that is too long is found.
pub(crate) const MOST_INPUT: usize = Limits::CONFIGURATION.bytes as usize + 1;

/// Why a tool stopped. The message is [`ToolFault::name`], with the place and the reason of a text's syntax fault:
/// `Syntax 3:7 Flow`.
#[derive(Clone, Copy, Debug, PartialEq, Eq)]
pub enum ToolFault {
    /// The reader failed. Nothing was written.
    Input,
    /// The writer failed. The first of the text may have been written.
    Output,
    /// The text was refused, or memory ran out. Nothing was written.
    Read(ReadFault),
    /// The text has comments, of which the first is here. Nothing was written.
    Comments(Place),
    /// The text with its comments would change if it were formatted once more. Nothing was written.
    Unsettled,
    /// The text is one value alone, and a mapping or a list was wanted. Nothing was written.
    OneValue,
    /// The text lists no edits. Nothing was changed.
    NoEdits,
    /// The text of an import in a list of edits was refused, or memory ran out. Nothing was changed.
    ImportText(ReadFault),
}

impl ToolFault {
    ghost use Rattle.conf_tools.specs.FaultLines.{text_fault_name};

    /// The name of the innermost fault, by which it is told.
    pub fn name(self) -> &'static str
        ensures { result.now ≡ text_fault_name self }
    {
        match self {
            ToolFault::Input => "Input",
            ToolFault::Output => "Output",
            ToolFault::Read(fault) => StoreFault::Read(fault).name(),
            ToolFault::Comments(_) => "Comments",
            ToolFault::Unsettled => "Unsettled",
            ToolFault::OneValue => "OneValue",
            ToolFault::NoEdits => "BadCommand",
            ToolFault::ImportText(fault) => StoreFault::Read(fault).name(),
        }
    }
}

impl Display for ToolFault {
    fn fmt<W: fmt::Write>(&self, f: &mut Formatter<W>) -> fmt::Result {
        match *self {
            ToolFault::Read(fault) | ToolFault::ImportText(fault) => {
                Display::fmt(&fault.brief(), f)
            }
            fault => f.write_str(fault.name()),
        }
    }
}

impl Error for ToolFault {}

impl From<AllocError> for ToolFault {
    ghost use Rattle.conf_tools.specs.declared.texts.ToolFault.TheVariants.{Read};
    ghost use Rattle.yaml_events.specs.declared.read_fault.ReadFault.TheVariants.{OutOfMemory};

    ghost from_gives = { λ _ out. out ≡ Read OutOfMemory };

    fn from(_: AllocError) -> Self {
        ToolFault::Read(ReadFault::OutOfMemory)
    }
}

/// Reads a text from `reader` to its end. Of one that is too long it reads one byte more than the 4,194,304 that a text
/// may have.
///
/// # Errors
///
/// - [`ToolFault::Input`] if the reader fails.
/// - [`ToolFault::Read`] with `OutOfMemory` if there is no memory for the text.
pub fn read_text<R: Read>(alloc: Global, reader: &mut R) -> Result<Vec<u8>, ToolFault>
    ensures { IsTaken result (R.remaining reader.old) (R.remaining reader.new) }
{
    read_up_to(alloc, reader, MOST_INPUT)
}

/// Writes a text in a style to `writer`.
///
/// # Errors
///
/// - [`ToolFault::Read`] if the text is refused, or memory runs out. Nothing is written.
/// - [`ToolFault::Unsettled`] as [`format_keeping`](comments_kept::format_keeping) says. Nothing is written.
/// - [`ToolFault::Output`] if the writer fails. Only the first of the text is written, as far as the writer took it.
pub fn format_text<W: Write>(
    alloc: Global,
    text: &[u8],
    style: Style,
    writer: &mut W,
) -> Result<(), ToolFault>
    ensures ok { OnOk result (Formats style text.now (W.contents writer.old) (W.contents writer.new)) }
    ensures stops { IfErr result (Stops (IsStyled style text.now) text.now
        (W.contents writer.old) (W.contents writer.new)) }
{
    let styled = match styled_text(alloc, text, style) {
        Ok(styled) => styled,
        Err(fault) => return Err(fault),
    };
    match write_whole(writer, styled.as_bytes()) {
        Ok(()) => Ok(()),
        Err(_) => Err(ToolFault::Output),
    }
}

/// Writes a line to `writer` for each finding of a text that is compared with what it is in a style, in the order of
/// [`check`](yaml_style::check). The line has the rule's name, a space, and the number of the line, from 1. Returns how
/// many findings there are. The lines are held in memory and written at once. They have at most some 50 MB, since a
/// text has at most two findings more than bytes.
///
/// # Errors
///
/// - [`ToolFault::Read`] if the text is refused, or memory runs out. Nothing is written.
/// - [`ToolFault::Unsettled`] as [`format_keeping`](comments_kept::format_keeping) says. Nothing is written.
/// - [`ToolFault::Output`] if the writer fails. Only the first of the lines are written, as the writer took them.
pub fn check_text<W: Write>(
    alloc: Global,
    text: &[u8],
    style: Style,
    writer: &mut W,
) -> Result<u64, ToolFault>
    ensures ok { IfOk result (Checks style text.now (W.contents writer.old) (W.contents writer.new)) }
    ensures stops { IfErr result (Stops (IsReport style text.now) text.now
        (W.contents writer.old) (W.contents writer.new)) }
{
    let findings = match findings_in(alloc, text, style) {
        Ok(findings) => findings,
        Err(fault) => return Err(fault),
    };
    let lines = match report(alloc, &findings) {
        Ok(lines) => lines,
        Err(_) => return Err(ToolFault::Read(ReadFault::OutOfMemory)),
    };
    match write_whole(writer, &lines) {
        Ok(()) => Ok(findings.len() as u64),
        Err(_) => Err(ToolFault::Output),
    }
}

/// Writes all bytes, and flushes the writer. Returns [`ToolFault::Output`] if the writer fails: then the first of the
/// bytes are written, as far as the writer took them.
pub(crate) fn write_whole<W: Write>(writer: &mut W, bytes: &[u8]) -> Result<(), ToolFault>
    ensures ok { OnOk result (Appends (W.contents writer.old) (W.contents writer.new) bytes.now) }
    ensures part { OnErr result (WritesPart bytes.now (W.contents writer.old) (W.contents writer.new)) }
    ensures fault { IfErr result (λ fault. fault ≡ ToolFault.Output) }
{
    match write_or_count(writer, bytes) {
        Ok(()) => {}
        Err(_) => return Err(ToolFault::Output),
    }
    match writer.flush() {
        Ok(()) => Ok(()),
        Err(_) => Err(ToolFault::Output),
    }
}
