// The tools for the text of a file that was named, over any writer.
ghost use Rattle.std.specs.Prelude.{◌≡◌, ◌⊎◌, ◌++◌, IfErr, IfOk, OnErr, OnOk, codes, true};
ghost use Rattle.conf_tools.specs.Prelude.{Appends, Keeps, HasNoComment};
ghost use Rattle.conf_tools.specs.Parts.{WritesPart};
ghost use Rattle.conf_tools.specs.FileTexts.{ChecksFile, IsFileReport, IsNameLine, Lists, MayLose, Restyles, StopsInFile, StopsRestyling, file_line, file_report, name_line, words_of};
ghost use Rattle.conf_tools.specs.Tools.{Stops};

use crate::styles::{findings_in, style_of, styled_text};
use crate::texts::{ToolFault, write_whole};
use conf_words::{Comments, Style};
use itoa::Buffer;
use std::alloc::{AllocError, Global};
use std::io::Write;
use yaml_docs::write_or_count;
use yaml_refusals::first_comment;
use yaml_style::{Finding, Rule};
use yaml_tree::ReadFault;

/// What a text is in a style.
#[derive(Debug, PartialEq, Eq, Drop)]
pub enum Restyled {
    /// The text itself.
    Same,
    /// Another text, which is this one.
    Changed(String),
}

/// Returns what a text is in the one style, with its comments if these are to be kept. Else they are lost where that is
/// another text.
///
/// # Errors
///
/// - [`ToolFault::Read`] if the text is refused, or memory runs out.
/// - [`ToolFault::Comments`] if it is another text and has comments, and these are to be refused.
pub fn restyle(alloc: Global, text: &[u8], comments: Comments) -> Result<Restyled, ToolFault>
    ensures ok { IfOk result (Restyles comments text.now) }
    ensures stops { IfErr result (StopsRestyling comments text.now) }
{
    let styled = match styled_text(alloc, text, style_of(comments)) {
        Ok(styled) => styled,
        Err(fault) => return Err(fault),
    };
    if styled.as_bytes() == text {
        return Ok(Restyled::Same);
    }
    match allow_loss(alloc, text, comments) {
        Ok(()) => Ok(Restyled::Changed(styled)),
        Err(fault) => Err(fault),
    }
}

/// Refuses a text that has comments, if these are to be refused.
fn allow_loss(alloc: Global, text: &[u8], comments: Comments) -> Result<(), ToolFault>
    ensures ok { OnOk result (MayLose comments text.now) }
    ensures stops { IfErr result (StopsRestyling comments text.now) }
{
    match comments {
        Comments::Dropped | Comments::Kept => Ok(()),
        Comments::Refused => refuse_comments(alloc, text),
    }
}

/// Refuses a text that has comments.
fn refuse_comments(alloc: Global, text: &[u8]) -> Result<(), ToolFault>
    ensures ok { OnOk result (HasNoComment text.now) }
    ensures stops { IfErr result (StopsRestyling Comments.Refused text.now) }
{
    match first_comment(alloc, text) {
        Ok(None) => Ok(()),
        Ok(Some(place)) => Err(ToolFault::Comments(place)),
        Err(fault) => Err(ToolFault::Read(fault)),
    }
}

/// Returns whether a text is another one in a style. If so, it writes the file's name and a line feed to `writer`.
///
/// # Errors
///
/// - [`ToolFault::Read`] if the text is refused, or memory runs out. Nothing is written.
/// - [`ToolFault::Output`] if the writer fails. Only the first of the line is written, as far as the writer took it.
pub fn list_changed<W: Write>(
    alloc: Global,
    file: &str,
    text: &[u8],
    style: Style,
    writer: &mut W,
) -> Result<bool, ToolFault>
    ensures ok { IfOk result (Lists style file.now text.now
        (W.contents writer.old) (W.contents writer.new)) }
    ensures stops { IfErr result (Stops (IsNameLine style file.now text.now) text.now
        (W.contents writer.old) (W.contents writer.new)) }
{
    let styled = match styled_text(alloc, text, style) {
        Ok(styled) => styled,
        Err(fault) => return Err(fault),
    };
    if styled.as_bytes() == text {
        return Ok(false);
    }
    match write_name(alloc, writer, file) {
        Ok(()) => Ok(true),
        Err(fault) => Err(fault),
    }
}

/// Writes a file's name and a line feed, and flushes the writer.
fn write_name<W: Write>(alloc: Global, writer: &mut W, file: &str) -> Result<(), ToolFault>
    ensures ok { OnOk result (Appends (W.contents writer.old) (W.contents writer.new)
        (name_line file.now true)) }
    ensures faults { IfErr result (λ fault. ((fault ≡ ToolFault.Output)
        × WritesPart (name_line file.now true) (W.contents writer.old) (W.contents writer.new))
        ⊎ ((fault ≡ ToolFault.Read ReadFault.OutOfMemory)
        × Keeps (W.contents writer.old) (W.contents writer.new))) }
{
    let line = match name_line(alloc, file) {
        Ok(line) => line,
        Err(_) => return Err(ToolFault::Read(ReadFault::OutOfMemory)),
    };
    match write_whole(writer, &line) {
        Ok(()) => Ok(()),
        Err(_) => Err(ToolFault::Output),
    }
}

/// A file's name and a line feed. It fails only if memory runs out.
fn name_line(alloc: Global, file: &str) -> Result<Vec<u8>, AllocError>
    ensures { IfOk result (λ line. line.items ≡ name_line file.now true) }
{
    let mut line = Vec::new(alloc);
    line.extend_from_slice(file.as_bytes())?;
    line.extend_from_slice(b"\n")?;
    Ok(line)
}

/// Writes a line to `writer` for each finding of a text that is compared with what it is in a style, in the order of
/// [`check`](yaml_style::check). The line has the file's name, a colon, the number of the line, from 1, a colon and a
/// space, the rule's name, a space, and words for the rule, as `web.yaml:3: S1 the line ends in a space or TAB`.
/// Returns how many findings there are.
///
/// # Errors
///
/// - [`ToolFault::Read`] if the text is refused, when nothing is written, or memory runs out, when the first of the
///   lines may be written.
/// - [`ToolFault::Output`] if the writer fails. Only the first of the lines are written, as the writer took them.
pub fn check_file<W: Write>(
    alloc: Global,
    file: &str,
    text: &[u8],
    style: Style,
    writer: &mut W,
) -> Result<u64, ToolFault>
    ensures ok { IfOk result (ChecksFile style file.now text.now
        (W.contents writer.old) (W.contents writer.new)) }
    ensures stops { IfErr result (StopsInFile (IsFileReport style file.now text.now) text.now
        (W.contents writer.old) (W.contents writer.new)) }
{
    let findings = match findings_in(alloc, text, style) {
        Ok(findings) => findings,
        Err(fault) => return Err(fault),
    };
    match write_file_report(alloc, writer, file, &findings) {
        Ok(()) => Ok(findings.len() as u64),
        Err(fault) => Err(fault),
    }
}

/// Writes a line for each finding of a file, in their order, and flushes the writer.
fn write_file_report<W: Write>(
    alloc: Global,
    writer: &mut W,
    file: &str,
    findings: &[Finding],
) -> Result<(), ToolFault>
    ensures ok { OnOk result (Appends (W.contents writer.old) (W.contents writer.new)
        (file_report file.now findings.now)) }
    ensures part { OnErr result (WritesPart (file_report file.now findings.now)
        (W.contents writer.old) (W.contents writer.new)) }
    ensures faults { IfErr result (λ fault. (fault ≡ ToolFault.Output)
        ⊎ (fault ≡ ToolFault.Read ReadFault.OutOfMemory)) }
{
    for finding in findings {
        let line = match file_line(alloc, file, finding) {
            Ok(line) => line,
            Err(_) => return Err(ToolFault::Read(ReadFault::OutOfMemory)),
        };
        match write_or_count(writer, &line) {
            Ok(()) => {}
            Err(_) => return Err(ToolFault::Output),
        }
    }
    match writer.flush() {
        Ok(()) => Ok(()),
        Err(_) => Err(ToolFault::Output),
    }
}

/// The line of one finding of a file. It fails only if memory runs out.
fn file_line(alloc: Global, file: &str, finding: &Finding) -> Result<Vec<u8>, AllocError>
    ensures { IfOk result (λ line. line.items ≡ file_line file.now finding.now) }
{
    let mut line = Vec::new(alloc);
    push_file_line(&mut line, file, finding)?;
    Ok(line)
}

/// Appends the line of one finding of a file.
fn push_file_line(line: &mut Vec<u8>, file: &str, finding: &Finding) -> Result<(), AllocError>
    ensures { OnOk result (line.new.items ≡ line.old.items ++ file_line file.now finding.now) }
{
    let mut digits = Buffer::new();
    line.extend_from_slice(file.as_bytes())?;
    line.extend_from_slice(b":")?;
    line.extend_from_slice(digits.format(finding.line).as_bytes())?;
    line.extend_from_slice(b": ")?;
    line.extend_from_slice(finding.rule.name().as_bytes())?;
    line.extend_from_slice(b" ")?;
    line.extend_from_slice(words_of(finding.rule).as_bytes())?;
    line.extend_from_slice(b"\n")
}

/// What a finding of the rule says of its line.
fn words_of(rule: Rule) -> &'static str
    ensures { result.now ≡ words_of rule }
{
    match rule {
        Rule::TrailingWhitespace => "the line ends in a space or TAB",
        Rule::LineEnd => "the line does not end in LF",
        Rule::LongLine => "the line has more than 120 characters",
        Rule::NotInStyle => "the text first differs from the one style here",
    }
}
