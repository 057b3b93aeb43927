// The lines of a text, and what is found on each.
ghost use Rattle.std.specs.Prelude.{◌≡◌, ◌<◌, ◌≤◌, ◌+◌, ◌++◌, ◌∷◌, length, IfOk, OnOk};
ghost use Rattle.yaml_style.specs.Prelude.{chars};
ghost use Rattle.yaml_style.specs.Lines.{lines, content, line_end, breaks};
ghost use Rattle.yaml_style.specs.Findings.{ends_in_white, ends_otherwise, is_long, found, on_line, line_findings};
ghost use Rattle.yaml_style.specs.Seen.{line_chars};

use crate::{Finding, Rule};
use std::alloc::{AllocError, Global};
use yaml_chars::next_break;

/// The most code points of a line, its break not counted.
const LONGEST_LINE: usize = 120;

/// A line of a text.
#[derive(Clone, Copy)]
pub(crate) struct Line<'a> {
    /// The line without its break.
    content: &'a str,
    /// Its break; empty at the end of the text.
    ending: &'a str,
}

/// Whether the last character is a space or TAB.
fn ends_in_white(content: &str) -> bool
    ensures { result ≡ ends_in_white (chars content.now) }
{
    content.ends_with(' ') || content.ends_with('\t')
}

/// Whether a line ends in something else than LF.
fn ends_otherwise(ending: &str) -> bool
    ensures { result ≡ ends_otherwise (chars ending.now) }
{
    ending != "\n"
}

/// Whether a line without its break has more than 120 code points.
fn is_long(content: &str) -> bool
    ensures { result ≡ is_long (chars content.now) }
{
    content.len() > LONGEST_LINE && content.chars().count() > LONGEST_LINE
}

/// The first line of a text that is not empty, and the text after it.
fn split_line(text: &str) -> (Line<'_>, &str)
    requires { 0 < length text.now }
    ensures cut { lines (chars text.now) ≡ line_chars result.0 ∷ lines (chars result.1.now) }
    ensures content { content (line_chars result.0) ≡ chars result.0.content.now }
    ensures ending { line_end (line_chars result.0) ≡ chars result.0.ending.now }
    ensures shorter { length result.1.now < length text.now }
{
    let Some((start, len)) = next_break(text, 0) else {
        let line = Line {
            content: text,
            ending: "",
        };
        return (line, "");
    };
    let line = Line {
        content: &text[..start],
        ending: &text[start..start + len],
    };
    (line, &text[start + len..])
}

/// The findings of all lines by the rules S1 to S3, in order.
pub(crate) fn line_findings(alloc: Global, text: &str) -> Result<Vec<Finding>, AllocError>
    ensures { IfOk result (λ found. found.items ≡ line_findings 1 (lines (chars text.now))) }
{
    let mut findings = Vec::new(alloc);
    let mut rest = text;
    let mut number = 0;
    while !rest.is_empty() {
        let (line, after) = split_line(rest);
        number += 1;
        push_findings(&mut findings, number, &line)?;
        rest = after;
    }
    Ok(findings)
}

/// Adds what is found on a line.
fn push_findings(
    findings: &mut Vec<Finding>,
    number: u64,
    line: &Line<'_>,
) -> Result<(), AllocError>
    requires content { content (line_chars line.now) ≡ chars line.now.content.now }
    requires ending { line_end (line_chars line.now) ≡ chars line.now.ending.now }
    ensures { OnOk result (findings.new.items ≡ findings.old.items
        ++ on_line number (line_chars line.now)) }
{
    push_where(
        findings,
        Rule::TrailingWhitespace,
        number,
        ends_in_white(line.content),
    )?;
    push_where(findings, Rule::LineEnd, number, ends_otherwise(line.ending))?;
    push_where(findings, Rule::LongLine, number, is_long(line.content))
}

/// Adds the finding that a line breaks a rule, if `is_broken`.
fn push_where(
    findings: &mut Vec<Finding>,
    rule: Rule,
    line: u64,
    is_broken: bool,
) -> Result<(), AllocError>
    ensures { OnOk result (findings.new.items ≡ findings.old.items ++ found is_broken rule line) }
{
    if is_broken {
        findings.push(Finding { rule, line })?;
    }
    Ok(())
}

/// The number of line breaks in a text.
pub(crate) fn break_count(text: &str) -> u64
    ensures count { result ≡ breaks (chars text.now) }
    ensures within { result ≤ length text.now }
{
    let mut count = 0;
    let mut rest = text;
    while let Some((start, len)) = next_break(rest, 0) {
        count += 1;
        rest = &rest[start + len..];
    }
    count
}
