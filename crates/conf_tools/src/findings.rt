// What stands in a store's file, as lines of text.
ghost use Rattle.std.specs.Prelude.{◌≡◌, ◌++◌, IfOk, OnOk};
ghost use Rattle.conf_tools.specs.Surveys.{bad_lines, findings_text, kind_word, number_line, state_word, why_word, word_line, zero_lines};

use conf_history::{Bad, BadKind, Findings, NoRecord, Zeros};
use itoa::Buffer;
use std::alloc::{AllocError, Global};

/// What stands in a store's file, as a YAML mapping in the one style: a line for each key. It fails only if memory runs
/// out.
pub(crate) fn findings_text(alloc: Global, findings: &Findings) -> Result<Vec<u8>, AllocError>
    ensures { IfOk result (λ text. text.items ≡ findings_text findings.now) }
{
    let mut text = Vec::new(alloc);
    push_findings(&mut text, findings)?;
    Ok(text)
}

/// Appends what stands in a store's file.
fn push_findings(text: &mut Vec<u8>, findings: &Findings) -> Result<(), AllocError>
    ensures { OnOk result (text.new.items ≡ text.old.items ++ findings_text findings.now) }
{
    push_word(text, "state", state_word(&findings.bad))?;
    push_number(text, "base", findings.base)?;
    push_number(text, "commands", findings.commands)?;
    push_bad(text, &findings.bad)?;
    push_number(text, "dropped", findings.dropped)
}

/// What stands in the file, in a word: `whole`, `torn` or `damaged`.
fn state_word(bad: &Option<Bad>) -> &'static str
    ensures { result.now ≡ state_word bad.now }
{
    match bad {
        None => "whole",
        Some(bad) => kind_word(bad.kind),
    }
}

/// Whether a crash may have left a bad piece, in a word.
fn kind_word(kind: BadKind) -> &'static str
    ensures { result.now ≡ kind_word kind }
{
    match kind {
        BadKind::Torn => "torn",
        BadKind::Unexpected => "damaged",
    }
}

/// Appends what is known of the first bad piece, if there is one.
fn push_bad(text: &mut Vec<u8>, bad: &Option<Bad>) -> Result<(), AllocError>
    ensures { OnOk result (text.new.items ≡ text.old.items ++ bad_lines bad.now) }
{
    let Some(bad) = bad else {
        return Ok(());
    };
    push_number(text, "piece", bad.piece.number)?;
    push_number(text, "byte", bad.piece.byte)?;
    push_number(text, "line", bad.piece.line)?;
    push_word(text, "why", why_word(bad.piece.why))?;
    push_zeros(text, &bad.zeros)?;
    push_number(text, "following", bad.following)
}

/// Appends where the zeros of a bad piece are, and how many, if it has any.
fn push_zeros(text: &mut Vec<u8>, zeros: &Option<Zeros>) -> Result<(), AllocError>
    ensures { OnOk result (text.new.items ≡ text.old.items ++ zero_lines zeros.now) }
{
    let Some(zeros) = zeros else {
        return Ok(());
    };
    push_number(text, "first_zero", zeros.first)?;
    push_number(text, "zeros", zeros.count)
}

/// Appends the line of a key whose value is a word.
fn push_word(text: &mut Vec<u8>, key: &str, word: &str) -> Result<(), AllocError>
    ensures { OnOk result (text.new.items ≡ text.old.items ++ word_line key.now word.now) }
{
    text.extend_from_slice(key.as_bytes())?;
    text.extend_from_slice(b": ")?;
    text.extend_from_slice(word.as_bytes())?;
    text.extend_from_slice(b"\n")
}

/// Appends the line of a key whose value is a number. The one style writes digits in double quotes.
fn push_number(text: &mut Vec<u8>, key: &str, number: u64) -> Result<(), AllocError>
    ensures { OnOk result (text.new.items ≡ text.old.items ++ number_line key.now number) }
{
    let mut digits = Buffer::new();
    text.extend_from_slice(key.as_bytes())?;
    text.extend_from_slice(b": \"")?;
    text.extend_from_slice(digits.format(number).as_bytes())?;
    text.extend_from_slice(b"\"\n")
}

/// Why a piece is not the next record, in a word: that of its refusal, if its command is refused.
fn why_word(why: NoRecord) -> &'static str
    ensures { result.now ≡ why_word why }
{
    match why {
        NoRecord::NotARecord => "NotARecord",
        NoRecord::WrongNumber { .. } => "WrongNumber",
        NoRecord::Refused(fault) => fault.name(),
    }
}
