// The findings of a text.
ghost use Rattle.std.specs.Prelude.{◌≡◌, ℕ, ◌≤◌, ◌<◌, ◌↔◌, true, List, ◌++◌, Err, IfOk, IfErr, OnOk, length, nat_lt};
ghost use Rattle.yaml_style.specs.Prelude.{position_or_len, chars, is_empty, config_limits, Refuses};
ghost use Rattle.yaml_style.specs.Checking.{IsChecked};
ghost use Rattle.yaml_style.specs.Comparing.{comparison_after};
ghost use Rattle.yaml_style.specs.Findings.{findings, style_line, with_style};

use crate::comparison::{Comparison, CountedComparison, compare};
use crate::lines::{break_count, line_findings};
use crate::{Finding, Rule};
use std::alloc::{AllocError, Global};
use yaml_tree::{Document, Limits, ReadFault};

/// The findings of a text, ordered by line, and on one line by rule.
///
/// The text is read as [`read_one`](yaml_tree::read_one) reads it, within the limits of a configuration
/// ([`Limits::CONFIGURATION`]). Its lines are looked at once. The text of its tree in the one style is compared with it
/// piece by piece, and neither that text nor the tree is ever held. A byte order mark counts as a character of the
/// first line. Breaks are LF, CR LF and CR (YAML 1.2.2, 5.4).
///
/// # Errors
///
/// Those of [`read_one`](yaml_tree::read_one), within those limits; a text that is refused has no findings.
pub fn check(alloc: Global, bytes: &[u8]) -> Result<Vec<Finding>, ReadFault>
    ensures found { IfOk result (λ findings. IsChecked bytes.now findings.items) }
    ensures too_long { (result ≡ Err ReadFault.TooLong) ↔ (config_limits.bytes < length bytes.now) }
    ensures refused { IfErr result (Refuses bytes.now config_limits) }
{
    let limits = Limits::CONFIGURATION;
    let document = Document::read(alloc, bytes, &limits)?;
    // Bytes that were read as a document are UTF-8.
    let text = unsafe { str::from_utf8_unchecked(bytes) };
    let mut written = CountedComparison::new(text);
    document.write(alloc, &limits, &mut written)?;
    if written.bytes > limits.style {
        return Err(ReadFault::LargeInStyle);
    }
    let mut findings = line_findings(alloc, text)?;
    insert_style(&mut findings, style_line(text, &written.comparison))?;
    Ok(findings)
}

/// The findings of a text as [`check`] has them, where it is compared with another text than that of its tree in the
/// one style. It fails only if memory runs out.
pub fn check_beside(alloc: Global, text: &str, wanted: &str) -> Result<Vec<Finding>, AllocError>
    requires { length text.now ≤ config_limits.bytes }
    ensures { IfOk result (λ found. found.items ≡ findings (chars text.now) (chars wanted.now)) }
{
    let (rest, agrees) = compare(text, wanted);
    let written = Comparison { rest, agrees };
    let mut findings = line_findings(alloc, text)?;
    insert_style(&mut findings, style_line(text, &written))?;
    Ok(findings)
}

/// The line, from 1, on which a text first differs from one that was compared with it; `None` if it doesn't.
fn style_line(text: &str, written: &Comparison<'_>) -> Option<u64>
    requires length { length text.now ≤ config_limits.bytes }
    requires written { (styled : List ℕ) × ((chars written.now.rest.now, written.now.agrees)
        ≡ comparison_after (chars text.now) true styled) }
    ensures { (styled : List ℕ) → (chars written.now.rest.now, written.now.agrees)
        ≡ comparison_after (chars text.now) true styled
        → result ≡ style_line (chars text.now) styled }
{
    if written.agrees && is_empty_text(written.rest) {
        return None;
    }
    Some(break_count(before(text, written.rest)) + 1)
}

/// Whether a text has no characters.
fn is_empty_text(text: &str) -> bool
    ensures { result ≡ is_empty (chars text.now) }
{
    text.is_empty()
}

/// The part of a text before the rest that it ends with.
fn before<'a>(text: &'a str, rest: &str) -> &'a str
    requires { (prefix : List ℕ) × (chars text.now ≡ prefix ++ chars rest.now) }
    ensures parts { chars text.now ≡ chars result.now ++ chars rest.now }
    ensures within { length result.now ≤ length text.now }
{
    &text[..text.len() - rest.len()]
}

/// Inserts the finding of a line that is not in the one style, if there is one, before the first finding on a later
/// line.
fn insert_style(findings: &mut Vec<Finding>, line: Option<u64>) -> Result<(), AllocError>
    ensures { OnOk result (findings.new.items ≡ with_style line findings.old.items) }
{
    let Some(line) = line else {
        return Ok(());
    };
    let at = place_after(findings, line);
    findings.insert(
        at,
        Finding {
            rule: Rule::NotInStyle,
            line,
        },
    )?;
    Ok(())
}

/// The place of the first finding on a later line, or the number of findings.
fn place_after(findings: &[Finding], line: u64) -> usize
    ensures place { result ≡ position_or_len (λ f. nat_lt line f.line) findings.now }
    ensures within { result ≤ length findings.now }
{
    let mut at = 0;
    for finding in findings {
        if finding.line > line {
            return at;
        }
        at += 1;
    }
    at
}
