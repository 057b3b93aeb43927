// Findings as lines of text.
ghost use Rattle.std.specs.Prelude.{◌≡◌, ◌++◌, IfOk, OnOk};
ghost use Rattle.conf_tools.specs.Tools.{report, report_line};

use itoa::Buffer;
use std::alloc::{AllocError, Global};
use yaml_style::Finding;

/// A line for each finding, in their order. It fails only if memory runs out.
pub(crate) fn report(alloc: Global, findings: &[Finding]) -> Result<Vec<u8>, AllocError>
    ensures { IfOk result (λ lines. lines.items ≡ report findings.now) }
{
    let mut lines = Vec::new(alloc);
    for finding in findings {
        push_line(&mut lines, finding)?;
    }
    Ok(lines)
}

/// Appends the line of one finding: the rule's name, a space, and the number of the line.
fn push_line(lines: &mut Vec<u8>, finding: &Finding) -> Result<(), AllocError>
    ensures { OnOk result (lines.new.items ≡ lines.old.items ++ report_line finding.now) }
{
    let mut digits = Buffer::new();
    lines.extend_from_slice(finding.rule.name().as_bytes())?;
    lines.extend_from_slice(b" ")?;
    lines.extend_from_slice(digits.format(finding.line).as_bytes())?;
    lines.extend_from_slice(b"\n")
}
