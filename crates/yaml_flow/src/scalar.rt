// The flow scalar at a place.
ghost use Rattle.std.specs.Prelude.{◌≡◌, ◌≤◌, true, not, IfOk, IfErr, IfSome};
ghost use Rattle.yaml_flow.specs.Prelude.{IsBorrowedStr, IsCharBoundary, context_of, Refuses, unbroken_between};
ghost use Rattle.yaml_flow.specs.Scalars.{FlowScalarRead, NoFlowScalar};

use std::alloc::Global;
use std::borrow::CowStr;
use yaml_events::{FlowContext, ScanFault, Style};
use yaml_flow_scalars::{double, plain, plain_line_end, single};
use yaml_scan::{has_break, stands_at};

/// A flow scalar that starts at a known place.
#[derive(Debug, Drop)]
pub struct FlowScalar<'a> {
    /// How it is written.
    pub style: Style,
    /// Its value, borrowed from the text where the text has it in one piece.
    pub value: CowStr<'a>,
    /// The place after it.
    pub end: usize,
}

impl<'a> FlowScalar<'a> {
    /// Returns whether the scalar, which starts at `start`, runs over lines. A scalar whose value is borrowed has no
    /// break, so only the others are searched for one.
    pub fn is_over_lines(&self, text: &str, start: usize) -> bool
        requires order { start ≤ self.now.end }
        requires from { IsCharBoundary text.now start }
        requires to { IsCharBoundary text.now self.now.end }
        requires unbroken { IsBorrowedStr self.now.value
            → unbroken_between text.now start self.now.end ≡ true }
        ensures { result ≡ not (unbroken_between text.now start self.now.end) }
    {
        match &self.value {
            CowStr::Borrowed(_) => false,
            CowStr::Owned(_) => has_break(text, start, self.end),
        }
    }
}

/// Returns the flow scalar at `at` in the context `c` (YAML 1.2.2, 7.3): a quoted one if its first character is `"` or
/// `'`, else a plain one. Further lines are indented by `n` spaces or more; a key has none.
///
/// # Errors
///
/// [`ScanFault::At`] only if no flow scalar is at `at`, and [`ScanFault::OutOfMemory`] if there is no memory for the
/// value.
#[inline(always)]
pub fn scalar_at<'a>(
    alloc: Global,
    text: &'a str,
    at: usize,
    n: u64,
    c: FlowContext,
) -> Result<FlowScalar<'a>, ScanFault>
    requires { IsCharBoundary text.now at }
    ensures found { IfOk result (FlowScalarRead n (context_of c) text.now at) }
    ensures none { IfErr result (λ fault.
        Refuses fault (NoFlowScalar n (context_of c) text.now at)) }
{
    if stands_at(text, at, b'"') {
        let (value, end) = double(alloc, text, at, n, c)?;
        return Ok(FlowScalar {
            style: Style::Double,
            value,
            end,
        });
    }
    if stands_at(text, at, b'\'') {
        let (value, end) = single(alloc, text, at, n, c)?;
        return Ok(FlowScalar {
            style: Style::Single,
            value,
            end,
        });
    }
    let (value, end) = plain(alloc, text, at, n, c)?;
    Ok(FlowScalar {
        style: Style::Plain,
        value,
        end,
    })
}

/// Returns the plain scalar at `at` in the context `c`, if it begins with an ASCII letter or digit and is on one line.
/// Returns None at any other scalar. It does what [`scalar_at`] does for the scalars that are most frequent.
#[inline(always)]
pub(crate) fn plain_line_at<'a>(
    text: &'a str,
    at: usize,
    n: u64,
    c: FlowContext,
) -> Option<FlowScalar<'a>>
    requires { IsCharBoundary text.now at }
    ensures { IfSome result (FlowScalarRead n (context_of c) text.now at) }
{
    let Some(end) = plain_line_end(text, at, n, c) else {
        return None;
    };
    Some(FlowScalar {
        style: Style::Plain,
        value: CowStr::Borrowed(&text[at..end]),
        end,
    })
}
