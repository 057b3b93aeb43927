// A block scalar in a block node (YAML 1.2.2, 8.1 and 8.2.3).
ghost use Rattle.std.specs.Prelude.{◌≡◌, ◌^◌, ◌≤◌, ◌≤ℤ◌, negsuc, IfOk, IfErr};
ghost use Rattle.yaml_block.specs.Prelude.{IsCharBoundary, rest, first, bar, Refuses, least_indent, IsLineStart};
ghost use Rattle.std.specs.Cow.{cow_str_bytes};
ghost use Rattle.yaml_recognizers.specs.BlockScalarFacts.{NoBody};
ghost use Rattle.yaml_block_scalars.specs.Found.{IsBodyAt};
ghost use Rattle.yaml_block.specs.Bodies.{IsBlockStyle, IsAfterScalar};

use crate::next_line::NextLine;
use std::alloc::Global;
use std::borrow::CowStr;
use yaml_block_scalars::{Header, folded, literal};
use yaml_events::{ScanFault, Style};
use yaml_scan::{Line, comment_line_end, solid_line, spaces_end, stands_at};

/// The lines of a block scalar after its header.
#[derive(Drop)]
pub(crate) struct Body<'a> {
    /// `Literal` or `Folded`.
    pub style: Style,
    /// What they mean.
    pub value: CowStr<'a>,
    /// Where they end: a line starts there.
    pub end: usize,
}

/// Returns whether a block scalar begins at `at`, with `|` or `>`.
pub(crate) fn begins_block_scalar(text: &str, at: usize) -> bool
    requires { IsCharBoundary text.now at }
    ensures { result ≡ first bar (rest text.now at) }
{
    stands_at(text, at, b'|') || stands_at(text, at, b'>')
}

/// Returns the indentation below which a node has this least indentation. It is -1 at the top of a document.
fn indentation_below(least: usize) -> i64
    requires { least ≤ 2 ^ 63 }
    ensures low { negsuc 0 ≤ℤ result }
    ensures least { least_indent result ≡ least }
{
    if least == 0 { -1 } else { (least - 1) as i64 }
}

/// Reads the lines at `at` of the scalar with this header, literal or folded, whose lines are indented by `least`
/// spaces or more.
///
/// # Errors
///
/// [`ScanFault::At`] only if the header's scalar has no lines there, and [`ScanFault::OutOfMemory`] if there is no
/// memory for its value.
pub(crate) fn body_at<'a>(
    alloc: Global,
    text: &'a str,
    at: usize,
    least: usize,
    head: &Header,
) -> Result<Body<'a>, ScanFault>
    requires at { IsCharBoundary text.now at }
    requires fits { least ≤ 2 ^ 63 }
    requires starts { IsLineStart text.now at }
    ensures found { IfOk result (λ body.
        IsBodyAt least head.now.folded head.now text.now at (cow_str_bytes body.value) body.end) }
    ensures style { IfOk result (λ body. IsBlockStyle head.now.folded body.style) }
    ensures line { IfOk result (λ body. IsLineStart text.now body.end) }
    ensures none { IfErr result (λ fault.
        Refuses fault (NoBody head.now.digit least (rest text.now at))) }
{
    let below = indentation_below(least);
    if head.folded {
        let (value, end) = folded(alloc, text, at, below, head)?;
        return Ok(Body {
            style: Style::Folded,
            value,
            end,
        });
    }
    let (value, end) = literal(alloc, text, at, below, head)?;
    Ok(Body {
        style: Style::Literal,
        value,
        end,
    })
}

/// Returns the line after a block scalar whose lines end at `at`, where a line starts. A comment line belongs to the
/// scalar if no TAB is before its `#`, and then all comment lines after it do. Any other line of whitespace or a
/// comment ends all collections.
pub(crate) fn line_after_scalar(text: &str, at: usize) -> NextLine
    requires at { IsCharBoundary text.now at }
    requires starts { IsLineStart text.now at }
    ensures { IsAfterScalar text.now at result }
{
    let first = spaces_end(text, at);
    let line = Line { start: at, first };
    match comment_line_end(text, at) {
        None => NextLine {
            line,
            is_solid: true,
        },
        Some(_) => {
            if stands_at(text, first, b'#') {
                return NextLine {
                    line: solid_line(text, at),
                    is_solid: true,
                };
            }
            NextLine {
                line,
                is_solid: false,
            }
        }
    }
}
