// The indentation of a block scalar without a digit (YAML 1.2.2, 8.1.1.1).
ghost use Rattle.std.specs.Prelude.{◌≡◌, None, Some, IfOk, IfErr};
ghost use Rattle.yaml_block_scalars.specs.Prelude.{IsCharBoundary, rest, Refuses, find_indent};
ghost use Rattle.yaml_block_scalars.specs.Lines.{AreLeading};

use yaml_events::{ScanFault, Why};
use yaml_scan::{break_end, is_marker, nb_at, spaces_end};

/// Returns the number of spaces of the widest of the consecutive lines of spaces from `at` on, and where these lines
/// end.
fn leading_lines(text: &str, at: usize) -> (usize, usize)
    requires { IsCharBoundary text.now at }
    ensures { AreLeading text.now at result.0 result.1 }
{
    let mut widest = 0;
    let mut place = at;
    'lines: loop {
        let end = spaces_end(text, place);
        let Some(next) = break_end(text, end) else {
            return (widest, place);
        };
        widest = widest.max(end - place);
        place = next;
    }
}

/// Returns the indentation that the lines at `at` set, which is `least` or more: that of the first line that holds
/// anything but spaces. If that line sets none, it is the width of the widest line of spaces, or `least` if that is
/// more.
///
/// # Errors
///
/// [`ScanFault::At`] if a line of spaces is wider than the indentation, or if the first other line begins with a
/// character that no line may hold.
pub(crate) fn detected(text: &str, at: usize, least: usize) -> Result<usize, ScanFault>
    requires { IsCharBoundary text.now at }
    ensures found { IfOk result (λ indent. find_indent None least (rest text.now at)
        ≡ Some indent) }
    ensures none { IfErr result (λ fault.
        Refuses fault (find_indent None least (rest text.now at) ≡ None)) }
{
    let (widest, place) = leading_lines(text, at);
    let end = spaces_end(text, place);
    let width = end - place;
    if end == text.len() {
        return Ok(least.max(widest.max(width)));
    }
    if width < least {
        return Ok(least.max(widest));
    }
    if is_marker(text, place) {
        return Ok(least.max(widest));
    }
    if width < widest {
        return Err(ScanFault::At {
            at: place,
            why: Why::Indent,
        });
    }
    match nb_at(text, end) {
        Some(_) => Ok(width),
        None => Err(ScanFault::At {
            at: end,
            why: Why::Character,
        }),
    }
}
