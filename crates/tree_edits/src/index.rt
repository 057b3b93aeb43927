// Where a token leads in a list into which a value is inserted.
ghost use Rattle.std.specs.Prelude.{◌≡◌, ◌<◌, length, option_map};
ghost use Rattle.tree_edits.specs.Prelude.{as_usize, chars, number_of};
ghost use Rattle.tree_edits.specs.Insertions.{place_in};

/// The place, from 0, before which a value is inserted into a list of `count` elements: that of the element at an
/// index, or `count` for that index and for `-`; `None` for any other token.
pub(crate) fn place_in(token: &str, count: usize) -> Option<usize>
    requires { count < usize.MAX }
    ensures { result ≡ place_in (chars token.now) count }
{
    if token == "-" {
        return Some(count);
    }
    let index = number(token)?;
    if index > count {
        return None;
    }
    Some(index)
}

/// The number of an index: `0`, or digits without a leading zero (RFC 6901, 4); `None` for any other token. A number
/// that a `usize` can't hold is the greatest `usize`.
fn number(token: &str) -> Option<usize>
    ensures { result ≡ option_map as_usize (number_of (chars token.now)) }
{
    let mut number = None;
    for c in token.chars() {
        let digit = c.to_digit(10)? as usize;
        number = match number {
            None => Some(digit),
            Some(0) => return None,
            Some(n) => Some(n.saturating_mul(10).saturating_add(digit)),
        };
    }
    number
}
