// Keys that are taken off lines.
ghost use Rattle.std.specs.Prelude.{◌≡◌, ◌≤◌, ◌<◌, ◌^◌, IfOk};
ghost use Rattle.yaml_styled.specs.Prelude.{chars, key_lines, indented_key_lines};
ghost use Rattle.yaml_styled.specs.Taking.{Took};

use crate::guess::guessed_key;
use crate::lines::Lines;
use crate::miss::Miss;
use crate::words::split_plain;
use yaml_writer::{Size, write_key};

/// The most bytes of a key that is known to be on one line by its length alone.
const SHORT_KEY: usize = 166;

/// Takes a key through its `:`, after the spaces before its line.
#[inline(always)]
pub(crate) fn take_key<'t>(lines: &mut Lines<'t>, indent: u64) -> Result<&'t str, Miss>
    ensures { IfOk result (λ key. Took lines.old.rest.now lines.old.counted
        (key_lines indent (chars key.now)) (indented_key_lines (chars key.now))
        lines.new.rest.now lines.new.counted) }
{
    match split_plain(lines.rest(), b':') {
        Some((key, rest)) => {
            lines.go_on(rest);
            Ok(key)
        }
        None => take_other_key(lines, indent),
    }
}

/// Takes a key that is not plain.
#[inline(never)]
fn take_other_key<'t>(lines: &mut Lines<'t>, indent: u64) -> Result<&'t str, Miss>
    ensures { IfOk result (λ key. Took lines.old.rest.now lines.old.counted
        (key_lines indent (chars key.now)) (indented_key_lines (chars key.now))
        lines.new.rest.now lines.new.counted) }
{
    let Some(key) = guessed_key(lines.rest()) else {
        return Err(Miss::OtherForm);
    };
    lines.count(key_line_count(key))?;
    write_key(key, indent, lines)?;
    Ok(key)
}

/// How many indented lines a key has: that of the `:` of a long key.
fn key_line_count(key: &str) -> u64
    ensures { result ≡ indented_key_lines (chars key.now) }
{
    if key.len() <= SHORT_KEY {
        return 0;
    }
    Size::of_key(key).lines as u64
}
