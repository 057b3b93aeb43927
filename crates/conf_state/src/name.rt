// Names of configurations.
ghost use Rattle.std.specs.Prelude.{◌≡◌, ◌&&◌, IsTrue};
ghost use Rattle.conf_state.specs.Prelude.{chars, list_all, first};
ghost use Rattle.conf_state.specs.Names.{small_letter, name_char, good_name};
ghost use Rattle.conf_state.specs.Edits.{absence};

use crate::fault::StoreFault;

/// Whether a text may name a configuration: 1 to 64 lowercase ASCII letters, digits, `_` and `-`, starting with a
/// letter.
pub fn good_name(name: &str) -> bool
    ensures named { result ≡ good_name (chars name.now) }
    ensures ascii { IsTrue result → chars name.now ≡ name.now }
{
    starts_with_letter(name) && has_name_bytes(name) && name.len() <= 64
}

fn starts_with_letter(name: &str) -> bool
    ensures { result ≡ first small_letter (chars name.now) }
{
    name.chars().next().is_some_and(|c| matches!(c, 'a'..='z'))
}

/// Whether all bytes are those of name characters, which are ASCII.
fn has_name_bytes(name: &str) -> bool
    ensures named { result ≡ list_all name_char (chars name.now) }
    ensures ascii { IsTrue result → chars name.now ≡ name.now }
{
    name.bytes().all(is_name_byte)
}

fn is_name_byte(byte: u8) -> bool
    ensures { result ≡ name_char byte }
{
    byte.is_ascii_lowercase() || byte.is_ascii_digit() || matches!(byte, b'_' | b'-')
}

/// Why there is no configuration under a name: `BadName` if the name is not good, and else `NoConfig`.
pub(crate) fn absence(name: &str) -> StoreFault
    ensures { result ≡ absence (chars name.now) }
{
    if good_name(name) {
        StoreFault::NoConfig
    } else {
        StoreFault::BadName
    }
}
