// Lengths of base texts, counted and not written.
ghost use Rattle.std.specs.Prelude.{◌≡◌, ◌^◌, ◌<◌, ◌≤◌, min, OnOk};
ghost use Rattle.conf_state.specs.Prelude.{chars, value_at, byte_len, tree_of};
ghost use Rattle.yaml_config.specs.Kept.{IsKept};
ghost use Rattle.yaml_writer.specs.Sizes.{length_at};
ghost use Rattle.conf_state.specs.BaseTexts.{entry_lines, entry_length, framed_length};

use itoa::Buffer;
use yaml_config::{Config, Slot};
use yaml_data::Tree;
use yaml_writer::{Sink, Size, lengths_follow_indentation, write_key, write_value};

/// The indentation of the names in a base text.
const NAME_INDENT: u64 = 2;

/// The indentation of a configuration in a base text: two more than that of its name.
pub(crate) const ENTRY_INDENT: u64 = 4;

/// The most bytes of a base text.
pub(crate) const BASE_LIMIT: u64 = 67_108_864;

/// The bytes of a base text without its count and its configurations: `---`, `store: confstore-2`, `at: ""`, `configs:`
/// and `...`, and a line feed after each but `configs:`.
const FRAME: u64 = 42;

/// The bytes of ` {}` and a line feed, which follow `configs:` if there are no configurations.
const NO_CONFIGS: u64 = 4;

/// The bytes of the line feed that follows `configs:` otherwise, before the first configuration.
const LINE_FEED: u64 = 1;

/// A count of bytes as a `u64`; at most the greatest one.
pub(crate) fn capped(bytes: u128) -> u64
    ensures { result ≡ min bytes u64.MAX }
{
    bytes.min(u128::from(u64::MAX)) as u64
}

/// How many bytes a configuration has as the value after the `:` of its key, whose line is indented by `indent` spaces,
/// at most 4. It follows from the size of the configuration, which is counted only if it isn't known
/// ([`Config::size`]). A text at the margin is as long as by itself, after a space.
pub fn value_length(config: &Config, indent: u64) -> u64
    requires { indent ≤ 4 }
    ensures length { result ≡ byte_len (value_at (tree_of config.now) indent) }
    ensures kept { IsKept (tree_of config.now) }
{
    lengths_follow_indentation();
    match config.tree() {
        Tree::Text(_) if indent == 0 => 1 + config.style_length(),
        _ => length_at(config.size(Slot::Value), indent) as u64,
    }
}

/// How many bytes a part of this size has at an indentation.
fn length_at(size: Size, indent: u64) -> u128
    requires bytes { size.bytes < 2 ^ 100 }
    requires lines { size.lines < 2 ^ 100 }
    requires indent { indent ≤ 4 }
    ensures { result ≡ length_at size indent }
{
    size.bytes + u128::from(indent) * size.lines
}

/// Writes a configuration under its name as a base text has it, at the indentation 2. It fails only if the sink does.
pub(crate) fn write_entry<S: Sink>(
    name: &str,
    config: &Config,
    sink: &mut S,
) -> Result<(), S::Fault>
    ensures { OnOk result (S.Takes sink.old (entry_lines (chars name.now)
        (tree_of config.now)) sink.new) }
{
    let tree = config.tree();
    sink.put_spaces(NAME_INDENT)?;
    write_key(name, NAME_INDENT, sink)?;
    write_value(tree, NAME_INDENT, sink)
}

/// How many bytes a configuration has in a base text, with its name; at most the greatest `u64`. They are not counted
/// where the size of the configuration is known.
pub(crate) fn entry_length(name: &str, config: &Config) -> u64
    ensures { result ≡ min (entry_length (chars name.now) (tree_of config.now)) u64.MAX }
{
    lengths_follow_indentation();
    let key_bytes = length_at(Size::of_key(name), NAME_INDENT);
    let value_bytes = value_length(config, NAME_INDENT);
    capped(u128::from(NAME_INDENT) + key_bytes + u128::from(value_bytes))
}

/// How many bytes a base text has with this count, and with configurations of `entries` bytes in all; at most the
/// greatest `u64`.
pub(crate) fn base_length(count: u128, entries: u64) -> u64
    ensures { result ≡ min (framed_length count entries) u64.MAX }
{
    let mut digits = Buffer::new();
    let frame = FRAME + digits.format(count).len() as u64;
    if entries == 0 {
        frame + NO_CONFIGS
    } else {
        frame.saturating_add(LINE_FEED).saturating_add(entries)
    }
}
