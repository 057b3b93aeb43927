// The text of edits: the list that the word `batch` takes.
ghost use Rattle.std.specs.Prelude.{◌≡◌, ◌<◌, ◌^◌, ◌∷◌, ◌++◌, [], encode_utf8_all, map, min, string_bytes, IfOk, OnOk};
ghost use Rattle.conf_diff.specs.Prelude.{byte_len, chars, delete_at, edit_elements, edit_members, edit_of, elements_after};
ghost use Rattle.conf_diff.specs.Prelude.{import_as, members_at, scalar_lines, set_at, tree_of, value_at};
ghost use Rattle.conf_diff.specs.EditTexts.{edits_text, head_of_import, lines_length};

use conf_state::Edit;
use std::alloc::{AllocError, Global};
use yaml_config::{Config, Slot};
use yaml_writer::{ByteCount, Sink, write_scalar, write_value};

/// The indentation of the members of an edit, which come after `- `.
const INDENT: u64 = 2;

/// The text of edits in the one style: a sequence with a mapping for each, as the record of a batch has them. A mapping
/// holds a name (`import`, `set` or `delete`), the path of a set or a delete (`path`), and the tree of an import
/// (`tree`) or the value of a set (`value`). It fails only if memory runs out.
pub fn edits_text(alloc: Global, edits: &[Edit]) -> Result<String, AllocError>
    ensures text { IfOk result (λ text.
        chars (string_bytes text) ≡ edits_text (map edit_of edits.now)) }
    ensures bytes { IfOk result (λ text.
        string_bytes text ≡ encode_utf8_all (edits_text (map edit_of edits.now))) }
{
    let mut text = String::new(alloc);
    write_edits(edits, &mut text)?;
    Ok(text)
}

/// Writes the elements of the sequence.
fn write_edits<S: Sink>(edits: &[Edit], sink: &mut S) -> Result<(), S::Fault>
    ensures { OnOk result (S.Takes sink.old (edits_text (map edit_of edits.now)) sink.new) }
{
    if edits.is_empty() {
        return sink.put_text("[]\n");
    }
    write_lines(edits, sink)
}

/// Writes the lines of edits, of which there may be none.
fn write_lines<S: Sink>(edits: &[Edit], sink: &mut S) -> Result<(), S::Fault>
    ensures { OnOk result (S.Takes sink.old
        (elements_after (edit_elements (map edit_of edits.now)) 0) sink.new) }
{
    for edit in edits {
        sink.put_text("- ")?;
        write_edit(edit, sink)?;
    }
    Ok(())
}

/// How many bytes the lines of edits have, as [`edits_text`] writes them; at most the greatest `u128`. It takes no
/// memory.
pub(crate) fn lines_length(edits: &[Edit]) -> u128
    ensures { result ≡ min (lines_length (map edit_of edits.now)) u128.MAX }
{
    let mut bytes = ByteCount::new();
    match write_lines(edits, &mut bytes) {
        Ok(()) => bytes.total(),
        Err(never) => match never {},
    }
}

/// How many bytes the lines of an import have, as [`edits_text`] writes them. It takes no memory, and a configuration
/// that knows its size is not counted again.
pub(crate) fn import_length(name: &str, config: &Config) -> u128
    ensures length { result ≡ lines_length (import_as (chars name.now) (tree_of config.now) ∷ []) }
    ensures small { result < 2 ^ 100 }
{
    let tree = config.size(Slot::Value);
    head_length(name) + tree.bytes + u128::from(INDENT) * tree.lines
}

/// How many bytes an import has before its tree.
fn head_length(name: &str) -> u128
    ensures length { result ≡ byte_len (head_of_import (chars name.now)) }
    ensures small { result < 2 ^ 70 }
{
    let mut bytes = ByteCount::new();
    match write_head(name, &mut bytes) {
        Ok(()) => bytes.total(),
        Err(never) => match never {},
    }
}

/// Writes an import up to its tree.
fn write_head<S: Sink>(name: &str, sink: &mut S) -> Result<(), S::Fault>
    ensures { OnOk result (S.Takes sink.old (head_of_import (chars name.now)) sink.new) }
{
    write_text_member("- import: ", name, sink)?;
    sink.put_text("  tree:")
}

/// Writes the members of an edit, the first without its spaces.
fn write_edit<S: Sink>(edit: &Edit, sink: &mut S) -> Result<(), S::Fault>
    ensures { OnOk result (S.Takes sink.old (members_at (edit_members (edit_of edit.now)) 2) sink.new) }
{
    match edit {
        Edit::Import { name, tree } => write_import(name, tree, sink),
        Edit::Set { name, path, value } => write_set(name, path, value, sink),
        Edit::Delete { name, path } => write_delete(name, path, sink),
    }
}

/// Writes the members of an import.
fn write_import<S: Sink>(name: &str, tree: &Config, sink: &mut S) -> Result<(), S::Fault>
    ensures { OnOk result (S.Takes sink.old (members_at (edit_members
        (import_as (chars name.now) (tree_of tree.now))) 2) sink.new) }
{
    write_text_member("import: ", name, sink)?;
    write_value_member("  tree:", tree, sink)
}

/// Writes the members of a set.
fn write_set<S: Sink>(name: &str, path: &str, value: &Config, sink: &mut S) -> Result<(), S::Fault>
    ensures { OnOk result (S.Takes sink.old (members_at (edit_members
        (set_at (chars name.now) (chars path.now) (tree_of value.now))) 2) sink.new) }
{
    write_text_member("set: ", name, sink)?;
    write_text_member("  path: ", path, sink)?;
    write_value_member("  value:", value, sink)
}

/// Writes the members of a delete.
fn write_delete<S: Sink>(name: &str, path: &str, sink: &mut S) -> Result<(), S::Fault>
    ensures { OnOk result (S.Takes sink.old (members_at (edit_members
        (delete_at (chars name.now) (chars path.now))) 2) sink.new) }
{
    write_text_member("delete: ", name, sink)?;
    write_text_member("  path: ", path, sink)
}

/// Writes the start of a line with its key and `: `, as it is, and a text as the value.
fn write_text_member<S: Sink>(start: &str, text: &str, sink: &mut S) -> Result<(), S::Fault>
    ensures { OnOk result (S.Takes sink.old
        (chars start.now ++ scalar_lines 4 (chars text.now)) sink.new) }
{
    sink.put_text(start)?;
    write_scalar(text, INDENT + 2, sink)
}

/// Writes the start of a line with its key and `:`, as it is, and a configuration as the value.
fn write_value_member<S: Sink>(start: &str, value: &Config, sink: &mut S) -> Result<(), S::Fault>
    ensures { OnOk result (S.Takes sink.old
        (chars start.now ++ value_at (tree_of value.now) 2) sink.new) }
{
    sink.put_text(start)?;
    write_value(value.tree(), INDENT, sink)
}
