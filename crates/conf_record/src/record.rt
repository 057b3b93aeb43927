// The text of a record: the document that holds a command and the number under which it was accepted.
ghost use Rattle.std.specs.Prelude.{◌≡◌, ◌≤◌, ◌+◌, ◌++◌, min, map, codes, decimal, string_bytes, IfOk, IfSome, OnOk};
ghost use Rattle.conf_record.specs.Prelude.{chars, IsText, byte_len, spaces, text, key_lines, scalar_lines, value_at};
ghost use Rattle.conf_record.specs.Prelude.{members_at, members_after, IsKept, tree_of, command_of, command_with, edit_of, batch};
ghost use Rattle.conf_record.specs.Prelude.{import_as, set_at, delete_at};
ghost use Rattle.conf_record.specs.Records.{edit_members, command_members, record_text, record_bytes};
ghost use Rattle.conf_record.specs.RecordsRead.{IsEdit, AreEdits, IsCommand, IsPlain};
ghost use Rattle.conf_about.specs.Abouts.{IsAbout};

use crate::record_sink::{EDIT_INDENT, RecordSink};
use conf_about::About;
use conf_state::{Command, Edit, Edits};
use itoa::Buffer;
use std::alloc::{AllocError, Global};
use yaml_tree::{ByteCount, Config, Sink, write_value};
use yaml_writer::write_scalar;

/// The text of a command's record: an explicit document (YAML 1.2.2, 9.1.4). It is a line of `---`, a mapping in the
/// one style and a line of `...`. The mapping holds the number as decimal digits (`at`), and then the members of the
/// edit. These are, in this order, the name (`import`, `set` or `delete`), the path of a set or a delete (`path`), and
/// the tree of an import (`tree`) or the value of a set (`value`). In place of them a batch has a sequence (`batch`),
/// with a mapping of such members for each of its edits. It takes time linear in the text's length, and memory once,
/// for the text. It fails only if memory runs out.
///
/// [`records_read`](crate::records_read) says that the text reads as that command under that number, if some state
/// accepts the command, and the record of a batch is not too long.
pub fn record_text(alloc: Global, command: &Command, number: u64) -> Result<String, AllocError>
    ensures text { IfOk result (λ text.
        chars (string_bytes text) ≡ record_text (command_of command.now) number) }
    ensures bytes { IfOk result (λ text.
        string_bytes text ≡ record_bytes (command_of command.now) number) }
    ensures kept { IfOk result (λ text. IsCommand (command_of command.now)) }
{
    record_of_length(alloc, command, number, record_length(command, number))
}

/// The same text, where its length in bytes is known, as by [`record_length`]. Memory is taken for so many bytes.
pub fn record_of_length(
    alloc: Global,
    command: &Command,
    number: u64,
    bytes: u64,
) -> Result<String, AllocError>
    ensures text { IfOk result (λ text.
        chars (string_bytes text) ≡ record_text (command_of command.now) number) }
    ensures bytes { IfOk result (λ text.
        string_bytes text ≡ record_bytes (command_of command.now) number) }
    ensures kept { IfOk result (λ text. IsCommand (command_of command.now)) }
{
    let mut text = String::with_capacity(alloc, bytes as usize)?;
    write_record(command, number, &mut text)?;
    Ok(text)
}

/// The most bytes that a record is expected to have, if it is made without being measured.
const SHORT_RECORD: u64 = 4_096;

/// The bytes of a record beside the texts in it: of its lines, its keys, its number and some quotes.
const RECORD_FRAME: u64 = 80;

/// The record of a command, if it is a single edit and the texts in it are short: it is made without being measured.
/// `None` of any other command. It fails only if memory runs out.
pub fn short_record(
    alloc: Global,
    command: &Command,
    number: u64,
) -> Result<Option<String>, AllocError>
    ensures bytes { IfOk result (λ found. IfSome found (λ text.
        string_bytes text ≡ record_bytes (command_of command.now) number)) }
    ensures kept { IfOk result (λ found. IfSome found (λ _. IsCommand (command_of command.now))) }
{
    let Some(bytes) = likely_length(command) else {
        return Ok(None);
    };
    if bytes > SHORT_RECORD {
        return Ok(None);
    }
    let text = record_of_length(alloc, command, number, bytes)?;
    Ok(Some(text))
}

/// About how many bytes the record of a single edit has. Escapes, and the spaces before lines of a value, are not
/// counted.
fn likely_length(command: &Command) -> Option<u64> {
    let (texts, value) = match command {
        Command::Import { name, tree } => (name.len(), tree.style_length()),
        Command::Set { name, path, value } => {
            (name.len().saturating_add(path.len()), value.style_length())
        }
        Command::Delete { name, path } => (name.len().saturating_add(path.len()), 0),
        Command::Batch { .. } => return None,
        Command::Noted { .. } => return None,
    };
    Some(
        value
            .saturating_add(texts as u64)
            .saturating_add(RECORD_FRAME),
    )
}

/// How many bytes the record of a command has under a number; at most the greatest `u64`. Nothing is written, the size
/// of a configuration is the one that it keeps, and it takes no memory.
pub fn record_length(command: &Command, number: u64) -> u64
    ensures { result ≡ min (byte_len (record_text (command_of command.now) number)) u64.MAX }
{
    let mut bytes = ByteCount::new();
    match write_record(command, number, &mut bytes) {
        Ok(()) => bytes.total().min(u128::from(u64::MAX)) as u64,
        Err(never) => match never {},
    }
}

/// Writes a record. It fails only if the sink does.
fn write_record<S: RecordSink>(command: &Command, number: u64, sink: &mut S) -> Result<(), S::Fault>
    ensures takes { OnOk result (S.Takes sink.old (record_text
        (command_of command.now) number) sink.new) }
    ensures kept { OnOk result (IsCommand (command_of command.now)) }
{
    sink.put_text("---\n")?;
    write_number(number, sink)?;
    write_command(command, sink)?;
    sink.put_text("...\n")
}

/// Writes the line of a number (`at`), as decimal digits in double quotes.
pub(crate) fn write_number<S: Sink>(number: u64, sink: &mut S) -> Result<(), S::Fault>
    ensures { OnOk result (S.Takes sink.old
        (key_lines 0 (codes "at") ++ value_at (text (decimal number)) 0) sink.new) }
{
    let mut digits = Buffer::new();
    sink.put_text("at: \"")?;
    sink.put_text(digits.format(number))?;
    sink.put_text("\"\n")
}

/// Writes what follows the number.
fn write_command<S: RecordSink>(command: &Command, sink: &mut S) -> Result<(), S::Fault>
    ensures takes { OnOk result (S.Takes sink.old
        (members_after (command_members (command_of command.now)) 0) sink.new) }
    ensures kept { OnOk result (IsCommand (command_of command.now)) }
{
    match command {
        Command::Import { name, tree } => write_import(name, tree, 0, sink),
        Command::Set { name, path, value } => write_set(name, path, value, 0, sink),
        Command::Delete { name, path } => write_delete(name, path, 0, sink),
        Command::Batch { edits } => write_batch(edits, sink),
        Command::Noted { edits, about } => {
            write_edits(edits, sink)?;
            write_about(about, sink)
        }
    }
}

/// Writes the edits of a command with an about.
fn write_edits<S: RecordSink>(edits: &Edits, sink: &mut S) -> Result<(), S::Fault>
    ensures takes { OnOk result (S.Takes sink.old
        (members_after (command_members (command_with edits.now)) 0) sink.new) }
    ensures kept { OnOk result (IsCommand (command_with edits.now)) }
    ensures plain { IsPlain (command_with edits.now) }
{
    match edits {
        Edits::Single(edit) => write_edit(edit, 0, sink),
        Edits::Batch(edits) => write_batch(edits, sink),
    }
}

/// Writes the key and the lines of an about.
fn write_about<S: Sink>(about: &About, sink: &mut S) -> Result<(), S::Fault>
    ensures takes { OnOk result (S.Takes sink.old
        (key_lines 0 (codes "about") ++ value_at (tree_of about.now) 0) sink.new) }
    ensures kept { IsAbout (tree_of about.now) }
{
    let tree = about.tree();
    sink.put_text("about:")?;
    write_value(tree, 0, sink)
}

/// Writes a batch: a mapping for each edit, in a sequence.
fn write_batch<S: RecordSink>(edits: &[Edit], sink: &mut S) -> Result<(), S::Fault>
    ensures takes { OnOk result (S.Takes sink.old
        (members_after (command_members (batch (map edit_of edits.now))) 0) sink.new) }
    ensures kept { OnOk result (AreEdits (map edit_of edits.now)) }
{
    if edits.is_empty() {
        return sink.put_text("batch: []\n");
    }
    sink.put_text("batch:\n")?;
    for edit in edits {
        sink.put_text("  - ")?;
        write_edit(edit, EDIT_INDENT, sink)?;
    }
    Ok(())
}

/// Writes the members of an edit at an indentation, the first without its spaces.
fn write_edit<S: RecordSink>(edit: &Edit, indent: u64, sink: &mut S) -> Result<(), S::Fault>
    requires { indent ≤ EDIT_INDENT }
    ensures takes { OnOk result (S.Takes sink.old
        (members_at (edit_members (edit_of edit.now)) indent) sink.new) }
    ensures kept { OnOk result (IsEdit (edit_of edit.now)) }
{
    match edit {
        Edit::Import { name, tree } => write_import(name, tree, indent, sink),
        Edit::Set { name, path, value } => write_set(name, path, value, indent, sink),
        Edit::Delete { name, path } => write_delete(name, path, indent, sink),
    }
}

/// Writes the members of an import.
fn write_import<S: RecordSink>(
    name: &str,
    tree: &Config,
    indent: u64,
    sink: &mut S,
) -> Result<(), S::Fault>
    requires { indent ≤ EDIT_INDENT }
    ensures takes { OnOk result (S.Takes sink.old (members_at (edit_members
        (import_as (chars name.now) (tree_of tree.now))) indent) sink.new) }
    ensures kept { OnOk result (IsKept (tree_of tree.now)) }
{
    write_text_member("import: ", name, indent, sink)?;
    write_value_member("tree:", tree, indent, sink)
}

/// Writes the members of a set.
fn write_set<S: RecordSink>(
    name: &str,
    path: &str,
    value: &Config,
    indent: u64,
    sink: &mut S,
) -> Result<(), S::Fault>
    requires { indent ≤ EDIT_INDENT }
    ensures takes { OnOk result (S.Takes sink.old (members_at (edit_members
        (set_at (chars name.now) (chars path.now) (tree_of value.now))) indent) sink.new) }
    ensures kept { OnOk result (IsText (chars path.now) × IsKept (tree_of value.now)) }
{
    write_text_member("set: ", name, indent, sink)?;
    write_margin(indent, sink)?;
    write_text_member("path: ", path, indent, sink)?;
    write_value_member("value:", value, indent, sink)
}

/// Writes the members of a delete.
fn write_delete<S: Sink>(name: &str, path: &str, indent: u64, sink: &mut S) -> Result<(), S::Fault>
    requires { indent ≤ EDIT_INDENT }
    ensures takes { OnOk result (S.Takes sink.old (members_at (edit_members
        (delete_at (chars name.now) (chars path.now))) indent) sink.new) }
    ensures kept { OnOk result (IsText (chars path.now)) }
{
    write_text_member("delete: ", name, indent, sink)?;
    write_margin(indent, sink)?;
    write_text_member("path: ", path, indent, sink)
}

/// Writes the spaces before a line. A line of a single edit has none.
fn write_margin<S: Sink>(indent: u64, sink: &mut S) -> Result<(), S::Fault>
    ensures { OnOk result (S.Takes sink.old (spaces indent) sink.new) }
{
    if indent == 0 {
        return Ok(());
    }
    sink.put_spaces(indent)
}

/// Writes a key with its `: `, as it is, and a text as its value.
fn write_text_member<S: Sink>(
    key: &str,
    text: &str,
    indent: u64,
    sink: &mut S,
) -> Result<(), S::Fault>
    requires { indent ≤ EDIT_INDENT }
    ensures { OnOk result (S.Takes sink.old
        (chars key.now ++ scalar_lines (indent + 2) (chars text.now)) sink.new) }
{
    sink.put_text(key)?;
    write_scalar(text, indent + 2, sink)
}

/// Writes the spaces before a line, a key with its `:`, as it is, and a configuration as its value.
fn write_value_member<S: RecordSink>(
    key: &str,
    value: &Config,
    indent: u64,
    sink: &mut S,
) -> Result<(), S::Fault>
    requires { indent ≤ EDIT_INDENT }
    ensures takes { OnOk result (S.Takes sink.old
        (spaces indent ++ chars key.now ++ value_at (tree_of value.now) indent) sink.new) }
    ensures kept { OnOk result (IsKept (tree_of value.now)) }
{
    write_margin(indent, sink)?;
    sink.put_text(key)?;
    sink.put_value(value, indent)
}
