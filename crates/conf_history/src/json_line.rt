// A command in a log as a JSON object.
ghost use Rattle.std.specs.Prelude.{◌≡◌, ◌++◌, [], codes, decimal, encode_utf8_all, map, string_bytes, IfOk, OnOk};
ghost use Rattle.conf_history.specs.Prelude.{chars, command_of, command_with, delete_at, edit_of, import_as, set_at};
ghost use Rattle.conf_history.specs.Prelude.{text_under, tree_of};
ghost use Rattle.conf_history.specs.AboutKeys.{keys_of};
ghost use Rattle.conf_history.specs.JsonLogs.{about_json, command_json, command_json_line, edit_json, edits_in};
ghost use Rattle.conf_history.specs.JsonLogs.{edits_json, note_json, text_json, texts_json};
ghost use Rattle.yaml_forms.specs.Json.{json_member, json_string};

use crate::line::USUAL_KEYS;
use conf_about::About;
use conf_state::{Command, Edit, Edits};
use itoa::Buffer;
use std::alloc::{AllocError, Global};
use yaml_config::Config;
use yaml_forms::{write_json, write_json_string};
use yaml_writer::Sink;

/// The object of a command with a number, and a line feed.
pub(crate) fn json_line(alloc: Global, number: u64, command: &Command) -> Result<String, AllocError>
    ensures { IfOk result (λ line. string_bytes line
        ≡ encode_utf8_all (command_json_line number (command_of command.now))) }
{
    let mut line = String::new(alloc);
    write_command(number, command, &mut line)?;
    line.put_char('\n')?;
    Ok(line)
}

/// Writes the object of a command with a number.
fn write_command<S: Sink>(number: u64, command: &Command, sink: &mut S) -> Result<(), S::Fault>
    ensures { OnOk result (S.Takes sink.old
        (command_json number (command_of command.now)) sink.new) }
{
    write_number(number, sink)?;
    write_note(command, sink)?;
    sink.put_text(",\"edits\":[")?;
    write_changes(command, sink)?;
    sink.put_text("]}")
}

/// Writes the start of an object and its first member, the number of a command as a string.
fn write_number<S: Sink>(number: u64, sink: &mut S) -> Result<(), S::Fault>
    ensures { OnOk result (S.Takes sink.old
        (codes "{\"at\":" ++ json_string (decimal number)) sink.new) }
{
    let mut digits = Buffer::new();
    sink.put_text("{\"at\":")?;
    write_json_string(digits.format(number), sink)
}

/// Writes the members that an about adds to the object of a command; nothing where it has none.
fn write_note<S: Sink>(command: &Command, sink: &mut S) -> Result<(), S::Fault>
    ensures { OnOk result (S.Takes sink.old (note_json (command_of command.now)) sink.new) }
{
    match command {
        Command::Noted { about, .. } => write_about(about, sink),
        Command::Import { .. } => Ok(()),
        Command::Set { .. } => Ok(()),
        Command::Delete { .. } => Ok(()),
        Command::Batch { .. } => Ok(()),
    }
}

/// Writes who, when and why, as far as an about says so, and then the whole about.
fn write_about<S: Sink>(about: &About, sink: &mut S) -> Result<(), S::Fault>
    ensures { OnOk result (S.Takes sink.old (about_json (tree_of about.now)) sink.new) }
{
    write_texts(about, USUAL_KEYS, sink)?;
    sink.put_text(",\"about\":")?;
    write_json(about.tree(), sink)
}

/// Writes a member for each of these keys, with its text, as far as an about has them.
fn write_texts<S: Sink>(about: &About, keys: &[&str], sink: &mut S) -> Result<(), S::Fault>
    ensures { OnOk result (S.Takes sink.old
        (texts_json (keys_of keys.now) (tree_of about.now)) sink.new) }
{
    for key in keys {
        write_text(key, about, sink)?;
    }
    Ok(())
}

/// Writes a member for a key with the text that an about has under it; nothing where it has none.
fn write_text<S: Sink>(key: &str, about: &About, sink: &mut S) -> Result<(), S::Fault>
    ensures { OnOk result (S.Takes sink.old
        (text_json (chars key.now) (text_under (tree_of about.now) (chars key.now))) sink.new) }
{
    match about.get(key) {
        Some(text) => write_member(key, text, sink),
        None => Ok(()),
    }
}

/// Writes a comma, a key, a colon and a text.
fn write_member<S: Sink>(key: &str, text: &str, sink: &mut S) -> Result<(), S::Fault>
    ensures { OnOk result (S.Takes sink.old
        (codes "," ++ json_member (chars key.now) (json_string (chars text.now))) sink.new) }
{
    sink.put_char(',')?;
    write_json_string(key, sink)?;
    sink.put_char(':')?;
    write_json_string(text, sink)
}

/// Writes the edits of a command, with a comma between two.
fn write_changes<S: Sink>(command: &Command, sink: &mut S) -> Result<(), S::Fault>
    ensures { OnOk result (S.Takes sink.old
        (edits_json [] (edits_in (command_of command.now))) sink.new) }
{
    match command {
        Command::Import { name, tree } => write_import(name, tree, sink),
        Command::Set { name, path, value } => write_set(name, path, value, sink),
        Command::Delete { name, path } => write_delete(name, path, sink),
        Command::Batch { edits } => write_batch(edits, sink),
        Command::Noted { edits, .. } => write_edits(edits, sink),
    }
}

/// Writes the edits of a command with an about, with a comma between two.
fn write_edits<S: Sink>(edits: &Edits, sink: &mut S) -> Result<(), S::Fault>
    ensures { OnOk result (S.Takes sink.old
        (edits_json [] (edits_in (command_with edits.now))) sink.new) }
{
    match edits {
        Edits::Single(edit) => write_edit(edit, sink),
        Edits::Batch(edits) => write_batch(edits, sink),
    }
}

/// Writes the edits of a batch, with a comma between two.
fn write_batch<S: Sink>(edits: &[Edit], sink: &mut S) -> Result<(), S::Fault>
    ensures { OnOk result (S.Takes sink.old (edits_json [] (map edit_of edits.now)) sink.new) }
{
    let mut lead = "";
    for edit in edits {
        sink.put_text(lead)?;
        write_edit(edit, sink)?;
        lead = ",";
    }
    Ok(())
}

/// Writes an edit.
fn write_edit<S: Sink>(edit: &Edit, sink: &mut S) -> Result<(), S::Fault>
    ensures { OnOk result (S.Takes sink.old (edit_json (edit_of edit.now)) sink.new) }
{
    match edit {
        Edit::Import { name, tree } => write_import(name, tree, sink),
        Edit::Set { name, path, value } => write_set(name, path, value, sink),
        Edit::Delete { name, path } => write_delete(name, path, sink),
    }
}

/// Writes an import of a configuration.
fn write_import<S: Sink>(name: &str, tree: &Config, sink: &mut S) -> Result<(), S::Fault>
    ensures { OnOk result (S.Takes sink.old
        (edit_json (import_as (chars name.now) (tree_of tree.now))) sink.new) }
{
    sink.put_text("{\"import\":")?;
    write_json_string(name, sink)?;
    sink.put_text(",\"tree\":")?;
    write_json(tree.tree(), sink)?;
    sink.put_char('}')
}

/// Writes a set at a pointer.
fn write_set<S: Sink>(name: &str, path: &str, value: &Config, sink: &mut S) -> Result<(), S::Fault>
    ensures { OnOk result (S.Takes sink.old
        (edit_json (set_at (chars name.now) (chars path.now) (tree_of value.now))) sink.new) }
{
    write_place("{\"set\":", name, path, sink)?;
    sink.put_text(",\"value\":")?;
    write_json(value.tree(), sink)?;
    sink.put_char('}')
}

/// Writes a delete at a pointer.
fn write_delete<S: Sink>(name: &str, path: &str, sink: &mut S) -> Result<(), S::Fault>
    ensures { OnOk result (S.Takes sink.old
        (edit_json (delete_at (chars name.now) (chars path.now))) sink.new) }
{
    write_place("{\"delete\":", name, path, sink)?;
    sink.put_char('}')
}

/// Writes the start of an edit, the name of a configuration, and a pointer into it.
fn write_place<S: Sink>(start: &str, name: &str, path: &str, sink: &mut S) -> Result<(), S::Fault>
    ensures { OnOk result (S.Takes sink.old
        (chars start.now ++ json_string (chars name.now) ++ codes ",\"path\":"
        ++ json_string (chars path.now)) sink.new) }
{
    sink.put_text(start)?;
    write_json_string(name, sink)?;
    sink.put_text(",\"path\":")?;
    write_json_string(path, sink)
}
