// The line of a command in a log.
ghost use Rattle.std.specs.Prelude.{◌≡◌, ◌++◌, [], codes, decimal, encode_utf8_all, map, string_bytes, IfOk, OnOk};
ghost use Rattle.conf_history.specs.Prelude.{chars, in_double_quotes, tree_of, command_of, command_with, edit_of};
ghost use Rattle.conf_history.specs.AboutKeys.{keys_of};
ghost use Rattle.conf_history.specs.Logs.{about_words, change_words, command_line, command_words, edit_words};
ghost use Rattle.conf_history.specs.Logs.{edits_words, labelled, value_words};

use conf_about::About;
use conf_state::{Command, Edit, Edits};
use itoa::Buffer;
use std::alloc::{AllocError, Global};
use tree_hidden::{Tokens, write_shown};
use yaml_config::Config;
use yaml_forms::write_json;
use yaml_writer::{Sink, write_quoted};

/// The keys of an about that say who made a command, when and why.
pub const USUAL_KEYS: &[&str] = &["by", "when", "why"];

/// What a line says of each edit. In each form it has the number, and what is shown of an about.
#[derive(Clone, Copy)]
pub enum LineForm<'h> {
    /// What it does, the name of the configuration, and the place in it.
    Names,
    /// The same, and then the value of an import or a set as a JSON text (RFC 8259).
    Values,
    /// The same, but what is at one of these paths of a configuration, or below it, is hidden: the word `hidden` stands
    /// for it, as [`write_shown`] writes it.
    Hiding(&'h [Tokens<'h>]),
}

/// The line of a command with a number. It shows these keys of an about.
pub(crate) fn record_line(
    alloc: Global,
    number: u64,
    command: &Command,
    form: LineForm<'_>,
    shown: &[&str],
) -> Result<String, AllocError>
    ensures { IfOk result (λ line. string_bytes line ≡ encode_utf8_all
        (command_line form.entry (keys_of shown.now) number (command_of command.now))) }
{
    let mut line = String::new(alloc);
    write_line(alloc, number, command, form, shown, &mut line)?;
    Ok(line)
}

/// Writes the line of a command with a number.
fn write_line<S: Sink<Fault = AllocError>>(
    alloc: Global,
    number: u64,
    command: &Command,
    form: LineForm<'_>,
    shown: &[&str],
    sink: &mut S,
) -> Result<(), AllocError>
    ensures { OnOk result (S.Takes sink.old
        (command_line form.entry (keys_of shown.now) number (command_of command.now))
        sink.new) }
{
    let mut digits = Buffer::new();
    sink.put_text(digits.format(number))?;
    write_command(alloc, command, form, shown, sink)?;
    sink.put_char('\n')
}

/// Writes a space and what a command changes; before it, what is shown of its about, if it has one.
fn write_command<S: Sink<Fault = AllocError>>(
    alloc: Global,
    command: &Command,
    form: LineForm<'_>,
    shown: &[&str],
    sink: &mut S,
) -> Result<(), AllocError>
    ensures { OnOk result (S.Takes sink.old
        (command_words form.entry (keys_of shown.now) (command_of command.now)) sink.new) }
{
    match command {
        Command::Import { name, tree } => write_import(alloc, name, tree, form, sink),
        Command::Set { name, path, value } => write_set(alloc, name, path, value, form, sink),
        Command::Delete { name, path } => write_delete(name, path, sink),
        Command::Batch { edits } => write_batch(alloc, edits, form, sink),
        Command::Noted { edits, about } => write_noted(alloc, edits, about, form, shown, sink),
    }
}

/// Writes what is shown of a command's about, a space and what its edits do.
fn write_noted<S: Sink<Fault = AllocError>>(
    alloc: Global,
    edits: &Edits,
    about: &About,
    form: LineForm<'_>,
    shown: &[&str],
    sink: &mut S,
) -> Result<(), AllocError>
    ensures { OnOk result (S.Takes sink.old
        (about_words (keys_of shown.now) (tree_of about.now)
        ++ change_words form.entry (command_with edits.now)) sink.new) }
{
    write_about(about, shown, sink)?;
    write_edits(alloc, edits, form, sink)
}

/// Writes the keys that are shown, each with its text, as far as an about has them.
fn write_about<S: Sink>(about: &About, shown: &[&str], sink: &mut S) -> Result<(), S::Fault>
    ensures { OnOk result (S.Takes sink.old
        (about_words (keys_of shown.now) (tree_of about.now)) sink.new) }
{
    for key in shown {
        write_labelled(key, about, sink)?;
    }
    Ok(())
}

/// Writes a key of an about, and the text under it in double quotes; nothing where it has none.
fn write_labelled<S: Sink>(key: &str, about: &About, sink: &mut S) -> Result<(), S::Fault>
    ensures { OnOk result (S.Takes sink.old (labelled (chars key.now) (tree_of about.now)) sink.new) }
{
    match about.get(key) {
        Some(text) => write_at(" ", key, text, sink),
        None => Ok(()),
    }
}

/// Writes a space and what the edits of a command do.
fn write_edits<S: Sink<Fault = AllocError>>(
    alloc: Global,
    edits: &Edits,
    form: LineForm<'_>,
    sink: &mut S,
) -> Result<(), AllocError>
    ensures { OnOk result (S.Takes sink.old
        (change_words form.entry (command_with edits.now)) sink.new) }
{
    match edits {
        Edits::Single(edit) => write_edit(alloc, edit, form, sink),
        Edits::Batch(edits) => write_batch(alloc, edits, form, sink),
    }
}

/// Writes the edits of a batch, with `;` between them.
fn write_batch<S: Sink<Fault = AllocError>>(
    alloc: Global,
    edits: &[Edit],
    form: LineForm<'_>,
    sink: &mut S,
) -> Result<(), AllocError>
    ensures { OnOk result (S.Takes sink.old
        (codes " batch" ++ edits_words form.entry [] (map edit_of edits.now)) sink.new) }
{
    sink.put_text(" batch")?;
    let mut mark = "";
    for edit in edits {
        sink.put_text(mark)?;
        write_edit(alloc, edit, form, sink)?;
        mark = ";";
    }
    Ok(())
}

/// Writes a space and what an edit does.
fn write_edit<S: Sink<Fault = AllocError>>(
    alloc: Global,
    edit: &Edit,
    form: LineForm<'_>,
    sink: &mut S,
) -> Result<(), AllocError>
    ensures { OnOk result (S.Takes sink.old (edit_words form.entry (edit_of edit.now)) sink.new) }
{
    match edit {
        Edit::Import { name, tree } => write_import(alloc, name, tree, form, sink),
        Edit::Set { name, path, value } => write_set(alloc, name, path, value, form, sink),
        Edit::Delete { name, path } => write_delete(name, path, sink),
    }
}

/// Writes an import of a configuration.
fn write_import<S: Sink<Fault = AllocError>>(
    alloc: Global,
    name: &str,
    tree: &Config,
    form: LineForm<'_>,
    sink: &mut S,
) -> Result<(), AllocError>
    ensures { OnOk result (S.Takes sink.old
        (codes " import " ++ chars name.now ++ value_words form.entry [] (tree_of tree.now)) sink.new) }
{
    sink.put_text(" import ")?;
    sink.put_text(name)?;
    write_value(alloc, "", tree, form, sink)
}

/// Writes a set at a pointer.
fn write_set<S: Sink<Fault = AllocError>>(
    alloc: Global,
    name: &str,
    path: &str,
    value: &Config,
    form: LineForm<'_>,
    sink: &mut S,
) -> Result<(), AllocError>
    ensures { OnOk result (S.Takes sink.old
        (codes " set " ++ chars name.now ++ codes " " ++ in_double_quotes (chars path.now)
        ++ value_words form.entry (chars path.now) (tree_of value.now)) sink.new) }
{
    write_at(" set ", name, path, sink)?;
    write_value(alloc, path, value, form, sink)
}

/// Writes a delete at a pointer.
fn write_delete<S: Sink>(name: &str, path: &str, sink: &mut S) -> Result<(), S::Fault>
    ensures { OnOk result (S.Takes sink.old
        (codes " delete " ++ chars name.now ++ codes " " ++ in_double_quotes (chars path.now))
        sink.new) }
{
    write_at(" delete ", name, path, sink)
}

/// Writes a word, a name, and a text in double quotes as the one style writes it there: a pointer into the
/// configuration with the name, or what an about has under the key.
fn write_at<S: Sink>(word: &str, name: &str, path: &str, sink: &mut S) -> Result<(), S::Fault>
    ensures { OnOk result (S.Takes sink.old
        (chars word.now ++ chars name.now ++ codes " " ++ in_double_quotes (chars path.now))
        sink.new) }
{
    sink.put_text(word)?;
    sink.put_text(name)?;
    sink.put_char(' ')?;
    write_quoted(path, sink)
}

/// Writes a space and the JSON text of a value, where the line shows it. The pointer leads to where the value is put.
fn write_value<S: Sink<Fault = AllocError>>(
    alloc: Global,
    pointer: &str,
    value: &Config,
    form: LineForm<'_>,
    sink: &mut S,
) -> Result<(), AllocError>
    ensures { OnOk result (S.Takes sink.old
        (value_words form.entry (chars pointer.now) (tree_of value.now)) sink.new) }
{
    match form {
        LineForm::Names => Ok(()),
        LineForm::Values => {
            sink.put_char(' ')?;
            write_json(value.tree(), sink)
        }
        LineForm::Hiding(paths) => {
            sink.put_char(' ')?;
            write_shown(alloc, pointer, value.tree(), paths, sink)
        }
    }
}
