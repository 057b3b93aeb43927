// The names and values of a store's file, over any reader and writer.
ghost use Rattle.std.specs.Prelude.{◌≡◌, ◌≤◌, ◌⊎◌, ◌++◌, Ok, Err, IfOk, IfErr, OnOk, map, string_bytes};
ghost use Rattle.std.specs.Prelude.{encode_utf8_all, codes};
ghost use Rattle.conf_tools.specs.Prelude.{chars, style_text, json_texts, depth, own_limits, tree_of, text_of};
ghost use Rattle.yaml_grammar.specs.Trees.{text as one_text};
ghost use Rattle.conf_store.specs.Holes.{is_several};
ghost use Rattle.conf_tools.specs.Reads.{CannotShow, FindsPresence, HidesPresence, LacksFound, LacksOne, RefusesNames, RefusesPresence, RefusesValues, ShowsAll, ShowsFound, ShowsTree, WritesNames, WritesValues, found_or, is_absent, name_lines, names_text, pointers_of, presence_of, tree_found, tree_or, tree_text, value_in, value_or_in};

use crate::reading_fault::ReadingFault;
use crate::texts::write_whole;
use conf_history::{HistoryFault, config_at, names_at};
use conf_state::{StoreFault, good_name};
use conf_store::Waiting;
use conf_words::{MissingValue, NamesForm, Place, Places, RawEnd, TreeForm, ValueForm};
use std::alloc::{AllocError, Global};
use std::io::{Read, Write};
use tree_path::{Path, PathFault, at};
use yaml_forms::{KeysFault, TextArray, json_line, keys, plain};
use yaml_tree::{Config, Sink, Text, Tree, write_style};

/// Writes the names of the configurations that a store's file holds, in order and in a form: after all its commands, or
/// after the one with the number `at`. The file is read as by [`names_at`].
///
/// # Errors
/// - `History` if [`names_at`] fails. Nothing is written.
/// - `Output` if the writer fails. Only the first of the names are written, as far as the writer took them.
pub fn write_names<R: Read, W: Write>(
    alloc: Global,
    reader: &mut R,
    waiting: Waiting,
    at: Option<u64>,
    form: NamesForm,
    writer: &mut W,
) -> Result<(), ReadingFault>
    ensures ok { OnOk result (WritesNames (is_several waiting) (R.remaining reader.old) at form
        (W.contents writer.old) (W.contents writer.new)) }
    ensures refused { IfErr result (RefusesNames (is_several waiting) (R.remaining reader.old) at form
        (W.contents writer.old) (W.contents writer.new)) }
{
    let names = match names_at(alloc, reader, waiting, at) {
        Ok(names) => names,
        Err(fault) => return Err(ReadingFault::History(fault)),
    };
    let text = match names_text(alloc, &names, form) {
        Ok(text) => text,
        Err(_) => return Err(ReadingFault::History(HistoryFault::OutOfMemory)),
    };
    match write_whole(writer, &text) {
        Ok(()) => Ok(()),
        Err(_) => Err(ReadingFault::Output),
    }
}

/// Names in a form.
fn names_text(alloc: Global, names: &[String], form: NamesForm) -> Result<Vec<u8>, AllocError>
    ensures { IfOk result (λ text. text.items ≡ names_text form (map text_of names.now)) }
{
    match form {
        NamesForm::Lines => name_lines(alloc, names),
        NamesForm::Json => Ok(name_array(alloc, names)?.into_bytes()),
    }
}

/// Names as a JSON array, with a line feed after it.
fn name_array(alloc: Global, names: &[String]) -> Result<String, AllocError>
    ensures { IfOk result (λ line. string_bytes line
        ≡ encode_utf8_all (json_texts (map text_of names.now) ++ codes "\n")) }
{
    let mut array = names_array(alloc, names)?;
    array.put_char('\n')?;
    Ok(array)
}

/// Names as a JSON array.
fn names_array(alloc: Global, names: &[String]) -> Result<String, AllocError>
    ensures { IfOk result (λ json.
        string_bytes json ≡ encode_utf8_all (json_texts (map text_of names.now))) }
{
    let mut array = TextArray::new(alloc);
    for name in names {
        array.push(name)?;
    }
    array.finish()
}

/// Names as lines.
fn name_lines(alloc: Global, names: &[String]) -> Result<Vec<u8>, AllocError>
    ensures { IfOk result (λ lines. lines.items ≡ name_lines (map text_of names.now)) }
{
    let mut lines = Vec::new(alloc);
    for name in names {
        push_name(&mut lines, name)?;
    }
    Ok(lines)
}

/// Appends a name and a line feed.
fn push_name(lines: &mut Vec<u8>, name: &str) -> Result<(), AllocError>
    ensures { OnOk result
        (lines.new.items ≡ lines.old.items ++ (encode_utf8_all (chars name.now) ++ codes "\n")) }
{
    lines.extend_from_slice(name.as_bytes())?;
    lines.extend_from_slice(b"\n")
}

/// Writes the values at places of a store's file, one after the other in the order of the pointers. The file is read
/// once, as by [`config_at`].
///
/// # Errors
/// - `History` if [`config_at`] fails.
/// - `Value` with the first of these that holds of the first place of which one does: `BadName` if the name may not be
///   used, `NoConfig` if no configuration has it, and the pointer's fault. Where `missing` gives a text, `NoConfig`,
///   `NoSuchPlace` and `NotIndex` are no faults: that text is written. Or with `OutOfMemory`.
/// - `NotText` if that value is no text, and the form is that of a text as it is; `NotCollection` if it is a text, and
///   the form is that of its keys.
/// - `Output` if the writer fails. Only the first of the values are written, as far as the writer took them.
///
/// But for `Output`, nothing is written.
pub fn write_values<R: Read, W: Write>(
    alloc: Global,
    reader: &mut R,
    waiting: Waiting,
    places: &Places<'_>,
    missing: MissingValue<'_>,
    form: ValueForm,
    writer: &mut W,
) -> Result<(), ReadingFault>
    ensures ok { OnOk result (WritesValues (is_several waiting) (R.remaining reader.old) places.now.at
        (chars places.now.name.now) (pointers_of places.now.pointers.items) missing.entry form
        (W.contents writer.old) (W.contents writer.new)) }
    ensures refused { IfErr result (RefusesValues (is_several waiting) (R.remaining reader.old)
        places.now.at (chars places.now.name.now) (pointers_of places.now.pointers.items)
        missing.entry form (W.contents writer.old) (W.contents writer.new)) }
{
    let config = match config_at(alloc, reader, waiting, places.at, places.name) {
        Ok(config) => config,
        Err(fault) => return Err(ReadingFault::History(fault)),
    };
    let found = config.as_ref();
    let text = match values_text(alloc, found, places.name, &places.pointers, missing, form) {
        Ok(text) => text,
        Err(fault) => return Err(fault),
    };
    match write_whole(writer, &text) {
        Ok(()) => Ok(()),
        Err(_) => Err(ReadingFault::Output),
    }
}

/// The texts of the values at the pointers, or of what stands for them, where `found` is the configuration under the
/// name.
fn values_text(
    alloc: Global,
    found: Option<&Config>,
    name: &str,
    pointers: &[&str],
    missing: MissingValue<'_>,
    form: ValueForm,
) -> Result<Vec<u8>, ReadingFault>
    ensures ok { IfOk result (λ text. ShowsAll (value_or_in missing.entry (tree_found found.entry)
        (chars name.now)) form (pointers_of pointers.now) text.items) }
    ensures refused { IfErr result (LacksOne (value_or_in missing.entry (tree_found found.entry)
        (chars name.now)) form (pointers_of pointers.now)) }
{
    let mut text = Vec::new(alloc);
    for pointer in pointers {
        let place = Place {
            name,
            pointer: *pointer,
            at: None,
        };
        match value_text(alloc, found, place, missing, form) {
            Ok(value) => text.extend_from_slice(value.as_bytes())?,
            Err(fault) => return Err(fault),
        }
    }
    Ok(text)
}

/// Whether something is at a place.
#[derive(Clone, Copy, Debug, PartialEq, Eq)]
pub enum Presence {
    /// A value is there.
    Present,
    /// No configuration has the name, or the pointer leads nowhere.
    Absent,
}

/// Looks whether something is at a place of a store's file. The file is read as by [`config_at`].
///
/// # Errors
/// - `History` if [`config_at`] fails.
/// - `Value` with `BadName` if the name may not be used, with `BadPath` if the pointer is none, or with `OutOfMemory`.
pub fn find_presence<R: Read>(
    alloc: Global,
    reader: &mut R,
    waiting: Waiting,
    place: Place<'_>,
) -> Result<Presence, ReadingFault>
    ensures ok { IfOk result (FindsPresence (is_several waiting) (R.remaining reader.old) place.entry.at
        (chars place.entry.name.now) (chars place.entry.pointer.now)) }
    ensures refused { IfErr result (RefusesPresence (is_several waiting) (R.remaining reader.old) place.entry.at
        (chars place.entry.name.now) (chars place.entry.pointer.now)) }
{
    let found = match config_at(alloc, reader, waiting, place.at, place.name) {
        Ok(found) => found,
        Err(fault) => return Err(ReadingFault::History(fault)),
    };
    match presence_in(alloc, found.as_ref(), place) {
        Ok(presence) => Ok(presence),
        Err(fault) => Err(ReadingFault::Value(fault)),
    }
}

/// Whether something is at a place, where `found` is the configuration under its name.
fn presence_in(
    alloc: Global,
    found: Option<&Config>,
    place: Place<'_>,
) -> Result<Presence, StoreFault>
    ensures ok { IfOk result (λ presence. presence_of (value_in (tree_found found.entry)
        (chars place.entry.name.now) (chars place.entry.pointer.now)) ≡ Ok presence) }
    ensures refused { IfErr result (HidesPresence (presence_of (value_in (tree_found found.entry)
        (chars place.entry.name.now) (chars place.entry.pointer.now)))) }
{
    match value_at(alloc, found, place) {
        Ok(_) => Ok(Presence::Present),
        Err(fault) => presence_after(fault),
    }
}

/// Whether something is at a place, where a look for it ended with a fault.
fn presence_after(fault: StoreFault) -> Result<Presence, StoreFault>
    ensures { result ≡ presence_of (Err fault) }
{
    if is_absent(fault) {
        Ok(Presence::Absent)
    } else {
        Err(fault)
    }
}

/// Whether a fault says that nothing is at a place.
fn is_absent(fault: StoreFault) -> bool
    ensures { result ≡ is_absent fault }
{
    match fault {
        StoreFault::NoConfig
        | StoreFault::Path(PathFault::NoSuchPlace { .. } | PathFault::NotIndex { .. }) => true,
        _ => false,
    }
}

/// The text of the value at a place, or of what stands for it, where `found` is the configuration under its name.
fn value_text(
    alloc: Global,
    found: Option<&Config>,
    place: Place<'_>,
    missing: MissingValue<'_>,
    form: ValueForm,
) -> Result<String, ReadingFault>
    ensures ok { IfOk result (λ text. ShowsFound (value_or_in missing.entry (tree_found found.entry)
        (chars place.entry.name.now) (chars place.entry.pointer.now)) form (string_bytes text)) }
    ensures refused { IfErr result (LacksFound (value_or_in missing.entry (tree_found found.entry)
        (chars place.entry.name.now) (chars place.entry.pointer.now)) form) }
{
    match value_at(alloc, found, place) {
        Ok(value) => shown(alloc, value, form),
        Err(fault) => missing_text(alloc, fault, missing, form),
    }
}

/// The text for a place at which a look ended with a fault: that which the words give, if nothing is there.
fn missing_text(
    alloc: Global,
    fault: StoreFault,
    missing: MissingValue<'_>,
    form: ValueForm,
) -> Result<String, ReadingFault>
    ensures ok { IfOk result (λ text.
        ShowsFound (found_or missing.entry (Err fault)) form (string_bytes text)) }
    ensures refused { IfErr result (LacksFound (found_or missing.entry (Err fault)) form) }
{
    match missing {
        MissingValue::Default(text) => default_text(alloc, fault, text, form),
        MissingValue::Refused => Err(ReadingFault::Value(fault)),
    }
}

/// A text that the words give for a place at which a look ended with a fault, if nothing is there.
fn default_text(
    alloc: Global,
    fault: StoreFault,
    text: &str,
    form: ValueForm,
) -> Result<String, ReadingFault>
    ensures ok { IfOk result (λ bytes.
        ShowsFound (found_or (MissingValue.Default text.entry) (Err fault)) form (string_bytes bytes)) }
    ensures refused { IfErr result
        (LacksFound (found_or (MissingValue.Default text.entry) (Err fault)) form) }
{
    if is_absent(fault) {
        shown_text(alloc, text, form)
    } else {
        Err(ReadingFault::Value(fault))
    }
}

/// The value at a place, where `found` is the configuration under its name.
///
/// # Errors
/// The first of these that holds: `BadName`, `NoConfig`, and the pointer's fault. `OutOfMemory` may come at any point.
fn value_at<'c>(
    alloc: Global,
    found: Option<&'c Config>,
    place: Place<'_>,
) -> Result<&'c Tree, StoreFault>
    ensures ok { IfOk result (λ value. value_in (tree_found found.entry)
        (chars place.entry.name.now) (chars place.entry.pointer.now) ≡ Ok (tree_of value.now)) }
    ensures shallow { IfOk result (λ value. depth (tree_of value.now) ≤ own_limits.depth) }
    ensures refused { IfErr result (λ fault. (fault ≡ StoreFault.OutOfMemory)
        ⊎ (value_in (tree_found found.entry)
        (chars place.entry.name.now) (chars place.entry.pointer.now) ≡ Err fault)) }
{
    let config = match config_of(found, place.name) {
        Ok(config) => config,
        Err(fault) => return Err(fault),
    };
    let path = match Path::parse(alloc, place.pointer) {
        Ok(path) => path,
        Err(PathFault::OutOfMemory) => return Err(StoreFault::OutOfMemory),
        Err(fault) => return Err(StoreFault::Path(fault)),
    };
    match at(config.tree(), &path) {
        Ok(value) => Ok(value),
        Err(fault) => Err(StoreFault::Path(fault)),
    }
}

/// The configuration that was found under a name.
///
/// # Errors
/// `BadName` if the name may not be used, and `NoConfig` if no configuration has it.
pub(crate) fn config_of<'c>(found: Option<&'c Config>, name: &str) -> Result<&'c Config, StoreFault>
    ensures ok { IfOk result (λ config.
        tree_or (tree_found found.entry) (chars name.now) ≡ Ok (tree_of config.now)) }
    ensures refused { IfErr result (λ fault.
        tree_or (tree_found found.entry) (chars name.now) ≡ Err fault) }
{
    if !good_name(name) {
        return Err(StoreFault::BadName);
    }
    match found {
        Some(config) => Ok(config),
        None => Err(StoreFault::NoConfig),
    }
}

/// A text in a form, in UTF-8.
fn shown_text(alloc: Global, text: &str, form: ValueForm) -> Result<String, ReadingFault>
    ensures ok { IfOk result (λ bytes.
        ShowsTree form (one_text (chars text.now)) (string_bytes bytes)) }
    ensures refused { IfErr result (CannotShow form (one_text (chars text.now))) }
{
    let value = Tree::Text(Text::new(alloc, text)?);
    shown(alloc, &value, form)
}

/// A value in a form, in UTF-8.
fn shown(alloc: Global, value: &Tree, form: ValueForm) -> Result<String, ReadingFault>
    requires { depth (tree_of value.now) ≤ own_limits.depth }
    ensures ok { IfOk result (λ text. ShowsTree form (tree_of value.now) (string_bytes text)) }
    ensures refused { IfErr result (CannotShow form (tree_of value.now)) }
{
    match form {
        ValueForm::Whole(form) => Ok(tree_text(alloc, value, form)?),
        ValueForm::Raw(end) => raw(alloc, value, end),
        ValueForm::Keys => key_lines(alloc, value),
    }
}

/// The keys of a mapping, or the indexes of a sequence, a line each.
///
/// # Errors
/// `NotCollection` if the value is a text, and memory that runs out.
fn key_lines(alloc: Global, value: &Tree) -> Result<String, ReadingFault>
    ensures ok { IfOk result (λ text.
        ShowsTree ValueForm.Keys (tree_of value.now) (string_bytes text)) }
    ensures refused { IfErr result (CannotShow ValueForm.Keys (tree_of value.now)) }
{
    match keys(alloc, value) {
        Ok(lines) => Ok(lines),
        Err(KeysFault::NotCollection) => Err(ReadingFault::NotCollection),
        Err(KeysFault::OutOfMemory) => Err(ReadingFault::Value(StoreFault::OutOfMemory)),
    }
}

/// A text as it is, with its end.
///
/// # Errors
/// `NotText` if the value is none, and memory that runs out.
fn raw(alloc: Global, value: &Tree, end: RawEnd) -> Result<String, ReadingFault>
    ensures ok { IfOk result (λ text.
        ShowsTree (ValueForm.Raw end) (tree_of value.now) (string_bytes text)) }
    ensures refused { IfErr result (CannotShow (ValueForm.Raw end) (tree_of value.now)) }
{
    match value {
        Tree::Text(text) => Ok(raw_text(alloc, text, end)?),
        Tree::Seq(_) => Err(ReadingFault::NotText),
        Tree::Map(_) => Err(ReadingFault::NotText),
    }
}

/// The characters of a text and its end, in UTF-8.
fn raw_text(alloc: Global, text: &str, end: RawEnd) -> Result<String, AllocError>
    ensures { IfOk result (λ bytes.
        ShowsTree (ValueForm.Raw end) (one_text (chars text.now)) (string_bytes bytes)) }
{
    match end {
        RawEnd::LineFeed => line_of(alloc, text),
        RawEnd::Nothing => bare(alloc, text),
    }
}

/// A text with a line feed after it.
fn line_of(alloc: Global, text: &str) -> Result<String, AllocError>
    ensures { IfOk result (λ line.
        string_bytes line ≡ encode_utf8_all (chars text.now ++ codes "\n")) }
{
    let mut line = String::new(alloc);
    line.put_text(text)?;
    line.put_char('\n')?;
    Ok(line)
}

/// A text alone.
fn bare(alloc: Global, text: &str) -> Result<String, AllocError>
    ensures { IfOk result (λ bytes. string_bytes bytes ≡ encode_utf8_all (chars text.now)) }
{
    let mut bytes = String::new(alloc);
    bytes.put_text(text)?;
    Ok(bytes)
}

/// A value written whole.
pub(crate) fn tree_text(alloc: Global, value: &Tree, form: TreeForm) -> Result<String, AllocError>
    requires { depth (tree_of value.now) ≤ own_limits.depth }
    ensures { IfOk result (λ text.
        string_bytes text ≡ encode_utf8_all (tree_text form (tree_of value.now))) }
{
    match form {
        TreeForm::Styled => styled(alloc, value),
        TreeForm::Json => json_line(alloc, value),
        TreeForm::Plain => plain(alloc, value),
    }
}

/// A value in the one style.
fn styled(alloc: Global, value: &Tree) -> Result<String, AllocError>
    requires { depth (tree_of value.now) ≤ own_limits.depth }
    ensures { IfOk result (λ text.
        string_bytes text ≡ encode_utf8_all (style_text (tree_of value.now))) }
{
    let mut text = String::new(alloc);
    write_style(value, &mut text)?;
    Ok(text)
}
