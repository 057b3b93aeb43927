// The words of the program that change a store.
ghost use Rattle.std.specs.Prelude.{◌≡◌, ◌≤◌, [], true, false, IfOk, IfErr, Err, OnErr, OnOk, length};
ghost use Rattle.conf_tools.specs.Prelude.{IsUtf8, chars, config_limits, tree_of, conditions_of};
ghost use Rattle.yaml_grammar.specs.Trees.{text as one_text};
ghost use Rattle.conf_tools.specs.Dropped.{TellsDropped};
ghost use Rattle.conf_tools.specs.Endings.{ending_at_end, ending_of_import};
ghost use Rattle.conf_tools.specs.Exports.{disk_handed_back};
ghost use Rattle.conf_tools.specs.Losses.{ImportTells, SetTells, TellsDash, TellsLossIfAsked};
ghost use Rattle.conf_tools.specs.Outcomes.{LeavesImport, LeavesSet, TellsOnlyTold};
ghost use Rattle.conf_tools.specs.Performs.{Alters, ChangesIf, ImportsBytes, ImportsRead, Sets, access_of};
ghost use Rattle.conf_tools.specs.StoreWords.{ChangesInFolder, Inits, MakesInFolder};
ghost use Rattle.conf_tools.specs.Refused.{TellsFault};
ghost use Rattle.conf_tools.specs.Styles.{TellsLeftOut, TellsOfValue};
ghost use Rattle.conf_tools.specs.TextWords.{IsAlteration, IsCollection, IsImport, IsNoText, IsOneValue, IsSet, RefusesText, SetsAt, SetsBytes, SetsMeant, SetsPlain, SetsRead, SetsText, SetsWord};
ghost use Rattle.conf_tools.specs.declared.outcome.Ending.TheVariants.{Of};

use crate::asking::conditions_at;
use crate::changes::{Action, Change, change_store, make_store};
use crate::edits::{TreeEdit, placed};
use crate::file_words::{read_named, tell_cause, tell_cause_of};
use crate::listener::Listener;
use crate::outcome::{Ending, Outcome};
use crate::reporter::{Origin, Reporter};
use crate::stores::StoreToolFault;
use crate::styles::tell_left_out;
use crate::texts::{MOST_INPUT, ToolFault, read_text};
use crate::world::{Access, World};
use conf_about::About;
use conf_conditions::Condition;
use conf_state::{Command, StoreFault};
use conf_words::{
    Alteration, Import, MissingStore, Put, Reporting, Root, STANDARD_INPUT, Target, Value,
};
use std::alloc::{AllocError, Global};
use std::io::Read;
use yaml_tree::{Config, Limits, ReadFault, Text, Tree, read_one};

/// What a refused YAML text is named by that the words give as a value.
const VALUE: &str = "VALUE";

/// What is told of a value that is [`STANDARD_INPUT`] itself.
const DASH_LINE: &str =
    "confstore: the value is the text \"-\"; --file - takes what standard input has\n";

/// What the bytes of a value are.
#[derive(Clone, Copy)]
pub(crate) enum Meaning {
    /// The text itself, in UTF-8.
    Text,
    /// A YAML text.
    Yaml,
}

/// Where the bytes of a value come from, and what they are.
#[derive(Clone, Copy)]
struct Source<'w> {
    /// The file that they were read of, `-` for standard input.
    file: &'w str,
    /// What is named where they were not read.
    unread: Origin<'w>,
    /// What they are.
    meaning: Meaning,
}

/// The pointer to a whole configuration.
pub(crate) const WHOLE: &str = "";

/// Makes a folder, if it is missing, and an empty store in it.
pub(crate) fn init_folder<A: World, E: Listener>(
    world: &mut A,
    alloc: Global,
    folder: &str,
    errors: &mut E,
) -> Outcome<'static>
    ensures makes { Inits A.model A.Disk.model folder.now world.old world.new (Of result) }
    ensures told { TellsDropped E.hears errors.old errors.new }
{
    match world.make_folder(alloc, folder) {
        Ok(()) => make_in_folder(world, alloc, folder, errors),
        Err(fault) => Outcome::Store(StoreToolFault::Folder(fault)),
    }
}

/// Makes an empty store in a folder.
fn make_in_folder<A: World, E: Listener>(
    world: &mut A,
    alloc: Global,
    folder: &str,
    errors: &mut E,
) -> Outcome<'static>
    ensures makes { MakesInFolder A.model A.Disk.model folder.now world.old world.new
        (Of result) }
    ensures told { TellsDropped E.hears errors.old errors.new }
{
    match world.open(alloc, Access::New, folder) {
        Ok(disk) => {
            let ended = make_store(alloc, disk, errors);
            end_change(world, ended)
        }
        Err(fault) => Outcome::Store(StoreToolFault::Folder(fault)),
    }
}

/// Imports the text of a file, or of `input` for `-`, under a name. Why it was not read or is refused is written.
pub(crate) fn import_text<A: World, E: Listener>(
    world: &mut A,
    reporter: Reporter,
    asked: Import<'_>,
    about: Option<About>,
    read: Result<Vec<u8>, ToolFault>,
    errors: &mut E,
) -> Ending<'static>
    ensures imports { ImportsRead A.model A.Disk.model asked.entry.conditions about asked.entry.root
        (access_of asked.entry.missing) asked.entry.folder.now asked.entry.name.now read world.old world.new
        result }
    ensures leaves { LeavesImport E.hears errors.old result errors.new }
{
    match read {
        Ok(text) => import_bytes(world, reporter, asked, about, &text, errors),
        Err(fault) => {
            reporter.tell_fault(errors, Origin::Named(asked.file), b"", fault);
            tell_cause(world, reporter.alloc, asked.file, errors);
            Ending::ToldFault(fault)
        }
    }
}

/// Imports a text under a name. Why it is refused is written.
fn import_bytes<A: World, E: Listener>(
    world: &mut A,
    reporter: Reporter,
    asked: Import<'_>,
    about: Option<About>,
    text: &[u8],
    errors: &mut E,
) -> Ending<'static>
    ensures imports { ImportsBytes A.model A.Disk.model asked.entry.conditions about asked.entry.root
        (access_of asked.entry.missing) asked.entry.folder.now asked.entry.name.now text.now world.old world.new
        result }
    ensures leaves { LeavesImport E.hears errors.old result errors.new }
{
    let place = Target {
        folder: asked.folder,
        name: asked.name,
        pointer: WHOLE,
        conditions: asked.conditions,
    };
    let access = access_of(asked.missing);
    match import_of(reporter.alloc, asked.root, asked.name, text) {
        Ok(action) => {
            let change = Change::Act { action, about };
            let ended = change_if(world, reporter.alloc, access, place, change, errors);
            tell_import(reporter, errors, asked.file, text, ended)
        }
        Err(fault) => {
            reporter.tell_fault(errors, Origin::Named(asked.file), text, fault);
            Ending::ToldFault(fault)
        }
    }
}

/// For what the folder of an import is opened.
fn access_of(missing: MissingStore) -> Access
    ensures { result ≡ access_of missing }
{
    match missing {
        MissingStore::Refused => Access::Changing,
        MissingStore::Made => Access::Making,
    }
}

/// The action that imports a text under a name, if it may be imported.
///
/// # Errors
/// `OneValue` if the text is one value alone, and a mapping or a list is wanted. It fails also if memory runs out.
fn import_of<'t>(
    alloc: Global,
    root: Root,
    name: &str,
    text: &'t [u8],
) -> Result<Action<'t>, ToolFault>
    ensures { IsImport root name.now text.now result }
{
    match root {
        Root::Any => Ok(Action::Import {
            name: String::from_str(alloc, name)?,
            text,
        }),
        Root::Collection => import_collection(alloc, name, text),
    }
}

/// The action that imports the mapping or the list that a text gives. A text that gives no tree is left to the store to
/// refuse, once it is open and what is wanted holds.
///
/// # Errors
/// `OneValue` if the text is one value alone. It fails also if memory runs out.
fn import_collection<'t>(alloc: Global, name: &str, text: &'t [u8]) -> Result<Action<'t>, ToolFault>
    ensures { IsImport Root.Collection name.now text.now result }
{
    let tree = match read_one(alloc, text, &Limits::CONFIGURATION) {
        Ok(tree) => tree,
        Err(ReadFault::OutOfMemory) => return Err(ToolFault::Read(ReadFault::OutOfMemory)),
        Err(_) => {
            return Ok(Action::Import {
                name: String::from_str(alloc, name)?,
                text,
            });
        }
    };
    if is_one_value(tree.tree()) {
        return Err(ToolFault::OneValue);
    }
    Ok(Action::Perform(Command::Import {
        name: String::from_str(alloc, name)?,
        tree,
    }))
}

/// Whether a tree is a text, and so neither a mapping nor a list.
fn is_one_value(tree: &Tree) -> bool
    ensures one { result ≡ true → IsOneValue (tree_of tree.now) }
    ensures more { result ≡ false → IsCollection (tree_of tree.now) }
{
    match tree {
        Tree::Text(_) => true,
        Tree::Seq(_) | Tree::Map(_) => false,
    }
}

/// Writes why a text is refused, if an import of it ended so, under the name of its file. If it was done, and reports
/// explain, how many comments were left out is told.
fn tell_import<E: Listener>(
    reporter: Reporter,
    errors: &mut E,
    file: &str,
    text: &[u8],
    ended: Outcome<'static>,
) -> Ending<'static>
    ensures ends { result ≡ ending_of_import (Of ended.entry) }
    ensures tells { TellsOnlyTold E.hears result errors.old errors.new }
    ensures loss { ImportTells E.hears reporter.reporting ended.entry text.now errors.old errors.new }
{
    match ended {
        Outcome::Done => {
            tell_loss(reporter, errors, text);
            Ending::Of(Outcome::Done)
        }
        Outcome::Store(StoreToolFault::Refused(StoreFault::Read(fault))) => {
            reporter.tell_fault(errors, Origin::Named(file), text, ToolFault::Read(fault));
            Ending::ToldFault(ToolFault::Read(fault))
        }
        ended => Ending::Of(ended),
    }
}

/// Tells how many comments a text has, which are left out of its tree, if reports explain.
fn tell_loss<E: Listener>(reporter: Reporter, errors: &mut E, text: &[u8])
    ensures { TellsLossIfAsked E.hears reporter.reporting text.now errors.old errors.new }
{
    match reporter.reporting {
        Reporting::Brief => {}
        Reporting::Explained => tell_left_out(reporter.alloc, errors, text),
    }
}

/// Sets a value, which may be given by a file or by `input`, at a place of the store in a folder. Why a text was not
/// read or is refused is written.
pub(crate) fn set_at<A: World, R: Read, E: Listener>(
    world: &mut A,
    reporter: Reporter,
    target: Target<'_>,
    put: Put<'_>,
    about: Option<About>,
    input: &mut R,
    errors: &mut E,
) -> Ending<'static>
    ensures sets { Sets A.model A.Disk.model A.File.remaining about target.entry put.entry
        world.old world.new (R.remaining input.old) (R.remaining input.new) result }
    ensures leaves { LeavesSet E.hears errors.old result errors.new }
{
    match set_of(world, reporter, target, put.value, input, errors) {
        Ok(set) => {
            let action = placed(put.placing, set);
            let (access, change) = (Access::Changing, Change::Act { action, about });
            Ending::Of(change_if(world, reporter.alloc, access, target, change, errors))
        }
        Err(fault) => Ending::ToldFault(fault),
    }
}

/// The action that sets a value, which may be given by a file or by `input`, at a place of a configuration. If there is
/// none, why is written. If reports explain, how many comments of a YAML text were left out is told, and that a
/// text is `-` itself.
///
/// # Errors
/// `Input` if the value can't be read, `Read` if it is refused, and memory that runs out.
fn set_of<A: World, R: Read, E: Listener>(
    world: &mut A,
    reporter: Reporter,
    place: Target<'_>,
    value: Value<'_>,
    input: &mut R,
    errors: &mut E,
) -> Result<Action<'static>, ToolFault>
    ensures sets { IsSet A.model A.File.remaining place.entry.name.now place.entry.pointer.now value.entry result
        world.old world.new (R.remaining input.old) (R.remaining input.new) }
    ensures told { OnOk result (TellsOfValue E.hears errors.old errors.new) }
    ensures refused { IfErr result (TellsFault E.hears errors.old) }
{
    match value {
        Value::Text(text) => {
            let action = set_text(reporter.alloc, place.name, place.pointer, text);
            reporter.tell(errors, Origin::Input, b"", &action);
            tell_dash_of(reporter, errors, text, &action);
            action
        }
        Value::Yaml(word) => set_word(reporter, place, word, input, errors),
        Value::File(file) => {
            let read = read_named(world, reporter.alloc, file, input);
            let source = Source {
                file,
                unread: Origin::Named(file),
                meaning: Meaning::Text,
            };
            let action = set_read(reporter, place, source, read, errors);
            tell_cause_of(world, reporter.alloc, file, &action, errors);
            action
        }
    }
}

/// Tells that a text that is set is the word for standard input itself, if it is and reports explain.
fn tell_dash_of<E: Listener>(
    reporter: Reporter,
    errors: &mut E,
    text: &str,
    action: &Result<Action<'static>, ToolFault>,
)
    ensures told { OnOk action.now (TellsDash E.hears reporter.reporting text.now errors.old errors.new) }
    ensures same { OnErr action.now (errors.new ≡ errors.old) }
{
    match (action, reporter.reporting) {
        (Ok(_), Reporting::Explained) => tell_dash(errors, text),
        _ => {}
    }
}

/// Tells that a text is the word for standard input itself, if it is.
fn tell_dash<E: Listener>(errors: &mut E, text: &str)
    ensures { TellsDash E.hears Reporting.Explained text.now errors.old errors.new }
{
    if text == STANDARD_INPUT {
        errors.tell(DASH_LINE);
    }
}

/// The action that sets what the bytes of a source are, if they were read.
fn set_read<E: Listener>(
    reporter: Reporter,
    place: Target<'_>,
    source: Source<'_>,
    read: Result<Vec<u8>, ToolFault>,
    errors: &mut E,
) -> Result<Action<'static>, ToolFault>
    ensures sets { SetsRead source.entry.meaning place.entry.name.now place.entry.pointer.now read result }
    ensures told { OnOk result (TellsLeftOut E.hears errors.old errors.new) }
    ensures refused { IfErr result (TellsFault E.hears errors.old) }
{
    match read {
        Ok(bytes) => {
            let action = set_bytes(
                reporter.alloc,
                place.name,
                place.pointer,
                source.meaning,
                &bytes,
            );
            reporter.tell(errors, Origin::Named(source.file), &bytes, &action);
            tell_loss_of(reporter, errors, source.meaning, &bytes, &action);
            action
        }
        Err(fault) => {
            reporter.tell_fault(errors, source.unread, b"", fault);
            Err(fault)
        }
    }
}

/// Tells how many comments were left out of the bytes that an action sets, if they are a YAML text and reports explain.
fn tell_loss_of<E: Listener>(
    reporter: Reporter,
    errors: &mut E,
    meaning: Meaning,
    bytes: &[u8],
    action: &Result<Action<'static>, ToolFault>,
)
    ensures { SetTells E.hears reporter.reporting meaning action.now bytes.now errors.old errors.new }
{
    match action {
        Ok(_) => match meaning {
            Meaning::Text => {}
            Meaning::Yaml => tell_loss(reporter, errors, bytes),
        },
        Err(_) => {}
    }
}

/// The action that sets what these bytes are.
fn set_bytes(
    alloc: Global,
    name: &str,
    pointer: &str,
    meaning: Meaning,
    bytes: &[u8],
) -> Result<Action<'static>, ToolFault>
    ensures { SetsMeant meaning name.now pointer.now bytes.now result }
{
    match meaning {
        Meaning::Text => set_plain(alloc, name, pointer, bytes),
        Meaning::Yaml => set_yaml(alloc, name, pointer, bytes),
    }
}

/// The action that sets the text that these bytes are.
fn set_plain(
    alloc: Global,
    name: &str,
    pointer: &str,
    bytes: &[u8],
) -> Result<Action<'static>, ToolFault>
    ensures { SetsPlain name.now pointer.now bytes.now result }
{
    match plain_text(bytes) {
        Ok(text) => set_text(alloc, name, pointer, text),
        Err(fault) => Err(fault),
    }
}

/// The text that these bytes are.
///
/// # Errors
/// `Read` with `TooLong` if there are more than 4,194,304, and with `NotUtf8` if they are not UTF-8.
fn plain_text(bytes: &[u8]) -> Result<&str, ToolFault>
    ensures ok { IfOk result (λ text. (text.now ≡ bytes.now) × IsUtf8 bytes.now
        × (length bytes.now ≤ config_limits.bytes)) }
    ensures refused { IfErr result (IsNoText bytes.now) }
{
    if bytes.len() >= MOST_INPUT {
        return Err(ToolFault::Read(ReadFault::TooLong));
    }
    match str::from_utf8(bytes) {
        Ok(text) => Ok(text),
        Err(error) => Err(ToolFault::Read(ReadFault::NotUtf8 {
            at: error.valid_up_to(),
        })),
    }
}

/// The action that sets what a word gives as a YAML text, or `input` if the word is `-`.
fn set_word<R: Read, E: Listener>(
    reporter: Reporter,
    place: Target<'_>,
    word: &str,
    input: &mut R,
    errors: &mut E,
) -> Result<Action<'static>, ToolFault>
    ensures sets { SetsWord place.entry.name.now place.entry.pointer.now word.now result
        (R.remaining input.old) (R.remaining input.new) }
    ensures told { OnOk result (TellsLeftOut E.hears errors.old errors.new) }
    ensures refused { IfErr result (TellsFault E.hears errors.old) }
{
    if word == STANDARD_INPUT {
        let read = read_text(reporter.alloc, input);
        let source = Source {
            file: STANDARD_INPUT,
            unread: Origin::Input,
            meaning: Meaning::Yaml,
        };
        return set_read(reporter, place, source, read, errors);
    }
    let action = set_yaml(reporter.alloc, place.name, place.pointer, word.as_bytes());
    reporter.tell(errors, Origin::Named(VALUE), word.as_bytes(), &action);
    tell_loss_of(reporter, errors, Meaning::Yaml, word.as_bytes(), &action);
    action
}

/// The action that sets a text at a place of a configuration.
fn set_text(
    alloc: Global,
    name: &str,
    pointer: &str,
    text: &str,
) -> Result<Action<'static>, ToolFault>
    ensures { SetsText name.now pointer.now (chars text.now) result }
{
    let value = text_value(alloc, text)?;
    Ok(set_command(alloc, name, pointer, value)?)
}

/// The action that sets what the bytes of a YAML text give.
fn set_yaml(
    alloc: Global,
    name: &str,
    pointer: &str,
    bytes: &[u8],
) -> Result<Action<'static>, ToolFault>
    ensures { SetsBytes name.now pointer.now bytes.now result }
{
    let value = match read_one(alloc, bytes, &Limits::CONFIGURATION) {
        Ok(value) => value,
        Err(fault) => return Err(ToolFault::Read(fault)),
    };
    Ok(set_command(alloc, name, pointer, value)?)
}

/// The action that sets a value at a place of a configuration. It fails only if memory runs out.
fn set_command(
    alloc: Global,
    name: &str,
    pointer: &str,
    value: Config,
) -> Result<Action<'static>, AllocError>
    ensures { IfOk result (SetsAt name.now pointer.now (tree_of value)) }
{
    Ok(Action::Perform(Command::Set {
        name: String::from_str(alloc, name)?,
        path: String::from_str(alloc, pointer)?,
        value,
    }))
}

/// Changes what is at a place of the store in a folder, without a text.
pub(crate) fn alter<A: World, E: Listener>(
    world: &mut A,
    alloc: Global,
    target: Target<'_>,
    alteration: Alteration<'_>,
    about: Option<About>,
    errors: &mut E,
) -> Outcome<'static>
    ensures makes { Alters A.model A.Disk.model about target.entry alteration.entry world.old world.new (Of result) }
    ensures told { TellsDropped E.hears errors.old errors.new }
{
    match alteration_of(alloc, target.name, target.pointer, alteration) {
        Ok(action) => {
            let change = Change::Act { action, about };
            change_if(world, alloc, Access::Changing, target, change, errors)
        }
        Err(fault) => Outcome::Text(fault),
    }
}

/// The action that alters what is at a place of a configuration so. It fails only if memory runs out.
fn alteration_of(
    alloc: Global,
    name: &str,
    pointer: &str,
    alteration: Alteration<'_>,
) -> Result<Action<'static>, ToolFault>
    ensures { IsAlteration alteration.entry name.now pointer.now result }
{
    match alteration {
        Alteration::Delete => Ok(Action::Perform(Command::Delete {
            name: String::from_str(alloc, name)?,
            path: String::from_str(alloc, pointer)?,
        })),
        Alteration::Copy { from } => Ok(Action::Copy {
            name: String::from_str(alloc, from)?,
            to: String::from_str(alloc, name)?,
        }),
        Alteration::Rename { from } => Ok(Action::Rename {
            name: String::from_str(alloc, from)?,
            to: String::from_str(alloc, name)?,
        }),
        Alteration::Move { from } => Ok(Action::Edit {
            name: String::from_str(alloc, name)?,
            edit: TreeEdit::Move {
                from: String::from_str(alloc, from)?,
                to: String::from_str(alloc, pointer)?,
            },
        }),
    }
}

/// Makes a change at a place of the store in a folder that is opened so, if what is wanted of the place holds.
pub(crate) fn change_if<A: World, E: Listener>(
    world: &mut A,
    alloc: Global,
    access: Access,
    place: Target<'_>,
    change: Change<'_>,
    errors: &mut E,
) -> Outcome<'static>
    ensures makes { ChangesIf A.model A.Disk.model place.entry.conditions access
        place.entry.folder.now place.entry.name.now place.entry.pointer.now change.entry
        world.old world.new (Of result) }
    ensures told { TellsDropped E.hears errors.old errors.new }
{
    match conditions_at(alloc, place.name, place.pointer, place.conditions) {
        Ok(conditions) => {
            let folder = place.folder;
            change_in_folder(world, alloc, access, folder, &conditions, change, errors)
        }
        Err(fault) => Outcome::Text(fault),
    }
}

/// Makes a change of the store in a folder that is opened so, if the conditions hold.
pub(crate) fn change_in_folder<A: World, E: Listener>(
    world: &mut A,
    alloc: Global,
    access: Access,
    folder: &str,
    conditions: &[Condition],
    change: Change<'_>,
    errors: &mut E,
) -> Outcome<'static>
    ensures makes { ChangesInFolder A.model A.Disk.model access folder.now (conditions_of conditions.now)
        change.entry world.old world.new (Of result) }
    ensures told { TellsDropped E.hears errors.old errors.new }
{
    match world.open(alloc, access, folder) {
        Ok(disk) => {
            let ended = change_store(alloc, disk, conditions, change, errors);
            end_change(world, ended)
        }
        Err(fault) => Outcome::Store(StoreToolFault::Folder(fault)),
    }
}

/// Gives the disk back.
fn end_change<A: World>(
    world: &mut A,
    ended: Result<A::Disk, (A::Disk, StoreToolFault)>,
) -> Outcome<'static>
    ensures back { A.model.given_back (disk_handed_back ended) world.old world.new }
    ensures ends { Of result ≡ ending_at_end ended }
{
    match ended {
        Ok(disk) => {
            world.give_back(disk);
            Outcome::Done
        }
        Err((disk, fault)) => {
            world.give_back(disk);
            Outcome::Store(fault)
        }
    }
}

/// A text as a value.
pub(crate) fn text_value(alloc: Global, text: &str) -> Result<Config, ToolFault>
    ensures ok { IfOk result (λ config. tree_of config ≡ one_text (chars text.now)) }
    ensures refused { IfErr result (RefusesText (chars text.now)) }
{
    let text = Text::new(alloc, text)?;
    match Config::new(alloc, Tree::Text(text)) {
        Ok(config) => Ok(config),
        Err((_, fault)) => Err(ToolFault::Read(fault)),
    }
}
