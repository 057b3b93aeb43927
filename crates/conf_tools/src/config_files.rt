// The word of the program that writes each configuration of a store into a file of its own.
ghost use Rattle.std.specs.Prelude.{◌≡◌, ◌≤◌, IfOk, encode_utf8_all, string_bytes};
ghost use Rattle.conf_tools.specs.Prelude.{chars, config_named, depth, names_of, own_limits, tree_of};
ghost use Rattle.conf_tools.specs.ConfigFiles.{ExportsAll, MayHoldFiles, PutsAll, PutsConfig, PutsAgain, PutsFile, PutsNew, PutsOver, PutsTree, ReadsWhole, TellsPut, ending_of_put, file_ending, file_path, has_bytes, made_or_not};
ghost use Rattle.conf_tools.specs.Outcomes.{LeavesFiles};
ghost use Rattle.conf_tools.specs.Reads.{tree_text};
ghost use Rattle.conf_tools.specs.TextWords.{replaced_or_not};

use crate::file_words::{replaced_or_not, tell_cause_of};
use crate::listener::Listener;
use crate::outcome::{Ending, Outcome};
use crate::read_words::open_file;
use crate::reading_fault::ReadingFault;
use crate::reads::tree_text;
use crate::reporter::{Origin, Reporter};
use crate::texts::{MOST_INPUT, ToolFault, read_text};
use crate::world::World;
use conf_files::{NewFileFault, ReplaceFault};
use conf_history::{HistoryFault, SalvageFault, names_at, state_at};
use conf_state::State;
use conf_words::TreeForm;
use std::alloc::{AllocError, Global};
use yaml_tree::Tree;

/// Writes each configuration of the store in a folder into a file of its own in the folder `into`, which is made if it
/// is missing. The store is read beside whoever holds it, once, before anything is written. Why a file was not written
/// is told, and none is written after it.
pub(crate) fn export_all<'w, A: World, E: Listener>(
    world: &mut A,
    reporter: Reporter,
    folder: &'w str,
    into: &str,
    form: TreeForm,
    errors: &mut E,
) -> Ending<'w>
    ensures exports { ExportsAll A.model A.File.remaining form folder.now into.now world.old world.new result }
    ensures told { LeavesFiles E.hears errors.old result errors.new }
{
    match read_state(world, reporter.alloc, folder) {
        Ok(state) => match prepare_folder(world, reporter.alloc, into) {
            Ok(()) => ending_of_put(put_each(world, reporter, &state, into, form, errors)),
            Err(fault) => Ending::Of(Outcome::Reading(fault)),
        },
        Err(fault) => Ending::Of(Outcome::Reading(fault)),
    }
}

/// What the store in a folder holds.
fn read_state<A: World>(world: &mut A, alloc: Global, folder: &str) -> Result<State, ReadingFault>
    ensures { ReadsWhole A.model A.File.remaining folder.now world.old result world.new }
{
    let mut file = match open_file(world, alloc, folder) {
        Ok(file) => file,
        Err(fault) => return Err(fault),
    };
    let waiting = world.waiting(&file);
    match state_at(alloc, &mut file, waiting, None) {
        Ok(state) => Ok(state),
        Err(fault) => Err(ReadingFault::History(fault)),
    }
}

/// Makes the folder of the files, if it is missing.
///
/// # Errors
/// `StoreExists` if a store is in it, whose file could be replaced, and those of the calls on the folder. `History` if
/// it can't be told whether one is: the file that may be its own can't be read, or memory runs out.
fn prepare_folder<A: World>(world: &mut A, alloc: Global, into: &str) -> Result<(), ReadingFault>
    ensures { MayHoldFiles A.model A.File.remaining into.now world.old result world.new }
{
    if let Err(fault) = world.make_folder(alloc, into) {
        return Err(ReadingFault::Folder(fault));
    }
    let mut file = match world.open_store(alloc, into) {
        Ok(Some(file)) => file,
        Ok(None) => return Ok(()),
        Err(fault) => return Err(ReadingFault::Folder(fault)),
    };
    let waiting = world.waiting(&file);
    match names_at(alloc, &mut file, waiting, None) {
        Err(HistoryFault::NotAStore) => Ok(()),
        Ok(_) | Err(HistoryFault::Damaged(_)) => {
            Err(ReadingFault::Salvage(SalvageFault::StoreExists))
        }
        Err(fault) => Err(ReadingFault::History(fault)),
    }
}

/// How the word ends after all files.
fn ending_of_put(put: Result<(), ToolFault>) -> Ending<'static>
    ensures { result ≡ ending_of_put put }
{
    match put {
        Ok(()) => Ending::Of(Outcome::Done),
        Err(fault) => Ending::ToldFault(fault),
    }
}

/// Writes each configuration of a state into its file, up to the first that fails.
fn put_each<A: World, E: Listener>(
    world: &mut A,
    reporter: Reporter,
    state: &State,
    into: &str,
    form: TreeForm,
    errors: &mut E,
) -> Result<(), ToolFault>
    ensures puts { PutsAll A.model A.File.remaining form into.now state.now.configs
        (names_of state.now.configs) world.old result world.new }
    ensures told { TellsPut E.hears errors.old result errors.new }
{
    for name in state.names() {
        match put_config(world, reporter, state, name, into, form, errors) {
            Ok(()) => {}
            Err(fault) => return Err(fault),
        }
    }
    Ok(())
}

/// Writes the configuration under a name into its file, if there is one.
fn put_config<A: World, E: Listener>(
    world: &mut A,
    reporter: Reporter,
    state: &State,
    name: &str,
    into: &str,
    form: TreeForm,
    errors: &mut E,
) -> Result<(), ToolFault>
    ensures puts { PutsConfig A.model A.File.remaining form into.now (chars name.now)
        (config_named state.now.configs (chars name.now)) world.old result world.new }
    ensures told { TellsPut E.hears errors.old result errors.new }
{
    match state.get(name) {
        Some(config) => put_tree(world, reporter, config.tree(), name, into, form, errors),
        None => Ok(()),
    }
}

/// Writes a tree into the file of a name.
fn put_tree<A: World, E: Listener>(
    world: &mut A,
    reporter: Reporter,
    tree: &Tree,
    name: &str,
    into: &str,
    form: TreeForm,
    errors: &mut E,
) -> Result<(), ToolFault>
    requires { depth (tree_of tree.now) ≤ own_limits.depth }
    ensures puts { PutsTree A.model A.File.remaining form into.now (chars name.now) (tree_of tree.now)
        world.old result world.new }
    ensures told { TellsPut E.hears errors.old result errors.new }
{
    match file_of(reporter.alloc, tree, name, into, form) {
        Ok((path, text)) => put_file(world, reporter, &path, text.as_bytes(), errors),
        Err(error) => {
            let fault = ToolFault::from(error);
            reporter.tell_fault(errors, Origin::Named(into), b"", fault);
            Err(fault)
        }
    }
}

/// The path of the file of a name, and the text of its tree. It fails only if memory runs out.
fn file_of(
    alloc: Global,
    tree: &Tree,
    name: &str,
    into: &str,
    form: TreeForm,
) -> Result<(String, String), AllocError>
    requires { depth (tree_of tree.now) ≤ own_limits.depth }
    ensures path { IfOk result (λ file.
        string_bytes file.0 ≡ file_path form into.now (chars name.now)) }
    ensures text { IfOk result (λ file.
        string_bytes file.1 ≡ encode_utf8_all (tree_text form (tree_of tree.now))) }
{
    let path = file_path(alloc, name, into, form)?;
    Ok((path, tree_text(alloc, tree, form)?))
}

/// The path of the file of a name in a folder. It fails only if memory runs out.
fn file_path(alloc: Global, name: &str, into: &str, form: TreeForm) -> Result<String, AllocError>
    ensures { IfOk result (λ path. string_bytes path ≡ file_path form into.now (chars name.now)) }
{
    let mut path = String::from_str(alloc, into)?;
    path.push('/')?;
    path.push_str(name)?;
    path.push_str(file_ending(form))?;
    Ok(path)
}

/// How the names of files in a form end.
fn file_ending(form: TreeForm) -> &'static str
    ensures { result.now ≡ file_ending form }
{
    match form {
        TreeForm::Json => ".json",
        TreeForm::Styled | TreeForm::Plain => ".yaml",
    }
}

/// Puts a file of bytes at a path, whole: in the place of what is there, unless that has the bytes, or of an empty file
/// that is made there first. Why it is not done is told.
fn put_file<A: World, E: Listener>(
    world: &mut A,
    reporter: Reporter,
    path: &str,
    bytes: &[u8],
    errors: &mut E,
) -> Result<(), ToolFault>
    ensures puts { PutsFile A.model A.File.remaining path.now bytes.now world.old result world.new }
    ensures told { TellsPut E.hears errors.old result errors.new }
{
    match world.open_to_replace(reporter.alloc, path) {
        Ok((file, place)) => put_over(world, reporter, path, file, place, bytes, errors),
        Err(ReplaceFault::OutOfMemory) => {
            let fault = ToolFault::from(AllocError);
            reporter.tell_fault(errors, Origin::Named(path), b"", fault);
            Err(fault)
        }
        // A new file is made only where nothing is, so what can't be opened stays as it is.
        Err(ReplaceFault::Device) => put_new(world, reporter, path, bytes, errors),
    }
}

/// Puts a file of bytes in the place of one that was opened, unless that has the bytes.
fn put_over<A: World, E: Listener>(
    world: &mut A,
    reporter: Reporter,
    path: &str,
    mut file: A::File,
    place: A::Place,
    bytes: &[u8],
    errors: &mut E,
) -> Result<(), ToolFault>
    ensures puts { PutsOver A.model A.File.remaining file place bytes.now world.old result world.new }
    ensures told { TellsPut E.hears errors.old result errors.new }
{
    let read = read_text(reporter.alloc, &mut file);
    if has_bytes(&read, bytes) {
        return Ok(());
    }
    let done = replaced_or_not(world.replace(reporter.alloc, place, bytes));
    reporter.tell(errors, Origin::Named(path), b"", &done);
    tell_cause_of(world, reporter.alloc, path, &done, errors);
    done
}

/// Whether what was read of a file is these bytes. What is too long to be a text may not be read whole.
fn has_bytes(read: &Result<Vec<u8>, ToolFault>, bytes: &[u8]) -> bool
    ensures { result ≡ has_bytes read.now bytes.now }
{
    match read {
        Ok(found) => bytes.len() < MOST_INPUT && found.as_slice() == bytes,
        Err(_) => false,
    }
}

/// Makes an empty file, where nothing may be, and puts one of bytes in its place.
fn put_new<A: World, E: Listener>(
    world: &mut A,
    reporter: Reporter,
    path: &str,
    bytes: &[u8],
    errors: &mut E,
) -> Result<(), ToolFault>
    ensures puts { PutsNew A.model A.File.remaining path.now bytes.now world.old result world.new }
    ensures told { TellsPut E.hears errors.old result errors.new }
{
    let made = made_or_not(world.create_empty(reporter.alloc, path));
    reporter.tell(errors, Origin::Named(path), b"", &made);
    match made {
        Ok(()) => put_again(world, reporter, path, bytes, errors),
        Err(fault) => Err(fault),
    }
}

/// Puts a file of bytes in the place of one that was made just now.
fn put_again<A: World, E: Listener>(
    world: &mut A,
    reporter: Reporter,
    path: &str,
    bytes: &[u8],
    errors: &mut E,
) -> Result<(), ToolFault>
    ensures puts { PutsAgain A.model A.File.remaining path.now bytes.now world.old result world.new }
    ensures told { TellsPut E.hears errors.old result errors.new }
{
    match world.open_to_replace(reporter.alloc, path) {
        Ok((file, place)) => put_over(world, reporter, path, file, place, bytes, errors),
        Err(fault) => {
            let done = replaced_or_not(Err(fault));
            reporter.tell(errors, Origin::Named(path), b"", &done);
            tell_cause_of(world, reporter.alloc, path, &done, errors);
            done
        }
    }
}

/// What came of a new file.
fn made_or_not(made: Result<(), NewFileFault>) -> Result<(), ToolFault>
    ensures { result ≡ made_or_not made }
{
    match made {
        Ok(()) => Ok(()),
        Err(NewFileFault::OutOfMemory) => Err(ToolFault::from(AllocError)),
        Err(NewFileFault::FileExists | NewFileFault::Device) => Err(ToolFault::Output),
    }
}
