// Single changes of a store, over any disk.
ghost use Rattle.std.specs.Prelude.{◌≡◌, ◌≢◌, ◌≤◌, ◌⊎◌, ◌↔◌, [], true, false, IfOk, IfErr, IsErrOf, Ok, OnOk};
ghost use Rattle.conf_tools.specs.Prelude.{chars, tree_of, conditions_of, LeavesOnly, command_of, text_of};
ghost use Rattle.conf_tools.specs.Prelude.{Accepts, RefusesCommand, tree_named, AppendsRecord, DeviceHasCause};
ghost use Rattle.conf_tools.specs.Prelude.{FailuresNeverFall, store_file, store_note, AllImagesMean, HasFlushed, MeantAtEntry};
ghost use Rattle.conf_tools.specs.Changes.{CannotChange, CannotMake, ChangesOn, ChangeSurvives, Gives, GivesNone, IsMadeOf, LacksTree, MakesStore, Makes, MeansOneOf, ReadsChanged, RefusesChange, copies, moves, renames, with_about, without_about};
ghost use Rattle.conf_state.specs.Commands.{command_with};
ghost use Rattle.yaml_grammar.specs.Texts.{same_text};
ghost use Rattle.conf_tools.specs.Dropped.{HasNoRest, TellsDropped, TellsDroppedOf};
ghost use Rattle.conf_tools.specs.Exports.{disk_handed_back};
ghost use Rattle.conf_tools.specs.Stores.{WasOpened};

use crate::dropped::open_told;
use crate::edits::{TreeEdit, edit_command};
use crate::listener::Listener;
use crate::stores::StoreToolFault;
use conf_about::About;
use conf_conditions::{Condition, check};
use conf_disk::{Content, Disk, DiskFault, Name};
use conf_state::{Command, Edit, Edits, StoreFault, steps_are_counted_or_refused};
use conf_store::{OpenFault, Store, import_command, one_state_is_flushed};
use std::alloc::{AllocError, Global};
use yaml_config::Config;

/// One change of a store.
#[derive(Drop)]
pub enum Change<'t> {
    /// Performs the command of an action. If there is an about, the command has that one: who makes it, when and why.
    Act {
        action: Action<'t>,
        about: Option<About>,
    },
    /// Makes the file as short as a base of the state, as [`Store::checkpoint`].
    Checkpoint,
}

/// What a change does, as one command.
#[derive(Drop)]
pub enum Action<'t> {
    /// Reads a text, and puts its tree under a name.
    Import { name: String, text: &'t [u8] },
    /// Performs this command.
    Perform(Command),
    /// Puts a copy of the configuration under `name` under the name `to`, in place of one that is there: an import.
    Copy { name: String, to: String },
    /// Gives the configuration under `name` the name `to`, in place of one that is there: a batch that deletes it and
    /// then imports it. Where the two names are one, it is an import, so that the configuration keeps its place.
    Rename { name: String, to: String },
    /// Makes an edit of the configuration under `name`.
    Edit { name: String, edit: TreeEdit },
}

/// Makes a change of an open store.
///
/// # Errors
/// Those of [`command_for`] and of the call of the store. Each but `Device` leaves the store and the disk as they were.
fn make<D: Disk>(alloc: Global, store: &mut Store<D>, change: Change<'_>) -> Result<(), StoreFault>
    ensures reopen { IsErrOf result StoreFault.Reopen ↔ (store.old.reopen ≡ true) }
    ensures ok { OnOk result (Makes store.old change.entry store.new) }
    ensures refused { IfErr result (RefusesChange store.old change.entry store.new) }
    ensures unchanged { IfErr result (λ fault.
        fault ≢ StoreFault.Device → store.new ≡ store.old) }
    ensures any_moment { D.model.honest → store.old.reopen ≡ false →
        HasFlushed (D.model.folder store.old.disk) store.old.state [] store.old.state →
        LeavesOnly D.model store.old.disk store.new.disk
        (MeansOneOf store.old.state store.new.state) }
    ensures now { D.model.honest → OnOk result
        (AllImagesMean (D.model.folder store.new.disk) store.new.state) }
    ensures reads { D.model.honest → store.old.reopen ≡ false → OnOk result
        (ReadsChanged store.old change.entry
        (store_file D.model store.old.disk) (store_file D.model store.new.disk)) }
    ensures cause { DeviceHasCause D.model store.old store.new result }
    ensures risen { FailuresNeverFall D.model store.old store.new }
{
    one_state_is_flushed();
    if store.needs_reopen() {
        return Err(StoreFault::Reopen);
    }
    match change {
        Change::Act { action, about } => match command_for(alloc, store, action) {
            Ok(command) => perform(store, with_about(command, about)),
            Err(fault) => Err(fault),
        },
        Change::Checkpoint => store.checkpoint(),
    }
}

/// The command of an action on an open store.
///
/// # Errors
/// Why there is none: for an import those of [`import_command`]; for a copy, a rename or an edit `BadName` and
/// `NoConfig` if there is no configuration to take; for an edit `TooDeep` and `ConfigLarge` if no configuration has the
/// value to set; and `OutOfMemory`.
fn command_for<D: Disk>(
    alloc: Global,
    store: &Store<D>,
    action: Action<'_>,
) -> Result<Command, StoreFault>
    ensures ok { IfOk result (λ command. Gives store.now.state action.entry (command_of command)) }
    ensures refused { IfErr result (GivesNone store.now.state action.entry) }
{
    match action {
        Action::Import { name, text } => import_command(alloc, &name, text),
        Action::Perform(command) => Ok(command),
        Action::Copy { name, to } => copy_command(alloc, store, name, to),
        Action::Rename { name, to } => rename_command(alloc, store, name, to),
        Action::Edit { name, edit } => edit_command(alloc, store, name, edit),
    }
}

/// The command with an about, if there is one, in the place of its own.
fn with_about(command: Command, about: Option<About>) -> Command
    ensures { command_of result ≡ with_about about (command_of command) }
{
    match about {
        Some(about) => Command::Noted {
            edits: edits_of(command),
            about,
        },
        None => command,
    }
}

/// The edits of a command.
fn edits_of(command: Command) -> Edits
    ensures { command_with result ≡ without_about (command_of command) }
{
    match command {
        Command::Import { name, tree } => Edits::Single(Edit::Import { name, tree }),
        Command::Set { name, path, value } => Edits::Single(Edit::Set { name, path, value }),
        Command::Delete { name, path } => Edits::Single(Edit::Delete { name, path }),
        Command::Batch { edits } => Edits::Batch(edits),
        Command::Noted { edits, .. } => edits,
    }
}

/// Performs a command on an open store.
///
/// # Errors
/// Those of [`Store::apply`].
fn perform<D: Disk>(store: &mut Store<D>, command: Command) -> Result<(), StoreFault>
    ensures reopen { IsErrOf result StoreFault.Reopen ↔ (store.old.reopen ≡ true) }
    ensures ok { OnOk result (Accepts store.old (command_of command) store.new) }
    ensures refused { IfErr result (RefusesCommand store.old (command_of command) store.new) }
    ensures unchanged { IfErr result (λ fault.
        fault ≢ StoreFault.Device → store.new ≡ store.old) }
    ensures any_moment { D.model.honest → store.old.reopen ≡ false →
        HasFlushed (D.model.folder store.old.disk) store.old.state [] store.old.state →
        LeavesOnly D.model store.old.disk store.new.disk
        (MeansOneOf store.old.state store.new.state) }
    ensures now { D.model.honest → OnOk result
        (AllImagesMean (D.model.folder store.new.disk) store.new.state) }
    ensures reads { D.model.honest → store.old.reopen ≡ false → OnOk result
        (AppendsRecord store.old (command_of command)
        (store_file D.model store.old.disk) (store_file D.model store.new.disk)) }
    ensures cause { DeviceHasCause D.model store.old store.new result }
    ensures risen { FailuresNeverFall D.model store.old store.new }
{
    one_state_is_flushed();
    match store.apply(command) {
        Ok(_) => Ok(()),
        Err(fault) => Err(fault),
    }
}

/// The command that puts a copy of the configuration under `name` under the name `to`.
///
/// # Errors
/// `BadName` and `NoConfig` if there is none to copy, and `OutOfMemory`.
fn copy_command<D: Disk>(
    alloc: Global,
    store: &Store<D>,
    name: String,
    to: String,
) -> Result<Command, StoreFault>
    ensures ok { IfOk result (λ command. IsMadeOf store.now.state (text_of name)
        (copies (text_of to)) (command_of command)) }
    ensures refused { IfErr result (LacksTree store.now.state (text_of name)) }
{
    match copy_named(alloc, store, &name) {
        Ok(tree) => Ok(Command::Import { name: to, tree }),
        Err(fault) => Err(fault),
    }
}

/// The command that gives the configuration under `name` the name `to`: both edits are made, or none.
///
/// # Errors
/// `BadName` and `NoConfig` if there is none to rename, and `OutOfMemory`.
fn rename_command<D: Disk>(
    alloc: Global,
    store: &Store<D>,
    name: String,
    to: String,
) -> Result<Command, StoreFault>
    ensures ok { IfOk result (λ command. IsMadeOf store.now.state (text_of name)
        (renames (text_of name) (text_of to)) (command_of command)) }
    ensures refused { IfErr result (LacksTree store.now.state (text_of name)) }
{
    match copy_named(alloc, store, &name) {
        Ok(tree) => Ok(rename_of(alloc, name, to, tree)?),
        Err(fault) => Err(fault),
    }
}

/// The command that gives a tree, which is under `name`, the name `to`. It fails only if memory runs out.
fn rename_of(alloc: Global, name: String, to: String, tree: Config) -> Result<Command, AllocError>
    ensures { IfOk result (λ command.
        command_of command ≡ renames (text_of name) (text_of to) (tree_of tree)) }
{
    if is_same_name(&name, &to) {
        return Ok(Command::Import { name: to, tree });
    }
    rename_batch(alloc, name, to, tree)
}

/// Whether two names are the same.
fn is_same_name(name: &str, other: &str) -> bool
    ensures { result ≡ same_text (chars name.now) (chars other.now) }
{
    other == name
}

/// The batch that deletes the configuration under `name`, and then imports a tree under the name `to`. It fails only if
/// memory runs out.
fn rename_batch(
    alloc: Global,
    name: String,
    to: String,
    tree: Config,
) -> Result<Command, AllocError>
    ensures { IfOk result (λ command.
        command_of command ≡ moves (text_of name) (text_of to) (tree_of tree)) }
{
    let delete = Edit::Delete {
        name,
        path: String::new(alloc),
    };
    let import = Edit::Import { name: to, tree };
    let edits = vec![in alloc; delete, import]?;
    Ok(Command::Batch { edits })
}

/// A copy of the configuration under a name.
///
/// # Errors
/// `BadName` and `NoConfig` if there is none, and `OutOfMemory`.
fn copy_named<D: Disk>(alloc: Global, store: &Store<D>, name: &str) -> Result<Config, StoreFault>
    ensures ok { IfOk result (λ copy.
        tree_named store.now.state (chars name.now) ≡ Ok (tree_of copy)) }
    ensures refused { IfErr result (LacksTree store.now.state (chars name.now)) }
{
    match store.config(name) {
        Ok(config) => Ok(config.try_copy(alloc)?),
        Err(fault) => Err(fault),
    }
}
/// Opens the store on `disk` and makes one change, if all conditions hold of the state that was opened. They are judged
/// in order. Returns the disk, with the change on it. One line to `errors` says how many bytes opening dropped, if
/// there were any.
///
/// While the store is opened, a crash leaves a `store.yaml` that means what it might have meant before the call. From
/// then on, a crash at any moment leaves the state before the change or after it. Once this has returned `Ok`, it
/// leaves the one after it.
///
/// # Errors
/// The disk is returned with the fault. `Open` if the store can't be opened, `Condition` with the fault of the first
/// condition that does not hold, and `Refused` if the store refuses the change; each but `Device` changes no
/// configuration.
pub fn change_store<D: Disk + Drop, E: Listener>(
    alloc: Global,
    disk: D,
    conditions: &[Condition],
    change: Change<'_>,
    errors: &mut E,
) -> Result<D, (D, StoreToolFault)>
    ensures made { IfOk result
        (ChangesOn D.model disk (conditions_of conditions.now) change.entry) }
    ensures refused { IfErr result (λ r.
        CannotChange D.model disk (conditions_of conditions.now) change.entry r.0 r.1) }
    // No crash loses a change that was made, or keeps one that was refused.
    ensures crashes { D.model.honest → ChangeSurvives D.model disk change.entry result }
    ensures told { TellsDropped E.hears errors.old errors.new }
    // The line says how many bytes followed the last whole record of the file.
    ensures dropped { D.model.honest → WasOpened result →
        TellsDroppedOf E.hears (store_note D.model disk) (store_file D.model disk)
        errors.old errors.new }
    // Nothing is told if no bytes are dropped.
    ensures quiet { D.model.honest → HasNoRest (store_note D.model disk) (store_file D.model disk)
        → errors.new ≡ errors.old }
{
    steps_are_counted_or_refused();
    let mut store = match open_told(alloc, disk, errors) {
        Ok(store) => store,
        Err((disk, fault)) => return Err((disk, StoreToolFault::Open(fault))),
    };
    match check(alloc, &store, conditions) {
        Ok(()) => {}
        Err(fault) => return Err((store.close(), StoreToolFault::Condition(fault))),
    }
    let made = make(alloc, &mut store, change);
    let disk = store.close();
    match made {
        Ok(()) => Ok(disk),
        Err(fault) => Err((disk, StoreToolFault::Refused(fault))),
    }
}

/// Makes an empty store on `disk`, whose `store.yaml` may not be there. Returns the disk.
///
/// # Errors
/// The disk is returned with the fault. `StoreExists` if there is a `store.yaml`, whatever it holds: nothing has
/// changed. `Open` if a call of the disk fails, or memory runs out.
pub fn make_store<D: Disk + Drop, E: Listener>(
    alloc: Global,
    disk: D,
    errors: &mut E,
) -> Result<D, (D, StoreToolFault)>
    ensures made { IfOk result (λ disk_behind. D.model.honest → MakesStore D.model.folder disk disk_behind) }
    ensures refused { IfErr result (λ r.
        CannotMake D.model disk r.0 r.1) }
    // No crash leaves anything else than what was there, or an empty store.
    ensures crashes { D.model.honest → LeavesOnly D.model disk (disk_handed_back result)
        (MeantAtEntry (D.model.folder disk)) }
    ensures told { TellsDropped E.hears errors.old errors.new }
    // A new store has nothing to drop.
    ensures quiet { D.model.honest → errors.new ≡ errors.old }
{
    let mut disk = disk;
    match disk.read(alloc, Name::Store, 0) {
        Ok(Content::Missing) => {}
        Ok(_) => return Err((disk, StoreToolFault::StoreExists)),
        Err(DiskFault::OutOfMemory) => {
            return Err((disk, StoreToolFault::Open(OpenFault::OutOfMemory)));
        }
        Err(DiskFault::Device) => return Err((disk, StoreToolFault::Open(OpenFault::Device))),
    }
    match open_told(alloc, disk, errors) {
        Ok(store) => Ok(store.close()),
        Err((disk, fault)) => Err((disk, StoreToolFault::Open(fault))),
    }
}
