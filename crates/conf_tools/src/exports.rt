// The text of one configuration of a store, over any disk.
ghost use Rattle.std.specs.Prelude.{◌≡◌, ◌≤◌, ◌⊎◌, IfOk, IfErr, Ok, Err, OnErr, OnOk, string_bytes};
ghost use Rattle.conf_tools.specs.Prelude.{chars, Reads, LeavesOnly, store_file, store_note, store_limit, tree_named};
ghost use Rattle.conf_tools.specs.Prelude.{FilesStay, MeantAtEntry};
ghost use Rattle.conf_store.specs.Holes.{is_several};
ghost use Rattle.conf_tools.specs.Dropped.{HasNoRest};
ghost use Rattle.conf_tools.specs.Exports.{CrashKeepsStore, HasNoTextIn, HasText, IsTextIn, IsTextOf, IsTextOfFound, LacksText, LastsOrTells, TellsExport, TellsReadAlone, disk_back, read_alone_line};
ghost use Rattle.conf_tools.specs.Reads.{tree_found, tree_or};

use crate::dropped::open_told;
use crate::listener::Listener;
use crate::reads::{config_of, tree_text};
use crate::stores::StoreToolFault;
use conf_disk::{Content, Disk, DiskFault, Name, reading_is_an_image};
use conf_history::config_in;
use conf_journal::{STORE_LIMIT, held_store_is_the_only_one, load};
use conf_state::StoreFault;
use conf_store::{OpenFault, Store, Waiting, bytes_mean_one_state};
use conf_words::TreeForm;
use std::alloc::Global;
use yaml_tree::Config;

/// The configuration that an open store has under a name, written in a form.
///
/// # Errors
/// `BadName` if the name may not be used, `NoConfig` if no configuration has it, and `OutOfMemory`.
fn text_of<D: Disk>(
    alloc: Global,
    store: &Store<D>,
    name: &str,
    form: TreeForm,
) -> Result<String, StoreFault>
    ensures ok { IfOk result (λ text.
        IsTextOf form store.now.state (chars name.now) (string_bytes text)) }
    ensures refused { IfErr result (λ fault.
        (fault ≡ StoreFault.OutOfMemory) ⊎ (tree_named store.now.state (chars name.now) ≡ Err fault)) }
{
    match store.config(name) {
        Ok(config) => Ok(tree_text(alloc, config.tree(), form)?),
        Err(fault) => Err(fault),
    }
}

/// The configuration under a name, written in a form, from what `store.yaml` on `disk` means. No file changes. One
/// line to `errors` says that the file was read as it stands.
///
/// # Errors
/// The disk is returned with the fault: `Open` if the file can't be read or means nothing, and `Export` as
/// [`export_text`] says. Nothing is told.
fn read_text<D: Disk + Drop, E: Listener>(
    alloc: Global,
    disk: D,
    name: &str,
    form: TreeForm,
    errors: &mut E,
) -> Result<(D, String), (D, StoreToolFault)>
    ensures ok { IfOk result (λ r. HasText D.model form disk r.0
        (chars name.now) (string_bytes r.1)) }
    ensures refused { IfErr result (λ r. LacksText D.model disk r.0
        (chars name.now) r.1) }
    ensures same { D.model.honest → D.model.folder (disk_back result) ≡ D.model.folder disk }
    ensures stays { D.model.honest → FilesStay D.model disk (disk_back result) }
    ensures risen { D.model.failure_count disk ≤ D.model.failure_count (disk_back result) }
    ensures told { OnOk result (E.hears errors.old read_alone_line errors.new) }
    ensures untold { OnErr result (errors.new ≡ errors.old) }
{
    let mut disk = disk;
    let waiting = Waiting::noted_on(&disk);
    match disk.read(alloc, Name::Store, STORE_LIMIT) {
        Ok(content) => match text_in(alloc, content, waiting, name, form) {
            Ok(text) => {
                errors.tell(
                    "confstore: store.yaml was only read, not put on the device: a crash may undo its last commands\n",
                );
                Ok((disk, text))
            }
            Err(fault) => Err((disk, fault)),
        },
        Err(DiskFault::Device) => Err((disk, StoreToolFault::Open(OpenFault::Device))),
        Err(DiskFault::OutOfMemory) => Err((disk, StoreToolFault::Open(OpenFault::OutOfMemory))),
    }
}

/// The configuration under a name, written in a form, where `store.yaml` was read as `content`, and `waiting` is
/// what its disk has noted. Of the others only those are built that the records put or edit.
///
/// # Errors
/// `Open` if what was read means nothing, and `Export` as [`export_text`] says.
fn text_in(
    alloc: Global,
    content: Content,
    waiting: Waiting,
    name: &str,
    form: TreeForm,
) -> Result<String, StoreToolFault>
    ensures ok { IfOk result (λ text.
        IsTextIn (is_several waiting) form content (chars name.now) (string_bytes text)) }
    ensures refused { IfErr result (HasNoTextIn (is_several waiting) content (chars name.now)) }
{
    let bytes = match content {
        Content::Bytes(bytes) => bytes,
        Content::Missing => return export_or_fault(found_text(alloc, None, name, form)),
        Content::TooLong => return Err(StoreToolFault::Open(OpenFault::NotAStore)),
    };
    let (config, _) = match config_in(alloc, bytes, waiting, name) {
        Ok(read) => read,
        Err(fault) => return Err(StoreToolFault::Open(fault)),
    };
    export_or_fault(found_text(alloc, config.as_ref(), name, form))
}

/// A text, or the fault of an export.
fn export_or_fault(exported: Result<String, StoreFault>) -> Result<String, StoreToolFault>
    ensures ok { IfOk result (λ text. exported ≡ Ok text) }
    ensures fault { IfErr result (λ fault. (of : StoreFault) × (exported ≡ Err of)
        × (fault ≡ StoreToolFault.Export of)) }
{
    match exported {
        Ok(text) => Ok(text),
        Err(fault) => Err(StoreToolFault::Export(fault)),
    }
}

/// The configuration that was found under a name, written in a form.
///
/// # Errors
/// Those of [`text_of`].
fn found_text(
    alloc: Global,
    found: Option<&Config>,
    name: &str,
    form: TreeForm,
) -> Result<String, StoreFault>
    ensures ok { IfOk result (λ text.
        IsTextOfFound form (tree_or (tree_found found.entry) (chars name.now)) (string_bytes text)) }
    ensures refused { IfErr result (λ fault. (fault ≡ StoreFault.OutOfMemory)
        ⊎ (tree_or (tree_found found.entry) (chars name.now) ≡ Err fault)) }
{
    match config_of(found, name) {
        Ok(config) => Ok(tree_text(alloc, config.tree(), form)?),
        Err(fault) => Err(fault),
    }
}

/// Opens the store on `disk`, and returns the configuration under a name, as [`export_text`] does. All configurations
/// of the store are built.
///
/// # Errors
/// Those of [`export_text`].
fn open_text<D: Disk + Drop, E: Listener>(
    alloc: Global,
    disk: D,
    name: &str,
    form: TreeForm,
    errors: &mut E,
) -> Result<(D, String), (D, StoreToolFault)>
    ensures ok { IfOk result (λ r. HasText D.model form disk r.0
        (chars name.now) (string_bytes r.1)) }
    ensures refused { IfErr result (λ r. LacksText D.model disk r.0
        (chars name.now) r.1) }
    ensures crashes { D.model.honest → LeavesOnly D.model disk (disk_back result)
        (MeantAtEntry (D.model.folder disk)) }
    ensures told { TellsExport E.hears errors.old errors.new }
    ensures lasting { D.model.honest → IfOk result (λ r. LastsOrTells E.hears D.model form disk r.0
        (chars name.now) (string_bytes r.1) errors.old errors.new) }
    ensures quiet { D.model.honest → HasNoRest (store_note D.model disk) (store_file D.model disk)
        → (errors.new ≡ errors.old) ⊎ TellsReadAlone E.hears (D.model.failure_count disk)
        (D.model.failure_count (disk_back result)) errors.old errors.new }
{
    reading_is_an_image();
    let store = match open_told(alloc, disk, errors) {
        Ok(store) => store,
        Err((disk, OpenFault::Device)) => return read_text(alloc, disk, name, form, errors),
        Err((disk, fault)) => return Err((disk, StoreToolFault::Open(fault))),
    };
    let exported = text_of(alloc, &store, name, form);
    let disk = store.close();
    match exported {
        Ok(text) => Ok((disk, text)),
        Err(fault) => Err((disk, StoreToolFault::Export(fault))),
    }
}

/// Returns the configuration under a name, as [`export_text`] does, where `store.yaml` was read as `content`. Where an
/// opening would write no file, of the other configurations only those are built that the records put or edit.
///
/// # Errors
/// Those of [`export_text`].
fn export_read<D: Disk + Drop, E: Listener>(
    alloc: Global,
    disk: D,
    content: Content,
    name: &str,
    form: TreeForm,
    errors: &mut E,
) -> Result<(D, String), (D, StoreToolFault)>
    requires content { D.model.honest → Reads (D.model.folder disk) Name.Store store_limit content }
    requires synced { D.model.honest → CrashKeepsStore (D.model.folder disk) }
    ensures ok { IfOk result (λ r. HasText D.model form disk r.0
        (chars name.now) (string_bytes r.1)) }
    ensures refused { IfErr result (λ r. LacksText D.model disk r.0
        (chars name.now) r.1) }
    ensures crashes { D.model.honest → LeavesOnly D.model disk (disk_back result)
        (MeantAtEntry (D.model.folder disk)) }
    ensures told { TellsExport E.hears errors.old errors.new }
    ensures lasting { D.model.honest → IfOk result (λ r. LastsOrTells E.hears D.model form disk r.0
        (chars name.now) (string_bytes r.1) errors.old errors.new) }
    ensures quiet { D.model.honest → HasNoRest (store_note D.model disk) (store_file D.model disk)
        → (errors.new ≡ errors.old) ⊎ TellsReadAlone E.hears (D.model.failure_count disk)
        (D.model.failure_count (disk_back result)) errors.old errors.new }
{
    bytes_mean_one_state();
    let Content::Bytes(bytes) = content else {
        return open_text(alloc, disk, name, form, errors);
    };
    let waiting = Waiting::noted_on(&disk);
    let (config, opened) = match config_in(alloc, bytes, waiting, name) {
        Ok(read) => read,
        Err(fault) => return Err((disk, StoreToolFault::Open(fault))),
    };
    if opened.dropped > 0 {
        return open_text(alloc, disk, name, form, errors);
    }
    match found_text(alloc, config.as_ref(), name, form) {
        Ok(text) => Ok((disk, text)),
        Err(fault) => Err((disk, StoreToolFault::Export(fault))),
    }
}

/// Returns the configuration that the store on `disk` has under a name, written in a form, with the disk. The folder
/// and `store.yaml` are synced. If there is no such file, or bytes follow its last whole record, the store is opened,
/// which writes the file anew; one line to `errors` says how many bytes that dropped, if there were any. Otherwise no
/// file changes, and of the other configurations only those are built that the records put or edit.
///
/// If the device fails at that, `store.yaml` is read as it stands, and nothing more is written or synced. So the
/// configuration can be had from a folder that can't be written. But a crash may take back the last commands that were
/// read so, as one line to `errors` says.
///
/// Whatever this returns, a crash at any moment leaves a `store.yaml` that means what it might have meant before.
///
/// # Errors
/// The disk is returned with the fault. `Open` if the store can't be opened or read, with `Device` only if the device
/// failed; `Export` if the name may not be used, no configuration has it, or memory runs out.
pub fn export_text<D: Disk + Drop, E: Listener>(
    alloc: Global,
    disk: D,
    name: &str,
    form: TreeForm,
    errors: &mut E,
) -> Result<(D, String), (D, StoreToolFault)>
    ensures ok { IfOk result (λ r. HasText D.model form disk r.0
        (chars name.now) (string_bytes r.1)) }
    ensures refused { IfErr result (λ r. LacksText D.model disk r.0
        (chars name.now) r.1) }
    // No crash loses a command that was accepted.
    ensures crashes { D.model.honest → LeavesOnly D.model disk (disk_back result)
        (MeantAtEntry (D.model.folder disk)) }
    ensures told { TellsExport E.hears errors.old errors.new }
    // No crash takes back what was exported, and the line says how many bytes followed the last whole record of the
    // file. Or the device failed, and the line says that.
    ensures lasting { D.model.honest → IfOk result (λ r. LastsOrTells E.hears D.model form disk r.0
        (chars name.now) (string_bytes r.1) errors.old errors.new) }
    // Nothing is told if no bytes are dropped, and the device didn't fail.
    ensures quiet { D.model.honest → HasNoRest (store_note D.model disk) (store_file D.model disk)
        → (errors.new ≡ errors.old) ⊎ TellsReadAlone E.hears (D.model.failure_count disk)
        (D.model.failure_count (disk_back result)) errors.old errors.new }
{
    held_store_is_the_only_one();
    let mut disk = disk;
    match load(alloc, &mut disk) {
        Ok(content) => export_read(alloc, disk, content, name, form, errors),
        Err(DiskFault::Device) => read_text(alloc, disk, name, form, errors),
        Err(DiskFault::OutOfMemory) => Err((disk, StoreToolFault::Open(OpenFault::OutOfMemory))),
    }
}
