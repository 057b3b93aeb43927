// Calls of an open store.
use crate::groups::{begin, flush, running, slice, slices, submit};
use crate::rounds::round_of;
use crate::sessions::{copies, failing, grouped, parts, roomy};
use crate::store_commands::{batch, delete, set};
use conf_state::{Command, StoreFault};
use conf_store::Store;
use probe_words::{meant, measured, no_order, number_of};
use std::alloc::{AllocError, Global};
use std::io::ErrorKind;
use test_disks::{FusedDisk, MemoryDisk};
use tree_path::Path;
use yaml_tree::Tree;

/// A store over a disk in memory of which a call may fail.
pub(crate) type FusedStore = Store<FusedDisk<MemoryDisk>>;

/// The answer of a store to a call, or to a session.
///
/// The words are those of the order, as the crate's page has them. Any others are answered with `no order`. It fails
/// only if memory runs out.
pub(crate) fn call(
    alloc: Global,
    store: &mut FusedStore,
    words: &[&str],
) -> Result<String, AllocError> {
    match words {
        ["import", name, text] => import(alloc, store, name, text),
        ["set", name, path, value] => apply(alloc, store, set(alloc, name, path, value)),
        ["delete", name, path] => apply(alloc, store, delete(alloc, name, path)),
        ["batch", edits @ ..] => apply(alloc, store, batch(alloc, edits)),
        ["submit", client, words @ ..] => submit(alloc, store, number_of(client), words),
        ["flush"] => flush(alloc, store),
        ["begin"] => begin(alloc, store),
        ["slice"] => slice(alloc, store),
        ["slices"] => slices(alloc, store),
        ["running"] => running(alloc, store),
        ["checkpoint"] => checkpoint(alloc, store),
        ["count"] => count(alloc, store),
        ["names"] => names(alloc, store),
        ["export", name] => export(alloc, store, name),
        ["get", name, path] => get(alloc, store, name, path),
        ["reopen"] => reopen(alloc, store),
        ["round", pieces @ ..] => round_of(alloc, store, pieces),
        ["session", input] => parts(alloc, store, usize::MAX, input),
        ["grouped", input] => grouped(alloc, store, input),
        ["parts", bytes, input] => parts(alloc, store, number_of(bytes) as usize, input),
        ["broken", input] => failing(alloc, store, ErrorKind::BrokenPipe, input),
        ["interrupted", input] => failing(alloc, store, ErrorKind::Interrupted, input),
        ["room", bytes, input] => roomy(alloc, store, number_of(bytes) as usize, input),
        ["copies", count, input] => copies(alloc, store, number_of(count), input),
        _ => no_order(alloc),
    }
}

/// The count, or why a command is refused.
pub(crate) fn counted(
    alloc: Global,
    answer: Result<u64, StoreFault>,
) -> Result<String, AllocError> {
    match answer {
        Ok(count) => format!(in alloc; "{count}"),
        Err(fault) => format!(in alloc; "{fault:?}"),
    }
}

/// Imports a text.
fn import(
    alloc: Global,
    store: &mut FusedStore,
    name: &str,
    text: &str,
) -> Result<String, AllocError> {
    let text = meant(alloc, text)?;
    counted(alloc, store.import(name, text.as_bytes()))
}

/// Performs a command.
fn apply(
    alloc: Global,
    store: &mut FusedStore,
    command: Result<Command, StoreFault>,
) -> Result<String, AllocError> {
    match command {
        Ok(command) => counted(alloc, store.apply(command)),
        Err(fault) => counted(alloc, Err(fault)),
    }
}

/// Makes a checkpoint.
fn checkpoint(alloc: Global, store: &mut FusedStore) -> Result<String, AllocError> {
    done(alloc, store.checkpoint())
}

/// Whether a call is done, or why it is refused.
pub(crate) fn done(alloc: Global, answer: Result<(), StoreFault>) -> Result<String, AllocError> {
    match answer {
        Ok(()) => String::from_str(alloc, "done"),
        Err(fault) => format!(in alloc; "{fault:?}"),
    }
}

/// The count.
fn count(alloc: Global, store: &FusedStore) -> Result<String, AllocError> {
    let count = store.count();
    format!(in alloc; "{count}")
}

/// The names of the configurations, in order.
fn names(alloc: Global, store: &FusedStore) -> Result<String, AllocError> {
    let names: Vec<&str> = store.names().collect(alloc)?;
    format!(in alloc; "{names:?}")
}

/// A configuration in the one style.
fn export(alloc: Global, store: &FusedStore, name: &str) -> Result<String, AllocError> {
    match store.export(name) {
        Ok(text) => measured(alloc, text.as_bytes()),
        Err(fault) => format!(in alloc; "{fault:?}"),
    }
}

/// What is at a path of a configuration.
fn get(alloc: Global, store: &FusedStore, name: &str, path: &str) -> Result<String, AllocError> {
    match tree_at(alloc, store, name, path) {
        Ok(tree) => format!(in alloc; "{tree:?}"),
        Err(fault) => format!(in alloc; "{fault:?}"),
    }
}

/// The tree at a path of a configuration.
fn tree_at<'a>(
    alloc: Global,
    store: &'a FusedStore,
    name: &str,
    path: &str,
) -> Result<&'a Tree, StoreFault> {
    let path = Path::parse(alloc, path)?;
    store.get(name, &path)
}

/// Whether the store has to be opened again.
fn reopen(alloc: Global, store: &FusedStore) -> Result<String, AllocError> {
    let reopen = store.needs_reopen();
    format!(in alloc; "{reopen}")
}
