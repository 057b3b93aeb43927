// Commands that wait for a flush, and checkpoints in slices.
use crate::calls::{FusedStore, counted, done};
use crate::store_commands::{batch, delete, import, set};
use conf_state::{Command, StoreFault};
use conf_store::Progress;
use probe_words::no_order;
use std::alloc::{AllocError, Global};

/// A number of slices that no checkpoint exceeds: a file of 1,073,741,824 bytes has so many.
const SLICES: u64 = 262_144;

/// Submits the command that the words say.
pub(crate) fn submit(
    alloc: Global,
    store: &mut FusedStore,
    client: u64,
    words: &[&str],
) -> Result<String, AllocError> {
    match words {
        ["import", name, text] => submitted(alloc, store, client, import(alloc, name, text)),
        ["set", name, path, value] => submitted(
            alloc,
            store,
            client,
            set(alloc, name, path, value),
        ),
        ["delete", name, path] => submitted(alloc, store, client, delete(alloc, name, path)),
        ["batch", edits @ ..] => submitted(alloc, store, client, batch(alloc, edits)),
        _ => no_order(alloc),
    }
}

/// Submits a command.
fn submitted(
    alloc: Global,
    store: &mut FusedStore,
    client: u64,
    command: Result<Command, StoreFault>,
) -> Result<String, AllocError> {
    match command {
        Ok(command) => counted(alloc, store.submit(client, command)),
        Err(fault) => counted(alloc, Err(fault)),
    }
}

/// Flushes what waits.
pub(crate) fn flush(alloc: Global, store: &mut FusedStore) -> Result<String, AllocError> {
    done(alloc, store.flush())
}

/// Begins a checkpoint in slices, unless one runs.
pub(crate) fn begin(alloc: Global, store: &mut FusedStore) -> Result<String, AllocError> {
    if store.running() {
        return String::from_str(alloc, "a checkpoint runs");
    }
    done(alloc, store.begin_checkpoint())
}

/// Writes a slice of the running checkpoint, if one runs: how many bytes are left, or that it is done.
pub(crate) fn slice(alloc: Global, store: &mut FusedStore) -> Result<String, AllocError> {
    if !store.running() {
        return String::from_str(alloc, "no checkpoint runs");
    }
    match store.slice() {
        Ok(Progress::Left { bytes }) => format!(in alloc; "left {bytes}"),
        Ok(Progress::Done) => String::from_str(alloc, "done"),
        Err(fault) => format!(in alloc; "{fault:?}"),
    }
}

/// Writes the slices that are left of the running checkpoint: how many they were, or why one was refused.
pub(crate) fn slices(alloc: Global, store: &mut FusedStore) -> Result<String, AllocError> {
    for count in 0..=SLICES {
        if !store.running() {
            return format!(in alloc; "{count} slices");
        }
        if let Err(fault) = store.slice() {
            return format!(in alloc; "{fault:?}");
        }
    }
    String::from_str(alloc, "a checkpoint runs")
}

/// Whether a checkpoint runs.
pub(crate) fn running(alloc: Global, store: &FusedStore) -> Result<String, AllocError> {
    let running = store.running();
    format!(in alloc; "{running}")
}
