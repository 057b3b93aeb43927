// Calls of any disk and procedures on it, from their words.
use conf_disk::{Content, Disk, DiskFault, Name};
use conf_journal::{
    append_closed, append_next, append_store, begin_next, finish_next, load, stage_next, swap_next,
    sync_next, sync_store,
};
use std::alloc::{AllocError, Global};

/// The answer of a disk to the words of a call or of a procedure. The disk claims nothing, so each may be made at any
/// time.
pub(crate) fn call<D: Disk>(
    alloc: Global,
    disk: &mut D,
    words: &[&str],
) -> Result<String, AllocError>
    requires { D.model.honest → ⊥ }
{
    match words {
        ["failures"] => failures_of(alloc, disk),
        ["several_waited"] => String::from_str(alloc, note_of(disk)),
        ["read", name, limit] => reading_of(alloc, disk, name_of(name), limit),
        ["load"] => content_of(alloc, load(alloc, disk)),
        ["create_next"] => outcome_of(alloc, disk.create_next()),
        ["append", name, bytes] => {
            outcome_of(alloc, disk.append(name_of(name), bytes.as_bytes()))
        }
        ["sync", name] => outcome_of(alloc, disk.sync(name_of(name))),
        ["rename_next"] => outcome_of(alloc, disk.rename_next()),
        ["remove_next"] => outcome_of(alloc, disk.remove_next()),
        ["sync_folder"] => outcome_of(alloc, disk.sync_folder()),
        words => change(alloc, disk, words),
    }
}

/// The answer of a disk to a procedure that changes it.
fn change<D: Disk>(alloc: Global, disk: &mut D, words: &[&str]) -> Result<String, AllocError>
    requires { D.model.honest → ⊥ }
{
    match words {
        ["append_store", bytes] => outcome_of(alloc, append_store(disk, bytes.as_bytes())),
        ["sync_store"] => outcome_of(alloc, sync_store(disk)),
        ["append_closed", bytes] => outcome_of(alloc, append_closed(disk, bytes.as_bytes())),
        ["begin_next"] => outcome_of(alloc, begin_next(disk)),
        ["append_next", bytes] => outcome_of(alloc, append_next(disk, bytes.as_bytes())),
        ["sync_next"] => outcome_of(alloc, sync_next(disk)),
        ["stage_next", bytes] => outcome_of(alloc, stage_next(disk, bytes.as_bytes())),
        ["swap_next"] => outcome_of(alloc, swap_next(disk)),
        ["finish_next"] => outcome_of(alloc, finish_next(disk)),
        _ => String::from_str(alloc, "no order"),
    }
}

/// The name that a word says.
fn name_of(word: &str) -> Name {
    match word {
        "next" => Name::Next,
        _ => Name::Store,
    }
}

/// How a call ended.
fn outcome_of(alloc: Global, outcome: Result<(), DiskFault>) -> Result<String, AllocError> {
    match outcome {
        Ok(()) => String::from_str(alloc, "ok"),
        Err(fault) => format!(in alloc; "{fault}"),
    }
}

/// What a read returned: the bytes as a quoted text, or why there are none.
pub(crate) fn content_of(
    alloc: Global,
    read: Result<Content, DiskFault>,
) -> Result<String, AllocError> {
    match read {
        Ok(Content::Missing) => String::from_str(alloc, "missing"),
        Ok(Content::TooLong) => String::from_str(alloc, "too long"),
        Ok(Content::Bytes(bytes)) => text_of(alloc, &bytes),
        Err(fault) => format!(in alloc; "{fault}"),
    }
}

/// The bytes as a quoted text.
fn text_of(alloc: Global, bytes: &[u8]) -> Result<String, AllocError> {
    match str::from_utf8(bytes) {
        Ok(text) => format!(in alloc; "{text:?}"),
        Err(_) => String::from_str(alloc, "no text"),
    }
}

/// What a read of a name up to a limit returns.
fn reading_of<D: Disk>(
    alloc: Global,
    disk: &mut D,
    name: Name,
    limit: &str,
) -> Result<String, AllocError> {
    let limit = limit.parse::<u64>().unwrap_or(0);
    content_of(alloc, disk.read(alloc, name, limit))
}

/// How often the disk has failed.
fn failures_of<D: Disk>(alloc: Global, disk: &D) -> Result<String, AllocError> {
    let failures = disk.failures();
    format!(in alloc; "{failures}")
}

/// Whether the disk says that several appends may have waited for one sync.
pub(crate) fn note_of<D: Disk>(disk: &D) -> &'static str {
    if disk.several_waited() {
        "several"
    } else {
        "one"
    }
}
