// Commands from their words.
use conf_state::{Command, Edit, StoreFault};
use probe_words::meant;
use std::alloc::Global;
use yaml_tree::{Limits, read_one};

/// A command that imports a text.
pub(crate) fn import(alloc: Global, name: &str, text: &str) -> Result<Command, StoreFault> {
    Ok(Command::from(import_edit(alloc, name, text)?))
}

/// A command that sets the tree of a text at a path.
pub(crate) fn set(
    alloc: Global,
    name: &str,
    path: &str,
    value: &str,
) -> Result<Command, StoreFault> {
    Ok(Command::from(set_edit(alloc, name, path, value)?))
}

/// A command that deletes what is at a path.
pub(crate) fn delete(alloc: Global, name: &str, path: &str) -> Result<Command, StoreFault> {
    Ok(Command::from(delete_edit(alloc, name, path)?))
}

/// A batch of edits. Each has its words, with `|` between them.
pub(crate) fn batch(alloc: Global, written: &[&str]) -> Result<Command, StoreFault> {
    let mut edits = Vec::new(alloc);
    for words in written {
        let edit = edit(alloc, words)?;
        if edits.push(edit).is_err() {
            return Err(StoreFault::OutOfMemory);
        }
    }
    Ok(Command::Batch { edits })
}

/// The edit that the words say. Of other words the name is bad.
fn edit(alloc: Global, written: &str) -> Result<Edit, StoreFault> {
    let words: Vec<&str> = written.split('|').collect(alloc)?;
    match words.as_slice() {
        ["import", name, text] => import_edit(alloc, name, text),
        ["set", name, path, value] => set_edit(alloc, name, path, value),
        ["delete", name, path] => delete_edit(alloc, name, path),
        _ => Err(StoreFault::BadName),
    }
}

fn import_edit(alloc: Global, name: &str, text: &str) -> Result<Edit, StoreFault> {
    let text = meant(alloc, text)?;
    let name = String::from_str(alloc, name)?;
    match read_one(alloc, text.as_bytes(), &Limits::CONFIGURATION) {
        Ok(tree) => Ok(Edit::Import { name, tree }),
        Err(fault) => Err(StoreFault::Read(fault)),
    }
}

fn set_edit(alloc: Global, name: &str, path: &str, value: &str) -> Result<Edit, StoreFault> {
    let text = meant(alloc, value)?;
    let name = String::from_str(alloc, name)?;
    let path = String::from_str(alloc, path)?;
    match read_one(alloc, text.as_bytes(), &Limits::KEPT) {
        Ok(value) => Ok(Edit::Set { name, path, value }),
        Err(fault) => Err(StoreFault::Read(fault)),
    }
}

fn delete_edit(alloc: Global, name: &str, path: &str) -> Result<Edit, StoreFault> {
    let name = String::from_str(alloc, name)?;
    let path = String::from_str(alloc, path)?;
    Ok(Edit::Delete { name, path })
}
