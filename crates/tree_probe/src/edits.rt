// Places of trees, edits and their lengths.
use crate::texts::config_of;
use probe_words::{no_order, no_place, shown};
use std::alloc::{AllocError, Global};
use tree_path::{Path, PathFault, at, delete, set};
use yaml_config::{delete_len, set_len};
use yaml_tree::Tree;

/// What is at a path of a tree.
pub(crate) fn at_path(alloc: Global, tree: &Tree, path: &str) -> Result<String, AllocError> {
    match Path::parse(alloc, path).and_then(|path| at(tree, &path)) {
        Ok(found) => shown(alloc, found),
        Err(fault) => shown(alloc, &fault),
    }
}

/// Sets the tree of a text at a path.
pub(crate) fn set_path(
    alloc: Global,
    tree: &mut Tree,
    path: &str,
    value: &str,
) -> Result<String, AllocError> {
    let (Ok(path), Ok(value)) = (Path::parse(alloc, path), config_of(alloc, value)) else {
        return no_place(alloc);
    };
    match set(alloc, tree, &path, value.into_tree()) {
        Ok(()) => shown(alloc, tree),
        Err((back, fault)) => format!(in alloc; "{fault:?} {back:?} {tree:?}"),
    }
}

/// The value that deleting at a path removes from a tree. The empty path is refused.
fn deleted(alloc: Global, tree: &mut Tree, path: &str) -> Result<Tree, PathFault> {
    let path = Path::parse(alloc, path)?;
    if path.steps() == 0 {
        return Err(PathFault::BadPath { at: 0 });
    }
    delete(tree, &path)
}

/// Deletes what is at a path.
pub(crate) fn delete_path(
    alloc: Global,
    tree: &mut Tree,
    path: &str,
) -> Result<String, AllocError> {
    match deleted(alloc, tree, path) {
        Ok(removed) => format!(in alloc; "{removed:?} {tree:?}"),
        Err(fault) => format!(in alloc; "{fault:?} {tree:?}"),
    }
}

/// The length of a tree after another one is set at a path.
pub(crate) fn set_len_at(alloc: Global, whole: &str, words: &str) -> Result<String, AllocError> {
    let Some((path, value)) = words.split_once(';') else {
        return no_order(alloc);
    };
    match length_after_set(alloc, whole, path, value) {
        Some(length) => shown(alloc, &length),
        None => no_place(alloc),
    }
}

/// The length after the edit, or `None` if a word is written wrongly.
fn length_after_set(
    alloc: Global,
    whole: &str,
    path: &str,
    value: &str,
) -> Option<Result<u128, PathFault>> {
    let path = Path::parse(alloc, path).ok()?;
    let whole = config_of(alloc, whole).ok()?;
    let value = config_of(alloc, value).ok()?;
    Some(set_len(&whole, &path, value.tree()))
}

/// The length of a tree after what is at a path is deleted.
pub(crate) fn delete_len_at(alloc: Global, whole: &str, path: &str) -> Result<String, AllocError> {
    match length_after_delete(alloc, whole, path) {
        Some(length) => shown(alloc, &length),
        None => no_place(alloc),
    }
}

/// The length after the edit, or `None` if a word is written wrongly or the path is empty.
fn length_after_delete(alloc: Global, whole: &str, path: &str) -> Option<Result<u128, PathFault>> {
    let path = Path::parse(alloc, path).ok()?;
    if path.steps() == 0 {
        return None;
    }
    let whole = config_of(alloc, whole).ok()?;
    Some(delete_len(&whole, &path))
}
