// Orders on folders of the system.
use crate::folders::Folders;
use std::alloc::{AllocError, Global};

/// The answer to an order of the group `folder`.
pub(crate) fn answer(
    alloc: Global,
    folders: &mut Folders<'_>,
    words: &[&str],
) -> Result<String, AllocError> {
    match words {
        ["make", name] => folders.make(alloc, name),
        ["remove", name] => folders.remove(alloc, name),
        ["unmake"] => folders.unmake(alloc),
        ["files", name] => folders.files(alloc, name),
        ["write", path, bytes] => folders.write(alloc, path, bytes),
        ["replace", path, bytes] => folders.replace(alloc, path, bytes),
        ["unlink", path] => folders.unlink(alloc, path),
        ["show", path] => folders.show(alloc, path),
        ["take", name] => folders.take(alloc, name),
        ["take_store", name] => folders.take_store(alloc, name),
        ["take_new", name] => folders.take_new(alloc, name),
        ["take_for_reading", name] => folders.take_for_reading(alloc, name),
        ["cause"] => folders.cause(alloc),
        ["release"] => folders.release(alloc),
        ["close"] => folders.close(alloc),
        words => folders.call(alloc, words),
    }
}
