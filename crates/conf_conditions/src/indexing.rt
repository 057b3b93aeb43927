// Conditions that are judged again and again look keys up.
ghost use Rattle.std.specs.Prelude.{◌≡◌};

use crate::condition::Condition;
use conf_disk::Disk;
use conf_store::Store;
use std::alloc::Global;
use tree_path::Path;

/// How many bytes a configuration has at least, in the one style, in which a search for a key is worth an index.
pub const LARGE: u64 = 4_096;

/// Gets a store ready to judge conditions like these more than once: in a large configuration the keys of the wide
/// mappings on the ways of their paths are indexed ([`Store::index_for`]). The store stays as it is, and nothing is
/// indexed where memory runs out.
pub fn index_for<D: Disk>(alloc: Global, store: &mut Store<D>, conditions: &[Condition])
    ensures { store.new ≡ store.old }
{
    'conditions: for condition in conditions {
        match condition {
            Condition::Test { name, path, .. } => index_place(alloc, store, name, path),
            Condition::Absent { name, path } => index_place(alloc, store, name, path),
            Condition::Count(_) => {}
        }
    }
}

/// The same for one path in the configuration under a name.
fn index_place<D: Disk>(alloc: Global, store: &mut Store<D>, name: &str, path: &str)
    ensures { store.new ≡ store.old }
{
    match store.config(name) {
        Ok(config) if config.style_length() >= LARGE => {}
        _ => return,
    }
    if let Ok(path) = Path::parse(alloc, path) {
        store.index_for(name, &path);
    }
}
