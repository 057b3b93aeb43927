// Parts of a configuration's tree as configurations.
ghost use Rattle.std.specs.Prelude.{◌≡◌, IfOk};
ghost use Rattle.conf_record.specs.Prelude.{IsKept, tree_of, members_of, entries_of};
ghost use Rattle.conf_record.specs.RecordsRead.{entries};
ghost use Rattle.conf_record.specs.Reading.{AreKept, trees_of};

use std::alloc::{AllocError, Global};
use yaml_tree::{Config, Size, Text, Tree};

/// A part of a configuration's tree as a configuration of its own, which keeps all limits of a [`Config`] too. Its size
/// is counted, and kept with it. It takes no memory.
pub fn part(tree: Tree) -> Config
    requires { IsKept (tree_of tree) }
    ensures { result ≡ tree }
{
    let size = Size::of_element(&tree);
    Config::with_size(tree, size)
}

/// The same for the values of a mapping, under their keys. It fails only if memory runs out.
pub(crate) fn configurations(
    alloc: Global,
    pairs: Vec<(Text, Tree)>,
) -> Result<Vec<(String, Config)>, AllocError>
    requires { AreKept (trees_of pairs.items) }
    ensures { IfOk result (λ configs. entries_of configs.items
        ≡ entries (members_of pairs.items)) }
{
    let mut configs = Vec::with_capacity(alloc, pairs.len())?;
    for (name, tree) in pairs {
        let name = name.into_string(alloc)?;
        configs.push((name, part(tree)))?;
    }
    Ok(configs)
}
