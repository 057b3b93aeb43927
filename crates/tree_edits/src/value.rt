// A value that an edit makes.
ghost use Rattle.std.specs.Prelude.{◌≡◌, ◌≤◌, true, IfOk, IfErr};
ghost use Rattle.tree_edits.specs.Prelude.{depth, distinct, own_limits, tree_of};
ghost use Rattle.tree_edits.specs.Changes.{IsRefused};

use crate::fault::EditFault;
use yaml_config::{Config, Limits};
use yaml_data::Tree;

/// The configuration of a tree that is not too deep, and in each of whose mappings the keys differ. Returns
/// [`EditFault::TooLarge`] if it has more than 67,108,864 bytes in the one style.
pub(crate) fn value_of(tree: Tree) -> Result<Config, EditFault>
    requires keys { distinct (tree_of tree) ≡ true }
    requires depth { depth (tree_of tree) ≤ own_limits.depth }
    ensures ok { IfOk result (λ value. tree_of value ≡ tree_of tree) }
    ensures refused { IfErr result (λ fault. IsRefused (tree_of tree) fault) }
{
    match Config::with_distinct_keys(tree, &Limits::KEPT) {
        Ok(value) => Ok(value),
        Err(_) => Err(EditFault::TooLarge),
    }
}
