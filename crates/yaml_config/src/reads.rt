// Reads of a configuration, which are faster once the keys of a wide mapping are indexed.
ghost use Rattle.std.specs.Prelude.{◌≡◌, IfSome};
ghost use Rattle.yaml_config.specs.Prelude.{Indexes};
ghost use Rattle.yaml_grammar.specs.Trees.{Tree as Meant};

use crate::config::Config;
use crate::edit::with_walk;
use std::alloc::Global;
use tree_path::{KeyIndex, Path, StepPlaces};

impl Config {
    /// Gets ready for reads at a path: the keys of the last wide mapping on its way are indexed, so that
    /// [`Config::value_at`] need not walk along it. An index of another mapping is replaced only after some more walks.
    /// The tree stays as it is. Nothing is indexed where the path leads nowhere, or memory runs out.
    pub fn index_for(&mut self, alloc: Global, path: &Path)
        ensures { self.new ≡ self.old }
    {
        let Ok(places) = StepPlaces::find(alloc, self.tree(), path, self.index()) else {
            return;
        };
        if places.walked.is_none() {
            return;
        }
        let index = match self.take_index() {
            Some(index) => Some(index),
            None => eager_index(alloc),
        };
        let index = with_walk(index, alloc, self.tree(), path, &places);
        self.put_index(index);
    }
}

/// An index that is made at the first walk along a wide mapping; `None` if memory runs out.
fn eager_index(alloc: Global) -> Option<Box<KeyIndex>>
    ensures { IfSome result (λ index. (t : Meant) → Indexes index.value t) }
{
    match Box::new(alloc, KeyIndex::eager(alloc)) {
        Ok(index) => Some(index),
        Err(_) => None,
    }
}
