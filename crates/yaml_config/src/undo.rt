// A set in a configuration that can be taken back.
ghost use Rattle.std.specs.Prelude.{◌≡◌, ◌<◌, ◌≤◌, Ok, OnOk, OnErr, IfOk, IfErr, length};
ghost use Rattle.yaml_config.specs.Prelude.{ArePlaces, Good, byte_len, depth, set, style_text, tree_of, PathFault};
ghost use Rattle.yaml_grammar.specs.Trees.{Tree as Meant};
ghost use Rattle.yaml_config.specs.Limits.{config_limits};
ghost use Rattle.yaml_config.specs.Undoing.{TakesBack};

use crate::config::Config;
use crate::edit::{noted_set, with_walk};
use std::alloc::Global;
use std::mem;
use tree_path::{Path, PathFault, StepPlaces, Undo as TreeUndo, set_undoable, undo_set};

/// What takes a set in a configuration back.
#[derive(Drop)]
pub struct Undo {
    tree: TreeUndo,
    /// How many bytes the configuration had in the one style.
    length: u64,
}

impl Config {
    /// Puts a value at a path that is not empty, as [`Edit::perform`](crate::Edit::perform) does, and returns what
    /// takes it back. `places` are those of the path's steps, and `bytes` is how many bytes the configuration then has
    /// in the one style. Returns `OutOfMemory` if memory runs out, and then changes nothing; no other fault comes.
    pub fn set_planned(
        &mut self,
        alloc: Global,
        path: &Path,
        places: StepPlaces,
        bytes: u64,
        value: Config,
    ) -> Result<Undo, PathFault>
        requires steps { 0 < length path.now }
        requires places { ArePlaces places (tree_of self.old) path.now }
        requires leaves { (new : Meant)
            × (set (tree_of self.old) path.now (tree_of value) ≡ Ok new)
            × (depth new ≤ config_limits.depth)
            × (byte_len (style_text new) ≤ config_limits.style)
            × (bytes ≡ byte_len (style_text new)) }
        ensures ok { OnOk result (set (tree_of self.old) path.now (tree_of value)
            ≡ Ok (tree_of self.new)) }
        ensures within { OnOk result (Good (tree_of self.new) config_limits) }
        ensures undo { IfOk result (λ undo. TakesBack undo (tree_of self.new) (tree_of self.old)) }
        ensures refused { IfErr result (λ fault. fault ≡ PathFault.OutOfMemory) }
        ensures unchanged { OnErr result (tree_of self.new ≡ tree_of self.old) }
    {
        let index = with_walk(self.take_index(), alloc, self.tree(), path, &places);
        let index = noted_set(index, self.tree(), path, &places);
        let length = self.style_length();
        let mut tree = mem::replace(self, Config::empty()).into_tree();
        match set_undoable(alloc, &mut tree, path, places, value.into_tree()) {
            Ok(undo) => {
                *self = Config::from_parts(tree, bytes);
                self.put_index(index);
                Ok(Undo { tree: undo, length })
            }
            Err((_, fault)) => {
                *self = Config::from_parts(tree, length);
                Err(fault)
            }
        }
    }

    /// Takes back the set that made this configuration. It takes no memory. The configuration has no index then.
    pub fn undo(&mut self, undo: Undo)
        requires { (before : Meant) × TakesBack undo (tree_of self.old) before }
        ensures { (before : Meant) → TakesBack undo (tree_of self.old) before
            → tree_of self.new ≡ before }
    {
        let mut tree = mem::replace(self, Config::empty()).into_tree();
        undo_set(&mut tree, undo.tree);
        *self = Config::from_parts(tree, undo.length);
    }
}
