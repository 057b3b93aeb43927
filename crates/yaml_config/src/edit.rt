// Edits inside a configuration, planned and made.
ghost use Rattle.std.specs.Prelude.{◌≡◌, ◌⊎◌, ◌<◌, ◌≤◌, true, Ok, Err, OnOk, OnErr, IfOk, IfErr, IfSome, length};
ghost use Rattle.std.specs.Prelude.{nat_le};
ghost use Rattle.yaml_config.specs.Prelude.{Good, byte_len, depth, distinct, style_text, tree_of, ArePlaces, Indexes};
ghost use Rattle.yaml_config.specs.Prelude.{PathFault, set};
ghost use Rattle.yaml_grammar.specs.Trees.{Tree as Meant};
ghost use Rattle.yaml_config.specs.Changes.{Changes};
ghost use Rattle.yaml_config.specs.Edits.{tree_after_edit};
ghost use Rattle.yaml_config.specs.Limits.{config_limits};

use crate::change::Slot;
use crate::config::Config;
use crate::limits::Limits;
use crate::measure::{Plan, plan_delete, plan_set_sized};
use std::alloc::Global;
use std::mem;
use tree_path::{KeyIndex, Path, PathFault, StepPlaces, delete_planned, set_planned};
use yaml_data::Tree;

/// An edit of a configuration, at a path that is not empty (RFC 6901). It can be planned before anything changes, and
/// is then made in place.
#[derive(Drop)]
pub enum Edit {
    /// Puts a value there.
    Set(Config),
    /// Removes what is there.
    Delete,
}

impl Edit {
    /// What the edit changes in the configuration's length, and the places of the path's steps. It changes nothing.
    /// Returns the fault of the path that [`tree_path::set`] or [`tree_path::delete`] would return, or
    /// [`PathFault::OutOfMemory`].
    pub fn plan(&self, alloc: Global, config: &Config, path: &Path) -> Result<Plan, PathFault>
        requires { 0 < length path.now }
        ensures ok { IfOk result (λ plan. (new : Meant)
            × (tree_after_edit self.now (tree_of config.now) path.now ≡ Ok new)
            × Changes plan.change (tree_of config.now) new) }
        ensures places { IfOk result (λ plan.
            ArePlaces plan.places (tree_of config.now) path.now) }
        ensures refused { IfErr result (λ fault. (fault ≡ PathFault.OutOfMemory)
            ⊎ (tree_after_edit self.now (tree_of config.now) path.now ≡ Err fault)) }
    {
        match self {
            Edit::Set(value) => {
                let element = value.size(Slot::Element);
                plan_set_sized(alloc, config, path, value.tree(), element)
            }
            Edit::Delete => plan_delete(alloc, config, path),
        }
    }

    /// Whether a configuration that keeps the limit of depth ([`Limits::CONFIGURATION`]) keeps it after the edit too.
    pub fn keeps_depth(&self, path: &Path) -> bool
        ensures { (t new : Meant) → depth t ≤ config_limits.depth
            → tree_after_edit self.now t path.now ≡ Ok new
            → result ≡ nat_le (depth new) config_limits.depth }
    {
        match self {
            Edit::Set(value) => {
                (path.steps() as u64).saturating_add(value.depth()) <= Limits::CONFIGURATION.depth
            }
            Edit::Delete => true,
        }
    }

    /// Makes the edit that was planned: `places` are those of the path's steps, and `bytes` is how many bytes the
    /// configuration then has in the one style. It is then within the limits, too. Returns `OutOfMemory` if memory runs
    /// out, and then changes nothing; no other fault comes.
    pub fn perform(
        self,
        alloc: Global,
        config: &mut Config,
        path: &Path,
        places: &StepPlaces,
        bytes: u64,
    ) -> Result<(), PathFault>
        requires steps { 0 < length path.now }
        requires places { ArePlaces places.now (tree_of config.old) path.now }
        requires leaves { (new : Meant)
            × (tree_after_edit self (tree_of config.old) path.now ≡ Ok new)
            × (depth new ≤ config_limits.depth)
            × (byte_len (style_text new) ≤ config_limits.style)
            × (bytes ≡ byte_len (style_text new)) }
        ensures ok { OnOk result (tree_after_edit self (tree_of config.old) path.now
            ≡ Ok (tree_of config.new)) }
        ensures within { OnOk result (Good (tree_of config.new) config_limits) }
        ensures refused { IfErr result (λ fault. fault ≡ PathFault.OutOfMemory) }
        ensures unchanged { OnErr result (tree_of config.new ≡ tree_of config.old) }
    {
        let index = with_walk(config.take_index(), alloc, config.tree(), path, places);
        let index = self.noted_in(index, config.tree(), path, places);
        self.edit_config(alloc, config, path, places, bytes)?;
        config.put_index(index);
        Ok(())
    }

    /// The index of a wide mapping of this tree, as it is after the edit.
    fn noted_in(
        &self,
        index: Option<Box<KeyIndex>>,
        tree: &Tree,
        path: &Path,
        places: &StepPlaces,
    ) -> Option<Box<KeyIndex>>
        requires steps { 0 < length path.now }
        requires places { ArePlaces places.now (tree_of tree.now) path.now }
        requires index { IfSome index (λ index. Indexes index.value (tree_of tree.now)) }
        ensures { (new : Meant) → tree_after_edit self.now (tree_of tree.now) path.now ≡ Ok new
            → IfSome result (λ index. Indexes index.value new) }
    {
        let Some(mut index) = index else {
            return None;
        };
        match self {
            Edit::Set(_) => index.note_set(tree, path, places),
            Edit::Delete => index.note_delete(tree, path, places),
        }
        Some(index)
    }

    /// Makes the edit that was planned, as [`Edit::perform`] does, in a configuration that has no index.
    fn edit_config(
        self,
        alloc: Global,
        config: &mut Config,
        path: &Path,
        places: &StepPlaces,
        bytes: u64,
    ) -> Result<(), PathFault>
        requires steps { 0 < length path.now }
        requires places { ArePlaces places.now (tree_of config.old) path.now }
        requires leaves { (new : Meant)
            × (tree_after_edit self (tree_of config.old) path.now ≡ Ok new)
            × (depth new ≤ config_limits.depth)
            × (byte_len (style_text new) ≤ config_limits.style)
            × (bytes ≡ byte_len (style_text new)) }
        ensures ok { OnOk result (tree_after_edit self (tree_of config.old) path.now
            ≡ Ok (tree_of config.new)) }
        ensures within { OnOk result (Good (tree_of config.new) config_limits) }
        ensures refused { IfErr result (λ fault. fault ≡ PathFault.OutOfMemory) }
        ensures unchanged { OnErr result (tree_of config.new ≡ tree_of config.old) }
    {
        let before = config.style_length();
        let mut tree = mem::replace(config, Config::empty()).into_tree();
        match self.edit_tree(alloc, &mut tree, path, places) {
            Ok(()) => {
                *config = Config::from_parts(tree, bytes);
                Ok(())
            }
            Err(fault) => {
                *config = Config::from_parts(tree, before);
                Err(fault)
            }
        }
    }

    /// Makes the edit in a tree, where the places of the path's steps are known. A fault changes nothing.
    fn edit_tree(
        self,
        alloc: Global,
        tree: &mut Tree,
        path: &Path,
        places: &StepPlaces,
    ) -> Result<(), PathFault>
        requires steps { 0 < length path.now }
        requires places { ArePlaces places.now (tree_of tree.old) path.now }
        ensures ok { OnOk result (tree_after_edit self (tree_of tree.old) path.now
            ≡ Ok (tree_of tree.new)) }
        ensures distinct { OnOk result (distinct (tree_of tree.old) ≡ true
            → distinct (tree_of tree.new) ≡ true) }
        ensures refused { IfErr result (λ fault. (fault ≡ PathFault.OutOfMemory)
            ⊎ (tree_after_edit self (tree_of tree.old) path.now ≡ Err fault)) }
        ensures unchanged { OnErr result (tree_of tree.new ≡ tree_of tree.old) }
    {
        match self {
            Edit::Set(value) => {
                let value = value.into_tree();
                if let Err((_, fault)) = set_planned(alloc, tree, path, places, value) {
                    return Err(fault);
                }
                Ok(())
            }
            Edit::Delete => {
                let _ = delete_planned(tree, path, places)?;
                Ok(())
            }
        }
    }
}

/// The index of a wide mapping of this tree, as it is once a value is set at a path.
pub(crate) fn noted_set(
    index: Option<Box<KeyIndex>>,
    tree: &Tree,
    path: &Path,
    places: &StepPlaces,
) -> Option<Box<KeyIndex>>
    requires steps { 0 < length path.now }
    requires places { ArePlaces places.now (tree_of tree.now) path.now }
    requires index { IfSome index (λ index. Indexes index.value (tree_of tree.now)) }
    ensures { (value new : Meant) → set (tree_of tree.now) path.now value ≡ Ok new
        → IfSome result (λ index. Indexes index.value new) }
{
    let Some(mut index) = index else {
        return None;
    };
    index.note_set(tree, path, places);
    Some(index)
}

/// The index, after a search for the steps of a path: it is made or replaced if there were some walks along wide
/// mappings and there is memory.
pub(crate) fn with_walk(
    index: Option<Box<KeyIndex>>,
    alloc: Global,
    tree: &Tree,
    path: &Path,
    places: &StepPlaces,
) -> Option<Box<KeyIndex>>
    requires { IfSome index (λ index. Indexes index.value (tree_of tree.now)) }
    ensures { IfSome result (λ index. Indexes index.value (tree_of tree.now)) }
{
    if places.walked.is_none() {
        return index;
    }
    let mut index = match index {
        Some(index) => index,
        None => new_index(alloc)?,
    };
    index.count_walk(alloc, tree, path, places);
    Some(index)
}

/// An index that knows nothing; `None` if memory runs out.
fn new_index(alloc: Global) -> Option<Box<KeyIndex>>
    ensures { IfSome result (λ index. (t : Meant) → Indexes index.value t) }
{
    match Box::new(alloc, KeyIndex::new(alloc)) {
        Ok(index) => Some(index),
        Err(_) => None,
    }
}
