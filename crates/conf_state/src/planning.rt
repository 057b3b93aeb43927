// Edits inside one configuration, within its limits.
ghost use Rattle.std.specs.Prelude.{◌≡◌, ◌⊎◌, ◌<◌, Ok, Err, OnOk, OnErr, IfOk, IfErr, length};
ghost use Rattle.conf_state.specs.Prelude.{chars, path_of, Good, tree_of, Changes, tree_after_edit, config_limits};
ghost use Rattle.yaml_config.specs.Undoing.{TakesBack};
ghost use Rattle.yaml_config.specs.declared.edit.Edit.TheVariants.{Set};
ghost use Rattle.conf_state.specs.Edits.{edited_at, IsPlan};

use crate::fault::StoreFault;
use std::alloc::Global;
use tree_path::{Path, StepPlaces};
use yaml_config::{Change, Config, Edit as PathEdit, Limits, Undo};

/// How an edit inside a configuration will be made: at which path, with the places of the path's steps, how many bytes
/// the configuration then has in the one style, and what changes in its length.
#[derive(Drop)]
pub(crate) struct EditPlan<'p> {
    pub(crate) path: Path<'p>,
    pub(crate) places: StepPlaces,
    pub(crate) bytes: u64,
    pub(crate) change: Change,
}

impl<'p> EditPlan<'p> {
    /// Plans an edit at a pointer that is not empty. The configuration then keeps its limits.
    ///
    /// # Errors
    /// The fault of the pointer or the path, `TooDeep` or `ConfigLarge`.
    pub fn new(
        alloc: Global,
        config: &Config,
        pointer: &'p str,
        edit: &PathEdit,
    ) -> Result<EditPlan<'p>, StoreFault>
        requires within { Good (tree_of config.now) config_limits }
        requires steps { 0 < length pointer.now }
        ensures ok { IfOk result (IsPlan edit.now (tree_of config.now)) }
        ensures path { IfOk result (λ plan. path_of (chars pointer.now) ≡ Ok plan.path) }
        ensures refused { IfErr result (λ fault. (fault ≡ StoreFault.OutOfMemory)
            ⊎ (edited_at edit.now (tree_of config.now) (chars pointer.now) ≡ Err fault)) }
    {
        let path = Path::parse(alloc, pointer)?;
        let plan = edit.plan(alloc, config, &path)?;
        if !edit.keeps_depth(&path) {
            return Err(StoreFault::TooDeep);
        }
        let bytes = plan.change.length_after(config.style_length(), 0);
        if bytes > u128::from(Limits::CONFIGURATION.style) {
            return Err(StoreFault::ConfigLarge);
        }
        Ok(EditPlan {
            path,
            places: plan.places,
            bytes: bytes as u64,
            change: plan.change,
        })
    }

    /// Makes the edit that was planned, in place, in the configuration that it was planned for. It fails only if memory
    /// runs out, and then changes nothing.
    pub fn perform(
        &self,
        alloc: Global,
        config: &mut Config,
        edit: PathEdit,
    ) -> Result<(), StoreFault>
        requires { IsPlan edit (tree_of config.old) self.now }
        ensures ok { OnOk result (tree_after_edit edit (tree_of config.old) self.now.path
            ≡ Ok (tree_of config.new)) }
        ensures within { OnOk result (Good (tree_of config.new) config_limits) }
        ensures refused { IfErr result (λ fault. fault ≡ StoreFault.OutOfMemory) }
        ensures unchanged { OnErr result (tree_of config.new ≡ tree_of config.old) }
    {
        edit.perform(alloc, config, &self.path, &self.places, self.bytes)?;
        Ok(())
    }
}

/// Plans an edit inside a configuration, and makes it, as [`EditPlan::new`] and [`EditPlan::perform`] do. Returns what
/// it changes in the configuration's length.
pub(crate) fn edit_config(
    alloc: Global,
    config: &mut Config,
    pointer: &str,
    edit: PathEdit,
) -> Result<Change, StoreFault>
    requires within { Good (tree_of config.old) config_limits }
    requires steps { 0 < length pointer.now }
    ensures ok { OnOk result (edited_at edit (tree_of config.old) (chars pointer.now)
        ≡ Ok (tree_of config.new)) }
    ensures changes { IfOk result (λ change.
        Changes change (tree_of config.old) (tree_of config.new)) }
    ensures within { OnOk result (Good (tree_of config.new) config_limits) }
    ensures refused { IfErr result (λ fault. (fault ≡ StoreFault.OutOfMemory)
        ⊎ (edited_at edit (tree_of config.old) (chars pointer.now) ≡ Err fault)) }
{
    let plan = EditPlan::new(alloc, config, pointer, &edit)?;
    plan.perform(alloc, config, edit)?;
    Ok(plan.change)
}

/// Plans a set inside a configuration, and makes it. Returns what takes it back, and what it changes in the
/// configuration's length. A refusal changes nothing.
pub(crate) fn set_in_config(
    alloc: Global,
    config: &mut Config,
    pointer: &str,
    value: Config,
) -> Result<(Undo, Change), StoreFault>
    requires within { Good (tree_of config.old) config_limits }
    requires steps { 0 < length pointer.now }
    ensures ok { OnOk result (edited_at (Set value) (tree_of config.old) (chars pointer.now)
        ≡ Ok (tree_of config.new)) }
    ensures undo { IfOk result (λ made.
        TakesBack made.0 (tree_of config.new) (tree_of config.old)) }
    ensures changes { IfOk result (λ made.
        Changes made.1 (tree_of config.old) (tree_of config.new)) }
    ensures within { OnOk result (Good (tree_of config.new) config_limits) }
    ensures refused { IfErr result (λ fault. (fault ≡ StoreFault.OutOfMemory)
        ⊎ (edited_at (Set value) (tree_of config.old) (chars pointer.now) ≡ Err fault)) }
    ensures unchanged { OnErr result (tree_of config.new ≡ tree_of config.old) }
{
    let edit = PathEdit::Set(value);
    let EditPlan {
        path,
        places,
        bytes,
        change,
    } = EditPlan::new(alloc, config, pointer, &edit)?;
    let PathEdit::Set(value) = edit else {
        unreachable!()
    };
    let undo = config.set_planned(alloc, &path, places, bytes, value)?;
    Ok((undo, change))
}
