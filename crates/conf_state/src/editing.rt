// The rules of an edit, for a state in place and for a draft of one.
ghost use Rattle.std.specs.Prelude.{◌≡◌, ◌<◌, IsTrue, true, List, Result, Ok, Err, OnOk, IfErr, is_some, length};
ghost use Rattle.conf_state.specs.Prelude.{chars, Good, tree_of, config_limits};
ghost use Rattle.conf_state.specs.Commands.{edit_of, text_of, import_as, set_at, delete_at};
ghost use Rattle.conf_state.specs.Edits.{configs_edited};
ghost use Rattle.conf_state.specs.Names.{good_name};
ghost use Rattle.conf_state.specs.States.{Entry, config_named, put_config, cut_config};
ghost use Rattle.conf_state.specs.Steps.{checked_tree, configs_after, edited};
ghost use Rattle.conf_state.specs.declared.fault.StoreFault.{StoreFault};

use crate::command::Edit;
use crate::fault::StoreFault;
use crate::name::{absence, good_name};
use std::alloc::Global;
use yaml_config::{Config, Edit as PathEdit, Limits};

/// Makes changes of configurations by name: in a state in place, or on a draft of one. [`make_edit`] has the rules by
/// which an edit is one of these changes, or is refused.
pub(crate) trait Editor {
    /// What is changed.
    type Target;

    /// The configurations that a target stands for.
    ghost configs: { Self → Self.Target → List Entry };

    /// A target may be changed.
    ghost IsReady: { Self → Self.Target → Type 0 };

    /// How a change ends that makes these configurations or is refused: the target before it, what it makes, the
    /// result, and the target after it.
    ghost Ends: { Self → Self.Target → Result (List Entry) StoreFault
        → Result (Unit {0}) StoreFault → Self.Target → Type 0 };

    /// Whether there is a configuration under a name.
    fn has(&self, target: &Self::Target, name: &str) -> bool
        requires { IsReady self.now target.now }
        ensures found { result
            ≡ is_some (config_named (configs self.now target.now) (chars name.now)) }
        ensures named { IsTrue result → good_name (chars name.now) ≡ true };

    /// Puts a configuration under a name.
    fn put(&self, target: &mut Self::Target, name: String, config: Config) -> Result<(), StoreFault>
        requires ready { IsReady self.now target.old }
        requires named { good_name (text_of name) ≡ true }
        requires within { Good (tree_of config) config_limits }
        ensures { Ends self.now target.old (Ok (put_config (configs self.now target.old)
            (text_of name) (tree_of config))) result target.new };

    /// Makes an edit inside the configuration under a name, at a pointer that is not empty. The name is tested only if
    /// no configuration has it.
    fn edit(
        &self,
        alloc: Global,
        target: &mut Self::Target,
        name: String,
        pointer: &str,
        edit: PathEdit,
    ) -> Result<(), StoreFault>
        requires ready { IsReady self.now target.old }
        requires steps { 0 < length pointer.now }
        ensures { Ends self.now target.old (configs_edited (configs self.now target.old)
            (text_of name) edit (chars pointer.now)) result target.new };

    /// Removes the configuration under a name, if there is one.
    fn remove(&self, target: &mut Self::Target, name: String) -> Result<(), StoreFault>
        requires { IsReady self.now target.old }
        ensures { Ends self.now target.old (Ok (cut_config (configs self.now target.old)
            (text_of name))) result target.new };

    /// An edit that is refused before any change may end so.
    ghost refused: { (editor : Self) (target : Self.Target) (fault : StoreFault)
        → Ends editor target (Err fault) (Err fault) target };
}

/// Makes an edit. At the empty path a set or a delete is of the whole configuration.
///
/// # Errors
/// `BadName`; then `NoConfig`, but not of an import; the fault of the path; `TooDeep` and `ConfigLarge`; and then the
/// editor's own. `OutOfMemory` may come at any point.
pub(crate) fn make_edit<E: Editor>(
    alloc: Global,
    editor: &E,
    target: &mut E::Target,
    edit: Edit,
) -> Result<(), StoreFault>
    requires { E.IsReady editor.now target.old }
    ensures { E.Ends editor.now target.old
        (edited (E.configs editor.now target.old) (edit_of edit)) result target.new }
{
    match edit {
        Edit::Import { name, tree } => import(editor, target, name, tree),
        Edit::Set { name, path, value } => set(alloc, editor, target, name, &path, value),
        Edit::Delete { name, path } => delete(alloc, editor, target, name, &path),
    }
}

fn import<E: Editor>(
    editor: &E,
    target: &mut E::Target,
    name: String,
    config: Config,
) -> Result<(), StoreFault>
    requires { E.IsReady editor.now target.old }
    ensures { E.Ends editor.now target.old (edited (E.configs editor.now target.old)
        (import_as (text_of name) (tree_of config))) result target.new }
{
    if !good_name(&name) {
        return Err(StoreFault::BadName);
    }
    put_within(editor, target, name, config)
}

/// Puts a configuration under a good name, if it is within its limits.
fn put_within<E: Editor>(
    editor: &E,
    target: &mut E::Target,
    name: String,
    config: Config,
) -> Result<(), StoreFault>
    requires ready { E.IsReady editor.now target.old }
    requires named { good_name (text_of name) ≡ true }
    ensures { E.Ends editor.now target.old (configs_after (E.configs editor.now target.old)
        (import_as (text_of name) (tree_of config))) result target.new }
{
    check_limits(&config)?;
    editor.put(target, name, config)
}

fn set<E: Editor>(
    alloc: Global,
    editor: &E,
    target: &mut E::Target,
    name: String,
    path: &str,
    value: Config,
) -> Result<(), StoreFault>
    requires { E.IsReady editor.now target.old }
    ensures { E.Ends editor.now target.old (edited (E.configs editor.now target.old)
        (set_at (text_of name) (chars path.now) (tree_of value))) result target.new }
{
    if !path.is_empty() {
        return editor.edit(alloc, target, name, path, PathEdit::Set(value));
    }
    if !editor.has(target, &name) {
        return Err(absence(&name));
    }
    put_within(editor, target, name, value)
}

fn delete<E: Editor>(
    alloc: Global,
    editor: &E,
    target: &mut E::Target,
    name: String,
    path: &str,
) -> Result<(), StoreFault>
    requires { E.IsReady editor.now target.old }
    ensures { E.Ends editor.now target.old (edited (E.configs editor.now target.old)
        (delete_at (text_of name) (chars path.now))) result target.new }
{
    if !path.is_empty() {
        return editor.edit(alloc, target, name, path, PathEdit::Delete);
    }
    if !editor.has(target, &name) {
        return Err(absence(&name));
    }
    editor.remove(target, name)
}

/// Checks that a configuration is within the limits of a store's configurations. Returns `TooDeep` or `ConfigLarge` if
/// it isn't.
pub(crate) fn check_limits(config: &Config) -> Result<(), StoreFault>
    ensures ok { OnOk result (checked_tree (tree_of config.now) ≡ Ok (tree_of config.now)) }
    ensures within { OnOk result (Good (tree_of config.now) config_limits) }
    ensures refused { IfErr result (λ fault. checked_tree (tree_of config.now) ≡ Err fault) }
{
    if config.depth() > Limits::CONFIGURATION.depth {
        return Err(StoreFault::TooDeep);
    }
    if config.style_length() > Limits::CONFIGURATION.style {
        return Err(StoreFault::ConfigLarge);
    }
    Ok(())
}
