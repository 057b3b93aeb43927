// The edits between two configurations.
ghost use Rattle.std.specs.Prelude.{◌≡◌, ◌∷◌, ◌++◌, [], true, List, Some, Ok, IfOk, OnOk, map, option_map};
ghost use Rattle.conf_diff.specs.Prelude.{Entry, IsKept, chars, change_of, config_named, delete_at, edit_of, good_name};
ghost use Rattle.conf_diff.specs.Prelude.{import_as, tree_of};
ghost use Rattle.conf_diff.specs.StateEdits.{AreKept, AreShort, IsKeptValue, config_edits, edit_in, place_edits};
ghost use Rattle.conf_diff.specs.StateEdits.{tree_edits, whole_edits};
ghost use Rattle.conf_diff.specs.Freely.{all_freely_edited, with_config};

use crate::text::{import_length, lines_length};
use conf_state::Edit;
use std::alloc::{AllocError, Global};
use tree_diff::{Edit as TreeEdit, diff};
use yaml_config::Config;
use yaml_data::Tree;
use yaml_writer::Size;

/// How many bytes the lines of edits at places have at most where an import would be shorter.
const FEW_BYTES: u128 = 1_024;

/// The edits that make the second configuration of the first under a name, in the order in which they have to be made.
/// Either may be missing: one that is new is imported, one that is gone is deleted. Between two that are there they are
/// those of [`tree_diff::diff`], which say what changed. Equal configurations have none.
///
/// Where the lines of these edits have more than 1,024 bytes, and more than an import of the second configuration has,
/// it is imported instead. So the edits are never much longer than the whole. It fails only if memory runs out.
///
/// What the edits make is said without the limits of a configuration. Between two edits it may be larger than both.
pub fn config_edits(
    alloc: Global,
    name: &str,
    first: Option<&Config>,
    second: Option<&Config>,
) -> Result<Vec<Edit>, AllocError>
    ensures edits_make_the_second { IfOk result (λ edits. (configs : List Entry)
        → good_name (chars name.now) ≡ true
        → config_named configs (chars name.now) ≡ option_map (λ c. tree_of c.now) first.entry
        → all_freely_edited configs (map edit_of edits.items)
        ≡ Ok (with_config configs (chars name.now) (option_map (λ c. tree_of c.now) second.entry))) }
    ensures equal_configurations_do_not_differ { option_map (λ c. tree_of c.now) first.entry
        ≡ option_map (λ c. tree_of c.now) second.entry
        → IfOk result (λ edits. edits.items ≡ []) }
    ensures no_longer_than_the_whole { IfOk result (λ edits. AreShort (map edit_of edits.items)
        (whole_edits (chars name.now) (option_map (λ c. tree_of c.now) first.entry)
        (option_map (λ c. tree_of c.now) second.entry))) }
    ensures edits { IfOk result (λ edits. map edit_of edits.items
        ≡ config_edits (chars name.now) (option_map (λ c. tree_of c.now) first.entry)
        (option_map (λ c. tree_of c.now) second.entry)) }
{
    let mut edits = Vec::new(alloc);
    append_edits(alloc, name, first, second, &mut edits)?;
    Ok(edits)
}

/// Appends the edits between two configurations under a name.
pub(crate) fn append_edits(
    alloc: Global,
    name: &str,
    first: Option<&Config>,
    second: Option<&Config>,
    edits: &mut Vec<Edit>,
) -> Result<(), AllocError>
    ensures edits { OnOk result (map edit_of edits.new.items ≡ map edit_of edits.old.items
        ++ config_edits (chars name.now) (option_map (λ c. tree_of c.now) first.entry)
        (option_map (λ c. tree_of c.now) second.entry)) }
    ensures kept { AreKept (option_map (λ c. tree_of c.now) first.entry)
        (option_map (λ c. tree_of c.now) second.entry) }
{
    match first {
        Some(first) => match second {
            Some(second) => append_differences(alloc, name, first, second, edits),
            None => append_delete(alloc, name, edits),
        },
        None => match second {
            Some(second) => append_import(alloc, name, second, edits),
            None => Ok(()),
        },
    }
}

/// Appends the deletion of the configuration under a name.
fn append_delete(alloc: Global, name: &str, edits: &mut Vec<Edit>) -> Result<(), AllocError>
    ensures { OnOk result (map edit_of edits.new.items ≡ map edit_of edits.old.items
        ++ delete_at (chars name.now) [] ∷ []) }
{
    let name = String::from_str(alloc, name)?;
    let path = String::new(alloc);
    edits.push(Edit::Delete { name, path })?;
    Ok(())
}

/// Appends the import of a copy of a configuration under a name.
fn append_import(
    alloc: Global,
    name: &str,
    config: &Config,
    edits: &mut Vec<Edit>,
) -> Result<(), AllocError>
    ensures { OnOk result (map edit_of edits.new.items ≡ map edit_of edits.old.items
        ++ import_as (chars name.now) (tree_of config.now) ∷ []) }
{
    let name = String::from_str(alloc, name)?;
    let tree = config.try_copy(alloc)?;
    edits.push(Edit::Import { name, tree })?;
    Ok(())
}

/// Appends the edits between two configurations that are both there.
fn append_differences(
    alloc: Global,
    name: &str,
    first: &Config,
    second: &Config,
    edits: &mut Vec<Edit>,
) -> Result<(), AllocError>
    ensures edits { OnOk result (map edit_of edits.new.items ≡ map edit_of edits.old.items
        ++ tree_edits (chars name.now) (tree_of first.now) (tree_of second.now)) }
    ensures kept { AreKept (Some (tree_of first.now)) (Some (tree_of second.now)) }
{
    let at_places = place_edits(alloc, name, first.tree(), second.tree())?;
    let length = lines_length(&at_places);
    if length > FEW_BYTES && length > import_length(name, second) {
        return append_import(alloc, name, second, edits);
    }
    append_all(edits, at_places)
}

/// The edits at the places where two trees differ, under a name.
fn place_edits(
    alloc: Global,
    name: &str,
    first: &Tree,
    second: &Tree,
) -> Result<Vec<Edit>, AllocError>
    requires first { IsKept (tree_of first.now) }
    requires second { IsKept (tree_of second.now) }
    ensures { IfOk result (λ edits. map edit_of edits.items
        ≡ place_edits (chars name.now) (tree_of first.now) (tree_of second.now)) }
{
    let mut edits = Vec::new(alloc);
    for difference in diff(alloc, first, second)? {
        edits.push(edit_in(alloc, name, difference)?)?;
    }
    Ok(edits)
}

/// Appends edits to others.
fn append_all(edits: &mut Vec<Edit>, more: Vec<Edit>) -> Result<(), AllocError>
    ensures { OnOk result (map edit_of edits.new.items
        ≡ map edit_of edits.old.items ++ map edit_of more.items) }
{
    for edit in more {
        edits.push(edit)?;
    }
    Ok(())
}

/// An edit of a tree, as one of the configuration under a name. A value is copied.
fn edit_in(alloc: Global, name: &str, difference: TreeEdit<'_>) -> Result<Edit, AllocError>
    requires { IsKeptValue (change_of difference).value }
    ensures { IfOk result (λ edit. edit_of edit
        ≡ edit_in (chars name.now) (change_of difference.entry)) }
{
    let name = String::from_str(alloc, name)?;
    match difference {
        TreeEdit::Set { path, value } => {
            let value = copy_of(alloc, value)?;
            Ok(Edit::Set { name, path, value })
        }
        TreeEdit::Delete { path } => Ok(Edit::Delete { name, path }),
    }
}

/// A copy of a tree within the limits, as a configuration.
fn copy_of(alloc: Global, tree: &Tree) -> Result<Config, AllocError>
    requires { IsKept (tree_of tree.now) }
    ensures { IfOk result (λ copy. tree_of copy ≡ tree_of tree.now) }
{
    let copy = tree.try_copy(alloc)?;
    let size = Size::of_element(&copy);
    Ok(Config::with_size(copy, size))
}
