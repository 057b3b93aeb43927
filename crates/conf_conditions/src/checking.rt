// Conditions are judged, one after the other, on the state of a store.
ghost use Rattle.std.specs.Prelude.{◌≡◌, ◌≢◌, true, None, Some, Ok, Err, OnOk, IfOk, IfErr, option_map, cond};
ghost use Rattle.std.specs.Str.{chars};
ghost use Rattle.yaml_data.specs.Seen.{tree_of};
ghost use Rattle.conf_state.specs.Commands.{text_of};
ghost use Rattle.conf_state.specs.Names.{good_name};
ghost use Rattle.conf_conditions.specs.Conditions.{Judges, absent_at, condition_of, conditions_of, fault_of, first_fault, found_at, test_at, unless_met, value_in};

use crate::condition::Condition;
use crate::fault::ConditionFault;
use crate::same_tree::is_same_tree;
use conf_disk::Disk;
use conf_state::good_name;
use conf_store::Store;
use std::alloc::Global;
use tree_path::{Path, PathFault};
use yaml_data::Tree;

/// Judges conditions in order on the state of a store. It changes nothing, and takes memory for the tokens of one path
/// at a time.
///
/// # Errors
/// Of the first condition that does not hold:
///
/// - `BadName` if its name may not be used.
/// - `Path` if its path is no pointer (RFC 6901, 3).
/// - `Unmet` if the state is another one than it says. A pointer that leads nowhere leads to no value.
///
/// `OutOfMemory` may come at any condition that has a path, and says nothing of it. All before it hold.
pub fn check<D: Disk>(
    alloc: Global,
    store: &Store<D>,
    conditions: &[Condition],
) -> Result<(), ConditionFault>
    ensures ok { OnOk result (first_fault store.now.state (conditions_of conditions.now) ≡ None) }
    ensures refused { IfErr result (λ fault. fault ≢ ConditionFault.OutOfMemory
        → first_fault store.now.state (conditions_of conditions.now) ≡ Some fault) }
{
    'conditions: for condition in conditions {
        if let Err(fault) = judge(alloc, store, condition) {
            return Err(fault);
        }
    }
    Ok(())
}

/// Judges one condition.
fn judge<D: Disk>(
    alloc: Global,
    store: &Store<D>,
    condition: &Condition,
) -> Result<(), ConditionFault>
    ensures { Judges (fault_of store.now.state (condition_of condition.now)) result }
{
    match condition {
        Condition::Test { name, path, value } => test(alloc, store, name, path, value.tree()),
        Condition::Absent { name, path } => test_absent(alloc, store, name, path),
        Condition::Count(count) => met_if(store.count() == *count),
    }
}

/// Judges whether the value at a path of a configuration is this tree.
fn test<D: Disk>(
    alloc: Global,
    store: &Store<D>,
    name: &str,
    path: &str,
    value: &Tree,
) -> Result<(), ConditionFault>
    ensures { Judges (fault_of store.now.state
        (test_at (chars name.now) (chars path.now) (tree_of value.now))) result }
{
    match find(alloc, store, name, path) {
        Ok(Some(found)) => met_if(is_same_tree(found, value)),
        Ok(None) => Err(ConditionFault::Unmet),
        Err(fault) => Err(fault),
    }
}

/// Judges whether nothing is at a path of a configuration, or no configuration has the name.
fn test_absent<D: Disk>(
    alloc: Global,
    store: &Store<D>,
    name: &str,
    path: &str,
) -> Result<(), ConditionFault>
    ensures { Judges (fault_of store.now.state
        (absent_at (chars name.now) (chars path.now))) result }
{
    match find(alloc, store, name, path) {
        Ok(found) => met_if(found.is_none()),
        Err(fault) => Err(fault),
    }
}

/// `Unmet` unless this holds.
fn met_if(holds: bool) -> Result<(), ConditionFault>
    ensures { Judges (unless_met holds) result }
{
    if holds {
        Ok(())
    } else {
        Err(ConditionFault::Unmet)
    }
}

/// The value at a path of a configuration; `None` if no configuration has the name, or the path leads nowhere.
///
/// # Errors
/// `BadName` if the name may not be used, and then `Path` if the path is no pointer. `OutOfMemory`.
fn find<'s, D: Disk>(
    alloc: Global,
    store: &'s Store<D>,
    name: &str,
    path: &str,
) -> Result<Option<&'s Tree>, ConditionFault>
    ensures ok { IfOk result (λ found.
        found_at store.now.state (chars name.now) (chars path.now)
        ≡ Ok (option_map (λ t. tree_of t.now) found)) }
    ensures refused { IfErr result (λ fault. fault ≢ ConditionFault.OutOfMemory
        → found_at store.now.state (chars name.now) (chars path.now) ≡ Err fault) }
{
    if !good_name(name) {
        return Err(ConditionFault::BadName);
    }
    match Path::parse(alloc, path) {
        Ok(path) => Ok(value_in(store, name, &path)),
        Err(PathFault::OutOfMemory) => Err(ConditionFault::OutOfMemory),
        Err(fault) => Err(ConditionFault::Path(fault)),
    }
}

/// The value at a path in the configuration under a good name, if there is one.
fn value_in<'s, D: Disk>(store: &'s Store<D>, name: &str, path: &Path) -> Option<&'s Tree>
    requires { good_name (chars name.now) ≡ true }
    ensures { option_map (λ t. tree_of t.now) result
        ≡ value_in store.now.state (chars name.now) path.now }
{
    match store.get(name, path) {
        Ok(value) => Some(value),
        Err(_) => None,
    }
}
