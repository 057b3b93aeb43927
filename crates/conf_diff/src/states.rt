// The edits between two states.
ghost use Rattle.std.specs.Prelude.{◌≡◌, ◌≤◌, ◌+◌, ◌*◌, ◌++◌, [], Ok, IfOk, OnOk, length, map};
ghost use Rattle.conf_diff.specs.Prelude.{IsState, all_edited, edit_of, names_of};
ghost use Rattle.conf_diff.specs.StateEdits.{entry_edits, few_bytes, whole_entry_edits};
ghost use Rattle.conf_diff.specs.EditTexts.{lines_length};
ghost use Rattle.conf_diff.specs.NamedEdits.{named_edits, names_left, new_named};
ghost use Rattle.conf_diff.specs.Freely.{IsUnlessLimited, all_freely_edited};

use crate::configs::append_edits;
use crate::left::Left;
use conf_state::{Edit, State};
use std::alloc::{AllocError, Global};

/// The edits of a batch that make the configurations of the second state of those of the first, in the same order. The
/// counts of the states do not matter. Equal configurations have none.
///
/// A name stays if it is the next name of the second state, and what is under it is edited as
/// [`config_edits`](crate::config_edits) says. Other names are deleted, and what is then missing is imported last. The
/// lines of the edits have at most 1,024 bytes for each configuration of the first state more than those that delete
/// each of these, and import each of the second state.
///
/// The edits make the second state where no limit is in the way. A store may refuse them as too deep or too large:
/// between two edits a configuration may be larger than in both states. It fails only if memory runs out.
pub fn state_edits(alloc: Global, first: &State, second: &State) -> Result<Vec<Edit>, AllocError>
    ensures edits_make_the_second { IfOk result (λ edits.
        all_freely_edited first.now.configs (map edit_of edits.items) ≡ Ok second.now.configs) }
    ensures only_limits_refuse { IfOk result (λ edits. IsUnlessLimited
        (all_edited first.now.configs (map edit_of edits.items)) second.now.configs) }
    ensures equal_states_do_not_differ { first.now.configs ≡ second.now.configs
        → IfOk result (λ edits. edits.items ≡ []) }
    ensures no_longer_than_the_whole { IfOk result (λ edits. lines_length (map edit_of edits.items)
        ≤ lines_length (whole_entry_edits first.now.configs second.now.configs)
        + few_bytes * length first.now.configs) }
    ensures edits { IfOk result (λ edits. map edit_of edits.items
        ≡ entry_edits first.now.configs second.now.configs) }
{
    keep_limits(first);
    keep_limits(second);
    let mut edits = Vec::new(alloc);
    let mut left = Left::of(second);
    append_stayed(alloc, first, second, &mut left, &mut edits)?;
    append_new(alloc, second, &mut left, &mut edits)?;
    Ok(edits)
}

/// Each state keeps its limits, as [`State::count`] says. It does nothing.
fn keep_limits(state: &State)
    ensures { IsState state.now }
{
    let _count = state.count();
}

/// Appends the edits of the names of the first state. Those that stay are left no longer.
fn append_stayed(
    alloc: Global,
    first: &State,
    second: &State,
    left: &mut Left<'_>,
    edits: &mut Vec<Edit>,
) -> Result<(), AllocError>
    ensures { OnOk result (map edit_of edits.new.items
        ++ new_named second.now.configs (names_left left.new) ≡ map edit_of edits.old.items
        ++ named_edits first.now.configs second.now.configs (names_of first.now.configs)
        (names_left left.old)) }
{
    for name in first.names() {
        let next = left.next_config(second, name);
        append_edits(alloc, name, first.get(name), next, edits)?;
    }
    Ok(())
}

/// Appends imports of the configurations whose names are left.
fn append_new(
    alloc: Global,
    second: &State,
    left: &mut Left<'_>,
    edits: &mut Vec<Edit>,
) -> Result<(), AllocError>
    ensures { OnOk result (map edit_of edits.new.items ≡ map edit_of edits.old.items
        ++ new_named second.now.configs (names_left left.old)) }
{
    while let Some(name) = left.take() {
        append_edits(alloc, name, None, second.get(name), edits)?;
    }
    Ok(())
}
