// The walk over two trees.
ghost use Rattle.std.specs.Prelude.{◌≡◌, ◌++◌, ◌+◌, true, IfOk, OnOk, Ok, [], map};
ghost use Rattle.tree_diff.specs.Prelude.{distinct, tree_of};
ghost use Rattle.tree_diff.specs.Diffs.{changes_of, performed};
ghost use Rattle.tree_diff.specs.Differences.{differences, written};
ghost use Rattle.tree_diff.specs.Walks.{differences_left, path_of_levels, steps_left, task_differences, task_steps, under};

use crate::edit::Edit;
use crate::level::{Level, Step, Task};
use crate::pointer::pointer_to;
use std::alloc::{AllocError, Global};
use yaml_data::Tree;

/// The edits that make the second tree of the first, in the order in which they have to be performed. Equal trees have
/// none. In the mappings of either tree no key comes twice; `has_distinct_keys` of yaml_data tests that.
///
/// In a mapping a key stays if it is the next key of the second mapping; others are deleted, and what is then missing
/// is set last. If fewer keys stay than are deleted, and some are missing, the mapping is set whole.
///
/// In a sequence the elements at one index are compared. If the first sequence is longer, what is left over is deleted
/// before the elements that both have at their ends; if it is shorter, what is missing is set at the end.
///
/// The time is linear in the trees and the edits, but elements of a longer sequence are looked at up to eight times
/// more. The walk has a stack in memory, so the trees may have any depth. It fails only if memory runs out.
///
/// Values are borrowed from the second tree alone, so the edits can be performed on the first one.
pub fn diff<'t>(alloc: Global, first: &Tree, second: &'t Tree) -> Result<Vec<Edit<'t>>, AllocError>
    requires first { distinct (tree_of first.now) ≡ true }
    requires second { distinct (tree_of second.now) ≡ true }
    ensures diff_makes_the_second { IfOk result (λ edits. performed (changes_of edits.items) (tree_of first.now)
        ≡ Ok (tree_of second.now)) }
    ensures equal_trees_do_not_differ { tree_of first.now ≡ tree_of second.now
        → IfOk result (λ edits. edits.items ≡ []) }
    ensures differences { IfOk result (λ edits. changes_of edits.items
        ≡ map written (differences (tree_of first.now) (tree_of second.now))) }
{
    let mut edits = Vec::new(alloc);
    let mut levels = Vec::new(alloc);
    carry_out(alloc, Task::between(first, second), &mut levels, &mut edits)?;
    while let Some(level) = levels.pop() {
        let Some((level, task)) = level.rest.next() else {
            continue;
        };
        levels.push(level)?;
        carry_out(alloc, task, &mut levels, &mut edits)?;
    }
    Ok(edits)
}

/// Does what is to be done at the place of the levels: it appends an edit there, or enters collections.
fn carry_out<'f, 't: 'f>(
    alloc: Global,
    task: Task<'f, 't>,
    levels: &mut Vec<Level<'f, 't>>,
    edits: &mut Vec<Edit<'t>>,
) -> Result<(), AllocError>
    ensures differences { OnOk result
        (changes_of edits.new.items ++ map written (differences_left levels.new.items)
        ≡ changes_of edits.old.items ++ map written
        (map (under (path_of_levels levels.old.items)) (task_differences task.entry)
        ++ differences_left levels.old.items)) }
    ensures steps { OnOk result
        (steps_left levels.new.items ≡ steps_left levels.old.items + task_steps task.entry) }
{
    match task {
        Task::Keep => {}
        Task::Set(value) => {
            let path = pointer_to(alloc, levels)?;
            edits.push(Edit::Set { path, value })?;
        }
        Task::Delete => {
            let path = pointer_to(alloc, levels)?;
            edits.push(Edit::Delete { path })?;
        }
        Task::Enter(rest) => levels.push(Level {
            step: Step::End,
            rest,
        })?,
    }
    Ok(())
}
