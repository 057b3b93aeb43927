// What is left to compare of two collections, and what the comparison of two values says.
ghost use Rattle.std.specs.Prelude.{◌≡◌, ◌==◌, ◌&&◌, ◌<◌, ◌+◌, ◌*◌, ◌++◌, [], map, nat_lt, MatchOption};
ghost use Rattle.tree_diff.specs.Prelude.{chars, same_text, tree_of, elements_of, members_of, nodes, text_bytes};
ghost use Rattle.tree_diff.specs.Prelude.{member_nodes};
ghost use Rattle.tree_diff.specs.Differences.{below, differences, element_differences, member_differences};
ghost use Rattle.tree_diff.specs.Walks.{rest_differences, rest_nodes, task_differences, task_steps, token_of};
ghost use Rattle.tree_diff.specs.Choices.{count};

use crate::same::{before_end, is_same_text};
use crate::tail::Tail;
use crate::whole::is_set_whole;
use yaml_data::{Text, Tree};

/// A step from a value to one inside it.
#[derive(Clone, Copy)]
pub(crate) enum Step<'k> {
    /// To the value of a key.
    Key(&'k str),
    /// To the element at an index.
    Index(usize),
    /// To a new element after the last one.
    End,
}

/// Two collections of which a part is compared.
#[derive(Clone, Copy)]
pub(crate) struct Level<'f, 't> {
    /// The step to the values that are compared now; any step before the first ones.
    pub(crate) step: Step<'f>,
    /// What is compared after them.
    pub(crate) rest: Rest<'f, 't>,
}

/// What is left of two collections.
#[derive(Clone, Copy)]
pub(crate) enum Rest<'f, 't> {
    Elements(Tail<'f, 't>),
    Members {
        first: &'f [(Text, Tree)],
        second: &'t [(Text, Tree)],
    },
}

/// What is to be done at one place.
#[derive(Clone, Copy)]
pub(crate) enum Task<'f, 't> {
    /// The values are equal.
    Keep,
    /// The first value gives way to this one.
    Set(&'t Tree),
    /// The second tree has no value there.
    Delete,
    /// The values are collections of one kind, and what is in them is compared.
    Enter(Rest<'f, 't>),
}

impl<'f, 't: 'f> Task<'f, 't> {
    /// What makes the second value of the first.
    pub(crate) fn between(first: &'f Tree, second: &'t Tree) -> Task<'f, 't>
        ensures differences { task_differences result
            ≡ differences (tree_of first.now) (tree_of second.now) }
        ensures steps { task_steps result
            < 2 * (nodes (tree_of first.now) + nodes (tree_of second.now)) }
    {
        match first {
            Tree::Text(text) => match second {
                Tree::Text(other) if is_same_text(text, other) => Task::Keep,
                _ => Task::Set(second),
            },
            Tree::Seq(items) => match second {
                Tree::Seq(others) => Task::Enter(Rest::Elements(Tail {
                    first: items,
                    second: others,
                    index: 0,
                    ahead: before_end(items, others),
                })),
                _ => Task::Set(second),
            },
            Tree::Map(pairs) => match second {
                Tree::Map(others) if is_set_whole(pairs, others) => Task::Set(second),
                Tree::Map(others) => Task::Enter(Rest::Members {
                    first: pairs,
                    second: others,
                }),
                _ => Task::Set(second),
            },
        }
    }
}

impl<'f, 't: 'f> Rest<'f, 't> {
    /// What is to be done at the next place, and the level from there on; `None` if nothing is left.
    pub(crate) fn next(self) -> Option<(Level<'f, 't>, Task<'f, 't>)>
        ensures { MatchOption result (rest_differences self.entry ≡ [])
            (λ next. (rest_differences self.entry
            ≡ map (below (token_of next.0.step)) (task_differences next.1)
            ++ rest_differences next.0.rest)
            × (task_steps next.1 + 2 * rest_nodes next.0.rest < 2 * rest_nodes self.entry)) }
    {
        match self {
            Rest::Elements(tail) => tail.next(),
            Rest::Members { first, second } => next_member(first, second),
        }
    }
}

impl<'f, 't: 'f> Tail<'f, 't> {
    fn next(self) -> Option<(Level<'f, 't>, Task<'f, 't>)>
        ensures { MatchOption result (rest_differences (Rest.Elements self.entry) ≡ [])
            (λ next. (rest_differences (Rest.Elements self.entry)
            ≡ map (below (token_of next.0.step)) (task_differences next.1)
            ++ rest_differences next.0.rest)
            × (task_steps next.1 + 2 * rest_nodes next.0.rest
            < 2 * rest_nodes (Rest.Elements self.entry))) }
    {
        let Tail {
            first,
            second,
            index,
            ahead,
        } = self;
        let Some((item, items)) = first.split_first() else {
            let (value, others) = second.split_first()?;
            let rest = Rest::Elements(Tail {
                first,
                second: others,
                index,
                ahead,
            });
            let step = Step::End;
            return Some((Level { step, rest }, Task::Set(value)));
        };
        let left = Tail {
            first: items,
            second,
            index,
            ahead,
        };
        let Some((other, others)) = second.split_first() else {
            return Some(deleted(left));
        };
        if is_left_over(ahead, items, others) {
            return Some(deleted(left));
        }
        let rest = Rest::Elements(Tail {
            first: items,
            second: others,
            index: index + 1,
            ahead: ahead.saturating_sub(1),
        });
        let step = Step::Index(index);
        Some((Level { step, rest }, Task::between(item, other)))
    }
}

/// Whether an element of the first sequence is deleted though the second one has one too, where these come after them.
fn is_left_over(ahead: usize, items: &[Tree], others: &[Tree]) -> bool
    ensures { result ≡ ((ahead == 0)
        && nat_lt (count (elements_of others.now)) (count (elements_of items.now))) }
{
    ahead == 0 && others.len() < items.len()
}

/// The element at an index is deleted, and this is left.
fn deleted<'f, 't: 'f>(left: Tail<'f, 't>) -> (Level<'f, 't>, Task<'f, 't>)
    ensures { result ≡ record {
      0 = record { step = Step.Index left.entry.index; rest = Rest.Elements left.entry };
      1 = Task.Delete;
    } }
{
    let step = Step::Index(left.index);
    let rest = Rest::Elements(left);
    (Level { step, rest }, Task::Delete)
}

/// The same of members.
fn next_member<'f, 't: 'f>(
    first: &'f [(Text, Tree)],
    second: &'t [(Text, Tree)],
) -> Option<(Level<'f, 't>, Task<'f, 't>)>
    ensures { MatchOption result
        (member_differences (members_of first.now) (members_of second.now) ≡ [])
        (λ next. (member_differences (members_of first.now) (members_of second.now)
        ≡ map (below (token_of next.0.step)) (task_differences next.1)
        ++ rest_differences next.0.rest)
        × (task_steps next.1 + 2 * rest_nodes next.0.rest
        < 2 * (member_nodes (members_of first.now) + member_nodes (members_of second.now)))) }
{
    let Some(((key, value), first)) = first.split_first() else {
        let ((key, value), second) = second.split_first()?;
        let rest = Rest::Members { first, second };
        return Some((
            Level {
                step: Step::Key(key),
                rest,
            },
            Task::Set(value),
        ));
    };
    let step = Step::Key(key);
    if let Some(((other, to), rest)) = second.split_first()
        && is_same_text(key, other)
    {
        let rest = Rest::Members {
            first,
            second: rest,
        };
        return Some((Level { step, rest }, Task::between(value, to)));
    }
    let rest = Rest::Members { first, second };
    Some((Level { step, rest }, Task::Delete))
}
