// The conditions of a command: what stands under `if`.
ghost use Rattle.std.specs.Prelude.{◌≡◌, IfOk, IfSome, Some, option_map};
ghost use Rattle.conf_session.specs.Prelude.{sequence, IsKept, tree_of, members_of, elements_of, values, AreKept};
ghost use Rattle.conf_session.specs.Prelude.{AreKeptElements, condition_of, conditions_of};
ghost use Rattle.conf_session.specs.SaidConditions.{all_conditions_in, absent_in, condition_from, condition_in, conditions_in, count_in, members_seen, missing_in, test_in};
ghost use Rattle.conf_session.specs.SaidConditions.{KeepsValue};

use conf_conditions::Condition;
use conf_record::{keys_are, last_text, last_value, next_text, number_from, part};
use std::alloc::{AllocError, Global};
use yaml_tree::{Text, Tree};

/// The members of a condition.
#[derive(Drop)]
pub(crate) enum Members {
    Test { name: Text, path: Text, value: Tree },
    Absent { name: Text, path: Text },
    Count(u64),
}

/// The conditions that a tree under `if` holds: it is a sequence of at least one element, and each is a condition.
/// `None` for any other tree. It fails only if memory runs out.
pub(crate) fn conditions_in(alloc: Global, tree: Tree) -> Result<Option<Vec<Condition>>, AllocError>
    requires { IsKept (tree_of tree) }
    ensures { IfOk result (λ read. option_map (λ v. conditions_of v.items) read
        ≡ conditions_in (tree_of tree)) }
{
    match tree {
        Tree::Text(_) => Ok(None),
        Tree::Seq(elements) => some_conditions(alloc, elements),
        Tree::Map(_) => Ok(None),
    }
}

/// The conditions that the elements of a sequence are; `None` if it has none.
fn some_conditions(alloc: Global, elements: Vec<Tree>) -> Result<Option<Vec<Condition>>, AllocError>
    requires { AreKeptElements (elements_of elements.items) }
    ensures { IfOk result (λ read. option_map (λ v. conditions_of v.items) read
        ≡ conditions_in (sequence (elements_of elements.items))) }
{
    if elements.is_empty() {
        return Ok(None);
    }
    all_conditions_in(alloc, elements)
}

/// The conditions that the elements of a sequence are, if each of them is one.
fn all_conditions_in(
    alloc: Global,
    elements: Vec<Tree>,
) -> Result<Option<Vec<Condition>>, AllocError>
    requires { AreKeptElements (elements_of elements.items) }
    ensures { IfOk result (λ read. option_map (λ v. conditions_of v.items) read
        ≡ all_conditions_in (elements_of elements.items)) }
{
    let mut conditions = Vec::new(alloc);
    for element in elements {
        let Some(condition) = condition_in(alloc, element)? else {
            return Ok(None);
        };
        conditions.push(condition)?;
    }
    Ok(Some(conditions))
}

/// The condition that a tree is, if it is one.
fn condition_in(alloc: Global, tree: Tree) -> Result<Option<Condition>, AllocError>
    requires { IsKept (tree_of tree) }
    ensures { IfOk result (λ read. option_map condition_of read ≡ condition_in (tree_of tree)) }
{
    match tree {
        Tree::Text(_) => Ok(None),
        Tree::Seq(_) => Ok(None),
        Tree::Map(pairs) => condition_from(alloc, pairs),
    }
}

/// The condition that a mapping with these pairs is, if it has exactly the keys of one, in their order, and values of
/// the kinds that it takes.
fn condition_from(alloc: Global, pairs: Vec<(Text, Tree)>) -> Result<Option<Condition>, AllocError>
    requires { AreKept (values (members_of pairs.items)) }
    ensures { IfOk result (λ read. option_map condition_of read
        ≡ condition_from (members_of pairs.items)) }
{
    match members_from(pairs) {
        Some(members) => condition_with(alloc, members),
        None => Ok(None),
    }
}

/// The condition with these members.
fn condition_with(alloc: Global, members: Members) -> Result<Option<Condition>, AllocError>
    requires { KeepsValue (members_seen members) }
    ensures { IfOk result (λ made. option_map condition_of made ≡ Some (members_seen members)) }
{
    match members {
        Members::Test { name, path, value } => {
            let name = name.into_string(alloc)?;
            let path = path.into_string(alloc)?;
            let value = part(value);
            Ok(Some(Condition::Test { name, path, value }))
        }
        Members::Absent { name, path } => {
            let name = name.into_string(alloc)?;
            let path = path.into_string(alloc)?;
            Ok(Some(Condition::Absent { name, path }))
        }
        Members::Count(count) => Ok(Some(Condition::Count(count))),
    }
}

/// The members of the condition that a mapping is, by its pairs. It takes no memory.
fn members_from(pairs: Vec<(Text, Tree)>) -> Option<Members>
    requires { AreKept (values (members_of pairs.items)) }
    ensures read { option_map members_seen result ≡ condition_from (members_of pairs.items) }
    ensures kept { IfSome result (λ members. KeepsValue (members_seen members)) }
{
    if keys_are(&["test", "path", "value"], &pairs) {
        test_from(pairs)
    } else if keys_are(&["absent", "path"], &pairs) {
        absent_from(pairs)
    } else if keys_are(&["absent"], &pairs) {
        missing_from(pairs)
    } else if keys_are(&["count"], &pairs) {
        count_of(pairs)
    } else {
        None
    }
}

/// The members of a test with these values: two texts, and any tree.
fn test_from(pairs: Vec<(Text, Tree)>) -> Option<Members>
    requires { AreKept (values (members_of pairs.items)) }
    ensures read { option_map members_seen result ≡ test_in (values (members_of pairs.items)) }
    ensures kept { IfSome result (λ members. KeepsValue (members_seen members)) }
{
    let mut values = pairs.into_iter();
    let name = next_text(&mut values)?;
    let path = next_text(&mut values)?;
    let value = last_value(values)?;
    Some(Members::Test { name, path, value })
}

/// The members of an `absent` with these values: two texts.
fn absent_from(pairs: Vec<(Text, Tree)>) -> Option<Members>
    ensures read { option_map members_seen result ≡ absent_in (values (members_of pairs.items)) }
    ensures kept { IfSome result (λ members. KeepsValue (members_seen members)) }
{
    let mut values = pairs.into_iter();
    let name = next_text(&mut values)?;
    let path = last_text(values)?;
    Some(Members::Absent { name, path })
}

/// The members of an `absent` with one value, the name: its path is empty.
fn missing_from(pairs: Vec<(Text, Tree)>) -> Option<Members>
    ensures read { option_map members_seen result ≡ missing_in (values (members_of pairs.items)) }
    ensures kept { IfSome result (λ members. KeepsValue (members_seen members)) }
{
    let name = last_text(pairs.into_iter())?;
    let path = Text::empty();
    Some(Members::Absent { name, path })
}

/// The members of a `count` with one value, the number's decimal text.
fn count_of(pairs: Vec<(Text, Tree)>) -> Option<Members>
    ensures read { option_map members_seen result ≡ count_in (values (members_of pairs.items)) }
    ensures kept { IfSome result (λ members. KeepsValue (members_seen members)) }
{
    let digits = last_text(pairs.into_iter())?;
    let count = number_from(&digits)?;
    Some(Members::Count(count))
}
