// The conditions that words give, ready to be judged.
ghost use Rattle.std.specs.Prelude.{◌≡◌, ◌++◌, IfErr, IfOk};
ghost use Rattle.conf_tools.specs.Prelude.{chars, absent_at, condition_of, conditions_of, test_at};
ghost use Rattle.yaml_grammar.specs.Trees.{text as one_text};
ghost use Rattle.conf_tools.specs.Asking.{AsksFor, RefusesWanted, counted, listed, wanted_at};
ghost use Rattle.conf_tools.specs.TextWords.{RefusesText};

use crate::change_words::text_value;
use crate::texts::ToolFault;
use conf_conditions::Condition;
use conf_words::{Conditions, Wanted};
use std::alloc::{AllocError, Global};
use yaml_tree::ReadFault;

/// The conditions that the words give on a place of a configuration, in the order in which they are judged: what is
/// wanted at the place, and then the count.
///
/// # Errors
/// `Read` if the wanted text can't be a value, and memory that runs out.
pub(crate) fn conditions_at(
    alloc: Global,
    name: &str,
    path: &str,
    conditions: Conditions<'_>,
) -> Result<Vec<Condition>, ToolFault>
    ensures { AsksFor (chars name.now) (chars path.now) conditions.entry result }
{
    let wanted = wanted_at(alloc, name, path, conditions.place)?;
    Ok(both(alloc, wanted, conditions.count)?)
}

/// The condition on a place, if there is one, and then the one on the count. It fails only if memory runs out.
fn both(
    alloc: Global,
    wanted: Option<Condition>,
    count: Option<u64>,
) -> Result<Vec<Condition>, AllocError>
    ensures { IfOk result (λ both. conditions_of both.items ≡ listed wanted ++ counted count) }
{
    let both = match (wanted, count) {
        (Some(wanted), Some(count)) => vec![in alloc; wanted, Condition::Count(count)]?,
        (Some(wanted), None) => vec![in alloc; wanted]?,
        (None, Some(count)) => vec![in alloc; Condition::Count(count)]?,
        (None, None) => Vec::new(alloc),
    };
    Ok(both)
}

/// The condition that wants this at a place of a configuration; `None` if anything may be there.
fn wanted_at(
    alloc: Global,
    name: &str,
    path: &str,
    wanted: Wanted<'_>,
) -> Result<Option<Condition>, ToolFault>
    ensures ok { IfOk result (λ asked.
        listed asked ≡ wanted_at (chars name.now) (chars path.now) wanted.entry) }
    ensures refused { IfErr result (RefusesWanted wanted.entry) }
{
    match wanted {
        Wanted::Anything => Ok(None),
        Wanted::Nothing => Ok(Some(absent_at(alloc, name, path)?)),
        Wanted::Text(text) => Ok(Some(test_at(alloc, name, path, text)?)),
    }
}

/// The condition that nothing is at a place. It fails only if memory runs out.
fn absent_at(alloc: Global, name: &str, path: &str) -> Result<Condition, ToolFault>
    ensures ok { IfOk result (λ asked.
        condition_of asked ≡ absent_at (chars name.now) (chars path.now)) }
    ensures refused { IfErr result (λ fault. fault ≡ ToolFault.Read ReadFault.OutOfMemory) }
{
    Ok(Condition::Absent {
        name: String::from_str(alloc, name)?,
        path: String::from_str(alloc, path)?,
    })
}

/// The condition that this text is at a place.
///
/// # Errors
/// `Read` if the text can't be a value, and memory that runs out.
fn test_at(alloc: Global, name: &str, path: &str, value: &str) -> Result<Condition, ToolFault>
    ensures ok { IfOk result (λ asked.
        condition_of asked ≡ test_at (chars name.now) (chars path.now) (one_text (chars value.now))) }
    ensures refused { IfErr result (RefusesText (chars value.now)) }
{
    let value = text_value(alloc, value)?;
    Ok(Condition::Test {
        name: String::from_str(alloc, name)?,
        path: String::from_str(alloc, path)?,
        value,
    })
}
