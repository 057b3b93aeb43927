// The conditions of a command on their lines: the elements under `if`.
ghost use Rattle.std.specs.Prelude.{◌≡◌, IfOk, IfSome};
ghost use Rattle.conf_session.specs.Prelude.{chars, text, condition_of, test_at, absent_at};
ghost use Rattle.conf_session.specs.CommandLines.{IsConditionLines};
ghost use Rattle.conf_session.specs.ConditionLines.{condition_cut};

use crate::field_lines::cut_field;
use crate::part_lines::made_value;
use conf_conditions::Condition;
use conf_record::number_from;
use std::alloc::{AllocError, Global};

/// The texts of a condition, and the number of a `count`.
pub(crate) enum ConditionTexts<'t> {
    Test {
        name: &'t str,
        path: &'t str,
        value: &'t str,
    },
    Absent {
        name: &'t str,
        path: &'t str,
    },
    Count(u64),
}

/// The condition that the lines begin with, as an element, and the lines after it. Its first key is after `  - `, its
/// further keys are after four spaces, as the one style has them, and each text is as [`cut_field`] takes it. `None`
/// says nothing of the lines. It takes no memory.
pub(crate) fn cut_condition(lines: &str) -> Option<(ConditionTexts<'_>, &str)>
    ensures { IfSome result (λ cut. IsConditionLines lines.now (condition_cut cut.0) cut.1.now) }
{
    if lines.starts_with("  - test: ") {
        cut_test(lines)
    } else if lines.starts_with("  - absent: ") {
        cut_absent(lines)
    } else {
        cut_count(lines)
    }
}

/// The `test` that the lines begin with.
fn cut_test(lines: &str) -> Option<(ConditionTexts<'_>, &str)>
    ensures { IfSome result (λ cut. IsConditionLines lines.now (condition_cut cut.0) cut.1.now) }
{
    let (name, after_name) = cut_field(lines, "  - test: ")?;
    let (path, after_path) = cut_field(after_name, "    path: ")?;
    let (value, rest) = cut_field(after_path, "    value: ")?;
    Some((ConditionTexts::Test { name, path, value }, rest))
}

/// The `absent` that the lines begin with. Without a path, its path is empty.
fn cut_absent(lines: &str) -> Option<(ConditionTexts<'_>, &str)>
    ensures { IfSome result (λ cut. IsConditionLines lines.now (condition_cut cut.0) cut.1.now) }
{
    let (name, after_name) = cut_field(lines, "  - absent: ")?;
    match cut_field(after_name, "    path: ") {
        Some((path, rest)) => Some((ConditionTexts::Absent { name, path }, rest)),
        None => Some((ConditionTexts::Absent { name, path: "" }, after_name)),
    }
}

/// The `count` that the lines begin with.
fn cut_count(lines: &str) -> Option<(ConditionTexts<'_>, &str)>
    ensures { IfSome result (λ cut. IsConditionLines lines.now (condition_cut cut.0) cut.1.now) }
{
    let (digits, rest) = cut_field(lines, "  - count: ")?;
    let count = number_from(digits)?;
    Some((ConditionTexts::Count(count), rest))
}

/// The condition with these texts. `None` if it is a `test` for a value longer than a configuration may be. It fails
/// only if memory runs out.
pub(crate) fn made_condition(
    alloc: Global,
    texts: ConditionTexts<'_>,
) -> Result<Option<Condition>, AllocError>
    ensures { IfOk result (λ made. IfSome made
        (λ condition. condition_of condition ≡ condition_cut texts.entry)) }
{
    match texts {
        ConditionTexts::Test { name, path, value } => made_test(alloc, name, path, value),
        ConditionTexts::Absent { name, path } => made_absent(alloc, name, path),
        ConditionTexts::Count(count) => Ok(Some(Condition::Count(count))),
    }
}

/// The test for this value, which is a text, at this path under this name.
fn made_test(
    alloc: Global,
    name: &str,
    path: &str,
    value: &str,
) -> Result<Option<Condition>, AllocError>
    ensures { IfOk result (λ made. IfSome made (λ condition. condition_of condition
        ≡ test_at (chars name.now) (chars path.now) (text (chars value.now)))) }
{
    let Some(value) = made_value(alloc, value)? else {
        return Ok(None);
    };
    let name = String::from_str(alloc, name)?;
    let path = String::from_str(alloc, path)?;
    Ok(Some(Condition::Test { name, path, value }))
}

/// The condition that nothing is at this path under this name.
fn made_absent(alloc: Global, name: &str, path: &str) -> Result<Option<Condition>, AllocError>
    ensures { IfOk result (λ made. IfSome made
        (λ condition. condition_of condition ≡ absent_at (chars name.now) (chars path.now))) }
{
    let name = String::from_str(alloc, name)?;
    let path = String::from_str(alloc, path)?;
    Ok(Some(Condition::Absent { name, path }))
}
