// The arguments that have a word change a store only if something holds of it.
ghost use Rattle.conf_words.specs.Invocations.{AreConditions, IsWanted};

use crate::invocation::{Conditions, Wanted};
use command_line::{Argument, Form, Matches, Relation};

/// The argument that wants a text at the place.
pub(crate) const IF_VALUE: &str = "if-value";

pub(crate) const IF_VALUE_ARGUMENT: Argument = Argument {
    name: IF_VALUE,
    help: "Changes the store only if this text is at the place that is changed",
    form: Form::Text("TEXT"),
    relation: Relation::Excludes(&[IF_ABSENT]),
};

/// The argument that wants nothing at the place.
pub(crate) const IF_ABSENT: &str = "if-absent";

pub(crate) const IF_ABSENT_ARGUMENT: Argument = Argument {
    name: IF_ABSENT,
    help: "Changes the store only if nothing is at the place that is changed",
    form: Form::Flag,
    relation: Relation::Free,
};

/// The argument that wants a number of commands.
pub(crate) const IF_COUNT: &str = "if-count";

pub(crate) const IF_COUNT_ARGUMENT: Argument = Argument {
    name: IF_COUNT,
    help: "Changes the store only if it has accepted N commands",
    form: Form::Number("N", 0),
    relation: Relation::Free,
};

/// The conditions that the words give.
pub(crate) fn conditions_of<'w>(words: &Matches<'w>) -> Conditions<'w>
    ensures { AreConditions words.now result }
{
    Conditions {
        place: wanted_by(words),
        count: words.number(IF_COUNT),
    }
}

/// What the words want at the place.
fn wanted_by<'w>(words: &Matches<'w>) -> Wanted<'w>
    ensures { IsWanted words.now result }
{
    match words.text(IF_VALUE) {
        Some(text) => Wanted::Text(text),
        None if words.flag(IF_ABSENT) => Wanted::Nothing,
        None => Wanted::Anything,
    }
}
