// The arguments that several subcommands take.
ghost use Rattle.std.specs.Prelude.{◌≡◌};
ghost use Rattle.conf_words.specs.Invocations.{reporting_in};

use crate::invocation::Reporting;
use command_line::{Argument, Form, Matches, Relation};

/// The folder of a store.
pub(crate) const FOLDER: &str = "FOLDER";

pub(crate) const FOLDER_ARGUMENT: Argument = Argument {
    name: FOLDER,
    help: "The store's folder; after `--` if it begins with `-`",
    form: Form::Required,
    relation: Relation::Free,
};

/// The name of a configuration.
pub(crate) const NAME: &str = "NAME";

pub(crate) const NAME_ARGUMENT: Argument = Argument {
    name: NAME,
    help: "The name of the configuration; after `--` if it begins with `-`",
    form: Form::Required,
    relation: Relation::Free,
};

/// The JSON Pointer that may be left out: then it stands for the whole configuration.
pub(crate) const POINTER: &str = "POINTER";

pub(crate) const POINTER_ARGUMENT: Argument = Argument {
    name: POINTER,
    help: "A JSON Pointer, as /port; the whole configuration if it is left out",
    form: Form::Optional,
    relation: Relation::Free,
};

/// The pointer to a whole configuration.
pub(crate) const WHOLE: &str = "";

/// The name of an argument that is a file, or any number of them.
pub(crate) const FILE: &str = "FILE";

/// The name of the flag that has a text read, or records written, as YAML.
pub(crate) const YAML: &str = "yaml";

/// The flag that has more said of a text that is refused.
pub(crate) const EXPLAIN: &str = "explain";

pub(crate) const EXPLAIN_ARGUMENT: Argument = Argument {
    name: EXPLAIN,
    help: "Shows the line at fault of a refused text, and says what to do",
    form: Form::Flag,
    relation: Relation::Free,
};

/// How much the words have said of a text that is refused.
pub(crate) fn reporting_of(words: &Matches<'_>) -> Reporting
    ensures { result ≡ reporting_in words.now }
{
    if words.flag(EXPLAIN) {
        Reporting::Explained
    } else {
        Reporting::Brief
    }
}
