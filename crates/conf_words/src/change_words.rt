// The words of the program that change a store.
ghost use Rattle.std.specs.Prelude.{◌≡◌, is_some};
ghost use Rattle.conf_words.specs.Invocations as spec;

use crate::abouts::{ABOUT_ARGUMENT, about_of};
use crate::arguments::{
    EXPLAIN_ARGUMENT, FILE, FOLDER, FOLDER_ARGUMENT, NAME, NAME_ARGUMENT, POINTER,
    POINTER_ARGUMENT, WHOLE, YAML, reporting_of,
};
use crate::conditions::{
    IF_ABSENT, IF_ABSENT_ARGUMENT, IF_COUNT, IF_COUNT_ARGUMENT, IF_VALUE, IF_VALUE_ARGUMENT,
    conditions_of,
};
use crate::invocation::{
    Alteration, Batch, Conditions, Grouping, Import, Invocation, MissingStore, Placing, Put, Root,
    STANDARD_INPUT, Target, Value, Wanted,
};
use crate::listing::Listing;
use crate::refusal::Unasked;
use crate::waiting::WAIT_ARGUMENT;
use command_line::{Argument, Form, Matches, Relation};
use std::alloc::Global;

pub(crate) const INIT: Listing = Listing {
    about: "Makes a folder with an empty store",
    arguments: &[WAIT_ARGUMENT, FOLDER_ARGUMENT],
    help: "\
A folder that is there serves too. It is refused if it has a store.yaml (StoreExists).

Example:  confstore init store",
};

pub(crate) fn init_invocation<'w>(words: &Matches<'w>) -> Result<Invocation<'w>, Unasked>
    ensures { spec.Makes (spec.init_is_wrong words.now) (spec.IsInit words.now) result }
{
    let Some(folder) = words.text(FOLDER) else {
        return Err(Unasked::OTHER);
    };
    Ok(Invocation::Init { folder })
}

pub(crate) const IMPORT: Listing = Listing {
    about: "Reads a YAML text, and puts its tree under a name",
    arguments: &[
        Argument {
            name: MAKE_STORE,
            help: "Makes a store in the folder, if it has none",
            form: Form::Flag,
            relation: Relation::Free,
        },
        Argument {
            name: ANY_ROOT,
            help: "Takes a text that is one value alone, too, as `80`",
            form: Form::Flag,
            relation: Relation::Free,
        },
        EXPLAIN_ARGUMENT,
        IF_VALUE_ARGUMENT,
        IF_ABSENT_ARGUMENT,
        IF_COUNT_ARGUMENT,
        ABOUT_ARGUMENT,
        WAIT_ARGUMENT,
        FOLDER_ARGUMENT,
        NAME_ARGUMENT,
        FILE_ARGUMENT,
    ],
    help: "\
A configuration that has the name is replaced. Nothing is printed where it is done. Comments and
quotes are not kept, and `3` is written `\"3\"`. A folder without a store is refused (NotAStore), and
stays as it is, unless --init is given. A text that is one value alone, as `80`, is refused (OneValue)
unless --any-root is given: mostly it is a file of another format. If a condition does not hold, nothing
changes (Unmet).

A text that is refused is reported on standard error with its file, `-` for standard input, as
`web.yaml:501:1: KeyTwice \"key250\" (first at 17:1)`. With --explain, or where standard error is a
terminal, the line of the text follows, with a mark under the place, and what to do.

Examples:
  confstore import store web web.yaml
  confstore import --init store web web.yaml
  confstore import store web web.yaml --if-absent
  printf 'port: 80\\n' | confstore import store web",
};

/// The argument of `import` and `batch` that is the file of a text.
const FILE_ARGUMENT: Argument = Argument {
    name: FILE,
    help: "The file of the text; standard input if it is left out or `-`",
    form: Form::Optional,
    relation: Relation::Free,
};

/// The word of `import` that has a store made where there is none.
const MAKE_STORE: &str = "init";

pub(crate) fn import_invocation<'w>(
    alloc: Global,
    words: &Matches<'w>,
) -> Result<Invocation<'w>, Unasked>
    ensures { spec.Makes (spec.import_is_wrong words.now) (spec.IsImport words.now) result }
{
    let Some(folder) = words.text(FOLDER) else {
        return Err(Unasked::OTHER);
    };
    let Some(name) = words.text(NAME) else {
        return Err(Unasked::OTHER);
    };
    let import = Import {
        folder,
        name,
        file: words.text(FILE).unwrap_or(STANDARD_INPUT),
        root: root_of(words),
        missing: missing_of(words),
        conditions: conditions_of(words),
    };
    let about = about_of(alloc, words)?;
    Ok(Invocation::Import {
        import,
        about,
        reporting: reporting_of(words),
    })
}

/// The word of `import` that has any text taken.
const ANY_ROOT: &str = "any-root";

fn root_of(words: &Matches<'_>) -> Root
    ensures { result ≡ spec.root_in words.now }
{
    if words.flag(ANY_ROOT) {
        Root::Any
    } else {
        Root::Collection
    }
}

fn missing_of(words: &Matches<'_>) -> MissingStore
    ensures { result ≡ spec.missing_in words.now }
{
    if words.flag(MAKE_STORE) {
        MissingStore::Made
    } else {
        MissingStore::Refused
    }
}

pub(crate) const SET: Listing = Listing {
    about: "Sets the value at a JSON Pointer of a configuration",
    arguments: &[
        Argument {
            name: YAML,
            help: "Reads VALUE, or standard input if that is `-`, as a YAML text",
            form: Form::Flag,
            relation: Relation::Free,
        },
        Argument {
            name: FROM_FILE,
            help: "Takes the bytes of FILE, or of standard input for `-`, as the text, in place of VALUE",
            form: Form::Word(FILE),
            relation: Relation::Excludes(&[YAML]),
        },
        Argument {
            name: PARENTS,
            help: "Makes the mappings that are missing on the way",
            form: Form::Flag,
            relation: Relation::Excludes(&[ALLOW_WHOLE]),
        },
        Argument {
            name: INSERT,
            help: "Inserts the value before the element at an index of a list",
            form: Form::Flag,
            relation: Relation::Excludes(&[PARENTS, ALLOW_WHOLE]),
        },
        ALLOW_WHOLE_ARGUMENT,
        EXPLAIN_ARGUMENT,
        IF_VALUE_ARGUMENT,
        IF_ABSENT_ARGUMENT,
        IF_COUNT_ARGUMENT,
        ABOUT_ARGUMENT,
        WAIT_ARGUMENT,
        FOLDER_ARGUMENT,
        NAME_ARGUMENT,
        Argument {
            name: POINTER,
            help: "A JSON Pointer, as /port or /tags/0",
            form: Form::Required,
            relation: Relation::Free,
        },
        Argument {
            name: VALUE,
            help: "The value; after `--` if it begins with `-` and is no number",
            form: Form::OptionalText,
            relation: Relation::Replaces(FROM_FILE),
        },
    ],
    help: "\
VALUE is the text itself. With --yaml it is read as a YAML text, so that a list or a mapping can be
set; then `-` stands for standard input. With --file in place of VALUE, the bytes of FILE are the text,
also a line feed at their end; they have to be UTF-8. The pointer \"\" needs --whole: it stands for the
whole configuration. Nothing is printed where it is done.

The mapping or the list that the place is in has to be there (NoSuchPlace). With --parents, mappings
are made where a step of the pointer finds no member; a new configuration is not made. With --insert,
the pointer ends with the index of an element: the value comes before it, and the elements from there on
move back by one. The index may be the length of the list, or `-` for that.

A YAML text or a file that is refused is reported on standard error, as
`VALUE:1:8: KeyTwice \"a\" (first at 1:2)`, with the name of the file, or with `-` for standard input.
If a condition does not hold, nothing changes (Unmet).

Examples:
  confstore set store web /port 80
  confstore set store web /port 81 --if-value 80
  confstore set store web /tags '[a, b]' --yaml
  confstore set store web /tags - --yaml < tags.yaml
  confstore set store web /tls/key/file key.pem --parents
  confstore set store web /tags/0 first --insert
  confstore set store web /key --file key.pem",
};

/// The argument of `set` that is the value.
const VALUE: &str = "VALUE";

/// The word of `set` and `delete` that allows the empty pointer, which stands for the whole configuration.
const ALLOW_WHOLE: &str = "whole";

const ALLOW_WHOLE_ARGUMENT: Argument = Argument {
    name: ALLOW_WHOLE,
    help: "Allows the pointer \"\", which stands for the whole configuration",
    form: Form::Flag,
    relation: Relation::Free,
};

/// The word of `set` that has mappings made that are missing on the way. It excludes [`ALLOW_WHOLE`].
const PARENTS: &str = "parents";

/// The word of `set` that has the value inserted into a list. It excludes [`PARENTS`] and [`ALLOW_WHOLE`].
const INSERT: &str = "insert";

/// The word of `set` that gives the file of a text in place of the value. It excludes [`YAML`].
const FROM_FILE: &str = "file";

pub(crate) fn set_invocation<'w>(
    alloc: Global,
    words: &Matches<'w>,
) -> Result<Invocation<'w>, Unasked>
    ensures { spec.Makes (spec.set_is_wrong words.now) (spec.IsSet words.now) result }
{
    let Some(folder) = words.text(FOLDER) else {
        return Err(Unasked::OTHER);
    };
    let Some(name) = words.text(NAME) else {
        return Err(Unasked::OTHER);
    };
    let Some(pointer) = words.text(POINTER) else {
        return Err(Unasked::OTHER);
    };
    let Some(value) = value_of(words) else {
        return Err(Unasked::OTHER);
    };
    if let Some(why) = why_not_at(words) {
        return Err(Unasked::Because(why));
    }
    let target = Target {
        folder,
        name,
        pointer,
        conditions: conditions_of(words),
    };
    let put = Put {
        value,
        placing: placing_of(words),
    };
    let about = about_of(alloc, words)?;
    Ok(Invocation::Set {
        target,
        put,
        about,
        reporting: reporting_of(words),
    })
}

/// How the words of `set` have the value put at its place.
fn placing_of(words: &Matches<'_>) -> Placing
    ensures { result ≡ spec.placing_in words.now }
{
    if words.flag(INSERT) {
        Placing::BeforeElement
    } else if words.flag(PARENTS) {
        Placing::WithParents
    } else {
        Placing::AtPlace
    }
}

/// Why `set` or `delete` may not be at its pointer; `None` if it may. The pointer is empty exactly if the words say
/// that the whole configuration is meant, so a variable of a shell that is not set removes nothing.
fn why_not_at(words: &Matches<'_>) -> Option<&'static str>
    ensures { is_some result ≡ spec.pointer_is_wrong words.now }
{
    let pointer = words.text(POINTER)?;
    match (pointer.is_empty(), words.flag(ALLOW_WHOLE)) {
        (true, false) => Some("an empty POINTER needs --whole"),
        (false, true) => Some("--whole needs the POINTER \"\""),
        _ => None,
    }
}

/// The value that the words of `set` give.
fn value_of<'w>(words: &Matches<'w>) -> Option<Value<'w>>
    ensures { spec.IsValue words.now result }
{
    if let Some(file) = words.text(FROM_FILE) {
        return Some(Value::File(file));
    }
    match words.text(VALUE) {
        Some(text) if words.flag(YAML) => Some(Value::Yaml(text)),
        Some(text) => Some(Value::Text(text)),
        None => None,
    }
}

pub(crate) const DELETE: Listing = Listing {
    about: "Removes a configuration, or what is at a JSON Pointer of it",
    arguments: &[
        ALLOW_WHOLE_ARGUMENT,
        IF_VALUE_ARGUMENT,
        IF_ABSENT_ARGUMENT,
        IF_COUNT_ARGUMENT,
        ABOUT_ARGUMENT,
        WAIT_ARGUMENT,
        FOLDER_ARGUMENT,
        NAME_ARGUMENT,
        POINTER_ARGUMENT,
    ],
    help: "\
Nothing is printed where it is done. Without POINTER the whole configuration is removed; the pointer
\"\" needs --whole. If a condition does not hold, nothing changes (Unmet).

Examples:
  confstore delete store web /tags/0
  confstore delete store web
  confstore delete store web --if-count 12",
};

pub(crate) fn delete_invocation<'w>(
    alloc: Global,
    words: &Matches<'w>,
) -> Result<Invocation<'w>, Unasked>
    ensures { spec.Makes (spec.delete_is_wrong words.now) (spec.IsDelete words.now) result }
{
    let Some(folder) = words.text(FOLDER) else {
        return Err(Unasked::OTHER);
    };
    let Some(name) = words.text(NAME) else {
        return Err(Unasked::OTHER);
    };
    if let Some(why) = why_not_at(words) {
        return Err(Unasked::Because(why));
    }
    let target = Target {
        folder,
        name,
        pointer: words.text(POINTER).unwrap_or(WHOLE),
        conditions: conditions_of(words),
    };
    let about = about_of(alloc, words)?;
    Ok(Invocation::Alter {
        target,
        alteration: Alteration::Delete,
        about,
    })
}

pub(crate) const COPY: Listing = Listing {
    about: "Puts a copy of a configuration under another name",
    arguments: &[
        Argument {
            name: REPLACE,
            help: "Replaces a configuration that has the name TO",
            form: Form::Flag,
            relation: Relation::Excludes(&[IF_ABSENT]),
        },
        IF_VALUE_ARGUMENT,
        IF_ABSENT_ARGUMENT,
        IF_COUNT_ARGUMENT,
        ABOUT_ARGUMENT,
        WAIT_ARGUMENT,
        FOLDER_ARGUMENT,
        NAME_ARGUMENT,
        TO_ARGUMENT,
    ],
    help: "\
A configuration that has the name TO is replaced only with --replace, or where --if-value holds of it;
else nothing changes (Unmet). All of it is done or nothing, in one command. Nothing is printed where it
is done. If a condition does not hold, nothing changes (Unmet); --if-value looks at TO.

Examples:
  confstore copy store web web-old
  confstore copy store web web-old --replace",
};

/// The word of `copy` that has a configuration replaced. It excludes [`IF_ABSENT`].
const REPLACE: &str = "replace";

/// The argument of `copy` and `rename` that is the other name, and of `move` that is the other pointer.
const TO: &str = "TO";

const TO_ARGUMENT: Argument = Argument {
    name: TO,
    help: "The other name; after `--` if it begins with `-`",
    form: Form::Required,
    relation: Relation::Free,
};

pub(crate) fn copy_invocation<'w>(
    alloc: Global,
    words: &Matches<'w>,
) -> Result<Invocation<'w>, Unasked>
    ensures { spec.Makes (spec.copy_is_wrong words.now) (spec.IsCopy words.now) result }
{
    let Some(folder) = words.text(FOLDER) else {
        return Err(Unasked::OTHER);
    };
    let Some(name) = words.text(NAME) else {
        return Err(Unasked::OTHER);
    };
    let Some(to) = words.text(TO) else {
        return Err(Unasked::OTHER);
    };
    let target = Target {
        folder,
        name: to,
        pointer: WHOLE,
        conditions: copy_conditions(words),
    };
    let about = about_of(alloc, words)?;
    Ok(Invocation::Alter {
        target,
        alteration: Alteration::Copy { from: name },
        about,
    })
}

/// The conditions that the words of `copy` give: unless they say otherwise, nothing has the other name.
fn copy_conditions<'w>(words: &Matches<'w>) -> Conditions<'w>
    ensures { spec.AreCopyConditions words.now result }
{
    let place = match words.text(IF_VALUE) {
        Some(text) => Wanted::Text(text),
        None if words.flag(IF_ABSENT) || !words.flag(REPLACE) => Wanted::Nothing,
        None => Wanted::Anything,
    };
    Conditions {
        place,
        count: words.number(IF_COUNT),
    }
}

pub(crate) const RENAME: Listing = Listing {
    about: "Gives a configuration another name",
    arguments: &[
        IF_VALUE_ARGUMENT,
        IF_ABSENT_ARGUMENT,
        IF_COUNT_ARGUMENT,
        ABOUT_ARGUMENT,
        WAIT_ARGUMENT,
        FOLDER_ARGUMENT,
        NAME_ARGUMENT,
        TO_ARGUMENT,
    ],
    help: "\
A configuration that has the name TO is replaced, unless --if-absent is given; it keeps the place of TO
among the names, and a new name comes last. Where NAME and TO are one name, all stays as it is, and the
command is counted. All of it is done or nothing, in one command. Nothing is printed where it is done.
If a condition does not hold, nothing changes (Unmet); --if-value and --if-absent look at TO.

Examples:
  confstore rename store web site
  confstore rename store web site --if-absent",
};

pub(crate) fn rename_invocation<'w>(
    alloc: Global,
    words: &Matches<'w>,
) -> Result<Invocation<'w>, Unasked>
    ensures { spec.Makes (spec.rename_is_wrong words.now) (spec.IsRename words.now) result }
{
    let Some(folder) = words.text(FOLDER) else {
        return Err(Unasked::OTHER);
    };
    let Some(name) = words.text(NAME) else {
        return Err(Unasked::OTHER);
    };
    let Some(to) = words.text(TO) else {
        return Err(Unasked::OTHER);
    };
    let target = Target {
        folder,
        name: to,
        pointer: WHOLE,
        conditions: conditions_of(words),
    };
    let about = about_of(alloc, words)?;
    Ok(Invocation::Alter {
        target,
        alteration: Alteration::Rename { from: name },
        about,
    })
}

pub(crate) const MOVE: Listing = Listing {
    about: "Moves what is at a JSON Pointer of a configuration to another place of it",
    arguments: &[
        IF_VALUE_ARGUMENT,
        IF_ABSENT_ARGUMENT,
        IF_COUNT_ARGUMENT,
        ABOUT_ARGUMENT,
        WAIT_ARGUMENT,
        FOLDER_ARGUMENT,
        NAME_ARGUMENT,
        Argument {
            name: FROM,
            help: "A JSON Pointer to what is moved, as /port",
            form: Form::Required,
            relation: Relation::Free,
        },
        Argument {
            name: TO,
            help: "A JSON Pointer to where it is put, as /http/port",
            form: Form::Required,
            relation: Relation::Free,
        },
    ],
    help: "\
What is at FROM is deleted, and then set at TO, in place of what is there, unless --if-absent is given.
The steps of TO are taken once FROM is deleted: behind an element of a list that is moved, indexes are
one less. The mapping or the list that TO is in has to be there (NoSuchPlace), and it may not be in FROM.
All of it is done or nothing, in one command. Nothing is printed where it is done. If a condition does
not hold, nothing changes (Unmet); --if-value and --if-absent look at TO, before anything is deleted.

Examples:
  confstore move store web /port /http/port
  confstore move store web /tags/0 /tags/-",
};

/// The argument of `move` that is the pointer to what is moved.
const FROM: &str = "FROM";

pub(crate) fn move_invocation<'w>(
    alloc: Global,
    words: &Matches<'w>,
) -> Result<Invocation<'w>, Unasked>
    ensures { spec.Makes (spec.move_is_wrong words.now) (spec.IsMove words.now) result }
{
    let Some(folder) = words.text(FOLDER) else {
        return Err(Unasked::OTHER);
    };
    let Some(name) = words.text(NAME) else {
        return Err(Unasked::OTHER);
    };
    let Some(from) = words.text(FROM) else {
        return Err(Unasked::OTHER);
    };
    let Some(to) = words.text(TO) else {
        return Err(Unasked::OTHER);
    };
    if from.is_empty() || to.is_empty() {
        return Err(Unasked::Because("FROM and TO may not be empty"));
    }
    let target = Target {
        folder,
        name,
        pointer: to,
        conditions: conditions_of(words),
    };
    let about = about_of(alloc, words)?;
    Ok(Invocation::Alter {
        target,
        alteration: Alteration::Move { from },
        about,
    })
}

pub(crate) const BATCH: Listing = Listing {
    about: "Makes all edits that a YAML text lists, or none of them",
    arguments: &[
        EXPLAIN_ARGUMENT,
        IF_COUNT_ARGUMENT,
        ABOUT_ARGUMENT,
        WAIT_ARGUMENT,
        FOLDER_ARGUMENT,
        FILE_ARGUMENT,
    ],
    help: "\
The text is a list. Each edit in it is a mapping with these keys, in this order:

  import: NAME   text: TEXT                    reads a YAML text, and puts its tree under a name
  import: NAME   tree: TREE                    puts this tree under a name
  set: NAME      path: POINTER   value: TREE   sets the value at a JSON Pointer
  delete: NAME   path: POINTER                 removes what is there; the pointer \"\" removes the name

They are made in the order of the list, as one command: all of them, or none. Nothing is printed where
it is done, and then the status is 0. A list of none is refused (EmptyBatch), and so is a text that is
no list of edits (BadCommand). With --if-count nothing changes if the store has accepted another number
of commands (Unmet).

Examples:
  confstore batch store edits.yaml
  confstore batch store edits.yaml --if-count 12
  echo '[{set: web, path: /port, value: 81}, {delete: old, path: \"\"}]' | confstore batch store",
};

pub(crate) fn batch_invocation<'w>(
    alloc: Global,
    words: &Matches<'w>,
) -> Result<Invocation<'w>, Unasked>
    ensures { spec.Makes (spec.batch_is_wrong words.now) (spec.IsBatch words.now) result }
{
    let Some(folder) = words.text(FOLDER) else {
        return Err(Unasked::OTHER);
    };
    let count = words.number(IF_COUNT);
    let batch = Batch {
        folder,
        file: words.text(FILE).unwrap_or(STANDARD_INPUT),
        count,
    };
    let about = about_of(alloc, words)?;
    Ok(Invocation::Batch {
        batch,
        about,
        reporting: reporting_of(words),
    })
}

pub(crate) const CHECKPOINT: Listing = Listing {
    about: "Makes the store file as short as its state",
    arguments: &[WAIT_ARGUMENT, FOLDER_ARGUMENT],
    help: "\
What earlier commands were is gone then.

Example:  confstore checkpoint store",
};

pub(crate) fn checkpoint_invocation<'w>(words: &Matches<'w>) -> Result<Invocation<'w>, Unasked>
    ensures { spec.Makes (spec.checkpoint_is_wrong words.now) (spec.IsCheckpoint words.now) result }
{
    let Some(folder) = words.text(FOLDER) else {
        return Err(Unasked::OTHER);
    };
    Ok(Invocation::Checkpoint { folder })
}

pub(crate) const RUN: Listing = Listing {
    about: "Performs the commands on standard input on the store in a folder",
    arguments: &[
        Argument {
            name: GROUP,
            help: "Syncs once for all commands that one read brings, and then answers them",
            form: Form::Flag,
            relation: Relation::Free,
        },
        Argument {
            name: CHECKPOINT_AFTER,
            help: "Makes a checkpoint each time the store file has grown by so many bytes; needs --group",
            form: Form::Number("BYTES", 1),
            relation: Relation::Needs(GROUP),
        },
        WAIT_ARGUMENT,
        FOLDER_ARGUMENT,
    ],
    help: "\
Each command is a YAML document that a line of `...` closes. It is performed as soon as that line
has come, and answered by one document. `ok` comes after the change is on the disk.

  import: NAME   text: TEXT                reads a YAML text, and puts its tree under a name
  set: NAME      path: POINTER   value: TREE   sets the value at a JSON Pointer
  delete: NAME   path: POINTER             removes what is there; the pointer \"\" removes the name
  batch: [EDIT, ..]                        makes all these edits, or none: each is one of the above
  get: NAME      path: POINTER             answers the value there
  export: NAME                             answers the text of the tree in the one style
  names:                                   answers the names
  checkpoint:                              makes the store file as short as its state

Before the keys of a change `if: [CONDITION, ..]` may stand: it is made only where each of these holds.

  test: NAME     path: POINTER   value: TREE   this value is at the JSON Pointer
  absent: NAME   path: POINTER                 nothing is there
  count: N                                     the store has accepted N commands

Behind them `about: {KEY: TEXT, ..}` may stand: who makes the change (`by`), when and why. It is kept in
the record, and `log` shows it. The first one in a store writes its file anew, as a checkpoint does.

A refused command changes nothing, and leaves the status 0. The folder must be there; the store in
it is made on the first run, and locked while a run lasts. What follows the last closing line is not
performed; if it is not blank, a line on standard error says so.

With `--group`, all commands that one read brings are performed, then synced together, and only then
answered. So a client that sends many commands before it reads an answer waits for one sync, and not
for one each. Every answer still comes after its change is on the disk. But if an answer can't be
written, or the device fails, more than one command after the last answer may have been performed.
`--checkpoint-after BYTES` makes the store file short again each time that it has grown by so many
bytes. The new file is written in slices, one after each group of commands.

Limits: a name has 1 to 64 of a-z, 0-9, `_` and `-`, a letter first. A text and a configuration have
at most 4,194,304 bytes, and are at most 128 deep. A command has at most 16,777,216 bytes.

Example:
  mkdir store
  printf '%s\\n' --- 'import: web' 'text: \"host: example\"' ... | confstore run store

The `---` before a command may be left out. Other YAML readers want one after each `...`.",
};

/// The word of `run` that has the commands of one read share a sync.
const GROUP: &str = "group";

/// The word of `run` that says after how many bytes a checkpoint is made. It needs [`GROUP`].
const CHECKPOINT_AFTER: &str = "checkpoint-after";

pub(crate) fn run_invocation<'w>(words: &Matches<'w>) -> Result<Invocation<'w>, Unasked>
    ensures { spec.Makes (spec.run_is_wrong words.now) (spec.IsRun words.now) result }
{
    let Some(folder) = words.text(FOLDER) else {
        return Err(Unasked::OTHER);
    };
    Ok(Invocation::Run {
        folder,
        grouping: grouping_of(words),
    })
}

fn grouping_of(words: &Matches<'_>) -> Grouping
    ensures { result ≡ spec.grouping_in words.now }
{
    if words.flag(GROUP) {
        Grouping::Grouped {
            checkpoint_after: words.number(CHECKPOINT_AFTER),
        }
    } else {
        Grouping::Single
    }
}
