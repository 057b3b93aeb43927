// The words of the program that only read a store, and those that make a new store of what is read.
ghost use Rattle.std.specs.Prelude.{◌≡◌, ◌∷◌, IfOk, [], codes, map, unwrap_or};
ghost use Rattle.command_line.specs.Matches.{text_of};
ghost use Rattle.conf_words.specs.Invocations as spec;

use crate::abouts::ABOUT;
use crate::arguments::{
    FILE, FOLDER, FOLDER_ARGUMENT, NAME, NAME_ARGUMENT, POINTER, POINTER_ARGUMENT, WHOLE, YAML,
};
use crate::invocation::{
    Commands, Invocation, LogForm, MissingValue, NamesForm, Place, Places, RawEnd, Span, TreeForm,
    ValueForm,
};
use crate::listing::Listing;
use crate::refusal::Unasked;
use crate::waiting::WAIT_ARGUMENT;
use command_line::{Argument, Form, Matches, Relation};
use std::alloc::{AllocError, Global};

/// The word that says after which command the store is read.
const AT: &str = "at";

const AT_ARGUMENT: Argument = Argument {
    name: AT,
    help: "Reads the store as it was after command number N",
    form: Form::Number("N", 0),
    relation: Relation::Free,
};

/// The word that has a value written as JSON.
const JSON: &str = "json";

const JSON_ARGUMENT: Argument = Argument {
    name: JSON,
    help: "Writes a JSON text on one line; each text is a string",
    form: Form::Flag,
    relation: Relation::Excludes(&[PLAIN]),
};

/// The word that has texts stand plain which readers with types take for numbers.
const PLAIN: &str = "plain";

const PLAIN_ARGUMENT: Argument = Argument {
    name: PLAIN,
    help: "Writes texts as 80, true and null without quotes, for readers with types",
    form: Form::Flag,
    relation: Relation::Free,
};

/// How a value is written whole, as the words say.
fn tree_form_of(words: &Matches<'_>) -> TreeForm
    ensures { result ≡ spec.tree_form_in words.now }
{
    if words.flag(JSON) {
        TreeForm::Json
    } else if words.flag(PLAIN) {
        TreeForm::Plain
    } else {
        TreeForm::Styled
    }
}

pub(crate) const EXPORT: Listing = Listing {
    about: "Writes a configuration of the store in a folder, or each into a file",
    arguments: &[
        Argument {
            name: ALL,
            help: "Writes each configuration into the file NAME.yaml of the folder DIR, in place of NAME",
            form: Form::Word("DIR"),
            relation: Relation::Free,
        },
        JSON_ARGUMENT,
        PLAIN_ARGUMENT,
        WAIT_ARGUMENT,
        FOLDER_ARGUMENT,
        Argument {
            name: NAME,
            help: "The name of the configuration; after `--` if it begins with `-`",
            form: Form::Optional,
            relation: Relation::Replaces(ALL),
        },
    ],
    help: "\
The configuration is written in the one style, which quotes `80` and `true`, since they are texts. With
`--json` it is a JSON text, each text a string. With `--plain` such texts stand without quotes, so that
readers with types take them for numbers; then they do so with a version 1.10, too.

With `--all` each configuration is written into a file of its own: NAME.yaml, or NAME.json with
`--json`. DIR is made if it is missing. A file is replaced whole, and only if it changes; other files
stay. No lock is taken then: all are of one moment.

Examples:
  confstore export store web
  confstore export store web --json
  confstore export store --all conf.d",
};

/// The word of `export` that has each configuration written, in place of the one of a name.
const ALL: &str = "all";

pub(crate) fn export_invocation<'w>(words: &Matches<'w>) -> Result<Invocation<'w>, Unasked>
    ensures { spec.Makes (spec.export_is_wrong words.now) (spec.IsExport words.now) result }
{
    let Some(folder) = words.text(FOLDER) else {
        return Err(Unasked::OTHER);
    };
    let form = tree_form_of(words);
    match (words.text(NAME), words.text(ALL)) {
        (Some(name), None) => Ok(Invocation::Export { folder, name, form }),
        (None, Some(into)) => Ok(Invocation::ExportAll { folder, into, form }),
        _ => Err(Unasked::OTHER),
    }
}

pub(crate) const NAMES: Listing = Listing {
    about: "Writes the names of the configurations of a store",
    arguments: &[
        Argument {
            name: JSON,
            help: "Writes a JSON array on one line",
            form: Form::Flag,
            relation: Relation::Free,
        },
        AT_ARGUMENT,
        FOLDER_ARGUMENT,
    ],
    help: "\
Each name is one line, in order; with `--json` all are a JSON array on one line. No lock is taken and
nothing is changed, so this runs beside a session that holds the store.

Examples:
  confstore names store
  confstore names store --at 12",
};

pub(crate) fn names_invocation<'w>(words: &Matches<'w>) -> Result<Invocation<'w>, Unasked>
    ensures { spec.Makes (spec.names_is_wrong words.now) (spec.IsNames words.now) result }
{
    let Some(folder) = words.text(FOLDER) else {
        return Err(Unasked::OTHER);
    };
    Ok(Invocation::Names {
        folder,
        at: words.number(AT),
        form: names_form_of(words),
    })
}

fn names_form_of(words: &Matches<'_>) -> NamesForm
    ensures { result ≡ spec.names_form_in words.now }
{
    if words.flag(JSON) {
        NamesForm::Json
    } else {
        NamesForm::Lines
    }
}

pub(crate) const GET: Listing = Listing {
    about: "Writes the value at a JSON Pointer of a configuration",
    arguments: &[
        Argument {
            name: RAW,
            help: "Writes a text as it is, with a line feed after it",
            form: Form::Flag,
            relation: Relation::Excludes(&[JSON, PLAIN]),
        },
        Argument {
            name: NO_NEWLINE,
            help: "Writes no line feed after the text; needs --raw",
            form: Form::Flag,
            relation: Relation::Needs(RAW),
        },
        JSON_ARGUMENT,
        PLAIN_ARGUMENT,
        Argument {
            name: DEFAULT,
            help: "Writes TEXT where nothing is at the place; `--default=TEXT` if it begins with `-`",
            form: Form::Text("TEXT"),
            relation: Relation::Free,
        },
        AT_ARGUMENT,
        FOLDER_ARGUMENT,
        NAME_ARGUMENT,
        Argument {
            name: POINTER,
            help: "JSON Pointers, as /port; the whole configuration if none is given",
            form: Form::Several,
            relation: Relation::Free,
        },
    ],
    help: "\
The value is written in the one style. With `--raw` a text is written as it is, with a line feed after
it, or with nothing after it for `--no-newline`; a list or a mapping is refused (NotText). With
`--json` the value is a JSON text, each text a string. With `--plain` texts as 80 and true stand without
quotes, for readers with types. With `--default` that text is written where no configuration has the
name, or nothing is at the pointer. No lock is taken and nothing is changed, so this runs beside a
session that holds the store.

Several pointers need `--raw` or `--json`, and no `--no-newline` or `--default`: the values are written
one after the other, each with a line feed after it. They are of one moment. Where one of them can't be
written, none is.

Examples:
  confstore get store web /port --raw
  confstore get store web /host /port --raw
  confstore get store web /port --raw --default 80
  confstore get store web
  confstore get store web /tls --json
  confstore get store web /port --at 12",
};

/// The word of `get` that has a text written as it is.
const RAW: &str = "raw";

/// The word of `get` that has no line feed after such a text. It needs [`RAW`].
const NO_NEWLINE: &str = "no-newline";

/// The word of `get` that gives a text for a place where nothing is.
const DEFAULT: &str = "default";

pub(crate) fn get_invocation<'w>(
    alloc: Global,
    words: &Matches<'w>,
) -> Result<Invocation<'w>, Unasked>
    ensures { spec.Makes (spec.get_is_wrong words.now) (spec.IsGet words.now) result }
{
    let Some(folder) = words.text(FOLDER) else {
        return Err(Unasked::OTHER);
    };
    let Some(name) = words.text(NAME) else {
        return Err(Unasked::OTHER);
    };
    let pointers = match pointers_of(alloc, words) {
        Ok(pointers) => pointers,
        Err(AllocError) => return Err(Unasked::OutOfMemory),
    };
    if pointers.len() > 1 && !writes_lines(words) {
        return Err(Unasked::Because(SEVERAL));
    }
    let places = Places {
        name,
        pointers,
        at: words.number(AT),
    };
    Ok(Invocation::Get {
        folder,
        places,
        missing: missing_value_of(words),
        form: form_of_value(words),
    })
}

/// Why the words of `get` are wrong that give several pointers.
const SEVERAL: &str = "several POINTERs need --raw or --json, and no --no-newline or --default";

/// The pointers that the words of `get` give; that to the whole configuration if they give none. It fails only if
/// memory runs out.
fn pointers_of<'w>(alloc: Global, words: &Matches<'w>) -> Result<Vec<&'w str>, AllocError>
    ensures { IfOk result (λ pointers.
        map (λ p. p.now) pointers.items ≡ spec.pointers_in words.now) }
{
    let pointers = words.texts(alloc, POINTER)?;
    if pointers.is_empty() {
        let whole: &'w str = WHOLE;
        return Vec::from_slice(alloc, &[whole]);
    }
    Ok(pointers)
}

/// Whether the words of `get` have each value written with a line feed after it, also where nothing is at a pointer.
fn writes_lines(words: &Matches<'_>) -> bool
    ensures { result ≡ spec.writes_lines words.now }
{
    let is_line = words.flag(JSON) || (words.flag(RAW) && !words.flag(NO_NEWLINE));
    is_line && words.text(DEFAULT).is_none()
}

fn missing_value_of<'w>(words: &Matches<'w>) -> MissingValue<'w>
    ensures { spec.IsDefault words.now result }
{
    match words.text(DEFAULT) {
        Some(text) => MissingValue::Default(text),
        None => MissingValue::Refused,
    }
}

fn form_of_value(words: &Matches<'_>) -> ValueForm
    ensures { result ≡ spec.value_form_in words.now }
{
    if words.flag(NO_NEWLINE) {
        ValueForm::Raw(RawEnd::Nothing)
    } else if words.flag(RAW) {
        ValueForm::Raw(RawEnd::LineFeed)
    } else {
        ValueForm::Whole(tree_form_of(words))
    }
}

pub(crate) const KEYS: Listing = Listing {
    about: "Writes the keys of a mapping, or the indexes of a list",
    arguments: &[
        AT_ARGUMENT,
        FOLDER_ARGUMENT,
        NAME_ARGUMENT,
        POINTER_ARGUMENT,
    ],
    help: "\
Each key of a mapping is one line, in order; of a list the lines are the indexes, from 0 on. A key that
has a line break or another character that isn't shown, or begins with `\"`, is in double quotes, as the
one style writes it; so is the empty key. A text is refused (NotCollection). No lock is taken and nothing
is changed, so this runs beside a session that holds the store.

Examples:
  confstore keys store web
  confstore keys store web /hosts --at 12",
};

pub(crate) fn keys_invocation<'w>(
    alloc: Global,
    words: &Matches<'w>,
) -> Result<Invocation<'w>, Unasked>
    ensures { spec.Makes (spec.keys_is_wrong words.now) (spec.IsKeys words.now) result }
{
    let Some(folder) = words.text(FOLDER) else {
        return Err(Unasked::OTHER);
    };
    let Some(name) = words.text(NAME) else {
        return Err(Unasked::OTHER);
    };
    let pointers = match pointer_of(alloc, words) {
        Ok(pointers) => pointers,
        Err(AllocError) => return Err(Unasked::OutOfMemory),
    };
    let places = Places {
        name,
        pointers,
        at: words.number(AT),
    };
    Ok(Invocation::Get {
        folder,
        places,
        missing: MissingValue::Refused,
        form: ValueForm::Keys,
    })
}

/// The pointer that the words of `keys` give, as a list. It fails only if memory runs out.
fn pointer_of<'w>(alloc: Global, words: &Matches<'w>) -> Result<Vec<&'w str>, AllocError>
    ensures { IfOk result (λ pointers. map (λ p. p.now) pointers.items
        ≡ unwrap_or (text_of words.now (codes "POINTER")) [] ∷ []) }
{
    let pointer = words.text(POINTER).unwrap_or(WHOLE);
    Vec::from_slice(alloc, &[pointer])
}

pub(crate) const EXISTS: Listing = Listing {
    about: "Tells whether something is at a JSON Pointer, by the status",
    arguments: &[
        AT_ARGUMENT,
        FOLDER_ARGUMENT,
        NAME_ARGUMENT,
        POINTER_ARGUMENT,
    ],
    help: "\
Nothing is written. The status is 0 if something is at the pointer, and 1 if nothing is there or no
configuration has the name. Without POINTER it is 0 if the configuration is there. Another fault is
reported, as for `get`. No lock is taken and nothing is changed, so this runs beside a session that
holds the store.

Examples:
  confstore exists store web /tls && echo encrypted
  confstore exists store web --at 12",
};

pub(crate) fn exists_invocation<'w>(words: &Matches<'w>) -> Result<Invocation<'w>, Unasked>
    ensures { spec.Makes (spec.exists_is_wrong words.now) (spec.IsExists words.now) result }
{
    let Some(folder) = words.text(FOLDER) else {
        return Err(Unasked::OTHER);
    };
    let Some(name) = words.text(NAME) else {
        return Err(Unasked::OTHER);
    };
    let place = Place {
        name,
        pointer: words.text(POINTER).unwrap_or(WHOLE),
        at: words.number(AT),
    };
    Ok(Invocation::Exists { folder, place })
}

pub(crate) const LOG: Listing = Listing {
    about: "Writes the commands that a store has accepted since its last checkpoint",
    arguments: &[
        Argument {
            name: VALUES,
            help: "Writes the value of each import and set, too, as a JSON text",
            form: Form::Flag,
            relation: Relation::Excludes(&[YAML]),
        },
        Argument {
            name: HIDE,
            help: "Writes `hidden` for what is at POINTER, or below it; needs --values, and may be given again",
            form: Form::Words("POINTER"),
            relation: Relation::Needs(VALUES),
        },
        Argument {
            name: YAML,
            help: "Writes the records as they stand in store.yaml",
            form: Form::Flag,
            relation: Relation::Excludes(&[HIDE]),
        },
        Argument {
            name: JSON,
            help: "Writes each command as a JSON object on one line, with its values",
            form: Form::Flag,
            relation: Relation::Excludes(&[YAML, VALUES, HIDE]),
        },
        Argument {
            name: ABOUT,
            help: "Shows what is recorded under KEY, in place of `by`, `when` and `why`; may be given again",
            form: Form::Words("KEY"),
            relation: Relation::Excludes(&[YAML, JSON]),
        },
        Argument {
            name: FROM,
            help: "Begins with command number N",
            form: Form::Number("N", 0),
            relation: Relation::Free,
        },
        Argument {
            name: LAST,
            help: "Ends with command number N; nothing is written unless it is there",
            form: Form::Number("N", 0),
            relation: Relation::Excludes(&[AT]),
        },
        AT_ARGUMENT,
        FOLDER_ARGUMENT,
        Argument {
            name: NAME,
            help: "The configuration of which the commands are written; all if it is left out",
            form: Form::Optional,
            relation: Relation::Free,
        },
    ],
    help: "\
Each command is one line, as `2 set web \"/port\"`: its number, what it did, and where. With `--values`
the value of an import or a set follows as a JSON text, as `2 set web \"/port\" \"80\"`. With `--yaml`
the records are written as they stand in store.yaml, each a YAML document. No lock is taken and
nothing is changed, so this runs beside a session that holds the store.

A command that says who made it, when and why has that behind its number, as `2 by \"ann\" why \"a test\"
set web \"/port\"` on one line: what its `about` has under `by`, `when` and `why`. With `--about KEY` the
line has what is under that key in place of these.

With `--json` each command is an object: `at`, its number; `by`, `when` and `why`, and all of its `about`,
where it has one; and `edits`, as `batch` takes them.

With NAME only commands are written that change this configuration: a batch that does, as that of
`rename`, is written whole. `--to N` and `--at N` are the same. Commands that a checkpoint dropped are
not there.

With `--hide POINTER` the word `hidden` stands for what is at the JSON Pointer of any configuration, or
below it, as `1 import web {\"port\":\"80\",\"key\":hidden}`. An index is the one that the command names, and
`-` is taken for every index: hide a list whole. A POINTER that is none is refused (BadPath).

Examples:
  confstore log store
  confstore log store web --from 12
  confstore log store --values
  confstore log store --values --hide /key
  confstore log store --about by --about ticket
  confstore log store --json
  confstore log store --yaml
  confstore log store --at 12",
};

/// The word of `log` that says with which command it begins, and of `diff` that says after which.
const FROM: &str = "from";

/// The word of `log` and `diff` that says with which command it ends. To `log` it means the same as [`AT`].
const LAST: &str = "to";

/// The word of `log` that has values written.
const VALUES: &str = "values";

/// The word of `log` that hides the values at a pointer. It needs [`VALUES`].
const HIDE: &str = "hide";

pub(crate) fn log_invocation<'w>(
    alloc: Global,
    words: &Matches<'w>,
) -> Result<Invocation<'w>, Unasked>
    ensures { spec.Makes (spec.log_is_wrong words.now) (spec.IsLog words.now) result }
{
    let Some(folder) = words.text(FOLDER) else {
        return Err(Unasked::OTHER);
    };
    let form = match form_of_log(alloc, words) {
        Ok(form) => form,
        Err(AllocError) => return Err(Unasked::OutOfMemory),
    };
    let commands = Commands {
        name: words.text(NAME),
        from: words.number(FROM).unwrap_or(0),
        at: words.number(AT).or(words.number(LAST)),
    };
    Ok(Invocation::Log {
        folder,
        commands,
        form,
    })
}

/// How a log is written, as the words say. It fails only if memory runs out.
fn form_of_log<'w>(alloc: Global, words: &Matches<'w>) -> Result<LogForm<'w>, AllocError>
    ensures { IfOk result (spec.IsLogForm words.now) }
{
    if words.flag(YAML) {
        return Ok(LogForm::Records);
    }
    if words.flag(JSON) {
        return Ok(LogForm::Json);
    }
    let shown = keys_shown(alloc, words)?;
    if !words.flag(VALUES) {
        return Ok(LogForm::Lines { shown });
    }
    let hidden = words.texts(alloc, HIDE)?;
    Ok(LogForm::Values { shown, hidden })
}

/// The keys of abouts whose texts a log shows: `by`, `when` and `why` if the words name none. It fails only if memory
/// runs out.
fn keys_shown<'w>(alloc: Global, words: &Matches<'w>) -> Result<Vec<&'w str>, AllocError>
    ensures { IfOk result (λ shown. spec.AreShown words.now shown.items) }
{
    let keys = words.texts(alloc, ABOUT)?;
    if keys.is_empty() {
        let (by, when, why): (&'w str, &'w str, &'w str) = ("by", "when", "why");
        return Vec::from_slice(alloc, &[by, when, why]);
    }
    Ok(keys)
}

pub(crate) const DIFF: Listing = Listing {
    about: "Writes what changed between two commands, or between two files, as edits",
    arguments: &[
        Argument {
            name: FROM,
            help: "Begins with what the store was after command number N",
            form: Form::Number("N", 0),
            relation: Relation::Excludes(&[OF_FILES]),
        },
        Argument {
            name: LAST,
            help: "Goes to what the store was after command number N",
            form: Form::Number("N", 0),
            relation: Relation::Excludes(&[OF_FILES]),
        },
        Argument {
            name: OF_FILES,
            help: "Compares two files, which stand in the places of FOLDER and NAME",
            form: Form::Flag,
            relation: Relation::Needs(NAME),
        },
        FOLDER_ARGUMENT,
        Argument {
            name: NAME,
            help: "The configuration of which the edits are written; all if it is left out",
            form: Form::Optional,
            relation: Relation::Free,
        },
    ],
    help: "\
It begins with the oldest state that the file has, which the last checkpoint left, and goes to the last
command, unless numbers are given. It writes the edits that make the second state of the first, as a
list that `batch` takes; they are made in their order. The order of keys and of configurations counts.
A configuration is imported where its edits have over 1,024 bytes and the import is shorter. If the
second number is the smaller one, the edits take the commands between back. A number that the file
does not have is refused (NoSuchCommand). No lock is taken and nothing is changed, so this runs beside
a session that holds the store.

With `--files` the trees of two YAML texts are compared. The edits name the configuration as the second
file, up to the first `.` of its name.

The status is 0 if nothing differs, and 1 if something does, as of diff.

Examples:
  confstore diff store --from 11
  confstore diff store web --from 11 --to 12
  confstore diff store --from 12 --to 11 | confstore batch store
  confstore diff --files old.yaml new.yaml",
};

/// The word of `diff` that has two files compared. It excludes [`FROM`] and [`LAST`].
const OF_FILES: &str = "files";

pub(crate) fn diff_invocation<'w>(words: &Matches<'w>) -> Result<Invocation<'w>, Unasked>
    ensures { spec.Makes (spec.diff_is_wrong words.now) (spec.IsDiff words.now) result }
{
    let Some(folder) = words.text(FOLDER) else {
        return Err(Unasked::OTHER);
    };
    let span = Span {
        from: words.number(FROM),
        to: words.number(LAST),
    };
    match (words.flag(OF_FILES), words.text(NAME)) {
        (false, name) => Ok(Invocation::Diff { folder, name, span }),
        (true, Some(second)) => Ok(Invocation::DiffFiles {
            first: folder,
            second,
        }),
        (true, None) => Err(Unasked::OTHER),
    }
}

/// The word of `verify` and `salvage` that names a new file for the bytes that an opening drops.
const KEEP_DROPPED: &str = "keep-dropped";

const KEEP_DROPPED_ARGUMENT: Argument = Argument {
    name: KEEP_DROPPED,
    help: "Writes what an opening drops, or is refused for, to the new file FILE",
    form: Form::Word(FILE),
    relation: Relation::Free,
};

pub(crate) const VERIFY: Listing = Listing {
    about: "Reads a whole store, and writes whether it can be opened",
    arguments: &[KEEP_DROPPED_ARGUMENT, FOLDER_ARGUMENT],
    help: "\
The answer is a YAML mapping, a line for each key:
  state       whole; torn if a crash left zeros in the last record; or damaged
  base        how many commands its base stands for
  commands    how many records follow the base, up to the first bad piece
  dropped     how many bytes follow the last closing line
Of a torn or damaged store also:
  piece       the number of the first bad piece, from 1 after the base
  byte, line  where that piece begins: the byte from 0, the line from 1
  why         NotARecord, WrongNumber, or why its command is refused
  first_zero  where its first zero is, and how many it has: a crash leaves zeros; both only
  zeros       if it has any
  following   how many pieces follow it
A store that is whole or torn can be opened: that drops what follows its last record. Of a damaged
one the fault is `Damaged`, and the status is 1.

With `--keep-dropped FILE` the bytes that an opening drops, or is refused for, are kept: all that follow
the last record. FILE is made for them, for its owner alone, and refused if it is there (FileExists). It
is not made if there are none.

Examples:
  confstore verify store
  confstore verify store --keep-dropped dropped.bin",
};

pub(crate) fn verify_invocation<'w>(words: &Matches<'w>) -> Result<Invocation<'w>, Unasked>
    ensures { spec.Makes (spec.verify_is_wrong words.now) (spec.IsVerify words.now) result }
{
    let Some(folder) = words.text(FOLDER) else {
        return Err(Unasked::OTHER);
    };
    Ok(Invocation::Verify {
        folder,
        keep_dropped: words.text(KEEP_DROPPED),
    })
}

pub(crate) const SALVAGE: Listing = Listing {
    about: "Makes a new store of what a damaged one says before its first bad piece",
    arguments: &[KEEP_DROPPED_ARGUMENT, FOLDER_ARGUMENT, NEW_ARGUMENT],
    help: "\
FOLDER is read and stays as it is. NEW is made if it is missing, and is refused if it has a
store.yaml (StoreExists). What was left out is written as `confstore verify` writes it: piece, byte,
line, why, zeros and following, unless nothing was. With `--keep-dropped FILE` its bytes are put into
the new file FILE before NEW is made, as by `verify`.

Examples:
  confstore salvage store new-store
  confstore salvage store new-store --keep-dropped rest.bin",
};

/// The argument of `salvage` and `backup` that names the folder of the new store.
const NEW: &str = "NEW";

const NEW_ARGUMENT: Argument = Argument {
    name: NEW,
    help: "The folder of the new store; after `--` if it begins with `-`",
    form: Form::Required,
    relation: Relation::Free,
};

pub(crate) fn salvage_invocation<'w>(words: &Matches<'w>) -> Result<Invocation<'w>, Unasked>
    ensures { spec.Makes (spec.salvage_is_wrong words.now) (spec.IsSalvage words.now) result }
{
    let Some(folder) = words.text(FOLDER) else {
        return Err(Unasked::OTHER);
    };
    let Some(new) = words.text(NEW) else {
        return Err(Unasked::OTHER);
    };
    Ok(Invocation::Salvage {
        folder,
        new,
        keep_dropped: words.text(KEEP_DROPPED),
    })
}

pub(crate) const BACKUP: Listing = Listing {
    about: "Makes a new store with the same base and records as another one",
    arguments: &[FOLDER_ARGUMENT, NEW_ARGUMENT],
    help: "\
NEW gets the bytes of FOLDER's store.yaml up to its last whole record, so the same configurations, count
and log, and they are synced. NEW is made if it is missing, and is refused if it has a store.yaml
(StoreExists). Nothing is printed where it is done. FOLDER is read and stays as it is: no lock is taken,
so this runs beside a session that holds the store. A damaged store is refused (Damaged): `salvage` is
for that.

Example:  confstore backup store store-of-monday",
};

pub(crate) fn backup_invocation<'w>(words: &Matches<'w>) -> Result<Invocation<'w>, Unasked>
    ensures { spec.Makes (spec.backup_is_wrong words.now) (spec.IsBackup words.now) result }
{
    let Some(folder) = words.text(FOLDER) else {
        return Err(Unasked::OTHER);
    };
    let Some(new) = words.text(NEW) else {
        return Err(Unasked::OTHER);
    };
    Ok(Invocation::Backup { folder, new })
}
