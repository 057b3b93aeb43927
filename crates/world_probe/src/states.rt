// What a folder holds, in a line. It is asked by words of the program, which open the folder.
use crate::runs::ask;
use crate::world::MemoryWorld;
use conf_tools::Status;
use conf_words::{Grouping, Invocation, NamesForm, TreeForm};
use std::alloc::{AllocError, Global};

/// A session that makes a checkpoint: the answer has the number of commands.
const CHECKPOINT: &str = "---\ncheckpoint:\n...\n";

/// What stands around the number in the answer to it.
const ANSWER: (&str, &str) = ("---\nok: \"", "\"\n...\n");

/// What is said first where a folder has no store.
const NO_STORE: &str = "confstore: NotAStore\n";

/// What a folder without a store is shown as, and one that is not there.
pub(crate) const NOTHING: &str = "no store";

/// What the folder at a path holds, after it was opened again, as `2 a="x"`, or `no store`. Where the words do not
/// answer as they have to, it is what they said.
pub(crate) fn told(
    alloc: Global,
    world: &mut MemoryWorld,
    path: &str,
) -> Result<String, AllocError> {
    if world.system(path).is_none() {
        return String::from_str(alloc, NOTHING);
    }
    let mut told = told_by_words(alloc, world, path)?;
    if world.is_misused() {
        told.push_str(" by a call that may not be made")?;
    }
    Ok(told)
}

/// What the words say that a folder holds.
fn told_by_words(alloc: Global, world: &mut MemoryWorld, path: &str) -> Result<String, AllocError> {
    let read = ask(world, alloc, names_of(path), "");
    if read.status == Status::Done {
        return told_of_store(alloc, world, path, read.output());
    }
    if read.errors().starts_with(NO_STORE) {
        return told_of_none(alloc, world, path);
    }
    read.line(alloc)
}

/// The question for the names of the configurations.
fn names_of(path: &str) -> Invocation<'_> {
    Invocation::Names {
        folder: path,
        at: None,
        form: NamesForm::Lines,
    }
}

/// What a folder without a store holds: one can be made in it.
fn told_of_none(alloc: Global, world: &mut MemoryWorld, path: &str) -> Result<String, AllocError> {
    let made = ask(world, alloc, Invocation::Init { folder: path }, "");
    if made.status == Status::Done {
        String::from_str(alloc, NOTHING)
    } else {
        made.line(alloc)
    }
}

/// What a store holds, of which these names were read before it was opened.
fn told_of_store(
    alloc: Global,
    world: &mut MemoryWorld,
    path: &str,
    names: &str,
) -> Result<String, AllocError> {
    let opening = Invocation::Run {
        folder: path,
        grouping: Grouping::Single,
    };
    let opened = ask(world, alloc, opening, CHECKPOINT);
    let Some(count) = count_in(opened.output()) else {
        return opened.line(alloc);
    };
    let mut line = String::from_str(alloc, count)?;
    for name in names.lines() {
        push_config(&mut line, alloc, world, path, name)?;
    }
    let read = ask(world, alloc, names_of(path), "");
    if read.output() != names {
        line.push_str(" with other names than before")?;
    }
    Ok(line)
}

/// The number in an answer.
fn count_in(answer: &str) -> Option<&str> {
    let (before, after) = ANSWER;
    answer.strip_prefix(before)?.strip_suffix(after)
}

/// Appends a configuration.
fn push_config(
    line: &mut String,
    alloc: Global,
    world: &mut MemoryWorld,
    path: &str,
    name: &str,
) -> Result<(), AllocError> {
    let question = Invocation::Export {
        folder: path,
        name,
        form: TreeForm::Json,
    };
    let read = ask(world, alloc, question, "");
    line.push_str(" ")?;
    line.push_str(name)?;
    line.push_str("=")?;
    match read.output().strip_suffix("\n") {
        Some(json) => line.push_str(json),
        None => line.push_str(read.errors()),
    }
}
