// The word of the program that writes the commands of a store.
ghost use Rattle.std.specs.Prelude.{◌≡◌, ℕ, List, Ok, map};
ghost use Rattle.tree_hidden.specs.Pointers.{owned_paths, paths_or};
ghost use Rattle.conf_tools.specs.LogWords.{Hides, Logs, LogsAs, LogsLines, LogsValues, fault_of_pointer};
ghost use Rattle.conf_tools.specs.declared.outcome.Ending.TheVariants.{Of};

use crate::outcome::Outcome;
use crate::read_words::{Question, answer_on_folder};
use crate::reading_fault::ReadingFault;
use crate::world::World;
use conf_history::{LineForm, LogForm, LogRequest};
use conf_state::StoreFault;
use conf_words::Commands;
use std::alloc::Global;
use std::io::Write;
use tree_hidden::{paths_of_pointers, tokens_of_paths};
use tree_path::PathFault;
use yaml_tree::Text;

/// Writes the commands of the store in a folder, beside whoever holds the store. A pointer of what is to be hidden that
/// is none is a fault: then no folder is looked at.
pub(crate) fn log_folder<'w, A: World, W: Write>(
    world: &mut A,
    alloc: Global,
    folder: &'w str,
    commands: Commands<'_>,
    asked: conf_words::LogForm<'_>,
    output: &mut W,
) -> Outcome<'w>
    ensures { Logs A.model A.File.remaining folder.now commands.entry asked.entry world.old world.new
        (W.contents output.old) (W.contents output.new) (Of result) }
{
    match asked {
        conf_words::LogForm::Lines { shown } => {
            log_lines(
                world,
                alloc,
                folder,
                commands,
                LineForm::Names,
                &shown,
                output,
            )
        }
        conf_words::LogForm::Values { shown, hidden } => {
            log_values(world, alloc, folder, commands, &shown, &hidden, output)
        }
        conf_words::LogForm::Json => {
            log_as(world, alloc, folder, commands, LogForm::Json, output)
        }
        conf_words::LogForm::Records => {
            log_as(world, alloc, folder, commands, LogForm::Records, output)
        }
    }
}

/// Writes the commands of the store in a folder in a form.
fn log_as<'w, A: World, W: Write>(
    world: &mut A,
    alloc: Global,
    folder: &'w str,
    commands: Commands<'_>,
    form: LogForm<'_>,
    output: &mut W,
) -> Outcome<'w>
    ensures { LogsAs A.model A.File.remaining folder.now commands.entry form.entry world.old world.new
        (W.contents output.old) (W.contents output.new) (Of result) }
{
    let request = LogRequest {
        form,
        name: commands.name,
        from: commands.from,
    };
    let asked = Question::Log {
        at: commands.at,
        request,
    };
    answer_on_folder(world, alloc, folder, asked, output)
}

/// Writes them as lines, each with what its about has under some keys.
fn log_lines<'w, 'h, A: World, W: Write>(
    world: &mut A,
    alloc: Global,
    folder: &'w str,
    commands: Commands<'_>,
    form: LineForm<'h>,
    shown: &'h [&'h str],
    output: &mut W,
) -> Outcome<'w>
    ensures { LogsLines A.model A.File.remaining folder.now commands.entry form.entry shown.now
        world.old world.new (W.contents output.old) (W.contents output.new) (Of result) }
{
    let form = LogForm::Lines { form, shown };
    log_as(world, alloc, folder, commands, form, output)
}

/// Writes them with their values, but for what is at some pointers, or below them.
fn log_values<'w, A: World, W: Write>(
    world: &mut A,
    alloc: Global,
    folder: &'w str,
    commands: Commands<'_>,
    shown: &[&str],
    hidden: &[&str],
    output: &mut W,
) -> Outcome<'w>
    ensures { LogsValues A.model A.File.remaining folder.now commands.entry shown.now
        (map (λ pointer. pointer.now) hidden.now) world.old world.new
        (W.contents output.old) (W.contents output.new) (Of result) }
{
    match hidden {
        [] => {
            log_lines(
                world,
                alloc,
                folder,
                commands,
                LineForm::Values,
                shown,
                output,
            )
        }
        hidden => match paths_of_pointers(alloc, hidden) {
            Ok(paths) => log_hiding(world, alloc, folder, commands, shown, &paths, output),
            Err(fault) => Outcome::Reading(ReadingFault::Value(fault_of_pointer(fault))),
        },
    }
}

/// Writes them with their values, but for what is at some paths, or below them.
fn log_hiding<'w, A: World, W: Write>(
    world: &mut A,
    alloc: Global,
    folder: &'w str,
    commands: Commands<'_>,
    shown: &[&str],
    paths: &[Vec<Text>],
    output: &mut W,
) -> Outcome<'w>
    ensures { (pointers : List (List ℕ)) → paths_or pointers ≡ Ok (owned_paths paths.now)
        → Hides A.model A.File.remaining folder.now commands.entry shown.now pointers world.old world.new
        (W.contents output.old) (W.contents output.new) (Of result) }
{
    match tokens_of_paths(alloc, paths) {
        Ok(tokens) => {
            let form = LineForm::Hiding(&tokens);
            log_lines(world, alloc, folder, commands, form, shown, output)
        }
        Err(_) => Outcome::Reading(ReadingFault::Value(StoreFault::OutOfMemory)),
    }
}

/// The fault of a pointer that is to be hidden.
fn fault_of_pointer(fault: PathFault) -> StoreFault
    ensures { result ≡ fault_of_pointer fault }
{
    match fault {
        PathFault::OutOfMemory => StoreFault::OutOfMemory,
        fault => StoreFault::Path(fault),
    }
}
