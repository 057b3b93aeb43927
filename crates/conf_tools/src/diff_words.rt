// The word of the program that compares the texts of two files.
ghost use Rattle.std.specs.Prelude.{◌≡◌, ◌⊎◌, ◌++◌, ◌∷◌, [], ℕ, List, false, true, IfErr, IfOk, OnOk, string_bytes};
ghost use Rattle.conf_state.specs.Names.{good_name};
ghost use Rattle.conf_tools.specs.DiffWords.{DiffsFiles, DiffsTrees, GivesConfig, IsNameOf, ReadsConfig, file_name};
ghost use Rattle.conf_tools.specs.Outcomes.{LeavesFiles};
ghost use Rattle.conf_tools.specs.Prelude.{chars};
ghost use Rattle.conf_tools.specs.Refused.{TellsFault};
ghost use Rattle.conf_tools.specs.Worlds.{around};
ghost use Rattle.conf_tools.specs.declared.outcome.Ending.TheVariants.{Of};

use crate::diffs::write_edits;
use crate::file_words::{read_named, tell_cause};
use crate::listener::Listener;
use crate::outcome::{Ending, Outcome};
use crate::read_words::outcome_of_diff;
use crate::reading_fault::ReadingFault;
use crate::reporter::{Origin, Reporter};
use crate::texts::ToolFault;
use crate::world::World;
use conf_diff::config_edits;
use conf_state::{StoreFault, good_name};
use std::alloc::{AllocError, Global};
use std::io::{Read, Write};
use yaml_tree::{Config, Limits, read_one};

/// Writes what changed between the YAML texts of two files, or of `input` for `-`, as the list of edits that the word
/// `batch` takes. The edits are of the name that the second file has up to its first dot. Why a text is refused is
/// told, and nothing is written then.
pub(crate) fn diff_files<A: World, R: Read, W: Write, E: Listener>(
    world: &mut A,
    reporter: Reporter,
    first: &str,
    second: &str,
    input: &mut R,
    output: &mut W,
    errors: &mut E,
) -> Ending<'static>
    ensures diffs { DiffsFiles A.model A.File.remaining first.now second.now
        (around world.old (R.remaining input.old) (W.contents output.old))
        (around world.new (R.remaining input.new) (W.contents output.new)) result }
    ensures told { LeavesFiles E.hears errors.old result errors.new }
{
    let name = match config_name(reporter.alloc, second) {
        Ok(name) => name,
        Err(fault) => return Ending::Of(Outcome::Reading(ReadingFault::Value(fault))),
    };
    let one = match read_config(world, reporter, first, input, errors) {
        Ok(one) => one,
        Err(fault) => return Ending::ToldFault(fault),
    };
    let other = match read_config(world, reporter, second, input, errors) {
        Ok(other) => other,
        Err(fault) => return Ending::ToldFault(fault),
    };
    Ending::Of(diff_configs(reporter.alloc, &name, &one, &other, output))
}

/// The name that the file at a path has up to its first dot.
///
/// # Errors
/// `BadName` if no configuration may have it, and `OutOfMemory`.
fn config_name(alloc: Global, path: &str) -> Result<String, StoreFault>
    ensures ok { IfOk result (λ name. (chars (string_bytes name) ≡ file_name (chars path.now))
        × (good_name (chars (string_bytes name)) ≡ true)) }
    ensures refused { IfErr result (λ fault. (fault ≡ StoreFault.OutOfMemory)
        ⊎ ((fault ≡ StoreFault.BadName) × (good_name (file_name (chars path.now)) ≡ false))) }
{
    let name = file_name(alloc, path)?;
    if !good_name(&name) {
        return Err(StoreFault::BadName);
    }
    Ok(name)
}

/// What stands in a path behind its last slash and before the first dot there.
fn file_name(alloc: Global, path: &str) -> Result<String, AllocError>
    ensures { IfOk result (λ name. chars (string_bytes name) ≡ file_name (chars path.now)) }
{
    let mut name = String::new(alloc);
    let mut is_before_dot = true;
    for c in path.chars() {
        is_before_dot = take_char(&mut name, is_before_dot, c)?;
    }
    Ok(name)
}

/// Takes one more character of a path behind those whose name was found. Returns whether no dot came behind the last
/// slash, so that the name goes on.
fn take_char(name: &mut String, is_before_dot: bool, c: char) -> Result<bool, AllocError>
    ensures { IfOk result (λ goes_on. (cs : List ℕ)
        → IsNameOf cs (chars (string_bytes name.old)) is_before_dot
        → IsNameOf (cs ++ c ∷ []) (chars (string_bytes name.new)) goes_on) }
{
    if c == '/' {
        name.clear();
        return Ok(true);
    }
    if c == '.' {
        return Ok(false);
    }
    if is_before_dot {
        name.push(c)?;
        return Ok(true);
    }
    Ok(false)
}

/// Reads the text of a file, or of `input` for `-`, as a configuration. Why it is not read, or is none, is told.
fn read_config<A: World, R: Read, E: Listener>(
    world: &mut A,
    reporter: Reporter,
    file: &str,
    input: &mut R,
    errors: &mut E,
) -> Result<Config, ToolFault>
    ensures reads { ReadsConfig A.model A.File.remaining file.now world.old world.new
        (R.remaining input.old) (R.remaining input.new) result }
    ensures same { OnOk result (errors.new ≡ errors.old) }
    ensures told { IfErr result (TellsFault E.hears errors.old) }
{
    match read_named(world, reporter.alloc, file, input) {
        Ok(text) => config_in(reporter, file, &text, errors),
        Err(fault) => {
            reporter.tell_fault(errors, Origin::Named(file), b"", fault);
            tell_cause(world, reporter.alloc, file, errors);
            Err(fault)
        }
    }
}

/// The configuration that the text of a file gives. Why it gives none is told.
fn config_in<E: Listener>(
    reporter: Reporter,
    file: &str,
    text: &[u8],
    errors: &mut E,
) -> Result<Config, ToolFault>
    ensures is { GivesConfig text.now result }
    ensures same { OnOk result (errors.new ≡ errors.old) }
    ensures told { IfErr result (TellsFault E.hears errors.old) }
{
    match read_one(reporter.alloc, text, &Limits::CONFIGURATION) {
        Ok(config) => Ok(config),
        Err(fault) => {
            let fault = ToolFault::Read(fault);
            reporter.tell_fault(errors, Origin::Named(file), text, fault);
            Err(fault)
        }
    }
}

/// Writes the edits between two configurations under a name.
fn diff_configs<W: Write>(
    alloc: Global,
    name: &str,
    first: &Config,
    second: &Config,
    output: &mut W,
) -> Outcome<'static>
    ensures { DiffsTrees (chars name.now) first.now second.now
        (W.contents output.old) (W.contents output.new) (Of result) }
{
    let Ok(edits) = config_edits(alloc, name, Some(first), Some(second)) else {
        return outcome_of_diff(Err(ReadingFault::Value(StoreFault::OutOfMemory)));
    };
    outcome_of_diff(write_edits(alloc, &edits, output))
}
