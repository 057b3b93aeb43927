// The line behind a fault of a word, which says what was looked for.
ghost use Rattle.std.specs.Prelude.{◌≡◌, ◌⊎◌, None};
ghost use Rattle.conf_tools.specs.Sentences.{HasSentence, IsSought, IsSoughtInFile, IsSoughtInStore};

use crate::likeness::known_names;
use crate::outcome::{Ending, Outcome};
use crate::reading_fault::ReadingFault;
use crate::stores::StoreToolFault;
use crate::world::World;
use conf_conditions::ConditionFault;
use conf_folder::FolderFault;
use conf_history::{HistoryFault, names_at};
use conf_state::StoreFault;
use conf_words::{Alteration, FolderWord, Invocation, Reporting, Target, escaped};
use std::alloc::{AllocError, Global};
use std::io::Write;
use tree_path::PathFault;

/// What a word looks for in a store.
#[derive(Clone, Copy)]
pub(crate) struct Sought<'w> {
    folder: &'w str,
    /// The name of the configuration that has to be there. It is empty if any may be.
    name: &'w str,
    /// The JSON Pointer. It is empty for a whole configuration, and where there are several.
    pointer: &'w str,
    /// The number of the command after which it is looked for; the last one if there is none.
    at: Option<u64>,
}

impl<'w> Sought<'w> {
    /// What an invocation looks for, if a sentence is to say it. An export has none unless reports explain.
    pub(crate) fn of(invocation: &Invocation<'w>, reporting: Reporting) -> Option<Self> {
        match *invocation {
            Invocation::Import { import, .. } => Sought::at(import.folder, import.name, ""),
            Invocation::Set { target, .. } => Sought::at_target(target),
            Invocation::Alter {
                target,
                alteration,
                ..
            } => match alteration {
                Alteration::Delete => Sought::at_target(target),
                Alteration::Copy { from } | Alteration::Rename { from } => {
                    Sought::at(target.folder, from, "")
                }
                Alteration::Move { .. } => Sought::at(target.folder, target.name, ""),
            },
            Invocation::Exists { folder, place } => Sought::at(folder, place.name, place.pointer),
            _ => Sought::of_others(invocation, reporting),
        }
    }

    /// The same of the words that have no pointer, or several.
    fn of_others(invocation: &Invocation<'w>, reporting: Reporting) -> Option<Self> {
        match invocation {
            Invocation::Get { folder, places, .. } => Some(Sought {
                folder,
                name: places.name,
                pointer: only_one(&places.pointers),
                at: places.at,
            }),
            Invocation::Export { folder, name, .. } => match reporting {
                Reporting::Brief => None,
                Reporting::Explained => Sought::at(folder, name, ""),
            },
            Invocation::Diff { folder, name, .. } => Sought::at(folder, name.unwrap_or(""), ""),
            Invocation::Batch { batch, .. } => Sought::at(batch.folder, "", ""),
            Invocation::Names { folder, .. }
            | Invocation::ExportAll { folder, .. }
            | Invocation::Log { folder, .. }
            | Invocation::Checkpoint { folder }
            | Invocation::Verify { folder, .. }
            | Invocation::Salvage { folder, .. }
            | Invocation::Backup { folder, .. } => Sought::at(folder, "", ""),
            _ => None,
        }
    }

    fn at_target(target: Target<'w>) -> Option<Self> {
        Sought::at(target.folder, target.name, target.pointer)
    }

    fn at(folder: &'w str, name: &'w str, pointer: &'w str) -> Option<Self> {
        Some(Sought {
            folder,
            name,
            pointer,
            at: None,
        })
    }
}

/// The pointer, where there is one alone.
fn only_one<'w>(pointers: &[&'w str]) -> &'w str {
    if pointers.len() == 1 { pointers[0] } else { "" }
}

/// What a sentence says.
#[derive(Clone, Copy)]
enum Sentence {
    NoStore,
    NoConfig,
    /// Nothing is where the step leads, counted from 1.
    Nothing { step: usize },
    /// The step is no index of a list, counted from 1.
    NoIndex { step: usize },
    NoPointer,
    NoName,
    NoCommand,
    Unmet,
}

/// The sentence for the ending of a word, if it has one.
fn sentence_of(ending: Ending<'_>) -> Option<Sentence>
    ensures { (result ≡ None) ⊎ HasSentence ending.entry }
{
    match ending {
        Ending::Of(Outcome::Store(fault)) => of_store(fault),
        Ending::Of(Outcome::Reading(fault)) => of_reading(fault),
        _ => None,
    }
}

/// The sentence for a fault of a word that opens a store.
fn of_store(fault: StoreToolFault) -> Option<Sentence>
    ensures { (result ≡ None) ⊎ IsSoughtInStore fault }
{
    match fault {
        StoreToolFault::Folder(FolderFault::NotAStore) => Some(Sentence::NoStore),
        StoreToolFault::Export(fault) | StoreToolFault::Refused(fault) => of_state(fault),
        StoreToolFault::Condition(ConditionFault::Unmet) => Some(Sentence::Unmet),
        StoreToolFault::Condition(ConditionFault::BadName) => Some(Sentence::NoName),
        StoreToolFault::Condition(ConditionFault::Path(fault)) => of_path(fault),
        _ => None,
    }
}

/// The sentence for a fault of a word that reads the file of a store.
fn of_reading(fault: ReadingFault) -> Option<Sentence>
    ensures { (result ≡ None) ⊎ IsSoughtInFile fault }
{
    match fault {
        ReadingFault::Folder(FolderFault::NotAStore)
        | ReadingFault::History(HistoryFault::NotAStore) => Some(Sentence::NoStore),
        ReadingFault::History(HistoryFault::NoSuchCommand) => Some(Sentence::NoCommand),
        ReadingFault::Value(fault) => of_state(fault),
        _ => None,
    }
}

/// The sentence for a refusal of the state.
fn of_state(fault: StoreFault) -> Option<Sentence>
    ensures { (result ≡ None) ⊎ IsSought fault }
{
    match fault {
        StoreFault::BadName => Some(Sentence::NoName),
        StoreFault::NoConfig => Some(Sentence::NoConfig),
        StoreFault::Path(fault) => of_path(fault),
        _ => None,
    }
}

/// The sentence for a fault of a pointer.
fn of_path(fault: PathFault) -> Option<Sentence> {
    match fault {
        PathFault::BadPath { .. } => Some(Sentence::NoPointer),
        PathFault::NoSuchPlace { step } => Some(Sentence::Nothing { step }),
        PathFault::NotIndex { step } => Some(Sentence::NoIndex { step }),
        PathFault::OutOfMemory => None,
    }
}

/// The part of a pointer up to a step, which counts from 1.
fn up_to_step(alloc: Global, pointer: &str, step: usize) -> Result<String, AllocError> {
    let mut part = String::new(alloc);
    for token in pointer.split('/').skip(1).take(step) {
        part.push('/')?;
        part.push_str(token)?;
    }
    Ok(part)
}

/// Tells in a line what a word looked for that ended so, if a sentence says it. What there is no memory to show is not
/// told.
pub(crate) fn tell_sentence<A: World, E: Write>(
    world: &A,
    alloc: Global,
    sought: Option<Sought<'_>>,
    ending: Ending<'_>,
    errors: &mut E,
)
    ensures { HasSentence ending.entry ⊎ (errors.new ≡ errors.old) }
{
    if let (Some(sought), Some(sentence)) = (sought, sentence_of(ending)) {
        let _ = sought.say(world, errors, alloc, sentence);
    }
}

impl Sought<'_> {
    /// Writes a sentence.
    fn say<A: World, E: Write>(
        self,
        world: &A,
        errors: &mut E,
        alloc: Global,
        sentence: Sentence,
    ) -> Result<(), AllocError> {
        match sentence {
            Sentence::NoStore => self.say_no_store(errors),
            Sentence::NoConfig => self.say_no_config(world, errors, alloc)?,
            Sentence::Nothing { step } => self.say_nothing(errors, alloc, step)?,
            Sentence::NoIndex { step } => self.say_no_index(errors, alloc, step)?,
            Sentence::NoPointer => self.say_no_pointer(errors, alloc)?,
            Sentence::NoName => say(
                errors,
                "a name has 1 to 64 of a-z, 0-9, _ and -, a letter first",
            ),
            Sentence::NoCommand => self.say_no_command(errors),
            Sentence::Unmet => say(errors, "a condition does not hold, so nothing was changed"),
        }
        Ok(())
    }

    fn say_no_store<E: Write>(self, errors: &mut E) {
        let folder = FolderWord(self.folder);
        let _ = writeln!(
            errors,
            "the folder has no store.yaml that is a store: confstore init {folder} makes one where there is none"
        );
    }

    fn say_no_config<A: World, E: Write>(
        self,
        world: &A,
        errors: &mut E,
        alloc: Global,
    ) -> Result<(), AllocError> {
        let folder = FolderWord(self.folder);
        if self.name.is_empty() {
            let _ = writeln!(
                errors,
                "a configuration is missing: confstore names {folder} lists those that are there"
            );
            return Ok(());
        }
        let name = escaped(alloc, self.name)?;
        match self.names_of_store(world, alloc) {
            Some(names) => {
                let known = known_names(alloc, &names, self.name)?;
                let _ = writeln!(
                    errors,
                    "the store has no configuration \"{name}\" (it has {known})"
                );
            }
            None => {
                let _ = writeln!(
                    errors,
                    "the store has no configuration \"{name}\": confstore names {folder} lists those that are there"
                );
            }
        }
        Ok(())
    }

    /// The names that the store has, or had then, if they can be read.
    fn names_of_store<A: World>(self, world: &A, alloc: Global) -> Option<Vec<String>> {
        let mut file = world.open_again(alloc, self.folder)?;
        let waiting = world.waiting(&file);
        names_at(alloc, &mut file, waiting, self.at).ok()
    }

    fn say_nothing<E: Write>(
        self,
        errors: &mut E,
        alloc: Global,
        step: usize,
    ) -> Result<(), AllocError> {
        if self.pointer.is_empty() {
            say(errors, "nothing is at a pointer");
            return Ok(());
        }
        let name = escaped(alloc, self.name)?;
        let place = up_to_step(alloc, self.pointer, step)?;
        let place = escaped(alloc, &place)?;
        let _ = writeln!(errors, "\"{name}\" has nothing at \"{place}\"");
        Ok(())
    }

    fn say_no_index<E: Write>(
        self,
        errors: &mut E,
        alloc: Global,
        step: usize,
    ) -> Result<(), AllocError> {
        if self.pointer.is_empty() {
            say(
                errors,
                "an element of a list is named by its number, or \"-\" for the place behind the last",
            );
            return Ok(());
        }
        let name = escaped(alloc, self.name)?;
        let place = up_to_step(alloc, self.pointer, step.saturating_sub(1))?;
        let place = escaped(alloc, &place)?;
        let _ = writeln!(
            errors,
            "\"{name}\" has a list at \"{place}\": an element is named by its number, or \"-\" for the place behind the last"
        );
        Ok(())
    }

    fn say_no_pointer<E: Write>(self, errors: &mut E, alloc: Global) -> Result<(), AllocError> {
        if self.pointer.is_empty() {
            say(
                errors,
                "begin the pointer with \"/\"; write \"~\" as \"~0\", and \"/\" in a key as \"~1\"",
            );
            return Ok(());
        }
        let pointer = escaped(alloc, self.pointer)?;
        let _ = writeln!(
            errors,
            "\"{pointer}\" is no pointer: begin it with \"/\"; write \"~\" as \"~0\", and \"/\" in a key as \"~1\""
        );
        Ok(())
    }

    fn say_no_command<E: Write>(self, errors: &mut E) {
        let folder = FolderWord(self.folder);
        let _ = writeln!(
            errors,
            "the store has no command with this number: confstore log {folder} lists those that are there"
        );
    }
}

/// Writes a sentence that is always the same.
fn say<E: Write>(errors: &mut E, sentence: &str) {
    let _ = writeln!(errors, "{sentence}");
}
