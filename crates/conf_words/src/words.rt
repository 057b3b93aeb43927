// The words of the program, and what they ask for.
ghost use Rattle.std.specs.Prelude.{◌≡◌, drop, false, map, option_map, string_bytes, true};
ghost use Rattle.command_line.specs.declared.refusal.Refusal.TheVariants.{OutOfMemory};
ghost use Rattle.conf_words.specs.Invocations as spec;
ghost use Rattle.conf_words.specs.declared.unparsed.Unparsed.TheVariants as unparsed;
ghost use Rattle.conf_words.specs.Outcomes.{Parses, ParsesAlone, Tells, is_help};
ghost use Rattle.conf_words.specs.Subcommands.{asks_for_help, begins_with_request, is_topic};

use crate::change_words::{
    batch_invocation, checkpoint_invocation, copy_invocation, delete_invocation, import_invocation,
    init_invocation, move_invocation, rename_invocation, run_invocation, set_invocation,
};
use crate::invocation::Invocation;
use crate::listing::{arguments_of, listed};
use crate::read_words::{
    backup_invocation, diff_invocation, exists_invocation, export_invocation, get_invocation,
    keys_invocation, log_invocation, names_invocation, salvage_invocation, verify_invocation,
};
use crate::refusal::{Unasked, wrong_words};
use crate::subcommand::Subcommand;
use crate::text_words::{check_invocation, format_invocation};
use crate::unparsed::Unparsed;
use crate::waiting::wait_of;
use clap::error::ErrorKind;
use clap::{ArgMatches, Command, Error};
use command_line::{Matches, Refusal, read};
use std::alloc::{AllocError, Global};
use std::time::Duration;

const VERSION: &str = "0.7.2";

const ABOUT: &str = "A crash-safe store of named configuration trees, and tools for their texts.";

const GROUPS_AND_STATUSES: &str = "\
The words by what they do:
  change a store  init, import, set, delete, copy, rename, move, batch, checkpoint, run
  read a store    export, names, get, keys, exists, log, diff, verify, salvage, backup
  read a text     format, check

`names`, `get`, `keys`, `exists`, `log`, `diff`, `verify` and `backup` take no lock, so they run beside
a session that holds the store. A word that changes a store, and `export`, end with `Locked` while
another run holds it. With --wait SECONDS they try again for so long, or for as long as the
environment's CONFSTORE_WAIT says.

Statuses:
  0  done
  1  a text or a store was refused, memory ran out, `check` or `diff` found something, or `exists`
     nothing
  2  wrong words
  3  reading or writing failed, or the folder is missing or locked

A fault is one line on standard error, as `confstore: KeyTwice`.
`confstore help run` shows how commands and answers look.";

/// Returns what the words ask for. The first of them is the program's name.
///
/// # Errors
/// - [`Unparsed::Shown`] if they ask for help or the version.
/// - [`Unparsed::Wrong`] if they are none that the program takes.
/// - [`Unparsed::OutOfMemory`] if memory runs out.
pub fn parse<'w>(alloc: Global, words: &'w [String]) -> Result<Invocation<'w>, Unparsed>
    ensures { ParsesAlone (map string_bytes words.entry.now) result }
{
    match parse_with_wait(alloc, words, None) {
        Ok(asked) => Ok(asked.invocation),
        Err(unparsed) => Err(unparsed),
    }
}

/// What words ask for, and how long they have the locks of its store waited for.
#[derive(Debug, Drop)]
pub struct Asked<'w> {
    pub invocation: Invocation<'w>,
    /// For so long the word tries again while another run holds a lock; once if it is zero.
    pub wait: Duration,
}

/// Returns what the words ask for, as [`parse`] does, and how long they have locks waited for. `wait` is what
/// [`WAIT_VARIABLE`](crate::WAIT_VARIABLE) holds, if it is there.
///
/// # Errors
/// Those of [`parse`], and [`Unparsed::Wrong`] if `wait` counts and is no time.
pub fn parse_with_wait<'w>(
    alloc: Global,
    words: &'w [String],
    wait: Option<&str>,
) -> Result<Asked<'w>, Unparsed>
    ensures { Parses (map string_bytes words.entry.now) (option_map (λ s. s.now) wait.entry) result }
{
    let Some(subcommand) = Subcommand::asked_in(words) else {
        return Err(untaken(alloc, words));
    };
    let given = match read(alloc, arguments_of(subcommand), words_behind(words)) {
        Ok(given) => given,
        Err(refusal) => return Err(unread(alloc, words, refusal)),
    };
    let invocation = match invocation_of(alloc, subcommand, &given) {
        Ok(invocation) => invocation,
        Err(refused) => return Err(refused.told(alloc)),
    };
    match wait_of(subcommand, &given, wait) {
        Ok(wait) => Ok(Asked { invocation, wait }),
        Err(refused) => Err(refused.told(alloc)),
    }
}

/// The words behind the one that asks.
fn words_behind(words: &[String]) -> &[String]
    ensures { result.now ≡ drop 2 words.now }
{
    words.get(2..).unwrap_or(&[])
}

/// Why words that ask for no subcommand ask for nothing.
fn untaken(alloc: Global, words: &[String]) -> Unparsed
    ensures { Tells (asks_for_help (map string_bytes words.now)) result }
{
    if asks_for_help(words) {
        shown(alloc, words)
    } else {
        wrong(alloc, words)
    }
}

/// Whether words ask for help or the version. They ask for no subcommand.
fn asks_for_help(words: &[String]) -> bool
    ensures { result ≡ asks_for_help (map string_bytes words.now) }
{
    match words {
        [_, word, rest @ ..] => match word.as_str() {
            "help" => are_topic(rest),
            "--help" | "--version" => true,
            word => begins_with_request(word.as_bytes()),
        },
        _ => false,
    }
}

/// Whether a word begins with `-h` or `-V`.
fn begins_with_request(word: &[u8]) -> bool
    ensures { result ≡ begins_with_request word.now }
{
    word.len() >= 2 && word[0] == b'-' && (word[1] == b'h' || word[1] == b'V')
}

/// Whether there is help on these words.
fn are_topic(words: &[String]) -> bool
    ensures { result ≡ is_topic (map string_bytes words.now) }
{
    match words {
        [] => true,
        [word] => word.as_str() == "help" || Subcommand::named(word).is_some(),
        _ => false,
    }
}

/// Why words that are refused ask for nothing.
fn unread(alloc: Global, words: &[String], refusal: Refusal) -> Unparsed
    ensures told { Tells (is_help refusal) result }
    ensures memory { refusal ≡ OutOfMemory → result ≡ unparsed.OutOfMemory }
{
    match refusal {
        Refusal::Help => shown(alloc, words),
        Refusal::OutOfMemory => Unparsed::OutOfMemory,
        _ => wrong(alloc, words),
    }
}

/// The words are wrong.
fn wrong(alloc: Global, words: &[String]) -> Unparsed
    ensures { Tells false result }
{
    match wrong_words(alloc, words) {
        Ok(lines) => Unparsed::Wrong(lines),
        Err(AllocError) => Unparsed::OutOfMemory,
    }
}

/// The words ask for help or the version. This is what clap shows for them.
fn shown(alloc: Global, words: &[String]) -> Unparsed
    ensures { Tells true result }
{
    match help_of(alloc, words) {
        Ok(text) => Unparsed::Shown(text),
        Err(AllocError) => Unparsed::OutOfMemory,
    }
}

/// What clap shows for words that ask for help or the version. It fails only if memory runs out.
fn help_of(alloc: Global, words: &[String]) -> Result<String, AllocError> {
    match matches_of(alloc, words) {
        Ok(_matches) => Ok(String::new(alloc)),
        Err(error) if error.kind() == ErrorKind::OutOfMemory => Err(AllocError),
        Err(error) => format!(in alloc; "{error}"),
    }
}

/// Returns what clap finds in the words. Its error is of the kind `OutOfMemory` if memory runs out.
pub(crate) fn matches_of<'w>(alloc: Global, words: &'w [String]) -> Result<ArgMatches<'w>, Error> {
    command(alloc, words)?.try_get_matches_from(words)
}

/// Returns the words that the program takes, with their help and the version. `words` are those that it is given, of
/// which the first is its name. If the second is a subcommand, no other is listed, so that a start takes less time. It
/// fails only if memory runs out.
fn command<'a>(alloc: Global, words: &[String]) -> Result<Command<'a>, AllocError> {
    let asked = Subcommand::asked_in(words);
    let mut program = program(alloc);
    for subcommand in Subcommand::ALL {
        if asked.is_none_or(|asked| asked == subcommand) {
            program = program.subcommand(listed(alloc, subcommand)?)?;
        }
    }
    Ok(program)
}

/// The program without its subcommands.
fn program<'a>(alloc: Global) -> Command<'a> {
    Command::new(alloc, "confstore")
        .version(VERSION)
        .about(ABOUT)
        .after_help(GROUPS_AND_STATUSES)
        .subcommand_required(true)
}

/// What the matches of a subcommand's words ask for.
fn invocation_of<'w>(
    alloc: Global,
    subcommand: Subcommand,
    words: &Matches<'w>,
) -> Result<Invocation<'w>, Unasked>
    ensures { spec.Makes (spec.is_wrong subcommand words.now) (spec.IsAsked subcommand words.now) result }
{
    match subcommand {
        Subcommand::Init => init_invocation(words),
        Subcommand::Import => import_invocation(alloc, words),
        Subcommand::Set => set_invocation(alloc, words),
        Subcommand::Delete => delete_invocation(alloc, words),
        Subcommand::Copy => copy_invocation(alloc, words),
        Subcommand::Rename => rename_invocation(alloc, words),
        Subcommand::Move => move_invocation(alloc, words),
        Subcommand::Batch => batch_invocation(alloc, words),
        Subcommand::Checkpoint => checkpoint_invocation(words),
        Subcommand::Run => run_invocation(words),
        Subcommand::Export => export_invocation(words),
        Subcommand::Names => names_invocation(words),
        Subcommand::Get => get_invocation(alloc, words),
        Subcommand::Keys => keys_invocation(alloc, words),
        Subcommand::Exists => exists_invocation(words),
        Subcommand::Log => log_invocation(alloc, words),
        Subcommand::Diff => diff_invocation(words),
        Subcommand::Verify => verify_invocation(words),
        Subcommand::Salvage => salvage_invocation(words),
        Subcommand::Backup => backup_invocation(words),
        Subcommand::Format => format_invocation(alloc, words),
        Subcommand::Check => check_invocation(alloc, words),
    }
}
