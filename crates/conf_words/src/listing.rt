// What the program lists of a subcommand, and the same as clap takes it.
ghost use Rattle.std.specs.Prelude.{◌≡◌, map};
ghost use Rattle.command_line.specs.Rows.{row_of};
ghost use Rattle.conf_words.specs.Subcommands.{rows_of};

use crate::change_words::{BATCH, CHECKPOINT, COPY, DELETE, IMPORT, INIT, MOVE, RENAME, RUN, SET};
use crate::read_words::{BACKUP, DIFF, EXISTS, EXPORT, GET, KEYS, LOG, NAMES, SALVAGE, VERIFY};
use crate::subcommand::Subcommand;
use crate::text_words::{CHECK, FORMAT};
use clap::builder::ValueParser;
use clap::{Arg, ArgAction, Command};
use command_line::{Argument, Form, Relation};
use std::alloc::{AllocError, Global};

/// What the program lists of a subcommand.
#[derive(Clone, Copy)]
pub(crate) struct Listing {
    /// What the program's help says of it, in a line.
    pub(crate) about: &'static str,
    /// Its arguments, in the order of its help.
    pub(crate) arguments: &'static [Argument],
    /// What its help says behind its arguments.
    pub(crate) help: &'static str,
}

/// A subcommand as clap takes it. It fails only if memory runs out.
pub(crate) fn listed<'a>(alloc: Global, subcommand: Subcommand) -> Result<Command<'a>, AllocError> {
    let (name, listing): (&'a str, Listing) = (subcommand.name(), listing_of(subcommand));
    let mut command = Command::new(alloc, name)
        .about(listing.about)
        .after_help(listing.help);
    for argument in listing.arguments {
        command = command.arg(arg_of(alloc, argument, listing.arguments)?)?;
    }
    Ok(command)
}

/// The arguments of a subcommand.
pub(crate) fn arguments_of(subcommand: Subcommand) -> &'static [Argument]
    ensures { map row_of result.now ≡ rows_of subcommand }
{
    listing_of(subcommand).arguments
}

/// What the program lists of this subcommand.
fn listing_of(subcommand: Subcommand) -> Listing
    ensures { map row_of result.arguments.now ≡ rows_of subcommand }
{
    match subcommand {
        Subcommand::Init => INIT,
        Subcommand::Import => IMPORT,
        Subcommand::Set => SET,
        Subcommand::Delete => DELETE,
        Subcommand::Copy => COPY,
        Subcommand::Rename => RENAME,
        Subcommand::Move => MOVE,
        Subcommand::Batch => BATCH,
        Subcommand::Checkpoint => CHECKPOINT,
        Subcommand::Run => RUN,
        Subcommand::Export => EXPORT,
        Subcommand::Names => NAMES,
        Subcommand::Get => GET,
        Subcommand::Keys => KEYS,
        Subcommand::Exists => EXISTS,
        Subcommand::Log => LOG,
        Subcommand::Diff => DIFF,
        Subcommand::Verify => VERIFY,
        Subcommand::Salvage => SALVAGE,
        Subcommand::Backup => BACKUP,
        Subcommand::Format => FORMAT,
        Subcommand::Check => CHECK,
    }
}

/// An argument of these as clap takes it. It fails only if memory runs out.
fn arg_of<'a>(
    alloc: Global,
    argument: &Argument,
    arguments: &[Argument],
) -> Result<Arg<'a>, AllocError> {
    let arg = given_by(alloc, argument.name, argument.form).help(argument.help);
    match argument.relation {
        Relation::Free => Ok(arg),
        Relation::Needs(other) => {
            arg.requires_arg(other)?
                .conflicts_with_all(excluded_by(arguments, other))
        }
        Relation::Excludes(others) => arg.conflicts_with_all(others),
        Relation::Replaces(other) => arg.required_unless_present(other)?.conflicts_with(other),
    }
}

/// What the argument of this name excludes. One that needs it excludes the same: clap wouldn't want what is excluded.
fn excluded_by(arguments: &[Argument], name: &str) -> &'static [&'static str] {
    for argument in arguments {
        if let Relation::Excludes(others) = argument.relation {
            if argument.name == name {
                return others;
            }
        }
    }
    &[]
}

/// An argument of this name, which is given so.
fn given_by<'a>(alloc: Global, name: &'a str, form: Form) -> Arg<'a> {
    match form {
        Form::Required => Arg::new(alloc, name).required(true),
        Form::Optional => Arg::new(alloc, name),
        Form::OptionalText => Arg::new(alloc, name).allow_negative_numbers(true),
        Form::Several => Arg::new(alloc, name).num_args(1..),
        Form::Flag => flag(alloc, name),
        Form::ShortFlag(letter) => flag(alloc, name).short(letter),
        Form::Word(value) => with_value(alloc, name, value),
        Form::Words(value) => with_value(alloc, name, value).action(ArgAction::Append),
        Form::Text(value) => with_value(alloc, name, value).allow_negative_numbers(true),
        Form::Number(value, least) => with_number(alloc, name, value, least),
    }
}

/// An argument that is `--` and its name.
fn flag<'a>(alloc: Global, name: &'a str) -> Arg<'a> {
    Arg::new(alloc, name).long(name).action(ArgAction::SetTrue)
}

/// An argument that is `--`, its name and a value, which help calls so.
fn with_value<'a>(alloc: Global, name: &'a str, value: &'a str) -> Arg<'a> {
    Arg::new(alloc, name).long(name).value_name(value)
}

/// An argument that is `--`, its name and a number that is at least so big.
fn with_number<'a>(alloc: Global, name: &'a str, value: &'a str, least: u64) -> Arg<'a> {
    with_value(alloc, name, value).value_parser(ValueParser::Unsigned(least, u64::MAX))
}
