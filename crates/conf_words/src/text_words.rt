// The words of the program that read texts.
ghost use Rattle.std.specs.Prelude.{◌≡◌, is_some, map};
ghost use Rattle.conf_words.specs.Invocations as spec;

use crate::arguments::{EXPLAIN_ARGUMENT, FILE, reporting_of};
use crate::invocation::{Comments, Formatting, Invocation, STANDARD_INPUT, Style};
use crate::listing::Listing;
use crate::refusal::{OTHER, Unasked};
use command_line::{Argument, Form, Matches, Relation};
use std::alloc::{AllocError, Global};

const FILES_ARGUMENT: Argument = Argument {
    name: FILE,
    help: "The files of the texts; standard input if none is given, or for `-`",
    form: Form::Several,
    relation: Relation::Free,
};

pub(crate) const FORMAT: Listing = Listing {
    about: "Writes the tree of a YAML text in the one style",
    arguments: &[
        Argument {
            name: IN_PLACE,
            help: "Replaces each FILE that would change by its text in the one style",
            form: Form::ShortFlag('i'),
            relation: Relation::Needs(FILE),
        },
        Argument {
            name: DROP_COMMENTS,
            help: "Replaces a FILE with comments too, which are lost",
            form: Form::Flag,
            relation: Relation::Needs(IN_PLACE),
        },
        Argument {
            name: KEEP_COMMENTS,
            help: "Keeps the comments of each text",
            form: Form::Flag,
            relation: Relation::Excludes(&[DROP_COMMENTS]),
        },
        Argument {
            name: ONLY_CHECK,
            help: "Changes nothing, and names each FILE that would change",
            form: Form::Flag,
            relation: Relation::Excludes(&[IN_PLACE, DROP_COMMENTS]),
        },
        EXPLAIN_ARGUMENT,
        FILES_ARGUMENT,
    ],
    help: "\
One FILE, or standard input, is written to standard output. More FILEs need -i or --check. Each FILE
is tried, and the status is the worst. Quotes are not kept, and `3` is written `\"3\"`.

Comments are left out, and a line on standard error says how many of a FILE are. With --keep-comments
they stay: behind the same value, or on a line of their own before the same key or element.

With -i a FILE that is right already is not touched. Another is replaced whole: where the power fails,
it is the old one or the new one. It keeps its mode, and its owner where the system allows it. A FILE
with comments is refused, as `web.yaml:3:13: Comments`, unless --keep-comments or --drop-comments is
given.

A FILE that is refused is left as it is, and reported on standard error, as
`web.yaml:501:1: KeyTwice \"key250\" (first at 17:1)`. With --explain, or where standard error is a
terminal, the line of the text follows, with a mark under the place, and what to do. Name standard
input `-` to have it reported so.

With --check the status is 1 where a FILE would change.

Examples:
  confstore format < web.yaml
  confstore format -i --keep-comments *.yaml
  confstore format --check *.yaml",
};

/// The word of `format` that has each file replaced.
const IN_PLACE: &str = "in-place";

/// The word of `format` that has files replaced that have comments. It needs [`IN_PLACE`].
const DROP_COMMENTS: &str = "drop-comments";

/// The word of `format` and `check` by which comments stay. It excludes [`DROP_COMMENTS`].
const KEEP_COMMENTS: &str = "keep-comments";

/// The word of `format` that has the files named that would change.
const ONLY_CHECK: &str = "check";

pub(crate) fn format_invocation<'w>(
    alloc: Global,
    words: &Matches<'w>,
) -> Result<Invocation<'w>, Unasked>
    ensures { spec.Makes (spec.format_is_wrong words.now) (spec.IsFormat words.now) result }
{
    let files = match words.texts(alloc, FILE) {
        Ok(files) => files,
        Err(AllocError) => return Err(Unasked::OutOfMemory),
    };
    let formatting = formatting_of(words);
    if let Some(why) = why_not(formatting, files.as_slice()) {
        return Err(Unasked::Because(why));
    }
    Ok(Invocation::Format {
        formatting,
        files,
        reporting: reporting_of(words),
    })
}

/// Why files may not be formatted so; `None` if they may. clap has refused to replace no file.
fn why_not(formatting: Formatting, files: &[&str]) -> Option<&'static str>
    ensures { is_some result ≡ spec.files_are_wrong formatting (map (λ file. file.now) files.now) }
{
    match formatting {
        Formatting::Write { .. } => {
            (files.len() > 1).then_some("more than one FILE needs -i or --check")
        }
        Formatting::InPlace { .. } if files.is_empty() => Some(OTHER),
        Formatting::InPlace { .. } => {
            files
                .contains(&STANDARD_INPUT)
                .then_some("standard input can't be replaced")
        }
        Formatting::Check { .. } => None,
    }
}

fn formatting_of(words: &Matches<'_>) -> Formatting
    ensures { result ≡ spec.formatting_in words.now }
{
    if words.flag(IN_PLACE) {
        Formatting::InPlace {
            comments: comments_of(words),
        }
    } else if words.flag(ONLY_CHECK) {
        Formatting::Check {
            style: style_of(words),
        }
    } else {
        Formatting::Write {
            style: style_of(words),
        }
    }
}

fn comments_of(words: &Matches<'_>) -> Comments
    ensures { result ≡ spec.comments_in words.now }
{
    if words.flag(KEEP_COMMENTS) {
        Comments::Kept
    } else if words.flag(DROP_COMMENTS) {
        Comments::Dropped
    } else {
        Comments::Refused
    }
}

/// What texts are formatted to, and compared with.
fn style_of(words: &Matches<'_>) -> Style
    ensures { result ≡ spec.style_in words.now }
{
    if words.flag(KEEP_COMMENTS) {
        Style::WithComments
    } else {
        Style::Bare
    }
}

pub(crate) const CHECK: Listing = Listing {
    about: "Writes where YAML texts depart from the one style",
    arguments: &[
        Argument {
            name: KEEP_COMMENTS,
            help: "Has nothing against comments that stand as `format --keep-comments` writes them",
            form: Form::Flag,
            relation: Relation::Free,
        },
        EXPLAIN_ARGUMENT,
        FILES_ARGUMENT,
    ],
    help: "\
Each finding is one line: of a FILE as `web.yaml:3: S1 the line ends in a space or TAB`, and of
standard input without a FILE as `S1 3`, the rule and the number of the line, from 1.
  S1  the line ends in a space or TAB
  S2  the line ends in CR LF or CR, or it is the last line and has no break
  S3  the line has more than 120 characters
  S4  the text is not what `confstore format` writes for it, and first differs from that on this line
The one style keeps no comments and no quotes, and `3` is written `\"3\"` in it. With --keep-comments
S4 compares the text with what `confstore format --keep-comments` writes.

A FILE that is refused is reported on standard error, as
`web.yaml:501:1: KeyTwice \"key250\" (first at 17:1)`. With --explain, or where standard error is a
terminal, the line of the text follows, with a mark under the place, and what to do. Name standard
input `-` to have it reported so. Each FILE is tried. The status is 0 where nothing is found. It is 1
where something is, or a text is refused, and 3 where a FILE can't be read.

Examples:
  confstore check *.yaml
  confstore check < file",
};

pub(crate) fn check_invocation<'w>(
    alloc: Global,
    words: &Matches<'w>,
) -> Result<Invocation<'w>, Unasked>
    ensures { spec.Makes (spec.check_is_wrong words.now) (spec.IsCheck words.now) result }
{
    let files = match words.texts(alloc, FILE) {
        Ok(files) => files,
        Err(AllocError) => return Err(Unasked::OutOfMemory),
    };
    Ok(Invocation::Check {
        style: style_of(words),
        files,
        reporting: reporting_of(words),
    })
}
