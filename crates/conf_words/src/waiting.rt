// How long a word tries to take the locks of its store.
ghost use Rattle.std.specs.Prelude.{◌≡◌, ◌<◌, ◌≤◌, ◌^◌, IfSome, option_map};
ghost use Rattle.std.specs.Str.Parse.{without_leading_plus};
ghost use Rattle.command_line.specs.Numbers.{number_below};
ghost use Rattle.conf_words.specs.Waits as spec;

use crate::refusal::Unasked;
use crate::subcommand::Subcommand;
use command_line::{Argument, Form, Matches, Relation};
use std::time::Duration;

/// The variable of the environment that says how long a word waits for locks, where the words don't.
pub const WAIT_VARIABLE: &str = "CONFSTORE_WAIT";

/// The word that says how long is waited for locks.
const WAIT: &str = "wait";

pub(crate) const WAIT_ARGUMENT: Argument = Argument {
    name: WAIT,
    help: "Tries again for so long while another run holds the store, as 5 or 0.5",
    form: Form::Word("SECONDS"),
    relation: Relation::Free,
};

/// How long the words have locks waited for. `given` is what [`WAIT_VARIABLE`] holds, if it is there: it counts where a
/// word takes [`WAIT`], and has none. No other word waits.
pub(crate) fn wait_of(
    subcommand: Subcommand,
    words: &Matches<'_>,
    given: Option<&str>,
) -> Result<Duration, Unasked>
    ensures { spec.Waits subcommand words.now (option_map (λ s. s.now) given.entry) result }
{
    if !waits(subcommand) {
        return Ok(Duration::ZERO);
    }
    let (text, why) = match (words.text(WAIT), given) {
        (Some(text), _) => (text, "--wait needs SECONDS, as 5 or 0.5"),
        (None, Some(text)) => (text, "CONFSTORE_WAIT has to be seconds, as 5 or 0.5"),
        (None, None) => return Ok(Duration::ZERO),
    };
    match nanos_of(text) {
        Some(nanos) => Ok(Duration::from_nanos(nanos)),
        None => Err(Unasked::Because(why)),
    }
}

/// Whether the subcommand takes [`WAIT`].
fn waits(subcommand: Subcommand) -> bool
    ensures { result ≡ spec.takes_wait subcommand }
{
    match subcommand {
        Subcommand::Init
        | Subcommand::Import
        | Subcommand::Set
        | Subcommand::Delete
        | Subcommand::Copy
        | Subcommand::Rename
        | Subcommand::Move
        | Subcommand::Batch
        | Subcommand::Checkpoint
        | Subcommand::Run
        | Subcommand::Export => true,
        Subcommand::Names
        | Subcommand::Get
        | Subcommand::Keys
        | Subcommand::Exists
        | Subcommand::Log
        | Subcommand::Diff
        | Subcommand::Verify
        | Subcommand::Salvage
        | Subcommand::Backup
        | Subcommand::Format
        | Subcommand::Check => false,
    }
}

/// The nanoseconds of a text of seconds: 1 to 9 digits, and perhaps a point and 1 to 9 more. `None` of any other text.
fn nanos_of(text: &str) -> Option<u64>
    ensures { result ≡ spec.nanos_in text.now }
{
    match text.split_once('.') {
        Some((whole, part)) => sum_of(seconds_of(whole), fraction_of(part)),
        None => seconds_of(text),
    }
}

/// The sum of two numbers, if both are there.
fn sum_of(seconds: Option<u64>, fraction: Option<u64>) -> Option<u64>
    requires seconds { IfSome seconds (λ n. n < 2 ^ 62) }
    requires fraction { IfSome fraction (λ n. n < 2 ^ 62) }
    ensures { result ≡ spec.sum_of seconds fraction }
{
    match (seconds, fraction) {
        (Some(seconds), Some(fraction)) => Some(seconds + fraction),
        (Some(_), None) | (None, _) => None,
    }
}

/// The nanoseconds of as many seconds as 1 to 9 digits say.
fn seconds_of(digits: &str) -> Option<u64>
    ensures value { result ≡ spec.seconds_in digits.now }
    ensures small { IfSome result (λ nanos. nanos < 2 ^ 62) }
{
    match number_of(digits) {
        Some(number) => Some(u64::from(number) * 1_000_000_000),
        None => None,
    }
}

/// The nanoseconds that 1 to 9 digits behind the point say.
fn fraction_of(digits: &str) -> Option<u64>
    ensures value { result ≡ spec.fraction_in digits.now }
    ensures small { IfSome result (λ nanos. nanos < 2 ^ 62) }
{
    match number_of(digits) {
        Some(number) => Some(u64::from(number) * unit_of(digits.len())),
        None => None,
    }
}

/// How many nanoseconds the last of so many digits behind the point stands for.
fn unit_of(digits: usize) -> u64
    ensures value { result ≡ spec.unit_of digits }
    ensures small { result ≤ 1000000000 }
{
    match digits {
        0 => 1_000_000_000,
        1 => 100_000_000,
        2 => 10_000_000,
        3 => 1_000_000,
        4 => 100_000,
        5 => 10_000,
        6 => 1_000,
        7 => 100,
        8 => 10,
        _ => 1,
    }
}

/// The number that 1 to 9 digits are.
fn number_of(digits: &str) -> Option<u32>
    ensures { result ≡ spec.number_in digits.now }
{
    if digits.len() <= 9 && are_digits(digits) {
        parsed(digits)
    } else {
        None
    }
}

/// The number that a text is; `None` if it is none below 2 ^ 32. It has digits, and perhaps a `+` before them.
fn parsed(text: &str) -> Option<u32>
    ensures { result ≡ number_below (2 ^ 32) (without_leading_plus text.now) }
{
    match text.parse() {
        Ok(number) => Some(number),
        Err(_) => None,
    }
}

/// Whether there are only digits in a text.
fn are_digits(text: &str) -> bool
    ensures { result ≡ spec.are_digits text.now }
{
    for byte in text.as_bytes() {
        if !byte.is_ascii_digit() {
            return false;
        }
    }
    true
}
