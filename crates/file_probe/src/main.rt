//! Runs what replaces a file, and what makes one, over a system in memory, lets each call fail, kills the process at
//! each call and crashes the machine at each moment, and says whether the file was ever anything else than it may be.
//!
//! Each line of standard input is a case, with a space between its words: `replace OLD NEW` puts a file of the bytes
//! `NEW` in the place of one of the bytes `OLD`, `create NEW` makes one where nothing is, and `create NEW OLD` tries to
//! where there is one. A line that begins with `#` is printed as it is.
//!
//! The answer is how many calls change something where none fails, by who makes the new file, and `all as it may be`,
//! or the first that was wrong. A file that is replaced has to be the old one or the new one, whole, at each moment and
//! after each crash, and the new one once the call returned `Ok`. A new file has to be missing, or a first part, or
//! after a crash a part of which bytes may be zero, and whole once the call returned `Ok`. Nobody may use the new file
//! who might not use the old one. Nothing is left beside it, unless the call failed that made it or was to remove it.
#![tactic(auto)]

mod attacks;
mod case;

use attacks::attack;
use case::Case;
use probe_words::{Answers, answer_lines, no_order};
use std::alloc::Global;
use std::io;
use std::process::ExitCode;

/// What answers cases.
#[derive(Drop)]
struct Cases;

impl Answers for Cases {
    fn answer(&mut self, alloc: Global, order: &str) -> io::Result<String> {
        let (word, rest) = order.split_once(' ').unwrap_or((order, ""));
        let (first, second) = match rest.split_once(' ') {
            Some((first, second)) => (first, Some(second)),
            None => (rest, None),
        };
        let answer = match (word, second) {
            ("replace", Some(new)) => attack(
                alloc,
                Case::replace(first.as_bytes(), new.as_bytes()),
            ),
            ("create", None) => attack(alloc, Case::create(None, first.as_bytes())),
            ("create", Some(old)) => attack(
                alloc,
                Case::create(Some(old.as_bytes()), first.as_bytes()),
            ),
            _ => no_order(alloc),
        };
        Ok(answer?)
    }
}

fn main(rt: HostRuntime) -> ExitCode {
    answer_lines(&rt, &mut Cases)
}
