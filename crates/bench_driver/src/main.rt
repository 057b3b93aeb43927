//! Works on texts and trees, for the scripts of `bench/`, which measure its speed, and for
//! `checks/refuse_allocations.py`, which refuses it memory. Its words are orders, performed one after another,
//! with `then` between them:
//!
//! - `read events FILE ROUNDS` and `read tree FILE ROUNDS` read a file that many times in one process, to its events
//!   or to its tree. They print how many events there are, or how many bytes the tree has in the one style, or why
//!   the text is refused.
//! - `edits TARGET SHAPE SIZE ROUNDS` makes edits at the end of a path: it builds a tree, edits it as often as is
//!   asked, and prints the tree's length. The words are what is edited (`tree`, or `state`: a configuration of a
//!   store, by commands), the tree's shape (`wide`, one mapping, or `deep`, mappings in mappings), its size (pairs,
//!   or how deep it is) and how often a pair is set at the end and deleted again.
//!
//! It ends with 0, with 1 where something failed or was refused, and with 2 at an order of wrong words.
#![tactic(auto)]

mod edits;
mod failed;
mod read;

use failed::Failed;
use std::env;
use std::process::ExitCode;

fn main(rt: HostRuntime) -> ExitCode {
    let alloc = rt.alloc();
    let Ok(words) = env::args(&rt).and_then(|words| Ok(words.collect::<Vec<String>>(alloc)?)) else {
        return ExitCode::from(1);
    };
    let [_, words @ ..] = words.as_slice() else {
        return ExitCode::from(2);
    };
    match perform_all(&rt, words) {
        Ok(()) => ExitCode::from(0),
        Err(Failed::Words) => ExitCode::from(2),
        Err(Failed::Run) => ExitCode::from(1),
    }
}

/// Performs the orders.
fn perform_all(rt: &HostRuntime, words: &[String]) -> Result<(), Failed> {
    for words in words.split(|word| word.as_str() == "then") {
        perform(rt, words)?;
    }
    Ok(())
}

/// Performs an order.
fn perform(rt: &HostRuntime, words: &[String]) -> Result<(), Failed> {
    let [part, words @ ..] = words else {
        return Err(Failed::Words);
    };
    match part.as_str() {
        "read" => read::perform(rt, words),
        "edits" => edits::perform(rt, words),
        _ => Err(Failed::Words),
    }
}
