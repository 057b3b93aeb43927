//! Shows how a program uses the libraries. It reads a YAML text, sets one value by a JSON pointer (RFC 6901), and
//! prints the result in the one style.
//!
//! Its arguments are the pointer and the new value; the text comes on standard input. The exit status is 0, or 1 if
//! something was refused or failed, or 2 for wrong arguments.
#![tactic(auto)]

mod edit;

use edit::edited;
use std::io::Read;
use std::process::ExitCode;
use std::{env, io};
use yaml_tree::Limits;

fn main(rt: HostRuntime) -> ExitCode {
    let alloc = rt.alloc();
    let Ok(words) = env::args(&rt).and_then(|words| Ok(words.collect::<Vec<String>>(alloc)?)) else {
        return ExitCode::from(1);
    };
    let [_, pointer, value] = words.as_slice() else {
        return ExitCode::from(2);
    };
    match run(&rt, pointer, value) {
        Ok(status) => status,
        Err(_) => ExitCode::from(1),
    }
}

/// Reads standard input, edits it, and prints the result or why there is none.
fn run(rt: &HostRuntime, pointer: &str, value: &str) -> io::Result<ExitCode> {
    let alloc = rt.alloc();
    let mut bytes = Vec::new(alloc);
    rt.reader()
        .take(Limits::CONFIGURATION.bytes + 1)
        .read_to_end(&mut bytes)?;
    match edited(alloc, &bytes, pointer, value) {
        Ok(text) => {
            print!(rt; "{text}")?;
            Ok(ExitCode::from(0))
        }
        Err(fault) => {
            eprintln!(rt; "{fault}")?;
            Ok(ExitCode::from(1))
        }
    }
}
