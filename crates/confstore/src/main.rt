//! confstore: a crash-safe store of named configuration trees, and tools for their texts. What it does is in
//! [`conf_tools`].
//!
//! A standard stream that is closed at the start is a stream whose reads or writes fail. Else the first file that is
//! opened would have its number: the answers, or the commands, would be those of a store's own file.
//!
//! Where whoever reads standard output closes its pipe, as `head` does, nothing on standard error says so. A session
//! reports it: its answers were wanted.
#![tactic(auto)]

mod pipe;

use crate::pipe::{Errors, Output};
use conf_tools::{Host, ReadFailure, TailReader, Told, ToolFault, refuse_words, run_program};
use conf_words::{Asked, Reporting, Subcommand, Unparsed, WAIT_VARIABLE, parse_with_wait};
use std::cell::Cell;
use std::env::VarError;
use std::fs::{File, OpenOptions};
use std::io::{IsTerminal, Write};
use std::os::fd::AsFd;
use std::process::ExitCode;
use std::time::Duration;
use std::{env, io};

/// The status where a closed stream can't be held.
const DEVICE: u8 = 3;

/// The system's number for the error of a descriptor that is not open.
const NOT_OPEN: i32 = 9;

/// What stands for a value of the environment that is no text.
const NO_TIME: &str = "?";

/// What has the numbers of the standard streams that are closed, as long as it lives.
#[derive(Drop)]
struct Held {
    _input: Option<File>,
    _output: Option<File>,
    _errors: Option<File>,
}

impl Held {
    /// Opens /dev/null for each stream that is closed, and the wrong way round: input for writing and output for
    /// reading, so that a read or a write fails. Each takes the lowest number that is free, which is the stream's own
    /// since those below it are open by then.
    ///
    /// # Errors
    /// The fault of the stream for which /dev/null can't be opened.
    fn new(rt: &HostRuntime) -> Result<Held, ToolFault> {
        let (input, output, errors) = (rt.stdin(), rt.stdout(), rt.stderr());
        let mut to_write = OpenOptions::new();
        to_write.write(true);
        let mut to_read = OpenOptions::new();
        to_read.read(true);
        Ok(Held {
            _input: hold(rt, &input, &to_write, ToolFault::Input)?,
            _output: hold(rt, &output, &to_read, ToolFault::Output)?,
            _errors: hold(rt, &errors, &to_read, ToolFault::Output)?,
        })
    }
}

/// Opens /dev/null if a stream is closed.
fn hold<S: AsFd>(
    rt: &HostRuntime,
    stream: &S,
    how: &OpenOptions,
    fault: ToolFault,
) -> Result<Option<File>, ToolFault> {
    if !is_closed(stream) {
        return Ok(None);
    }
    match how.open(rt, "/dev/null") {
        Ok(file) => Ok(Some(file)),
        Err(_) => Err(fault),
    }
}

fn is_closed<S: AsFd>(stream: &S) -> bool {
    match stream.as_fd().try_clone_to_owned() {
        Ok(_) => false,
        Err(error) => error.raw_os_error() == Some(NOT_OPEN),
    }
}

/// What the words ask for, and how long they have locks waited for, with the environment.
fn asked_of<'w>(rt: &HostRuntime, words: &'w [String]) -> Result<Asked<'w>, Unparsed> {
    let alloc = rt.alloc();
    match env::var(rt, WAIT_VARIABLE) {
        Ok(wait) => parse_with_wait(alloc, words, Some(&wait)),
        Err(VarError::NotPresent) => parse_with_wait(alloc, words, None),
        Err(VarError::NotUnicode) => parse_with_wait(alloc, words, Some(NO_TIME)),
        Err(VarError::OutOfMemory) => Err(Unparsed::OutOfMemory),
    }
}

fn main(rt: HostRuntime) -> ExitCode {
    let alloc = rt.alloc();
    let stderr = rt.stderr();
    let mut errors = io::writer(&stderr);
    let _held = match Held::new(&rt) {
        Ok(held) => held,
        Err(fault) => {
            let _ = writeln!(errors, "confstore: {fault}");
            return ExitCode::from(DEVICE);
        }
    };
    let words = match env::args(&rt).and_then(|words| Ok(words.collect::<Vec<String>>(alloc)?)) {
        Ok(words) => words,
        Err(error) => {
            let status = refuse_words(&mut Told::new(errors), &error);
            return ExitCode::from(status.code());
        }
    };
    let mut reader = TailReader::new(rt.reader());
    let (is_closed, is_never) = (Cell::new(false), Cell::new(false));
    let mut writer = Output::new(io::writer(&rt), &is_closed);
    let is_silent = match Subcommand::asked_in(&words) {
        Some(Subcommand::Run) => &is_never,
        _ => &is_closed,
    };
    let mut errors = Told::new(Errors::new(alloc, errors, is_silent));
    let reporting = if stderr.is_terminal() {
        Reporting::Explained
    } else {
        Reporting::Brief
    };
    let read_failure = ReadFailure::new(None);
    let (asked, wait) = match asked_of(&rt, &words) {
        Ok(Asked { invocation, wait }) => (Ok(invocation), wait),
        Err(unparsed) => (Err(unparsed), Duration::ZERO),
    };
    let mut host = Host::new(&rt, reporting, wait, &read_failure);
    let exit = run_program(
        &mut host,
        alloc,
        asked,
        &mut reader,
        &mut writer,
        &mut errors,
    );
    let _ = errors.flush();
    exit
}
