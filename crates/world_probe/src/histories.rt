// The states that the last run of a list leads through, and how many it has acknowledged.
use crate::list::{Asked, List};
use crate::runs::{Ran, ask, run};
use crate::states::told;
use conf_tools::Status;
use conf_words::{Invocation, Subcommand};
use std::alloc::{AllocError, Global};
use std::fmt::Write;

/// The line that closes a command of a session and its answer.
const CLOSING: &str = "...\n";

/// The word for a session in groups.
const GROUPED: &str = "--group";

/// The states of a folder that the last run of a list leads through, and for each of them how many images had it.
#[derive(Drop)]
pub(crate) struct History {
    /// The folder's path.
    pub(crate) path: String,
    /// The first one is that before the run.
    pub(crate) states: Vec<Met>,
}

/// A state, and how many images had it.
#[derive(Drop)]
pub(crate) struct Met {
    pub(crate) state: String,
    pub(crate) images: u64,
}

impl History {
    /// The history of a folder in the last run of a list.
    pub(crate) fn new(alloc: Global, list: &List, path: &str) -> Result<History, AllocError> {
        let mut history = History {
            path: String::from_str(alloc, path)?,
            states: Vec::new(alloc),
        };
        let mut world = list.world_before(alloc, usize::MAX)?;
        history.push(told(alloc, &mut world, path)?)?;
        if let Some(last) = &list.last {
            history.push_run(alloc, list, last)?;
        }
        Ok(history)
    }

    /// Adds a state.
    fn push(&mut self, state: String) -> Result<(), AllocError> {
        self.states.push(Met { state, images: 0 })?;
        Ok(())
    }

    /// Adds the states after each part of a run. A session goes on from what it opened by one command after the other,
    /// and so does an import, which may make the store first. Each other run does one thing.
    fn push_run(&mut self, alloc: Global, list: &List, last: &Asked) -> Result<(), AllocError> {
        match Kind::of(last, &self.path) {
            Kind::Session => {
                self.push_opened(alloc, list)?;
                self.push_commands(alloc, list, last)
            }
            Kind::Import => {
                self.push_opened(alloc, list)?;
                self.push_after(alloc, list, last, &last.input)
            }
            Kind::Other => self.push_after(alloc, list, last, &last.input),
        }
    }

    /// Adds the state once the store is opened, or made if there is none.
    fn push_opened(&mut self, alloc: Global, list: &List) -> Result<(), AllocError> {
        let mut world = list.world_before(alloc, usize::MAX)?;
        let making = Invocation::Init { folder: &self.path };
        let _ = ask(&mut world, alloc, making, "");
        let state = told(alloc, &mut world, &self.path)?;
        self.push(state)
    }

    /// Adds the states after each command of a session.
    fn push_commands(
        &mut self,
        alloc: Global,
        list: &List,
        last: &Asked,
    ) -> Result<(), AllocError> {
        let mut input = String::new(alloc);
        for line in last.input.split_inclusive('\n') {
            input.push_str(line)?;
            if line == CLOSING {
                self.push_after(alloc, list, last, &input)?;
            }
        }
        Ok(())
    }

    /// Adds the state after a run with this input.
    fn push_after(
        &mut self,
        alloc: Global,
        list: &List,
        last: &Asked,
        input: &str,
    ) -> Result<(), AllocError> {
        let mut world = list.world_before(alloc, usize::MAX)?;
        let _ = run(&mut world, alloc, &last.words, input);
        let state = told(alloc, &mut world, &self.path)?;
        self.push(state)
    }

    /// Notes that an image had a state. Returns whether that is one of those that it may have.
    pub(crate) fn note(&mut self, span: Span, state: &str) -> bool {
        if let Some(met) = self
            .states
            .iter_mut()
            .find(|met| met.state.as_str() == state)
        {
            met.images = met.images.saturating_add(1);
        }
        self.states.iter().enumerate().any(|(at, met)| span.contains(at)
            && met.state.as_str() == state)
    }

    /// Which of the states an image may have if the last run of a list left this when it was cut off: those from the
    /// one after the last acknowledged command on, to the one after the last command that it can have begun.
    pub(crate) fn span(&self, last: &Asked, ran: &Ran) -> Span {
        let end = self.states.len().saturating_sub(1);
        if ran.status == Status::Done {
            return Span {
                least: end,
                most: end,
            };
        }
        match Kind::of(last, &self.path) {
            Kind::Session => session_span(last, answers_in(ran.output()), end),
            Kind::Import | Kind::Other => Span {
                least: 0,
                most: end,
            },
        }
    }

    /// The states that images had, in order, as `store: 3 [no store], 1 [0]`.
    pub(crate) fn line(&self, alloc: Global) -> Result<String, AllocError> {
        let mut line = String::from_str(alloc, &self.path)?;
        let mut sign = ":";
        for met in &self.states {
            if met.images > 0 {
                push_met(&mut line, sign, met)?;
                sign = ",";
            }
        }
        Ok(line)
    }
}

/// Appends how many images had a state.
fn push_met(line: &mut String, sign: &str, met: &Met) -> Result<(), AllocError> {
    let Met { state, images } = met;
    write!(line, "{sign} {images} [{state}]")
}

/// What a run does to a folder.
#[derive(Clone, Copy, PartialEq, Eq)]
enum Kind {
    /// It performs the commands of its input.
    Session,
    /// It imports a text, and may make the store first.
    Import,
    /// It does one thing, or has nothing to do with the folder.
    Other,
}

impl Kind {
    /// What a run does to the folder at a path.
    fn of(asked: &Asked, path: &str) -> Kind {
        if !asked.words.iter().any(|word| word.as_str() == path) {
            return Kind::Other;
        }
        match Subcommand::asked_in(&asked.words) {
            Some(Subcommand::Run) => Kind::Session,
            Some(Subcommand::Import) => Kind::Import,
            _ => Kind::Other,
        }
    }
}

/// States of a history, by their places.
#[derive(Clone, Copy)]
pub(crate) struct Span {
    least: usize,
    most: usize,
}

impl Span {
    /// Whether the state at a place is one of them.
    fn contains(self, at: usize) -> bool {
        self.least <= at && at <= self.most
    }
}

/// Which states an image may have after so many answers of a session. The first state is that before it, and the second
/// that of the opened store.
fn session_span(asked: &Asked, answers: usize, end: usize) -> Span {
    let least = if answers == 0 {
        0
    } else {
        answers.saturating_add(1)
    };
    let most = if asked.words.iter().any(|word| word.as_str() == GROUPED) {
        end
    } else {
        answers.saturating_add(2)
    };
    Span { least, most }
}

/// How many answers a session wrote.
fn answers_in(output: &str) -> usize {
    output
        .split_inclusive('\n')
        .filter(|line| *line == CLOSING)
        .count()
}
