// One run of the program in a world.
use crate::world::MemoryWorld;
use conf_tools::{Status, TailReader, Told, perform, show_unparsed};
use conf_words::{Invocation, parse};
use std::alloc::{AllocError, Global};

/// What a run of the program left: its status, what it wrote, and what it said on standard error.
#[derive(Drop)]
pub(crate) struct Ran {
    pub(crate) status: Status,
    pub(crate) output: Vec<u8>,
    pub(crate) errors: Vec<u8>,
}

impl Ran {
    /// The line of what a run left.
    pub(crate) fn line(&self, alloc: Global) -> Result<String, AllocError> {
        let code = self.status.code();
        let (output, errors) = (text_of(&self.output), text_of(&self.errors));
        if errors.is_empty() {
            format!(in alloc; "{code} {output:?}")
        } else {
            format!(in alloc; "{code} {output:?} {errors:?}")
        }
    }

    /// What the run wrote, or nothing if that is no text.
    pub(crate) fn output(&self) -> &str {
        text_of(&self.output)
    }

    /// What the run said on standard error, or nothing if that is no text.
    pub(crate) fn errors(&self) -> &str {
        text_of(&self.errors)
    }
}

/// The text that bytes are, or the empty one.
fn text_of(bytes: &[u8]) -> &str {
    str::from_utf8(bytes).unwrap_or("")
}

/// Runs the program with these words and this standard input.
pub(crate) fn run(world: &mut MemoryWorld, alloc: Global, words: &[String], input: &str) -> Ran {
    match parse(alloc, words) {
        Ok(invocation) => ask(world, alloc, invocation, input),
        Err(unparsed) => {
            let mut output = Vec::new(alloc);
            let mut errors = Told::new(Vec::new(alloc));
            let status = show_unparsed(&unparsed, &mut output, &mut errors);
            Ran {
                status,
                output,
                errors: errors.into_writer(),
            }
        }
    }
}

/// Does what an invocation asks for, with this standard input.
pub(crate) fn ask(
    world: &mut MemoryWorld,
    alloc: Global,
    invocation: Invocation<'_>,
    input: &str,
) -> Ran {
    let mut output = Vec::new(alloc);
    let mut errors = Told::new(Vec::new(alloc));
    let mut reader = TailReader::new(input.as_bytes());
    let status = perform(
        world,
        alloc,
        invocation,
        &mut reader,
        &mut output,
        &mut errors,
    );
    Ran {
        status,
        output,
        errors: errors.into_writer(),
    }
}
