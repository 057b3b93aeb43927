// What words ask the program for.
use conf_words::{Unparsed, parse};
use probe_words::{shown, words_of, wrong_escape};
use std::alloc::{AllocError, Global};

/// The answer to the program's name with words behind it.
pub(crate) fn answer(alloc: Global, order: &str) -> Result<String, AllocError> {
    let Some(words) = words_of(alloc, order)? else {
        return wrong_escape(alloc);
    };
    match parse(alloc, &words) {
        Ok(invocation) => shown(alloc, &invocation),
        Err(Unparsed::Shown(text)) => first_line(alloc, "shown", &text),
        Err(Unparsed::Wrong(lines)) => first_line(alloc, "wrong", &lines),
        Err(Unparsed::OutOfMemory) => Err(AllocError),
    }
}

fn first_line(alloc: Global, kind: &str, text: &str) -> Result<String, AllocError> {
    let line = text.lines().next().unwrap_or_default();
    format!(in alloc; "{kind}: {line}")
}
