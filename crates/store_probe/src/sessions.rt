// Sessions on the open store.
use crate::calls::FusedStore;
use conf_session::{Checkpoints, SessionFault, Tally, run, run_grouped};
use probe_words::{Sink, Source, meant};
use std::alloc::{AllocError, Global};
use std::io::ErrorKind;

/// A session: how it ends, how many bytes of its input are not read, and its output.
fn session(
    alloc: Global,
    store: &mut FusedStore,
    mut source: Source<'_>,
    mut sink: Sink,
) -> Result<String, AllocError> {
    let ended = run(alloc, store, &mut source, &mut sink);
    told(alloc, ended, source.rest.len(), &sink.kept)
}

/// How a session ended, how many bytes of its input were not read, and its output.
fn told(
    alloc: Global,
    ended: Result<Tally, SessionFault>,
    unread: usize,
    output: &[u8],
) -> Result<String, AllocError> {
    match str::from_utf8(output) {
        Ok(text) => format!(in alloc; "{ended:?} {unread} unread {text:?}"),
        Err(_) => format!(in alloc; "{ended:?} {unread} unread, no text"),
    }
}

/// A session in groups. Its whole input is read at once, and is one group.
pub(crate) fn grouped(
    alloc: Global,
    store: &mut FusedStore,
    input: &str,
) -> Result<String, AllocError> {
    let input = meant(alloc, input)?;
    let mut source = Source {
        rest: input.as_bytes(),
        step: usize::MAX,
        fault: None,
    };
    let mut sink = Sink::new(alloc, usize::MAX);
    let ended = run_grouped(alloc, store, &mut source, &mut sink, Checkpoints::Asked);
    told(alloc, ended, source.rest.len(), &sink.kept)
}

/// A session that reads at most so many bytes at a time.
pub(crate) fn parts(
    alloc: Global,
    store: &mut FusedStore,
    step: usize,
    input: &str,
) -> Result<String, AllocError> {
    let input = meant(alloc, input)?;
    let source = Source {
        rest: input.as_bytes(),
        step,
        fault: None,
    };
    session(alloc, store, source, Sink::new(alloc, usize::MAX))
}

/// A session that reads at most 100 bytes at a time. After its input a read fails.
pub(crate) fn failing(
    alloc: Global,
    store: &mut FusedStore,
    kind: ErrorKind,
    input: &str,
) -> Result<String, AllocError> {
    let input = meant(alloc, input)?;
    let source = Source {
        rest: input.as_bytes(),
        step: 100,
        fault: Some(kind),
    };
    session(alloc, store, source, Sink::new(alloc, usize::MAX))
}

/// A session whose output takes so many bytes.
pub(crate) fn roomy(
    alloc: Global,
    store: &mut FusedStore,
    room: usize,
    input: &str,
) -> Result<String, AllocError> {
    let input = meant(alloc, input)?;
    let source = Source {
        rest: input.as_bytes(),
        step: usize::MAX,
        fault: None,
    };
    session(alloc, store, source, Sink::new(alloc, room))
}

/// A session whose input is so many times a text, and whose output takes nothing.
pub(crate) fn copies(
    alloc: Global,
    store: &mut FusedStore,
    count: u64,
    text: &str,
) -> Result<String, AllocError> {
    let text = meant(alloc, text)?;
    let input = repeated(alloc, text.as_bytes(), count)?;
    let source = Source {
        rest: &input,
        step: usize::MAX,
        fault: None,
    };
    session(alloc, store, source, Sink::new(alloc, 0))
}

/// So many copies of bytes, one after the other.
fn repeated(alloc: Global, bytes: &[u8], count: u64) -> Result<Vec<u8>, AllocError> {
    let mut copies = Vec::new(alloc);
    for _ in 0..count {
        copies.extend_from_slice(bytes)?;
    }
    Ok(copies)
}
