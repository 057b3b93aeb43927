// A session is cut off when it hands out answers. Every image that a crash leaves then is opened.
//
// The sink gets the bytes and takes none of them, so the session ends at that moment, and its disk is left as it was.
use crate::calls::FusedStore;
use crate::choices::Cutting;
use crate::images::{Found, Openings, open_images};
use crate::subjects::{ALONE, Expected, Subject, WORKED, opened};
use crate::worked::{COMMANDS, COUNTS};
use crate::wrong::Wrong;
use conf_disk::Disk;
use conf_session::{AnswerSink, Checkpoints, SessionFault, Tally, run, run_grouped};
use conf_state::StoreFault;
use conf_store::Store;
use probe_words::{Source, no_order};
use std::alloc::{AllocError, Global};
use test_disks::MemoryDisk;

/// Two questions: 31 bytes. On the store of three commands that wait, their answers have 18 and 26 bytes.
const QUESTIONS: &[u8] = b"names:\n...\nget: a\npath: \"\"\n...\n";

/// The most bytes of the worked session that are read at a time in groups: the first two commands.
const STEP: usize = 70;

/// A sink that takes the bytes of so many puts, and none of the next.
#[derive(Clone, Copy)]
struct Stopping {
    puts: u64,
    handed_out: u64,
}

impl<D: Disk> AnswerSink<D> for Stopping {
    ghost use Rattle.std.specs.Prelude.{None, []};

    ghost taken = { λ _. None };

    ghost handings = { λ _. [] };

    fn put(&mut self, _store: &Store<D>, bytes: &[u8]) -> Result<(), usize> {
        self.handed_out = self.handed_out.saturating_add(bytes.len() as u64);
        if self.puts == 0 && !bytes.is_empty() {
            return Err(0);
        }
        self.puts = self.puts.saturating_sub(1);
        Ok(())
    }
}

/// The line of a session of a kind that is cut off at the put after so many.
pub(crate) fn puts(alloc: Global, kind: &str, puts: u64) -> Result<String, AllocError> {
    let sink = Stopping {
        puts,
        handed_out: 0,
    };
    let line = match kind {
        "single" => single(alloc, sink),
        "grouped" => grouped(alloc, sink),
        "waiting" => waiting(alloc, sink),
        _ => return no_order(alloc),
    };
    match line {
        Ok(line) => Ok(line),
        Err(wrong) => wrong.line(alloc),
    }
}

/// The worked session.
fn single(alloc: Global, mut sink: Stopping) -> Result<String, Wrong> {
    let mut store = opened(alloc, MemoryDisk::new(alloc))?;
    let mut reader = COMMANDS;
    let ended = run(alloc, &mut store, &mut reader, &mut sink);
    line(alloc, ended, sink, &store.close().into_inner(), WORKED)
}

/// The worked session in groups.
fn grouped(alloc: Global, mut sink: Stopping) -> Result<String, Wrong> {
    let mut store = opened(alloc, MemoryDisk::new(alloc))?;
    let mut source = Source {
        rest: COMMANDS,
        step: STEP,
        fault: None,
    };
    let ended = run_grouped(
        alloc,
        &mut store,
        &mut source,
        &mut sink,
        Checkpoints::Asked,
    );
    line(alloc, ended, sink, &store.close().into_inner(), WORKED)
}

/// Two questions to a store in which three commands wait.
fn waiting(alloc: Global, mut sink: Stopping) -> Result<String, Wrong> {
    let mut store = opened(alloc, MemoryDisk::new(alloc))?;
    submit_three(alloc, &mut store)?;
    let mut reader = QUESTIONS;
    let ended = run(alloc, &mut store, &mut reader, &mut sink);
    line(alloc, ended, sink, &store.close().into_inner(), ALONE)
}

/// Submits an import, a set and a delete, for two clients in turn.
fn submit_three(alloc: Global, store: &mut FusedStore) -> Result<(), StoreFault> {
    for count in 0..3 {
        let command = ALONE.command(alloc, count)?;
        let _ = store.submit(count % 2, command)?;
    }
    Ok(())
}

/// The line of a session that ended so: how many bytes were handed out, and what a crash leaves.
fn line(
    alloc: Global,
    ended: Result<Tally, SessionFault>,
    sink: Stopping,
    disk: &MemoryDisk,
    subject: Subject,
) -> Result<String, Wrong> {
    let expected = Expected {
        subject,
        counts: COUNTS,
    };
    let mut found = Found::default();
    open_images(
        alloc,
        disk,
        expected,
        Cutting::Each,
        Openings::Whole,
        &mut found,
    )?;
    let images = found.counts_shown(alloc)?;
    Ok(format!(in alloc; "{ended:?}, {} handed out, {images}", sink.handed_out)?)
}
