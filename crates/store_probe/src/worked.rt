// A worked session, and what is seen of a session that ended.
use crate::calls::FusedStore;
use crate::subjects::{Counts, Expected, Subject};
use crate::wrong::Wrong;
use conf_disk::Cuts;
use conf_session::{SessionFault, Tally, run};
use probe_words::{Sink, Source};
use std::alloc::{AllocError, Global};
use test_disks::MemoryDisk;

/// The commands: 144 bytes.
pub(crate) const COMMANDS: &[u8] =
    b"import: app\ntext: \"port: 80\\n\"\n...\nset: app\npath: /port\nvalue: 81\n...\nexport: app\n...\n\
delete: app\npath: \"\"\n...\nget: app\npath: \"\"\n...\nnames:\n...\n";

/// Their answers: 121 bytes.
pub(crate) const ANSWERS: &[u8] =
    b"---\nok: \"1\"\n...\n---\nok: \"2\"\n...\n---\ntext: |\n  port: \"81\"\n...\n\
---\nok: \"3\"\n...\n---\nrefused: NoConfig\n...\n---\nnames: []\n...\n";

/// The counts that a store may have in a worked session.
pub(crate) const COUNTS: Counts = Counts { least: 0, most: 3 };

/// What is seen of a session: how it ended, whether the store has to be opened again, how many bytes are answered, the
/// count that the file has then, and the count that it has if a crash keeps no pending byte.
#[derive(Clone, Copy)]
pub(crate) struct Seen {
    pub(crate) ended: Result<Tally, SessionFault>,
    pub(crate) reopen: bool,
    pub(crate) answered: usize,
    pub(crate) reads: u64,
    pub(crate) keeps: u64,
}

impl Seen {
    /// The line of what is seen.
    pub(crate) fn line(self, alloc: Global) -> Result<String, AllocError> {
        let Seen {
            ended,
            reopen,
            answered,
            reads,
            keeps,
        } = self;
        format!(in alloc;
            "{ended:?}, reopen {reopen}, {answered} answered, reads {reads}, keeps {keeps}"
        )
    }
}

/// The line of what is seen of a session on a subject.
pub(crate) fn session_line(
    alloc: Global,
    subject: Subject,
    store: FusedStore,
    source: Source<'_>,
    sink: Sink,
) -> Result<String, AllocError> {
    match look_at(alloc, subject, store, source, sink) {
        Ok(seen) => seen.line(alloc),
        Err(wrong) => wrong.line(alloc),
    }
}

/// Runs a session, and looks at what it leaves.
fn look_at(
    alloc: Global,
    subject: Subject,
    mut store: FusedStore,
    mut source: Source<'_>,
    mut sink: Sink,
) -> Result<Seen, Wrong> {
    let ended = run(alloc, &mut store, &mut source, &mut sink);
    let reopen = store.needs_reopen();
    let left = counts_of(alloc, subject, store.close().into_inner());
    let answered = sink.kept.len();
    if !ANSWERS.starts_with(&sink.kept) {
        return Err(Wrong::Output(answered));
    }
    match left {
        Ok((reads, keeps)) => Ok(Seen {
            ended,
            reopen,
            answered,
            reads,
            keeps,
        }),
        Err(wrong) => Err(wrong),
    }
}

/// The count that a folder has, and the one that it has if a crash keeps no pending byte.
fn counts_of(alloc: Global, subject: Subject, disk: MemoryDisk) -> Result<(u64, u64), Wrong> {
    let expected = Expected {
        subject,
        counts: COUNTS,
    };
    let keeps = match disk.image(0, Cuts::default())? {
        Some(image) => expected.count_of(alloc, image)?,
        None => return Err(Wrong::NoImage),
    };
    let reads = expected.count_of(alloc, disk)?;
    Ok((reads, keeps))
}
