// Sessions whose input or output ends, or fails, after each byte.
use crate::subjects::{DOTTED, Subject, WORKED, opened};
use crate::worked::{ANSWERS, COMMANDS, Seen, session_line};
use conf_session::{SessionFault, Tally};
use probe_words::{Sink, Source, no_order};
use std::alloc::{AllocError, Global};
use std::io::ErrorKind;
use test_disks::MemoryDisk;

/// A command whose text has a line of three dots within quotes: 39 bytes.
const DOTS: &[u8] = b"import: c\ntext: |\n  k: \"x\\n...\\ny\"\n...\n";

/// What a number of commands leaves: the ends of their bytes and of their answers among those of all, the count, and
/// how many were refused.
#[derive(Clone, Copy)]
struct Mark {
    documents: u64,
    read: usize,
    written: usize,
    count: u64,
    refused: u64,
}

impl Mark {
    /// What is left after so many bytes of input and output.
    fn new(documents: u64, read: usize, written: usize, count: u64, refused: u64) -> Mark {
        Mark {
            documents,
            read,
            written,
            count,
            refused,
        }
    }
}

/// What the worked session leaves before its first command, and after each of them: `import`, `set`, `export`,
/// `delete`, `get` and `names`.
fn marks() -> [Mark; 7] {
    [
        Mark::new(0, 0, 0, 0, 0),
        Mark::new(1, 35, 16, 1, 0),
        Mark::new(2, 70, 32, 2, 0),
        Mark::new(3, 86, 61, 2, 0),
        Mark::new(4, 111, 77, 3, 0),
        Mark::new(5, 133, 103, 3, 1),
        Mark::new(6, 144, 121, 3, 1),
    ]
}

/// What is cut off after a byte.
#[derive(Clone, Copy)]
enum Cut {
    /// The worked session's input ends.
    InputEnds,
    /// A read of it fails.
    InputFails,
    /// The worked session's output takes no more.
    OutputFull,
    /// A write of it fails.
    OutputFails,
    /// The input is a part of one command.
    PartRead,
}

impl Cut {
    /// The cut that the words of an order name.
    fn of(words: &str) -> Option<Cut> {
        match words {
            "input ends" => Some(Cut::InputEnds),
            "input fails" => Some(Cut::InputFails),
            "output full" => Some(Cut::OutputFull),
            "output fails" => Some(Cut::OutputFails),
            "part read" => Some(Cut::PartRead),
            _ => None,
        }
    }

    /// The most bytes after which it is cut off.
    fn most(self) -> usize {
        match self {
            Cut::InputEnds | Cut::InputFails => COMMANDS.len(),
            Cut::OutputFull | Cut::OutputFails => ANSWERS.len().saturating_sub(1),
            Cut::PartRead => DOTS.len(),
        }
    }

    /// What the session is on.
    fn subject(self) -> Subject {
        match self {
            Cut::PartRead => DOTTED,
            _ => WORKED,
        }
    }

    /// The input, of which so many bytes come: one at a time, where it is cut.
    fn source(self, bytes: usize) -> Source<'static> {
        let (input, bytes, step, fault) = match self {
            Cut::InputEnds => (COMMANDS, bytes, 1, None),
            Cut::InputFails => (COMMANDS, bytes, 1, Some(ErrorKind::BrokenPipe)),
            Cut::OutputFull | Cut::OutputFails => (COMMANDS, usize::MAX, usize::MAX, None),
            Cut::PartRead => (DOTS, bytes, usize::MAX, None),
        };
        Source {
            rest: input.get(..bytes).unwrap_or(input),
            step,
            fault,
        }
    }

    /// The output, which takes so many bytes.
    fn sink(self, alloc: Global, bytes: usize) -> Sink {
        let (room, fault) = match self {
            Cut::OutputFull => (bytes, None),
            Cut::OutputFails => (bytes, Some(ErrorKind::StorageFull)),
            Cut::InputEnds | Cut::InputFails | Cut::PartRead => (usize::MAX, None),
        };
        Sink {
            kept: Vec::new(alloc),
            room,
            fault,
        }
    }

    /// What has to be seen of the session.
    fn expected(self, bytes: usize) -> Seen {
        let mark = match self {
            Cut::InputEnds | Cut::InputFails => mark_read(bytes),
            Cut::OutputFull | Cut::OutputFails => mark_written(bytes),
            Cut::PartRead if bytes == DOTS.len() => Mark::new(1, bytes, 16, 1, 0),
            Cut::PartRead => Mark::new(0, 0, 0, 0, 0),
        };
        let (ended, answered) = match self {
            Cut::InputEnds | Cut::PartRead => (Ok(tally_of(mark, bytes)), mark.written),
            Cut::InputFails => (Err(SessionFault::Read), mark.written),
            Cut::OutputFull | Cut::OutputFails => {
                let written = bytes as u64;
                (Err(SessionFault::Write { written }), bytes)
            }
        };
        Seen {
            ended,
            reopen: false,
            answered,
            reads: mark.count,
            keeps: mark.count,
        }
    }
}

/// What is left by the commands that so many bytes of the worked session's input have whole.
fn mark_read(bytes: usize) -> Mark {
    let mut last = Mark::new(0, 0, 0, 0, 0);
    for mark in marks() {
        if mark.read <= bytes {
            last = mark;
        }
    }
    last
}

/// What is left by the commands of the worked session up to the one whose answer is cut after so many bytes of all.
fn mark_written(bytes: usize) -> Mark {
    for mark in marks() {
        if bytes < mark.written {
            return mark;
        }
    }
    Mark::new(0, 0, 0, 0, 0)
}

/// How a session ends that read so many bytes.
fn tally_of(mark: Mark, bytes: usize) -> Tally {
    Tally {
        documents: mark.documents,
        accepted: mark.count,
        refused: mark.refused,
        rest: bytes.saturating_sub(mark.read) as u64,
    }
}

/// The line of the sessions that the words name.
pub(crate) fn each(alloc: Global, words: &str) -> Result<String, AllocError> {
    match Cut::of(words) {
        Some(cut) => sessions(alloc, cut),
        None => no_order(alloc),
    }
}

/// A session for each number of bytes: how many there are, or what is seen of the first that is not as it has to be.
fn sessions(alloc: Global, cut: Cut) -> Result<String, AllocError> {
    let mut count = 0u64;
    for bytes in 0..=cut.most() {
        let line = cut_session(alloc, cut, bytes)?;
        if line.as_str() != cut.expected(bytes).line(alloc)?.as_str() {
            return format!(in alloc; "wrong after {bytes} bytes: {line}");
        }
        count = count.saturating_add(1);
    }
    format!(in alloc; "{count} sessions")
}

/// The line of the session that is cut off after so many bytes.
fn cut_session(alloc: Global, cut: Cut, bytes: usize) -> Result<String, AllocError> {
    match opened(alloc, MemoryDisk::new(alloc)) {
        Ok(store) => session_line(
            alloc,
            cut.subject(),
            store,
            cut.source(bytes),
            cut.sink(alloc, bytes),
        ),
        Err(wrong) => wrong.line(alloc),
    }
}
