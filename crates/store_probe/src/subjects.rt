// Configurations that commands change in turn, and the states that these lead through.
use crate::calls::FusedStore;
use crate::store_commands::{delete, import, set};
use crate::wrong::Wrong;
use conf_state::{Command, StoreFault};
use conf_store::Store;
use std::alloc::{AllocError, Global};
use test_disks::{Fuse, FusedDisk, MemoryDisk};

/// A configuration that is imported, set and deleted in turn.
#[derive(Clone, Copy)]
pub(crate) struct Subject {
    /// Its name.
    name: &'static str,
    /// What it is in the one style after so many commands, and then again in turn.
    texts: [Option<&'static str>; 3],
    /// Whether a long text is beside it from the beginning, under the name `a`.
    beside: Beside,
}

/// What is beside a configuration.
#[derive(Clone, Copy)]
enum Beside {
    Nothing,
    LongText,
}

/// The configuration of a folder that has no file at first.
pub(crate) const ALONE: Subject = Subject {
    name: "a",
    texts: [None, Some("x\n"), Some("z\n")],
    beside: Beside::Nothing,
};

/// The one beside a long text: a checkpoint of both is two slices.
pub(crate) const PAIRED: Subject = Subject {
    name: "b",
    texts: [Some("x\n"), Some("z\n"), None],
    beside: Beside::LongText,
};

/// The one of the worked session.
pub(crate) const WORKED: Subject = Subject {
    name: "app",
    texts: [None, Some("port: \"80\"\n"), Some("port: \"81\"\n")],
    beside: Beside::Nothing,
};

/// The one of a command whose text has a line of three dots within quotes.
pub(crate) const DOTTED: Subject = Subject {
    name: "c",
    texts: [None, Some("k: |-\n  x\n  ...\n  y\n"), None],
    beside: Beside::Nothing,
};

/// The base with the long text before that text, and after it.
const HEAD: &[u8] = b"---\nstore: confstore-2\nat: \"0\"\nconfigs:\n  a: \"";

const TAIL: &[u8] = b"\"\n  b: x\n...\n";

/// The number of letters of the long text: the base is longer than one slice, and shorter than two.
const LETTERS: usize = 5_000;

/// The length of the long text in the one style: the letters, two quotes and a line feed.
const STYLED: usize = 5_003;

impl Subject {
    /// What it is after so many commands.
    fn text(&self, count: u64) -> Option<&'static str> {
        self.texts[(count % 3) as usize]
    }

    /// The folder before the first command.
    pub(crate) fn folder(&self, alloc: Global) -> Result<MemoryDisk, AllocError> {
        match self.beside {
            Beside::Nothing => Ok(MemoryDisk::new(alloc)),
            Beside::LongText => MemoryDisk::with_files(alloc, Some(long_base(alloc)?), None),
        }
    }

    /// The command after so many.
    pub(crate) fn command(&self, alloc: Global, count: u64) -> Result<Command, StoreFault> {
        match (self.text(count), self.text(count.saturating_add(1))) {
            (None, Some(next)) => import(alloc, self.name, next),
            (Some(_), Some(next)) => set(alloc, self.name, "", next),
            (_, None) => delete(alloc, self.name, ""),
        }
    }

    /// The length of that command's record, if the name has one letter, the texts have one, and the number one digit.
    fn record_length(&self, count: u64) -> usize {
        match (self.text(count), self.text(count.saturating_add(1))) {
            (None, Some(_)) => 34,
            (Some(_), Some(_)) => 41,
            (_, None) => 35,
        }
    }

    /// The ends of the records of the commands that aren't flushed, in the order of these.
    pub(crate) fn record_ends(
        &self,
        alloc: Global,
        counts: Counts,
    ) -> Result<Vec<usize>, AllocError> {
        let mut ends = Vec::new(alloc);
        let mut end = 0usize;
        for count in counts.least..counts.most {
            end = end.saturating_add(self.record_length(count));
            ends.push(end)?;
        }
        Ok(ends)
    }

    /// Whether it is in a store as it has to be after so many commands.
    fn is_in(&self, store: &FusedStore, count: u64) -> bool {
        match (store.export(self.name), self.text(count)) {
            (Ok(found), Some(text)) => found.as_str() == text,
            (Err(fault), None) => fault == StoreFault::NoConfig,
            _ => false,
        }
    }

    /// Whether a store has what is beside it.
    fn has_beside(&self, store: &FusedStore) -> bool {
        match (self.beside, store.export("a")) {
            (Beside::Nothing, _) => true,
            (Beside::LongText, Ok(text)) => text.len() == STYLED,
            (Beside::LongText, Err(_)) => false,
        }
    }
}

/// What a store has to have: the state of its subject after so many commands as its count says, which is one of these.
#[derive(Clone, Copy)]
pub(crate) struct Expected {
    pub(crate) subject: Subject,
    pub(crate) counts: Counts,
}

impl Expected {
    /// The same state with this count alone.
    pub(crate) fn only(self, count: u64) -> Expected {
        Expected {
            counts: Counts::only(count),
            ..self
        }
    }

    /// The count of a store.
    pub(crate) fn count_in(self, store: &FusedStore) -> Result<u64, Wrong> {
        let count = store.count();
        if !self.counts.contains(count) {
            return Err(Wrong::Count(count));
        }
        if self.subject.is_in(store, count) && self.subject.has_beside(store) {
            Ok(count)
        } else {
            Err(Wrong::State(count))
        }
    }

    /// The count of a folder, which has to open.
    pub(crate) fn count_of(self, alloc: Global, disk: MemoryDisk) -> Result<u64, Wrong> {
        let store = opened(alloc, disk)?;
        self.count_in(&store)
    }
}

/// The base with the long text.
fn long_base(alloc: Global) -> Result<Vec<u8>, AllocError> {
    let mut bytes = Vec::new(alloc);
    bytes.extend_from_slice(HEAD)?;
    bytes.resize(HEAD.len().saturating_add(LETTERS), b'k')?;
    bytes.extend_from_slice(TAIL)?;
    Ok(bytes)
}

/// Opens a folder that has to open.
pub(crate) fn opened(alloc: Global, disk: MemoryDisk) -> Result<FusedStore, Wrong> {
    match Store::open(alloc, FusedDisk::new(disk, u64::MAX, Fuse::Stop)) {
        Ok((store, _)) => Ok(store),
        Err((_, fault)) => Err(Wrong::Open(fault)),
    }
}

/// The counts that a store may have: of the flushed commands at least, and of the accepted ones at most.
#[derive(Clone, Copy)]
pub(crate) struct Counts {
    pub(crate) least: u64,
    pub(crate) most: u64,
}

impl Counts {
    /// One count alone.
    pub(crate) fn only(count: u64) -> Counts {
        Counts {
            least: count,
            most: count,
        }
    }

    /// Whether a count is one of them.
    fn contains(self, count: u64) -> bool {
        self.least <= count && count <= self.most
    }
}
