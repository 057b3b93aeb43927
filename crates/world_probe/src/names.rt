// The names by which faults are told, beside the messages of their own crates.
use conf_folder::FolderFault;
use conf_history::{BadPiece, HistoryFault, NoRecord, SalvageFault};
use conf_session::SessionFault;
use conf_store::OpenFault;
use conf_tools::{ConditionFault, ReadingFault, StoreToolFault};
use std::alloc::{AllocError, Global};
use std::fmt::Display;
use tree_path::PathFault;

/// A piece of a file that is no record.
const BAD_PIECE: BadPiece = BadPiece {
    number: 1,
    byte: 2,
    line: 3,
    why: NoRecord::NotARecord,
};

const FOLDER_FAULTS: [FolderFault; 5] = [
    FolderFault::Device,
    FolderFault::Locked,
    FolderFault::NotAStore,
    FolderFault::StoreExists,
    FolderFault::OutOfMemory,
];

const OPEN_FAULTS: [OpenFault; 4] = [
    OpenFault::NotAStore,
    OpenFault::Damaged { number: 1 },
    OpenFault::Device,
    OpenFault::OutOfMemory,
];

const SESSION_FAULTS: [SessionFault; 7] = [
    SessionFault::Read,
    SessionFault::Write { written: 1 },
    SessionFault::TooLong,
    SessionFault::SessionLong,
    SessionFault::OutOfMemory,
    SessionFault::Device,
    SessionFault::Reopen,
];

const CONDITION_FAULTS: [ConditionFault; 4] = [
    ConditionFault::Unmet,
    ConditionFault::BadName,
    ConditionFault::Path(PathFault::BadPath { at: 0 }),
    ConditionFault::OutOfMemory,
];

const HISTORY_FAULTS: [HistoryFault; 6] = [
    HistoryFault::Input,
    HistoryFault::Output,
    HistoryFault::NotAStore,
    HistoryFault::Damaged(BAD_PIECE),
    HistoryFault::NoSuchCommand,
    HistoryFault::OutOfMemory,
];

const SALVAGE_FAULTS: [SalvageFault; 4] = [
    SalvageFault::History(HistoryFault::NotAStore),
    SalvageFault::StoreExists,
    SalvageFault::Device,
    SalvageFault::OutOfMemory,
];

/// A fault of a crate below, which the program tells by a name.
trait Named: Display {
    /// The name.
    fn name(&self) -> &'static str;
}

impl Named for FolderFault {
    fn name(&self) -> &'static str {
        StoreToolFault::Folder(*self).name()
    }
}

impl Named for OpenFault {
    fn name(&self) -> &'static str {
        StoreToolFault::Open(*self).name()
    }
}

impl Named for SessionFault {
    fn name(&self) -> &'static str {
        StoreToolFault::Session(*self).name()
    }
}

impl Named for ConditionFault {
    fn name(&self) -> &'static str {
        StoreToolFault::Condition(*self).name()
    }
}

impl Named for HistoryFault {
    fn name(&self) -> &'static str {
        ReadingFault::History(*self).name()
    }
}

impl Named for SalvageFault {
    fn name(&self) -> &'static str {
        ReadingFault::Salvage(*self).name()
    }
}

/// The names that were compared with messages so far.
#[derive(Drop)]
struct Compared {
    /// How many names are the message.
    alike: u64,
    /// The messages that are told by another name, and that name.
    others: String,
}

impl Compared {
    /// Compares the names of faults of one crate.
    fn add<F: Named>(&mut self, alloc: Global, faults: &[F]) -> Result<(), AllocError> {
        for fault in faults {
            self.add_one(alloc, fault)?;
        }
        Ok(())
    }

    /// Compares the name of a fault.
    fn add_one<F: Named>(&mut self, alloc: Global, fault: &F) -> Result<(), AllocError> {
        let message = format!(in alloc; "{fault}")?;
        let name = fault.name();
        if name == message.as_str() {
            self.alike = self.alike.saturating_add(1);
            return Ok(());
        }
        let other = format!(in alloc; ", {message} is told as {name}")?;
        self.others.push_str(&other)
    }
}

/// Compares the names by which faults of the crates below are told with their messages.
pub(crate) fn names(alloc: Global) -> Result<String, AllocError> {
    let mut compared = Compared {
        alike: 0,
        others: String::new(alloc),
    };
    compared.add(alloc, &FOLDER_FAULTS)?;
    compared.add(alloc, &OPEN_FAULTS)?;
    compared.add(alloc, &SESSION_FAULTS)?;
    compared.add(alloc, &CONDITION_FAULTS)?;
    compared.add(alloc, &HISTORY_FAULTS)?;
    compared.add(alloc, &SALVAGE_FAULTS)?;
    let Compared { alike, others } = compared;
    format!(in alloc; "{alike} alike{others}")
}
