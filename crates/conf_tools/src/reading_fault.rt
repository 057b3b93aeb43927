// Why a word that reads the file of a store ends early.
ghost use Rattle.std.specs.Prelude.{◌≡◌};

use crate::fault_names::{folder_fault_name, history_fault_name, salvage_fault_name};
use conf_folder::FolderFault;
use conf_history::{HistoryFault, SalvageFault};
use conf_state::StoreFault;
use std::alloc::AllocError;
use std::error::Error;
use std::fmt;
use std::fmt::{Display, Formatter};

/// Why a look into the file of a store ended early. The message is [`ReadingFault::name`].
#[derive(Clone, Copy, Debug, PartialEq, Eq)]
pub enum ReadingFault {
    /// The folder can't be used, or its `store.yaml` can't be read.
    Folder(FolderFault),
    /// The file can't be read, or doesn't hold what is asked for.
    History(HistoryFault),
    /// The state has no such configuration or value, or memory ran out. Nothing was written.
    Value(StoreFault),
    /// The value is no text, and only a text can be written as it is. Nothing was written.
    NotText,
    /// The value is a text, and only a mapping or a sequence has keys. Nothing was written.
    NotCollection,
    /// No store was saved from the file. Nothing was written.
    Salvage(SalvageFault),
    /// The writer failed. Some of the text may have been written.
    Output,
}

impl ReadingFault {
    ghost use Rattle.conf_tools.specs.FaultLines.{reading_fault_name};

    /// The name of the innermost fault, by which it is told.
    pub fn name(self) -> &'static str
        ensures { result.now ≡ reading_fault_name self }
    {
        match self {
            ReadingFault::Folder(fault) => folder_fault_name(fault),
            ReadingFault::History(fault) => history_fault_name(fault),
            ReadingFault::Value(fault) => fault.name(),
            ReadingFault::NotText => "NotText",
            ReadingFault::NotCollection => "NotCollection",
            ReadingFault::Salvage(fault) => salvage_fault_name(fault),
            ReadingFault::Output => "Output",
        }
    }
}

impl Display for ReadingFault {
    fn fmt<W: fmt::Write>(&self, f: &mut Formatter<W>) -> fmt::Result {
        f.write_str(self.name())
    }
}

impl Error for ReadingFault {}

impl From<AllocError> for ReadingFault {
    ghost use Rattle.conf_state.specs.declared.fault.StoreFault.TheVariants.{OutOfMemory};
    ghost use Rattle.conf_tools.specs.declared.reading_fault.ReadingFault.TheVariants.{Value};

    ghost from_gives = { λ _ fault. fault ≡ Value OutOfMemory };

    fn from(_: AllocError) -> Self {
        ReadingFault::Value(StoreFault::OutOfMemory)
    }
}
