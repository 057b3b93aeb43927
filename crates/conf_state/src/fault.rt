// Why a store refuses a command.
ghost use Rattle.std.specs.Prelude.{◌≡◌};
ghost use Rattle.conf_state.specs.FaultNames.{path_name, read_name};

use std::alloc::{AllocError, AllocFailed};
use std::error::Error;
use std::fmt;
use tree_path::PathFault;
use yaml_config::ReadFault;

/// Why a command is refused. `Reopen` comes before all others; of the others the first in this list that holds is
/// returned. Of the edits of a batch the first that is refused decides: its fault, of `BadName` to `ConfigLarge`, is
/// that of the batch. `OutOfMemory` may come at any point. The message is [`StoreFault::name`], with the place and the
/// reason of a text's syntax fault: `Syntax 3:7 Flow`.
#[derive(Clone, Copy, Debug, PartialEq, Eq)]
pub enum StoreFault {
    /// The batch has no edit.
    EmptyBatch,
    /// The name isn't 1 to 64 lowercase letters, digits, `_` and `-`, starting with a letter.
    BadName,
    /// No configuration has the name.
    NoConfig,
    /// The pointer is not a path, or the path leads to no place.
    Path(PathFault),
    /// The text to import is refused.
    Read(ReadFault),
    /// The configuration would be more than 128 deep.
    TooDeep,
    /// The configuration would have more than 4,194,304 bytes in the one style.
    ConfigLarge,
    /// The base text of the state would have more than 67,108,864 bytes.
    StoreFull,
    /// The command is a batch, and its record would have more than 67,108,864 bytes.
    RecordLong,
    /// The journal has no room for the command's record.
    JournalLong,
    /// 18,446,744,073,709,551,615 commands were accepted, and no more can be counted.
    CountFull,
    /// The device failed before, and the store has to be opened again.
    Reopen,
    /// The device failed.
    Device,
    /// Out of memory. It is never inside `Path` or `Read`.
    OutOfMemory,
}

impl StoreFault {
    ghost use Rattle.conf_state.specs.FaultNames.{fault_name};

    /// Returns the name of the innermost fault: `NoConfig`, or `NotIndex` for a `Path` that has it.
    pub fn name(self) -> &'static str
        ensures { result.now ≡ fault_name self }
    {
        match self {
            StoreFault::Path(fault) => path_name(fault),
            StoreFault::Read(fault) => read_name(fault),
            StoreFault::EmptyBatch => "EmptyBatch",
            StoreFault::BadName => "BadName",
            StoreFault::NoConfig => "NoConfig",
            StoreFault::TooDeep => "TooDeep",
            StoreFault::ConfigLarge => "ConfigLarge",
            StoreFault::StoreFull => "StoreFull",
            StoreFault::RecordLong => "RecordLong",
            StoreFault::JournalLong => "JournalLong",
            StoreFault::CountFull => "CountFull",
            StoreFault::Reopen => "Reopen",
            StoreFault::Device => "Device",
            StoreFault::OutOfMemory => "OutOfMemory",
        }
    }
}

fn path_name(fault: PathFault) -> &'static str
    ensures { result.now ≡ path_name fault }
{
    match fault {
        PathFault::BadPath { .. } => "BadPath",
        PathFault::NoSuchPlace { .. } => "NoSuchPlace",
        PathFault::NotIndex { .. } => "NotIndex",
        PathFault::OutOfMemory => "OutOfMemory",
    }
}

fn read_name(fault: ReadFault) -> &'static str
    ensures { result.now ≡ read_name fault }
{
    match fault {
        ReadFault::TooLong => "TooLong",
        ReadFault::NotUtf8 { .. } => "NotUtf8",
        ReadFault::Syntax { .. } => "Syntax",
        ReadFault::Documents { .. } => "Documents",
        ReadFault::KeyNotText => "KeyNotText",
        ReadFault::KeyTwice => "KeyTwice",
        ReadFault::TooDeep => "TooDeep",
        ReadFault::LargeInStyle => "LargeInStyle",
        ReadFault::OutOfMemory => "OutOfMemory",
    }
}

impl fmt::Display for StoreFault {
    fn fmt<W: fmt::Write>(&self, f: &mut fmt::Formatter<W>) -> fmt::Result {
        match *self {
            StoreFault::Read(fault) => fmt::Display::fmt(&fault.brief(), f),
            fault => f.write_str(fault.name()),
        }
    }
}

impl Error for StoreFault {}

impl From<AllocError> for StoreFault {
    ghost use Rattle.conf_state.specs.declared.fault.StoreFault.TheVariants.{OutOfMemory};

    ghost from_gives = { λ _ fault. fault ≡ OutOfMemory };

    fn from(_error: AllocError) -> StoreFault {
        StoreFault::OutOfMemory
    }
}

/// The value that comes back because there was no memory for it is dropped.
impl<T: Drop> From<AllocFailed<T>> for StoreFault {
    ghost use Rattle.conf_state.specs.declared.fault.StoreFault.TheVariants.{OutOfMemory};

    ghost from_gives = { λ _ fault. fault ≡ OutOfMemory };

    fn from(_failed: AllocFailed<T>) -> StoreFault {
        StoreFault::OutOfMemory
    }
}

impl From<PathFault> for StoreFault {
    ghost use Rattle.conf_state.specs.PathFaults.{store_fault_of};

    ghost from_gives = { λ fault result. result ≡ store_fault_of fault };

    fn from(fault: PathFault) -> StoreFault {
        match fault {
            PathFault::OutOfMemory => StoreFault::OutOfMemory,
            other => StoreFault::Path(other),
        }
    }
}
