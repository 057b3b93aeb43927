// The names by which faults of the crates below are told. But for that of a failed read, each is the fault's message.
ghost use Rattle.std.specs.Prelude.{◌≡◌};
ghost use Rattle.conf_tools.specs.FaultLines.{condition_fault_name, folder_fault_name, history_fault_name, open_fault_name, salvage_fault_name, session_fault_name};
ghost use Rattle.conf_tools.specs.NewFiles.{new_file_fault_name};

use conf_conditions::ConditionFault;
use conf_files::NewFileFault;
use conf_folder::FolderFault;
use conf_history::{HistoryFault, SalvageFault};
use conf_session::SessionFault;
use conf_state::StoreFault;
use conf_store::OpenFault;

pub(crate) fn folder_fault_name(fault: FolderFault) -> &'static str
    ensures { result.now ≡ folder_fault_name fault }
{
    match fault {
        FolderFault::Device => "Device",
        FolderFault::Locked => "Locked",
        FolderFault::NotAStore => "NotAStore",
        FolderFault::StoreExists => "StoreExists",
        FolderFault::OutOfMemory => "OutOfMemory",
    }
}

pub(crate) fn open_fault_name(fault: OpenFault) -> &'static str
    ensures { result.now ≡ open_fault_name fault }
{
    match fault {
        OpenFault::NotAStore => "NotAStore",
        OpenFault::Damaged { .. } => "Damaged",
        OpenFault::Device => "Device",
        OpenFault::OutOfMemory => "OutOfMemory",
    }
}

pub(crate) fn session_fault_name(fault: SessionFault) -> &'static str
    ensures { result.now ≡ session_fault_name fault }
{
    match fault {
        SessionFault::Read => "Input",
        SessionFault::Write { .. } => "Output",
        SessionFault::TooLong => "TooLong",
        SessionFault::SessionLong => "SessionLong",
        SessionFault::OutOfMemory => "OutOfMemory",
        SessionFault::Device => "Device",
        SessionFault::Reopen => "Reopen",
    }
}

pub(crate) fn condition_fault_name(fault: ConditionFault) -> &'static str
    ensures { result.now ≡ condition_fault_name fault }
{
    match fault {
        ConditionFault::Unmet => "Unmet",
        ConditionFault::BadName => "BadName",
        ConditionFault::Path(fault) => StoreFault::Path(fault).name(),
        ConditionFault::OutOfMemory => "OutOfMemory",
    }
}

/// A read that failed is a fault of the device, which holds the file.
pub(crate) fn history_fault_name(fault: HistoryFault) -> &'static str
    ensures { result.now ≡ history_fault_name fault }
{
    match fault {
        HistoryFault::Input => "Device",
        HistoryFault::Output => "Output",
        HistoryFault::NotAStore => "NotAStore",
        HistoryFault::Damaged(_) => "Damaged",
        HistoryFault::NoSuchCommand => "NoSuchCommand",
        HistoryFault::OutOfMemory => "OutOfMemory",
    }
}

pub(crate) fn salvage_fault_name(fault: SalvageFault) -> &'static str
    ensures { result.now ≡ salvage_fault_name fault }
{
    match fault {
        SalvageFault::History(fault) => history_fault_name(fault),
        SalvageFault::StoreExists => "StoreExists",
        SalvageFault::Device => "Device",
        SalvageFault::OutOfMemory => "OutOfMemory",
    }
}

pub(crate) fn new_file_fault_name(fault: NewFileFault) -> &'static str
    ensures { result.now ≡ new_file_fault_name fault }
{
    match fault {
        NewFileFault::FileExists => "FileExists",
        NewFileFault::Device => "Device",
        NewFileFault::OutOfMemory => "OutOfMemory",
    }
}
