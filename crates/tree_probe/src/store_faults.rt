// The messages of a store's faults.
use conf_state::StoreFault;
use probe_words::no_order;
use std::alloc::{AllocError, Global};
use tree_path::PathFault;
use yaml_tree::ReadFault;

/// The message of the store's fault that a word names.
pub(crate) fn store_fault(alloc: Global, name: &str) -> Result<String, AllocError> {
    match fault_named(name) {
        Some(fault) => fault.to_string(alloc),
        None => no_order(alloc),
    }
}

/// The fault that a word names. `Path` and `Read` are named with what they hold.
fn fault_named(name: &str) -> Option<StoreFault> {
    match name {
        "EmptyBatch" => Some(StoreFault::EmptyBatch),
        "BadName" => Some(StoreFault::BadName),
        "NoConfig" => Some(StoreFault::NoConfig),
        "Path(NoSuchPlace)" => Some(StoreFault::Path(PathFault::NoSuchPlace { step: 2 })),
        "Read(KeyTwice)" => Some(StoreFault::Read(ReadFault::KeyTwice)),
        "TooDeep" => Some(StoreFault::TooDeep),
        "ConfigLarge" => Some(StoreFault::ConfigLarge),
        "StoreFull" => Some(StoreFault::StoreFull),
        "RecordLong" => Some(StoreFault::RecordLong),
        "JournalLong" => Some(StoreFault::JournalLong),
        "CountFull" => Some(StoreFault::CountFull),
        "Reopen" => Some(StoreFault::Reopen),
        "Device" => Some(StoreFault::Device),
        "OutOfMemory" => Some(StoreFault::OutOfMemory),
        _ => None,
    }
}
