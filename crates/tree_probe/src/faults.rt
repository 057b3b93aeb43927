// How refusals are shown.
use probe_words::{bytes_of, shown, wrong_escape};
use std::alloc::{AllocError, Global};
use yaml_style::check;
use yaml_tree::{Limits, ReadFault, read_one};

/// Why bytes are refused.
fn refusal(alloc: Global, bytes: &[u8]) -> Option<ReadFault> {
    read_one(alloc, bytes, &Limits::CONFIGURATION).err()
}

/// Why bytes with escapes and runs are refused.
pub(crate) fn fault_of(alloc: Global, written: &str) -> Result<String, AllocError> {
    match bytes_of(alloc, written)? {
        Some(bytes) => shown(alloc, &refusal(alloc, &bytes)),
        None => wrong_escape(alloc),
    }
}

/// The same by its name, and in a sentence.
pub(crate) fn sentence_of(alloc: Global, written: &str) -> Result<String, AllocError> {
    let Some(bytes) = bytes_of(alloc, written)? else {
        return wrong_escape(alloc);
    };
    let Some(fault) = refusal(alloc, &bytes) else {
        return String::from_str(alloc, "read");
    };
    let name = fault.brief();
    format!(in alloc; "{name}: {fault}")
}

/// Why bytes with escapes and runs have no findings.
pub(crate) fn check_fault(alloc: Global, written: &str) -> Result<String, AllocError> {
    match bytes_of(alloc, written)? {
        Some(bytes) => shown(alloc, &check(alloc, &bytes).err()),
        None => wrong_escape(alloc),
    }
}
