// A file that is read many times.
use crate::read::order::What;
use std::alloc::Global;
use std::{fs, io};
use yaml_docs::{ReadFault, events};
use yaml_tree::{Limits, read_one};

/// The limits of a text that is read to its tree: any length, and the greatest limits of a tree.
const LIMITS: Limits = Limits {
    bytes: u64::MAX,
    depth: Limits::KEPT.depth,
    style: Limits::KEPT.style,
};

/// Reads a file `rounds` times, at least once, and prints what the last reading gave.
pub(crate) fn read_rounds(rt: &HostRuntime, what: What, file: &str, rounds: u32) -> io::Result<()> {
    let alloc = rt.alloc();
    let bytes = fs::read(rt, file)?;
    let mut size = size_of(alloc, &bytes, what);
    for _ in 1..rounds {
        size = size_of(alloc, &bytes, what);
    }
    match size {
        Ok(size) => println!(rt; "{size}"),
        Err(fault) => {
            let fault = fault.brief();
            println!(rt; "{fault}")
        }
    }
}

/// Reads a text, and returns how many events it has, or how many bytes its tree has in the one style.
fn size_of(alloc: Global, bytes: &[u8], what: What) -> Result<u64, ReadFault> {
    match what {
        What::Events => Ok(events(alloc, bytes, u64::MAX)?.len() as u64),
        What::Tree => Ok(read_one(alloc, bytes, &LIMITS)?.style_length()),
    }
}
