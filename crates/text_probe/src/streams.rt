// Bytes: as a stream, and cut after closing lines.
ghost use Rattle.yaml_docs.specs.Cutting.{Unclosed};

use crate::spots::number_of;
use probe_words::{bytes_of, no_place, shown};
use std::alloc::{AllocError, Global};
use yaml_docs::{CutFault, Cutter, Fed, events, next_close};

/// The number of events of a stream of at most so many bytes, and the events.
pub(crate) fn events_of(alloc: Global, limit: &str, bytes: &[u8]) -> Result<String, AllocError> {
    let Some(limit) = number_of(limit) else {
        return no_place(alloc);
    };
    match events(alloc, bytes, limit as u64) {
        Ok(events) => format!(in alloc; "{} [{events}]", events.len()),
        Err(fault) => format!(in alloc; "{fault:?}"),
    }
}

/// The places after the closing lines of some bytes.
pub(crate) fn closings_of(alloc: Global, bytes: &[u8]) -> Result<String, AllocError> {
    shown(alloc, &closings(alloc, bytes)?)
}

/// The places after the closing lines, each found from the one before.
fn closings(alloc: Global, bytes: &[u8]) -> Result<Vec<usize>, AllocError> {
    let mut places = Vec::new(alloc);
    let mut at = 0;
    'closings: while let Some(place) = next_close(bytes, at) {
        places.push(place)?;
        at = place;
    }
    Ok(places)
}

/// What a cutter for at most so many bytes takes of two parts, what it holds then, and what after it was cleared.
pub(crate) fn cut(alloc: Global, words: &str, second: &[u8]) -> Result<String, AllocError> {
    let Some((most, first)) = words.split_once(';') else {
        return no_place(alloc);
    };
    match (number_of(most), bytes_of(alloc, first)?) {
        (Some(most), Some(first)) => cut_parts(alloc, most as u64, &first, second),
        _ => no_place(alloc),
    }
}

/// The same for parts that were read.
fn cut_parts(alloc: Global, most: u64, first: &[u8], second: &[u8]) -> Result<String, AllocError> {
    let mut cutter = Cutter::new(alloc, most);
    let begun = fed(&mut cutter, first);
    let ended = cutter.feed(second);
    let told = format!(in alloc; "{begun:?} {ended:?} {:?}", cutter.piece())?;
    cutter.clear();
    format!(in alloc; "{told} {:?}", cutter.piece())
}

/// Feeds a cutter, and clears it if that closed a piece.
#[tactic(auto, using(crate::proofs::CutLemmas::unclosed_none))]
fn fed(cutter: &mut Cutter, bytes: &[u8]) -> Result<Fed, CutFault>
    requires { Unclosed cutter.old.bytes }
    ensures { Unclosed cutter.new.bytes }
{
    let fed = cutter.feed(bytes)?;
    if fed.closed {
        cutter.clear();
    }
    Ok(fed)
}
