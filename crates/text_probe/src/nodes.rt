// Nodes and their events.
ghost use Rattle.std.specs.Prelude.{◌≤ℤ◌, negsuc};
ghost use Rattle.std.specs.Str.{IsCharBoundary};

use crate::spots::{BlockSpot, FlowSpot};
use probe_words::no_place;
use std::alloc::{AllocError, Global};
use yaml_block::block_node;
use yaml_events::{Event, Events, ScanFault};
use yaml_flow::flow_node;

/// What is answered for a node that is read.
#[derive(Clone, Copy)]
pub(crate) enum Told {
    /// Its end, the number of events, and the events.
    Events,
    /// Its end, and the number of events.
    Counts,
}

/// The flow node at a place.
pub(crate) fn flow_at(
    alloc: Global,
    spot: Option<FlowSpot>,
    text: &str,
    told: Told,
) -> Result<String, AllocError> {
    match spot {
        Some(spot) if text.is_char_boundary(spot.at) => read_flow(alloc, spot, text, told),
        _ => no_place(alloc),
    }
}

/// Reads a flow node.
fn read_flow(alloc: Global, spot: FlowSpot, text: &str, told: Told) -> Result<String, AllocError>
    requires { IsCharBoundary text.now spot.at }
{
    let mut events = started(alloc)?;
    let end = flow_node(alloc, &mut events, text, spot.at, spot.n, spot.context);
    tell(alloc, end, &events, told)
}

/// The block node at a place.
pub(crate) fn block_at(
    alloc: Global,
    spot: Option<BlockSpot>,
    text: &str,
    told: Told,
) -> Result<String, AllocError> {
    match spot {
        Some(spot) if spot.n >= -1 && text.is_char_boundary(spot.at) => {
            read_block(alloc, spot, text, told)
        }
        _ => no_place(alloc),
    }
}

/// Reads a block node.
fn read_block(alloc: Global, spot: BlockSpot, text: &str, told: Told) -> Result<String, AllocError>
    requires at { IsCharBoundary text.now spot.at }
    requires below { negsuc 0 ≤ℤ spot.n }
{
    let mut events = started(alloc)?;
    let end = block_node(alloc, &mut events, text, spot.at, spot.n, spot.context);
    tell(alloc, end, &events, told)
}

/// A list with the start of a document.
fn started<'a>(alloc: Global) -> Result<Events<'a>, AllocError> {
    let mut events = Events::new(alloc);
    events.push(Event::DocStart)?;
    Ok(events)
}

/// The answer for a node: where it ends or why there is none, and what the list of events is then.
fn tell(
    alloc: Global,
    end: Result<usize, ScanFault>,
    events: &Events<'_>,
    told: Told,
) -> Result<String, AllocError> {
    let count = events.len();
    match (end, told) {
        (Ok(end), Told::Events) => format!(in alloc; "{end} {count} [{events}]"),
        (Ok(end), Told::Counts) => format!(in alloc; "{end} {count}"),
        (Err(fault), _) => format!(in alloc; "{fault:?} [{events}]"),
    }
}
