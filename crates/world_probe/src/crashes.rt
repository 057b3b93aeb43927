// The last run of a list is cut off after each of its calls of a system, and the machine crashes then.
use crate::histories::History;
use crate::images::{Stopped, open_images};
use crate::list::{Asked, List};
use crate::runs::Ran;
use crate::states::told;
use crate::world::MemoryWorld;
use crate::wrong::Wrong;
use probe_words::Zeros;
use std::alloc::{AllocError, Global};

/// The line of a list whose last run is cut off after each of its calls.
pub(crate) fn crash(alloc: Global, list: &List, zeros: Zeros) -> Result<String, AllocError> {
    let Some(last) = &list.last else {
        return String::from_str(alloc, "no run");
    };
    match cut_off_each(alloc, list, last, zeros) {
        Ok(line) => Ok(line),
        Err(Wrong::State(state)) => format!(in alloc; "wrong: {state}"),
        Err(Wrong::OutOfMemory) => Err(AllocError),
    }
}

/// Cuts the last run off after each of its calls.
fn cut_off_each(alloc: Global, list: &List, last: &Asked, zeros: Zeros) -> Result<String, Wrong> {
    let first = list.world_before(alloc, usize::MAX)?.calls();
    let (after, _) = list.world_after(alloc, last, usize::MAX)?;
    let mut histories = histories_of(alloc, list, &after)?;
    for calls in first..=after.calls() {
        let (world, ran) = list.world_after(alloc, last, calls)?;
        open_all(alloc, &world, last, &ran, zeros, &mut histories)?;
        go_on_with_all(alloc, world, last, &ran, &mut histories)?;
    }
    let calls = after.calls().saturating_sub(first);
    Ok(line_of(alloc, calls, &histories)?)
}

/// The histories of all folders of a world.
fn histories_of(
    alloc: Global,
    list: &List,
    world: &MemoryWorld,
) -> Result<Vec<History>, AllocError> {
    let mut histories = Vec::new(alloc);
    for path in world.folders().keys() {
        histories.push(History::new(alloc, list, path)?)?;
    }
    Ok(histories)
}

/// Opens the images of all folders of a world whose last run was cut off.
fn open_all(
    alloc: Global,
    world: &MemoryWorld,
    last: &Asked,
    ran: &Ran,
    zeros: Zeros,
    histories: &mut Vec<History>,
) -> Result<(), Wrong> {
    for history in histories {
        let span = history.span(last, ran);
        if let Some(system) = world.system(&history.path) {
            let stopped = Stopped {
                alloc,
                system,
                zeros,
                span,
            };
            open_images(stopped, history)?;
        }
    }
    Ok(())
}

/// Opens all folders of a world whose last run was killed, with what is in memory.
fn go_on_with_all(
    alloc: Global,
    world: MemoryWorld,
    last: &Asked,
    ran: &Ran,
    histories: &mut Vec<History>,
) -> Result<(), Wrong> {
    let mut world = world;
    world.go_on();
    for history in histories {
        go_on(alloc, &mut world, last, ran, history)?;
    }
    Ok(())
}

/// Opens a folder, if it is there.
fn go_on(
    alloc: Global,
    world: &mut MemoryWorld,
    last: &Asked,
    ran: &Ran,
    history: &mut History,
) -> Result<(), Wrong> {
    let span = history.span(last, ran);
    if world.system(&history.path).is_none() {
        return Ok(());
    }
    let state = told(alloc, world, &history.path)?;
    if history.note(span, &state) {
        return Ok(());
    }
    Err(Wrong::State(format!(in alloc; "after a kill: {state}")?))
}

/// The line of what was found.
fn line_of(alloc: Global, calls: usize, histories: &[History]) -> Result<String, AllocError> {
    let mut line = format!(in alloc; "{calls} calls")?;
    for history in histories {
        line.push_str("; ")?;
        line.push_str(&history.line(alloc)?)?;
    }
    Ok(line)
}
