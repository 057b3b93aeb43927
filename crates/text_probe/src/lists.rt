// A list of events, step by step.
use std::alloc::{AllocError, Global};
use std::borrow::CowStr;
use yaml_events::{Event, Events, Span, Style};

/// The number of events after some steps, the list, and its events one by one.
pub(crate) fn list_of(alloc: Global, steps: &str) -> Result<String, AllocError> {
    let events = after(alloc, steps)?;
    let told = format!(in alloc; "{} [{events}]", events.len())?;
    handed_over(alloc, told, events)
}

/// The list after some steps.
fn after(alloc: Global, steps: &str) -> Result<Events<'_>, AllocError> {
    let mut events = Events::new(alloc);
    for step in steps.split(';') {
        take_step(alloc, &mut events, step)?;
    }
    Ok(events)
}

/// Takes a step.
fn take_step<'a>(alloc: Global, events: &mut Events<'a>, step: &'a str) -> Result<(), AllocError> {
    match event_of(alloc, step)? {
        Some(event) => Ok(events.push(event)?),
        None => change(events, step),
    }
}

/// The answer so far, and after it the events one by one.
fn handed_over(alloc: Global, told: String, events: Events<'_>) -> Result<String, AllocError> {
    let mut told = told;
    for event in events {
        told = format!(in alloc; "{told} {event};")?;
    }
    Ok(told)
}

/// The event that a step appends, if it appends one.
fn event_of<'a>(alloc: Global, step: &'a str) -> Result<Option<Event<'a>>, AllocError> {
    Ok(match step {
        "+D" => Some(Event::DocStart),
        "-D" => Some(Event::DocEnd),
        "+S" => Some(Event::SeqStart),
        "-S" => Some(Event::SeqEnd),
        "+M" => Some(Event::MapStart),
        "-M" => Some(Event::MapEnd),
        step => scalar_of(alloc, step)?,
    })
}

/// The scalar that a step appends, if it appends one.
fn scalar_of<'a>(alloc: Global, step: &'a str) -> Result<Option<Event<'a>>, AllocError> {
    if let Some(value) = step.strip_prefix('=') {
        return Ok(Some(scalar(Style::Plain, CowStr::Borrowed(value))));
    }
    if let Some(value) = step.strip_prefix('"') {
        let value = String::from_str(alloc, value)?;
        return Ok(Some(scalar(Style::Double, CowStr::Owned(value))));
    }
    Ok(None)
}

/// A scalar at the start of a text.
fn scalar<'a>(style: Style, value: CowStr<'a>) -> Event<'a> {
    Event::Scalar {
        style,
        span: Span {
            start: 0,
            end: value.as_str().len(),
        },
        value,
    }
}

/// Changes a list by a step with a number. Another step changes nothing.
fn change(events: &mut Events<'_>, step: &str) -> Result<(), AllocError> {
    let Some((word, count)) = step.split_once(' ') else {
        return Ok(());
    };
    let Ok(count) = count.parse::<usize>() else {
        return Ok(());
    };
    match word {
        "omitted" => events.push_omitted(count),
        "insert" if count <= events.len() => events.insert_map_start(count),
        "keep" if count <= events.len() => {
            events.truncate(count);
            Ok(())
        }
        _ => Ok(()),
    }
}
