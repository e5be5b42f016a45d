//! Plans and faults, written out.

use bal_base::{Event, Fault, Kept, Memory, Place};
use bal_report::shape_text;
use row_lines::number;
use std::alloc::{AllocError, Global};
use typed_tree::Pair;

/// The numbers of the worker and of the event that are named.
pub fn event_named(name: &str) -> Option<(u64, u64)> {
    let (worker, event) = name.split_once(':')?;
    Some((number(worker)?, number(event)?))
}

/// Adds pairs to those that are written out.
pub fn add_pairs(text: &mut String, pairs: &[Pair]) -> Result<(), AllocError> {
    for pair in pairs {
        if !text.is_empty() {
            text.push_str(" ")?;
        }
        add_event(text, pair.send)?;
        text.push_str("-")?;
        add_event(text, pair.receive)?;
    }
    Ok(())
}

fn add_event(text: &mut String, e: Event) -> Result<(), AllocError> {
    let worker = e.worker;
    let number = e.number;
    write!(text, "{worker}:{number}")
}

/// A fault, where the body begins at this byte.
pub fn fault_text(alloc: Global, fault: &Fault, start: usize) -> Result<String, Memory> {
    let code = fault.code.number();
    let mut text = format!(in alloc; "{code}@")?;
    add_place(&mut text, fault.at, start)?;
    add_kept(alloc, &mut text, &fault.kept)?;
    Ok(text)
}

fn add_place(text: &mut String, at: Option<Place>, start: usize) -> Result<(), AllocError> {
    match at {
        Some(place) if place.at as usize >= start => {
            let at = (place.at as usize).saturating_sub(start);
            write!(text, "{at}")
        }
        Some(_) => text.push_str("name"),
        None => text.push_str("none"),
    }
}

fn add_kept(alloc: Global, text: &mut String, kept: &Kept) -> Result<(), Memory> {
    match kept {
        Kept::Nothing => {}
        Kept::Shape(shape) => {
            let shape = shape_text(alloc, shape)?;
            text.push_str(" ")?;
            text.push_str(shape.as_str())?;
        }
        Kept::Events(events) => add_events(text, events.as_slice())?,
        Kept::Counts(sent, received) => write!(text, " {sent},{received}")?,
        Kept::Count(count) => write!(text, " {count}")?,
        Kept::Names(_) => text.push_str(" names")?,
    }
    Ok(())
}

fn add_events(text: &mut String, events: &[Event]) -> Result<(), AllocError> {
    for e in events {
        text.push_str(" ")?;
        add_event(text, *e)?;
    }
    Ok(())
}
