//! The events of a history, a line each.
use n1ql_value::Memory;
use scan_history::{Event, Events, Numbers};
use seq_vector::Vector;
use std::alloc::Global;

fn numbers_text(alloc: Global, numbers: &Numbers) -> Result<String, Memory> {
    let mut text = String::new(alloc);
    for number in numbers.as_slice() {
        text.push_str(format!(in alloc; " {number}")?.as_str())?;
    }
    Ok(text)
}

fn vector_text(alloc: Global, vector: &Vector) -> Result<String, Memory> {
    let mut text = String::new(alloc);
    for vb in 0..vector.len() {
        text.push_str(format!(in alloc; " {}", vector.get(vb))?.as_str())?;
    }
    Ok(text)
}

/// An event of a statement.
fn statement_text(alloc: Global, event: &Event) -> Result<String, Memory> {
    match event {
        Event::Define {
            c,
            k,
            i,
            deferred,
            ..
        } => Ok(format!(in alloc; "{c}.{k} define {i} {deferred}")?),
        Event::Build { c, k, indexes } => {
            Ok(format!(in alloc; "{c}.{k} build{}", numbers_text(alloc, indexes)?)?)
        }
        Event::Online { c, k, indexes } => {
            Ok(format!(in alloc; "{c}.{k} online{}", numbers_text(alloc, indexes)?)?)
        }
        Event::Removed { c, k, i } => Ok(format!(in alloc; "{c}.{k} drop {i}")?),
        _ => Ok(String::from_str(alloc, "other")?),
    }
}

/// Any event.
pub fn event_text(alloc: Global, event: &Event) -> Result<String, Memory> {
    match event {
        Event::Mutate { c, k, what } => {
            Ok(format!(in alloc; "{c}.{k} mutate {} {}", what.vb, what.seqno)?)
        }
        Event::Publish { i, at } => {
            Ok(format!(in alloc; "publish {i}:{}", vector_text(alloc, at)?)?)
        }
        Event::Start { c, k, i, demand } => {
            Ok(format!(in alloc; "{c}.{k} start {i}:{}", vector_text(alloc, demand)?)?)
        }
        Event::Answer { c, k, at } => {
            Ok(format!(in alloc; "{c}.{k} answer:{}", vector_text(alloc, at)?)?)
        }
        Event::NotYet { c, k, have } => {
            Ok(format!(in alloc; "{c}.{k} not yet:{}", vector_text(alloc, have)?)?)
        }
        Event::Refuse { c, k, code, .. } => Ok(format!(in alloc; "{c}.{k} refuse {code}")?),
        other => statement_text(alloc, other),
    }
}

/// The whole history.
pub fn history_text(alloc: Global, events: &Events) -> Result<String, Memory> {
    let mut text = String::new(alloc);
    for happened in events.as_slice() {
        text.push_str(event_text(alloc, happened.event())?.as_str())?;
        text.push_str("\n")?;
    }
    Ok(text)
}
