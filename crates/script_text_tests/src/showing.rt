//! A script in a line of its own: what each member of its lines was read as.
use n1ql_json::write;
use n1ql_value::{Memory, Range, Text, Value};
use scan_coord::Demand;
use scan_history::{Ask, Command, Script, Turn};
use seq_vector::Vector;
use std::alloc::Global;

/// A value, where there is one.
fn put_value(out: &mut Vec<u8>, value: &Option<Value>) -> Result<(), Memory> {
    match value {
        Some(value) => write(value, out),
        None => Ok(out.push(b'_')?),
    }
}

fn put_range(out: &mut Vec<u8>, range: &Range) -> Result<(), Memory> {
    put_value(out, &range.low)?;
    out.push(b"nlhb"[usize::from(range.incl % 4)])?;
    put_value(out, &range.high)
}

/// The numbers of a vector, each behind a blank.
fn vector_text(alloc: Global, vector: &Vector) -> Result<String, Memory> {
    let mut text = String::new(alloc);
    for vb in 0..vector.len() {
        text.push_str(format!(in alloc; " {}", vector.get(vb))?.as_str())?;
    }
    Ok(text)
}

fn demand_text(alloc: Global, demand: &Demand) -> Result<String, Memory> {
    match demand {
        Demand::NotBounded => Ok(String::new(alloc)),
        Demand::AtPlus(at) => Ok(format!(in alloc; "@{}", vector_text(alloc, at)?)?),
        Demand::Mine => Ok(String::from_str(alloc, "@mine")?),
        Demand::RequestPlus => Ok(String::from_str(alloc, "@all")?),
    }
}

/// What a request asks, nothing where it asks for nothing and waits.
fn put_ask(alloc: Global, out: &mut Vec<u8>, ask: &Ask) -> Result<(), Memory> {
    let demand = demand_text(alloc, &ask.demand)?;
    out.extend_from_slice(demand.as_str().as_bytes())?;
    if !ask.wait {
        out.push(b'!')?;
    }
    Ok(())
}

fn put_command(alloc: Global, out: &mut Vec<u8>, command: &Command) -> Result<(), Memory> {
    match command {
        Command::Upsert { id, doc } => {
            out.extend_from_slice(b"+")?;
            out.extend_from_slice(id.as_str().as_bytes())?;
            out.push(b'=')?;
            write(doc, out)?;
        }
        Command::Delete { id } => {
            out.extend_from_slice(b"-")?;
            out.extend_from_slice(id.as_str().as_bytes())?;
        }
        Command::Ddl { text } => {
            out.push(b':')?;
            out.extend_from_slice(text.as_str().as_bytes())?;
        }
        Command::Scan { index, spans, ask } => {
            out.extend_from_slice(b"?")?;
            out.extend_from_slice(index.as_str().as_bytes())?;
            for span in spans.as_slice() {
                out.push(b'[')?;
                for range in span.as_slice() {
                    out.push(b'(')?;
                    put_range(out, range)?;
                    out.push(b')')?;
                }
                out.push(b']')?;
            }
            put_ask(alloc, out, ask)?;
        }
    }
    Ok(())
}

/// That a line is on one index, where it is.
fn index_text(alloc: Global, index: &Option<Text>) -> Result<String, Memory> {
    match index {
        Some(index) => Ok(format!(in alloc; " of {}", index.as_str())?),
        None => Ok(String::new(alloc)),
    }
}

/// A line of a schedule.
fn turn_text(alloc: Global, turn: &Turn) -> Result<String, Memory> {
    match turn {
        Turn::Client { c } => Ok(format!(in alloc; "; client {c}")?),
        Turn::Project { vb, index } => {
            Ok(format!(in alloc; "; project {vb}{}", index_text(alloc, index)?)?)
        }
        Turn::Deliver { index, place } => {
            Ok(format!(in alloc; "; deliver {place} of {}", index.as_str())?)
        }
        Turn::Lose { index, place } => {
            Ok(format!(in alloc; "; lose {place} of {}", index.as_str())?)
        }
        Turn::Publish { index } => Ok(format!(in alloc; "; publish {}", index.as_str())?),
        Turn::Rewind { to, index } => {
            let to = vector_text(alloc, to)?;
            Ok(format!(in alloc; "; rewind{to}{}", index_text(alloc, index)?)?)
        }
    }
}

/// The script: its header, the commands of each client behind a bar, and the lines of its schedule.
pub fn shown(alloc: Global, script: &Script) -> Result<Vec<u8>, Memory> {
    let Script {
        vbuckets,
        clients,
        workers,
        batch,
        ..
    } = script;
    let header = format!(in alloc;
        "{vbuckets} {clients} {workers} {batch} {}",
        script.keyspace.as_str()
    )?;
    let mut out = Vec::from_slice(alloc, header.as_bytes())?;
    for commands in script.commands.as_slice() {
        out.push(b'|')?;
        for command in commands.as_slice() {
            out.push(b' ')?;
            put_command(alloc, &mut out, command)?;
        }
    }
    for turn in script.schedule.as_slice() {
        out.extend_from_slice(turn_text(alloc, turn)?.as_bytes())?;
    }
    Ok(out)
}
