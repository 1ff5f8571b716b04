//! Calls of a hub, each where the stage of its client fits.
ghost use Rattle.std.specs.Prelude.{◌≡◌, ◌<◌, OnOk, ⊤};
ghost use Rattle.std.specs.Option.{option_copied};
ghost use Rattle.n1ql_ast.specs.FormedStatements.{IsFormedDdl};
ghost use Rattle.scan_history.specs.Fold.{nothing};
ghost use Rattle.scan_history.specs.Readings.{IsRead, reads, faults};
ghost use Rattle.gsi_hub.specs.Past.{part_in, next_command};
ghost use Rattle.gsi_hub.specs.Commands.{IsChange, OnText, IsRequest};
ghost use Rattle.gsi_hub.specs.Stages.{OnWork, OnRequest};
ghost use Rattle.gsi_hub_tests.specs.Pairs.{IsPair};

use crate::snapshots::snapshot_of;
use gsi_hub::{Defined, Hub, Picked, Published, Stage, Started, WentOnline};
use n1ql_ast::Ddl;
use n1ql_parse::{ParseFault, ddl};
use n1ql_value::Memory;
use scan_history::{Command, Numbers};
use std::alloc::Global;
use std::sync::Arc;

/// A call of a hub.
#[derive(Clone, Copy, Debug)]
pub enum Step {
    /// A client takes its next command.
    Take(u32),
    /// The indexes that a client builds go online.
    Online(u32),
    /// A client's request is answered.
    Pick(u32),
    /// A snapshot of an index is published, of a worker to which so many pieces were delivered.
    Publish(u32, u32),
}

/// What is told where a call doesn't fit.
fn not_now(alloc: Global) -> Result<String, Memory> {
    Ok(String::from_str(alloc, "not now")?)
}

fn mutate(alloc: Global, hub: &mut Hub, c: u32) -> Result<String, Memory>
    requires pair { IsPair hub.old.script }
    requires client { c < 2 }
    requires idle { (part_in hub.old c).opened ≡ nothing }
    requires change { IsChange (next_command hub.old c) }
    ensures { OnOk result (IsPair hub.new.script) }
{
    let seqno = hub.mutate(c)?;
    let text = format!(in alloc; "mutation {seqno}")?;
    Ok(text)
}

fn start(alloc: Global, hub: &mut Hub, c: u32) -> Result<String, Memory>
    requires pair { IsPair hub.old.script }
    requires client { c < 2 }
    requires idle { (part_in hub.old c).opened ≡ nothing }
    requires request { IsRequest (next_command hub.old c) }
    ensures { OnOk result (IsPair hub.new.script) }
{
    let started = hub.start(c)?;
    let text = format!(in alloc; "{started:?}")?;
    Ok(text)
}

/// The text of what a statement came to.
fn defined_text(alloc: Global, defined: &Defined) -> Result<String, Memory> {
    match defined {
        Defined::Closed => Ok(format!(in alloc; "closed")?),
        Defined::Building(indexes) => building_text(alloc, indexes),
        Defined::Refused(code) => Ok(format!(in alloc; "Refused({code})")?),
    }
}

fn building_text(alloc: Global, indexes: &Numbers) -> Result<String, Memory> {
    let mut text = String::from_str(alloc, "building")?;
    for index in indexes.as_slice() {
        text.push_str(format!(in alloc; " {index}")?.as_str())?;
    }
    Ok(text)
}

fn define(alloc: Global, hub: &mut Hub, c: u32, read: &Ddl) -> Result<String, Memory>
    requires pair { IsPair hub.old.script }
    requires client { c < 2 }
    requires idle { (part_in hub.old c).opened ≡ nothing }
    requires text { OnText (next_command hub.old c) (λ text. IsRead text (reads read.now)) }
    requires formed { IsFormedDdl read.now }
    ensures { OnOk result (IsPair hub.new.script) }
{
    let defined = hub.define(c, read)?;
    let text = defined_text(alloc, &defined)?;
    Ok(text)
}

fn refuse_parse(alloc: Global, hub: &mut Hub, c: u32, at: usize) -> Result<String, Memory>
    requires pair { IsPair hub.old.script }
    requires client { c < 2 }
    requires idle { (part_in hub.old c).opened ≡ nothing }
    requires text { OnText (next_command hub.old c) (λ text. IsRead text (faults at)) }
    ensures { OnOk result (IsPair hub.new.script) }
{
    hub.reserve(1)?;
    hub.refuse_parse(c, at);
    let text = format!(in alloc; "fault {at}")?;
    Ok(text)
}

/// What the next command of a client that is idle comes to.
fn take_idle(alloc: Global, hub: &mut Hub, c: u32) -> Result<String, Memory>
    requires pair { IsPair hub.old.script }
    requires client { c < 2 }
    requires idle { (part_in hub.old c).opened ≡ nothing }
    ensures { OnOk result (IsPair hub.new.script) }
{
    match hub.command(c) {
        Some(Command::Upsert { .. }) => mutate(alloc, hub, c),
        Some(Command::Delete { .. }) => mutate(alloc, hub, c),
        Some(Command::Scan { .. }) => start(alloc, hub, c),
        Some(Command::Ddl { text }) => match ddl(alloc, text.as_str()) {
            Ok(read) => define(alloc, hub, c, &read),
            Err(ParseFault::Fault { at }) => refuse_parse(alloc, hub, c, at),
            Err(ParseFault::Memory) => Err(Memory),
        },
        None => not_now(alloc),
    }
}

fn take(alloc: Global, hub: &mut Hub, c: u32) -> Result<String, Memory>
    requires pair { IsPair hub.old.script }
    requires client { c < 2 }
    ensures { OnOk result (IsPair hub.new.script) }
{
    match hub.stage(c) {
        Stage::Idle => take_idle(alloc, hub, c),
        _ => not_now(alloc),
    }
}

fn online(alloc: Global, hub: &mut Hub, c: u32) -> Result<String, Memory>
    requires pair { IsPair hub.old.script }
    requires client { c < 2 }
    ensures { OnOk result (IsPair hub.new.script) }
{
    hub.reserve(1)?;
    match hub.stage(c) {
        Stage::Work => online_now(alloc, hub, c),
        _ => not_now(alloc),
    }
}

fn online_now(alloc: Global, hub: &mut Hub, c: u32) -> Result<String, Memory>
    requires pair { IsPair hub.old.script }
    requires client { c < 2 }
    requires spare { 0 < hub.old.spare }
    requires work { OnWork (part_in hub.old c).opened (λ indexes high. ⊤) }
    ensures { OnOk result (IsPair hub.new.script) }
{
    let went = hub.online(c);
    let text = format!(in alloc; "{went:?}")?;
    Ok(text)
}

/// The text of what became of a request.
fn picked_text(alloc: Global, picked: &Picked) -> Result<String, Memory> {
    match picked {
        Picked::Picked(snapshot) => Ok(format!(in alloc; "answer of {}", snapshot.index)?),
        Picked::NotYet { vb, want, have, .. } => {
            Ok(format!(in alloc; "not yet: {vb} at {have} below {want}")?)
        }
        Picked::Dropped => Ok(format!(in alloc; "Dropped")?),
    }
}

fn pick_now(alloc: Global, hub: &mut Hub, c: u32) -> Result<String, Memory>
    requires pair { IsPair hub.old.script }
    requires client { c < 2 }
    requires spare { 0 < hub.old.spare }
    requires request { OnRequest (part_in hub.old c).opened (λ i demand. ⊤) }
    ensures { OnOk result (IsPair hub.new.script) }
{
    let held = hub.held(c)?;
    let picked = hub.pick(c, held);
    let text = picked_text(alloc, &picked)?;
    Ok(text)
}

fn pick(alloc: Global, hub: &mut Hub, c: u32) -> Result<String, Memory>
    requires pair { IsPair hub.old.script }
    requires client { c < 2 }
    ensures { OnOk result (IsPair hub.new.script) }
{
    hub.reserve(1)?;
    match hub.stage(c) {
        Stage::Started { .. } => pick_now(alloc, hub, c),
        _ => not_now(alloc),
    }
}

fn publish(alloc: Global, hub: &mut Hub, i: u32, count: u32) -> Result<String, Memory>
    requires pair { IsPair hub.old.script }
    ensures { OnOk result (IsPair hub.new.script) }
{
    hub.reserve(1)?;
    match snapshot_of(alloc, hub, i, count)? {
        Some(snapshot) => {
            let at = Arc::try_clone(&snapshot.vector)?;
            let published = hub.publish(snapshot, at);
            let text = format!(in alloc; "{published:?}")?;
            Ok(text)
        }
        None => not_now(alloc),
    }
}

/// What a call comes to.
pub fn make(alloc: Global, hub: &mut Hub, call: Step) -> Result<String, Memory>
    requires pair { IsPair hub.old.script }
    ensures { OnOk result (IsPair hub.new.script) }
{
    match call {
        Step::Publish(i, count) => publish(alloc, hub, i, count),
        Step::Take(c) if c < 2 => take(alloc, hub, c),
        Step::Online(c) if c < 2 => online(alloc, hub, c),
        Step::Pick(c) if c < 2 => pick(alloc, hub, c),
        _ => not_now(alloc),
    }
}
