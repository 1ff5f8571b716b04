//! Scripts of two clients among two vBuckets.
ghost use Rattle.std.specs.Prelude.{◌≡◌, ◌≤◌, [], length, IfOk, OnOk};
ghost use Rattle.std.specs.List.{AllByRecursion};
ghost use Rattle.scan_coord.specs.Demands.{IsSized};
ghost use Rattle.scan_history.specs.Sound.{IsSound, IsWithinBounds};
ghost use Rattle.gsi_hub_tests.specs.Pairs.{IsPair, AddsCommands};

use n1ql_value::{Memory, Pairs, Span, Spans, Text, Value};
use scan_coord::Demand;
use scan_history::{Ask, Command, CommandLists, Commands, Script, Turns};
use std::alloc::Global;

/// A command of a client.
#[derive(Clone, Copy)]
pub enum Line<'a> {
    /// Puts a number under an id.
    Put(&'a str, i64),
    Delete(&'a str),
    /// A statement on indexes.
    Say(&'a str),
    /// Asks for all rows of an index: those that are published.
    Scan(&'a str),
    /// The same, with what the client wrote.
    ScanMine(&'a str),
    /// The same, with all that was accepted.
    ScanAll(&'a str),
}

/// An id, which has to be within its bounds.
fn id_of(alloc: Global, id: &str) -> Result<Text, Memory>
    ensures { IfOk result (λ text. (1 ≤ length text) × (length text ≤ 250)) }
{
    if id.is_empty() || id.len() > 250 {
        return Err(Memory);
    }
    Text::of(alloc, id)
}

/// An object with the one member x.
fn object(alloc: Global, number: i64) -> Result<Value, Memory> {
    let mut pairs = Pairs::new(alloc);
    pairs.put(Text::of(alloc, "x")?, Value::Int(number))?;
    Ok(Value::Object(pairs))
}

/// A request for all rows of an index, which doesn't wait.
fn scan(alloc: Global, index: &str, demand: Demand) -> Result<Command, Memory>
    requires { IsSized 2 demand }
    ensures { IfOk result (λ command. IsWithinBounds 2 command) }
{
    let mut spans = Spans::new(alloc);
    spans.push(Span::new(alloc))?;
    let index = Text::of(alloc, index)?;
    Ok(Command::Scan {
        index,
        spans,
        ask: Ask {
            demand,
            wait: false,
        },
    })
}

fn command(alloc: Global, line: Line<'_>) -> Result<Command, Memory>
    ensures { IfOk result (λ command. IsWithinBounds 2 command) }
{
    match line {
        Line::Put(id, number) => {
            let id = id_of(alloc, id)?;
            Ok(Command::Upsert {
                id,
                doc: object(alloc, number)?,
            })
        }
        Line::Delete(id) => {
            let id = id_of(alloc, id)?;
            Ok(Command::Delete { id })
        }
        Line::Say(text) => {
            let text = Text::of(alloc, text)?;
            Ok(Command::Ddl { text })
        }
        Line::Scan(index) => scan(alloc, index, Demand::NotBounded),
        Line::ScanMine(index) => scan(alloc, index, Demand::Mine),
        Line::ScanAll(index) => scan(alloc, index, Demand::RequestPlus),
    }
}

/// The commands of a client.
#[tactic(auto, using(crate::proofs::Soundness::all_more))]
fn commands(alloc: Global, lines: &[Line<'_>]) -> Result<Commands, Memory>
    ensures { IfOk result (λ commands. AllByRecursion (IsWithinBounds 2) commands) }
{
    let mut commands = Commands::new(alloc);
    for line in lines {
        commands.push(command(alloc, *line)?)?;
    }
    Ok(commands)
}

/// Adds the commands of one more client.
fn add(alloc: Global, lists: &mut CommandLists, lines: &[Line<'_>]) -> Result<(), Memory>
    ensures { OnOk result (AddsCommands lists.old lists.new) }
{
    let commands = commands(alloc, lines)?;
    if commands.len() > 100 {
        return Err(Memory);
    }
    lists.push(commands)?;
    Ok(())
}

/// The script of what two clients do.
#[tactic(auto, using(crate::proofs::Soundness::sound_pair))]
pub fn script(alloc: Global, first: &[Line<'_>], second: &[Line<'_>]) -> Result<Script, Memory>
    ensures sound { IfOk result IsSound }
    ensures pair { IfOk result IsPair }
{
    let keyspace = Text::of(alloc, "ks")?;
    let mut commands = CommandLists::new(alloc);
    add(alloc, &mut commands, first)?;
    add(alloc, &mut commands, second)?;
    Ok(Script {
        vbuckets: 2,
        clients: 2,
        workers: 0,
        batch: 1,
        keyspace,
        commands,
        schedule: Turns::new(alloc),
    })
}
