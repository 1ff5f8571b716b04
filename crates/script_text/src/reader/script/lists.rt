ghost use Rattle.std.specs.Prelude.{◌≡◌, ◌++◌, ◌∷◌, [], slice_set, slice_index_or, IfOk, OnOk};
ghost use Rattle.script_text.specs.Scripts.{lists_of, schedule_of};
ghost use Rattle.script_text.specs.inner.Lines.{commands_with, schedule_with};

use crate::reader::script::item::Item;
use n1ql_value::{ListOf, Memory};
use scan_history::{Command, CommandLists, Commands, Turns};
use std::alloc::Global;

/// The commands of each client, and the schedule, in the order of the lines.
pub(crate) fn lists_of(
    alloc: Global,
    clients: u32,
    items: ListOf<Item>,
) -> Result<(CommandLists, Turns), Memory>
    ensures commands { IfOk result (λ both. both.0 ≡ lists_of clients items) }
    ensures schedule { IfOk result (λ both. both.1 ≡ schedule_of items) }
{
    let mut lists = empty_lists(alloc, clients)?;
    let mut schedule = Turns::new(alloc);
    'items: for item in items.into_vec() {
        add(&mut lists, &mut schedule, item)?;
    }
    Ok((CommandLists::from_vec(lists), schedule))
}

fn empty_lists(alloc: Global, clients: u32) -> Result<Vec<Commands>, Memory>
    ensures { IfOk result (λ lists. lists.items ≡ lists_of clients []) }
{
    let mut lists = Vec::new(alloc);
    'lists: for _ in 0..clients {
        lists.push(Commands::new(alloc))?;
    }
    Ok(lists)
}

/// Puts what a line says behind the others: of its client, or of the schedule.
fn add(lists: &mut Vec<Commands>, schedule: &mut Turns, item: Item) -> Result<(), Memory>
    ensures commands { OnOk result (lists.new.items ≡ commands_with lists.old.items item) }
    ensures schedule { OnOk result (schedule.new ≡ schedule_with schedule.old item) }
{
    match item {
        Item::Command { client, command } => add_command(lists, client, command),
        Item::Turn { turn } => schedule.push(turn),
    }
}

/// Puts a command behind the others of its client.
fn add_command(lists: &mut Vec<Commands>, client: u64, command: Command) -> Result<(), Memory>
    ensures { OnOk result (lists.new.items ≡ slice_set lists.old.items client (slice_index_or lists.old.items client [] ++ command ∷ [])) }
{
    match lists.get_mut(client as usize) {
        Some(commands) => commands.push(command),
        None => Ok(()),
    }
}
