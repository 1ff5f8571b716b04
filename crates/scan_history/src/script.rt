use crate::command::Command;
use crate::turn::Turn;
use n1ql_value::{ListOf, Text};

/// The commands of one client, in the order of their lines.
pub type Commands = ListOf<Command>;

/// The commands of each client, by its number.
pub type CommandLists = ListOf<Commands>;

/// The lines of a schedule, in order.
pub type Turns = ListOf<Turn>;

/// What the lines of a script say.
#[derive(Drop)]
pub struct Script {
    /// How many vBuckets there are, 1 to 1,024.
    pub vbuckets: u32,
    /// How many clients there are, 1 to 64.
    pub clients: u32,
    /// How many indexing threads run beside the clients, 0 to 16.
    pub workers: u32,
    /// How many mutations a piece of a stream has at most, 1 to 4,096.
    pub batch: u64,
    /// The name of the keyspace, 1 to 100 bytes.
    pub keyspace: Text,
    /// One list for each client.
    pub commands: CommandLists,
    pub schedule: Turns,
}
