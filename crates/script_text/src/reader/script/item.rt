use scan_history::{Command, Turn};

/// What a line after the header says.
#[derive(Drop)]
pub(crate) enum Item {
    /// A command of a client.
    Command { client: u64, command: Command },
    /// A turn of the schedule.
    Turn { turn: Turn },
}
