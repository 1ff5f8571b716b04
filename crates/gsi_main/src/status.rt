ghost use Rattle.std.specs.Prelude.{◌≡◌};

use scan_history::{Kind, What};

/// How a top call ends.
#[derive(Clone, Copy, Debug, PartialEq, Eq)]
pub enum Status {
    /// The input was read to its end, and the whole report was written.
    Done,
    /// The words are no form that the call takes; nothing was read or written.
    Words,
    /// The input is no script: its first bad line, from 1 on, and what is wrong with it. Nothing was written.
    Script { line: u64, kind: Kind },
    /// The source failed. Nothing was written.
    ReadFault,
    /// The sink failed. A prefix of the report was written.
    WriteFault,
    /// Memory ran out. Nothing was written.
    Memory,
    /// The input or the script passed a limit. Nothing was written.
    TooLarge { what: What, limit: u64 },
}

impl Status {
    ghost use Rattle.gsi_main.specs.Status.{code_of};

    /// The exit status of the program.
    pub fn code(&self) -> u8
        ensures { result ≡ code_of self.now }
    {
        match self {
            Status::Done => 0,
            Status::Words => 2,
            Status::Script { .. } => 3,
            Status::ReadFault => 4,
            Status::WriteFault => 5,
            Status::Memory => 6,
            Status::TooLarge { .. } => 7,
        }
    }
}
