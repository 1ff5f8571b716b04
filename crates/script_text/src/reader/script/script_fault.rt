use n1ql_value::Memory as OutOfMemory;
use scan_history::{Kind, What};

/// Why an input is no script that is read.
#[derive(Clone, Copy, Debug, PartialEq, Eq, Drop)]
pub enum ScriptFault {
    /// The first bad line, by its number from 1, and the first kind of what is wrong with it.
    Line { line: u64, kind: Kind },
    /// The first thing that passed its limit.
    TooLarge { what: What, limit: u64 },
    /// Memory ran out.
    Memory,
}

impl From<OutOfMemory> for ScriptFault {
    ghost use Rattle.std.specs.Prelude.{◌≡◌};
    ghost use Rattle.script_text.specs.declared.reader.script.script_fault.ScriptFault.TheVariants as fault;

    ghost from_gives = { λ _ e. e ≡ fault.Memory };

    fn from(_ran_out: OutOfMemory) -> ScriptFault {
        ScriptFault::Memory
    }
}
