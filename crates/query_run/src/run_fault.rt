ghost use Rattle.std.specs.Prelude.{◌≡◌};

use n1ql_value::Memory;

/// Why an answer has no text.
#[derive(Clone, Copy, Debug, PartialEq, Eq)]
pub enum RunFault {
    /// It is longer than `MAX_ANSWER_BYTES`.
    TooLarge,
    Memory,
}

impl From<Memory> for RunFault {
    fn from(_memory: Memory) -> RunFault
        ensures { result ≡ RunFault.Memory }
    {
        RunFault::Memory
    }
}
