ghost use Rattle.std.specs.Prelude.{◌≡◌};

use n1ql_value::Memory;

/// Why a statement has no plan.
#[derive(Clone, Copy, Debug, PartialEq, Eq)]
pub enum PlanFault {
    /// USE INDEX names no live index.
    Unknown,
    /// The index of USE INDEX isn't online.
    NotOnline,
    /// No index that may answer the statement qualifies for it.
    NoIndex,
    Memory,
}

impl From<Memory> for PlanFault {
    fn from(_memory: Memory) -> PlanFault
        ensures { result ≡ PlanFault.Memory }
    {
        PlanFault::Memory
    }
}
