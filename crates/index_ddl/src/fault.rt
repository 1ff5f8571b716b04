ghost use Rattle.std.specs.Prelude.{◌≡◌};

use n1ql_value::Memory;

/// Why a statement changes nothing in the catalog.
#[derive(Clone, Copy, Debug, PartialEq, Eq)]
pub enum DdlFault {
    /// A live index has the new name.
    Exists,
    /// A name is that of no live index.
    Unknown,
    /// An index that is to be built isn't deferred.
    NotDeferred,
    /// As many indexes were created before as a catalog takes.
    TooMany,
    Memory,
}

impl From<Memory> for DdlFault {
    fn from(_memory: Memory) -> DdlFault
        ensures { result ≡ DdlFault.Memory }
    {
        DdlFault::Memory
    }
}
