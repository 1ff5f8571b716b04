use n1ql_value::Memory;

/// Why a text is no expression.
#[derive(Clone, Copy, Debug, PartialEq, Eq)]
pub enum ParseFault {
    /// No text goes on at this place, a byte place in the text.
    Fault { at: usize },
    /// Memory ran out.
    Memory,
}

impl From<Memory> for ParseFault {
    ghost use Rattle.std.specs.Prelude.{◌≡◌};
    ghost use Rattle.n1ql_parse.specs.declared.parse_fault.ParseFault.TheVariants.{Memory};

    ghost from_gives = { λ _ fault. fault ≡ Memory };

    fn from(_memory: Memory) -> ParseFault {
        ParseFault::Memory
    }
}
