ghost use Rattle.std.specs.Prelude.{◌≡◌};

use n1ql_value::Memory;

/// Why a text has no tokens.
#[derive(Clone, Copy, Debug, PartialEq, Eq)]
pub enum LexFault {
    /// No token stands at this place, a byte place in the text.
    Fault { at: usize },
    /// Memory ran out.
    Memory,
}

impl From<Memory> for LexFault {
    ghost use Rattle.std.specs.Prelude.{◌≡◌};
    ghost use Rattle.n1ql_lex.specs.declared.lex_fault.LexFault.TheVariants.{Memory};

    ghost from_gives = { λ _ fault. fault ≡ Memory };

    fn from(_memory: Memory) -> LexFault {
        LexFault::Memory
    }
}
