use n1ql_value::Memory;
use std::alloc::AllocError;

/// Why reading stopped.
#[derive(Clone, Copy, Debug, PartialEq, Eq)]
pub enum ParseStop {
    /// No text goes on here: this many tokens are left, the one at the fault with them.
    Fault { left: usize },
    /// Memory ran out.
    Memory,
}

impl From<Memory> for ParseStop {
    ghost use Rattle.std.specs.Prelude.{◌≡◌};
    ghost use Rattle.n1ql_parse.specs.declared.tokens.parse_stop.ParseStop.TheVariants.{Memory};

    ghost from_gives = { λ _ stop. stop ≡ Memory };

    fn from(_memory: Memory) -> ParseStop {
        ParseStop::Memory
    }
}

impl From<AllocError> for ParseStop {
    ghost use Rattle.std.specs.Prelude.{◌≡◌};
    ghost use Rattle.n1ql_parse.specs.declared.tokens.parse_stop.ParseStop.TheVariants.{Memory};

    ghost from_gives = { λ _ stop. stop ≡ Memory };

    fn from(_error: AllocError) -> ParseStop {
        ParseStop::Memory
    }
}
