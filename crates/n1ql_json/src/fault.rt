use n1ql_value::Memory;
use thiserror::Error;

/// Why bytes were not read as a value.
#[derive(Clone, Copy, Debug, PartialEq, Eq, Drop, Error)]
pub enum JsonFault {
    /// The bytes are not JSON (RFC 8259): not UTF-8, not of its grammar, or nested deeper than 127.
    #[error("the text is not JSON")]
    Syntax,
    /// A number in the text is not written as an integer from -2^63 to 2^63 - 1.
    #[error("a number is not an integer of 64 bits")]
    Number,
    /// Memory ran out.
    #[error("memory ran out")]
    Memory,
}

impl From<Memory> for JsonFault {
    ghost use Rattle.std.specs.Prelude.{◌≡◌};
    ghost use Rattle.n1ql_json.specs.declared.fault.JsonFault.TheVariants as fault;

    ghost from_gives = { λ _ e. e ≡ fault.Memory };

    fn from(_ran_out: Memory) -> JsonFault {
        JsonFault::Memory
    }
}
