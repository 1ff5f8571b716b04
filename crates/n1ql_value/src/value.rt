ghost use Rattle.std.specs.Prelude.{◌≡◌, IfOk};

use crate::memory::Memory;
use crate::pairs::Pairs;
use crate::text::Text;
use crate::vals::Vals;
use std::alloc::Global;

/// A value of N1QL: JSON (RFC 8259) with whole numbers alone, and MISSING.
#[cycle(value)]
#[derive(Debug, Drop)]
pub enum Value {
    Missing,
    Null,
    Bool(bool),
    Int(i64),
    Text(Text),
    Array(Vals),
    Object(Pairs),
}

impl Value {
    /// A copy of the value.
    ///
    /// # Errors
    ///
    /// `Memory` where it ran out.
    #[cycle(copies)]
    pub fn copy(&self, alloc: Global) -> Result<Value, Memory>
        ensures { IfOk result (λ v. v ≡ self.now) }
    {
        match self {
            Value::Missing => Ok(Value::Missing),
            Value::Null => Ok(Value::Null),
            Value::Bool(b) => Ok(Value::Bool(*b)),
            Value::Int(n) => Ok(Value::Int(*n)),
            Value::Text(text) => Ok(Value::Text(text.copy(alloc)?)),
            Value::Array(items) => Ok(Value::Array(items.copy(alloc)?)),
            Value::Object(pairs) => Ok(Value::Object(pairs.copy(alloc)?)),
        }
    }
}
