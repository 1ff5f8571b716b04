ghost use Rattle.std.specs.Prelude.{◌≡◌, IfOk};
ghost use Rattle.n1ql_value.specs.Operators.{operation_of};

use crate::arithmetic::calculate;
use crate::comparison::compare;
use crate::logic::{and2, or2};
use crate::texts::join;
use n1ql_value::{Memory, Op, Value};
use std::alloc::Global;

/// The value of an operator between two values.
///
/// # Errors
///
/// `Memory` where memory ran out.
pub fn operate(alloc: Global, op: Op, a: &Value, b: &Value) -> Result<Value, Memory>
    ensures { IfOk result (λ v. v ≡ operation_of op a.now b.now) }
{
    match op {
        Op::Or => Ok(or2(a, b).value()),
        Op::And => Ok(and2(a, b).value()),
        Op::Eq | Op::Ne | Op::Lt | Op::Le | Op::Gt | Op::Ge => Ok(compare(op, a, b).value()),
        Op::Add | Op::Sub | Op::Mul | Op::Mod => Ok(calculate(op, a, b)),
        Op::Cat => join(alloc, a, b),
    }
}
