ghost use Rattle.std.specs.Prelude.{◌≡◌, IsTrue};
ghost use Rattle.std.specs.Option.{option_map};
ghost use Rattle.n1ql_value.specs.declared.value.Value.TheVariants as value;
ghost use Rattle.n1ql_value.specs.Kinds.{or_null};
ghost use Rattle.n1ql_value.specs.Arithmetic.{arithmetic_of, is_arithmetic, negation_of, result_of};

use n1ql_value::{Op, Value};

/// `+`, `-`, `*` or `%`: MISSING where an operand is MISSING, else NULL where one isn't a number, where the result is past
/// 64 bits, or by 0. The remainder has the sign of the first operand. `op` has to be one of the four.
pub fn calculate(op: Op, a: &Value, b: &Value) -> Value
    requires { IsTrue (is_arithmetic op) }
    ensures { result ≡ arithmetic_of op a.now b.now }
{
    match (a, b) {
        (Value::Missing, _) | (_, Value::Missing) => Value::Missing,
        (Value::Int(x), Value::Int(y)) => number(calculated(op, *x, *y)),
        _ => Value::Null,
    }
}

/// The unary minus: MISSING of MISSING, NULL of what isn't a number and of -2^63.
pub fn negate(a: &Value) -> Value
    ensures { result ≡ negation_of a.now }
{
    match a {
        Value::Missing => Value::Missing,
        Value::Int(n) => number(n.checked_neg()),
        _ => Value::Null,
    }
}

/// A number, or NULL where there is none.
pub(crate) fn number(found: Option<i64>) -> Value
    ensures { result ≡ or_null (option_map value.Int found) }
{
    match found {
        Some(n) => Value::Int(n),
        None => Value::Null,
    }
}

/// What an operator makes of two numbers, None where it makes no number of 64 bits.
fn calculated(op: Op, x: i64, y: i64) -> Option<i64>
    requires { IsTrue (is_arithmetic op) }
    ensures { or_null (option_map value.Int result) ≡ result_of op x y }
{
    match op {
        Op::Add => x.checked_add(y),
        Op::Sub => x.checked_sub(y),
        Op::Mul => x.checked_mul(y),
        Op::Mod => remainder(x, y),
        _ => unreachable!(),
    }
}

/// The remainder of a division that cuts off, None by 0. That of -2^63 by -1 is 0, though the quotient is past 64 bits.
fn remainder(x: i64, y: i64) -> Option<i64>
    ensures { or_null (option_map value.Int result) ≡ result_of Op.Mod x y }
{
    if y == 0 {
        None
    } else {
        Some(x.wrapping_rem(y))
    }
}
