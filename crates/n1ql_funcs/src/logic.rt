ghost use Rattle.std.specs.Prelude.{◌≡◌};
ghost use Rattle.n1ql_value.specs.Logic.{and_of, or_of, not_of};
ghost use Rattle.n1ql_funcs.specs.Truths.{truth_value};

use crate::truth::Truth;
use n1ql_value::Value;

/// `a AND b` by the table of the N1QL reference: FALSE where one is FALSE, else MISSING, else NULL where one is, else TRUE.
pub fn and2(a: &Value, b: &Value) -> Truth
    ensures { truth_value result ≡ and_of a.now b.now }
{
    match (Truth::of(a), Truth::of(b)) {
        (Truth::No, _) | (_, Truth::No) => Truth::No,
        (Truth::Missing, _) | (_, Truth::Missing) => Truth::Missing,
        (Truth::Null, _) | (_, Truth::Null) => Truth::Null,
        (Truth::Yes, Truth::Yes) => Truth::Yes,
    }
}

/// `a OR b` by the table of the N1QL reference: TRUE where one is TRUE, else NULL, else MISSING where one is, else FALSE.
pub fn or2(a: &Value, b: &Value) -> Truth
    ensures { truth_value result ≡ or_of a.now b.now }
{
    match (Truth::of(a), Truth::of(b)) {
        (Truth::Yes, _) | (_, Truth::Yes) => Truth::Yes,
        (Truth::Null, _) | (_, Truth::Null) => Truth::Null,
        (Truth::Missing, _) | (_, Truth::Missing) => Truth::Missing,
        (Truth::No, Truth::No) => Truth::No,
    }
}

/// `NOT a` by the table of the N1QL reference: NULL and MISSING stay.
pub fn not1(a: &Value) -> Truth
    ensures { truth_value result ≡ not_of a.now }
{
    match Truth::of(a) {
        Truth::No => Truth::Yes,
        Truth::Yes => Truth::No,
        unknown => unknown,
    }
}
