ghost use Rattle.std.specs.Prelude.{◌≡◌};
ghost use Rattle.n1ql_value.specs.declared.value.Value.TheVariants as value;
ghost use Rattle.n1ql_value.specs.Logic.{truth_of};
ghost use Rattle.n1ql_funcs.specs.Truths.{truth_value};

use n1ql_value::Value;

/// What a condition comes to: one of the four values that N1QL's logic knows.
#[derive(Clone, Copy, Debug, PartialEq, Eq)]
pub enum Truth {
    Missing,
    Null,
    /// FALSE.
    No,
    /// TRUE.
    Yes,
}

impl Truth {
    /// The truth that a value counts as: what is none of TRUE, FALSE, NULL and MISSING counts as NULL.
    pub fn of(value: &Value) -> Truth
        ensures { truth_value result ≡ truth_of value.now }
    {
        match value {
            Value::Missing => Truth::Missing,
            Value::Bool(holds) => Truth::of_test(*holds),
            _ => Truth::Null,
        }
    }

    /// TRUE or FALSE.
    pub fn of_test(holds: bool) -> Truth
        ensures { truth_value result ≡ value.Bool holds }
    {
        if holds { Truth::Yes } else { Truth::No }
    }

    /// The value that the truth is.
    pub fn value(self) -> Value
        ensures { result ≡ truth_value self }
    {
        match self {
            Truth::Missing => Value::Missing,
            Truth::Null => Value::Null,
            Truth::No => Value::Bool(false),
            Truth::Yes => Value::Bool(true),
        }
    }
}
