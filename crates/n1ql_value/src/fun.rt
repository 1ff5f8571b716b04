ghost use Rattle.std.specs.Prelude.{◌≡◌};
ghost use Rattle.n1ql_value.specs.Functions.{function_of, least_count, most_count, name_of};
ghost use Rattle.std.specs.Str.{str_eq_ignore_ascii_case};

use crate::words::same_word;

/// A function of the language.
#[derive(Clone, Copy, Debug, PartialEq, Eq)]
pub enum Fun {
    Abs,
    ArrayLength,
    ArrayContains,
    Contains,
    Greatest,
    Least,
    IfMissing,
    IfNull,
    IfMissingOrNull,
    Length,
    ObjectNames,
    ToString,
    /// The function TYPE.
    TypeOf,
}

const FUNCTIONS: [Fun; 13] = [
    Fun::Abs,
    Fun::ArrayLength,
    Fun::ArrayContains,
    Fun::Contains,
    Fun::Greatest,
    Fun::Least,
    Fun::IfMissing,
    Fun::IfNull,
    Fun::IfMissingOrNull,
    Fun::Length,
    Fun::ObjectNames,
    Fun::ToString,
    Fun::TypeOf,
];

impl Fun {
    /// The function that a name is without regard to ASCII case, or `None` where it is none.
    #[tactic(auto, unfolding(crate::specs::Functions::function_of))]
    pub fn by_name(name: &str) -> Option<Fun>
        ensures { result ≡ function_of name.now }
    {
        for fun in FUNCTIONS {
            if same_word(name, fun.name()) {
                return Some(fun);
            }
        }
        None
    }

    /// The name, in capitals.
    pub fn name(self) -> &'static str
        ensures { result.now ≡ name_of self }
    {
        match self {
            Fun::Abs => "ABS",
            Fun::ArrayLength => "ARRAY_LENGTH",
            Fun::ArrayContains => "ARRAY_CONTAINS",
            Fun::Contains => "CONTAINS",
            Fun::Greatest => "GREATEST",
            Fun::Least => "LEAST",
            Fun::IfMissing => "IFMISSING",
            Fun::IfNull => "IFNULL",
            Fun::IfMissingOrNull => "IFMISSINGORNULL",
            Fun::Length => "LENGTH",
            Fun::ObjectNames => "OBJECT_NAMES",
            Fun::ToString => "TOSTRING",
            Fun::TypeOf => "TYPE",
        }
    }

    /// The least number of arguments that the function takes.
    pub fn least_arguments(self) -> usize
        ensures { result ≡ least_count self }
    {
        match self {
            Fun::ArrayContains
            | Fun::Contains
            | Fun::IfMissing
            | Fun::IfNull
            | Fun::IfMissingOrNull => 2,
            _ => 1,
        }
    }

    /// The greatest number of arguments that the function takes, or `None` where any number may follow.
    pub fn most_arguments(self) -> Option<usize>
        ensures { result ≡ most_count self }
    {
        match self {
            Fun::Greatest | Fun::Least | Fun::IfMissing | Fun::IfNull | Fun::IfMissingOrNull => {
                None
            }
            Fun::ArrayContains | Fun::Contains => Some(2),
            _ => Some(1),
        }
    }
}
