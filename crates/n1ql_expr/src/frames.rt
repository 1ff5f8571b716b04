ghost use Rattle.std.specs.Prelude.{◌≡◌};
ghost use Rattle.std.specs.Option.{option_copied};
ghost use Rattle.n1ql_value.specs.Names.{under_name};
ghost use Rattle.n1ql_expr.specs.Scopes.{locals_of};

use crate::binding::Binding;
use n1ql_value::{Text, Value};

/// The names that ANY, EVERY, ARRAY and FIRST bind around an expression, a frame for each.
#[derive(Clone, Copy)]
pub enum Frames<'a> {
    Outermost,
    Inside {
        outer: &'a Frames<'a>,
        local: Binding<'a>,
    },
}

impl<'a> Frames<'a> {
    /// The value of the innermost frame of a name.
    pub fn bound_to(&self, name: &Text) -> Option<&'a Value>
        ensures { option_copied result ≡ under_name name.now (locals_of self.now) }
    {
        match self {
            Frames::Outermost => None,
            Frames::Inside { outer, local } => {
                if local.binds(name) {
                    Some(local.value)
                } else {
                    outer.bound_to(name)
                }
            }
        }
    }
}
