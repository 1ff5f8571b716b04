ghost use Rattle.std.specs.Prelude.{◌≡◌};
ghost use Rattle.std.specs.Ordering.{nat_cmp, is_eq};
ghost use Rattle.std.specs.Cmp.Lexicographic.{slice_cmp};

use n1ql_value::{Text, Value};

/// A bound name with its value, borrowed from wherever they stand.
#[derive(Clone, Copy)]
pub struct Binding<'a> {
    pub name: &'a Text,
    pub value: &'a Value,
}

impl<'a> Binding<'a> {
    /// Whether this name is the one that is bound.
    pub fn binds(&self, name: &Text) -> bool
        ensures { result ≡ is_eq (slice_cmp nat_cmp name.now self.now.name.now) }
    {
        name.cmp(self.name).is_eq()
    }
}
