ghost use Rattle.std.specs.Prelude.{◌≡◌, IfOk};
ghost use Rattle.n1ql_parse.specs.inner.Parser as spec;

use n1ql_ast::{Names, UnresolvedExpr, UnresolvedExprs};
use n1ql_value::{Memory, Text};
use sqlite_items::{Boxed, Items};
use std::alloc::Global;

/// The names and the values of an object, equally many.
#[derive(Drop)]
pub struct ObjectFields {
    pub names: Names,
    pub values: UnresolvedExprs,
}

impl ObjectFields {
    /// No pairs yet.
    pub fn none(alloc: Global) -> ObjectFields
        ensures { result ≡ spec.no_fields }
    {
        ObjectFields {
            names: Names::new(alloc),
            values: Items::new(alloc),
        }
    }

    /// These pairs and one more behind them.
    pub fn with(self, name: Text, value: Boxed<UnresolvedExpr>) -> Result<ObjectFields, Memory>
        ensures { IfOk result (λ fields. fields ≡ spec.with_field self name value) }
    {
        let ObjectFields {
            mut names,
            mut values,
        } = self;
        names.push(name)?;
        values.push(value.into_inner())?;
        Ok(ObjectFields { names, values })
    }
}
