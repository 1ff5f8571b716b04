ghost use Rattle.std.specs.Prelude.{◌≡◌, IfOk};
ghost use Rattle.index_def.specs.Keys as spec;

use n1ql_value::{Memory, Row, Text, Vals, Value, is_missing};
use std::alloc::Global;

/// A row for each tuple whose leading value isn't MISSING.
pub fn rows_of_tuples(alloc: Global, tuples: Vec<Vals>, id: &Text) -> Result<Vec<Row>, Memory>
    ensures { IfOk result (λ rows. rows.items ≡ spec.rows_of_tuples tuples.items id.now) }
{
    let mut rows = Vec::new(alloc);
    for keys in tuples {
        if has_leading(&keys) {
            let id = id.copy(alloc)?;
            rows.push(Row { keys, id })?;
        }
    }
    Ok(rows)
}

/// Whether the leading value isn't MISSING.
fn has_leading(tuple: &Vals) -> bool
    ensures { result ≡ spec.has_leading tuple.now }
{
    !is_missing(tuple.get_or(0, &Value::Missing))
}
