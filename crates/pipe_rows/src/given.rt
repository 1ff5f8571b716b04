//! Pairs that are put into the object of a result.

ghost use Rattle.std.specs.Prelude.{◌≡◌, map, unwrap_or, [], IfOk, OnOk};
ghost use Rattle.std.specs.List.{fold};
ghost use Rattle.std.specs.Option.{option_copied};
ghost use Rattle.n1ql_value.specs.Constructors.{with_given};
ghost use Rattle.n1ql_value.specs.Datum.{datum_of, pair_of};
ghost use Rattle.n1ql_value.specs.Kinds.{object_in, or_missing};

use n1ql_value::{Memory, Pairs, Text, Value, is_missing};
use std::alloc::Global;

/// Puts a value that isn't MISSING under a name.
#[tactic(auto, using(crate::proofs::Pairing::read_back))]
pub fn put_given(pairs: &mut Pairs, name: Text, value: Value) -> Result<(), Memory>
    ensures { OnOk result (pairs.new ≡ with_given pairs.old (name, datum_of value)) }
{
    if !is_missing(&value) {
        pairs.put(name, value)?;
    }
    Ok(())
}

/// Puts the pairs of a value, where it is an object.
pub fn put_object(alloc: Global, pairs: &mut Pairs, value: Option<&Value>) -> Result<(), Memory>
    ensures { OnOk result (pairs.new ≡ fold with_given pairs.old (unwrap_or (object_in (or_missing (option_copied value.entry))) [])) }
{
    match value {
        Some(Value::Object(more)) => put_pairs(alloc, pairs, more.as_slice()),
        _ => Ok(()),
    }
}

/// Puts pairs, in order.
fn put_pairs(alloc: Global, pairs: &mut Pairs, more: &[(Text, Value)]) -> Result<(), Memory>
    ensures { OnOk result (pairs.new ≡ fold with_given pairs.old (map pair_of more.now)) }
{
    for pair in more {
        put_given(pairs, pair.0.copy(alloc)?, pair.1.copy(alloc)?)?;
    }
    Ok(())
}
