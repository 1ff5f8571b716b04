//! The tuples of the values of keys.

ghost use Rattle.std.specs.Prelude.{◌≡◌, ◌++◌, ◌∷◌, [], map, IfOk, OnOk};
ghost use Rattle.std.specs.List.{All};
ghost use Rattle.n1ql_value.specs.Datum.{datum_of};
ghost use Rattle.n1ql_ast.specs.FormedStatements.{IsFormedKey};
ghost use Rattle.n1ql_expr.specs.Scopes.{environment_of};
ghost use Rattle.index_def.specs.Keys as spec;
ghost use Rattle.key_eval.specs.Tuples.{extended};

use crate::values::values_of;
use n1ql_ast::Key;
use n1ql_expr::Scope;
use n1ql_value::{Memory, Vals, Value};
use std::alloc::Global;

/// The tuples of a value of each key, in all combinations.
pub fn tuples_of<'a>(
    alloc: Global,
    keys: &'a [Key],
    scope: &'a Scope<'a>,
) -> Result<Vec<Vals>, Memory>
    requires { All IsFormedKey keys.now }
    ensures { IfOk result (λ tuples. tuples.items ≡ spec.tuples_of keys.now (environment_of scope.now)) }
{
    let mut tuples = Vec::new(alloc);
    tuples.push(Vals::new(alloc))?;
    for key in keys {
        let values = values_of(alloc, key, &*scope)?;
        tuples = longer(alloc, tuples, values)?;
    }
    Ok(tuples)
}

/// Each tuple with each of the values at its end: the last tuple takes the values themselves, those before it take copies.
fn longer(alloc: Global, mut tuples: Vec<Vals>, values: Vec<Value>) -> Result<Vec<Vals>, Memory>
    ensures { IfOk result (λ made. made.items ≡ extended tuples.items (map datum_of values.items)) }
{
    let Some(last) = tuples.pop() else {
        return Ok(tuples);
    };
    let mut made = longer_by_copies(alloc, tuples, values.as_slice())?;
    add_moved(alloc, last, values, &mut made)?;
    Ok(made)
}

/// Adds the tuple with each of the values at its end: the last value takes the tuple itself, those before it take copies.
fn add_moved(
    alloc: Global,
    tuple: Vals,
    mut values: Vec<Value>,
    made: &mut Vec<Vals>,
) -> Result<(), Memory>
    ensures { OnOk result (made.new.items ≡ made.old.items ++ map (λ d. tuple ++ d ∷ []) (map datum_of values.items)) }
{
    let Some(last) = values.pop() else {
        return Ok(());
    };
    add_to_copies(alloc, &tuple, values, made)?;
    let mut tuple = tuple;
    tuple.push(last)?;
    made.push(tuple)?;
    Ok(())
}

/// Adds a copy of the tuple with each of the values at its end.
fn add_to_copies(
    alloc: Global,
    tuple: &Vals,
    values: Vec<Value>,
    made: &mut Vec<Vals>,
) -> Result<(), Memory>
    ensures { OnOk result (made.new.items ≡ made.old.items ++ map (λ d. tuple.now ++ d ∷ []) (map datum_of values.items)) }
{
    for value in values {
        let mut copy = tuple.copy(alloc)?;
        copy.push(value)?;
        made.push(copy)?;
    }
    Ok(())
}

/// Each tuple with a copy of each of the values at its end.
fn longer_by_copies(alloc: Global, tuples: Vec<Vals>, values: &[Value]) -> Result<Vec<Vals>, Memory>
    ensures { IfOk result (λ made. made.items ≡ extended tuples.items (map datum_of values.now)) }
{
    let mut made = Vec::new(alloc);
    for tuple in tuples {
        add_longer(alloc, tuple, values, &mut made)?;
    }
    Ok(made)
}

/// Adds the tuple with each of the values at its end. The last one takes the tuple itself.
fn add_longer(
    alloc: Global,
    tuple: Vals,
    values: &[Value],
    made: &mut Vec<Vals>,
) -> Result<(), Memory>
    ensures { OnOk result (made.new.items ≡ made.old.items ++ map (λ d. tuple ++ d ∷ []) (map datum_of values.now)) }
{
    let Some((last, others)) = values.split_last() else {
        return Ok(());
    };
    add_copies(alloc, &tuple, others, made)?;
    let mut tuple = tuple;
    tuple.push(last.copy(alloc)?)?;
    made.push(tuple)?;
    Ok(())
}

/// Adds a copy of the tuple with each of the values at its end.
fn add_copies(
    alloc: Global,
    tuple: &Vals,
    values: &[Value],
    made: &mut Vec<Vals>,
) -> Result<(), Memory>
    ensures { OnOk result (made.new.items ≡ made.old.items ++ map (λ d. tuple.now ++ d ∷ []) (map datum_of values.now)) }
{
    for value in values {
        let mut copy = tuple.copy(alloc)?;
        copy.push(value.copy(alloc)?)?;
        made.push(copy)?;
    }
    Ok(())
}
