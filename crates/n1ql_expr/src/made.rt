//! Values that are made of the values of the parts.

ghost use Rattle.std.specs.Prelude.{◌≡◌, IfOk, length, map, ◌++◌, ◌∷◌, [], None, OnOk, OnErr, if◌then◌else◌};
ghost use Rattle.std.specs.Option.{option_copied, option_map};
ghost use Rattle.std.specs.List.{zip};
ghost use Rattle.n1ql_value.specs.declared.value.Value.TheVariants.{Missing};
ghost use Rattle.n1ql_value.specs.Datum.{datum_of, pair_of};
ghost use Rattle.n1ql_value.specs.Kinds.{array_in, or_missing};
ghost use Rattle.n1ql_value.specs.Kinds as kinds;
ghost use Rattle.n1ql_value.specs.declared.value.Value.TheVariants as values;
ghost use Rattle.n1ql_value.specs.Constructors.{array_of, object_of};
ghost use Rattle.n1ql_value.specs.Constructors as constructors;
ghost use Rattle.n1ql_ast.specs.Evaluation.{elements_given, test_of};
ghost use Rattle.n1ql_ast.specs.Evaluation as spec;

use n1ql_ast::{Names, Test};
use n1ql_funcs::{Truth, is_missing, is_null, is_valued};
use n1ql_value::{Memory, Pairs, Text, Vals, Value};
use std::alloc::Global;

/// META: the object of the document's id, or MISSING where there is no document or it is that of another name.
pub fn meta(alloc: Global, own: bool, id: Option<&Text>) -> Result<Value, Memory>
    ensures { IfOk result (λ v. v ≡ (if own then or_missing (option_map spec.meta_of (option_copied id.entry)) else Missing)) }
{
    match id {
        Some(id) if own => meta_of(alloc, id),
        _ => Ok(Value::Missing),
    }
}

/// META of the document with an id.
fn meta_of(alloc: Global, id: &Text) -> Result<Value, Memory>
    ensures { IfOk result (λ v. v ≡ spec.meta_of id.now) }
{
    let mut pairs = Pairs::new(alloc);
    let id = Value::Text(id.copy(alloc)?);
    pairs.put(Text::of(alloc, "id")?, id)?;
    Ok(Value::Object(pairs))
}

/// What IS gives.
pub fn tested(test: Test, value: &Value) -> Value
    ensures { result ≡ test_of test value.now }
{
    match test {
        Test::Missing => Value::Bool(is_missing(value)),
        Test::Valued => Value::Bool(is_valued(value)),
        Test::Null if is_missing(value) => Value::Missing,
        Test::Null => Value::Bool(is_null(value)),
    }
}

/// What is over something that is no array: MISSING over MISSING, else NULL.
pub fn without_elements(value: &Value) -> Value
    requires { array_in value.now ≡ None }
    ensures { result ≡ (if kinds.is_missing value.now then Missing else values.Null) }
{
    if is_missing(value) {
        Value::Missing
    } else {
        Value::Null
    }
}

/// The values as arguments.
pub fn arguments(alloc: Global, values: Vec<Value>) -> Result<Vals, Memory>
    ensures { IfOk result (λ vs. vs ≡ map datum_of values.items) }
{
    let mut made = Vals::new(alloc);
    for value in values {
        made.push(value)?;
    }
    Ok(made)
}

/// An array of the values, where MISSING becomes NULL.
pub fn array(alloc: Global, values: Vec<Value>) -> Result<Value, Memory>
    ensures { IfOk result (λ v. v ≡ array_of (map datum_of values.items)) }
{
    let mut made = Vals::new(alloc);
    for value in values {
        made.push(null_for_missing(value))?;
    }
    Ok(Value::Array(made))
}

/// The value, NULL in place of MISSING.
#[tactic(auto, using(crate::proofs::Values::read_back))]
fn null_for_missing(value: Value) -> Value
    ensures { datum_of result ≡ constructors.null_for_missing (datum_of value) }
{
    if is_missing(&value) {
        Value::Null
    } else {
        value
    }
}

/// An object of names and values, without those that are MISSING. The last of a repeated name counts.
pub fn object(alloc: Global, names: &Names, values: Vec<Value>) -> Result<Value, Memory>
    requires { length names.now ≡ length values.items }
    ensures { IfOk result (λ v. v ≡ object_of (zip names.now (map datum_of values.items))) }
{
    let mut made = Pairs::new(alloc);
    let names = names.as_slice();
    let mut at = 0;
    for value in values {
        put_given(alloc, &mut made, &names[at], value)?;
        at += 1;
    }
    Ok(Value::Object(made))
}

/// Puts a value that isn't MISSING under a name.
#[tactic(auto, using(crate::proofs::Values::read_back))]
fn put_given(alloc: Global, made: &mut Pairs, name: &Text, value: Value) -> Result<(), Memory>
    ensures { OnOk result (made.new ≡ constructors.with_given made.old (pair_of (name.now, value))) }
{
    if !is_missing(&value) {
        made.put(name.copy(alloc)?, value)?;
    }
    Ok(())
}

/// Adds a value that isn't MISSING at the end.
#[tactic(auto, using(crate::proofs::Values::read_back))]
pub fn push_given(made: &mut Vals, value: Value) -> Result<(), Memory>
    ensures ok { OnOk result (made.new ≡ made.old ++ elements_given (value ∷ [])) }
    ensures err { OnErr result (made.new ≡ made.old) }
{
    if !is_missing(&value) {
        made.push(value)?;
    }
    Ok(())
}
