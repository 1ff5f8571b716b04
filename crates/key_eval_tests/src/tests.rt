ghost use Rattle.std.specs.Prelude.{IfOk};
ghost use Rattle.n1ql_ast.specs.FormedStatements.{IsFormedCreate};
ghost use Rattle.index_def.specs.Forms.{IsFormed};

use index_def::{IndexDef, check};
use key_eval::keys_of;
use n1ql_ast::{Create, Ddl};
use n1ql_parse::ddl;
use n1ql_value::{Memory, Pairs, Rows, Text, Vals, Value, collate};
use std::alloc::Global;
use vb_store::Mutation;

/// The definition that a statement asks for. A statement that is none, or defines nothing, ends the test too.
fn index_on(alloc: Global, statement: &str) -> Result<IndexDef, Memory>
    ensures { IfOk result IsFormed }
{
    match ddl(alloc, statement) {
        Ok(Ddl::Create(create)) => defined(alloc, &create),
        _ => Err(Memory),
    }
}

fn defined(alloc: Global, create: &Create) -> Result<IndexDef, Memory>
    requires { IsFormedCreate create.now }
    ensures { IfOk result IsFormed }
{
    match check(alloc, create) {
        Ok(def) => Ok(def),
        Err(_) => Err(Memory),
    }
}

const X_AND_Y: &str = "CREATE INDEX ix ON ks(x, y)";

const DISTINCT_ELEMENTS: &str = "CREATE INDEX ix ON ks(DISTINCT ARRAY v FOR v IN t END)";

const ALL_ELEMENTS: &str = "CREATE INDEX ix ON ks(ALL ARRAY v FOR v IN t END)";

const AROUND_AN_ARRAY: &str =
    "CREATE INDEX ix ON ks(x, ALL ARRAY v FOR v IN t WHEN v IS VALUED END, y)";

/// The rows of the document `a`.
fn rows_of(alloc: Global, def: &IndexDef, body: Option<Value>) -> Result<Rows, Memory>
    requires { IsFormed def.now }
{
    let id = Text::of(alloc, "a")?;
    let m = Mutation {
        vb: 0,
        seqno: 1,
        id,
        body,
    };
    keys_of(alloc, def, &m)
}

/// `{"x": 0, "y": y}`.
fn document(alloc: Global, y: &Value) -> Result<Value, Memory> {
    let mut pairs = Pairs::new(alloc);
    pairs.put(Text::of(alloc, "x")?, Value::Int(0))?;
    pairs.put(Text::of(alloc, "y")?, y.copy(alloc)?)?;
    Ok(Value::Object(pairs))
}

/// Whether a row has a value as its key at a place.
fn has_key(rows: &Rows, row: usize, at: usize, value: &Value) -> bool {
    match rows.get(row) {
        Some(row) => collate(row.keys.get_or(at, &Value::Missing), value).is_eq(),
        None => false,
    }
}

/// Whether the rows are the one with the keys 0 and y.
fn is_row_of(rows: &Rows, y: &Value) -> bool {
    rows.len() == 1 && has_key(rows, 0, 0, &Value::Int(0)) && has_key(rows, 0, 1, y)
}

/// Whether the row of a y has it as its second key.
fn keeps_y(alloc: Global, def: &IndexDef, y: &Value) -> Result<bool, Memory>
    requires { IsFormed def.now }
{
    let body = document(alloc, y)?;
    let rows = rows_of(alloc, def, Some(body))?;
    Ok(is_row_of(&rows, y))
}

/// The numbers 1, 1 and NULL.
fn one_one_null(alloc: Global) -> Result<Vals, Memory> {
    let mut values = Vals::new(alloc);
    values.push(Value::Int(1))?;
    values.push(Value::Int(1))?;
    values.push(Value::Null)?;
    Ok(values)
}

/// `{"t": [1, 1, null]}`.
fn with_elements(alloc: Global) -> Result<Value, Memory> {
    let mut pairs = Pairs::new(alloc);
    let values = one_one_null(alloc)?;
    pairs.put(Text::of(alloc, "t")?, Value::Array(values))?;
    Ok(Value::Object(pairs))
}

/// The rows of its elements.
fn rows_of_elements(alloc: Global, statement: &str) -> Result<Rows, Memory> {
    let def = index_on(alloc, statement)?;
    let body = with_elements(alloc)?;
    rows_of(alloc, &def, Some(body))
}

#[test]
fn second_keys_of_every_kind(rt: HostRuntime) -> Result<(), Memory> {
    let alloc = rt.alloc();
    let def = index_on(alloc, X_AND_Y)?;
    for y in [
        Value::Null,
        Value::Bool(false),
        Value::Bool(true),
        Value::Int(-1),
        Value::Array(one_one_null(alloc)?),
        Value::Object(Pairs::new(alloc)),
    ] {
        let kept = keeps_y(alloc, &def, &y)?;
        assert!(rt; kept);
    }
    Ok(())
}

#[test]
fn rows_want_a_leading_key(rt: HostRuntime) -> Result<(), Memory> {
    let alloc = rt.alloc();
    let def = index_on(alloc, X_AND_Y)?;
    let without_x = rows_of(alloc, &def, Some(with_elements(alloc)?))?;
    assert_eq!(rt; without_x.len(), 0);
    let deleted = rows_of(alloc, &def, None)?;
    assert_eq!(rt; deleted.len(), 0);
    Ok(())
}

#[test]
fn distinct_elements_have_one_row(rt: HostRuntime) -> Result<(), Memory> {
    let rows = rows_of_elements(rt.alloc(), DISTINCT_ELEMENTS)?;
    assert_eq!(rt; rows.len(), 2);
    assert!(rt; has_key(&rows, 0, 0, &Value::Null));
    assert!(rt; has_key(&rows, 1, 0, &Value::Int(1)));
    Ok(())
}

#[test]
fn all_elements_have_a_row_each(rt: HostRuntime) -> Result<(), Memory> {
    let rows = rows_of_elements(rt.alloc(), ALL_ELEMENTS)?;
    assert_eq!(rt; rows.len(), 3);
    assert!(rt; has_key(&rows, 1, 0, &Value::Int(1)));
    assert!(rt; has_key(&rows, 2, 0, &Value::Int(1)));
    Ok(())
}

/// `{"t": [1, 1, null], "x": 0, "y": 5}`.
fn with_all(alloc: Global) -> Result<Value, Memory> {
    let mut pairs = Pairs::new(alloc);
    pairs.put(Text::of(alloc, "t")?, Value::Array(one_one_null(alloc)?))?;
    pairs.put(Text::of(alloc, "x")?, Value::Int(0))?;
    pairs.put(Text::of(alloc, "y")?, Value::Int(5))?;
    Ok(Value::Object(pairs))
}

// WHEN passes over NULL, and each row has the keys beside the array key too.
#[test]
fn an_array_key_between_others(rt: HostRuntime) -> Result<(), Memory> {
    let alloc = rt.alloc();
    let def = index_on(alloc, AROUND_AN_ARRAY)?;
    let rows = rows_of(alloc, &def, Some(with_all(alloc)?))?;
    assert_eq!(rt; rows.len(), 2);
    assert!(rt; has_key(&rows, 0, 0, &Value::Int(0)));
    assert!(rt; has_key(&rows, 0, 1, &Value::Int(1)));
    assert!(rt; has_key(&rows, 1, 2, &Value::Int(5)));
    Ok(())
}

const AN_ARRAY_KEY_FIRST: &str = "CREATE INDEX ix ON ks(ALL ARRAY v FOR v IN t WHEN v > 1 END, x)";

/// The numbers 1, 2 and 3.
fn one_to_three(alloc: Global) -> Result<Vals, Memory> {
    let mut values = Vals::new(alloc);
    for n in 1..4 {
        values.push(Value::Int(n))?;
    }
    Ok(values)
}

/// `{"t": [1, 2, 3], "x": 5}`.
fn with_numbers(alloc: Global) -> Result<Value, Memory> {
    let mut pairs = Pairs::new(alloc);
    pairs.put(Text::of(alloc, "t")?, Value::Array(one_to_three(alloc)?))?;
    pairs.put(Text::of(alloc, "x")?, Value::Int(5))?;
    Ok(Value::Object(pairs))
}

/// Whether the row at a place has the keys n and 5.
fn is_row_with_five(rows: &Rows, row: usize, n: i64) -> bool {
    has_key(rows, row, 0, &Value::Int(n)) && has_key(rows, row, 1, &Value::Int(5))
}

// WHEN passes over 1, and the leading key is that of an element.
#[test]
fn an_array_key_before_another(rt: HostRuntime) -> Result<(), Memory> {
    let alloc = rt.alloc();
    let def = index_on(alloc, AN_ARRAY_KEY_FIRST)?;
    let rows = rows_of(alloc, &def, Some(with_numbers(alloc)?))?;
    assert_eq!(rt; rows.len(), 2);
    assert!(rt; is_row_with_five(&rows, 0, 2));
    assert!(rt; is_row_with_five(&rows, 1, 3));
    Ok(())
}
