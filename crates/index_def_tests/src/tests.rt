use index_def::{DefFault, IndexDef, Reason, check};
use n1ql_ast::{Create, Expr, Exprs, Key, Keys, Names};
use n1ql_value::{Memory, Text, Value};
use sqlite_items::Boxed;
use std::alloc::Global;

/// A field of the document.
fn field(alloc: Global, name: &str) -> Result<Expr, Memory> {
    let name = Text::of(alloc, name)?;
    Ok(Expr::Field(Boxed::new(alloc, Expr::Doc)?, name))
}

/// So many keys, each a field.
fn fields(alloc: Global, count: u8) -> Result<Keys, Memory> {
    let mut keys = Keys::new(alloc);
    for _ in 0..count {
        keys.push(Key::Plain(field(alloc, "x")?))?;
    }
    Ok(keys)
}

/// `ALL ARRAY v FOR v IN t END`.
fn array_key(alloc: Global) -> Result<Key, Memory> {
    let var = Text::of(alloc, "v")?;
    let item = Expr::Var(Text::of(alloc, "v")?);
    let over = field(alloc, "t")?;
    Ok(Key::Each {
        distinct: false,
        item,
        var,
        over,
        when: None,
    })
}

/// So many array keys.
fn arrays(alloc: Global, count: u8) -> Result<Keys, Memory> {
    let mut keys = Keys::new(alloc);
    for _ in 0..count {
        keys.push(array_key(alloc)?)?;
    }
    Ok(keys)
}

/// The one key.
fn key(alloc: Global, e: Expr) -> Result<Keys, Memory> {
    let mut keys = Keys::new(alloc);
    keys.push(Key::Plain(e))?;
    Ok(keys)
}

/// An object of one pair.
fn options(alloc: Global, name: &str, value: Value) -> Result<Expr, Memory> {
    let mut names = Names::new(alloc);
    names.push(Text::of(alloc, name)?)?;
    let mut values = Exprs::new(alloc);
    values.push(Expr::Const(value))?;
    Ok(Expr::Build(names, values))
}

/// `CREATE INDEX ix ON ks(keys) WHERE filter WITH options`.
fn statement(
    names: (Text, Text),
    keys: Keys,
    filter: Option<Expr>,
    options: Option<Expr>,
) -> Create {
    Create {
        name: names.0,
        keyspace: names.1,
        keys,
        filter,
        options,
        primary: false,
    }
}

/// The names of the index and of the keyspace.
fn names(alloc: Global) -> Result<(Text, Text), Memory> {
    Ok((Text::of(alloc, "ix")?, Text::of(alloc, "ks")?))
}

/// The reason why a statement defines no index.
pub fn reason_of(alloc: Global, c: &Create) -> Result<Option<Reason>, Memory> {
    match check(alloc, c) {
        Ok(_) => Ok(None),
        Err(DefFault::Bad(reason)) => Ok(Some(reason)),
        Err(DefFault::Memory) => Err(Memory),
    }
}

/// The reason why keys alone make no index.
fn reason_of_keys(alloc: Global, keys: Keys) -> Result<Option<Reason>, Memory> {
    let c = statement(names(alloc)?, keys, None, None);
    reason_of(alloc, &c)
}

#[test]
fn too_many_keys(rt: HostRuntime) -> Result<(), Memory> {
    let alloc = rt.alloc();
    let sixteen = reason_of_keys(alloc, fields(alloc, 16)?)?;
    assert_eq!(rt; sixteen, None);
    let seventeen = reason_of_keys(alloc, fields(alloc, 17)?)?;
    assert_eq!(rt; seventeen, Some(Reason::TooManyKeys));
    Ok(())
}

#[test]
fn two_array_keys(rt: HostRuntime) -> Result<(), Memory> {
    let alloc = rt.alloc();
    let one = reason_of_keys(alloc, arrays(alloc, 1)?)?;
    assert_eq!(rt; one, None);
    let two = reason_of_keys(alloc, arrays(alloc, 2)?)?;
    assert_eq!(rt; two, Some(Reason::TwoArrays));
    Ok(())
}

#[test]
fn a_constant_key(rt: HostRuntime) -> Result<(), Memory> {
    let alloc = rt.alloc();
    let number = reason_of_keys(alloc, key(alloc, Expr::Const(Value::Int(1)))?)?;
    assert_eq!(rt; number, Some(Reason::ConstantKey));
    let meta = reason_of_keys(alloc, key(alloc, Expr::MetaOf(true))?)?;
    assert_eq!(rt; meta, None);
    Ok(())
}

/// The reason why an index on a field with an option is none.
fn reason_of_option(alloc: Global, name: &str, value: Value) -> Result<Option<Reason>, Memory> {
    let options = options(alloc, name, value)?;
    let c = with_options(alloc, options)?;
    reason_of(alloc, &c)
}

/// `CREATE INDEX ix ON ks(x) WITH options`.
fn with_options(alloc: Global, options: Expr) -> Result<Create, Memory> {
    let keys = fields(alloc, 1)?;
    let names = names(alloc)?;
    Ok(statement(names, keys, None, Some(options)))
}

#[test]
fn another_option(rt: HostRuntime) -> Result<(), Memory> {
    let alloc = rt.alloc();
    for (name, value, want) in [
        ("defer_build", Value::Bool(true), None),
        ("defer_build", Value::Int(1), Some(Reason::With)),
        ("num_replica", Value::Bool(true), Some(Reason::With)),
    ] {
        let reason = reason_of_option(alloc, name, value)?;
        assert_eq!(rt; reason, want);
    }
    Ok(())
}

fn may_be_sent<T: Send>() {}

#[test]
fn a_definition_may_go_to_another_thread(_rt: HostRuntime) {
    may_be_sent::<IndexDef>();
}
