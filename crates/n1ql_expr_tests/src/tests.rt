ghost use Rattle.std.specs.Prelude.{◌≡◌, ◌&&◌, ◌==◌, length, map};
ghost use Rattle.std.specs.Option.{option_map};
ghost use Rattle.n1ql_ast.specs.Forms.{all_hold, held_if_any, is_well_formed, takes_count};

use crate::tables::{
    DOCUMENT, N, Plain, Tree, V, cases, conjunctions, constructors, different, functions, hidden,
    items, names, operators, paths, tests_of_elements,
};
use Plain::{Array, Int, Missing, Null, Object};
use Tree::{Any, Build, Call, Case, Each, Every, Field, First, Is, List, Name, Of, Place, Two};
use n1ql_ast::{Expr, Exprs, Names, Test};
use n1ql_expr::{Binding, Conjuncts, Env, Scope, conjuncts, copy, eval, same};
use n1ql_value::{Fun, Memory, Op, Pairs, Text, Vals, Value, collate};
use sqlite_items::Boxed;
use std::alloc::Global;

#[cycle(making)]
fn made(alloc: Global, plain: &Plain) -> Result<Value, Memory> {
    match plain {
        Missing => Ok(Value::Missing),
        Null => Ok(Value::Null),
        Plain::Truth(holds) => Ok(Value::Bool(*holds)),
        Int(n) => Ok(Value::Int(*n)),
        Plain::Text(text) => Ok(Value::Text(Text::of(alloc, text)?)),
        Array(items) => array(alloc, items),
        Object(entries) => object(alloc, entries),
    }
}

#[cycle(making)]
fn array(alloc: Global, items: &[Plain]) -> Result<Value, Memory> {
    let mut vals = Vals::new(alloc);
    for item in items {
        vals.push(made(alloc, item)?)?;
    }
    Ok(Value::Array(vals))
}

#[cycle(making)]
fn object(alloc: Global, entries: &[(&str, Plain)]) -> Result<Value, Memory> {
    let mut pairs = Pairs::new(alloc);
    for (name, value) in entries {
        pairs.put(Text::of(alloc, name)?, made(alloc, value)?)?;
    }
    Ok(Value::Object(pairs))
}

/// A part of an expression, or that memory ran out.
type Part = Result<Boxed<Expr>, Memory>;

type Parts = Result<Exprs, Memory>;

type PartIfAny = Result<Option<Boxed<Expr>>, Memory>;

#[cycle(building)]
fn built(alloc: Global, tree: &Tree) -> Result<Expr, Memory> {
    match tree {
        Of(plain) => constant(alloc, plain),
        Tree::Doc => Ok(Expr::Doc),
        Tree::Meta(own) => Ok(Expr::MetaOf(*own)),
        Name(name) => variable(alloc, name),
        Tree::Key(at) => Ok(Expr::Key(*at)),
        Field(x, name) => field(alloc, part(alloc, x), name),
        Place(x, at) => place(part(alloc, x), part(alloc, at)),
        Tree::Not(x) => not(part(alloc, x)),
        Tree::Neg(x) => negated(part(alloc, x)),
        Two(op, x, y) => two(*op, part(alloc, x), part(alloc, y)),
        Is(test, x) => is(*test, part(alloc, x)),
        Tree::Among(x, y) => among(part(alloc, x), part(alloc, y)),
        Tree::Between(x, low, high) => between(part(alloc, x), part(alloc, low), part(alloc, high)),
        Call(fun, args) => call(*fun, parts(alloc, args)),
        List(items) => list(parts(alloc, items)),
        Build(names, values) => build(texts(alloc, names), parts(alloc, values)),
        Case(whens, thens, Some(other)) => case(
            parts(alloc, whens),
            parts(alloc, thens),
            some(part(alloc, other)),
        ),
        Case(whens, thens, None) => case(parts(alloc, whens), parts(alloc, thens), Ok(None)),
        Any(name, over, test) => any(Text::of(alloc, name), part(alloc, over), part(alloc, test)),
        Every(name, over, test) => every(
            Text::of(alloc, name),
            part(alloc, over),
            part(alloc, test),
        ),
        Each(name, item, over, Some(when)) => each(
            Text::of(alloc, name),
            part(alloc, item),
            part(alloc, over),
            some(part(alloc, when)),
        ),
        Each(name, item, over, None) => each(
            Text::of(alloc, name),
            part(alloc, item),
            part(alloc, over),
            Ok(None),
        ),
        First(name, item, over, Some(when)) => first(
            Text::of(alloc, name),
            part(alloc, item),
            part(alloc, over),
            some(part(alloc, when)),
        ),
        First(name, item, over, None) => first(
            Text::of(alloc, name),
            part(alloc, item),
            part(alloc, over),
            Ok(None),
        ),
        Tree::Agg(agg) => Ok(Expr::Agg(*agg, None)),
    }
}

#[cycle(building)]
fn part(alloc: Global, tree: &Tree) -> Part {
    boxed(alloc, built(alloc, tree))
}

#[cycle(building)]
fn parts(alloc: Global, trees: &[Tree]) -> Parts {
    let mut exprs = Exprs::new(alloc);
    for tree in trees {
        exprs.push(built(alloc, tree)?)?;
    }
    Ok(exprs)
}

fn boxed(alloc: Global, e: Result<Expr, Memory>) -> Part {
    Ok(Boxed::new(alloc, e?)?)
}

fn some(x: Part) -> PartIfAny {
    Ok(Some(x?))
}

fn constant(alloc: Global, plain: &Plain) -> Result<Expr, Memory> {
    Ok(Expr::Const(made(alloc, plain)?))
}

fn variable(alloc: Global, name: &str) -> Result<Expr, Memory> {
    Ok(Expr::Var(Text::of(alloc, name)?))
}

fn field(alloc: Global, x: Part, name: &str) -> Result<Expr, Memory> {
    Ok(Expr::Field(x?, Text::of(alloc, name)?))
}

fn place(x: Part, at: Part) -> Result<Expr, Memory> {
    Ok(Expr::Place(x?, at?))
}

fn not(x: Part) -> Result<Expr, Memory> {
    Ok(Expr::Not(x?))
}

fn negated(x: Part) -> Result<Expr, Memory> {
    Ok(Expr::Neg(x?))
}

fn two(op: Op, x: Part, y: Part) -> Result<Expr, Memory> {
    Ok(Expr::Two(op, x?, y?))
}

fn is(test: Test, x: Part) -> Result<Expr, Memory> {
    Ok(Expr::Is(test, x?))
}

fn among(x: Part, y: Part) -> Result<Expr, Memory> {
    Ok(Expr::Among(x?, y?))
}

fn between(x: Part, low: Part, high: Part) -> Result<Expr, Memory> {
    Ok(Expr::Between(x?, low?, high?))
}

fn call(fun: Fun, args: Parts) -> Result<Expr, Memory> {
    Ok(Expr::Call(fun, args?))
}

fn list(items: Parts) -> Result<Expr, Memory> {
    Ok(Expr::List(items?))
}

fn build(names: Result<Names, Memory>, values: Parts) -> Result<Expr, Memory> {
    Ok(Expr::Build(names?, values?))
}

fn case(whens: Parts, thens: Parts, other: PartIfAny) -> Result<Expr, Memory> {
    Ok(Expr::Case(whens?, thens?, other?))
}

fn any(name: Result<Text, Memory>, over: Part, test: Part) -> Result<Expr, Memory> {
    Ok(Expr::Any(name?, over?, test?))
}

fn every(name: Result<Text, Memory>, over: Part, test: Part) -> Result<Expr, Memory> {
    Ok(Expr::Every(name?, over?, test?))
}

fn each(
    name: Result<Text, Memory>,
    item: Part,
    over: Part,
    when: PartIfAny,
) -> Result<Expr, Memory> {
    Ok(Expr::Each(name?, item?, over?, when?))
}

fn first(
    name: Result<Text, Memory>,
    item: Part,
    over: Part,
    when: PartIfAny,
) -> Result<Expr, Memory> {
    Ok(Expr::First(name?, item?, over?, when?))
}

fn texts(alloc: Global, texts: &[&str]) -> Result<Names, Memory> {
    let mut names = Names::new(alloc);
    for text in texts {
        names.push(Text::of(alloc, text)?)?;
    }
    Ok(names)
}

/// Whether each call and each list in an expression has its count.
#[cycle(forms)]
fn formed(e: &Expr) -> bool
    ensures { result ≡ is_well_formed e.now }
{
    match e {
        Expr::Const(_) | Expr::Doc | Expr::MetaOf(_) | Expr::Var(_) | Expr::Key(_) => true,
        Expr::Field(x, _) | Expr::Not(x) | Expr::Neg(x) | Expr::Is(_, x) => formed(x.get()),
        Expr::Place(x, y) | Expr::Two(_, x, y) | Expr::Among(x, y) => {
            both(formed(x.get()), formed(y.get()))
        }
        Expr::Between(x, low, high) => both(
            formed(x.get()),
            both(formed(low.get()), formed(high.get())),
        ),
        Expr::Call(fun, args) => both(takes(*fun, args.len()), all_formed(args.as_slice())),
        Expr::List(items) => all_formed(items.as_slice()),
        Expr::Build(names, values) => both(
            names.len() == values.len(),
            all_formed(values.as_slice()),
        ),
        Expr::Case(whens, thens, other) => both(
            same_count(whens.as_slice(), thens.as_slice()),
            both(
                all_formed(whens.as_slice()),
                both(all_formed(thens.as_slice()), formed_if_any(other)),
            ),
        ),
        Expr::Any(_, over, test) | Expr::Every(_, over, test) => {
            both(formed(over.get()), formed(test.get()))
        }
        Expr::Each(_, item, over, when) | Expr::First(_, item, over, when) => both(
            formed(item.get()),
            both(formed(over.get()), formed_if_any(when)),
        ),
        Expr::Agg(_, x) => formed_if_any(x),
    }
}

fn both(a: bool, b: bool) -> bool
    ensures { result ≡ (a && b) }
{
    a && b
}

fn same_count(a: &[Expr], b: &[Expr]) -> bool
    ensures { result ≡ (length (map is_well_formed a.now) == length (map is_well_formed b.now)) }
{
    a.len() == b.len()
}

#[cycle(forms)]
fn formed_if_any(x: &Option<Boxed<Expr>>) -> bool
    ensures { result ≡ held_if_any (option_map is_well_formed x.now) }
{
    match x {
        Some(x) => formed(x.get()),
        None => true,
    }
}

#[cycle(forms)]
fn all_formed(exprs: &[Expr]) -> bool
    ensures { result ≡ all_hold (map is_well_formed exprs.now) }
{
    for e in exprs {
        if !formed(e) {
            return false;
        }
    }
    true
}

/// Whether a function takes this many arguments.
fn takes(fun: Fun, count: usize) -> bool
    ensures { result ≡ takes_count fun count }
{
    match fun.most_arguments() {
        Some(most) => fun.least_arguments() <= count && count <= most,
        None => fun.least_arguments() <= count,
    }
}

/// The value of an expression. A row of a table with a wrong number of arguments fails.
fn value<'a>(alloc: Global, e: &'a Expr, scope: &'a Scope<'a>) -> Result<Value, Memory> {
    if formed(&*e) {
        eval(alloc, &*e, &*scope)
    } else {
        Err(Memory)
    }
}

/// A document, with the key values of a row.
#[derive(Drop)]
struct Row {
    id: Text,
    doc: Value,
    keys: Vals,
}

impl Row {
    /// What expressions are evaluated on.
    fn env(&self) -> Env<'_> {
        Env::of_document(&self.id, &self.doc, &self.keys)
    }

    /// The same document, as a value without an id.
    fn without_id(&self) -> Env<'_> {
        Env::of_value(&self.doc, &self.keys)
    }
}

/// The document under the id "k1", with the keys 5 and NULL.
fn document(alloc: Global) -> Result<Row, Memory> {
    let doc = made(alloc, &DOCUMENT)?;
    let mut keys = Vals::new(alloc);
    keys.push(Value::Int(5))?;
    keys.push(Value::Null)?;
    let id = Text::of(alloc, "k1")?;
    Ok(Row { id, doc, keys })
}

fn gives(alloc: Global, scope: &Scope<'_>, tree: &Tree, want: &Plain) -> Result<bool, Memory> {
    let e = built(alloc, tree)?;
    let got = value(alloc, &e, scope)?;
    let want = made(alloc, want)?;
    Ok(collate(&got, &want).is_eq())
}

/// The first row of a table that has another value.
fn first_wrong(
    alloc: Global,
    scope: &Scope<'_>,
    table: &[(Tree, Plain)],
) -> Result<Option<usize>, Memory> {
    for (row, (tree, want)) in table.iter().enumerate() {
        if !gives(alloc, scope, tree, want)? {
            return Ok(Some(row));
        }
    }
    Ok(None)
}

#[test]
fn values_by_clause(rt: HostRuntime) -> Result<(), Memory> {
    let alloc = rt.alloc();
    let row = document(alloc)?;
    let env = row.env();
    let scope = Scope::on(&env);
    let tables = [
        paths(),
        names(),
        operators(),
        functions(),
        constructors(),
        cases(),
        tests_of_elements(),
        items(),
        hidden(),
    ];
    for (at, table) in tables.iter().enumerate() {
        assert_eq!(rt; first_wrong(alloc, &scope, table)?, None, "table {at}");
    }
    Ok(())
}

// A bound name hides one that is bound around it.
#[test]
fn the_innermost_name_counts(rt: HostRuntime) -> Result<(), Memory> {
    let alloc = rt.alloc();
    let row = document(alloc)?;
    let env = row.env();
    let v = Text::of(alloc, "v")?;
    let one = Value::Int(1);
    let two = Value::Int(2);
    let outermost = Scope::on(&env);
    let outer = Scope::inside(&outermost, &v, &one);
    let inner = Scope::inside(&outer, &v, &two);
    assert!(rt; gives(alloc, &inner, &V, &Int(2))?);
    assert!(rt; gives(alloc, &outer, &V, &Int(1))?);
    assert!(rt; gives(alloc, &outermost, &V, &Missing)?);
    Ok(())
}

// Of a row's own names the last is the innermost, and a frame is inside of them all, on another row too.
#[test]
fn frames_stand_inside_of_a_rows_names(rt: HostRuntime) -> Result<(), Memory> {
    let alloc = rt.alloc();
    let row = document(alloc)?;
    let v = Text::of(alloc, "v")?;
    let w = Text::of(alloc, "w")?;
    let values = [Value::Int(1), Value::Int(2), Value::Int(3), Value::Int(4)];
    let bound = [
        named(&v, &values[0]),
        named(&w, &values[1]),
        named(&v, &values[2]),
    ];
    let env = Env {
        bound: &bound,
        ..row.env()
    };
    let scope = Scope::on(&env);
    assert!(rt; gives(alloc, &scope, &V, &Int(3))?);
    assert!(rt; gives(alloc, &scope, &Name("w"), &Int(2))?);
    let inner = Scope::inside(&scope, &v, &values[3]);
    assert!(rt; gives(alloc, &inner, &V, &Int(4))?);
    let bare = row.env();
    let moved = inner.moved_to(&bare);
    assert!(rt; gives(alloc, &moved, &V, &Int(4))?);
    assert!(rt; gives(alloc, &moved, &Name("w"), &Missing)?);
    Ok(())
}

/// A name bound to a value.
fn named<'a>(name: &'a Text, value: &'a Value) -> Binding<'a> {
    Binding { name, value }
}

// What has no id has no META, though its fields can be read.
#[test]
fn meta_is_missing_without_an_id(rt: HostRuntime) -> Result<(), Memory> {
    let alloc = rt.alloc();
    let row = document(alloc)?;
    let env = row.without_id();
    let scope = Scope::on(&env);
    assert!(rt; gives(alloc, &scope, &Tree::Meta(true), &Missing)?);
    assert!(rt; gives(alloc, &scope, &N, &Null)?);
    Ok(())
}

fn are(alloc: Global, got: &Conjuncts, want: &[Tree]) -> Result<bool, Memory> {
    if got.len() != want.len() {
        return Ok(false);
    }
    for (e, tree) in got.as_slice().iter().zip(want) {
        if !same(e, &built(alloc, tree)?) {
            return Ok(false);
        }
    }
    Ok(true)
}

/// Whether an expression is taken apart into these.
fn comes_to(alloc: Global, tree: &Tree, want: &[Tree]) -> Result<bool, Memory> {
    let e = built(alloc, tree)?;
    let got = conjuncts(alloc, &e)?;
    are(alloc, &got, want)
}

#[test]
fn conjunctions_are_taken_apart(rt: HostRuntime) -> Result<(), Memory> {
    let alloc = rt.alloc();
    for (row, (tree, want)) in conjunctions().iter().enumerate() {
        assert!(rt; comes_to(alloc, tree, want)?, "row {row}");
    }
    Ok(())
}

fn are_same(alloc: Global, a: &Tree, b: &Tree) -> Result<bool, Memory> {
    let a = built(alloc, a)?;
    let b = built(alloc, b)?;
    Ok(same(&a, &b))
}

#[test]
fn a_tree_is_the_same_as_itself_alone(rt: HostRuntime) -> Result<(), Memory> {
    let alloc = rt.alloc();
    for (i, a) in different().iter().enumerate() {
        for (j, b) in different().iter().enumerate() {
            assert_eq!(rt; are_same(alloc, a, b)?, i == j, "{i} and {j}");
        }
    }
    Ok(())
}

/// Whether an expression has a copy that is the same.
fn is_copied(alloc: Global, tree: &Tree) -> Result<bool, Memory> {
    let e = built(alloc, tree)?;
    let copied = copy(alloc, &e)?;
    Ok(same(&e, &copied))
}

// A copy doesn't give up at any kind of expression.
#[test]
fn each_kind_of_expression_is_copied(rt: HostRuntime) -> Result<(), Memory> {
    let alloc = rt.alloc();
    for (row, tree) in different().iter().enumerate() {
        assert!(rt; is_copied(alloc, tree)?, "row {row}");
    }
    Ok(())
}
