//! The result of a row: the value of RAW, or an object that is filled term by term.

ghost use Rattle.std.specs.Prelude.{◌≡◌, ◌<◌, ◌^◌, ◌++◌, suc, pos, map, length, codes, unwrap_or, [], IfOk, IfSome, OnOk};
ghost use Rattle.std.specs.Fmt.{signed_decimal};
ghost use Rattle.std.specs.List.{All, fold, list_any};
ghost use Rattle.std.specs.Option.{option_copied};
ghost use Rattle.std.specs.Str.{bytes_eq};
ghost use Rattle.n1ql_value.specs.Constructors.{object_of, with_given};
ghost use Rattle.n1ql_value.specs.Datum.{datum_of};
ghost use Rattle.n1ql_value.specs.Kinds.{object_in, or_missing};
ghost use Rattle.n1ql_value.specs.Paths.{field_of};
ghost use Rattle.n1ql_ast.specs.Evaluation.{value_of};
ghost use Rattle.n1ql_ast.specs.FormedSelections.{unnest_names};
ghost use Rattle.n1ql_ast.specs.Forms.{IsWellFormed};
ghost use Rattle.n1ql_ast.specs.Names.{name_in};
ghost use Rattle.n1ql_ast.specs.declared.term.Term.TheVariants as variant;
ghost use Rattle.n1ql_expr.specs.Scopes.{environment_on};
ghost use Rattle.n1ql_meaning.specs.Results as spec;
ghost use Rattle.pipe_rows.specs.Evaluable.{IsEvaluable, IsEvaluableTerm};
ghost use Rattle.pipe_rows.specs.Pipes.{alone};

use crate::given::{put_given, put_object};
use n1ql_ast::{Expr, Select, Term, Unnest};
use n1ql_expr::{Env, Scope, eval};
use n1ql_value::{Memory, Pairs, Text, Value, same_text};
use std::alloc::Global;

/// The result of what expressions are evaluated on.
pub fn result_on(alloc: Global, q: &Select, env: &Env<'_>) -> Result<Value, Memory>
    requires { IsEvaluable q.now }
    ensures { IfOk result (λ v. v ≡ spec.result_of q.now (alone (environment_on env.now))) }
{
    match &q.raw {
        Some(value) => value_on(alloc, value, env),
        None => object_on(alloc, q, env),
    }
}

/// The value of an expression.
pub fn value_on(alloc: Global, e: &Expr, env: &Env<'_>) -> Result<Value, Memory>
    requires { IsWellFormed e.now }
    ensures { IfOk result (λ v. v ≡ spec.value_on (alone (environment_on env.now)) e.now) }
{
    n1ql_meaning::laws::without_a_group_values_are_plain();
    eval(alloc, e, &Scope::on(env))
}

/// The object of the terms.
fn object_on(alloc: Global, q: &Select, env: &Env<'_>) -> Result<Value, Memory>
    requires { All IsEvaluableTerm q.now.terms }
    ensures { IfOk result (λ v. v ≡ object_of (spec.pairs_of_terms q.now (alone (environment_on env.now)) 1 q.now.terms)) }
{
    let mut pairs = Pairs::new(alloc);
    put_terms(alloc, &mut pairs, q, q.terms.as_slice(), env)?;
    Ok(Value::Object(pairs))
}

/// Puts what terms add.
fn put_terms(
    alloc: Global,
    pairs: &mut Pairs,
    q: &Select,
    terms: &[Term<Expr>],
    env: &Env<'_>,
) -> Result<(), Memory>
    requires { All IsEvaluableTerm terms.now }
    ensures { OnOk result (pairs.new ≡ fold with_given pairs.old (spec.pairs_of_terms q.now (alone (environment_on env.now)) 1 terms.now)) }
{
    for at in 0..terms.len() {
        put_term(alloc, pairs, q, &terms[at], at + 1, env)?;
    }
    Ok(())
}

/// Puts what a term adds, which stands at a place among the terms, from 1.
fn put_term(
    alloc: Global,
    pairs: &mut Pairs,
    q: &Select,
    term: &Term<Expr>,
    place: usize,
    env: &Env<'_>,
) -> Result<(), Memory>
    requires { IsEvaluableTerm term.now }
    ensures { OnOk result (pairs.new ≡ fold with_given pairs.old (spec.pairs_of_term q.now (alone (environment_on env.now)) place term.now)) }
{
    match term {
        Term::All => put_all(alloc, pairs, q, env),
        Term::Spread(name) => put_object(alloc, pairs, meant(q, name, env)),
        Term::One { value, name, .. } => {
            let value = value_on(alloc, value, env)?;
            put_given(pairs, name_of(alloc, name, place)?, value)
        }
    }
}

/// The name of a term: its own, or `$` and its place.
fn name_of(alloc: Global, name: &Option<Text>, place: usize) -> Result<Text, Memory>
    ensures { IfOk result (λ t. t ≡ unwrap_or name.now (codes "$" ++ signed_decimal (pos place))) }
{
    match name {
        Some(name) => name.copy(alloc),
        None => Ok(Text::from_string(format!(in alloc; "${place}")?)),
    }
}

/// Puts the document and the element of each UNNEST, each under its name.
fn put_all(alloc: Global, pairs: &mut Pairs, q: &Select, env: &Env<'_>) -> Result<(), Memory>
    ensures { OnOk result (pairs.new ≡ fold with_given pairs.old (spec.pairs_of_term q.now (alone (environment_on env.now)) 1 variant.All)) }
{
    put_given(pairs, q.alias.copy(alloc)?, env.doc.copy(alloc)?)?;
    put_elements(alloc, pairs, q.unnests.as_slice(), env)
}

/// Puts the element of each UNNEST under its name.
fn put_elements(
    alloc: Global,
    pairs: &mut Pairs,
    unnests: &[Unnest<Expr>],
    env: &Env<'_>,
) -> Result<(), Memory>
    ensures { OnOk result (pairs.new ≡ fold with_given pairs.old
        (map (λ name. (name, datum_of (spec.bound_to name (environment_on env.now)))) (unnest_names unnests.now))) }
{
    for unnest in unnests {
        let element = bound_to(alloc, &unnest.name, env)?;
        put_given(pairs, unnest.name.copy(alloc)?, element)?;
    }
    Ok(())
}

/// What a name is bound to.
fn bound_to(alloc: Global, name: &Text, env: &Env<'_>) -> Result<Value, Memory>
    ensures { IfOk result (λ v. v ≡ spec.bound_to name.now (environment_on env.now)) }
{
    match env.bound_to(name) {
        Some(value) => value.copy(alloc),
        None => Ok(Value::Missing),
    }
}

/// What a name means whose pairs are wanted: the element of an UNNEST, else the document, else a field of the document.
fn meant<'a>(q: &Select, name: &Text, env: &Env<'a>) -> Option<&'a Value>
    ensures { object_in (or_missing (option_copied result))
        ≡ object_in (value_of (name_in (spec.scope_of q.now) name.now) (environment_on env.now)) }
{
    if is_unnested(q.unnests.as_slice(), name) {
        env.bound_to(name)
    } else if same_text(name.as_str(), q.alias.as_str()) {
        Some(env.doc)
    } else {
        field(env.doc, name)
    }
}

/// Whether an UNNEST has this name.
fn is_unnested(unnests: &[Unnest<Expr>], name: &Text) -> bool
    ensures { result ≡ list_any (bytes_eq name.now) (unnest_names unnests.now) }
{
    for unnest in unnests {
        if same_text(name.as_str(), unnest.name.as_str()) {
            return true;
        }
    }
    false
}

/// The field of an object.
#[tactic(auto, using(crate::proofs::Fields::field_found))]
fn field<'a>(doc: &'a Value, name: &Text) -> Option<&'a Value>
    ensures { object_in (or_missing (option_copied result)) ≡ object_in (field_of name.now doc.now) }
{
    match doc {
        Value::Object(pairs) => pairs.get(name.as_str()),
        _ => None,
    }
}
