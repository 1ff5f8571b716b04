ghost use Rattle.std.specs.Prelude.{◌≡◌, [], IfOk, if◌then◌else◌};
ghost use Rattle.std.specs.List.{All, list_all, list_any};
ghost use Rattle.n1ql_value.specs.Collation.{row_cmp};
ghost use Rattle.n1ql_value.specs.Kinds.{is_true};
ghost use Rattle.sorted_lists.specs.SortedLists.{sort_of};
ghost use Rattle.n1ql_ast.specs.Evaluation.{value_of};
ghost use Rattle.n1ql_ast.specs.FormedStatements.{IsFormedIn, IsFormedKey};
ghost use Rattle.n1ql_expr.specs.Scopes.{environment_of};
ghost use Rattle.index_def.specs.Forms.{IsFormed};
ghost use Rattle.index_def.specs.Keys as spec;
ghost use Rattle.key_eval.specs.Neighbours.{neighbours_once};

use crate::order::{in_order, once};
use crate::rows::rows_of_tuples;
use crate::tuples::tuples_of;
use index_def::IndexDef;
use n1ql_ast::{Expr, Key};
use n1ql_expr::{Env, Scope, eval};
use n1ql_value::{Memory, Row, Rows, Text, Vals, Value};
use std::alloc::Global;
use vb_store::Mutation;

/// The rows that the id of a mutation has from then on in an index, in order.
///
/// There are none after a deletion, none where a conjunct of the filter isn't TRUE, and none for values of the keys of which the
/// leading one is MISSING.
///
/// # Errors
///
/// `Memory` where memory ran out.
pub fn keys_of(alloc: Global, def: &IndexDef, m: &Mutation) -> Result<Rows, Memory>
    requires { IsFormed def.now }
    ensures { IfOk result (λ rows. rows ≡ spec.keys_of_body def.now m.now.id m.now.body) }
{
    match &m.body {
        Some(doc) => keys_of_document(alloc, def, &m.id, doc),
        None => Ok(Rows::new(alloc)),
    }
}

/// The rows of a document, which is read where it stands.
fn keys_of_document(alloc: Global, def: &IndexDef, id: &Text, doc: &Value) -> Result<Rows, Memory>
    requires { IsFormed def.now }
    ensures { IfOk result (λ rows. rows ≡ spec.keys_of def.now id.now doc.now) }
{
    let keys = Vals::new(alloc);
    let env = Env::of_document(&*id, &*doc, &keys);
    rows_in(alloc, def, id, &Scope::on(&env))
}

/// The rows of the document that a scope stands on.
fn rows_in<'a>(
    alloc: Global,
    def: &'a IndexDef,
    id: &'a Text,
    scope: &'a Scope<'a>,
) -> Result<Rows, Memory>
    requires { IsFormed def.now }
    ensures { IfOk result (λ rows. rows ≡ (if spec.is_admitted def.now (environment_of scope.now)
        then sort_of row_cmp (spec.once_if (list_any spec.is_distinct def.now.keys) (spec.rows_of_tuples (spec.tuples_of def.now.keys (environment_of scope.now)) id.now))
        else [])) }
{
    if is_admitted(alloc, def.filter.as_slice(), &*scope)? {
        rows_of_keys(alloc, def.keys.as_slice(), id, &*scope)
    } else {
        Ok(Rows::new(alloc))
    }
}

/// Whether each conjunct is TRUE.
fn is_admitted<'a>(alloc: Global, filter: &'a [Expr], scope: &'a Scope<'a>) -> Result<bool, Memory>
    requires { All (IsFormedIn []) filter.now }
    ensures { IfOk result (λ b. b ≡ list_all (λ e. is_true (value_of e (environment_of scope.now))) filter.now) }
{
    for e in filter {
        if !is_held(alloc, e, scope)? {
            return Ok(false);
        }
    }
    Ok(true)
}

/// Whether the value of an expression is TRUE.
fn is_held<'a>(alloc: Global, e: &'a Expr, scope: &'a Scope<'a>) -> Result<bool, Memory>
    requires { IsFormedIn [] e.now }
    ensures { IfOk result (λ b. b ≡ is_true (value_of e.now (environment_of scope.now))) }
{
    let value = eval(alloc, &*e, &*scope)?;
    Ok(matches!(value, Value::Bool(true)))
}

/// The rows of the tuples of the keys, in order, each once where a key is DISTINCT.
fn rows_of_keys<'a>(
    alloc: Global,
    keys: &'a [Key],
    id: &'a Text,
    scope: &'a Scope<'a>,
) -> Result<Rows, Memory>
    requires { All IsFormedKey keys.now }
    ensures { IfOk result (λ rows. rows ≡ sort_of row_cmp
        (spec.once_if (list_any spec.is_distinct keys.now) (spec.rows_of_tuples (spec.tuples_of keys.now (environment_of scope.now)) id.now))) }
{
    let tuples = tuples_of(alloc, keys, scope)?;
    let rows = in_order(rows_of_tuples(alloc, tuples, id)?)?;
    let rows = once_if(alloc, has_distinct(keys), rows)?;
    Ok(Rows::from_vec(rows))
}

/// The rows, or where they are to stand once, those without the ones that are the same as the one before.
fn once_if(alloc: Global, distinct: bool, rows: Vec<Row>) -> Result<Vec<Row>, Memory>
    ensures { IfOk result (λ kept. kept.items ≡ (if distinct then neighbours_once row_cmp rows.items else rows.items)) }
{
    if distinct {
        once(alloc, rows)
    } else {
        Ok(rows)
    }
}

/// Whether some key gives each of its values once.
fn has_distinct(keys: &[Key]) -> bool
    ensures { result ≡ list_any spec.is_distinct keys.now }
{
    keys.iter().any(|key| is_distinct(key))
}

/// Whether a key gives each of its values once.
fn is_distinct(key: &Key) -> bool
    ensures { result ≡ spec.is_distinct key.now }
{
    match key {
        Key::Plain(_) => false,
        Key::Each { distinct, .. } => *distinct,
    }
}
