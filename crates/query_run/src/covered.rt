//! Statements that an index covers.

ghost use Rattle.std.specs.Prelude.{◌≡◌, ℕ, List, None, Some, map, false, IfErr, IfOk};
ghost use Rattle.std.specs.Arc.{arc_value};
ghost use Rattle.n1ql_value.specs.Datum.{datum_of};
ghost use Rattle.sorted_lists.specs.SortedLists.{sort_of};
ghost use Rattle.n1ql_ast.specs.declared.expr.Expr.{Expr};
ghost use Rattle.n1ql_ast.specs.declared.selection.Selection.{Selection};
ghost use Rattle.n1ql_ast.specs.FormedSelections.{IsFormedSelect};
ghost use Rattle.n1ql_meaning.specs.Groups.{is_grouped};
ghost use Rattle.n1ql_meaning.specs.Meaning.{meaning_of};
ghost use Rattle.n1ql_covered.specs.OverKeys.{over_index};
ghost use Rattle.n1ql_covered.specs.ShownRows.{row_shown};
ghost use Rattle.n1ql_plan.specs.declared.query_plan.Plan.{Plan};
ghost use Rattle.index_def.specs.declared.definition.IndexDef.{IndexDef};
ghost use Rattle.index_def.specs.Forms.{IsFormed};
ghost use Rattle.index_tree.specs.Range.{rows_within};
ghost use Rattle.index_snapshot.specs.declared.snapshot.Snapshot.{Snapshot};
ghost use Rattle.vb_store.specs.declared.mutation.Mutation.{Mutation};
ghost use Rattle.vb_store.specs.Documents.{documents_at};
ghost use Rattle.index_snapshot.specs.Stands.{SnapshotStands};
ghost use Rattle.pipe_rows.specs.Evaluable.{IsEvaluable};
ghost use Rattle.pipe_rows.specs.Pipes.{input_row, row_of};
ghost use Rattle.query_run.specs.Plans.{IsCoveringPlan};
ghost use Rattle.query_run.specs.Texts as texts;
ghost use Rattle.query_run.specs.inner.Runs as spec;

use crate::list_text::list_text;
use crate::row_order::by_id;
use crate::run_fault::RunFault;
use index_def::IndexDef;
use index_snapshot::Snapshot;
use n1ql_ast::Select;
use n1ql_covered::over_index;
use n1ql_plan::Plan;
use n1ql_value::{ListOf, Memory, Row, Rows, Vals, Value};
use pipe_rows::laws::formed_statements_can_be_evaluated;
use pipe_rows::{Input, Inputs, PipeRow, base_rows, finish, plain_outs};
use std::alloc::Global;

/// The answer to a statement without groups that the index of its plan covers: its results on all documents at the snapshot's vector, as
/// a JSON list. No document is read, and of the snapshot only the rows that the plan's spans hold.
///
/// # Errors
///
/// `TooLarge` exactly where that text is longer than `MAX_ANSWER_BYTES`. `Memory` where memory ran out.
pub fn answer_covered(
    alloc: Global,
    plan: &Plan,
    q: &Select,
    s: &Snapshot,
) -> Result<ListOf<u8>, RunFault>
    requires formed { IsFormedSelect q.now }
    requires ungrouped { is_grouped q.now ≡ false }
    requires definition { IsFormed (arc_value s.now.def) }
    requires planned { IsCoveringPlan plan.now q.now (arc_value s.now.def) }
    ensures text { IfOk result (λ text. (n : ℕ) (log : List Mutation) → SnapshotStands n log s.now
        → texts.within (texts.results_text (meaning_of q.now (documents_at log (arc_value s.now.vector)))) ≡ Some text) }
    ensures too_large { IfErr result (λ fault. (n : ℕ) (log : List Mutation) → SnapshotStands n log s.now
        → texts.IsTooLarge (texts.results_text (meaning_of q.now (documents_at log (arc_value s.now.vector)))) fault) }
{
    match results(alloc, plan, q, s) {
        Ok(results) => list_text(alloc, results.as_slice()),
        Err(_) => Err(RunFault::Memory),
    }
}

/// What the crates below promise of rows, of lists in order and of covered statements gives: over the rows in its spans, by the ids of their
/// documents, the statement has its results on all documents.
fn covered_rows_give_the_meaning()
    ensures { (plan : Plan) (q : Selection Expr) (s : Snapshot) → is_grouped q ≡ false → IsFormed (arc_value s.def)
        → IsCoveringPlan plan q (arc_value s.def) → (n : ℕ) (log : List Mutation) → SnapshotStands n log s
        → spec.results_over q (arc_value s.def) (sort_of spec.by_id (rows_within plan.spans s.rows)) ≡ meaning_of q (documents_at log (arc_value s.vector)) }
{
    n1ql_value::laws::order_of_rows_is_total();
    n1ql_value::laws::alike_rows_are_equal();
    index_def::laws::rows_carry_their_id();
    index_def::laws::a_document_has_at_most_one_row_without_an_array_key();
    n1ql_covered::laws::covered_statements_need_no_documents();
    n1ql_covered::laws::covered_statements_are_grouped_alike();
    n1ql_covered::laws::covering_indexes_have_no_array_key();
    sorted_lists::laws::filters_and_sorts_commute::<Row>();
    sorted_lists::laws::insertions_commute::<Row>();
}

/// The results of such a statement.
fn results(alloc: Global, plan: &Plan, q: &Select, s: &Snapshot) -> Result<Vals, Memory>
    requires formed { IsFormedSelect q.now }
    requires ungrouped { is_grouped q.now ≡ false }
    requires definition { IsFormed (arc_value s.now.def) }
    requires planned { IsCoveringPlan plan.now q.now (arc_value s.now.def) }
    ensures { IfOk result (λ vs. (n : ℕ) (log : List Mutation) → SnapshotStands n log s.now
        → vs ≡ map datum_of (meaning_of q.now (documents_at log (arc_value s.now.vector)))) }
{
    covered_rows_give_the_meaning();
    let rows = by_id(s.scan(alloc, &plan.spans)?)?;
    results_over(alloc, q, &*s.def, rows)
}

/// The results of a statement over rows of an index, which stand by their ids.
fn results_over(alloc: Global, q: &Select, def: &IndexDef, rows: Rows) -> Result<Vals, Memory>
    requires formed { IsFormedSelect q.now }
    ensures { IfOk result (λ vs. vs ≡ map datum_of (spec.results_over q.now def.now rows)) }
{
    formed_statements_can_be_evaluated();
    statements_over_keys_can_be_evaluated();
    let inputs = inputs_of(alloc, rows)?;
    let over = over_index(alloc, q, def)?;
    results_with(alloc, q, &over, &inputs)
}

/// A statement over the keys of an index can be evaluated where the statement can.
fn statements_over_keys_can_be_evaluated()
    ensures { (q : Selection Expr) (def : IndexDef) → IsEvaluable q → IsEvaluable (over_index q def) }
{
    n1ql_spans::laws::conjuncts_are_well_formed();
    n1ql_covered::laws::keys_can_be_evaluated();
}

/// What rows of an index give a statement to read: the keys, and no document.
fn inputs_of(alloc: Global, rows: Rows) -> Result<Inputs, Memory>
    ensures { IfOk result (λ inputs. map input_row inputs ≡ map row_shown rows) }
{
    let mut inputs = Inputs::new(alloc);
    for row in rows.into_vec() {
        inputs.push(Input {
            id: row.id,
            doc: Value::Missing,
            keys: row.keys,
        })?;
    }
    Ok(inputs)
}

/// The results of a statement whose rows are those of another one.
fn results_with(alloc: Global, q: &Select, over: &Select, inputs: &Inputs) -> Result<Vals, Memory>
    requires own { IsEvaluable q.now }
    requires other { IsEvaluable over.now }
    ensures { IfOk result (λ vs. vs ≡ map datum_of (spec.results_with q.now over.now (map input_row inputs.now))) }
{
    let rows = base_rows(alloc, over, inputs)?;
    plain_results(
        alloc,
        statement_for(q, over, rows.as_slice()),
        rows.as_slice(),
    )
}

/// The statement that is evaluated on rows: the one over the keys, and on none the statement itself, since a key of no row isn't MISSING.
fn statement_for<'a>(q: &'a Select, over: &'a Select, rows: &[PipeRow<'_>]) -> &'a Select
    ensures { result.now ≡ spec.statement_for q.now over.now (map row_of rows.now) }
{
    if rows.is_empty() { q } else { over }
}

/// The results of a statement without groups on its rows.
fn plain_results(alloc: Global, q: &Select, rows: &[PipeRow<'_>]) -> Result<Vals, Memory>
    requires { IsEvaluable q.now }
    ensures { IfOk result (λ vs. vs ≡ map datum_of (spec.plain_results q.now (map row_of rows.now))) }
{
    let outs = plain_outs(alloc, q, rows)?;
    finish(alloc, q, outs)
}
