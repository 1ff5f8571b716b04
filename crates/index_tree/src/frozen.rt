ghost use Rattle.std.specs.Prelude.{◌≡◌, length, IfOk};
ghost use Rattle.std.specs.List.Sorted.{IsSorted};
ghost use Rattle.n1ql_value.specs.Collation.{row_cmp};
ghost use Rattle.n1ql_value.specs.Ranges.{some_span_holds};
ghost use Rattle.index_tree.specs.inner.Shared.{rows_in};
ghost use Rattle.index_tree.specs.Range.{rows_within};

use n1ql_value::{Memory, Row, Rows, Span, Spans};
use std::alloc::Global;
use std::marker::Model;
use std::sync::Arc;

/// The rows of a tree as they stood at a moment. Contracts see the list, in order.
#[derive(Drop)]
pub struct Frozen {
    rows: Vec<Arc<Row>>,
}

impl Model for Frozen {
    ghost use Rattle.std.specs.Prelude.{List};
    ghost use Rattle.n1ql_value.specs.declared.row.Row.{Row};

    ghost Value = { List Row };

    ghost use Rattle.n1ql_value.specs.contracts.row.Row as contracts;
    ghost use Rattle.std.specs.Coded.{coded_list};

    ghost coded = { coded_list (contracts.the_row).coded };

    ghost use Rattle.std.specs.List.Sorted.{IsSorted};
    ghost use Rattle.n1ql_value.specs.Collation.{row_cmp};
    ghost use Rattle.index_tree.specs.inner.Shared.{rows_in};

    ghost view = { λ f. rows_in f.rows.items };

    ghost invariant = { λ f. IsSorted row_cmp (rows_in f.rows.items) };
}

impl Frozen {
    // What a tree holds.
    pub(crate) fn of(rows: Vec<Arc<Row>>) -> Frozen
        requires { IsSorted row_cmp (rows_in rows.items) }
        ensures { result ≡ rows_in rows.items }
    {
        Frozen { rows }
    }

    /// How many rows there are.
    pub fn len(&self) -> u64
        ensures { result ≡ length self.now }
    {
        self.rows.len() as u64
    }

    /// The rows that some span holds, each as often as it stands, in order.
    ///
    /// # Errors
    ///
    /// `Memory` where memory ran out.
    pub fn range(&self, alloc: Global, spans: &Spans) -> Result<Rows, Memory>
        ensures held { IfOk result (λ rows. rows ≡ rows_within spans.now self.now) }
        ensures sorted { IfOk result (λ rows. IsSorted row_cmp rows) }
    {
        rows_held(alloc, self.rows.as_slice(), spans.as_slice())
    }
}

// Copies of the rows that some span holds.
fn rows_held(alloc: Global, rows: &[Arc<Row>], spans: &[Span]) -> Result<Rows, Memory>
    ensures { IfOk result (λ held. held ≡ rows_within spans.now (rows_in rows.now)) }
{
    let mut held = Rows::new(alloc);
    for row in rows {
        if is_held(spans, row) {
            held.push(row.copy(alloc)?)?;
        }
    }
    Ok(held)
}

// Whether some span holds the row.
fn is_held(spans: &[Span], row: &Row) -> bool
    ensures { result ≡ some_span_holds spans.now row.now.keys }
{
    spans.iter().any(|span| span.holds(row))
}
