//! The laws of the order, for whoever rests on it: each is the contract of a function that does nothing.

ghost use Rattle.std.specs.Prelude.{◌≡◌};
ghost use Rattle.std.specs.Cmp.{IsTotalOrder};
ghost use Rattle.std.specs.declared.cmp.Ordering.TheVariants.{Equal};
ghost use Rattle.n1ql_value.specs.declared.datum.Datum.{Datum, out-Datum};
ghost use Rattle.n1ql_value.specs.declared.row.Row.{Row};
ghost use Rattle.n1ql_value.specs.declared.limits.TheConstants.{MAX_INPUT_BYTES, MAX_LINES, MAX_PRODUCT, MAX_SCANS, MAX_VBUCKETS, MAX_CLIENTS, MAX_WORKERS, MAX_BATCH, MAX_INDEXES, MAX_KEYS, MAX_ID_BYTES, MAX_TOKENS, MAX_SPANS, MAX_RANGES, MAX_ANSWER_BYTES};
ghost use Rattle.n1ql_value.specs.Limits as limits;
ghost use Rattle.n1ql_value.specs.Collation.{layer_cmp, value_cmp, row_cmp};

/// The order of values is a total order.
pub fn order_of_values_is_total()
    ensures { IsTotalOrder value_cmp }
{}

/// Values that the order calls equal are the same value.
pub fn alike_values_are_equal()
    ensures { (a b : Datum) → value_cmp a b ≡ Equal → a ≡ b }
{}

/// The order of two values is that of their top layers, where what stands below goes by the same order.
pub fn order_by_cases()
    ensures { (a b : Datum) → value_cmp a b ≡ layer_cmp value_cmp (out-Datum a) (out-Datum b) }
{}

/// The order of rows is a total order.
pub fn order_of_rows_is_total()
    ensures { IsTotalOrder row_cmp }
{}

/// Rows that the order calls equal are the same row.
pub fn alike_rows_are_equal()
    ensures { (a b : Row) → row_cmp a b ≡ Equal → a ≡ b }
{}

/// The limits of the code are those of the definitions.
pub fn limits_are_as_defined()
    ensures input_bytes { MAX_INPUT_BYTES ≡ limits.max_input_bytes }
    ensures lines { MAX_LINES ≡ limits.max_lines }
    ensures product { MAX_PRODUCT ≡ limits.max_product }
    ensures scans { MAX_SCANS ≡ limits.max_scans }
    ensures vbuckets { MAX_VBUCKETS ≡ limits.max_vbuckets }
    ensures clients { MAX_CLIENTS ≡ limits.max_clients }
    ensures workers { MAX_WORKERS ≡ limits.max_workers }
    ensures batch { MAX_BATCH ≡ limits.max_batch }
    ensures indexes { MAX_INDEXES ≡ limits.max_indexes }
    ensures keys { MAX_KEYS ≡ limits.max_keys }
    ensures id_bytes { MAX_ID_BYTES ≡ limits.max_id_bytes }
    ensures tokens { MAX_TOKENS ≡ limits.max_tokens }
    ensures spans { MAX_SPANS ≡ limits.max_spans }
    ensures ranges { MAX_RANGES ≡ limits.max_ranges }
    ensures answer_bytes { MAX_ANSWER_BYTES ≡ limits.max_answer_bytes }
{}
