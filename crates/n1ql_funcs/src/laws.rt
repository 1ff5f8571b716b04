//! The laws of the tables, for whoever rests on them: each is the contract of a function that does nothing.

ghost use Rattle.std.specs.Prelude.{◌≡◌, ◌≤◌, min, max, true, false, List, ◌∷◌, Some};
ghost use Rattle.std.specs.Option.{is_some};
ghost use Rattle.std.specs.Cmp.{IsTotalOrder};
ghost use Rattle.std.specs.declared.cmp.Ordering.{Ordering};
ghost use Rattle.n1ql_value.specs.declared.datum.Datum.{Datum};
ghost use Rattle.n1ql_value.specs.FunctionValues.{topmost};
ghost use Rattle.n1ql_funcs.specs.Topmost.{IsTopmost};
ghost use Rattle.n1ql_value.specs.declared.op.Op.{Op};
ghost use Rattle.n1ql_value.specs.declared.op.Op.TheVariants as op;
ghost use Rattle.n1ql_value.specs.declared.value.Value.{Value};
ghost use Rattle.n1ql_value.specs.declared.value.Value.TheVariants as value;
ghost use Rattle.n1ql_value.specs.Datum.{datum_of};
ghost use Rattle.n1ql_value.specs.Collation.{value_cmp};
ghost use Rattle.n1ql_value.specs.Kinds.{is_valued};
ghost use Rattle.n1ql_value.specs.Logic.{and_of, or_of, not_of, truth_of};
ghost use Rattle.n1ql_value.specs.Comparison.{allows, between_of, comparison_of};
ghost use Rattle.n1ql_funcs.specs.TruthOrder.{truth_rank};

/// AND is the least of its operands in the order FALSE, MISSING, NULL, TRUE, where what is none of the four counts as NULL.
pub fn and_is_the_least()
    ensures { (a b : Value) → truth_rank (and_of a b) ≡ min (truth_rank a) (truth_rank b) }
{}

/// OR is the greatest of its operands in that order.
pub fn or_is_the_greatest()
    ensures { (a b : Value) → truth_rank (or_of a b) ≡ max (truth_rank a) (truth_rank b) }
{}

/// So the operands of AND may be put in any order and in any groups, and AND takes back what OR adds.
pub fn and_is_a_meet()
    ensures commutes { (a b : Value) → and_of a b ≡ and_of b a }
    ensures associates { (a b c : Value) → and_of a (and_of b c) ≡ and_of (and_of a b) c }
    ensures absorbs { (a b : Value) → and_of a (or_of a b) ≡ truth_of a }
{}

/// The same of OR.
pub fn or_is_a_join()
    ensures commutes { (a b : Value) → or_of a b ≡ or_of b a }
    ensures associates { (a b c : Value) → or_of a (or_of b c) ≡ or_of (or_of a b) c }
    ensures absorbs { (a b : Value) → or_of a (and_of a b) ≡ truth_of a }
{}

/// NOT exchanges the ends of that order and keeps its middle.
pub fn not_exchanges_the_ends()
    ensures low { not_of (value.Bool false) ≡ value.Bool true }
    ensures high { not_of (value.Bool true) ≡ value.Bool false }
    ensures middle { (a : Value) → 1 ≤ truth_rank a → truth_rank a ≤ 2 → not_of a ≡ truth_of a }
{}

/// Two values that are neither MISSING nor NULL are compared by the order of values.
pub fn values_are_compared_by_the_order()
    ensures { (op : Op) (a b : Value) → is_valued a ≡ true → is_valued b ≡ true
        → comparison_of op a b ≡ value.Bool (allows op (value_cmp (datum_of a) (datum_of b))) }
{}

/// BETWEEN is its two comparisons.
pub fn between_is_two_comparisons()
    ensures { (v a b : Value) → between_of v a b ≡ and_of (comparison_of op.Ge v a) (comparison_of op.Le v b) }
{}

/// What GREATEST and LEAST keep of values is one of them, and none stands above it by their order; only of none is there none.
pub fn the_topmost_is_above_all()
    ensures there { (R : Datum → Datum → Ordering) (d : Datum) (ds : List Datum) → is_some (topmost R (d ∷ ds)) ≡ true }
    ensures above { (R : Datum → Datum → Ordering) (ds : List Datum) (top : Datum) → IsTotalOrder R → topmost R ds ≡ Some top → IsTopmost R ds top }
{}
