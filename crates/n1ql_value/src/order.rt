//! Values and lists of values, compared by the order of N1QL: so they can be sorted, and be the keys of maps and sets.

ghost use Rattle.std.specs.Prelude.{refl};
ghost use Rattle.std.specs.Cmp.{eq_by_cmp_equiv, partial_equiv_from_equiv, partial_order_from_total};
ghost use Rattle.std.specs.Cmp.Lexicographic.{slice_cmp};
ghost use Rattle.std.specs.Ordering.{on, as_partial_cmp, eq_by_cmp};
ghost use Rattle.std.proofs.lemmas.Cmp.{on_total, lists_total};
ghost use Rattle.n1ql_value.specs.Datum.{datum_of};
ghost use Rattle.n1ql_value.specs.Collation.{value_cmp};
ghost use Rattle.n1ql_value.specs.inner.CollationLaws.{value_cmp-total};

use crate::collation::{collate, collate_items};
use crate::vals::Vals;
use crate::value::Value;
use std::cmp::Ordering;

impl PartialEq for Value {
    ghost eq = { eq_by_cmp (on datum_of value_cmp) };

    ghost laws = { partial_equiv_from_equiv (eq_by_cmp_equiv (on_total datum_of value_cmp-total)) };

    fn eq(&self, other: &Value) -> bool {
        collate(self, other).is_eq()
    }
}

impl Eq for Value {
    ghost laws = { eq_by_cmp_equiv (on_total datum_of value_cmp-total) };
}

impl Ord for Value {
    ghost cmp = { on datum_of value_cmp };

    ghost total = { on_total datum_of value_cmp-total };

    ghost matches_partial_cmp = { λ x y. refl };

    ghost matches_eq = { λ x y. refl };

    fn cmp(&self, other: &Value) -> Ordering {
        collate(self, other)
    }
}

impl PartialOrd for Value {
    ghost partial_cmp = { as_partial_cmp (on datum_of value_cmp) };

    ghost laws = { partial_order_from_total (on_total datum_of value_cmp-total) };

    fn partial_cmp(&self, other: &Value) -> Option<Ordering> {
        Some(collate(self, other))
    }
}

impl PartialEq for Vals {
    ghost eq = { eq_by_cmp (slice_cmp value_cmp) };

    ghost laws = { partial_equiv_from_equiv (eq_by_cmp_equiv (lists_total value_cmp-total)) };

    fn eq(&self, other: &Vals) -> bool {
        collate_items(self.as_slice(), other.as_slice()).is_eq()
    }
}

impl Eq for Vals {
    ghost laws = { eq_by_cmp_equiv (lists_total value_cmp-total) };
}

impl Ord for Vals {
    ghost cmp = { slice_cmp value_cmp };

    ghost total = { lists_total value_cmp-total };

    ghost matches_partial_cmp = { λ x y. refl };

    ghost matches_eq = { λ x y. refl };

    fn cmp(&self, other: &Vals) -> Ordering {
        collate_items(self.as_slice(), other.as_slice())
    }
}

impl PartialOrd for Vals {
    ghost partial_cmp = { as_partial_cmp (slice_cmp value_cmp) };

    ghost laws = { partial_order_from_total (lists_total value_cmp-total) };

    fn partial_cmp(&self, other: &Vals) -> Option<Ordering> {
        Some(collate_items(self.as_slice(), other.as_slice()))
    }
}
