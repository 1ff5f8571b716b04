ghost use Rattle.std.specs.Prelude.{◌≡◌};
ghost use Rattle.n1ql_value.specs.Datum.{datum_of};
ghost use Rattle.n1ql_value.specs.Ranges.{range_holds, is_above, is_below};

use crate::collation::collate;
use crate::value::Value;
use std::cmp::Ordering;

/// The values between two bounds. An absent bound leaves its side free.
#[derive(Debug, Drop)]
pub struct Range {
    pub low: Option<Value>,
    pub high: Option<Value>,
    /// Which bounds are in: 0 for neither, 1 for the low one, 2 for the high one, 3 for both.
    pub incl: u8,
}

impl Range {
    /// Whether a value lies between the bounds.
    pub fn holds(&self, value: &Value) -> bool
        ensures { result ≡ range_holds self.now (datum_of value.now) }
    {
        let includes_low = self.incl == 1 || self.incl == 3;
        let includes_high = self.incl == 2 || self.incl == 3;
        is_above(&self.low, includes_low, value) && is_below(&self.high, includes_high, value)
    }
}

/// Whether a value is above a low bound, or at one that is included.
fn is_above(bound: &Option<Value>, included: bool, value: &Value) -> bool
    ensures { result ≡ is_above bound.now included (datum_of value.now) }
{
    match bound {
        None => true,
        Some(bound) => match collate(bound, value) {
            Ordering::Less => true,
            Ordering::Equal => included,
            Ordering::Greater => false,
        },
    }
}

/// Whether a value is below a high bound, or at one that is included.
fn is_below(bound: &Option<Value>, included: bool, value: &Value) -> bool
    ensures { result ≡ is_below bound.now included (datum_of value.now) }
{
    match bound {
        None => true,
        Some(bound) => match collate(value, bound) {
            Ordering::Less => true,
            Ordering::Equal => included,
            Ordering::Greater => false,
        },
    }
}
