ghost use Rattle.std.specs.Prelude.{◌≡◌};
ghost use Rattle.n1ql_value.specs.Ranges.{span_holds};

use crate::list_of::ListOf;
use crate::range::Range;
use crate::row::Row;
use crate::value::Value;

/// Ranges for the keys of a row, place by place.
pub type Span = ListOf<Range>;

/// Spans: a row is held where one of them holds it.
pub type Spans = ListOf<Span>;

impl ListOf<Range> {
    /// Whether each range holds the row's key at its place. A place past the keys reads MISSING.
    pub fn holds(&self, row: &Row) -> bool
        ensures { result ≡ span_holds self.now row.now.keys }
    {
        for (place, range) in self.as_slice().iter().enumerate() {
            if !range.holds(row.keys.get_or(place, &Value::Missing)) {
                return false;
            }
        }
        true
    }
}
