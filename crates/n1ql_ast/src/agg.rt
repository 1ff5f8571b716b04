/// An aggregate over the rows of a group.
#[derive(Clone, Copy, Debug, PartialEq, Eq)]
pub enum Agg {
    /// COUNT of all rows.
    CountAll,
    Count,
    Sum,
    Min,
    Max,
    ArrayAgg,
}
