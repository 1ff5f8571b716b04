/// How well an index serves a statement for which it qualifies.
#[derive(Clone, Copy, Debug, PartialEq, Eq)]
pub struct Fit {
    /// Whether the rows of the index tell all that the statement reads.
    pub covered: bool,
    /// How many keys of the index have bounding conjuncts.
    pub ranged: usize,
}
