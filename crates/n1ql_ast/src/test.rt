/// What IS tests of a value.
#[derive(Clone, Copy, Debug, PartialEq, Eq)]
pub enum Test {
    Null,
    Missing,
    /// Neither NULL nor MISSING.
    Valued,
}
