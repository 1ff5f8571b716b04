/// What became of a piece that was delivered.
#[derive(Clone, Copy, Debug, PartialEq, Eq)]
pub enum Applied {
    /// Its numbers that are new were applied.
    Applied,
    /// All its numbers were applied before.
    Repeat,
    /// It begins at `from`, and the numbers between `have` and it were not applied.
    Gap { have: u64, from: u64 },
}
