/// What becomes of a piece that is offered.
#[derive(Clone, Copy, Debug, PartialEq, Eq)]
pub enum Offer {
    /// It is taken: its numbers above `after` are new.
    Next { after: u64 },
    /// All its numbers were taken before.
    Repeat,
    /// It begins at `from`, and the numbers between `have` and it were not taken.
    Gap { have: u64, from: u64 },
}
