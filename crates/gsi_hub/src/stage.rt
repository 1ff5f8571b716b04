/// What a client is at.
#[derive(Clone, Copy, Debug, PartialEq, Eq)]
pub enum Stage {
    /// Its next command waits for its first action.
    Idle,
    /// Indexes are built.
    Work,
    /// A request on this index waits for its answer.
    Started { i: u32 },
    /// A query that was picked from this index waits for its fetch.
    Picked { i: u32 },
    /// It has no command left.
    Ended,
}
