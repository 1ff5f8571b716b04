use scan_history::Numbers;

/// What a statement on indexes came to.
#[derive(Drop)]
pub enum Defined {
    /// It is done: an index was created that waits for its build, or one was dropped.
    Closed,
    /// The indexes of these numbers are built from now on.
    Building(Numbers),
    /// It is refused, with a code of `scan_history::refusals`.
    Refused(u8),
}
