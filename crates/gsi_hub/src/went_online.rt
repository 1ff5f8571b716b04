/// What became of the building of indexes.
#[derive(Clone, Copy, Debug, PartialEq, Eq)]
pub enum WentOnline {
    /// Those that are live are online.
    Online,
    /// The command is refused, as all of them were dropped.
    Dropped,
    /// They wait for this one: its newest snapshot doesn't cover where the build began. It is the least of such numbers.
    NotCovered { i: u32 },
}
