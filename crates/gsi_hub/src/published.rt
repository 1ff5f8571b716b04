/// What became of a snapshot.
#[derive(Clone, Copy, Debug, PartialEq, Eq)]
pub enum Published {
    /// It is the newest of its index.
    Published,
    /// It is the newest already, or goes back somewhere.
    Stale,
    /// Its index was dropped.
    Dropped,
}
