/// What of a script passed its limit.
#[derive(Clone, Copy, Debug, PartialEq, Eq)]
pub enum What {
    /// The bytes of the input.
    Input,
    /// The lines beside the header and blank ones.
    Lines,
    /// The vBuckets times those lines.
    Product,
    /// The scans and queries.
    Scans,
}
