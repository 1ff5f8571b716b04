use crate::key_version::KeyVersions;

/// What becomes of a piece of mutations in an index.
#[derive(Drop)]
pub struct Projected {
    /// The number of the index.
    pub index: u32,
    pub vb: u32,
    /// The number of the first mutation.
    pub from: u64,
    /// The number of the last mutation.
    pub to: u64,
    /// The last number of the marker that the piece lies in.
    pub end: u64,
    /// In the order of the mutations' numbers.
    pub versions: KeyVersions,
}
