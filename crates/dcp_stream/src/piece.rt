use vb_store::Muts;

/// Mutations of one vBucket with numbers side by side, and the marker that they lie in.
#[derive(Drop)]
pub struct Piece {
    pub vb: u32,
    /// The first number of the marker.
    pub start: u64,
    /// The last number of the marker.
    pub end: u64,
    /// The number of the first mutation.
    pub from: u64,
    /// The number of the last mutation.
    pub to: u64,
    /// The mutations, in the order of their numbers.
    pub muts: Muts,
}
