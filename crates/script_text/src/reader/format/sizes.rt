/// What the header says of sizes.
#[derive(Clone, Copy)]
pub(crate) struct Sizes {
    /// How many vBuckets there are.
    pub(crate) vbuckets: u32,
    /// How many clients there are.
    pub(crate) clients: u32,
}
