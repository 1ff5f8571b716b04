/// What a request came to at its first action.
#[derive(Clone, Copy, Debug, PartialEq, Eq)]
pub enum Started {
    /// It began on the index of this number.
    Started { index: u32 },
    /// It is refused, with a code of `scan_history::refusals`.
    Refused(u8),
}
