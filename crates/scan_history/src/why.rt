use index_def::Reason;

/// What a refusal tells beside its code.
#[derive(Clone, Copy, Debug, PartialEq, Eq)]
pub enum Why {
    /// Nothing.
    Plain,
    /// The place of the fault of a text, in bytes.
    At(usize),
    /// The reason against a definition.
    Because(Reason),
}
