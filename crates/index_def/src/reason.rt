/// Why a statement defines no index. A statement may have several reasons: they are told in this order.
#[derive(Clone, Copy, Debug, PartialEq, Eq)]
pub enum Reason {
    /// More than sixteen keys.
    TooManyKeys,
    /// More than one array key.
    TwoArrays,
    /// A key in which neither the document, nor a field of it, nor META of it stands.
    ConstantKey,
    /// META of another name than the document's, in a key, in WHERE or in the options.
    MetaAlias,
    /// Another option than `defer_build` with TRUE or FALSE, written out.
    With,
}
