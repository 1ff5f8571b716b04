/// What an expression may speak of.
#[derive(Clone, Copy)]
pub enum Subject {
    /// The document: the whole, a field of it, or META of it.
    Document,
    /// META of another name.
    OtherName,
}
