/// What is wrong with a line of a script. A line that has several things wrong has the first kind of them, in this order.
#[derive(Clone, Copy, Debug, PartialEq, Eq)]
pub enum Kind {
    /// The line is no JSON (RFC 8259).
    Syntax,
    /// It has a number that is no whole one from -2^63 to 2^63 - 1.
    Number,
    /// It is a header of another version.
    Version,
    /// It is no object of the format: a member is missing, unknown, or of another kind.
    Shape,
    /// A number, a length or a count is outside its bounds.
    Range,
    /// It is of a form that is not built yet.
    Unbuilt,
}
