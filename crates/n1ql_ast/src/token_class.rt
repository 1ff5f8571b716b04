use crate::keyword::Keyword;
use n1ql_value::Text;

/// What the grammar sees of a token.
#[derive(Debug, Drop)]
pub enum TokenClass {
    Keyword(Keyword),
    /// A name, and whether it stands in backquotes.
    Name(Text, bool),
    Str(Text),
    Num(u64),
    /// A word or a sign that is no keyword.
    Other,
}
