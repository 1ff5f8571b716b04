use n1ql_value::Text;

/// What a token is.
#[derive(Debug, Drop, PartialEq, Eq)]
pub enum TokenKind {
    /// A reserved word, in capitals.
    Word(Text),
    /// A name, in backquotes or without.
    Name { text: Text, quoted: bool },
    /// A string, by the text that it stands for.
    Str(Text),
    /// A number of at most 2^63.
    Num(u64),
    /// A sign.
    Sign(Text),
}
