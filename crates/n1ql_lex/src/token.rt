use crate::token_kind::TokenKind;
use n1ql_value::ListOf;

/// A token and its place: the bytes of the text from `start` to before `end`.
#[derive(Debug, Drop, PartialEq, Eq)]
pub struct Token {
    pub kind: TokenKind,
    pub start: usize,
    pub end: usize,
}

/// Tokens, in the order of their places.
pub type Tokens = ListOf<Token>;
