use crate::token_kind::TokenKind;

/// A token at the front of a text, and the number of its bytes.
#[derive(Drop)]
pub struct Lexeme {
    pub kind: TokenKind,
    pub len: usize,
}
