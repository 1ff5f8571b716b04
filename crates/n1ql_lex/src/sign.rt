ghost use Rattle.std.specs.Prelude.{◌≡◌, ◌≤◌, IfOk, length};
ghost use Rattle.n1ql_lex.specs.Lexemes.{IsLexemeOf};
ghost use Rattle.n1ql_lex.specs.Signs.{is_sign, is_sign_of_two, sign_of};

use crate::lexeme::Lexeme;
use crate::opening::Opening;
use crate::token_kind::TokenKind;
use n1ql_value::{Memory, Text};
use std::alloc::Global;

/// Whether a byte is a sign.
fn is_sign(byte: u8) -> bool
    ensures { result ≡ is_sign byte }
{
    b"()[]{},.:+-*%=<>".contains(&byte)
}

/// Whether two bytes are one sign.
fn is_sign_of_two(first: u8, second: u8) -> bool
    ensures { result ≡ is_sign_of_two first second }
{
    match (first, second) {
        (b'=' | b'!' | b'<' | b'>', b'=') => true,
        (b'<', b'>') | (b'|', b'|') => true,
        _ => false,
    }
}

/// The number of bytes of the longest sign at the front, 0 where there is none.
#[tactic(auto, unfolding(crate::specs::Signs::sign_of))]
fn sign_len(bytes: &[u8]) -> usize
    ensures { result ≡ length (sign_of bytes.now) }
{
    match bytes {
        [] => 0,
        [first, second, ..] if is_sign_of_two(*first, *second) => 2,
        [first, ..] => usize::from(is_sign(*first)),
    }
}

/// The sign at the front of a text.
pub fn sign_at(alloc: Global, text: &str) -> Result<Option<Lexeme>, Memory>
    ensures { IfOk result (IsLexemeOf Opening.Sign text.now) }
{
    let len = sign_len(text.as_bytes());
    if len == 0 {
        return Ok(None);
    }
    let kind = TokenKind::Sign(Text::of(alloc, &text[..len])?);
    Ok(Some(Lexeme { kind, len }))
}
