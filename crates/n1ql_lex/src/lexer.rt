ghost use Rattle.std.specs.Prelude.{◌≡◌, IfOk, IfErr};
ghost use Rattle.n1ql_lex.specs.Lexemes.{IsFaultOf, IsLexeme};
ghost use Rattle.n1ql_lex.specs.Tokens.{IsTokens};

use crate::lex_fault::LexFault;
use crate::lexeme::Lexeme;
use crate::number::number_at;
use crate::opening::{Opening, is_blank, opening_of};
use crate::quoted_text::{name_at, string_at};
use crate::sign::sign_at;
use crate::token::{Token, Tokens};
use crate::word::word_at;
use n1ql_value::Memory;
use std::alloc::Global;

/// The token at the front of a text.
fn token_at(alloc: Global, text: &str) -> Result<Option<Lexeme>, Memory>
    ensures { IfOk result (IsLexeme text.now) }
{
    let Some(first) = text.as_bytes().first() else {
        return Ok(None);
    };
    match opening_of(*first) {
        Opening::Blank => Ok(None),
        Opening::Word => Ok(Some(word_at(alloc, text)?)),
        Opening::Number => Ok(number_at(text.as_bytes())),
        Opening::String => string_at(alloc, text),
        Opening::Name => name_at(alloc, text),
        Opening::Sign => sign_at(alloc, text),
    }
}

/// The tokens of a text.
///
/// # Errors
///
/// `Fault` exactly where the text has something that is no token, at the byte place where the first such thing begins.
/// `Memory` where memory ran out.
pub fn tokens(alloc: Global, text: &str) -> Result<Tokens, LexFault>
    ensures read { IfOk result (IsTokens text.now) }
    ensures fault { IfErr result (IsFaultOf text.now) }
{
    let mut tokens = Tokens::new(alloc);
    let mut rest = text;
    'scan: while let Some(first) = rest.as_bytes().first() {
        if is_blank(*first) {
            rest = &rest[1..];
            continue;
        }
        let start = text.len() - rest.len();
        let Some(found) = token_at(alloc, rest)? else {
            return Err(LexFault::Fault { at: start });
        };
        rest = &rest[found.len..];
        tokens.push(Token {
            kind: found.kind,
            start,
            end: start + found.len,
        })?;
    }
    Ok(tokens)
}
