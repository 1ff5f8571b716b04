//! What the grammar sees of tokens.

ghost use Rattle.std.specs.Prelude.{◌≡◌, IfOk};
ghost use Rattle.n1ql_ast.specs.Keywords.{keyword_spelt};
ghost use Rattle.n1ql_parse.specs.Input as spec;

use n1ql_ast::{Keyword, TokenClass};
use n1ql_lex::{Token, TokenKind};
use n1ql_value::Memory;
use sqlite_items::Items;
use std::alloc::Global;

/// A keyword, where the spelling is that of one.
fn keyword_class(spelling: &str) -> TokenClass
    ensures { result ≡ spec.keyword_class (keyword_spelt spelling.now) }
{
    match Keyword::spelt(spelling) {
        Some(keyword) => TokenClass::Keyword(keyword),
        None => TokenClass::Other,
    }
}

/// What the grammar sees of a token.
fn class_of(alloc: Global, kind: &TokenKind) -> Result<TokenClass, Memory>
    ensures { IfOk result (λ seen. seen ≡ spec.class_of kind.now) }
{
    match kind {
        TokenKind::Word(text) | TokenKind::Sign(text) => Ok(keyword_class(text.as_str())),
        TokenKind::Name { text, quoted } => Ok(TokenClass::Name(text.copy(alloc)?, *quoted)),
        TokenKind::Str(text) => Ok(TokenClass::Str(text.copy(alloc)?)),
        TokenKind::Num(number) => Ok(TokenClass::Num(*number)),
    }
}

/// What the grammar sees of tokens.
pub fn classes_of(alloc: Global, tokens: &[Token]) -> Result<Items<TokenClass>, Memory>
    ensures { IfOk result (λ classes. classes ≡ spec.classes_of tokens.now) }
{
    let mut classes = Items::new(alloc);
    for token in tokens {
        classes.push(class_of(alloc, &token.kind)?)?;
    }
    Ok(classes)
}
