ghost use Rattle.std.specs.Prelude.{◌≡◌, ℕ, List, ◌<◌, ◌≤◌, IfOk, IfSome, MatchOption, length, slice_index};
ghost use Rattle.std.specs.List.{prefix_len};
ghost use Rattle.n1ql_lex.specs.Lexemes.{IsLexemeOf};
ghost use Rattle.n1ql_lex.specs.Quoted.{is_plain, IsQuoted};

use crate::lexeme::Lexeme;
use crate::opening::Opening;
use crate::quoted_part::{QuotedPart, is_plain, part_at};
use crate::token_kind::TokenKind;
use n1ql_value::{Memory, Text};
use std::alloc::Global;

/// The text that quoted text stands for, and the number of its bytes after the opening quote.
#[derive(Drop)]
struct QuotedText {
    text: Text,
    len: usize,
}

/// The number of bytes at the front that stand for themselves.
#[tactic(auto, using(std::proofs::lemmas::List::Sums::prefix_len_is))]
fn plain_len(quote: u8, bytes: &[u8]) -> usize
    ensures { result ≡ prefix_len (is_plain quote) bytes.now }
{
    let mut len = 0;
    while len < bytes.len() && is_plain(quote, bytes[len]) {
        len += 1;
    }
    len
}

/// The text behind an opening quote up to the quote that closes it, where there is one.
fn quoted_text(alloc: Global, quote: u8, body: &str) -> Result<Option<QuotedText>, Memory>
    requires { quote < 128 }
    ensures within { IfOk result (λ found. IfSome found (λ quoted. quoted.len ≤ length body.now)) }
    ensures quoted { IfOk result (λ found. MatchOption found
        ((text : List ℕ) (len : ℕ) → IsQuoted quote body.now text len → ⊥)
        (λ quoted. IsQuoted quote body.now quoted.text quoted.len)) }
{
    let mut text = String::new(alloc);
    let mut rest = body;
    loop {
        match part_at(quote, rest.as_bytes()) {
            QuotedPart::End => {
                let text = Text::of(alloc, text.as_str())?;
                let len = body.len() - rest.len() + 1;
                return Ok(Some(QuotedText { text, len }));
            }
            QuotedPart::Plain => {
                let (plain, after) = rest.split_at(plain_len(quote, rest.as_bytes()));
                text.push_str(plain)?;
                rest = after;
            }
            QuotedPart::Stands { character, len } => {
                text.push(character)?;
                rest = &rest[len..];
            }
            QuotedPart::Broken => return Ok(None),
        }
    }
}

/// The string at the front of a text, whose first byte is its quote.
pub fn string_at(alloc: Global, text: &str) -> Result<Option<Lexeme>, Memory>
    requires some { 0 < length text.now }
    requires quote { slice_index text.now 0 < 128 }
    ensures { IfOk result (IsLexemeOf Opening.String text.now) }
{
    let quote = text.as_bytes()[0];
    match quoted_text(alloc, quote, &text[1..])? {
        Some(quoted) => Ok(Some(Lexeme {
            kind: TokenKind::Str(quoted.text),
            len: quoted.len + 1,
        })),
        None => Ok(None),
    }
}

/// The name in backquotes at the front of a text, whose first byte is the backquote.
pub fn name_at(alloc: Global, text: &str) -> Result<Option<Lexeme>, Memory>
    requires some { 0 < length text.now }
    requires quote { slice_index text.now 0 < 128 }
    ensures { IfOk result (IsLexemeOf Opening.Name text.now) }
{
    let quote = text.as_bytes()[0];
    let Some(quoted) = quoted_text(alloc, quote, &text[1..])? else {
        return Ok(None);
    };
    if quoted.text.as_str().is_empty() {
        return Ok(None);
    }
    Ok(Some(Lexeme {
        kind: TokenKind::Name {
            text: quoted.text,
            quoted: true,
        },
        len: quoted.len + 1,
    }))
}
