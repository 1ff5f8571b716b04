//! Texts as few tokens, and the places in them. It knows nothing of a grammar.

ghost use Rattle.std.specs.Prelude.{◌≡◌, ◌≤◌, IfErr, IfOk, length};
ghost use Rattle.n1ql_lex.specs.Tokens.{IsTokens};
ghost use Rattle.n1ql_parse.specs.Faults as spec;
ghost use Rattle.n1ql_parse.specs.Faults.{IsTokenFault, OnPlace};
ghost use Rattle.n1ql_parse.specs.Readings.{most_tokens};
ghost use Rattle.n1ql_parse.specs.inner.Stops.{LeftOf};
ghost use Rattle.n1ql_parse.specs.inner.Stops as stops;

use crate::parse_fault::ParseFault;
use crate::tokens::parse_stop::ParseStop;
use n1ql_lex::{LexFault, Token, Tokens, tokens};
use std::alloc::Global;

/// The greatest number of tokens of a text that is read.
const MOST_TOKENS: usize = 512;

/// The tokens of a text, where they are few.
pub fn few_tokens(alloc: Global, text: &str) -> Result<Tokens, ParseFault>
    ensures cut { IfOk result (λ tokens. IsTokens text.now tokens) }
    ensures few { IfOk result (λ tokens. length tokens ≤ most_tokens) }
    ensures fault { IfErr result (OnPlace (IsTokenFault text.now)) }
{
    match tokens(alloc, text) {
        Ok(tokens) if tokens.len() > MOST_TOKENS => Err(ParseFault::Fault {
            at: place_of(text, tokens.as_slice(), MOST_TOKENS),
        }),
        Ok(tokens) => Ok(tokens),
        Err(LexFault::Fault { at }) => Err(ParseFault::Fault { at }),
        Err(LexFault::Memory) => Err(ParseFault::Memory),
    }
}

/// The place of the token behind `n` others, or the end of the text where there is none.
fn place_of(text: &str, tokens: &[Token], n: usize) -> usize
    ensures { result ≡ spec.place_of text.now tokens.now n }
{
    match tokens.get(n) {
        Some(token) => token.start,
        None => text.len(),
    }
}

/// The fault of a text of these tokens, at the place where reading stopped.
pub fn fault_at(text: &str, tokens: &[Token], stop: ParseStop) -> ParseFault
    requires { LeftOf (length tokens.now) stop }
    ensures { result ≡ stops.fault_at text.now tokens.now stop }
{
    match stop {
        ParseStop::Fault { left } => ParseFault::Fault {
            at: place_of(text, tokens, tokens.len() - left),
        },
        ParseStop::Memory => ParseFault::Memory,
    }
}
