//! The tokens of N1QL, each with its place in the text.
#![tactic(auto)]

pub mod laws;
mod lex_fault;
mod lexeme;
mod lexer;
mod number;
mod opening;
mod quoted_part;
mod quoted_text;
mod sign;
mod token;
mod token_kind;
mod word;

pub use lex_fault::LexFault;
pub use lexer::tokens;
pub use token::{Token, Tokens};
pub use token_kind::TokenKind;
