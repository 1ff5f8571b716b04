ghost use Rattle.std.specs.Prelude.{◌≡◌, ◌<◌, IfOk, find, length, map, option_map};
ghost use Rattle.std.specs.List.{prefix_len};
ghost use Rattle.std.specs.Str.{bytes_eq, str_to_ascii_uppercase};
ghost use Rattle.n1ql_lex.specs.Bytes.{is_word_byte};
ghost use Rattle.n1ql_lex.specs.Tokens.{IsTokenOf};
ghost use Rattle.n1ql_lex.specs.Words.{kind_of_word, reserved_word_of};

use crate::lexeme::Lexeme;
use crate::opening::{Opening, is_word_byte};
use crate::token_kind::TokenKind;
use n1ql_value::{Memory, Text};
use std::alloc::Global;

const RESERVED: [&str; 58] = [
    "ALL",
    "AND",
    "ANY",
    "ARRAY",
    "AS",
    "ASC",
    "BETWEEN",
    "BUILD",
    "BY",
    "CASE",
    "CREATE",
    "DELETE",
    "DESC",
    "DISTINCT",
    "DROP",
    "ELSE",
    "END",
    "EVERY",
    "FALSE",
    "FIRST",
    "FOR",
    "FROM",
    "GROUP",
    "GSI",
    "HASH",
    "HAVING",
    "IN",
    "INCLUDE",
    "INDEX",
    "INNER",
    "IS",
    "JOIN",
    "LEFT",
    "LIMIT",
    "MISSING",
    "NOT",
    "NULL",
    "OFFSET",
    "ON",
    "OR",
    "ORDER",
    "PARTITION",
    "PRIMARY",
    "RAW",
    "SATISFIES",
    "SELECT",
    "SET",
    "THEN",
    "TRUE",
    "UNNEST",
    "UNSET",
    "UPDATE",
    "USE",
    "USING",
    "VALUED",
    "WHEN",
    "WHERE",
    "WITH",
];

/// The number of bytes at the front that may stand in a word.
#[tactic(auto, using(std::proofs::lemmas::List::Sums::prefix_len_is))]
fn word_len(bytes: &[u8]) -> usize
    ensures { result ≡ prefix_len is_word_byte bytes.now }
{
    let mut len = 0;
    while len < bytes.len() && is_word_byte(bytes[len]) {
        len += 1;
    }
    len
}

/// Whether a word in capitals is another without regard to case.
fn is_in_capitals(capitals: &[u8], word: &[u8]) -> bool
    ensures { result ≡ bytes_eq capitals.now (str_to_ascii_uppercase word.now) }
{
    if capitals.len() != word.len() {
        return false;
    }
    let mut at = 0;
    while at < word.len() {
        if capitals[at] != word[at].to_ascii_uppercase() {
            return false;
        }
        at += 1;
    }
    true
}

/// The word of a table in capitals that a word is without regard to case.
fn word_among<'a>(table: &[&'a str], word: &[u8]) -> Option<&'a str>
    ensures { option_map (λ found. found.now) result
        ≡ find (λ capitals. bytes_eq capitals (str_to_ascii_uppercase word.now)) (map (λ entry. entry.now) table.now) }
{
    for capitals in table {
        if is_in_capitals(capitals.as_bytes(), word) {
            return Some(*capitals);
        }
    }
    None
}

/// The reserved word that a word is without regard to case, in capitals.
#[tactic(auto, unfolding(crate::specs::Words::reserved_word_of))]
fn reserved_word(word: &[u8]) -> Option<&'static str>
    ensures { option_map (λ reserved. reserved.now) result ≡ reserved_word_of word.now }
{
    word_among(&RESERVED, word)
}

/// The kind of a token that is a word.
fn kind_of_word(alloc: Global, word: &str) -> Result<TokenKind, Memory>
    ensures { IfOk result (λ kind. kind ≡ kind_of_word word.now (reserved_word_of word.now)) }
{
    match reserved_word(word.as_bytes()) {
        Some(reserved) => Ok(TokenKind::Word(Text::of(alloc, reserved)?)),
        None => Ok(TokenKind::Name {
            text: Text::of(alloc, word)?,
            quoted: false,
        }),
    }
}

/// The word at the front of a text.
pub fn word_at(alloc: Global, text: &str) -> Result<Lexeme, Memory>
    ensures { IfOk result (λ found. IsTokenOf Opening.Word text.now found.kind found.len) }
{
    let len = word_len(text.as_bytes());
    let kind = kind_of_word(alloc, &text[..len])?;
    Ok(Lexeme { kind, len })
}
