ghost use Rattle.std.specs.Prelude.{◌≡◌, ◌^◌, ◌≤◌, length, MatchOption, IsTrue, not};
ghost use Rattle.std.specs.Option.{SomeIff};
ghost use Rattle.std.specs.List.{AllPass, prefix_len};
ghost use Rattle.std.specs.Char.{is_ascii_digit};
ghost use Rattle.n1ql_lex.specs.Lexemes.{IsLexemeOf};
ghost use Rattle.n1ql_lex.specs.Numbers.{digits_of, goes_on, has_leading_zero, is_number, value_of};

use crate::lexeme::Lexeme;
use crate::opening::{Opening, is_letter};
use crate::token_kind::TokenKind;

/// The greatest number, which stands only behind a minus sign.
const GREATEST: u64 = 1 << 63;

/// The number of digits at the front.
#[tactic(auto, using(std::proofs::lemmas::List::Sums::prefix_len_is))]
fn digits_len(bytes: &[u8]) -> usize
    ensures { result ≡ prefix_len is_ascii_digit bytes.now }
{
    let mut len = 0;
    while len < bytes.len() && bytes[len].is_ascii_digit() {
        len += 1;
    }
    len
}

/// The number that digits write, `None` past the greatest.
fn value_of(digits: &[u8]) -> Option<u64>
    requires { AllPass is_ascii_digit digits.now }
    ensures { SomeIff result (value_of digits.now ≤ 2 ^ 63) (value_of digits.now) }
{
    let mut value: u64 = 0;
    for digit in digits {
        let more = u64::from(*digit - b'0');
        if value > (GREATEST - more) / 10 {
            return None;
        }
        value = value * 10 + more;
    }
    Some(value)
}

/// Whether digits begin with a 0 that isn't the whole number.
fn has_leading_zero(digits: &[u8]) -> bool
    ensures { result ≡ has_leading_zero digits.now }
{
    match digits.split_first() {
        Some((first, rest)) => *first == b'0' && !rest.is_empty(),
        None => false,
    }
}

/// Whether what follows a number directly may not: a letter, `_`, `$`, or a point and a digit.
fn goes_on(bytes: &[u8]) -> bool
    ensures { result ≡ goes_on bytes.now }
{
    match bytes {
        [] => false,
        [b'.', next, ..] => next.is_ascii_digit(),
        [first, ..] => is_letter(*first) || *first == b'$',
    }
}

/// The number at the front, whose digits are `len`, where it is one.
#[tactic(auto, unfolding(crate::specs::Numbers::is_number))]
fn number_of(bytes: &[u8], len: usize) -> Option<u64>
    requires { len ≡ length (digits_of bytes.now) }
    ensures { SomeIff result (IsTrue (is_number bytes.now)) (value_of (digits_of bytes.now)) }
{
    let (digits, rest) = bytes.split_at(len);
    if has_leading_zero(digits) || goes_on(rest) {
        return None;
    }
    value_of(digits)
}

/// The number at the front.
pub fn number_at(bytes: &[u8]) -> Option<Lexeme>
    ensures { IsLexemeOf Opening.Number bytes.now result }
{
    let len = digits_len(bytes);
    let number = number_of(bytes, len)?;
    Some(Lexeme {
        kind: TokenKind::Num(number),
        len,
    })
}
