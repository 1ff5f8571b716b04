ghost use Rattle.std.specs.Prelude.{◌≡◌, ◌<◌, ◌≤◌, ◌^◌, IfSome, IsTrue, length, drop};
ghost use Rattle.std.specs.Char.{digit_value};
ghost use Rattle.std.specs.Char.Utf16.{is_high_surrogate};
ghost use Rattle.std.specs.Option.{SomeIff};
ghost use Rattle.n1ql_lex.specs.Quoted.{escape_at, escaped_char, hex4, is_escape, is_plain, pair_at, pair_of, part_at, quote_at, unit_of};

/// What stands at the front of quoted text.
#[derive(Clone, Copy, Debug, PartialEq, Eq)]
pub enum QuotedPart {
    /// The quote that ends the text.
    End,
    /// A byte that stands for itself.
    Plain,
    /// The first `len` bytes, which stand for a character.
    Stands { character: char, len: usize },
    /// Nothing that may stand there.
    Broken,
}

/// The character that a letter stands for behind a backslash.
fn escaped_char(letter: u8) -> Option<char>
    ensures { result ≡ escaped_char letter }
{
    if letter == b'"' || letter == b'\'' || letter == b'\\' || letter == b'/' {
        Some(letter as char)
    } else if letter == b'b' {
        Some('\u{8}')
    } else if letter == b'f' {
        Some('\u{c}')
    } else if letter == b'n' {
        Some('\n')
    } else if letter == b'r' {
        Some('\r')
    } else if letter == b't' {
        Some('\t')
    } else {
        None
    }
}

/// The value of a hexadecimal digit.
fn hex_value(digit: u8) -> Option<u32>
    ensures { SomeIff result (digit_value digit < 16) (digit_value digit) }
{
    (digit as char).to_digit(16)
}

/// The number that four hexadecimal digits at the front write.
#[tactic(auto, unfolding(crate::specs::Quoted::hex4))]
fn hex4(bytes: &[u8]) -> Option<u32>
    ensures value { result ≡ hex4 bytes.now }
    ensures small { IfSome result (λ unit. unit < 2 ^ 16) }
    ensures four { IfSome result (λ _. 4 ≤ length bytes.now) }
{
    if bytes.len() < 4 {
        return None;
    }
    let a = hex_value(bytes[0])?;
    let b = hex_value(bytes[1])?;
    let c = hex_value(bytes[2])?;
    let d = hex_value(bytes[3])?;
    Some(((a * 16 + b) * 16 + c) * 16 + d)
}

/// The character of a pair of surrogates.
fn pair_of(high: u32, low: u32) -> QuotedPart
    requires high { IsTrue (is_high_surrogate high) }
    requires low { low < 2 ^ 16 }
    ensures { result ≡ pair_of high (Some low) }
{
    if low < 0xdc00 || 0xe000 <= low {
        return QuotedPart::Broken;
    }
    match char::from_u32(0x10000 + (high - 0xd800) * 0x400 + (low - 0xdc00)) {
        Some(character) => QuotedPart::Stands { character, len: 12 },
        None => QuotedPart::Broken,
    }
}

/// What stands after `\u` and a high surrogate.
#[tactic(auto, unfolding(crate::specs::Quoted::pair_at))]
fn pair_at(high: u32, bytes: &[u8]) -> QuotedPart
    requires { IsTrue (is_high_surrogate high) }
    ensures { result ≡ pair_at high bytes.now }
{
    if bytes.len() < 2 || bytes[0] != b'\\' || bytes[1] != b'u' {
        return QuotedPart::Broken;
    }
    match hex4(&bytes[2..]) {
        Some(low) => pair_of(high, low),
        None => QuotedPart::Broken,
    }
}

/// What stands after `\u`.
fn unit_at(bytes: &[u8]) -> QuotedPart
    ensures { result ≡ unit_of (hex4 bytes.now) (drop 4 bytes.now) }
{
    let Some(unit) = hex4(bytes) else {
        return QuotedPart::Broken;
    };
    match char::from_u32(unit) {
        Some(character) => QuotedPart::Stands { character, len: 6 },
        None if unit < 0xdc00 => pair_at(unit, &bytes[4..]),
        None => QuotedPart::Broken,
    }
}

/// What stands after a backslash.
#[tactic(auto, unfolding(crate::specs::Quoted::escape_at))]
fn escape_at(bytes: &[u8]) -> QuotedPart
    ensures { result ≡ escape_at bytes.now }
{
    let Some((letter, rest)) = bytes.split_first() else {
        return QuotedPart::Broken;
    };
    if *letter == b'u' {
        return unit_at(rest);
    }
    match escaped_char(*letter) {
        Some(character) => QuotedPart::Stands { character, len: 2 },
        None => QuotedPart::Broken,
    }
}

/// What stands after a quote of the kind that opened the text.
fn quote_at(quote: u8, bytes: &[u8]) -> QuotedPart
    ensures { result ≡ quote_at quote bytes.now }
{
    match bytes.first() {
        Some(next) if *next == quote => QuotedPart::Stands {
            character: quote as char,
            len: 2,
        },
        _ => QuotedPart::End,
    }
}

/// Whether a byte begins an escape, in text that this quote opened.
fn is_escape(quote: u8, byte: u8) -> bool
    ensures { result ≡ is_escape quote byte }
{
    byte == b'\\' && quote != b'`'
}

/// Whether a byte stands for itself, in text that this quote opened.
pub fn is_plain(quote: u8, byte: u8) -> bool
    ensures { result ≡ is_plain quote byte }
{
    byte != quote && !is_escape(quote, byte)
}

/// What stands at the front of text that this quote opened.
#[tactic(auto, unfolding(crate::specs::Quoted::part_at))]
pub fn part_at(quote: u8, bytes: &[u8]) -> QuotedPart
    ensures { result ≡ part_at quote bytes.now }
{
    let Some((first, rest)) = bytes.split_first() else {
        return QuotedPart::Broken;
    };
    if *first == quote {
        quote_at(quote, rest)
    } else if is_escape(quote, *first) {
        escape_at(rest)
    } else {
        QuotedPart::Plain
    }
}
