ghost use Rattle.std.specs.Prelude.{◌≡◌};
ghost use Rattle.n1ql_lex.specs.Bytes.{is_blank, is_letter, is_word_byte, opening_of};

/// What begins with a byte.
#[derive(Clone, Copy, Debug, PartialEq, Eq)]
pub enum Opening {
    /// Nothing: the byte parts tokens.
    Blank,
    /// A reserved word or a name.
    Word,
    /// A number.
    Number,
    /// A string.
    String,
    /// A name in backquotes.
    Name,
    /// A sign, or nothing.
    Sign,
}

pub fn is_blank(byte: u8) -> bool
    ensures { result ≡ is_blank byte }
{
    byte == b' ' || byte == b'\t' || byte == b'\n' || byte == b'\r'
}

pub fn is_letter(byte: u8) -> bool
    ensures { result ≡ is_letter byte }
{
    byte.is_ascii_alphabetic() || byte == b'_'
}

pub fn is_word_byte(byte: u8) -> bool
    ensures { result ≡ is_word_byte byte }
{
    is_letter(byte) || byte.is_ascii_digit() || byte == b'$'
}

#[tactic(auto, unfolding(crate::specs::Bytes::opening_of))]
pub fn opening_of(byte: u8) -> Opening
    ensures { result ≡ opening_of byte }
{
    if is_blank(byte) {
        Opening::Blank
    } else if is_letter(byte) {
        Opening::Word
    } else if byte.is_ascii_digit() {
        Opening::Number
    } else if byte == b'"' || byte == b'\'' {
        Opening::String
    } else if byte == b'`' {
        Opening::Name
    } else {
        Opening::Sign
    }
}
