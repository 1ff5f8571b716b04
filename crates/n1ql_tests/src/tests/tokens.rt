use n1ql_lex::{LexFault, Token, TokenKind, tokens};
use std::alloc::{AllocError, Global};
use std::fmt::Write;
use std::process::Abort;
use std::test::Fail;

/// Texts, and their tokens with their places, or the place of the fault.
const TABLE: [(&str, &str); 40] = [
    ("", ""),
    (" \t\n\r", ""),
    (
        "SELECT x FROM",
        "word SELECT 0 6;name x 7 8;word FROM 9 13;",
    ),
    (
        "select Selected _a$1",
        "word SELECT 0 6;name Selected 7 15;name _a$1 16 20;",
    ),
    ("$", "fault 0"),
    ("`a b``c` ````", "quoted a b`c 0 8;quoted ` 9 13;"),
    ("``", "fault 0"),
    ("`a", "fault 0"),
    (
        "'it''s' \"a\"\"b\" '\"' \"'\" ''",
        "str it's 0 7;str a\"b 8 14;str \" 15 18;str ' 19 22;str  23 25;",
    ),
    (
        "'\\\"\\'\\\\\\/\\b\\f\\n\\r\\t'",
        "str \"'\\/\u{8}\u{c}\n\r\t 0 20;",
    ),
    ("'\\u0041\\u00e9\\u20AC'", "str Aé€ 0 20;"),
    ("'\\ud83d\\ude00\\uD83D\\uDE00'", "str 😀😀 0 26;"),
    ("'\\ud83d'", "fault 0"),
    ("'\\ude00'", "fault 0"),
    ("'\\ud83d\\u0041'", "fault 0"),
    ("'\\ud83dx'", "fault 0"),
    ("'\\x'", "fault 0"),
    ("'\\u12'", "fault 0"),
    ("'\\u12g4'", "fault 0"),
    ("x 'a", "fault 2"),
    ("`\\n`", "quoted \\n 0 4;"),
    ("'é€' `ü`", "str é€ 0 7;quoted ü 8 12;"),
    (
        "0 7 9223372036854775808",
        "num 0 0 1;num 7 2 3;num 9223372036854775808 4 23;",
    ),
    ("9223372036854775809", "fault 0"),
    ("99999999999999999999", "fault 0"),
    ("01", "fault 0"),
    ("1a", "fault 0"),
    ("1_", "fault 0"),
    ("1$", "fault 0"),
    (
        "1. 1..5 a.1",
        "num 1 0 1;sign . 1 2;num 1 3 4;sign . 4 5;sign . 5 6;num 5 6 7;name a 8 9;sign . 9 10;num 1 10 11;",
    ),
    ("x 1.5", "fault 2"),
    (
        "= == === != <> < <= > >= <== ||",
        "sign = 0 1;sign == 2 4;sign == 5 7;sign = 7 8;sign != 9 11;sign <> 12 14;sign < 15 16;sign <= 17 19;sign > 20 21;sign >= 22 24;sign <= 25 27;sign = 27 28;sign || 29 31;",
    ),
    (
        "( ) [ ] { } , . : + - * %",
        "sign ( 0 1;sign ) 2 3;sign [ 4 5;sign ] 6 7;sign { 8 9;sign } 10 11;sign , 12 13;sign . 14 15;sign : 16 17;sign + 18 19;sign - 20 21;sign * 22 23;sign % 24 25;",
    ),
    ("|", "fault 0"),
    ("a!", "fault 1"),
    ("é", "fault 0"),
    ("5é", "fault 1"),
    ("x ; y", "fault 2"),
    ("a'b'c", "name a 0 1;str b 1 4;name c 4 5;"),
    (
        "1'b'\"c\"(d)",
        "num 1 0 1;str b 1 4;str c 4 7;sign ( 7 8;name d 8 9;sign ) 9 10;",
    ),
];

fn show(out: &mut String, token: &Token) -> Result<(), AllocError> {
    let start = token.start;
    let end = token.end;
    match &token.kind {
        TokenKind::Word(text) => write!(out, "word {} {start} {end};", text.as_str()),
        TokenKind::Name { text, quoted: true } => {
            write!(out, "quoted {} {start} {end};", text.as_str())
        }
        TokenKind::Name { text, .. } => write!(out, "name {} {start} {end};", text.as_str()),
        TokenKind::Str(text) => write!(out, "str {} {start} {end};", text.as_str()),
        TokenKind::Num(number) => write!(out, "num {number} {start} {end};"),
        TokenKind::Sign(text) => write!(out, "sign {} {start} {end};", text.as_str()),
    }
}

fn shown(alloc: Global, text: &str) -> Result<String, AllocError> {
    let mut out = String::new(alloc);
    match tokens(alloc, text) {
        Ok(list) => {
            for at in 0..list.len() {
                if let Some(token) = list.get(at) {
                    show(&mut out, token)?;
                }
            }
        }
        Err(LexFault::Fault { at }) => write!(out, "fault {at}")?,
        Err(LexFault::Memory) => out.push_str("memory")?,
    }
    Ok(out)
}

fn check(rt: &impl Abort, alloc: Global, table: &[(&str, &str)]) -> Result<(), Fail> {
    for (text, wanted) in table {
        assert_eq!(rt; shown(alloc, text)?.as_str(), *wanted, "of {text:?}");
    }
    Ok(())
}

#[test]
fn texts_have_these_tokens_or_faults(rt: HostRuntime) -> Result<(), Fail> {
    check(&rt, rt.alloc(), &TABLE)
}

#[test]
fn a_fraction_is_a_fault_at_its_first_digit(rt: HostRuntime) {
    let fault = tokens(rt.alloc(), "1.5").err();
    assert_eq!(rt; fault, Some(LexFault::Fault { at: 0 }));
}
