//! What a single token can be in an expression.

ghost use Rattle.std.specs.Prelude.{◌≡◌, IfOk};
ghost use Rattle.n1ql_ast.specs.Operators as operators;
ghost use Rattle.n1ql_parse.specs.inner.Parser as spec;
ghost use Rattle.n1ql_parse.specs.inner.Steps.{Gives, got};

use crate::expressions::precedence::Precedence;
use crate::tokens::cursor::Cursor;
use crate::tokens::parse_stop::ParseStop;
use n1ql_ast::{Keyword, Test, TokenClass};
use n1ql_value::{Memory, Op, Value};
use std::alloc::Global;

/// The least number without its sign.
const LEAST: u64 = 1 << 63;

/// The operator of a comparison.
fn compare_of(keyword: Keyword) -> Option<Op>
    ensures { result ≡ operators.compare_of keyword }
{
    match keyword {
        Keyword::Equal | Keyword::DoubleEqual => Some(Op::Eq),
        Keyword::NotEqual | Keyword::LessGreater => Some(Op::Ne),
        Keyword::Less => Some(Op::Lt),
        Keyword::LessEqual => Some(Op::Le),
        Keyword::Greater => Some(Op::Gt),
        Keyword::GreaterEqual => Some(Op::Ge),
        _ => None,
    }
}

/// The operator of a level that a keyword is.
fn op_at(precedence: Precedence, keyword: Keyword) -> Option<Op>
    ensures { result ≡ spec.op_at precedence keyword }
{
    match (precedence, keyword) {
        (Precedence::Or, Keyword::Or) => Some(Op::Or),
        (Precedence::And, Keyword::And) => Some(Op::And),
        (Precedence::Test, keyword) => compare_of(keyword),
        (Precedence::Add, Keyword::Plus) => Some(Op::Add),
        (Precedence::Add, Keyword::Minus) => Some(Op::Sub),
        (Precedence::Add, Keyword::DoubleBar) => Some(Op::Cat),
        (Precedence::Mul, Keyword::Star) => Some(Op::Mul),
        (Precedence::Mul, Keyword::Percent) => Some(Op::Mod),
        _ => None,
    }
}

/// The operator of a level that the next token is.
fn next_op(classes: &[TokenClass], precedence: Precedence) -> Option<Op>
    ensures { result ≡ spec.next_op precedence classes.now }
{
    match classes.split_first() {
        Some((TokenClass::Keyword(keyword), _)) => op_at(precedence, *keyword),
        _ => None,
    }
}

/// Moves past an operator of a level where one comes next.
pub fn operator(tokens: &mut Cursor<'_>, precedence: Precedence) -> Option<Op>
    ensures { spec.operator precedence tokens.old ≡ got result tokens.new }
{
    let op = next_op(tokens.rest(), precedence)?;
    tokens.skip();
    Some(op)
}

/// The constant that the next token is by itself.
fn next_constant(alloc: Global, classes: &[TokenClass]) -> Result<Option<Value>, Memory>
    ensures { IfOk result (λ value. value ≡ spec.next_constant classes.now) }
{
    match classes.split_first() {
        Some((TokenClass::Num(number), _)) => match i64::try_from(*number) {
            Ok(number) => Ok(Some(Value::Int(number))),
            Err(_) => Ok(None),
        },
        Some((TokenClass::Str(text), _)) => Ok(Some(Value::Text(text.copy(alloc)?))),
        Some((TokenClass::Keyword(Keyword::True), _)) => Ok(Some(Value::Bool(true))),
        Some((TokenClass::Keyword(Keyword::False), _)) => Ok(Some(Value::Bool(false))),
        Some((TokenClass::Keyword(Keyword::Null), _)) => Ok(Some(Value::Null)),
        Some((TokenClass::Keyword(Keyword::Missing), _)) => Ok(Some(Value::Missing)),
        _ => Ok(None),
    }
}

/// Moves past a constant where one comes next.
pub fn constant(alloc: Global, tokens: &mut Cursor<'_>) -> Result<Option<Value>, ParseStop>
    ensures { Gives (spec.constant tokens.old) result tokens.new }
{
    let constant = next_constant(alloc, tokens.rest())?;
    if constant.is_some() {
        tokens.skip();
    }
    Ok(constant)
}

/// Whether the next token is the least number without its sign.
fn sees_least(classes: &[TokenClass]) -> bool
    ensures { result ≡ spec.sees_least classes.now }
{
    match classes.split_first() {
        Some((TokenClass::Num(number), _)) => *number == LEAST,
        _ => false,
    }
}

/// Moves past the least number without its sign where it comes next, and tells whether it did.
pub fn eat_least(tokens: &mut Cursor<'_>) -> bool
    ensures { spec.eat_least tokens.old ≡ got result tokens.new }
{
    let found = sees_least(tokens.rest());
    if found {
        tokens.skip();
    }
    found
}

/// Moves past what IS tests.
pub fn test(tokens: &mut Cursor<'_>) -> Result<Test, ParseStop>
    ensures { Gives (spec.test_of tokens.old) result tokens.new }
{
    let test = match tokens.rest().split_first() {
        Some((TokenClass::Keyword(Keyword::Null), _)) => Test::Null,
        Some((TokenClass::Keyword(Keyword::Missing), _)) => Test::Missing,
        Some((TokenClass::Keyword(Keyword::Valued), _)) => Test::Valued,
        _ => return Err(tokens.fault()),
    };
    tokens.skip();
    Ok(test)
}
