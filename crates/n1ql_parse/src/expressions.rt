//! Expressions of texts.

ghost use Rattle.std.specs.Prelude.{◌≡◌, ◌≤◌, [], IfErr, IfOk, length};
ghost use Rattle.n1ql_ast.specs.Faults.{FollowsExpr};
ghost use Rattle.n1ql_ast.specs.Forms.{HasNoAggregate, IsWellFormed};
ghost use Rattle.n1ql_ast.specs.Grammar.{IsWhole};
ghost use Rattle.n1ql_lex.specs.Tokens.{IsTokens};
ghost use Rattle.n1ql_parse.specs.Faults.{IsFaultOf};
ghost use Rattle.n1ql_parse.specs.Input.{classes_of};
ghost use Rattle.n1ql_parse.specs.inner.Parser as spec;
ghost use Rattle.n1ql_parse.specs.Readings.{IsReading, most_tokens};
ghost use Rattle.n1ql_parse.specs.inner.Steps.{Gives};
ghost use Rattle.n1ql_parse.specs.inner.Stops.{StopsIn};

pub mod arms;
pub mod call;
pub mod case;
pub mod collection;
pub mod comparison;
pub mod each;
pub mod grammar;
pub mod inside;
pub mod literal;
pub mod lookahead;
pub mod object_fields;
pub mod path;
pub mod precedence;
pub mod primary;
pub mod quantified;

use crate::expressions::inside::{on_document, parsed};
use crate::parse_fault::ParseFault;
use crate::tokens::classes::classes_of;
use crate::tokens::cursor::Cursor;
use crate::tokens::parse_stop::ParseStop;
use crate::tokens::text::{fault_at, few_tokens};
use n1ql_ast::{Expr, TokenClass, UnresolvedExpr};
use n1ql_lex::Token;
use sqlite_items::Boxed;
use std::alloc::Global;

/// The unresolved expression that a whole list of tokens is.
#[tactic(auto, unfolding(crate::specs::inner::Parser::parsed_whole))]
fn parsed_whole(alloc: Global, classes: &[TokenClass]) -> Result<Boxed<UnresolvedExpr>, ParseStop>
    ensures { Gives (spec.parsed_whole classes.now) result [] }
{
    let mut rest = Cursor::new(classes);
    let unresolved = parsed(alloc, &mut rest, false)?;
    rest.end()?;
    Ok(unresolved)
}

/// The unresolved expression that tokens are.
fn unresolved_of(alloc: Global, tokens: &[Token]) -> Result<Boxed<UnresolvedExpr>, ParseStop>
    ensures read { IfOk result (IsWhole (classes_of tokens.now)) }
    ensures stop { IfErr result (StopsIn FollowsExpr (classes_of tokens.now)) }
{
    let classes = classes_of(alloc, tokens)?;
    parsed_whole(alloc, classes.as_slice())
}

/// The expression that the tokens of a text are.
fn read(alloc: Global, text: &str, alias: &str, tokens: &[Token]) -> Result<Expr, ParseFault>
    requires cut { IsTokens text.now tokens.now }
    requires few { length tokens.now ≤ most_tokens }
    ensures read { IfOk result (IsReading text.now alias.now) }
    ensures fault { IfErr result (IsFaultOf text.now) }
    ensures formed { IfOk result IsWellFormed }
    ensures plain { IfOk result HasNoAggregate }
{
    match unresolved_of(alloc, tokens) {
        Ok(unresolved) => Ok(on_document(alloc, alias, unresolved.get())?),
        Err(stop) => Err(fault_at(text, tokens, stop)),
    }
}

/// The expression that a text is. Its document has the name `alias`.
///
/// # Errors
///
/// `Fault` exactly where the text is no expression: at what is no token, else at the first token of more than 512, else at
/// the first token at which no text goes on, else at the end of the text. `Memory` where memory ran out.
pub fn expr(alloc: Global, text: &str, alias: &str) -> Result<Expr, ParseFault>
    ensures read { IfOk result (IsReading text.now alias.now) }
    ensures fault { IfErr result (IsFaultOf text.now) }
    ensures formed { IfOk result IsWellFormed }
    ensures plain { IfOk result HasNoAggregate }
{
    match few_tokens(alloc, text) {
        Ok(tokens) => read(alloc, text, alias, tokens.as_slice()),
        Err(fault) => Err(fault),
    }
}
