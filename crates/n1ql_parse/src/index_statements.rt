//! Statements on indexes, of texts.

ghost use Rattle.std.specs.Prelude.{◌≤◌, [], IfErr, IfOk, length};
ghost use Rattle.n1ql_ast.specs.FormedStatements.{IsFormedDdl};
ghost use Rattle.n1ql_ast.specs.Statements.{FollowsDdl, IsStatement};
ghost use Rattle.n1ql_lex.specs.Tokens.{IsTokens};
ghost use Rattle.n1ql_parse.specs.Faults.{IsDdlFaultOf};
ghost use Rattle.n1ql_parse.specs.Input.{classes_of};
ghost use Rattle.n1ql_parse.specs.Readings.{IsReadingDdl, most_tokens};
ghost use Rattle.n1ql_parse.specs.inner.Statements as spec;
ghost use Rattle.n1ql_parse.specs.inner.Steps.{Gives};
ghost use Rattle.n1ql_parse.specs.inner.Stops.{StopsIn};

pub mod clauses;
pub mod create;
pub mod keys;
pub mod names;
pub mod removal;

use crate::index_statements::clauses::may_using;
use crate::index_statements::create::create;
use crate::index_statements::names::{name_list, on_keyspace};
use crate::index_statements::removal::remove;
use crate::parse_fault::ParseFault;
use crate::tokens::classes::classes_of;
use crate::tokens::cursor::Cursor;
use crate::tokens::parse_stop::ParseStop;
use crate::tokens::text::{fault_at, few_tokens};
use n1ql_ast::laws::resolved_variables_are_bound;
use n1ql_ast::{Ddl, Keyword, TokenClass};
use n1ql_lex::Token;
use std::alloc::Global;

/// BUILD INDEX, after its first word.
#[tactic(auto, unfolding(crate::specs::inner::Statements::build))]
fn build(alloc: Global, tokens: &mut Cursor<'_>) -> Result<Ddl, ParseStop>
    ensures { Gives (spec.build tokens.old) result tokens.new }
{
    tokens.expect(Keyword::Index)?;
    let keyspace = on_keyspace(alloc, tokens)?;
    let names = name_list(alloc, tokens)?;
    may_using(tokens)?;
    Ok(Ddl::Build { keyspace, names })
}

/// A statement at the front of the tokens.
#[tactic(auto, unfolding(crate::specs::inner::Statements::statement_parsed))]
fn statement_parsed(alloc: Global, tokens: &mut Cursor<'_>) -> Result<Ddl, ParseStop>
    ensures { Gives (spec.statement_parsed tokens.old) result tokens.new }
{
    if tokens.eat(Keyword::Create) {
        return create(alloc, tokens);
    }
    if tokens.eat(Keyword::Build) {
        return build(alloc, tokens);
    }
    tokens.expect(Keyword::Drop)?;
    remove(alloc, tokens)
}

/// The statement that a whole list of tokens is.
#[tactic(auto, unfolding(crate::specs::inner::Statements::whole_statement))]
fn whole_statement(alloc: Global, classes: &[TokenClass]) -> Result<Ddl, ParseStop>
    ensures { Gives (spec.whole_statement classes.now) result [] }
{
    let mut rest = Cursor::new(classes);
    let statement = statement_parsed(alloc, &mut rest)?;
    rest.end()?;
    Ok(statement)
}

/// The statement that tokens are.
fn statement_of(alloc: Global, tokens: &[Token]) -> Result<Ddl, ParseStop>
    ensures read { IfOk result (IsStatement (classes_of tokens.now)) }
    ensures stop { IfErr result (StopsIn FollowsDdl (classes_of tokens.now)) }
{
    let classes = classes_of(alloc, tokens)?;
    whole_statement(alloc, classes.as_slice())
}

/// The statement that the tokens of a text are.
fn read(alloc: Global, text: &str, tokens: &[Token]) -> Result<Ddl, ParseFault>
    requires cut { IsTokens text.now tokens.now }
    requires few { length tokens.now ≤ most_tokens }
    ensures read { IfOk result (IsReadingDdl text.now) }
    ensures fault { IfErr result (IsDdlFaultOf text.now) }
    ensures formed { IfOk result IsFormedDdl }
{
    resolved_variables_are_bound();
    match statement_of(alloc, tokens) {
        Ok(statement) => Ok(statement),
        Err(stop) => Err(fault_at(text, tokens, stop)),
    }
}

/// The statement on indexes that a text is: CREATE INDEX, CREATE PRIMARY INDEX, BUILD INDEX, DROP INDEX or DROP PRIMARY INDEX.
/// The document of a definition has the name of its keyspace.
///
/// # Errors
///
/// `Fault` exactly where the text is no such statement: at what is no token, else at the first token of more than 512, else at
/// the first token at which no text goes on, else at the end of the text. `Memory` where memory ran out.
pub fn ddl(alloc: Global, text: &str) -> Result<Ddl, ParseFault>
    ensures read { IfOk result (IsReadingDdl text.now) }
    ensures fault { IfErr result (IsDdlFaultOf text.now) }
    ensures formed { IfOk result IsFormedDdl }
{
    match few_tokens(alloc, text) {
        Ok(tokens) => read(alloc, text, tokens.as_slice()),
        Err(fault) => Err(fault),
    }
}
