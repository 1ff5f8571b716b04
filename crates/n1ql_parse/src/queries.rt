//! SELECT, of texts.

ghost use Rattle.std.specs.Prelude.{◌≡◌, ◌≤◌, [], IfErr, IfOk, length};
ghost use Rattle.n1ql_ast.specs.FormedSelections.{IsFormedSelect};
ghost use Rattle.n1ql_ast.specs.ResolvedSelections.{resolved_select};
ghost use Rattle.n1ql_ast.specs.Selections.{FollowsSelect, IsWholeSelect};
ghost use Rattle.n1ql_lex.specs.Tokens.{IsTokens};
ghost use Rattle.n1ql_parse.specs.declared.parse_fault.ParseFault.TheVariants.{Memory};
ghost use Rattle.n1ql_parse.specs.Faults.{IsSelectFaultOf};
ghost use Rattle.n1ql_parse.specs.Input.{classes_of};
ghost use Rattle.n1ql_parse.specs.Readings.{IsReadingSelect, most_tokens};
ghost use Rattle.n1ql_parse.specs.inner.Queries as spec;
ghost use Rattle.n1ql_parse.specs.inner.Steps.{Gives};
ghost use Rattle.n1ql_parse.specs.inner.Stops.{StopsIn};

pub mod finish;
pub mod grouping;
pub mod head;
pub mod naming;
pub mod orders;
pub mod projection;
pub mod rows;
pub mod source;
pub mod tail;
pub mod terms;
pub mod unnests;

use crate::parse_fault::ParseFault;
use crate::queries::finish::Finish;
use crate::queries::grouping::Grouping;
use crate::queries::head::{Head, head_of_select};
use crate::queries::projection::Projection;
use crate::queries::rows::Rows;
use crate::queries::source::Source;
use crate::queries::tail::{Tail, tail_of_select};
use crate::tokens::classes::classes_of;
use crate::tokens::cursor::Cursor;
use crate::tokens::parse_stop::ParseStop;
use crate::tokens::text::{fault_at, few_tokens};
use n1ql_ast::laws::resolved_variables_are_bound;
use n1ql_ast::{Select, Selection, TokenClass, UnresolvedSelect, resolve_select};
use n1ql_lex::Token;
use std::alloc::Global;

/// A SELECT of its parts.
fn select_of(head: Head, tail: Tail) -> UnresolvedSelect
    ensures { result ≡ spec.select_of head tail }
{
    let Head {
        distinct,
        projection,
        source,
    } = head;
    let Tail {
        rows,
        grouping,
        finish,
    } = tail;
    let Projection { raw, terms } = projection;
    let Source {
        keyspace,
        alias,
        hint,
    } = source;
    let Rows { unnests, filter } = rows;
    let Grouping { groups, having } = grouping;
    let Finish {
        orders,
        limit,
        offset,
    } = finish;
    Selection {
        distinct,
        raw,
        terms,
        keyspace,
        alias,
        hint,
        unnests,
        filter,
        groups,
        having,
        orders,
        limit,
        offset,
    }
}

/// A SELECT at the front of the tokens.
#[tactic(auto, unfolding(crate::specs::inner::Queries::select_parsed))]
fn select_parsed(alloc: Global, tokens: &mut Cursor<'_>) -> Result<UnresolvedSelect, ParseStop>
    ensures { Gives (spec.select_parsed tokens.old) result tokens.new }
{
    let head = head_of_select(alloc, tokens)?;
    let tail = tail_of_select(alloc, tokens)?;
    Ok(select_of(head, tail))
}

/// The SELECT that a whole list of tokens is.
#[tactic(auto, unfolding(crate::specs::inner::Queries::whole_select))]
fn whole_select(alloc: Global, classes: &[TokenClass]) -> Result<UnresolvedSelect, ParseStop>
    ensures { Gives (spec.whole_select classes.now) result [] }
{
    let mut rest = Cursor::new(classes);
    let select = select_parsed(alloc, &mut rest)?;
    rest.end()?;
    Ok(select)
}

/// The unresolved SELECT that tokens are.
fn unresolved_of(alloc: Global, tokens: &[Token]) -> Result<UnresolvedSelect, ParseStop>
    ensures read { IfOk result (IsWholeSelect (classes_of tokens.now)) }
    ensures stop { IfErr result (StopsIn FollowsSelect (classes_of tokens.now)) }
{
    let classes = classes_of(alloc, tokens)?;
    whole_select(alloc, classes.as_slice())
}

/// What an unresolved SELECT means.
fn meant(alloc: Global, unresolved: &UnresolvedSelect) -> Result<Select, ParseFault>
    ensures select { IfOk result (λ select. select ≡ resolved_select unresolved.now) }
    ensures fault { IfErr result (λ fault. fault ≡ Memory) }
{
    Ok(resolve_select(alloc, unresolved)?)
}

/// The SELECT that the tokens of a text are.
fn read(alloc: Global, text: &str, tokens: &[Token]) -> Result<Select, ParseFault>
    requires cut { IsTokens text.now tokens.now }
    requires few { length tokens.now ≤ most_tokens }
    ensures read { IfOk result (IsReadingSelect text.now) }
    ensures fault { IfErr result (IsSelectFaultOf text.now) }
    ensures formed { IfOk result IsFormedSelect }
{
    resolved_variables_are_bound();
    match unresolved_of(alloc, tokens) {
        Ok(unresolved) => meant(alloc, &unresolved),
        Err(stop) => Err(fault_at(text, tokens, stop)),
    }
}

/// The SELECT that a text is.
///
/// # Errors
///
/// `Fault` exactly where the text is no SELECT: at what is no token, else at the first token of more than 512, else at the first
/// token at which no text goes on, else at the end of the text. `Memory` where memory ran out.
pub fn select(alloc: Global, text: &str) -> Result<Select, ParseFault>
    ensures read { IfOk result (IsReadingSelect text.now) }
    ensures fault { IfErr result (IsSelectFaultOf text.now) }
    ensures formed { IfOk result IsFormedSelect }
{
    match few_tokens(alloc, text) {
        Ok(tokens) => read(alloc, text, tokens.as_slice()),
        Err(fault) => Err(fault),
    }
}
