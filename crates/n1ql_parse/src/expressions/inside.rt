//! What stands inside statements and texts: expressions, objects and arrays, as deep as rules can nest in the tokens.

ghost use Rattle.std.specs.Prelude.{◌≡◌, IfOk};
ghost use Rattle.n1ql_ast.specs.Names.{inside, outermost, resolved};
ghost use Rattle.n1ql_parse.specs.inner.Parser as spec;
ghost use Rattle.n1ql_parse.specs.inner.Queries as queries;
ghost use Rattle.n1ql_parse.specs.inner.Statements as statements;
ghost use Rattle.n1ql_parse.specs.inner.Steps.{Gives};

use crate::expressions::each::Each;
use crate::expressions::grammar::{Grammar, expr_at};
use crate::expressions::precedence::Precedence;
use crate::tokens::cursor::Cursor;
use crate::tokens::parse_stop::ParseStop;
use n1ql_ast::{Expr, Keyword, Scope, UnresolvedExpr, UnresolvedExprs, resolve};
use n1ql_value::{Memory, Text};
use sqlite_items::Boxed;
use std::alloc::Global;

/// How deep rules can nest in the tokens that are left: each nests the levels of the grammar at most once, and so does the end.
fn enough(tokens: &Cursor<'_>) -> usize
    ensures { result ≡ spec.enough tokens.now }
{
    // the length of the slice itself, which is known to leave room for the product
    8 * tokens.rest().len() + 8
}

/// A whole expression, in which aggregates may stand or not.
#[tactic(auto, unfolding(crate::specs::inner::Parser::parsed))]
pub fn parsed(
    alloc: Global,
    tokens: &mut Cursor<'_>,
    agg: bool,
) -> Result<Boxed<UnresolvedExpr>, ParseStop>
    ensures { Gives (spec.parsed agg tokens.old) result tokens.new }
{
    let fuel = enough(tokens);
    expr_at(alloc, tokens, fuel, agg, Precedence::Or)
}

/// What comes after a keyword, if that comes next: an expression, in which aggregates may stand or not.
#[tactic(auto, unfolding(crate::specs::inner::Queries::parsed_after))]
pub fn parsed_after(
    alloc: Global,
    tokens: &mut Cursor<'_>,
    agg: bool,
    keyword: Keyword,
) -> Result<Option<Boxed<UnresolvedExpr>>, ParseStop>
    ensures { Gives (queries.parsed_after agg keyword tokens.old) result tokens.new }
{
    let fuel = enough(tokens);
    let grammar = Grammar {
        alloc,
        fuel,
        agg,
        inner: expr_at,
    };
    grammar.whole_after(tokens, keyword)
}

/// Expressions without aggregates, with commas between them.
#[tactic(auto, unfolding(crate::specs::inner::Queries::parsed_exprs))]
pub fn parsed_exprs(alloc: Global, tokens: &mut Cursor<'_>) -> Result<UnresolvedExprs, ParseStop>
    ensures { Gives (queries.parsed_exprs tokens.old) result tokens.new }
{
    let fuel = enough(tokens);
    let grammar = Grammar {
        alloc,
        fuel,
        agg: false,
        inner: expr_at,
    };
    grammar.wholes(tokens)
}

/// An object without aggregates, after its opening brace.
#[tactic(auto, unfolding(crate::specs::inner::Statements::parsed_object))]
pub fn parsed_object(
    alloc: Global,
    tokens: &mut Cursor<'_>,
) -> Result<Boxed<UnresolvedExpr>, ParseStop>
    ensures { Gives (statements.parsed_object tokens.old) result tokens.new }
{
    let fuel = enough(tokens);
    let grammar = Grammar {
        alloc,
        fuel,
        agg: false,
        inner: expr_at,
    };
    grammar.object(tokens)
}

/// What comes after ARRAY, without aggregates.
#[tactic(auto, unfolding(crate::specs::inner::Statements::parsed_each))]
pub fn parsed_each(alloc: Global, tokens: &mut Cursor<'_>) -> Result<Each, ParseStop>
    ensures { Gives (statements.parsed_each tokens.old) result tokens.new }
{
    let fuel = enough(tokens);
    let grammar = Grammar {
        alloc,
        fuel,
        agg: false,
        inner: expr_at,
    };
    grammar.each(tokens)
}

/// What an unresolved expression means where the document has the name `alias`.
pub fn on_document(alloc: Global, alias: &str, unresolved: &UnresolvedExpr) -> Result<Expr, Memory>
    ensures { IfOk result (λ e. e ≡ resolved unresolved.now (outermost alias.now)) }
{
    let mut scope = Scope::new(alloc, alias)?;
    resolve(alloc, unresolved, &mut scope)
}

/// What an unresolved expression means where the document has the name `alias` and a name is bound.
pub fn on_element(
    alloc: Global,
    alias: &str,
    name: &Text,
    unresolved: &UnresolvedExpr,
) -> Result<Expr, Memory>
    ensures { IfOk result (λ e. e ≡ resolved unresolved.now (inside name.now (outermost alias.now))) }
{
    let mut scope = Scope::new(alloc, alias)?;
    scope.enter(alloc, name)?;
    resolve(alloc, unresolved, &mut scope)
}
