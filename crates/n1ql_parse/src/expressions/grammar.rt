//! The rules take what reads the unresolved expressions inside them as a parameter, so that each is proved by itself.
//!
//! They nest as deep as the text does. Most are never inlined, so that the stack holds small frames alone.

ghost use Rattle.n1ql_parse.specs.inner.Nests.{Nests};
ghost use Rattle.n1ql_parse.specs.inner.Parser as spec;
ghost use Rattle.n1ql_parse.specs.inner.Steps.{Gives};
ghost use Rattle.n1ql_parse.specs.declared.expressions.precedence.Precedence.TheVariants as spec_precedence;

use crate::expressions::lookahead::operator;
use crate::expressions::precedence::Precedence;
use crate::tokens::cursor::Cursor;
use crate::tokens::parse_stop::ParseStop;
use n1ql_ast::{Keyword, UnresolvedExpr};
use sqlite_items::Boxed;
use std::alloc::Global;

/// The rules, over what reads the unresolved expressions inside them.
#[derive(Clone, Copy)]
pub struct Grammar<F> {
    pub alloc: Global,
    /// How deep rules may still nest.
    pub fuel: usize,
    /// Whether aggregates may stand here.
    pub agg: bool,
    /// Reads an unresolved expression of a level.
    pub inner: F,
}

/// An unresolved expression of a level, where rules nest no deeper than `fuel`.
///
/// # Errors
///
/// `Fault` at the first token at which no text goes on. `Memory` where memory ran out.
#[inline(never)]
pub fn expr_at(
    alloc: Global,
    tokens: &mut Cursor<'_>,
    fuel: usize,
    agg: bool,
    precedence: Precedence,
) -> Result<Boxed<UnresolvedExpr>, ParseStop>
    ensures { Gives (spec.at fuel agg precedence tokens.old) result tokens.new }
{
    if fuel == 0 {
        return Err(tokens.fault());
    }
    let grammar = Grammar {
        alloc,
        fuel: fuel - 1,
        agg,
        inner: expr_at,
    };
    grammar.rule(tokens, precedence)
}

impl<
    F: Fn(
        Global,
        &mut Cursor<'_>,
        usize,
        bool,
        Precedence,
    ) -> Result<Boxed<UnresolvedExpr>, ParseStop>,
> Grammar<F> {
    /// An unresolved expression of a level inside this one.
    #[inline(always)]
    pub fn at(
        &self,
        tokens: &mut Cursor<'_>,
        precedence: Precedence,
    ) -> Result<Boxed<UnresolvedExpr>, ParseStop>
        requires { Nests self.now.fuel (F.pre self.now.inner) (F.post self.now.inner) }
        ensures { Gives (spec.at self.now.fuel self.now.agg precedence tokens.old) result tokens.new }
    {
        (self.inner)(self.alloc, tokens, self.fuel, self.agg, precedence)
    }

    /// A whole expression inside this one.
    #[inline(always)]
    pub fn whole(&self, tokens: &mut Cursor<'_>) -> Result<Boxed<UnresolvedExpr>, ParseStop>
        requires { Nests self.now.fuel (F.pre self.now.inner) (F.post self.now.inner) }
        ensures { Gives (spec.at self.now.fuel self.now.agg spec_precedence.Or tokens.old) result tokens.new }
    {
        self.at(tokens, Precedence::Or)
    }

    /// What comes after a keyword, if that comes next.
    #[tactic(auto, unfolding(crate::specs::inner::Parser::whole_after))]
    #[inline(never)]
    pub fn whole_after(
        &self,
        tokens: &mut Cursor<'_>,
        keyword: Keyword,
    ) -> Result<Option<Boxed<UnresolvedExpr>>, ParseStop>
        requires { Nests self.now.fuel (F.pre self.now.inner) (F.post self.now.inner) }
        ensures { Gives (spec.whole_after (spec.at self.now.fuel) self.now.agg keyword tokens.old) result tokens.new }
    {
        if tokens.eat(keyword) {
            Ok(Some(self.whole(tokens)?))
        } else {
            Ok(None)
        }
    }

    /// Operands with operators of one level between them, from the left.
    #[tactic(auto, unfolding(crate::specs::inner::Parser::chain))]
    #[inline(never)]
    fn chain(
        &self,
        tokens: &mut Cursor<'_>,
        precedence: Precedence,
    ) -> Result<Boxed<UnresolvedExpr>, ParseStop>
        requires { Nests self.now.fuel (F.pre self.now.inner) (F.post self.now.inner) }
        ensures { Gives (spec.chain (spec.at self.now.fuel) self.now.agg precedence tokens.old) result tokens.new }
    {
        let first = self.at(tokens, precedence.tighter())?;
        self.chain_on(tokens, precedence, first)
    }

    /// Operators and operands behind a first one.
    #[inline(never)]
    fn chain_on(
        &self,
        tokens: &mut Cursor<'_>,
        precedence: Precedence,
        mut x: Boxed<UnresolvedExpr>,
    ) -> Result<Boxed<UnresolvedExpr>, ParseStop>
        requires { Nests self.now.fuel (F.pre self.now.inner) (F.post self.now.inner) }
        ensures { Gives (spec.chain_on (spec.at self.now.fuel) self.now.agg precedence x tokens.old) result tokens.new }
    {
        for _turn in 0..tokens.left() {
            let Some(op) = operator(tokens, precedence) else {
                return Ok(x);
            };
            let y = self.at(tokens, precedence.tighter())?;
            x = Boxed::new(self.alloc, UnresolvedExpr::Two(op, x, y))?;
        }
        Ok(x)
    }

    /// NOT, or what is tighter.
    #[tactic(auto, unfolding(crate::specs::inner::Parser::not_form))]
    #[inline(never)]
    fn not_form(&self, tokens: &mut Cursor<'_>) -> Result<Boxed<UnresolvedExpr>, ParseStop>
        requires { Nests self.now.fuel (F.pre self.now.inner) (F.post self.now.inner) }
        ensures { Gives (spec.not_form (spec.at self.now.fuel) self.now.agg tokens.old) result tokens.new }
    {
        if !tokens.eat(Keyword::Not) {
            return self.at(tokens, Precedence::Test);
        }
        let x = self.at(tokens, Precedence::Not)?;
        Ok(Boxed::new(self.alloc, UnresolvedExpr::Not(x))?)
    }

    /// The rule of a level.
    pub fn rule(
        &self,
        tokens: &mut Cursor<'_>,
        precedence: Precedence,
    ) -> Result<Boxed<UnresolvedExpr>, ParseStop>
        requires { Nests self.now.fuel (F.pre self.now.inner) (F.post self.now.inner) }
        ensures { Gives (spec.rule (spec.at self.now.fuel) self.now.agg precedence tokens.old) result tokens.new }
    {
        match precedence {
            Precedence::Or | Precedence::And | Precedence::Add | Precedence::Mul => self.chain(
                tokens, precedence,
            ),
            Precedence::Not => self.not_form(tokens),
            Precedence::Test => self.relation(tokens),
            Precedence::Neg => self.negation(tokens),
            Precedence::Post => self.path(tokens),
        }
    }
}
