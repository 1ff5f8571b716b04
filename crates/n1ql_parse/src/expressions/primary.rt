//! Primaries.

ghost use Rattle.n1ql_parse.specs.inner.Nests.{Nests};
ghost use Rattle.n1ql_parse.specs.inner.Parser as spec;
ghost use Rattle.n1ql_parse.specs.inner.Steps.{Gives};

use crate::expressions::grammar::Grammar;
use crate::expressions::lookahead::constant;
use crate::expressions::precedence::Precedence;
use crate::tokens::cursor::Cursor;
use crate::tokens::parse_stop::ParseStop;
use n1ql_ast::{Keyword, UnresolvedExpr};
use sqlite_items::Boxed;
use std::alloc::Global;

impl<
    F: Fn(
        Global,
        &mut Cursor<'_>,
        usize,
        bool,
        Precedence,
    ) -> Result<Boxed<UnresolvedExpr>, ParseStop>,
> Grammar<F> {
    /// A constant, or what is put together.
    #[tactic(auto, unfolding(crate::specs::inner::Parser::primary))]
    pub fn primary(&self, tokens: &mut Cursor<'_>) -> Result<Boxed<UnresolvedExpr>, ParseStop>
        requires { Nests self.now.fuel (F.pre self.now.inner) (F.post self.now.inner) }
        ensures { Gives (spec.primary (spec.at self.now.fuel) self.now.agg tokens.old) result tokens.new }
    {
        match constant(self.alloc, tokens)? {
            Some(value) => Ok(Boxed::new(self.alloc, UnresolvedExpr::Const(value))?),
            None => self.enclosed(tokens),
        }
    }

    /// The forms that begin with a bracket, and the others.
    #[tactic(auto, unfolding(crate::specs::inner::Parser::enclosed))]
    #[inline(never)]
    fn enclosed(&self, tokens: &mut Cursor<'_>) -> Result<Boxed<UnresolvedExpr>, ParseStop>
        requires { Nests self.now.fuel (F.pre self.now.inner) (F.post self.now.inner) }
        ensures { Gives (spec.enclosed (spec.at self.now.fuel) self.now.agg tokens.old) result tokens.new }
    {
        if tokens.eat(Keyword::OpenParenthesis) {
            return self.parenthesized(tokens);
        }
        if tokens.eat(Keyword::OpenSquare) {
            return self.list(tokens);
        }
        if tokens.eat(Keyword::OpenBrace) {
            return self.object(tokens);
        }
        self.worded(tokens)
    }

    /// What comes after an opening bracket.
    #[tactic(auto, unfolding(crate::specs::inner::Parser::parenthesized))]
    #[inline(never)]
    fn parenthesized(&self, tokens: &mut Cursor<'_>) -> Result<Boxed<UnresolvedExpr>, ParseStop>
        requires { Nests self.now.fuel (F.pre self.now.inner) (F.post self.now.inner) }
        ensures { Gives (spec.parenthesized (spec.at self.now.fuel) self.now.agg tokens.old) result tokens.new }
    {
        let x = self.whole(tokens)?;
        tokens.expect(Keyword::CloseParenthesis)?;
        Ok(x)
    }

    /// The forms that begin with a word, and names.
    #[tactic(auto, unfolding(crate::specs::inner::Parser::worded))]
    #[inline(never)]
    fn worded(&self, tokens: &mut Cursor<'_>) -> Result<Boxed<UnresolvedExpr>, ParseStop>
        requires { Nests self.now.fuel (F.pre self.now.inner) (F.post self.now.inner) }
        ensures { Gives (spec.worded (spec.at self.now.fuel) self.now.agg tokens.old) result tokens.new }
    {
        if tokens.eat(Keyword::Case) {
            return self.case(tokens);
        }
        if tokens.eat(Keyword::Any) {
            return self.any(tokens);
        }
        if tokens.eat(Keyword::Every) {
            return self.every(tokens);
        }
        if tokens.eat(Keyword::Array) {
            return self.array(tokens);
        }
        if tokens.eat(Keyword::First) {
            return self.first(tokens);
        }
        self.named(tokens)
    }
}
