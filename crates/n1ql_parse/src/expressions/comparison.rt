//! Comparisons, IS, IN and BETWEEN.

ghost use Rattle.n1ql_parse.specs.inner.Nests.{Nests};
ghost use Rattle.n1ql_parse.specs.inner.Parser as spec;
ghost use Rattle.n1ql_parse.specs.inner.Steps.{Gives};

use crate::expressions::grammar::Grammar;
use crate::expressions::lookahead::{operator, test};
use crate::expressions::precedence::Precedence;
use crate::tokens::cursor::Cursor;
use crate::tokens::parse_stop::ParseStop;
use n1ql_ast::{Keyword, UnresolvedExpr};
use sqlite_items::Boxed;
use std::alloc::Global;

impl<
    F: Fn(
        Global,
        &mut Cursor<'_>,
        usize,
        bool,
        Precedence,
    ) -> Result<Boxed<UnresolvedExpr>, ParseStop>,
> Grammar<F> {
    /// Comparisons, IS, IN and BETWEEN.
    #[tactic(auto, unfolding(crate::specs::inner::Parser::relation))]
    #[inline(never)]
    pub fn relation(&self, tokens: &mut Cursor<'_>) -> Result<Boxed<UnresolvedExpr>, ParseStop>
        requires { Nests self.now.fuel (F.pre self.now.inner) (F.post self.now.inner) }
        ensures { Gives (spec.relation (spec.at self.now.fuel) self.now.agg tokens.old) result tokens.new }
    {
        let x = self.at(tokens, Precedence::Add)?;
        self.relation_on(tokens, x)
    }

    /// What may come after the first operand of a relation.
    #[tactic(auto, unfolding(crate::specs::inner::Parser::relation_on))]
    #[inline(never)]
    fn relation_on(
        &self,
        tokens: &mut Cursor<'_>,
        x: Boxed<UnresolvedExpr>,
    ) -> Result<Boxed<UnresolvedExpr>, ParseStop>
        requires { Nests self.now.fuel (F.pre self.now.inner) (F.post self.now.inner) }
        ensures { Gives (spec.relation_on (spec.at self.now.fuel) self.now.agg x tokens.old) result tokens.new }
    {
        if tokens.eat(Keyword::Is) {
            return self.is_form(tokens, x);
        }
        if tokens.eat(Keyword::Not) {
            return self.not_range(tokens, x);
        }
        if tokens.eat(Keyword::In) {
            return self.among(tokens, x);
        }
        if tokens.eat(Keyword::Between) {
            return self.between(tokens, x);
        }
        self.comparison(tokens, x)
    }

    /// A comparison, if its sign comes next.
    #[tactic(auto, unfolding(crate::specs::inner::Parser::comparison))]
    #[inline(never)]
    fn comparison(
        &self,
        tokens: &mut Cursor<'_>,
        x: Boxed<UnresolvedExpr>,
    ) -> Result<Boxed<UnresolvedExpr>, ParseStop>
        requires { Nests self.now.fuel (F.pre self.now.inner) (F.post self.now.inner) }
        ensures { Gives (spec.comparison (spec.at self.now.fuel) self.now.agg x tokens.old) result tokens.new }
    {
        let Some(op) = operator(tokens, Precedence::Test) else {
            return Ok(x);
        };
        let y = self.at(tokens, Precedence::Add)?;
        Ok(Boxed::new(self.alloc, UnresolvedExpr::Two(op, x, y))?)
    }

    /// What IS tests.
    #[tactic(auto, unfolding(crate::specs::inner::Parser::tested))]
    fn tested(
        &self,
        tokens: &mut Cursor<'_>,
        x: Boxed<UnresolvedExpr>,
    ) -> Result<Boxed<UnresolvedExpr>, ParseStop>
        ensures { Gives (spec.tested x tokens.old) result tokens.new }
    {
        let test = test(tokens)?;
        Ok(Boxed::new(self.alloc, UnresolvedExpr::Is(test, x))?)
    }

    /// What comes after IS.
    #[tactic(auto, unfolding(crate::specs::inner::Parser::is_form))]
    #[inline(never)]
    fn is_form(
        &self,
        tokens: &mut Cursor<'_>,
        x: Boxed<UnresolvedExpr>,
    ) -> Result<Boxed<UnresolvedExpr>, ParseStop>
        requires { Nests self.now.fuel (F.pre self.now.inner) (F.post self.now.inner) }
        ensures { Gives (spec.is_form (spec.at self.now.fuel) self.now.agg x tokens.old) result tokens.new }
    {
        if !tokens.eat(Keyword::Not) {
            return self.tested(tokens, x);
        }
        let x = self.tested(tokens, x)?;
        Ok(Boxed::new(self.alloc, UnresolvedExpr::Not(x))?)
    }

    /// What comes after NOT in a relation.
    #[tactic(auto, unfolding(crate::specs::inner::Parser::not_range))]
    #[inline(never)]
    fn not_range(
        &self,
        tokens: &mut Cursor<'_>,
        x: Boxed<UnresolvedExpr>,
    ) -> Result<Boxed<UnresolvedExpr>, ParseStop>
        requires { Nests self.now.fuel (F.pre self.now.inner) (F.post self.now.inner) }
        ensures { Gives (spec.not_range (spec.at self.now.fuel) self.now.agg x tokens.old) result tokens.new }
    {
        let x = self.range(tokens, x)?;
        Ok(Boxed::new(self.alloc, UnresolvedExpr::Not(x))?)
    }

    /// IN or BETWEEN.
    #[tactic(auto, unfolding(crate::specs::inner::Parser::range))]
    #[inline(never)]
    fn range(
        &self,
        tokens: &mut Cursor<'_>,
        x: Boxed<UnresolvedExpr>,
    ) -> Result<Boxed<UnresolvedExpr>, ParseStop>
        requires { Nests self.now.fuel (F.pre self.now.inner) (F.post self.now.inner) }
        ensures { Gives (spec.range (spec.at self.now.fuel) self.now.agg x tokens.old) result tokens.new }
    {
        if tokens.eat(Keyword::In) {
            return self.among(tokens, x);
        }
        tokens.expect(Keyword::Between)?;
        self.between(tokens, x)
    }

    /// What comes after IN.
    #[tactic(auto, unfolding(crate::specs::inner::Parser::among))]
    #[inline(never)]
    fn among(
        &self,
        tokens: &mut Cursor<'_>,
        x: Boxed<UnresolvedExpr>,
    ) -> Result<Boxed<UnresolvedExpr>, ParseStop>
        requires { Nests self.now.fuel (F.pre self.now.inner) (F.post self.now.inner) }
        ensures { Gives (spec.among (spec.at self.now.fuel) self.now.agg x tokens.old) result tokens.new }
    {
        let y = self.at(tokens, Precedence::Add)?;
        Ok(Boxed::new(self.alloc, UnresolvedExpr::Among(x, y))?)
    }

    /// What comes after BETWEEN.
    #[tactic(auto, unfolding(crate::specs::inner::Parser::between))]
    #[inline(never)]
    fn between(
        &self,
        tokens: &mut Cursor<'_>,
        x: Boxed<UnresolvedExpr>,
    ) -> Result<Boxed<UnresolvedExpr>, ParseStop>
        requires { Nests self.now.fuel (F.pre self.now.inner) (F.post self.now.inner) }
        ensures { Gives (spec.between (spec.at self.now.fuel) self.now.agg x tokens.old) result tokens.new }
    {
        let low = self.at(tokens, Precedence::Add)?;
        tokens.expect(Keyword::And)?;
        let high = self.at(tokens, Precedence::Add)?;
        Ok(Boxed::new(self.alloc, UnresolvedExpr::Between(x, low, high))?)
    }
}
