//! ANY, EVERY, ARRAY and FIRST.

ghost use Rattle.n1ql_parse.specs.inner.Nests.{Nests};
ghost use Rattle.n1ql_parse.specs.inner.Parser as spec;
ghost use Rattle.n1ql_parse.specs.inner.Steps.{Gives};

use crate::expressions::each::Each;
use crate::expressions::grammar::Grammar;
use crate::expressions::precedence::Precedence;
use crate::expressions::quantified::Quantified;
use crate::tokens::cursor::Cursor;
use crate::tokens::parse_stop::ParseStop;
use n1ql_ast::{Keyword, UnresolvedExpr};
use sqlite_items::Boxed;
use std::alloc::Global;

impl<
    F: Fn(
        Global,
        &mut Cursor<'_>,
        usize,
        bool,
        Precedence,
    ) -> Result<Boxed<UnresolvedExpr>, ParseStop>,
> Grammar<F> {
    /// ANY, after its word.
    #[tactic(auto, unfolding(crate::specs::inner::Parser::any))]
    #[inline(never)]
    pub fn any(&self, tokens: &mut Cursor<'_>) -> Result<Boxed<UnresolvedExpr>, ParseStop>
        requires { Nests self.now.fuel (F.pre self.now.inner) (F.post self.now.inner) }
        ensures { Gives (spec.any (spec.at self.now.fuel) self.now.agg tokens.old) result tokens.new }
    {
        let Quantified {
            variable,
            over,
            test,
        } = self.quantified(tokens)?;
        Ok(Boxed::new(self.alloc, UnresolvedExpr::Any(variable, over, test))?)
    }

    /// EVERY, after its word.
    #[tactic(auto, unfolding(crate::specs::inner::Parser::every))]
    #[inline(never)]
    pub fn every(&self, tokens: &mut Cursor<'_>) -> Result<Boxed<UnresolvedExpr>, ParseStop>
        requires { Nests self.now.fuel (F.pre self.now.inner) (F.post self.now.inner) }
        ensures { Gives (spec.every (spec.at self.now.fuel) self.now.agg tokens.old) result tokens.new }
    {
        let Quantified {
            variable,
            over,
            test,
        } = self.quantified(tokens)?;
        Ok(Boxed::new(self.alloc, UnresolvedExpr::Every(variable, over, test))?)
    }

    /// What comes after ANY and EVERY.
    #[tactic(auto, unfolding(crate::specs::inner::Parser::quantified))]
    #[inline(never)]
    fn quantified(&self, tokens: &mut Cursor<'_>) -> Result<Quantified, ParseStop>
        requires { Nests self.now.fuel (F.pre self.now.inner) (F.post self.now.inner) }
        ensures { Gives (spec.quantified (spec.at self.now.fuel) self.now.agg tokens.old) result tokens.new }
    {
        let variable = tokens.name(self.alloc)?;
        tokens.expect(Keyword::In)?;
        let over = self.whole(tokens)?;
        tokens.expect(Keyword::Satisfies)?;
        let test = self.whole(tokens)?;
        tokens.expect(Keyword::End)?;
        Ok(Quantified {
            variable,
            over,
            test,
        })
    }

    /// ARRAY, after its word.
    #[tactic(auto, unfolding(crate::specs::inner::Parser::array))]
    #[inline(never)]
    pub fn array(&self, tokens: &mut Cursor<'_>) -> Result<Boxed<UnresolvedExpr>, ParseStop>
        requires { Nests self.now.fuel (F.pre self.now.inner) (F.post self.now.inner) }
        ensures { Gives (spec.array (spec.at self.now.fuel) self.now.agg tokens.old) result tokens.new }
    {
        let Each {
            variable,
            item,
            over,
            when,
        } = self.each(tokens)?;
        Ok(Boxed::new(self.alloc, UnresolvedExpr::Each(variable, item, over, when))?)
    }

    /// FIRST, after its word.
    #[tactic(auto, unfolding(crate::specs::inner::Parser::first))]
    #[inline(never)]
    pub fn first(&self, tokens: &mut Cursor<'_>) -> Result<Boxed<UnresolvedExpr>, ParseStop>
        requires { Nests self.now.fuel (F.pre self.now.inner) (F.post self.now.inner) }
        ensures { Gives (spec.first (spec.at self.now.fuel) self.now.agg tokens.old) result tokens.new }
    {
        let Each {
            variable,
            item,
            over,
            when,
        } = self.each(tokens)?;
        Ok(Boxed::new(
            self.alloc,
            UnresolvedExpr::First(variable, item, over, when),
        )?)
    }

    /// What comes after ARRAY and FIRST.
    #[tactic(auto, unfolding(crate::specs::inner::Parser::each))]
    #[inline(never)]
    pub fn each(&self, tokens: &mut Cursor<'_>) -> Result<Each, ParseStop>
        requires { Nests self.now.fuel (F.pre self.now.inner) (F.post self.now.inner) }
        ensures { Gives (spec.each (spec.at self.now.fuel) self.now.agg tokens.old) result tokens.new }
    {
        let item = self.whole(tokens)?;
        tokens.expect(Keyword::For)?;
        let variable = tokens.name(self.alloc)?;
        tokens.expect(Keyword::In)?;
        let over = self.whole(tokens)?;
        let when = self.whole_after(tokens, Keyword::When)?;
        tokens.expect(Keyword::End)?;
        Ok(Each {
            variable,
            item,
            over,
            when,
        })
    }
}
