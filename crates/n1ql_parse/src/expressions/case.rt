//! CASE.

ghost use Rattle.n1ql_parse.specs.inner.Nests.{Nests};
ghost use Rattle.n1ql_parse.specs.inner.Parser as spec;
ghost use Rattle.n1ql_parse.specs.inner.Steps.{Gives};

use crate::expressions::arms::Arms;
use crate::expressions::grammar::Grammar;
use crate::expressions::precedence::Precedence;
use crate::tokens::cursor::Cursor;
use crate::tokens::parse_stop::ParseStop;
use n1ql_ast::{Keyword, UnresolvedExpr};
use sqlite_items::Boxed;
use std::alloc::Global;

impl<
    F: Fn(
        Global,
        &mut Cursor<'_>,
        usize,
        bool,
        Precedence,
    ) -> Result<Boxed<UnresolvedExpr>, ParseStop>,
> Grammar<F> {
    /// CASE, after its word.
    #[tactic(auto, unfolding(crate::specs::inner::Parser::case))]
    #[inline(never)]
    pub fn case(&self, tokens: &mut Cursor<'_>) -> Result<Boxed<UnresolvedExpr>, ParseStop>
        requires { Nests self.now.fuel (F.pre self.now.inner) (F.post self.now.inner) }
        ensures { Gives (spec.case (spec.at self.now.fuel) self.now.agg tokens.old) result tokens.new }
    {
        tokens.expect(Keyword::When)?;
        let Arms { whens, thens } = self.arms(tokens)?;
        let other = self.whole_after(tokens, Keyword::Else)?;
        tokens.expect(Keyword::End)?;
        Ok(Boxed::new(self.alloc, UnresolvedExpr::Case(whens, thens, other))?)
    }

    /// The arms of CASE, after the first WHEN.
    #[inline(never)]
    fn arms(&self, tokens: &mut Cursor<'_>) -> Result<Arms, ParseStop>
        requires { Nests self.now.fuel (F.pre self.now.inner) (F.post self.now.inner) }
        ensures { Gives (spec.arms (spec.at self.now.fuel) self.now.agg tokens.old) result tokens.new }
    {
        let mut found = Arms::none(self.alloc);
        for _turn in 0..tokens.left() {
            found = self.arm(tokens, found)?;
            if !tokens.eat(Keyword::When) {
                return Ok(found);
            }
        }
        Err(tokens.fault())
    }

    /// An arm, after its WHEN, behind those that were found.
    #[tactic(auto, unfolding(crate::specs::inner::Parser::arm))]
    #[inline(never)]
    fn arm(&self, tokens: &mut Cursor<'_>, found: Arms) -> Result<Arms, ParseStop>
        requires { Nests self.now.fuel (F.pre self.now.inner) (F.post self.now.inner) }
        ensures { Gives (spec.arm (spec.at self.now.fuel) self.now.agg found tokens.old) result tokens.new }
    {
        let when = self.whole(tokens)?;
        tokens.expect(Keyword::Then)?;
        let then = self.whole(tokens)?;
        Ok(found.with(when, then)?)
    }
}
