//! Signs, fields and places.

ghost use Rattle.n1ql_parse.specs.inner.Nests.{Nests};
ghost use Rattle.n1ql_parse.specs.inner.Parser as spec;
ghost use Rattle.n1ql_parse.specs.inner.Steps.{Gives};

use crate::expressions::grammar::Grammar;
use crate::expressions::lookahead::eat_least;
use crate::expressions::precedence::Precedence;
use crate::tokens::cursor::Cursor;
use crate::tokens::parse_stop::ParseStop;
use n1ql_ast::{Keyword, UnresolvedExpr};
use n1ql_value::Value;
use sqlite_items::Boxed;
use std::alloc::Global;

impl<
    F: Fn(
        Global,
        &mut Cursor<'_>,
        usize,
        bool,
        Precedence,
    ) -> Result<Boxed<UnresolvedExpr>, ParseStop>,
> Grammar<F> {
    /// The sign of a number, or what is tighter.
    #[tactic(auto, unfolding(crate::specs::inner::Parser::negation))]
    #[inline(never)]
    pub fn negation(&self, tokens: &mut Cursor<'_>) -> Result<Boxed<UnresolvedExpr>, ParseStop>
        requires { Nests self.now.fuel (F.pre self.now.inner) (F.post self.now.inner) }
        ensures { Gives (spec.negation (spec.at self.now.fuel) self.now.agg tokens.old) result tokens.new }
    {
        if tokens.eat(Keyword::Minus) {
            self.negated(tokens)
        } else {
            self.at(tokens, Precedence::Post)
        }
    }

    /// What comes after the sign.
    #[tactic(auto, unfolding(crate::specs::inner::Parser::negated))]
    #[inline(never)]
    fn negated(&self, tokens: &mut Cursor<'_>) -> Result<Boxed<UnresolvedExpr>, ParseStop>
        requires { Nests self.now.fuel (F.pre self.now.inner) (F.post self.now.inner) }
        ensures { Gives (spec.negated (spec.at self.now.fuel) self.now.agg tokens.old) result tokens.new }
    {
        if eat_least(tokens) {
            let least = UnresolvedExpr::Const(Value::Int(i64::MIN));
            return Ok(Boxed::new(self.alloc, least)?);
        }
        let x = self.at(tokens, Precedence::Neg)?;
        Ok(Boxed::new(self.alloc, UnresolvedExpr::Neg(x))?)
    }

    /// A primary with its fields and places.
    #[tactic(auto, unfolding(crate::specs::inner::Parser::path))]
    #[inline(never)]
    pub fn path(&self, tokens: &mut Cursor<'_>) -> Result<Boxed<UnresolvedExpr>, ParseStop>
        requires { Nests self.now.fuel (F.pre self.now.inner) (F.post self.now.inner) }
        ensures { Gives (spec.path (spec.at self.now.fuel) self.now.agg tokens.old) result tokens.new }
    {
        let x = self.primary(tokens)?;
        self.path_on(tokens, x)
    }

    /// Fields and places.
    #[inline(never)]
    fn path_on(
        &self,
        tokens: &mut Cursor<'_>,
        mut x: Boxed<UnresolvedExpr>,
    ) -> Result<Boxed<UnresolvedExpr>, ParseStop>
        requires { Nests self.now.fuel (F.pre self.now.inner) (F.post self.now.inner) }
        ensures { Gives (spec.path_on (spec.at self.now.fuel) self.now.agg x tokens.old) result tokens.new }
    {
        for _turn in 0..tokens.left() {
            if tokens.eat(Keyword::Dot) {
                x = self.field(tokens, x)?;
            } else if tokens.eat(Keyword::OpenSquare) {
                x = self.place(tokens, x)?;
            } else {
                return Ok(x);
            }
        }
        Ok(x)
    }

    /// A field, after its point.
    #[tactic(auto, unfolding(crate::specs::inner::Parser::field))]
    #[inline(never)]
    fn field(
        &self,
        tokens: &mut Cursor<'_>,
        x: Boxed<UnresolvedExpr>,
    ) -> Result<Boxed<UnresolvedExpr>, ParseStop>
        requires { Nests self.now.fuel (F.pre self.now.inner) (F.post self.now.inner) }
        ensures { Gives (spec.field (spec.at self.now.fuel) self.now.agg x tokens.old) result tokens.new }
    {
        let name = tokens.name(self.alloc)?;
        Ok(Boxed::new(self.alloc, UnresolvedExpr::Field(x, name))?)
    }

    /// A place, after its opening bracket.
    #[tactic(auto, unfolding(crate::specs::inner::Parser::place))]
    #[inline(never)]
    fn place(
        &self,
        tokens: &mut Cursor<'_>,
        x: Boxed<UnresolvedExpr>,
    ) -> Result<Boxed<UnresolvedExpr>, ParseStop>
        requires { Nests self.now.fuel (F.pre self.now.inner) (F.post self.now.inner) }
        ensures { Gives (spec.place (spec.at self.now.fuel) self.now.agg x tokens.old) result tokens.new }
    {
        let at = self.whole(tokens)?;
        tokens.expect(Keyword::CloseSquare)?;
        Ok(Boxed::new(self.alloc, UnresolvedExpr::Place(x, at))?)
    }
}
