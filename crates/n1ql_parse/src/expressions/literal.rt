//! Arrays and objects.

ghost use Rattle.n1ql_parse.specs.inner.Nests.{Nests};
ghost use Rattle.n1ql_parse.specs.inner.Parser as spec;
ghost use Rattle.n1ql_parse.specs.inner.Steps.{Gives};

use crate::expressions::grammar::Grammar;
use crate::expressions::object_fields::ObjectFields;
use crate::expressions::precedence::Precedence;
use crate::tokens::cursor::Cursor;
use crate::tokens::parse_stop::ParseStop;
use n1ql_ast::{Keyword, Names, UnresolvedExpr, UnresolvedExprs};
use sqlite_items::{Boxed, Items};
use std::alloc::Global;

impl<
    F: Fn(
        Global,
        &mut Cursor<'_>,
        usize,
        bool,
        Precedence,
    ) -> Result<Boxed<UnresolvedExpr>, ParseStop>,
> Grammar<F> {
    /// Expressions with commas between them.
    #[inline(never)]
    pub fn wholes(&self, tokens: &mut Cursor<'_>) -> Result<UnresolvedExprs, ParseStop>
        requires { Nests self.now.fuel (F.pre self.now.inner) (F.post self.now.inner) }
        ensures { Gives (spec.wholes (spec.at self.now.fuel) self.now.agg tokens.old) result tokens.new }
    {
        let mut found = Items::new(self.alloc);
        for _turn in 0..tokens.left() {
            found.push(self.whole(tokens)?.into_inner())?;
            if !tokens.eat(Keyword::Comma) {
                return Ok(found);
            }
        }
        Err(tokens.fault())
    }

    /// An array, after its opening bracket.
    #[tactic(auto, unfolding(crate::specs::inner::Parser::list))]
    #[inline(never)]
    pub fn list(&self, tokens: &mut Cursor<'_>) -> Result<Boxed<UnresolvedExpr>, ParseStop>
        requires { Nests self.now.fuel (F.pre self.now.inner) (F.post self.now.inner) }
        ensures { Gives (spec.list (spec.at self.now.fuel) self.now.agg tokens.old) result tokens.new }
    {
        if tokens.eat(Keyword::CloseSquare) {
            let none = Items::new(self.alloc);
            return Ok(Boxed::new(self.alloc, UnresolvedExpr::List(none))?);
        }
        let items = self.wholes(tokens)?;
        tokens.expect(Keyword::CloseSquare)?;
        Ok(Boxed::new(self.alloc, UnresolvedExpr::List(items))?)
    }

    /// An object, after its opening brace.
    #[tactic(auto, unfolding(crate::specs::inner::Parser::object))]
    #[inline(never)]
    pub fn object(&self, tokens: &mut Cursor<'_>) -> Result<Boxed<UnresolvedExpr>, ParseStop>
        requires { Nests self.now.fuel (F.pre self.now.inner) (F.post self.now.inner) }
        ensures { Gives (spec.object (spec.at self.now.fuel) self.now.agg tokens.old) result tokens.new }
    {
        if tokens.eat(Keyword::CloseBrace) {
            let none = UnresolvedExpr::Build(Names::new(self.alloc), Items::new(self.alloc));
            return Ok(Boxed::new(self.alloc, none)?);
        }
        let ObjectFields { names, values } = self.object_fields(tokens)?;
        tokens.expect(Keyword::CloseBrace)?;
        Ok(Boxed::new(self.alloc, UnresolvedExpr::Build(names, values))?)
    }

    /// Names and values with commas between them.
    #[inline(never)]
    fn object_fields(&self, tokens: &mut Cursor<'_>) -> Result<ObjectFields, ParseStop>
        requires { Nests self.now.fuel (F.pre self.now.inner) (F.post self.now.inner) }
        ensures { Gives (spec.object_fields (spec.at self.now.fuel) self.now.agg tokens.old) result tokens.new }
    {
        let mut found = ObjectFields::none(self.alloc);
        for _turn in 0..tokens.left() {
            found = self.object_field(tokens, found)?;
            if !tokens.eat(Keyword::Comma) {
                return Ok(found);
            }
        }
        Err(tokens.fault())
    }

    /// A name and its value, behind those that were found.
    #[tactic(auto, unfolding(crate::specs::inner::Parser::object_field))]
    #[inline(never)]
    fn object_field(
        &self,
        tokens: &mut Cursor<'_>,
        found: ObjectFields,
    ) -> Result<ObjectFields, ParseStop>
        requires { Nests self.now.fuel (F.pre self.now.inner) (F.post self.now.inner) }
        ensures { Gives (spec.object_field (spec.at self.now.fuel) self.now.agg found tokens.old) result tokens.new }
    {
        let name = tokens.string(self.alloc)?;
        tokens.expect(Keyword::Colon)?;
        let value = self.whole(tokens)?;
        Ok(found.with(name, value)?)
    }
}
