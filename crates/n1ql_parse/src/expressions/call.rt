//! Names, and what they call.

ghost use Rattle.std.specs.Prelude.{◌≡◌};
ghost use Rattle.n1ql_parse.specs.inner.Nests.{Nests};
ghost use Rattle.n1ql_parse.specs.inner.Parser as spec;
ghost use Rattle.n1ql_parse.specs.inner.Steps.{Gives};

use crate::expressions::grammar::Grammar;
use crate::expressions::precedence::Precedence;
use crate::tokens::cursor::Cursor;
use crate::tokens::parse_stop::ParseStop;
use crate::tokens::word::Word;
use n1ql_ast::{Agg, Callee, Keyword, UnresolvedExpr, UnresolvedExprs, callee_of};
use n1ql_value::Fun;
use sqlite_items::{Boxed, Items};
use std::alloc::Global;

/// Whether a function takes more than `count` arguments.
fn is_below(count: usize, most: Option<usize>) -> bool
    ensures { result ≡ spec.is_below count most }
{
    match most {
        Some(most) => count < most,
        None => true,
    }
}

/// Whether another argument comes after `count` of them. Moves past the comma before it.
#[tactic(auto, unfolding(crate::specs::inner::Parser::comma_after))]
fn comma_after(tokens: &mut Cursor<'_>, fun: Fun, count: usize) -> Result<bool, ParseStop>
    ensures { Gives (spec.comma_after fun count tokens.old) result tokens.new }
{
    if count < fun.least_arguments() {
        tokens.expect(Keyword::Comma)?;
        return Ok(true);
    }
    if is_below(count, fun.most_arguments()) {
        Ok(tokens.eat(Keyword::Comma))
    } else {
        Ok(false)
    }
}

/// META of a name or of none, after the opening bracket.
#[tactic(auto, unfolding(crate::specs::inner::Parser::meta))]
#[inline(never)]
fn meta(alloc: Global, tokens: &mut Cursor<'_>) -> Result<Boxed<UnresolvedExpr>, ParseStop>
    ensures { Gives (spec.meta tokens.old) result tokens.new }
{
    if tokens.eat(Keyword::CloseParenthesis) {
        return Ok(Boxed::new(alloc, UnresolvedExpr::Meta(None))?);
    }
    let whose = tokens.name(alloc)?;
    tokens.expect(Keyword::CloseParenthesis)?;
    Ok(Boxed::new(alloc, UnresolvedExpr::Meta(Some(whose)))?)
}

impl<
    F: Fn(
        Global,
        &mut Cursor<'_>,
        usize,
        bool,
        Precedence,
    ) -> Result<Boxed<UnresolvedExpr>, ParseStop>,
> Grammar<F> {
    /// A name, or what it calls.
    #[tactic(auto, unfolding(crate::specs::inner::Parser::named))]
    #[inline(never)]
    pub fn named(&self, tokens: &mut Cursor<'_>) -> Result<Boxed<UnresolvedExpr>, ParseStop>
        requires { Nests self.now.fuel (F.pre self.now.inner) (F.post self.now.inner) }
        ensures { Gives (spec.named (spec.at self.now.fuel) self.now.agg tokens.old) result tokens.new }
    {
        let word = tokens.word(self.alloc)?;
        self.named_by(tokens, word)
    }

    /// What a name stands for that was read.
    #[tactic(auto, unfolding(crate::specs::inner::Parser::named_by))]
    #[inline(never)]
    fn named_by(
        &self,
        tokens: &mut Cursor<'_>,
        word: Word,
    ) -> Result<Boxed<UnresolvedExpr>, ParseStop>
        requires { Nests self.now.fuel (F.pre self.now.inner) (F.post self.now.inner) }
        ensures { Gives (spec.named_by (spec.at self.now.fuel) self.now.agg word tokens.old) result tokens.new }
    {
        if tokens.sees(Keyword::OpenParenthesis) && !word.quoted {
            let callee = callee_of(word.text.as_str());
            return self.named_as(tokens, word, callee);
        }
        Ok(Boxed::new(self.alloc, UnresolvedExpr::Name(word.text))?)
    }

    /// A name, or what it calls with the bracket that comes next.
    #[inline(never)]
    fn named_as(
        &self,
        tokens: &mut Cursor<'_>,
        word: Word,
        callee: Callee,
    ) -> Result<Boxed<UnresolvedExpr>, ParseStop>
        requires { Nests self.now.fuel (F.pre self.now.inner) (F.post self.now.inner) }
        ensures { Gives (spec.named_as (spec.at self.now.fuel) self.now.agg word callee tokens.old) result tokens.new }
    {
        match callee {
            Callee::Function(fun) => {
                tokens.skip();
                self.call(tokens, fun)
            }
            Callee::Meta => {
                tokens.skip();
                meta(self.alloc, tokens)
            }
            Callee::Aggregate(agg) if self.agg => {
                tokens.skip();
                self.aggregate(tokens, agg)
            }
            Callee::Aggregate(_) | Callee::Nothing => {
                Ok(Boxed::new(self.alloc, UnresolvedExpr::Name(word.text))?)
            }
        }
    }

    /// The arguments of a function, after the opening bracket.
    #[tactic(auto, unfolding(crate::specs::inner::Parser::call))]
    #[inline(never)]
    fn call(&self, tokens: &mut Cursor<'_>, fun: Fun) -> Result<Boxed<UnresolvedExpr>, ParseStop>
        requires { Nests self.now.fuel (F.pre self.now.inner) (F.post self.now.inner) }
        ensures { Gives (spec.call (spec.at self.now.fuel) self.now.agg fun tokens.old) result tokens.new }
    {
        let arguments = self.arguments(tokens, fun)?;
        tokens.expect(Keyword::CloseParenthesis)?;
        Ok(Boxed::new(self.alloc, UnresolvedExpr::Call(fun, arguments))?)
    }

    /// As many arguments as a function takes.
    #[inline(never)]
    fn arguments(&self, tokens: &mut Cursor<'_>, fun: Fun) -> Result<UnresolvedExprs, ParseStop>
        requires { Nests self.now.fuel (F.pre self.now.inner) (F.post self.now.inner) }
        ensures { Gives (spec.arguments (spec.at self.now.fuel) self.now.agg fun tokens.old) result tokens.new }
    {
        let mut found = Items::new(self.alloc);
        for _turn in 0..tokens.left() {
            found.push(self.whole(tokens)?.into_inner())?;
            if !comma_after(tokens, fun, found.len())? {
                return Ok(found);
            }
        }
        Err(tokens.fault())
    }

    /// An aggregate, after the opening bracket.
    #[tactic(auto, unfolding(crate::specs::inner::Parser::aggregate))]
    #[inline(never)]
    fn aggregate(
        &self,
        tokens: &mut Cursor<'_>,
        agg: Agg,
    ) -> Result<Boxed<UnresolvedExpr>, ParseStop>
        requires { Nests self.now.fuel (F.pre self.now.inner) (F.post self.now.inner) }
        ensures { Gives (spec.aggregate (spec.at self.now.fuel) self.now.agg agg tokens.old) result tokens.new }
    {
        match agg {
            Agg::Count => self.count(tokens),
            _ => self.aggregate_over(tokens, agg),
        }
    }

    /// COUNT, after the opening bracket.
    #[tactic(auto, unfolding(crate::specs::inner::Parser::count))]
    #[inline(never)]
    fn count(&self, tokens: &mut Cursor<'_>) -> Result<Boxed<UnresolvedExpr>, ParseStop>
        requires { Nests self.now.fuel (F.pre self.now.inner) (F.post self.now.inner) }
        ensures { Gives (spec.count (spec.at self.now.fuel) self.now.agg tokens.old) result tokens.new }
    {
        if !tokens.eat(Keyword::Star) {
            return self.aggregate_over(tokens, Agg::Count);
        }
        tokens.expect(Keyword::CloseParenthesis)?;
        Ok(Boxed::new(self.alloc, UnresolvedExpr::Agg(Agg::CountAll, None))?)
    }

    /// An aggregate of an expression, in which no aggregate stands.
    #[tactic(auto, unfolding(crate::specs::inner::Parser::aggregate_over))]
    #[inline(never)]
    fn aggregate_over(
        &self,
        tokens: &mut Cursor<'_>,
        agg: Agg,
    ) -> Result<Boxed<UnresolvedExpr>, ParseStop>
        requires { Nests self.now.fuel (F.pre self.now.inner) (F.post self.now.inner) }
        ensures { Gives (spec.aggregate_over (spec.at self.now.fuel) self.now.agg agg tokens.old) result tokens.new }
    {
        let x = (self.inner)(self.alloc, tokens, self.fuel, false, Precedence::Or)?;
        tokens.expect(Keyword::CloseParenthesis)?;
        Ok(Boxed::new(self.alloc, UnresolvedExpr::Agg(agg, Some(x)))?)
    }
}
