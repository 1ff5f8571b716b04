ghost use Rattle.std.specs.Prelude.{◌≡◌, [], drop, length};
ghost use Rattle.n1ql_parse.specs.declared.tokens.parse_stop.ParseStop.TheVariants as stop;
ghost use Rattle.n1ql_parse.specs.inner.Steps as spec;
ghost use Rattle.n1ql_parse.specs.inner.Steps.{Gives, got};

use crate::tokens::parse_stop::ParseStop;
use crate::tokens::word::Word;
use n1ql_ast::{Keyword, TokenClass};
use n1ql_value::Text;
use std::alloc::Global;
use std::marker::Model;

/// The tokens that are still to be read. It knows nothing of the grammar.
#[derive(Drop)]
pub struct Cursor<'a> {
    rest: &'a [TokenClass],
}

impl<'a> Model for Cursor<'a> {
    ghost use Rattle.std.specs.Prelude.{List};
    ghost use Rattle.n1ql_ast.specs.declared.token_class.TokenClass.{TokenClass};

    ghost Value = { List TokenClass };

    ghost view = { λ c. c.rest.now };
}

/// Whether two keywords are the same.
#[tactic(auto, unfolding(crate::specs::inner::Steps::same_keyword))]
fn same_keyword(a: Keyword, b: Keyword) -> bool
    ensures { result ≡ spec.same_keyword a b }
{
    a == b
}

impl<'a> Cursor<'a> {
    /// Before the first of some tokens.
    pub fn new(classes: &'a [TokenClass]) -> Cursor<'a>
        ensures { result ≡ classes.now }
    {
        Cursor { rest: classes }
    }

    /// The tokens that are left.
    pub fn rest(&self) -> &'a [TokenClass]
        ensures { result.now ≡ self.now }
    {
        self.rest
    }

    /// How many tokens are left.
    pub fn left(&self) -> usize
        ensures { result ≡ length self.now }
    {
        self.rest.len()
    }

    /// That no text goes on here.
    pub fn fault(&self) -> ParseStop
        ensures { result ≡ stop.Fault (length self.now) }
    {
        ParseStop::Fault { left: self.left() }
    }

    /// That no token is left.
    pub fn end(&self) -> Result<(), ParseStop>
        ensures { Gives (spec.end self.now) result [] }
    {
        if self.rest.is_empty() {
            Ok(())
        } else {
            Err(self.fault())
        }
    }

    /// Moves past the next token, if there is one.
    pub fn skip(&mut self)
        ensures { self.new ≡ drop 1 self.old }
    {
        if let Some((_, rest)) = self.rest.split_first() {
            self.rest = rest;
        }
    }

    /// Whether the next token is this keyword.
    pub fn sees(&self, keyword: Keyword) -> bool
        ensures { result ≡ spec.sees keyword self.now }
    {
        match self.rest.split_first() {
            Some((TokenClass::Keyword(found), _)) => same_keyword(*found, keyword),
            _ => false,
        }
    }

    /// Moves past this keyword where it comes next, and tells whether it did.
    pub fn eat(&mut self, keyword: Keyword) -> bool
        ensures { spec.eat keyword self.old ≡ got result self.new }
    {
        let found = self.sees(keyword);
        if found {
            self.skip();
        }
        found
    }

    /// Moves past this keyword.
    pub fn expect(&mut self, keyword: Keyword) -> Result<(), ParseStop>
        ensures { Gives (spec.expect keyword self.old) result self.new }
    {
        if self.sees(keyword) {
            self.skip();
            Ok(())
        } else {
            Err(self.fault())
        }
    }

    /// Moves past a name.
    pub fn word(&mut self, alloc: Global) -> Result<Word, ParseStop>
        ensures { Gives (spec.word self.old) result self.new }
    {
        match self.rest.split_first() {
            Some((TokenClass::Name(text, quoted), rest)) => {
                let word = Word {
                    text: text.copy(alloc)?,
                    quoted: *quoted,
                };
                self.rest = rest;
                Ok(word)
            }
            _ => Err(self.fault()),
        }
    }

    /// Moves past a name, in backquotes or without.
    pub fn name(&mut self, alloc: Global) -> Result<Text, ParseStop>
        ensures { Gives (spec.name self.old) result self.new }
    {
        let Word { text, .. } = self.word(alloc)?;
        Ok(text)
    }

    /// Moves past a string.
    pub fn string(&mut self, alloc: Global) -> Result<Text, ParseStop>
        ensures { Gives (spec.string self.old) result self.new }
    {
        match self.rest.split_first() {
            Some((TokenClass::Str(text), rest)) => {
                let text = text.copy(alloc)?;
                self.rest = rest;
                Ok(text)
            }
            _ => Err(self.fault()),
        }
    }
}
