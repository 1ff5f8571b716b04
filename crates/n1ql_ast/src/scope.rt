ghost use Rattle.std.specs.Prelude.{◌≡◌, [], List, ℕ, IfOk, OnOk, OnErr};
ghost use Rattle.std.specs.List.{list_any};
ghost use Rattle.std.specs.Str.{bytes_eq};
ghost use Rattle.n1ql_ast.specs.declared.scope.Scope.{Scope};
ghost use Rattle.n1ql_ast.specs.Names as spec;

use crate::expr::Expr;
use n1ql_value::{Memory, Text, same_text};
use sqlite_items::{Boxed, Items};
use std::alloc::Global;

/// What the names of an unresolved expression may mean.
#[derive(Drop)]
pub struct Scope {
    /// The names that something around the unresolved expression binds, the innermost last.
    pub bound: Items<Text>,
    /// The name of the document.
    pub alias: Text,
}

impl Scope {
    /// The scope in which nothing is bound.
    ///
    /// # Errors
    ///
    /// `Memory` where memory ran out.
    pub fn new(alloc: Global, alias: &str) -> Result<Scope, Memory>
        ensures { IfOk result (λ scope. scope ≡ spec.outermost alias.now) }
    {
        Ok(Scope {
            bound: Items::new(alloc),
            alias: Text::of(alloc, alias)?,
        })
    }

    /// Binds a name inside those that are bound.
    ///
    /// # Errors
    ///
    /// `Memory` where memory ran out; the scope is then as before.
    pub fn enter(&mut self, alloc: Global, name: &Text) -> Result<(), Memory>
        ensures ok { OnOk result (self.new ≡ spec.inside name.now self.old) }
        ensures err { OnErr result (self.new ≡ self.old) }
    {
        let name = name.copy(alloc)?;
        self.bound.push(name)?;
        Ok(())
    }

    /// Drops the innermost name that is bound. Where none is, the scope stays as it was.
    pub fn leave(&mut self)
        ensures innermost { (name : List ℕ) (before : Scope) → self.old ≡ spec.inside name before → self.new ≡ before }
        ensures none { self.old.bound ≡ [] → self.new ≡ self.old }
    {
        let _ = self.bound.pop();
    }

    /// Whether a name is bound.
    fn binds(&self, name: &Text) -> bool
        ensures { result ≡ list_any (bytes_eq name.now) self.now.bound }
    {
        for bound in self.bound.as_slice() {
            if same_text(name.as_str(), bound.as_str()) {
                return true;
            }
        }
        false
    }

    /// What a name is.
    ///
    /// # Errors
    ///
    /// `Memory` where memory ran out.
    pub fn name(&self, alloc: Global, name: &Text) -> Result<Expr, Memory>
        ensures { IfOk result (λ e. e ≡ spec.name_in self.now name.now) }
    {
        let copy = name.copy(alloc)?;
        if self.binds(name) {
            Ok(Expr::Var(copy))
        } else if same_text(name.as_str(), self.alias.as_str()) {
            Ok(Expr::Doc)
        } else {
            Ok(Expr::Field(Boxed::new(alloc, Expr::Doc)?, copy))
        }
    }

    /// Whether META of a name, or of none, is that of the document.
    pub fn has_meta(&self, name: &Option<Text>) -> bool
        ensures { Expr.MetaOf result ≡ spec.meta_in self.now name.now }
    {
        match name {
            Some(name) => same_text(name.as_str(), self.alias.as_str()),
            None => true,
        }
    }
}
