ghost use Rattle.std.specs.Prelude.{◌≡◌, IfOk};
ghost use Rattle.std.specs.Option.{option_copied};
ghost use Rattle.n1ql_value.specs.Kinds.{or_missing};
ghost use Rattle.n1ql_value.specs.Paths.{field_of, place_of};
ghost use Rattle.n1ql_value.specs.Logic.{not_of};
ghost use Rattle.n1ql_value.specs.Arithmetic.{negation_of};
ghost use Rattle.n1ql_value.specs.Comparison.{between_of, in_of};
ghost use Rattle.n1ql_value.specs.Operators.{operation_of};
ghost use Rattle.n1ql_ast.specs.Evaluation.{test_of};
ghost use Rattle.n1ql_expr.specs.Scopes.{operand_value};

use crate::made::tested;
use n1ql_ast::Test;
use n1ql_funcs::{between, field, is_in, negate, not1, operate, place};
use n1ql_value::{Memory, Op, Text, Value};
use std::alloc::Global;

/// A value that stands somewhere, or one that was made.
#[derive(Drop)]
pub enum Operand<'a> {
    Held(&'a Value),
    Made(Value),
}

impl<'a> Operand<'a> {
    /// The value that stands somewhere, MISSING where none does.
    pub fn or_missing(held: Option<&'a Value>) -> Operand<'a>
        ensures { operand_value result ≡ or_missing (option_copied held.entry) }
    {
        match held {
            Some(value) => Operand::Held(value),
            None => Operand::Made(Value::Missing),
        }
    }

    /// The value, to read.
    pub fn value(&self) -> &Value
        ensures { result.now ≡ operand_value self.now }
    {
        match self {
            Operand::Held(value) => value,
            Operand::Made(value) => value,
        }
    }

    /// The value itself: a copy of one that stands somewhere.
    ///
    /// # Errors
    ///
    /// `Memory` where memory ran out.
    pub fn into_value(self, alloc: Global) -> Result<Value, Memory>
        ensures { IfOk result (λ v. v ≡ operand_value self.entry) }
    {
        match self {
            Operand::Held(value) => value.copy(alloc),
            Operand::Made(value) => Ok(value),
        }
    }

    /// The field under a name, where it stands.
    ///
    /// # Errors
    ///
    /// `Memory` where memory ran out.
    pub fn field(self, alloc: Global, name: &Text) -> Result<Operand<'a>, Memory>
        ensures { IfOk result (λ f. operand_value f ≡ field_of name.now (operand_value self.entry)) }
    {
        match self {
            Operand::Held(value) => Ok(Operand::or_missing(field(value, name.as_str()))),
            Operand::Made(value) => Operand::copied(alloc, field(&value, name.as_str())),
        }
    }

    /// The element at a place, where it stands.
    ///
    /// # Errors
    ///
    /// `Memory` where memory ran out.
    pub fn place(self, alloc: Global, at: Operand<'a>) -> Result<Operand<'a>, Memory>
        ensures { IfOk result (λ f. operand_value f ≡ place_of (operand_value self.entry) (operand_value at.entry)) }
    {
        match self {
            Operand::Held(value) => Ok(Operand::or_missing(place(value, at.value()))),
            Operand::Made(value) => Operand::copied(alloc, place(&value, at.value())),
        }
    }

    /// NOT.
    pub fn not(self) -> Operand<'a>
        ensures { operand_value result ≡ not_of (operand_value self.entry) }
    {
        Operand::Made(not1(self.value()).value())
    }

    /// The unary minus.
    pub fn negated(self) -> Operand<'a>
        ensures { operand_value result ≡ negation_of (operand_value self.entry) }
    {
        Operand::Made(negate(self.value()))
    }

    /// An operator between the value and another.
    ///
    /// # Errors
    ///
    /// `Memory` where memory ran out.
    pub fn combined(self, alloc: Global, op: Op, other: Operand<'a>) -> Result<Operand<'a>, Memory>
        ensures { IfOk result (λ f. operand_value f ≡ operation_of op (operand_value self.entry) (operand_value other.entry)) }
    {
        Ok(Operand::Made(operate(alloc, op, self.value(), other.value())?))
    }

    /// IS.
    pub fn tested(self, test: Test) -> Operand<'a>
        ensures { operand_value result ≡ test_of test (operand_value self.entry) }
    {
        Operand::Made(tested(test, self.value()))
    }

    /// IN.
    pub fn among(self, list: Operand<'a>) -> Operand<'a>
        ensures { operand_value result ≡ in_of (operand_value self.entry) (operand_value list.entry) }
    {
        Operand::Made(is_in(self.value(), list.value()).value())
    }

    /// BETWEEN.
    pub fn between(self, low: Operand<'a>, high: Operand<'a>) -> Operand<'a>
        ensures { operand_value result ≡ between_of (operand_value self.entry) (operand_value low.entry) (operand_value high.entry) }
    {
        Operand::Made(between(self.value(), low.value(), high.value()).value())
    }

    /// A copy of what stands somewhere, MISSING where nothing does.
    fn copied(alloc: Global, held: Option<&Value>) -> Result<Operand<'a>, Memory>
        ensures { IfOk result (λ f. operand_value f ≡ or_missing (option_copied held.entry)) }
    {
        match held {
            Some(value) => Ok(Operand::Made(value.copy(alloc)?)),
            None => Ok(Operand::Made(Value::Missing)),
        }
    }
}
