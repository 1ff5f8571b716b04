ghost use Rattle.std.specs.Prelude.{◌≡◌, ◌<◌, ◌^◌, ◌++◌, map, IfOk, OnOk};
ghost use Rattle.n1ql_expr.specs.Scopes.{environment_on, named};
ghost use Rattle.n1ql_meaning.specs.Rows as spec;
ghost use Rattle.pipe_rows.specs.Pipes.{bound_pair, place_in, row_of};

use crate::element::Element;
use crate::input::Input;
use n1ql_expr::{Binding, Env};
use n1ql_value::{Memory, Text, Vals, Value};
use std::alloc::Global;
use std::sync::Arc;

/// A row: an input, and the element that each UNNEST binds, the first UNNEST's first.
#[derive(Drop)]
pub struct PipeRow<'a> {
    pub input: &'a Input,
    pub elements: Vec<Element<'a>>,
}

/// Rows, in order.
pub type PipeRows<'a> = Vec<PipeRow<'a>>;

impl<'a> PipeRow<'a> {
    /// The row with one more element.
    ///
    /// # Errors
    ///
    /// `Memory` where memory ran out.
    #[tactic(auto, using(crate::proofs::Rowing::row_more))]
    pub fn with_element(
        &self,
        alloc: Global,
        name: &'a Text,
        place: usize,
        value: Value,
    ) -> Result<PipeRow<'a>, Memory>
        requires { place < 2 ^ 63 }
        ensures { IfOk result (λ row. row_of row ≡ spec.with_element name.now (row_of self.now) place value) }
    {
        let mut elements = shared(alloc, self.elements.as_slice())?;
        let value = Arc::new(alloc, value)?;
        elements.push(Element {
            name,
            value,
            place: place as i64,
        })?;
        Ok(PipeRow {
            input: self.input,
            elements,
        })
    }

    /// The names that are bound in the row, with their values.
    ///
    /// # Errors
    ///
    /// `Memory` where memory ran out.
    pub fn bindings(&self, alloc: Global) -> Result<Vec<Binding<'_>>, Memory>
        ensures { IfOk result (λ bs. map named bs.items ≡ map bound_pair self.now.elements.items) }
    {
        bindings_of(alloc, self.elements.as_slice())
    }

    /// What expressions are evaluated on, where these names are bound.
    pub fn env<'b>(&'b self, bound: &'b [Binding<'b>]) -> Env<'b>
        requires { map named bound.now ≡ map bound_pair self.now.elements.items }
        ensures { environment_on result ≡ (row_of self.now).env }
    {
        Env {
            id: Some(&self.input.id),
            doc: &self.input.doc,
            keys: &self.input.keys,
            bound,
        }
    }

    /// The id of the document, and then the place of each element.
    ///
    /// # Errors
    ///
    /// `Memory` where memory ran out.
    pub fn base(&self, alloc: Global) -> Result<Vals, Memory>
        ensures { IfOk result (λ vs. vs ≡ (row_of self.now).base) }
    {
        let mut base = Vals::new(alloc);
        base.push(Value::Text(self.input.id.copy(alloc)?))?;
        push_places(&mut base, self.elements.as_slice())?;
        Ok(base)
    }
}

/// The same elements for one more row, with room for another.
fn shared<'a>(alloc: Global, elements: &[Element<'a>]) -> Result<Vec<Element<'a>>, Memory>
    ensures bound { IfOk result (λ es. map bound_pair es.items ≡ map bound_pair elements.now) }
    ensures places { IfOk result (λ es. map place_in es.items ≡ map place_in elements.now) }
{
    let mut made = Vec::with_capacity(alloc, elements.len() + 1)?;
    for element in elements {
        made.push(element.share()?)?;
    }
    Ok(made)
}

/// The names that elements are bound to, with their values.
fn bindings_of<'a>(alloc: Global, elements: &'a [Element<'a>]) -> Result<Vec<Binding<'a>>, Memory>
    ensures { IfOk result (λ bs. map named bs.items ≡ map bound_pair elements.now) }
{
    let mut bound = Vec::with_capacity(alloc, elements.len())?;
    for element in elements {
        bound.push(Binding {
            name: element.name,
            value: &*element.value,
        })?;
    }
    Ok(bound)
}

/// Adds the places of elements at the end.
fn push_places(base: &mut Vals, elements: &[Element<'_>]) -> Result<(), Memory>
    ensures { OnOk result (base.new ≡ base.old ++ map place_in elements.now) }
{
    for element in elements {
        base.push(Value::Int(element.place))?;
    }
    Ok(())
}
