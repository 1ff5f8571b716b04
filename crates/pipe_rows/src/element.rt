ghost use Rattle.std.specs.Prelude.{◌≡◌, IfOk};
ghost use Rattle.pipe_rows.specs.Pipes.{bound_pair, place_in};

use n1ql_value::{Memory, Text, Value};
use std::sync::Arc;

/// What an UNNEST binds in a row. The rows of one element share it.
#[derive(Drop)]
pub struct Element<'a> {
    /// What the statement calls the element.
    pub name: &'a Text,
    /// MISSING in a row that LEFT keeps.
    pub value: Arc<Value>,
    /// The place in the array from 0, and 0 in a row that LEFT keeps.
    pub place: i64,
}

impl<'a> Element<'a> {
    /// The same element for one more row.
    ///
    /// # Errors
    ///
    /// `Memory` where the element has too many rows.
    pub fn share(&self) -> Result<Element<'a>, Memory>
        ensures { IfOk result (λ e. (bound_pair e ≡ bound_pair self.now) × (place_in e ≡ place_in self.now)) }
    {
        Ok(Element {
            name: self.name,
            value: Arc::try_clone(&self.value)?,
            place: self.place,
        })
    }
}
