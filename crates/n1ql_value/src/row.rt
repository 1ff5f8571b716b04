ghost use Rattle.std.specs.Prelude.{◌≡◌, IfOk};

use crate::memory::Memory;
use crate::text::Text;
use crate::vals::Vals;
use std::alloc::Global;

/// A row of an index: the values of its keys, and the id of the document that it comes from.
#[derive(Debug, Drop)]
pub struct Row {
    pub keys: Vals,
    pub id: Text,
}

impl Row {
    /// A copy of the row.
    ///
    /// # Errors
    ///
    /// `Memory` where it ran out.
    pub fn copy(&self, alloc: Global) -> Result<Row, Memory>
        ensures { IfOk result (λ row. row ≡ self.now) }
    {
        let keys = self.keys.copy(alloc)?;
        let id = self.id.copy(alloc)?;
        Ok(Row { keys, id })
    }
}
