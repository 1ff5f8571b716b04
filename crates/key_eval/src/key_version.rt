ghost use Rattle.std.specs.Prelude.{◌≡◌, IfOk};
ghost use Rattle.index_def.specs.Forms.{IsFormed};
ghost use Rattle.key_eval.specs.Versions as spec;

use crate::keys::keys_of;
use index_def::IndexDef;
use n1ql_value::{ListOf, Memory, Rows, Text};
use std::alloc::Global;
use vb_store::Mutation;

/// What becomes of a mutation in an index: the rows that its id has from then on.
#[derive(Drop)]
pub struct KeyVersion {
    /// The number of the mutation in its vBucket.
    pub seqno: u64,
    /// The id of the document.
    pub id: Text,
    /// In order. None after a deletion.
    pub rows: Rows,
}

/// What becomes of several mutations, in order.
pub type KeyVersions = ListOf<KeyVersion>;

/// What becomes of a mutation in an index.
///
/// # Errors
///
/// `Memory` where memory ran out.
pub fn version_of(alloc: Global, def: &IndexDef, m: &Mutation) -> Result<KeyVersion, Memory>
    requires { IsFormed def.now }
    ensures { IfOk result (λ version. version ≡ spec.version_of def.now m.now) }
{
    let rows = keys_of(alloc, def, m)?;
    let id = m.id.copy(alloc)?;
    Ok(KeyVersion {
        seqno: m.seqno,
        id,
        rows,
    })
}
