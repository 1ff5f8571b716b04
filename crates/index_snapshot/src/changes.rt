ghost use Rattle.std.specs.Prelude.{◌≡◌, IfOk};
ghost use Rattle.index_snapshot.specs.Workers.{change_of, changes_above};

use index_state::Change;
use key_eval::KeyVersion;
use n1ql_value::{Memory, Row, Rows};
use std::alloc::Global;

/// The changes of the versions whose numbers are above `after`, in their order.
pub(crate) fn changes_of(
    alloc: Global,
    after: u64,
    versions: &[KeyVersion],
) -> Result<Vec<Change>, Memory>
    ensures { IfOk result (λ changes. changes.items ≡ changes_above after versions.now) }
{
    let mut changes = Vec::new(alloc);
    for version in versions {
        if after < version.seqno {
            changes.push(change(alloc, version)?)?;
        }
    }
    Ok(changes)
}

/// The rows of a version in place of those that its id holds.
fn change(alloc: Global, version: &KeyVersion) -> Result<Change, Memory>
    ensures { IfOk result (λ c. c ≡ change_of version.now) }
{
    let id = version.id.copy(alloc)?;
    let rows = copy_of(alloc, version.rows.as_slice())?;
    Ok(Change { id, rows })
}

/// The same rows again.
fn copy_of(alloc: Global, rows: &[Row]) -> Result<Rows, Memory>
    ensures { IfOk result (λ copy. copy ≡ rows.now) }
{
    let mut copy = Rows::new(alloc);
    for row in rows {
        copy.push(row.copy(alloc)?)?;
    }
    Ok(copy)
}
