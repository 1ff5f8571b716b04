ghost use Rattle.std.specs.Prelude.{◌≡◌, IfOk};

use n1ql_value::{ListOf, Memory, Text};
use std::alloc::Global;

/// Names, in order.
pub type Names = ListOf<Text>;

/// The same names again.
///
/// # Errors
///
/// `Memory` where memory ran out.
pub fn copy_names(alloc: Global, names: &Names) -> Result<Names, Memory>
    ensures { IfOk result (λ copy. copy ≡ names.now) }
{
    let mut copy = Names::new(alloc);
    for name in names.as_slice() {
        copy.push(name.copy(alloc)?)?;
    }
    Ok(copy)
}
