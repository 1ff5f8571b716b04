ghost use Rattle.std.specs.Prelude.{◌≡◌, ◌↔◌, Some, Err, IfOk};
ghost use Rattle.index_def.specs.Definitions as spec;
ghost use Rattle.n1ql_ast.specs.FormedStatements.{IsFormedCreate};
ghost use Rattle.index_def.specs.Forms.{DefinesFormed, IsFormed};
ghost use Rattle.index_def.specs.Reasons as reasons;

use crate::definition::IndexDef;
use crate::fault::DefFault;
use crate::reason::Reason;
use crate::reasons::first_reason;
use n1ql_ast::Create;
use n1ql_expr::{conjuncts_in, copy_keys};
use n1ql_value::Memory;
use std::alloc::Global;

/// The definition that a statement asks for.
///
/// # Errors
///
/// `Bad` with the first reason why it defines no index, exactly where there is one. `Memory` where memory ran out.
pub fn check(alloc: Global, c: &Create) -> Result<IndexDef, DefFault>
    ensures bad { (r : Reason) → (result ≡ Err (DefFault.Bad r)) ↔ (reasons.first_reason c.now ≡ Some r) }
    ensures def { IfOk result (λ def. def ≡ spec.definition_of c.now) }
    ensures formed { DefinesFormed c.now → IfOk result IsFormed }
    ensures statement { IsFormedCreate c.now → IfOk result IsFormed }
{
    if let Some(reason) = first_reason(c) {
        return Err(DefFault::Bad(reason));
    }
    match definition(alloc, c) {
        Ok(def) => Ok(def),
        Err(Memory) => Err(DefFault::Memory),
    }
}

/// The definition, whether or not there is a reason against it.
fn definition(alloc: Global, c: &Create) -> Result<IndexDef, Memory>
    ensures { IfOk result (λ def. def ≡ spec.definition_of c.now) }
{
    Ok(IndexDef {
        name: c.name.copy(alloc)?,
        keys: copy_keys(alloc, &c.keys)?,
        filter: conjuncts_in(alloc, &c.filter)?,
        primary: c.primary,
    })
}
