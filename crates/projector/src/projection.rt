ghost use Rattle.std.specs.Prelude.{◌≡◌, ℕ, List, map, IfOk};
ghost use Rattle.std.specs.Arc.{arc_value};
ghost use Rattle.std.specs.List.{All};
ghost use Rattle.vb_store.specs.declared.mutation.Mutation.{Mutation as mutation};
ghost use Rattle.dcp_stream.specs.Pieces.{PieceStands};
ghost use Rattle.index_def.specs.Forms.{IsFormed};
ghost use Rattle.key_eval.specs.Versions.{version_of};
ghost use Rattle.projector.specs.Projections.{projected_of, StandInOrder};

use crate::numbered_def::NumberedDef;
use dcp_stream::Piece;
use index_def::IndexDef;
use key_eval::{KeyVersions, Projected, version_of};
use n1ql_value::{ListOf, Memory};
use std::alloc::Global;
use std::sync::Arc;
use vb_store::Mutation;

/// Projected pieces, in the order of the definitions.
pub type ProjectedList = ListOf<Projected>;

/// What becomes of a piece in each of the indexes, in their order.
///
/// # Errors
///
/// `Memory` where memory ran out.
pub fn project(alloc: Global, p: &Piece, defs: &[NumberedDef]) -> Result<ProjectedList, Memory>
    requires { All (λ d. IsFormed (arc_value d.def)) defs.now }
    ensures projected { IfOk result (λ ps. ps ≡ map (λ d. projected_of d p.now) defs.now) }
    ensures stands { IfOk result (λ ps. (n : ℕ) (log : List Mutation) → PieceStands n log p.now → StandInOrder n log defs.now ps) }
{
    let mut projected = ProjectedList::new(alloc);
    for numbered in defs {
        projected.push(projected_for(alloc, p, numbered)?)?;
    }
    Ok(projected)
}

/// What becomes of a piece in an index.
fn projected_for(alloc: Global, p: &Piece, numbered: &NumberedDef) -> Result<Projected, Memory>
    requires { IsFormed (arc_value numbered.now.def) }
    ensures { IfOk result (λ projected. projected ≡ projected_of numbered.now p.now) }
{
    let versions = versions_of(alloc, &numbered.def, p.muts.as_slice())?;
    Ok(Projected {
        index: numbered.number,
        vb: p.vb,
        from: p.from,
        to: p.to,
        end: p.end,
        versions,
    })
}

/// What becomes of mutations in an index, in their order.
fn versions_of(alloc: Global, def: &IndexDef, muts: &[Arc<Mutation>]) -> Result<KeyVersions, Memory>
    requires { IsFormed def.now }
    ensures { IfOk result (λ versions. versions ≡ map (version_of def.now) (map arc_value muts.now)) }
{
    let mut versions = KeyVersions::new(alloc);
    for m in muts {
        versions.push(version_of(alloc, def, m)?)?;
    }
    Ok(versions)
}
