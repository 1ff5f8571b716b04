//! Laws of projections: each is the contract of a function that does nothing.
ghost use Rattle.std.specs.Prelude.{ℕ, List};
ghost use Rattle.std.specs.Arc.{arc_value};
ghost use Rattle.vb_store.specs.declared.mutation.Mutation.{Mutation};
ghost use Rattle.dcp_stream.specs.declared.piece.Piece.{Piece};
ghost use Rattle.dcp_stream.specs.Pieces.{PieceStands};
ghost use Rattle.key_eval.specs.Stands.{ProjectedStands};
ghost use Rattle.projector.specs.declared.numbered_def.NumberedDef.{NumberedDef};
ghost use Rattle.projector.specs.Projections.{projected_of};

/// Law of projections: where a piece stands for mutations, what becomes of it in an index stands for them too.
pub fn a_projection_stands()
    ensures { (n : ℕ) (log : List Mutation) (p : Piece) (d : NumberedDef)
        → PieceStands n log p → ProjectedStands n (arc_value d.def) log (projected_of d p) }
{}
