//! Laws of projected pieces: each is the contract of a function that does nothing.

ghost use Rattle.std.specs.Prelude.{ℕ, List, ◌++◌};
ghost use Rattle.vb_store.specs.declared.mutation.Mutation.{Mutation};
ghost use Rattle.vb_store.specs.Mutations.{IsNumbered};
ghost use Rattle.index_def.specs.declared.definition.IndexDef.{IndexDef};
ghost use Rattle.key_eval.specs.declared.projected.Projected.{Projected};
ghost use Rattle.key_eval.specs.Stands.{ProjectedStands};

/// Law of growth: a projected piece that stands for mutations stands for them where more come.
pub fn growth()
    ensures { (n : ℕ) (def : IndexDef) (log more : List Mutation) (p : Projected)
        → IsNumbered n (log ++ more) → ProjectedStands n def log p → ProjectedStands n def (log ++ more) p }
{
    vb_store::laws::growth();
    vb_store::laws::high_counts();
}
