ghost use Rattle.std.specs.Prelude.{◌≡◌, IfOk};
ghost use Rattle.n1ql_parse.specs.inner.Parser as spec;

use n1ql_ast::{UnresolvedExpr, UnresolvedExprs};
use sqlite_items::{Boxed, Items};
use std::alloc::{AllocError, Global};

/// The conditions and the results of CASE, equally many.
#[derive(Drop)]
pub struct Arms {
    pub whens: UnresolvedExprs,
    pub thens: UnresolvedExprs,
}

impl Arms {
    /// No arms yet.
    pub fn none(alloc: Global) -> Arms
        ensures { result ≡ spec.no_arms }
    {
        Arms {
            whens: Items::new(alloc),
            thens: Items::new(alloc),
        }
    }

    /// These arms and one more behind them.
    pub fn with(
        self,
        when: Boxed<UnresolvedExpr>,
        then: Boxed<UnresolvedExpr>,
    ) -> Result<Arms, AllocError>
        ensures { IfOk result (λ arms. arms ≡ spec.with_arm self when then) }
    {
        let Arms {
            mut whens,
            mut thens,
        } = self;
        whens.push(when.into_inner())?;
        thens.push(then.into_inner())?;
        Ok(Arms { whens, thens })
    }
}
