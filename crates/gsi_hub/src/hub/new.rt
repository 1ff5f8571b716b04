ghost use Rattle.std.specs.Prelude.{◌≡◌, ◌<◌, ◌≤◌, [], IfOk, replicate};
ghost use Rattle.std.specs.Arc.{arc_value};
ghost use Rattle.scan_history.specs.Fold.{first_part};
ghost use Rattle.scan_history.specs.Sound.{IsSound};
ghost use Rattle.gsi_hub.specs.inner.Parts.{part_of, parts_of};

use crate::hub::Hub;
use crate::part::{Open, Part};
use index_ddl::Catalog;
use n1ql_value::Memory;
use scan_coord::Session;
use scan_history::Script;
use seq_vector::zero;
use std::alloc::Global;
use std::sync::Arc;
use vb_store::VbStore;

impl Hub {
    /// A script's hub before the first event.
    ///
    /// # Errors
    ///
    /// `Memory` where memory ran out.
    pub fn new(alloc: Global, script: Arc<Script>) -> Result<Hub, Memory>
        requires { IsSound (arc_value script) }
        ensures script { IfOk result (λ hub. hub.script ≡ arc_value script) }
        ensures events { IfOk result (λ hub. hub.events ≡ []) }
    {
        let vbuckets = script.vbuckets;
        let store = VbStore::new(alloc, vbuckets)?;
        let parts = first_parts(alloc, vbuckets, script.clients)?;
        Ok(Hub {
            alloc,
            script,
            store,
            catalog: Catalog::new(alloc),
            newest: Vec::new(alloc),
            parts,
            events: Vec::new(alloc),
        })
    }
}

/// The parts of clients that did nothing.
fn first_parts(alloc: Global, vbuckets: u32, clients: u32) -> Result<Vec<Part>, Memory>
    requires { (0 < vbuckets) × (vbuckets ≤ 1024) }
    ensures { IfOk result (λ parts. parts_of parts.items ≡ replicate clients (first_part vbuckets)) }
{
    let mut parts = Vec::with_capacity(alloc, clients as usize)?;
    for _ in 0..clients {
        parts.push(first_part_of(alloc, vbuckets)?)?;
    }
    Ok(parts)
}

/// That of one.
fn first_part_of(alloc: Global, vbuckets: u32) -> Result<Part, Memory>
    requires { (0 < vbuckets) × (vbuckets ≤ 1024) }
    ensures { IfOk result (λ part. part_of part ≡ first_part vbuckets) }
{
    Ok(Part {
        opened: Open::Nothing,
        next: 0,
        session: Session {
            seen: zero(alloc, vbuckets)?,
            wrote: zero(alloc, vbuckets)?,
        },
    })
}
