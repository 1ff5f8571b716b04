ghost use Rattle.std.specs.Prelude.{◌≡◌, ◌<◌, IfOk, ⊤};
ghost use Rattle.gsi_hub.specs.Past.{part_in};
ghost use Rattle.gsi_hub.specs.Snapshots.{IsHeld};
ghost use Rattle.gsi_hub.specs.Stages.{OnRequest};
ghost use Rattle.gsi_hub.specs.inner.Parts.{opened_of};

use crate::held::Held;
use crate::hub::Hub;
use crate::part::Open;
use n1ql_value::Memory;
use std::sync::Arc;

impl Hub {
    /// The newest snapshot of the index of a client's request, and its vector. `None` exactly where the index isn't live.
    ///
    /// # Errors
    ///
    /// `Memory` where memory ran out.
    pub fn held(&self, c: u32) -> Result<Option<Held>, Memory>
        requires client { c < self.now.script.clients }
        requires request { OnRequest (part_in self.now c).opened (λ i demand. ⊤) }
        ensures { IfOk result (λ held. OnRequest (part_in self.now c).opened (λ i demand. IsHeld self.now i held)) }
    {
        let i = self.index_of(c);
        self.held_of(i)
    }

    /// The newest snapshot of an index, and its vector.
    fn held_of(&self, i: u32) -> Result<Option<Held>, Memory>
        ensures { IfOk result (IsHeld self.now i) }
    {
        match self.newest(i) {
            None => Ok(None),
            Some(newest) => {
                let at = Arc::try_clone(&newest.vector)?;
                let snapshot = Arc::try_clone(newest)?;
                Ok(Some(Held { snapshot, at }))
            }
        }
    }

    /// The index of a client's request.
    fn index_of(&self, c: u32) -> u32
        requires client { c < self.now.script.clients }
        requires request { OnRequest (part_in self.now c).opened (λ i demand. ⊤) }
        ensures { OnRequest (part_in self.now c).opened (λ i demand. result ≡ i) }
    {
        index_in(&self.part(c).opened)
    }
}

/// The index of the request that is open.
fn index_in(opened: &Open) -> u32
    requires { OnRequest (opened_of opened.now) (λ i demand. ⊤) }
    ensures { OnRequest (opened_of opened.now) (λ i demand. result ≡ i) }
{
    match opened {
        Open::Started { i, .. } => *i,
        _ => unreachable!(),
    }
}
