ghost use Rattle.std.specs.Prelude.{◌<◌, ◌≤◌, ◌≡◌, ◌+◌, ◌^◌, ℕ, IfOk, slice_set};
ghost use Rattle.seq_vector.specs.Vectors.{entry};
ghost use Rattle.vb_store.specs.Mutations.{high_of};
ghost use Rattle.scan_history.specs.Fold.{state_after};
ghost use Rattle.scan_history.specs.Happened.{event_of};
ghost use Rattle.script_text.specs.Counts.{counted};

use n1ql_value::Memory;
use scan_history::{Event, Happened};
use seq_vector::{Vector, zero};
use std::alloc::Global;
use vb_store::laws::high_counts;

/// The newest number of each of the `n` vBuckets after the events: how many mutations of it there are.
pub(crate) fn high_of(alloc: Global, n: u32, events: &[Happened]) -> Result<Vector, Memory>
    requires { (0 < n) × (n ≤ 1024) }
    ensures { IfOk result (λ high. high ≡ high_of n (state_after n events.now).log) }
{
    high_counts();
    let mut high = zero(alloc, n)?;
    for happened in events {
        count(&mut high, happened.event());
    }
    Ok(high)
}

/// Counts an event, if it is a mutation.
fn count(high: &mut Vector, event: &Event)
    requires { (vb : ℕ) → entry high.old vb + 1 < 2 ^ 64 }
    ensures { high.new ≡ counted high.old (event_of event.now) }
{
    if let Event::Mutate { what, .. } = event {
        count_one(high, what.vb);
    }
}

fn count_one(high: &mut Vector, vb: u32)
    requires { (at : ℕ) → entry high.old at + 1 < 2 ^ 64 }
    ensures { high.new ≡ slice_set high.old vb (entry high.old vb + 1) }
{
    if vb < high.len() {
        let next = high.get(vb) + 1;
        high.set(vb, next);
    }
}
