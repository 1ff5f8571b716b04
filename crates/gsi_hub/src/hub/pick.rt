ghost use Rattle.std.specs.Prelude.{◌≡◌, ◌↔◌, ◌<◌, length};
ghost use Rattle.std.specs.Arc.{arc_value};
ghost use Rattle.seq_vector.specs.Vectors.{IsCovered};
ghost use Rattle.scan_coord.specs.Decisions.{decision_of};
ghost use Rattle.scan_history.specs.Events.{answer};
ghost use Rattle.scan_history.specs.Legal.{MayAnswer};
ghost use Rattle.gsi_hub.specs.Past.{state_of, part_in, Acted};
ghost use Rattle.gsi_hub.specs.Outcomes.{IsPick};
ghost use Rattle.gsi_hub.specs.Snapshots.{IsHeld};
ghost use Rattle.gsi_hub.specs.Stages.{OnRequest};
ghost use Rattle.gsi_hub.specs.inner.Parts.{opened_of};

use crate::held::Held;
use crate::hub::Hub;
use crate::known::known;
use crate::part::Open;
use crate::parts::saw_at;
use crate::picked::Picked;
use scan_coord::{Decision, decide};
use scan_history::{Event, Happened};
use seq_vector::Vector;
use std::sync::Arc;

impl Hub {
    /// Answers a client's request from what is held of its index, which is what `held` gives now. Else it says where that doesn't cover the
    /// demand, and hands the vector back; or it refuses the request, whose index was dropped. It takes no memory.
    pub fn pick(&mut self, c: u32, held: Option<Held>) -> Picked
        requires client { c < self.old.script.clients }
        requires spare { 0 < self.old.spare }
        requires held { OnRequest (part_in self.old c).opened (λ i demand. IsHeld self.old i held) }
        ensures { OnRequest (part_in self.old c).opened (λ i demand. IsPick c i demand self.old result self.new) }
    {
        match held {
            None => {
                self.refuse_dropped(c);
                Picked::Dropped
            }
            Some(held) => self.pick_held(c, held),
        }
    }

    /// The same where the index is live.
    fn pick_held(&mut self, c: u32, held: Held) -> Picked
        requires client { c < self.old.script.clients }
        requires spare { 0 < self.old.spare }
        requires held { OnRequest (part_in self.old c).opened (λ i demand. IsHeld self.old i (Some held)) }
        ensures { OnRequest (part_in self.old c).opened (λ i demand. IsPick c i demand self.old result self.new) }
    {
        let Held { snapshot, at } = held;
        match self.decision(c, &at) {
            Decision::Covered => {
                self.answer(c, at);
                Picked::Picked(snapshot)
            }
            Decision::NotYet { vb, want, have } => Picked::NotYet { vb, want, have, at },
        }
    }

    /// Whether a vector covers the demand of a client's request.
    fn decision(&self, c: u32, at: &Vector) -> Decision
        requires client { c < self.now.script.clients }
        requires request { OnRequest (part_in self.now c).opened (λ i demand. at.now ≡ (state_of self.now).published i) }
        ensures decision { OnRequest (part_in self.now c).opened (λ i demand. result ≡ decision_of demand at.now) }
        ensures covered { OnRequest (part_in self.now c).opened (λ i demand. (result ≡ Decision.Covered) ↔ IsCovered demand at.now) }
    {
        known();
        self.told();
        decide_open(&self.part(c).opened, at)
    }

    /// Adds the answer to a client's request.
    fn answer(&mut self, c: u32, at: Arc<Vector>)
        requires client { c < self.old.script.clients }
        requires spare { 0 < self.old.spare }
        requires may { MayAnswer (state_of self.old) (arc_value at) (part_in self.old c).opened }
        ensures { Acted c self.old self.new (λ e. e ≡ answer c (part_in self.old c).next (arc_value at)) }
    {
        known();
        let k = self.next_of(c);
        saw_at(&mut self.parts, c as usize, &at);
        self.events
            .push_reserved(Happened::new(Event::Answer { c, k, at }));
    }
}

/// Whether a vector covers the demand of the request that is open.
fn decide_open(opened: &Open, at: &Vector) -> Decision
    requires { OnRequest (opened_of opened.now) (λ i demand. length at.now ≡ length demand) }
    ensures decision { OnRequest (opened_of opened.now) (λ i demand. result ≡ decision_of demand at.now) }
    ensures covered { OnRequest (opened_of opened.now) (λ i demand. (result ≡ Decision.Covered) ↔ IsCovered demand at.now) }
{
    match opened {
        Open::Started { demand, .. } => decide(demand, at),
        _ => unreachable!(),
    }
}
