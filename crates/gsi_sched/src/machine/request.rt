ghost use Rattle.std.specs.Prelude.{◌≡◌, ◌<◌, ℕ, List, IfOk, IfNone, IfSome, OnOk};
ghost use Rattle.std.specs.Arc.{arc_value};
ghost use Rattle.scan_history.specs.Legal.{waits, MayNotYet};
ghost use Rattle.gsi_hub.specs.Past.{state_of, part_in, next_command};
ghost use Rattle.gsi_sched.specs.ClientActions as action;
ghost use Rattle.gsi_sched.specs.inner.Following.{IsFollowing, GoesReading};
ghost use Rattle.gsi_sched.specs.inner.ClientTurns.{IsUntoldFrom, IsTold, IsRequestOn, IsRequestOpen, IsStill, IsShortOf};

use crate::machine::RunningMachine;
use crate::machine::answer::{answered, text_of};
use crate::machine::known::known;
use gsi_hub::Picked;
use index_snapshot::Snapshot;
use n1ql_value::Memory;
use scan_history::{Answered, Command};
use seq_vector::Vector;
use std::sync::Arc;

impl RunningMachine {
    /// Ends a client's request on an index: by an answer, by its refusal, or by saying that there is no answer yet. Where it waits and isn't covered the
    /// index is caught up before.
    pub(super) fn finish_request(&mut self, c: u32, i: u32) -> Result<(), Memory>
        requires following { IsFollowing self.old }
        requires client { c < self.old.hub.script.clients }
        requires request { IsRequestOn self.old.hub c i }
        ensures { OnOk result (GoesReading (λ read. action.act read self.old.hub.script c) self.old self.new) }
    {
        match self.decide(c)? {
            Some(at) => self.finish_short(c, i, at),
            None => Ok(()),
        }
    }

    /// The same where the newest publication, which is at this vector, doesn't cover the demand.
    fn finish_short(&mut self, c: u32, i: u32, at: Arc<Vector>) -> Result<(), Memory>
        requires following { IsFollowing self.old }
        requires client { c < self.old.hub.script.clients }
        requires request { IsRequestOn self.old.hub c i }
        requires short { IsShortOf c (arc_value at) self.old }
        ensures { OnOk result (GoesReading (λ read. action.act read self.old.hub.script c) self.old self.new) }
    {
        known();
        if !self.waits(c) {
            return self.say_not_yet(c, at);
        }
        self.catch_up(i)?;
        self.finish_caught_up(c)
    }

    /// The same once the index is caught up.
    fn finish_caught_up(&mut self, c: u32) -> Result<(), Memory>
        requires following { IsFollowing self.old }
        requires client { c < self.old.hub.script.clients }
        requires request { IsRequestOpen self.old.hub c }
        requires may { (at : List ℕ) → IsShortOf c at self.old → MayNotYet (state_of self.old.hub) (waits (next_command self.old.hub c)) at (part_in self.old.hub c).opened }
        ensures { OnOk result (GoesReading (λ read. action.go_on read self.old.hub.script c) self.old self.new) }
    {
        match self.decide(c)? {
            Some(at) => self.say_not_yet(c, at),
            None => Ok(()),
        }
    }

    /// Answers a client's request from the newest publication, or refuses it as its index was dropped; nothing has to be caught up before. Where that
    /// publication doesn't cover the demand nothing happens, and its vector is given.
    fn decide(&mut self, c: u32) -> Result<Option<Arc<Vector>>, Memory>
        requires following { IsFollowing self.old }
        requires client { c < self.old.hub.script.clients }
        requires request { IsRequestOpen self.old.hub c }
        ensures ended { IfOk result (λ short. IfNone short (GoesReading (λ read. action.go_on read self.old.hub.script c) self.old self.new)) }
        ensures acted { IfOk result (λ short. IfNone short (GoesReading (λ read. action.act read self.old.hub.script c) self.old self.new)) }
        ensures short { IfOk result (λ short. IfSome short (λ at. IsShortOf c (arc_value at) self.old × IsStill self.old self.new)) }
    {
        known();
        self.hub.reserve(1)?;
        let held = self.hub.held(c)?;
        match self.hub.pick(c, held) {
            Picked::Picked(snapshot) => {
                self.tell(&snapshot)?;
                Ok(None)
            }
            Picked::NotYet { at, .. } => Ok(Some(at)),
            Picked::Dropped => Ok(None),
        }
    }

    /// Adds the text of the answer that the newest event is: of the rows of this snapshot that the spans of its command hold.
    fn tell(&mut self, snapshot: &Snapshot) -> Result<(), Memory>
        requires untold { IsUntoldFrom snapshot.now self.old }
        ensures { OnOk result (IsTold self.old self.new) }
    {
        known();
        let (c, k) = answered(self.hub.events());
        let text = text_of(self.alloc, &self.script, c, k, snapshot)?;
        self.answers.push(Answered {
            c,
            k,
            text: Some(text),
        })
    }

    /// Says that a client's request has no answer yet.
    fn say_not_yet(&mut self, c: u32, at: Arc<Vector>) -> Result<(), Memory>
        requires following { IsFollowing self.old }
        requires client { c < self.old.hub.script.clients }
        requires short { IsShortOf c (arc_value at) self.old }
        requires may { MayNotYet (state_of self.old.hub) (waits (next_command self.old.hub c)) (arc_value at) (part_in self.old.hub c).opened }
        ensures { OnOk result (GoesReading (λ read. action.go_on read self.old.hub.script c) self.old self.new) }
    {
        known();
        self.hub.reserve(1)?;
        self.hub.not_yet(c, at);
        Ok(())
    }

    /// Whether a client's request waits for a publication that covers its demand.
    fn waits(&self, c: u32) -> bool
        requires client { c < self.now.hub.script.clients }
        ensures { result ≡ waits (next_command self.now.hub c) }
    {
        match self.hub.command(c) {
            Some(Command::Scan { ask, .. }) => ask.wait,
            _ => false,
        }
    }
}
