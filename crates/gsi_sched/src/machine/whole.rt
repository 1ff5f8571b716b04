//! The whole replay.

ghost use Rattle.std.specs.Prelude.{◌≡◌, ◌*◌, ◌^◌, ◌<◌, ℕ, List, length, fold, slice_get, IfOk, OnOk};
ghost use Rattle.std.specs.Arc.{arc_value};
ghost use Rattle.std.specs.List.{AllByRecursion};
ghost use Rattle.scan_history.specs.Answers.{answers_of, ends_of};
ghost use Rattle.scan_history.specs.First.{commands_of};
ghost use Rattle.scan_history.specs.Fold.{state_after};
ghost use Rattle.scan_history.specs.Legal.{IsLegal, IsFinished};
ghost use Rattle.scan_history.specs.Readings.{Read, AreRead};
ghost use Rattle.scan_history.specs.Sound.{IsSound, IsTurn};
ghost use Rattle.gsi_hub.specs.Past.{state_of};
ghost use Rattle.gsi_sched.specs.Replay as whole;
ghost use Rattle.gsi_sched.specs.inner.SlotLists.{online_number};
ghost use Rattle.gsi_sched.specs.inner.Following.{IsFollowing, GoesReading};

use crate::laws::the_replay_is_finished;
use crate::machine::RunningMachine;
use crate::machine::known::known;
use n1ql_value::{Memory, State};
use scan_history::{Done, Script, Turn};
use std::alloc::Global;
use std::sync::Arc;

impl RunningMachine {
    /// Follows the lines of a schedule.
    fn take_turns(&mut self, turns: &[Turn]) -> Result<(), Memory>
        requires following { IsFollowing self.old }
        requires turns { AllByRecursion (IsTurn self.old.hub.script.vbuckets self.old.hub.script.clients) turns.now }
        ensures { OnOk result (GoesReading (λ read m. fold (whole.after_turn read self.old.hub.script) m turns.now) self.old self.new) }
    {
        known();
        for turn in turns {
            self.take_turn(turn)?;
        }
        Ok(())
    }

    /// The clients act one after another, each until it has nothing left.
    fn finish_clients(&mut self, script: &Script) -> Result<(), Memory>
        requires following { IsFollowing self.old }
        requires script { script.now ≡ self.old.hub.script }
        ensures { OnOk result (GoesReading (λ read. whole.after_clients read script.now script.now.clients) self.old self.new) }
    {
        known();
        for c in 0..script.clients {
            self.finish_client(c, 3 * command_count(script, c))?;
        }
        Ok(())
    }

    /// So many actions of a client.
    fn finish_client(&mut self, c: u32, actions: u32) -> Result<(), Memory>
        requires following { IsFollowing self.old }
        requires client { c < self.old.hub.script.clients }
        ensures { OnOk result (GoesReading (λ read. whole.after_actions read self.old.hub.script c actions) self.old self.new) }
    {
        known();
        for _ in 0..actions {
            self.act(c)?;
        }
        Ok(())
    }

    /// Each online index is caught up.
    fn finish_indexes(&mut self) -> Result<(), Memory>
        requires following { IsFollowing self.old }
        ensures { OnOk result (GoesReading (λ read. whole.at_the_end read self.old.hub.script) self.old self.new) }
    {
        known();
        for at in 0..self.hub.catalog().len() {
            if let Some(i) = self.online_at(at) {
                self.catch_up(i)?;
            }
        }
        Ok(())
    }

    /// The number of the live index at a place in order of creation, where it is online.
    fn online_at(&self, at: usize) -> Option<u32>
        ensures { result ≡ online_number (slice_get (state_of self.now.hub).live at) }
    {
        let index = self.hub.catalog().get(at)?;
        matches!(index.state(), State::Online).then_some(index.number())
    }
}

/// How many commands a client has.
fn command_count(script: &Script, c: u32) -> u32
    requires sound { IsSound script.now }
    ensures count { result ≡ length (commands_of script.now c) }
    ensures fits { 3 * result < 2 ^ 32 }
{
    match script.commands.get(c as usize) {
        Some(commands) => commands.len() as u32,
        None => 0,
    }
}

/// The outcome of a script: the history of its replay, the answers of that history, and how its indexes end there. Each command of a client stands in
/// it once and in order, and is closed; each online index is published at the newest numbers.
///
/// # Errors
///
/// `Memory` where memory ran out.
pub fn replay(alloc: Global, script: Arc<Script>) -> Result<Done, Memory>
    requires sound { IsSound (arc_value script) }
    ensures events { IfOk result (λ done. (read : List ℕ → Read) → AreRead read → done.events ≡ whole.history_of read (arc_value script)) }
    ensures legal { IfOk result (λ done. IsLegal (arc_value script) done.events) }
    ensures finished { IfOk result (λ done. IsFinished (arc_value script) (state_after (arc_value script).vbuckets done.events)) }
    ensures answers { IfOk result (λ done. done.answers ≡ answers_of (arc_value script) done.events) }
    ensures ends { IfOk result (λ done. done.ends ≡ ends_of (arc_value script) done.events) }
{
    known();
    the_replay_is_finished();
    let mut machine = RunningMachine::new(alloc, Arc::try_clone(&script)?)?;
    machine.take_turns(script.schedule.as_slice())?;
    machine.finish_clients(&script)?;
    machine.finish_indexes()?;
    machine.into_done()
}
