ghost use Rattle.std.specs.Prelude.{◌≡◌, ◌<◌, length, OnOk};
ghost use Rattle.std.specs.Option.{option_copied};
ghost use Rattle.scan_history.specs.Sound.{IsTurn};
ghost use Rattle.scan_history.specs.declared.turn.Turn.TheVariants as turn;
ghost use Rattle.gsi_hub.specs.Past.{state_of};
ghost use Rattle.gsi_sched.specs.ScheduleLines as line;
ghost use Rattle.gsi_sched.specs.Replay as whole;
ghost use Rattle.gsi_sched.specs.inner.SlotLists.{number_in};
ghost use Rattle.gsi_sched.specs.inner.Following.{IsFollowing, Goes, GoesReading};

use crate::machine::RunningMachine;
use crate::machine::known::known;
use n1ql_value::{Memory, State, Text};
use scan_history::Turn;
use seq_vector::Vector;

impl RunningMachine {
    /// Follows a line of the schedule.
    pub(super) fn take_turn(&mut self, turn: &Turn) -> Result<(), Memory>
        requires following { IsFollowing self.old }
        requires turn { IsTurn self.old.hub.script.vbuckets self.old.hub.script.clients turn.now }
        ensures { OnOk result (GoesReading (λ read m. whole.after_turn read self.old.hub.script m turn.now) self.old self.new) }
    {
        match turn {
            Turn::Client { c } => self.act(*c),
            Turn::Project { vb, index } => self.project_line(*vb, index.as_ref()),
            Turn::Deliver { index, place } => self.deliver_line(index, *place),
            Turn::Lose { index, place } => {
                self.lose_line(index, *place);
                Ok(())
            }
            Turn::Publish { index } => self.publish_line(index),
            Turn::Rewind { to, index } => {
                self.rewind_line(to, index.as_ref());
                Ok(())
            }
        }
    }

    /// A stream gives a piece: the maintenance stream, or the initial stream of an index that is being built.
    fn project_line(&mut self, vb: u32, index: Option<&Text>) -> Result<(), Memory>
        requires following { IsFollowing self.old }
        requires vbucket { vb < self.old.hub.script.vbuckets }
        ensures { OnOk result (GoesReading (λ read m. whole.after_turn read self.old.hub.script m (turn.Project vb (option_copied index.entry))) self.old self.new) }
    {
        known();
        let Some(name) = index else {
            return self.project(vb);
        };
        match self.building(name) {
            Some(i) => self.project_to(vb, i),
            None => Ok(()),
        }
    }

    /// A piece of an index's inbox is delivered.
    fn deliver_line(&mut self, name: &Text, place: u64) -> Result<(), Memory>
        requires following { IsFollowing self.old }
        ensures { OnOk result (Goes (line.on_index self.old.hub.script.vbuckets name.now line.has_worker (line.deliver self.old.hub.script.vbuckets place)) self.old self.new) }
    {
        known();
        match self.working(name) {
            Some(i) => self.deliver(i, place),
            None => Ok(()),
        }
    }

    /// Or lost.
    fn lose_line(&mut self, name: &Text, place: u64)
        requires following { IsFollowing self.old }
        ensures { Goes (line.on_index self.old.hub.script.vbuckets name.now line.has_worker (line.lose self.old.hub.script.vbuckets place)) self.old self.new }
    {
        known();
        if let Some(i) = self.working(name) {
            self.lose(i, place);
        }
    }

    /// An index is published as far as its worker has come.
    fn publish_line(&mut self, name: &Text) -> Result<(), Memory>
        requires following { IsFollowing self.old }
        ensures { OnOk result (Goes (line.on_index self.old.hub.script.vbuckets name.now line.has_worker (line.publish_now self.old.hub.script.vbuckets)) self.old self.new) }
    {
        known();
        match self.working(name) {
            Some(i) => self.publish(i),
            None => Ok(()),
        }
    }

    /// A stream goes back to a vector: the maintenance stream, or the initial stream of an index that is being built.
    fn rewind_line(&mut self, to: &Vector, index: Option<&Text>)
        requires following { IsFollowing self.old }
        requires size { length to.now ≡ self.old.hub.script.vbuckets }
        ensures { GoesReading (λ read m. whole.after_turn read self.old.hub.script m (turn.Rewind to.now (option_copied index.entry))) self.old self.new }
    {
        known();
        let Some(name) = index else {
            return self.rewind(to);
        };
        if let Some(i) = self.building(name) {
            self.rewind_to(i, to);
        }
    }

    /// The number of the live index of a name, where it is being built.
    fn building(&self, name: &Text) -> Option<u32>
        ensures { result ≡ number_in line.is_building name.now (state_of self.now.hub).live }
    {
        let index = self.hub.catalog().named(name.as_str())?;
        matches!(index.state(), State::Building).then_some(index.number())
    }

    /// The number of the live index of a name, where it is building or online.
    fn working(&self, name: &Text) -> Option<u32>
        ensures { result ≡ number_in line.has_worker name.now (state_of self.now.hub).live }
    {
        let index = self.hub.catalog().named(name.as_str())?;
        (!matches!(index.state(), State::Deferred)).then_some(index.number())
    }
}
