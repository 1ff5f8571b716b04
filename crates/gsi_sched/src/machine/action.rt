ghost use Rattle.std.specs.Prelude.{◌<◌, OnOk};
ghost use Rattle.gsi_hub.specs.Past.{next_command};
ghost use Rattle.gsi_sched.specs.ClientActions as action;
ghost use Rattle.gsi_sched.specs.inner.Following.{IsFollowing, GoesReading};
ghost use Rattle.gsi_sched.specs.inner.ClientTurns.{IsReadingOf, IsIdle, HasComeNext};

use crate::machine::RunningMachine;
use crate::machine::known::known;
use crate::machine::reading::{Reading, read_command};
use gsi_hub::Stage;
use n1ql_value::Memory;

impl RunningMachine {
    /// The next action of a client; nothing where it has nothing left.
    pub(super) fn act(&mut self, c: u32) -> Result<(), Memory>
        requires following { IsFollowing self.old }
        requires client { c < self.old.hub.script.clients }
        ensures { OnOk result (GoesReading (λ read. action.act read self.old.hub.script c) self.old self.new) }
    {
        known();
        match self.hub.stage(c) {
            Stage::Ended => Ok(()),
            Stage::Idle => self.take_command(c),
            Stage::Work => self.finish_work(c),
            Stage::Started { i } => self.finish_request(c, i),
            Stage::Picked { .. } => unreachable!(),
        }
    }

    /// A client takes its next command, with nothing open.
    fn take_command(&mut self, c: u32) -> Result<(), Memory>
        requires following { IsFollowing self.old }
        requires client { c < self.old.hub.script.clients }
        requires idle { IsIdle self.old.hub c }
        ensures { OnOk result (GoesReading (λ read. action.go_on read self.old.hub.script c) self.old self.new) }
    {
        known();
        self.begin_command(c)?;
        self.follow()
    }

    /// The first event of a client's next command.
    fn begin_command(&mut self, c: u32) -> Result<(), Memory>
        requires following { IsFollowing self.old }
        requires client { c < self.old.hub.script.clients }
        requires idle { IsIdle self.old.hub c }
        ensures { OnOk result (HasComeNext c self.old self.new) }
    {
        let reading = read_command(self.alloc, self.hub.command(c))?;
        self.begin_as(c, &reading)
    }

    /// The same once the command's text is read.
    fn begin_as(&mut self, c: u32, reading: &Reading) -> Result<(), Memory>
        requires following { IsFollowing self.old }
        requires client { c < self.old.hub.script.clients }
        requires idle { IsIdle self.old.hub c }
        requires reading { IsReadingOf (next_command self.old.hub c) reading.now }
        ensures { OnOk result (HasComeNext c self.old self.new) }
    {
        known();
        match reading {
            Reading::Change => {
                self.hub.mutate(c)?;
                Ok(())
            }
            Reading::Statement(read) => {
                self.hub.define(c, read)?;
                Ok(())
            }
            Reading::Fault { at } => {
                self.hub.reserve(1)?;
                self.hub.refuse_parse(c, *at);
                Ok(())
            }
            Reading::Request => {
                self.hub.start(c)?;
                Ok(())
            }
        }
    }
}
