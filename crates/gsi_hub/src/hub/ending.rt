ghost use Rattle.std.specs.Prelude.{◌≡◌, ◌<◌, length, ⊤, take};
ghost use Rattle.gsi_hub.specs.Past.{state_of, part_in};
ghost use Rattle.gsi_hub.specs.Stages.{OnWork};
ghost use Rattle.gsi_hub.specs.inner.Endings.{IsEnding, IsEndingAt};

use crate::ending::Ending;
use crate::hub::Hub;
use crate::known::known;
use crate::part::{Open, Work};
use seq_vector::Vector;

impl Hub {
    /// What the building of a client's indexes may end with.
    pub(super) fn ending(&self, c: u32) -> Ending
        requires client { c < self.now.script.clients }
        requires work { OnWork (part_in self.now c).opened (λ indexes high. ⊤) }
        ensures { OnWork (part_in self.now c).opened (λ indexes high. IsEnding (state_of self.now) indexes high result) }
    {
        known();
        self.told();
        match &self.part(c).opened {
            Open::Work(work) => self.ending_of(work),
            _ => unreachable!(),
        }
    }

    /// What the building of indexes may end with.
    fn ending_of(&self, work: &Work) -> Ending
        requires { length work.now.high ≡ self.now.script.vbuckets }
        ensures { IsEnding (state_of self.now) work.now.indexes work.now.high result }
    {
        let mut ending = Ending::Dropped;
        for i in work.indexes.as_slice() {
            ending = ending.and(self.ending_at(*i, &work.high));
        }
        ending
    }

    /// The same of one index.
    fn ending_at(&self, i: u32, high: &Vector) -> Ending
        requires { length high.now ≡ self.now.script.vbuckets }
        ensures { IsEndingAt (state_of self.now) i high.now result }
    {
        known();
        match self.newest(i) {
            None => Ending::Dropped,
            Some(newest) => {
                if newest.vector.covers(high) {
                    Ending::Covered
                } else {
                    Ending::Lags { i }
                }
            }
        }
    }
}
