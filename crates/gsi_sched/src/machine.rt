//! The machine that runs a script with a schedule: what stands beside the hub, and the steps of the replay.

ghost use Rattle.std.specs.Prelude.{◌≡◌, replicate, None, IfOk};
ghost use Rattle.std.specs.Arc.{arc_value};
ghost use Rattle.n1ql_value.specs.Limits.{max_indexes};
ghost use Rattle.scan_history.specs.Sound.{IsSound};
ghost use Rattle.gsi_sched.specs.Machine.{first_machine};
ghost use Rattle.gsi_sched.specs.inner.Following.{Follows};

mod action;
mod answer;
mod catch_up;
mod ends;
mod events;
mod inbox;
mod index_slot;
mod known;
mod line;
mod projection;
mod publication;
mod reading;
mod request;
mod sending;
mod slots;
mod streams;
pub(crate) mod whole;
mod work;

use crate::laws::each_step_keeps_the_machine_running;
use gsi_hub::Hub;
use index_slot::IndexSlot;
use n1ql_value::Memory;
use n1ql_value::limits::MAX_INDEXES;
use scan_history::{AnswerList, Script};
use std::alloc::Global;
use std::sync::Arc;
use stream_merge::Streams;

/// A replay as far as it has come. The slots stand at the numbers of their indexes; a building or an online index has one.
#[derive(Drop)]
pub(crate) struct RunningMachine {
    pub(crate) alloc: Global,
    pub(crate) script: Arc<Script>,
    pub(crate) hub: Hub,
    pub(crate) streams: Streams,
    pub(crate) slots: Vec<Option<IndexSlot>>,
    pub(crate) answers: AnswerList,
}

impl RunningMachine {
    /// A script's machine before its first step.
    ///
    /// # Errors
    ///
    /// `Memory` where memory ran out.
    pub(crate) fn new(alloc: Global, script: Arc<Script>) -> Result<RunningMachine, Memory>
        requires { IsSound (arc_value script) }
        ensures first { IfOk result (Follows (first_machine (arc_value script).vbuckets)) }
        ensures script { IfOk result (λ r. r.hub.script ≡ arc_value script) }
    {
        each_step_keeps_the_machine_running();
        let streams = Streams::new(alloc, script.vbuckets)?;
        let slots = no_slots(alloc)?;
        let hub = Hub::new(alloc, Arc::try_clone(&script)?)?;
        Ok(RunningMachine {
            alloc,
            script,
            hub,
            streams,
            slots,
            answers: AnswerList::new(alloc),
        })
    }
}

/// Places for as many slots as there may be indexes.
fn no_slots(alloc: Global) -> Result<Vec<Option<IndexSlot>>, Memory>
    ensures { IfOk result (λ slots. slots.items ≡ replicate max_indexes None) }
{
    let mut slots = Vec::with_capacity(alloc, MAX_INDEXES)?;
    for _ in 0..MAX_INDEXES {
        slots.push(None)?;
    }
    Ok(slots)
}
