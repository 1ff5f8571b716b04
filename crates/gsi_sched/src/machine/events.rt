//! What an event leads to beside the hub: indexes begin to be built, go online, or are dropped.

ghost use Rattle.std.specs.Prelude.{◌≡◌, ◌<◌, length, IfOk, OnOk};
ghost use Rattle.std.specs.List.{AllByRecursion};
ghost use Rattle.gsi_hub.specs.Past.{state_of};
ghost use Rattle.gsi_sched.specs.Slots as slot;
ghost use Rattle.gsi_sched.specs.inner.SlotLists.{IfNumbered, IsLiveNumber, with_begun_slot, IsSizedSlot, with_begun_slots};
ghost use Rattle.gsi_sched.specs.inner.StreamSteps.{with_begun_stream, merged_all, with_begun_streams};
ghost use Rattle.gsi_sched.specs.inner.Following.{IsOneAhead, HasHappened};

use crate::machine::RunningMachine;
use crate::machine::index_slot::IndexSlot;
use crate::machine::known::known;
use crate::machine::slots::{Slots, drop_slot, put_slot, slot_at};
use gsi_hub::Hub;
use n1ql_value::Memory;
use scan_history::Event;
use std::alloc::Global;
use std::sync::Arc;
use stream_merge::Streams;

impl RunningMachine {
    /// Does what the hub's newest event leads to: the indexes whose building it begins get a slot and an initial stream, those that go online share
    /// the maintenance stream, and one that is dropped loses both.
    pub(super) fn follow(&mut self) -> Result<(), Memory>
        requires { IsOneAhead self.old }
        ensures { OnOk result (HasHappened self.old self.new) }
    {
        known();
        let Some(newest) = self.hub.events().last() else {
            unreachable!();
        };
        match newest.event() {
            Event::Define { i, deferred, .. } => {
                if *deferred {
                    return Ok(());
                }
                begin(
                    self.alloc,
                    &self.hub,
                    &mut self.slots,
                    &mut self.streams,
                    *i,
                )
            }
            Event::Build { indexes, .. } => begin_all(
                self.alloc,
                &self.hub,
                &mut self.slots,
                &mut self.streams,
                indexes.as_slice(),
            ),
            Event::Online { indexes, .. } => {
                merge_all(&mut self.streams, &self.slots, indexes.as_slice());
                Ok(())
            }
            Event::Removed { i, .. } => {
                drop_slot(&mut self.slots, *i);
                self.streams.end(*i);
                Ok(())
            }
            _ => Ok(()),
        }
    }
}

/// The building of indexes begins.
fn begin_all(
    alloc: Global,
    hub: &Hub,
    slots: &mut Slots,
    streams: &mut Streams,
    indexes: &[u32],
) -> Result<(), Memory>
    requires live { AllByRecursion (IsLiveNumber (state_of hub.now)) indexes.now }
    requires places { AllByRecursion (λ i. i < length slots.old.items) indexes.now }
    requires size { length streams.old.maint.stream.at ≡ hub.now.script.vbuckets }
    ensures slots { OnOk result (slots.new.items ≡ with_begun_slots hub.now indexes.now slots.old.items) }
    ensures streams { OnOk result (streams.new ≡ with_begun_streams hub.now.script.vbuckets indexes.now streams.old) }
{
    for i in indexes {
        begin(alloc, hub, slots, streams, *i)?;
    }
    Ok(())
}

/// The building of an index begins: it has a worker and an initial stream from now on.
fn begin(
    alloc: Global,
    hub: &Hub,
    slots: &mut Slots,
    streams: &mut Streams,
    i: u32,
) -> Result<(), Memory>
    requires live { IsLiveNumber (state_of hub.now) i }
    requires place { i < length slots.old.items }
    requires size { length streams.old.maint.stream.at ≡ hub.now.script.vbuckets }
    ensures slots { OnOk result (slots.new.items ≡ with_begun_slot hub.now i slots.old.items) }
    ensures streams { OnOk result (streams.new ≡ with_begun_stream hub.now.script.vbuckets i streams.old) }
{
    let slot = first_slot(alloc, hub, i)?;
    put_slot(slots, i, slot);
    streams.begin(i)
}

/// The slot of an index that begins to be built.
fn first_slot(alloc: Global, hub: &Hub, i: u32) -> Result<IndexSlot, Memory>
    requires live { IsLiveNumber (state_of hub.now) i }
    ensures { IfOk result (λ first. IfNumbered (state_of hub.now) i (λ index. first ≡ slot.first_slot i index.def hub.now.script.vbuckets)) }
{
    match hub.catalog().numbered(i) {
        Some(index) => IndexSlot::new(alloc, i, Arc::try_clone(index.def())?, hub.high().len()),
        None => unreachable!(),
    }
}

/// These indexes share the maintenance stream, which goes back to where each of their workers is.
fn merge_all(streams: &mut Streams, slots: &Slots, indexes: &[u32])
    requires slots { AllByRecursion (IsSizedSlot (length streams.old.maint.stream.at) slots.now.items) indexes.now }
    ensures { streams.new ≡ merged_all slots.now.items indexes.now streams.old }
{
    for i in indexes {
        streams.merge(*i, slot_at(slots, *i).vector());
    }
}
