//! The slots of all indexes, by number: each function reads or changes one.

ghost use Rattle.std.specs.Prelude.{◌≡◌, ◌<◌, length, slice_get, slice_set, Some, None, IfOk, OnOk, ⊤};
ghost use Rattle.std.specs.Arc.{arc_value};
ghost use Rattle.std.specs.List.{AllByRecursion};
ghost use Rattle.gsi_sched.specs.Slots.{with_piece, without_piece, after_delivery};
ghost use Rattle.gsi_sched.specs.inner.SlotLists.{with_slot, OnSlot, with_sent, given_to_worker, snapshot_taken, IsSnapshotOf, Takes, TakesFrom};

use crate::machine::index_slot::IndexSlot;
use index_snapshot::Snapshot;
use key_eval::Projected;
use n1ql_value::Memory;
use projector::ProjectedList;
use std::sync::Arc;

/// A slot at the number of each building or online index, and none at the others.
pub(crate) type Slots = Vec<Option<IndexSlot>>;

/// The slot of an index.
pub(super) fn slot_at(slots: &Slots, i: u32) -> &IndexSlot
    requires there { OnSlot (λ slot. ⊤) (slice_get slots.now.items i) }
    ensures { slice_get slots.now.items i ≡ Some (Some result.now) }
{
    match slots.get(i as usize) {
        Some(Some(slot)) => slot,
        _ => unreachable!(),
    }
}

/// Puts a slot at the number of an index.
pub(super) fn put_slot(slots: &mut Slots, i: u32, slot: IndexSlot)
    requires place { i < length slots.old.items }
    ensures { slots.new.items ≡ slice_set slots.old.items i (Some slot) }
{
    slots[i as usize] = Some(slot);
}

/// Takes the slot of an index away, where it has one.
pub(super) fn drop_slot(slots: &mut Slots, i: u32)
    requires place { i < length slots.old.items }
    ensures { slots.new.items ≡ slice_set slots.old.items i None }
{
    slots[i as usize] = None;
}

/// One more piece waits for the worker of an index.
pub(super) fn send_at(slots: &mut Slots, i: u32, p: Projected) -> Result<(), Memory>
    requires there { OnSlot (λ slot. ⊤) (slice_get slots.old.items i) }
    ensures { OnOk result (slots.new.items ≡ with_slot (with_piece p) i slots.old.items) }
{
    match &mut slots[i as usize] {
        Some(slot) => slot.send(p),
        None => unreachable!(),
    }
}

/// Each piece waits for the worker of its index.
pub(super) fn send_all(slots: &mut Slots, pieces: ProjectedList) -> Result<(), Memory>
    requires there { AllByRecursion (λ p. OnSlot (λ slot. ⊤) (slice_get slots.old.items p.index)) pieces }
    ensures { OnOk result (slots.new.items ≡ with_sent pieces slots.old.items) }
{
    for p in pieces.into_vec() {
        send_at(slots, p.index, p)?;
    }
    Ok(())
}

/// The piece at a place of an index's inbox waits no longer.
pub(super) fn lose_at(slots: &mut Slots, i: u32, place: u64)
    requires there { OnSlot (λ slot. ⊤) (slice_get slots.old.items i) }
    ensures { slots.new.items ≡ with_slot (without_piece place) i slots.old.items }
{
    match &mut slots[i as usize] {
        Some(slot) => slot.lose(place),
        None => unreachable!(),
    }
}

/// It is given to the worker.
pub(super) fn deliver_at(slots: &mut Slots, i: u32, place: u64) -> Result<(), Memory>
    requires takes { OnSlot (TakesFrom place) (slice_get slots.old.items i) }
    ensures { OnOk result (slots.new.items ≡ with_slot (after_delivery place) i slots.old.items) }
{
    match &mut slots[i as usize] {
        Some(slot) => slot.deliver(place),
        None => unreachable!(),
    }
}

/// A piece is given to the worker of an index, past its inbox.
pub(super) fn give_at(slots: &mut Slots, i: u32, p: &Projected) -> Result<(), Memory>
    requires takes { OnSlot (λ slot. Takes slot p.now) (slice_get slots.old.items i) }
    ensures { OnOk result (slots.new.items ≡ with_slot (given_to_worker p.now) i slots.old.items) }
{
    match &mut slots[i as usize] {
        Some(slot) => slot.give(p),
        None => unreachable!(),
    }
}

/// The rows of the worker of an index, at its vector.
pub(super) fn snapshot_at(slots: &mut Slots, i: u32) -> Result<Arc<Snapshot>, Memory>
    requires there { OnSlot (λ slot. ⊤) (slice_get slots.old.items i) }
    ensures made { IfOk result (λ s. OnSlot (λ slot. IsSnapshotOf slot (arc_value s)) (slice_get slots.old.items i)) }
    ensures slots { OnOk result (slots.new.items ≡ with_slot snapshot_taken i slots.old.items) }
{
    match &mut slots[i as usize] {
        Some(slot) => slot.snapshot(),
        None => unreachable!(),
    }
}
