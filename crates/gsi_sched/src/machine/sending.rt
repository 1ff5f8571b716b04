//! What becomes of a piece in the indexes that it is sent to.

ghost use Rattle.std.specs.Prelude.{◌≡◌, [], ◌∷◌, length, map, slice_get, IfOk, OnOk};
ghost use Rattle.std.specs.Arc.{arc_value};
ghost use Rattle.std.specs.List.{All, AllByRecursion};
ghost use Rattle.index_def.specs.Forms.{IsFormed};
ghost use Rattle.index_def.specs.LiveIndexes.{AreNumbered};
ghost use Rattle.gsi_hub.specs.Past.{state_of};
ghost use Rattle.gsi_sched.specs.Slots.{with_piece};
ghost use Rattle.gsi_sched.specs.inner.SlotLists.{IsWorkingNumber, with_slot, OnSlot, given_to_worker, all_given, IsPieceFor, IfNumbered, HasSlots, projected_as, online_in, numbered_def_of, numbered_def_in, sent_online};

use crate::machine::slots::{Slots, give_at, send_all};
use dcp_stream::Piece;
use gsi_hub::Hub;
use index_ddl::LiveIndex;
use n1ql_value::{Memory, State};
use projector::{NumberedDef, ProjectedList, project};
use std::alloc::Global;
use std::sync::Arc;

/// Sends a piece to each online index.
pub(super) fn send_online(
    alloc: Global,
    hub: &Hub,
    slots: &mut Slots,
    piece: &Piece,
) -> Result<(), Memory>
    requires slots { HasSlots (state_of hub.now) slots.old.items }
    requires numbered { AreNumbered 0 (length (state_of hub.now).defs) (state_of hub.now).live }
    ensures { OnOk result (slots.new.items ≡ sent_online (state_of hub.now).live piece.now slots.old.items) }
{
    let defs = online_defs(alloc, hub)?;
    let pieces = project(alloc, piece, defs.as_slice())?;
    send_all(slots, pieces)
}

/// Sends a piece to an index.
pub(super) fn send_to(
    alloc: Global,
    hub: &Hub,
    slots: &mut Slots,
    i: u32,
    piece: &Piece,
) -> Result<(), Memory>
    requires slots { HasSlots (state_of hub.now) slots.old.items }
    requires working { IsWorkingNumber (state_of hub.now) i }
    ensures { OnOk result (IfNumbered (state_of hub.now) i (λ index. slots.new.items
        ≡ with_slot (with_piece (projected_as i index.def piece.now)) i slots.old.items)) }
{
    let pieces = project_one(alloc, hub, i, piece)?;
    send_all(slots, pieces)
}

/// What becomes of a piece in one index.
pub(super) fn project_one(
    alloc: Global,
    hub: &Hub,
    i: u32,
    piece: &Piece,
) -> Result<ProjectedList, Memory>
    requires working { IsWorkingNumber (state_of hub.now) i }
    ensures { IfOk result (λ ps. IfNumbered (state_of hub.now) i (λ index. ps ≡ projected_as i index.def piece.now ∷ [])) }
{
    match hub.catalog().numbered(i) {
        Some(index) => project(alloc, piece, &[numbered(index)?]),
        None => unreachable!(),
    }
}

/// Gives pieces to the worker of an index, one after another, past its inbox.
pub(super) fn give_all(
    alloc: Global,
    hub: &Hub,
    slots: &mut Slots,
    i: u32,
    pieces: &[Piece],
) -> Result<(), Memory>
    requires slots { HasSlots (state_of hub.now) slots.old.items }
    requires working { IsWorkingNumber (state_of hub.now) i }
    requires fit { OnSlot (λ slot. AllByRecursion (IsPieceFor slot) pieces.now) (slice_get slots.old.items i) }
    ensures { OnOk result (IfNumbered (state_of hub.now) i (λ index. slots.new.items
        ≡ with_slot (all_given (map (projected_as i index.def) pieces.now)) i slots.old.items)) }
{
    for piece in pieces {
        give(alloc, hub, slots, i, piece)?;
    }
    Ok(())
}

/// Gives a piece to the worker of an index.
fn give(alloc: Global, hub: &Hub, slots: &mut Slots, i: u32, piece: &Piece) -> Result<(), Memory>
    requires working { IsWorkingNumber (state_of hub.now) i }
    requires fits { OnSlot (λ slot. IsPieceFor slot piece.now) (slice_get slots.old.items i) }
    ensures { OnOk result (IfNumbered (state_of hub.now) i (λ index. slots.new.items
        ≡ with_slot (given_to_worker (projected_as i index.def piece.now)) i slots.old.items)) }
{
    let projected = project_one(alloc, hub, i, piece)?;
    match projected.get(0) {
        Some(p) => give_at(slots, i, p),
        None => unreachable!(),
    }
}

/// The definitions of the online indexes with their numbers, in order of creation.
fn online_defs(alloc: Global, hub: &Hub) -> Result<Vec<NumberedDef>, Memory>
    ensures defs { IfOk result (λ defs. map numbered_def_of defs.items ≡ map numbered_def_in (online_in (state_of hub.now).live)) }
    ensures formed { IfOk result (λ defs. All (λ d. IsFormed (arc_value d.def)) defs.items) }
{
    let mut defs = Vec::new(alloc);
    let catalog = hub.catalog();
    for at in 0..catalog.len() {
        if let Some(index) = catalog.get(at) {
            if matches!(index.state(), State::Online) {
                defs.push(numbered(index)?)?;
            }
        }
    }
    Ok(defs)
}

/// The definition of an index with its number.
fn numbered(index: &LiveIndex) -> Result<NumberedDef, Memory>
    ensures { IfOk result (λ d. numbered_def_of d ≡ numbered_def_in index.now) }
{
    Ok(NumberedDef {
        number: index.number(),
        def: Arc::try_clone(index.def())?,
    })
}
