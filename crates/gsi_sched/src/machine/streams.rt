//! Streams behind the machine: the next pieces of the maintenance stream and of an initial stream, and both going back.

ghost use Rattle.std.specs.Prelude.{◌≡◌, ◌<◌, length, IfOk, IfSome};
ghost use Rattle.std.specs.FinMap as map;
ghost use Rattle.dcp_stream.specs.Pieces.{PieceStands, next_piece, after_any, back_to};
ghost use Rattle.gsi_sched.specs.inner.StreamSteps.{IsReachedBy, OnInitial};

use dcp_stream::Piece;
use n1ql_value::Memory;
use seq_vector::Vector;
use stream_merge::Streams;
use vb_store::VbStore;

/// The next piece of the maintenance stream.
pub(super) fn next_maint(
    streams: &mut Streams,
    store: &VbStore,
    vb: u32,
    most: u64,
) -> Result<Option<Piece>, Memory>
    requires vbucket { vb < store.now.vbuckets }
    requires some { 0 < most }
    requires reached { IsReachedBy store.now streams.old.maint }
    ensures piece { IfOk result (λ piece. piece ≡ next_piece store.now.vbuckets store.now.log most vb streams.old.maint) }
    ensures stands { IfOk result (λ piece. IfSome piece (PieceStands store.now.vbuckets store.now.log)) }
    ensures moved { IfOk result (λ piece. streams.new ≡ record streams.old { maint = after_any piece streams.old.maint }) }
{
    streams.maint().next(store, vb, most)
}

/// The next piece of the initial stream of an index.
pub(super) fn next_initial(
    streams: &mut Streams,
    i: u32,
    store: &VbStore,
    vb: u32,
    most: u64,
) -> Result<Option<Piece>, Memory>
    requires vbucket { vb < store.now.vbuckets }
    requires some { 0 < most }
    requires reached { OnInitial i (IsReachedBy store.now) streams.old }
    ensures piece { IfOk result (λ piece. OnInitial i (λ m. piece ≡ next_piece store.now.vbuckets store.now.log most vb m) streams.old) }
    ensures stands { IfOk result (λ piece. IfSome piece (PieceStands store.now.vbuckets store.now.log)) }
    ensures moved { IfOk result (λ piece. OnInitial i (λ m. streams.new
        ≡ record streams.old { initial = map.insert streams.old.initial i (after_any piece m) }) streams.old) }
{
    match streams.init(i) {
        Some(position) => position.next(store, vb, most),
        None => unreachable!(),
    }
}

/// The maintenance stream goes back to a vector.
pub(super) fn rewind(streams: &mut Streams, to: &Vector)
    requires size { length streams.old.maint.stream.at ≡ length to.now }
    ensures { streams.new ≡ record streams.old { maint = back_to to.now streams.old.maint } }
{
    streams.maint().rewind(to);
}

/// The initial stream of an index goes back to a vector.
pub(super) fn rewind_initial(streams: &mut Streams, i: u32, to: &Vector)
    requires size { OnInitial i (λ m. length m.stream.at ≡ length to.now) streams.old }
    ensures { OnInitial i (λ m. streams.new ≡ record streams.old { initial = map.insert streams.old.initial i (back_to to.now m) }) streams.old }
{
    match streams.init(i) {
        Some(position) => position.rewind(to),
        None => unreachable!(),
    }
}
