//! A note: what one pass knew, on its way to another.
ghost use Rattle.std.specs.Prelude.{◌≡◌, [], length, false, None};

use crate::chronicle::Chronicle;
use crate::view::Place;

/// What one pass knew of the list. It names no party.
#[derive(Drop)]
pub struct Note<S: Chronicle> {
    pub(crate) seat: Place<S>,
    // How many events it tells of.
    pub(crate) count: u64,
    ghost nameless: { seat.me.0.party ≡ None },
    ghost count_is: { length seat.me.0.seen ≡ count },
    ghost no_turn: { seat.me.0.turn ≡ false },
    ghost no_slot: { seat.me.1 ≡ [] },
}
