//! The lock.
ghost use Rattle.std.specs.Prelude.{◌≡◌};

use crate::chronicle::Chronicle;
use crate::view::Board;

/// A lock whose state is a list of events that only grows. Who holds the turn has the state in its pass.
#[derive(Drop)]
pub struct HistLock<S: Chronicle + Drop> {
    pub(crate) table: Board<S>,
    ghost three_words: { table.shared.table_id.words ≡ 3 },
    ghost one_slot: { table.shared.table_id.slots ≡ 1 },
}
