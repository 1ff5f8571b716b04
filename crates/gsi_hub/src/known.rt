ghost use Rattle.gsi_hub.specs.inner.Known.{Known};

use index_snapshot::laws as snapshots;
use scan_history::laws as histories;
use vb_store::laws as mutations;

/// What the crates below promise of histories, vectors and snapshots.
pub(crate) fn known()
    ensures { Known }
{
    histories::texts_are_read_in_one_way();
    histories::other_clients();
    histories::own_part();
    histories::one_more();
    histories::a_first_action_may_follow();
    histories::one_next_event();
    histories::a_legal_history_is_consistent();
    histories::commands_come_in_order();
    histories::an_open_request_was_asked_for();
    histories::an_index_goes_forth();
    mutations::high_counts();
    snapshots::growth();
}
