ghost use Rattle.gsi_sched.specs.inner.Known.{Known};

use crate::heart::stood;
use crate::laws::below;
use index_snapshot::laws as workers;
use scan_history::laws as histories;

/// What the laws promise of a machine, of one more event of its history, and of scans.
pub(super) fn known()
    ensures { Known }
{
    below();
    stood();
    histories::texts_are_read_in_one_way();
    histories::one_more();
    histories::beginnings();
    histories::an_open_request_was_asked_for();
    histories::answers_stay();
    workers::a_scan_is_that_of_the_documents();
}
