//! Laws of the report: each is the contract of a function that does nothing.
ghost use Rattle.std.specs.Prelude.{◌≡◌, List};
ghost use Rattle.scan_history.specs.declared.script.Script.{Script};
ghost use Rattle.scan_history.specs.Events.{Event};
ghost use Rattle.scan_history.specs.Legal.{IsLegal};
ghost use Rattle.scan_history.specs.Sound.{IsSound};
ghost use Rattle.script_text.specs.Reports.{report_of};

use scan_history::laws as histories;
use vb_store::laws as mutations;

/// Law of the report: two legal histories of one script with equal reports are equal. The script is within the limits, as every script that
/// is read, so that its numbers are written whole.
pub fn equal_reports()
    ensures { (script : Script) (events others : List Event)
        → IsSound script → IsLegal script events → IsLegal script others
        → report_of script events ≡ report_of script others → events ≡ others }
{
    histories::texts_are_read_in_one_way();
    histories::marks_tell_events();
    histories::one_more();
    histories::beginnings();
    histories::a_legal_history_is_consistent();
    histories::an_open_request_was_asked_for();
    histories::answers_stay();
    mutations::high_counts();
}
