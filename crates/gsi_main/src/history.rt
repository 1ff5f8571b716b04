ghost use Rattle.std.specs.Prelude.{IfOk};
ghost use Rattle.scan_history.specs.Sound.{IsSound};
ghost use Rattle.gsi_main.specs.Answer.{IsReplayReport};

use gsi_sched::replay;
use n1ql_value::Memory;
use scan_history::{Script, laws};
use script_text::report;
use std::alloc::Global;
use std::sync::Arc;

/// The report of the history that the script's replay gives.
pub(crate) fn replay_report(alloc: Global, script: Script) -> Result<Vec<u8>, Memory>
    requires { IsSound script }
    ensures { IfOk result (λ text. IsReplayReport script text.items) }
{
    let script = Arc::new(alloc, script)?;
    let done = replay(alloc, Arc::try_clone(&script)?)?;
    laws::requests_are_served();
    report(alloc, &script, &done)
}
