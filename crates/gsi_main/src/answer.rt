ghost use Rattle.std.specs.Prelude.{IfOk};
ghost use Rattle.script_text.specs.Scripts.{script_of};
ghost use Rattle.gsi_main.specs.Answer.{Gives, IsReportOf};

use crate::history::replay_report;
use script_text::{ScriptFault, read_script};
use std::alloc::Global;

/// The report of the replay of the script that the input is.
pub(crate) fn answer_for(alloc: Global, input: &[u8]) -> Result<Vec<u8>, ScriptFault>
    ensures gives { Gives (script_of input.now) result }
    ensures report { IfOk result (λ text. IsReportOf input.now text.items) }
{
    let script = read_script(alloc, input)?;
    Ok(replay_report(alloc, script)?)
}
